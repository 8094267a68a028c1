// Frames packed to 16 bits for the viewer, and back: the packer and the reader of request E5, over lent lists.
// A number of 16 bits is a u16 in two's complement: -1 is 65535, -32,768 is 32768.
#![tactic(auto)]

ghost use Rattle.std.specs.Prelude.{◌≡◌, ◌+◌, ◌*◌, ◌^◌, ◌≤◌, ◌<◌, ◌++◌, length, get_or, drop};
ghost use Rattle.std.proofs.lemmas.List.Edits.{sets};
ghost use Rattle.tangent.specs.Slot.{slot_words};
ghost use Rattle.packed.specs.Rounding as rounding;
ghost use Rattle.packed.specs.Component as spec;
ghost use Rattle.packed.specs.Packer as packer;
ghost use Rattle.packed.specs.Reader as reader;
ghost use Rattle.packed.specs.Contract.{number_of, place_of, packed_of, unpacked_of, Packs, Unpacks};

// The numbers of specs/: those of a packed slot, and the words that are read of it.
const PACKED_NUMBERS: usize = 7;

const READ_WORDS: usize = 8;

// Of a float's bits: the sign, the leading digit, 2 ^ -16, 1, and the greatest that is packed.
const SIGN: u32 = 0x80000000;

const LEADING: u32 = 0x00800000;

const LEAST: u32 = 0x37800000;

const ONE: u32 = 0x3f800000;

const FURTHEST: u32 = 0x3f800008;

// What 1 is packed as, and how many numbers 16 bits can be.
const FULL_SCALE: u64 = 32767;

const SHORT_VALUES: u32 = 65536;

// -32,768 and -1 as 16 bits, what 32 bits of a negative number have above its 16, and -32,768 as 32 bits.
const NOTHING: u16 = 0x8000;

const MINUS_ONE: u16 = 0xffff;

const EXTENDED: u32 = 0xffff0000;

const WIDE: u32 = 0xffff8000;

// Why a call is refused.
#[derive(Clone, Copy, PartialEq, Eq, Debug)]
pub enum Refusal {
    // The list is not in whole slots, or not in whole sevens.
    Broken,
    // The list that is lent is too short.
    TooShort,
    // The packer can't write the seven numbers of this slot.
    NotPacked(usize),
}

impl Refusal {
    // The number that C reads.
    fn number(self) -> u32
        ensures { result ≡ number_of self }
    {
        match self {
            Refusal::Broken => 1,
            Refusal::TooShort => 2,
            Refusal::NotPacked(_) => 3,
        }
    }

    // The slot that it is about, 0 where it is about none.
    fn place(self) -> usize
        ensures { result ≡ place_of self }
    {
        match self {
            Refusal::NotPacked(slot) => slot,
            _ => 0,
        }
    }
}

// What the packer returns: 0 and how many numbers it wrote, or a refusal and 0.
#[repr(C)]
#[derive(Clone, Copy)]
pub struct Packed {
    pub number: u32,
    pub count: usize,
}

impl From<Result<usize, Refusal>> for Packed {
    ghost from_gives = { λ r p. p ≡ packed_of r };

    fn from(r: Result<usize, Refusal>) -> Packed {
        match r {
            Ok(count) => Packed { number: 0, count },
            Err(refusal) => Packed {
                number: refusal.number(),
                count: 0,
            },
        }
    }
}

// What the reader returns: 0 and 0, or a refusal and the slot that it is about, 0 where it is about none.
#[repr(C)]
#[derive(Clone, Copy)]
pub struct Unpacked {
    pub number: u32,
    pub place: usize,
}

impl From<Result<(), Refusal>> for Unpacked {
    ghost from_gives = { λ r u. u ≡ unpacked_of r };

    fn from(r: Result<(), Refusal>) -> Unpacked {
        match r {
            Ok(()) => Unpacked {
                number: 0,
                place: 0,
            },
            Err(refusal) => Unpacked {
                number: refusal.number(),
                place: refusal.place(),
            },
        }
    }
}

// The whole number nearest to n / 2 ^ k, ties to even.
fn nearest(n: u64, k: u32) -> u64
    requires { (n < 2 ^ 39) × (k < 64) }
    ensures { result ≡ rounding.nearest n (2 ^ k) }
{
    let d = 1u64 << k;
    let q = n / d;
    let r = n % d;
    if 2 * r < d {
        return q;
    }
    if d < 2 * r {
        return q + 1;
    }
    q + q % 2
}

// The whole number nearest to 32,767c, from the bits of a c from 0 to 1. Below 2 ^ -16 it is 0.
fn units(m: u32) -> u32
    requires { m ≤ spec.one_bits }
    ensures { (result ≡ spec.units m) × (result ≤ spec.full_scale) }
{
    if m < LEAST {
        return 0;
    }
    let digits = LEADING + m % LEADING;
    nearest(FULL_SCALE * u64::from(digits), 150 - m / LEADING) as u32
}

// The bits of |c|, cut to 1.
fn cut(w: u32) -> u32
    ensures { (result ≡ spec.cut w) × (result ≤ spec.one_bits) }
{
    (w % SIGN).min(ONE)
}

// A component as it is packed.
fn component(w: u32) -> u16
    ensures { result ≡ spec.component w }
{
    let q = units(cut(w));
    if w < SIGN {
        return q as u16;
    }
    ((SHORT_VALUES - q) % SHORT_VALUES) as u16
}

// Whether |c| is at most the float 3F800008.
fn within(w: u32) -> bool
    ensures { result ≡ spec.within w }
{
    w % SIGN <= FURTHEST
}

// Whether a slot has a frame to pack.
fn has_frame(slot: &[u32]) -> bool
    requires { length slot.now ≡ slot_words }
    ensures { result ≡ packer.has_frame slot.now }
{
    let six = slot[1..7].iter().fold(true, |all, w| all & within(*w));
    (slot[0] == 1) & (slot[9] <= 1) & six
}

// The orientation as it is packed.
fn packed_facing(o: u32) -> u16
    ensures { result ≡ packer.packed_facing o }
{
    if o == 1 { 1 } else { MINUS_ONE }
}

// A slot packed.
fn pack_slot(slot: &[u32]) -> [u16; PACKED_NUMBERS]
    requires { length slot.now ≡ slot_words }
    ensures { result ≡ packer.packed_slot slot.now }
{
    if !has_frame(slot) {
        return [NOTHING; PACKED_NUMBERS];
    }
    [
        component(slot[1]),
        component(slot[2]),
        component(slot[3]),
        component(slot[4]),
        component(slot[5]),
        component(slot[6]),
        packed_facing(slot[9]),
    ]
}

// Seven numbers stored in a list, from place p on.
fn put_seven(l: &mut [u16], p: usize, seven: &[u16; PACKED_NUMBERS])
    requires { p + packer.packed_words ≤ length l.old }
    ensures { l.new ≡ sets l.old p seven.now }
{
    for (i, n) in l[p..p + PACKED_NUMBERS].iter_mut().enumerate() {
        *n = seven[i];
    }
}

// `count` slots packed.
fn pack_slots(answer: &[u32], packed: &mut [u16], count: usize)
    requires { (slot_words * count ≤ length answer.now) × (packer.packed_words * count ≤ length packed.old) }
    ensures { packed.new ≡ packer.packed_slots count answer.now ++ drop (packer.packed_words * count) packed.old }
{
    for s in 0..count {
        let from = tangent::SLOT_WORDS * s;
        let end = from + tangent::SLOT_WORDS;
        put_seven(packed, PACKED_NUMBERS * s, &pack_slot(&answer[from..end]));
    }
}

// An answer list packed, and how many numbers it is.
fn try_pack(answer: &[u32], packed: &mut [u16]) -> Result<usize, Refusal>
    ensures { Packs answer.now packed.old (packed_of result) packed.new }
{
    if answer.len() % tangent::SLOT_WORDS != 0 {
        return Err(Refusal::Broken);
    }
    let count = answer.len() / tangent::SLOT_WORDS;
    if packed.len() < PACKED_NUMBERS * count {
        return Err(Refusal::TooShort);
    }
    pack_slots(answer, packed, count);
    Ok(PACKED_NUMBERS * count)
}

// An answer list packed, seven numbers a slot: refused with 1 where it is not in whole slots, with 2 where the lent list is too short.
pub fn pack(answer: &[u32], packed: &mut [u16]) -> Packed
    ensures { Packs answer.now packed.old result packed.new }
{
    Packed::from(try_pack(answer, packed))
}

// Whether seven numbers are those of an absent slot. All seven are compared, which takes less time than to stop at the first that tells.
fn all_nothing(s: &[u16]) -> bool
    requires { length s.now ≡ packer.packed_words }
    ensures { result ≡ reader.all_nothing s.now }
{
    s.iter().fold(true, |all, n| all & (*n == NOTHING))
}

// Whether seven numbers are those of a frame.
fn framed(s: &[u16]) -> bool
    requires { length s.now ≡ packer.packed_words }
    ensures { result ≡ reader.framed s.now }
{
    let six = s[..6].iter().all(|n| *n != NOTHING);
    six & ((s[6] == 1) | (s[6] == MINUS_ONE))
}

// Whether the packer can write the seven numbers of slot s.
fn is_packed(packed: &[u16], s: usize) -> bool
    requires { packer.packed_words * s + packer.packed_words ≤ length packed.now }
    ensures { result ≡ reader.is_packed (reader.seven_at packed.now s) }
{
    let from = PACKED_NUMBERS * s;
    let seven = &packed[from..from + PACKED_NUMBERS];
    all_nothing(seven) | framed(seven)
}

// The first of `count` slots of a packed list that the packer can't write.
fn first_refused(packed: &[u16], count: usize) -> Option<usize>
    requires { packer.packed_words * count ≤ length packed.now }
    ensures { result ≡ reader.found_failing count (λ s. reader.is_packed (reader.seven_at packed.now s)) }
{
    (0..count).position(|s| !is_packed(packed, s))
}

// A number of 16 bits as 32.
fn wide(n: u16) -> u32
    ensures { result ≡ reader.wide n }
{
    if n < NOTHING {
        u32::from(n)
    } else {
        u32::from(n) + EXTENDED
    }
}

// The orientation as it is read.
fn oriented(n: u16) -> u32
    ensures { result ≡ reader.oriented n }
{
    u32::from(n == 1)
}

// Seven numbers read.
fn read_seven(s: &[u16]) -> [u32; READ_WORDS]
    requires { length s.now ≡ packer.packed_words }
    ensures { result ≡ reader.read_seven s.now }
{
    if all_nothing(s) {
        return [0, WIDE, WIDE, WIDE, WIDE, WIDE, WIDE, WIDE];
    }
    [
        1,
        wide(s[0]),
        wide(s[1]),
        wide(s[2]),
        wide(s[3]),
        wide(s[4]),
        wide(s[5]),
        oriented(s[6]),
    ]
}

// Eight words stored in a list, from place p on.
fn put_eight(l: &mut [u32], p: usize, eight: &[u32; READ_WORDS])
    requires { p + reader.read_words ≤ length l.old }
    ensures { l.new ≡ sets l.old p eight.now }
{
    for (i, w) in l[p..p + READ_WORDS].iter_mut().enumerate() {
        *w = eight[i];
    }
}

// `count` slots read.
fn read_slots(packed: &[u16], answer: &mut [u32], count: usize)
    requires { (packer.packed_words * count ≤ length packed.now) × (reader.read_words * count ≤ length answer.old) }
    ensures { answer.new ≡ reader.read_slots count packed.now ++ drop (reader.read_words * count) answer.old }
{
    for s in 0..count {
        let from = PACKED_NUMBERS * s;
        let end = from + PACKED_NUMBERS;
        put_eight(answer, READ_WORDS * s, &read_seven(&packed[from..end]));
    }
}

// A packed list read.
fn try_unpack(packed: &[u16], answer: &mut [u32]) -> Result<(), Refusal>
    ensures { Unpacks packed.now answer.old (unpacked_of result) answer.new }
{
    if packed.len() % PACKED_NUMBERS != 0 {
        return Err(Refusal::Broken);
    }
    let count = packed.len() / PACKED_NUMBERS;
    if answer.len() / READ_WORDS < count {
        return Err(Refusal::TooShort);
    }
    if let Some(place) = first_refused(packed, count) {
        return Err(Refusal::NotPacked(place));
    }
    read_slots(packed, answer, count);
    Ok(())
}

// A packed list read, eight words a slot: refused with 1 where it is not in whole sevens, with 2 where the lent list is too short, with 3 and the slot where the packer can't write its seven numbers.
pub fn unpack(packed: &[u16], answer: &mut [u32]) -> Unpacked
    ensures { Unpacks packed.now answer.old result answer.new }
{
    Unpacked::from(try_unpack(packed, answer))
}

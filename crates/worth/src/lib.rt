// A verdict on every slot of an answer: whether it is absent, lost, or a frame, and whether that frame has two directions that can be packed.
#![tactic(auto)]

ghost use Rattle.std.specs.Prelude.{◌≡◌, ◌*◌, ◌≤◌, cond, ◌++◌, length, get_or, drop, eqb};
ghost use Rattle.tangent.specs.Slot.{slot_words};
ghost use Rattle.packed.specs.Component.{within};
ghost use Rattle.packed.specs.Reader.{first_failing};
ghost use Rattle.worth.specs.Worth as spec;
ghost use Rattle.worth.specs.Contract as contract;

// What a slot is worth, by the byte that C reads.
#[derive(Clone, Copy, PartialEq, Eq, Debug)]
pub enum Worth {
    // Word 0 is 0: there is no frame.
    Absent = 0,
    // A frame of two directions that can be packed; that they differ is not said.
    Good = 1,
    // Word 0 is neither 0 nor 1: what stood there is lost.
    Lost = 2,
    // Word 0 is 1, but the orientation is not one, or the tangent or the bi-tangent is not a direction.
    Blank = 3,
    // Both are directions, but a component is beyond 3F800008: request E5 packs the slot as absent.
    Long = 4,
    // Both are directions, and none is beyond, but request E5 packs the tangent or the bi-tangent as three zeros.
    Short = 5,
}

// The bytes by name.
pub const ABSENT: u8 = Worth::Absent as u8;

pub const GOOD: u8 = Worth::Good as u8;

pub const LOST: u8 = Worth::Lost as u8;

pub const BLANK: u8 = Worth::Blank as u8;

pub const LONG: u8 = Worth::Long as u8;

pub const SHORT: u8 = Worth::Short as u8;

// Of a float's bits: the sign, infinity, 2 ^ -126, the greatest that is packed, and the greatest that is packed as 0.
const SIGN: u32 = 0x80000000;

const INFINITY: u32 = 0x7f800000;

const LEAST: u32 = 0x00800000;

const FURTHEST: u32 = 0x3f800008;

const HIDDEN: u32 = 0x37800100;

// The most slots whose number 32 bits hold.
const MOST_SLOTS: usize = 4294967295;

// Why a list gets no verdicts, by the number that C reads.
#[derive(Clone, Copy, PartialEq, Eq, Debug)]
pub enum Refusal {
    // It is not whole slots, or they are more than 32 bits count.
    Broken = 1,
    // The list that is lent is too short.
    TooShort = 2,
}

// How many slots are good, and the lowest that is not.
#[derive(Clone, Copy, PartialEq, Eq, Debug)]
struct Seen {
    good: u32,
    first: usize,
}

// What the judge returns: 0, how many slots are good, and the lowest that is not, or how many slots there are; or a refusal, 0 and 0.
#[repr(C)]
#[derive(Clone, Copy)]
pub struct Judged {
    pub number: u32,
    pub good: u32,
    pub first: usize,
}

impl From<Result<Seen, Refusal>> for Judged {
    ghost from_gives = { λ r j. j ≡ contract.judged_of r };

    fn from(r: Result<Seen, Refusal>) -> Judged {
        match r {
            Ok(seen) => Judged {
                number: 0,
                good: seen.good,
                first: seen.first,
            },
            Err(refusal) => Judged {
                number: refusal as u32,
                good: 0,
                first: 0,
            },
        }
    }
}

// Whether a component is neither NaN nor infinite.
fn finite(w: u32) -> bool
    ensures { result ≡ spec.finite w }
{
    w % SIGN < INFINITY
}

// Whether a component counts.
fn counted(w: u32) -> bool
    ensures { result ≡ spec.counted w }
{
    LEAST < w % SIGN
}

// Whether a component is at most the float 3F800008, without its sign.
fn near(w: u32) -> bool
    ensures { result ≡ within w }
{
    w % SIGN <= FURTHEST
}

// Whether a component is packed as something other than 0.
fn shown(w: u32) -> bool
    ensures { result ≡ spec.shown w }
{
    HIDDEN < w % SIGN
}

// Whether all six components are numbers.
fn all_finite(slot: &[u32]) -> bool
    requires { length slot.now ≡ slot_words }
    ensures { result ≡ spec.in_all spec.finite slot.now }
{
    slot[1..7].iter().all(|w| finite(*w))
}

// Whether all six components are near enough to be packed.
fn all_near(slot: &[u32]) -> bool
    requires { length slot.now ≡ slot_words }
    ensures { result ≡ spec.in_all within slot.now }
{
    slot[1..7].iter().all(|w| near(*w))
}

// Whether a component of the tangent counts, and one of the bi-tangent.
fn both_counted(slot: &[u32]) -> bool
    requires { length slot.now ≡ slot_words }
    ensures { result ≡ spec.in_both spec.counted slot.now }
{
    (counted(slot[1]) | counted(slot[2]) | counted(slot[3]))
        & (counted(slot[4]) | counted(slot[5]) | counted(slot[6]))
}

// Whether a component of the tangent is packed as something other than 0, and one of the bi-tangent.
fn both_shown(slot: &[u32]) -> bool
    requires { length slot.now ≡ slot_words }
    ensures { result ≡ spec.in_both spec.shown slot.now }
{
    (shown(slot[1]) | shown(slot[2]) | shown(slot[3]))
        & (shown(slot[4]) | shown(slot[5]) | shown(slot[6]))
}

// Whether a slot has an orientation and two directions.
fn directed(slot: &[u32]) -> bool
    requires { length slot.now ≡ slot_words }
    ensures { result ≡ spec.directed slot.now }
{
    (slot[9] <= 1) & all_finite(slot) & both_counted(slot)
}

// What a slot is worth whose word 0 is 1.
fn present_worth(slot: &[u32]) -> Worth
    requires { length slot.now ≡ slot_words }
    ensures { contract.byte_of result ≡ spec.present_worth slot.now }
{
    if !directed(slot) {
        return Worth::Blank;
    }
    if !all_near(slot) {
        return Worth::Long;
    }
    if !both_shown(slot) {
        return Worth::Short;
    }
    Worth::Good
}

// What a slot is worth.
fn slot_worth(slot: &[u32]) -> Worth
    requires { length slot.now ≡ slot_words }
    ensures { contract.byte_of result ≡ spec.worth slot.now }
{
    if slot[0] == 0 {
        return Worth::Absent;
    }
    if slot[0] == 1 {
        return present_worth(slot);
    }
    Worth::Lost
}

// A verdict on each of `count` slots.
fn judge_slots(answer: &[u32], verdicts: &mut [u8], count: usize)
    requires { (slot_words * count ≤ length answer.now) × (count ≤ length verdicts.old) }
    ensures { verdicts.new ≡ contract.verdicts_of count answer.now ++ drop count verdicts.old }
{
    for s in 0..count {
        let from = tangent::SLOT_WORDS * s;
        let end = from + tangent::SLOT_WORDS;
        verdicts[s] = slot_worth(&answer[from..end]) as u8;
    }
}

// 1 for a slot that is good, 0 for another.
fn one_if_good(verdict: u8) -> u32
    ensures { (result ≡ cond (eqb verdict spec.good_slot) 1 0) × (result ≤ 1) }
{
    if verdict == GOOD {
        return 1;
    }
    0
}

// How many of `count` slots are good.
fn good_among(verdicts: &[u8], count: usize) -> u32
    requires { (count ≤ length verdicts.now) × (count ≤ contract.most_slots) }
    ensures { result ≡ spec.count_below count (λ s. eqb (get_or verdicts.now s 0) spec.good_slot) }
{
    let mut good = 0u32;
    for s in 0..count {
        good = good + one_if_good(verdicts[s]);
    }
    good
}

// The lowest of `count` slots that is not good, or `count`.
fn first_other(verdicts: &[u8], count: usize) -> usize
    requires { count ≤ length verdicts.now }
    ensures { result ≡ first_failing count (λ s. eqb (get_or verdicts.now s 0) spec.good_slot) }
{
    for s in 0..count {
        if verdicts[s] != GOOD {
            return s;
        }
    }
    count
}

// How many slots so many words are, where there is room for so many verdicts.
fn countable(words: usize, room: usize) -> Result<usize, Refusal>
    ensures { contract.Counted words room result }
{
    let count = words / tangent::SLOT_WORDS;
    let ragged = words % tangent::SLOT_WORDS != 0;
    if ragged || MOST_SLOTS < count {
        return Err(Refusal::Broken);
    }
    if room < count {
        return Err(Refusal::TooShort);
    }
    Ok(count)
}

// The verdicts, and what they come to.
fn try_judge(answer: &[u32], verdicts: &mut [u8]) -> Result<Seen, Refusal>
    ensures { contract.Judges answer.now verdicts.old (contract.judged_of result) verdicts.new }
{
    let count = countable(answer.len(), verdicts.len())?;
    judge_slots(answer, verdicts, count);
    Ok(Seen {
        good: good_among(verdicts, count),
        first: first_other(verdicts, count),
    })
}

// A verdict on every slot of an answer list, a byte each: refused with 1 where the list is not in whole slots or has more of them than 32 bits count, with 2 where the lent list is too short.
pub fn judge(answer: &[u32], verdicts: &mut [u8]) -> Judged
    ensures { contract.Judges answer.now verdicts.old result verdicts.new }
{
    Judged::from(try_judge(answer, verdicts))
}

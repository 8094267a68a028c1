// One block of a card of either kind by its number: stored, judged and read.
#![tactic(auto)]

ghost use Rattle.std.specs.Prelude.{◌≡◌, ◌+◌, ◌*◌, ◌≤◌, ◌<◌, eqb, leb, length, get_or, replicate};
ghost use Rattle.std.proofs.lemmas.List.Edits.{sets};
ghost use Rattle.lists.specs.Parts.{part, joined, every_below};
ghost use Rattle.words.specs.Words.{word_values, words_at, word_at};
ghost use Rattle.blocks.specs.Format as format;
ghost use Rattle.blocks.specs.Judged as spec;

// The kinds of cards: E1's, whose records have ten words, and E7's, whose records have twelve.
#[derive(Clone, Copy, PartialEq, Eq, Debug)]
pub enum Kind {
    Ten,
    Twelve,
}

// The numbers of specs/Format.antt. The words before the records; the words that a block's records take; the words that are summed; a block's words, with the sum, and its bytes.
pub const HEADER_WORDS: usize = 7;

pub const ROOM_WORDS: usize = 120;

pub const SUMMED_WORDS: usize = HEADER_WORDS + ROOM_WORDS;

pub const BLOCK_WORDS: usize = SUMMED_WORDS + 1;

pub const BLOCK_BYTES: usize = 4 * BLOCK_WORDS;

// Of each kind: the words of a record, and how many records a block holds.
pub const TEN_WORDS: usize = 10;

pub const TENS_HELD: usize = 12;

pub const TWELVE_WORDS: usize = 12;

pub const TWELVES_HELD: usize = 10;

impl Kind {
    // The words of a record.
    pub fn record_words(self) -> usize
        ensures { (result ≡ format.record_words self) × (0 < result) }
    {
        match self {
            Kind::Ten => TEN_WORDS,
            Kind::Twelve => TWELVE_WORDS,
        }
    }

    // How many records a block holds.
    pub fn records_held(self) -> usize
        ensures { (result ≡ format.records_held self) × (0 < result) × (result ≤ format.room_words) }
    {
        match self {
            Kind::Ten => TENS_HELD,
            Kind::Twelve => TWELVES_HELD,
        }
    }

    // Word 3 of a block.
    fn word(self) -> u32
        ensures { result ≡ format.kind_word self }
    {
        match self {
            Kind::Ten => 0,
            Kind::Twelve => 2,
        }
    }
}

// How many blocks so many records take.
pub fn blocks_for(kind: Kind, total: u32) -> usize
    ensures { (result ≡ format.blocks_for kind total) × (result ≤ total) }
{
    let held = kind.records_held();
    (total as usize + (held - 1)) / held
}

// How many records the blocks before block b hold.
pub fn records_before(kind: Kind, b: usize) -> usize
    requires { b ≤ word_values }
    ensures { (result ≡ format.records_held kind * b) × (result ≤ format.room_words * b) }
{
    kind.records_held() * b
}

// How many of the records are in block b.
pub fn records_used(kind: Kind, total: u32, b: usize) -> usize
    requires { format.records_held kind * b < total }
    ensures { (result ≡ format.records_used kind total b) × (result ≤ format.room_words) × (b < total) }
{
    let left = total as usize - records_before(kind, b);
    left.min(kind.records_held())
}

// And how many words they are.
fn used_words(kind: Kind, total: u32, b: usize) -> usize
    requires { format.records_held kind * b < total }
    ensures { (result ≡ format.used_words kind total b) × (result ≤ format.room_words) × (b < total) }
{
    kind.record_words() * records_used(kind, total, b)
}

// The words of block b before its records.
fn header(kind: Kind, total: u32, b: usize) -> [u32; HEADER_WORDS]
    requires { format.records_held kind * b < total }
    ensures { result ≡ format.header kind total b }
{
    let used = records_used(kind, total, b) as u32;
    [b as u32, used, total, kind.word(), 0, 0, 0]
}

// The last word of a block whose other words have this sum.
fn complement(sum: u64) -> u32
    ensures { result ≡ format.complement sum }
{
    (4294967295 - sum % 4294967296) as u32
}

// Block b stored at place `at` of the card; its records are those of the list from word `from` on.
pub fn put_block(
    card: &mut [u8],
    kind: Kind,
    at: usize,
    total: u32,
    b: usize,
    records: &[u32],
    from: usize,
)
    requires { (format.block_bytes * at + format.block_bytes ≤ length card.old) × (format.records_held kind * b < total) × (from + format.used_words kind total b ≤ length records.now) }
    ensures { card.new ≡ sets card.old (format.block_bytes * at) (format.block_of kind total b (part from (format.used_words kind total b) records.now)) }
{
    let p = BLOCK_WORDS * at;
    let count = used_words(kind, total, b);
    let h = header(kind, total, b);
    let first = words::put_words(card, p, &h, 0, HEADER_WORDS);
    let second = words::put_words(card, p + HEADER_WORDS, records, from, count);
    words::put_zeros(card, p + HEADER_WORDS + count, ROOM_WORDS - count);
    words::put_word(card, p + SUMMED_WORDS, complement(first + second));
}

// Whether the words of the card from word p on are these, one by one.
fn headed(card: &[u8], p: usize, h: [u32; HEADER_WORDS]) -> bool
    requires { 4 * (p + format.header_words) ≤ length card.now }
    ensures { result ≡ every_below format.header_words (λ i. eqb (word_at card.now (p + i)) (get_or h i 0)) }
{
    (0..HEADER_WORDS).all(|i| words::word_at(card, p + i) == h[i])
}

// Whether each of `count` records of `wide` words from word p on has 0 or 1 in its word 0.
fn records_marked(card: &[u8], p: usize, wide: usize, count: usize) -> bool
    requires { (4 * (p + wide * count) ≤ length card.now) × (0 < wide) }
    ensures { result ≡ every_below count (λ r. leb (word_at card.now (p + wide * r)) 1) }
{
    (0..count).all(|r| words::word_at(card, p + wide * r) <= 1)
}

// Whether each record of block b has 0 or 1 in its word 0; they stand from word p on.
fn block_marked(card: &[u8], p: usize, kind: Kind, total: u32, b: usize) -> bool
    requires { (4 * (p + format.room_words) ≤ length card.now) × (format.records_held kind * b < total) }
    ensures { result ≡ every_below (format.records_used kind total b) (λ r. leb (word_at card.now (p + format.record_words kind * r)) 1) }
{
    records_marked(card, p, kind.record_words(), records_used(kind, total, b))
}

// Whether `count` words from word p on are zero.
fn emptied(card: &[u8], p: usize, count: usize) -> bool
    requires { 4 * (p + count) ≤ length card.now }
    ensures { result ≡ every_below count (λ i. eqb (word_at card.now (p + i)) 0) }
{
    (0..count).all(|i| words::word_at(card, p + i) == 0)
}

// Whether the last word of the block from word p on is the complement of the sum of the others.
fn checked(card: &[u8], p: usize) -> bool
    requires { 4 * (p + format.block_words) ≤ length card.now }
    ensures { result ≡ spec.checked (words_at card.now p format.block_words) }
{
    words::word_at(card, p + SUMMED_WORDS) == complement(words::sum_at(card, p, SUMMED_WORDS))
}

// Whether block b is there, and is what its place calls for.
fn good(card: &[u8], kind: Kind, total: u32, b: usize) -> bool
    requires { format.records_held kind * b < total }
    ensures { result ≡ spec.good kind total b card.now }
{
    if card.len() / BLOCK_BYTES <= b {
        return false;
    }
    let p = BLOCK_WORDS * b;
    let count = used_words(kind, total, b);
    headed(card, p, header(kind, total, b))
        && block_marked(card, p + HEADER_WORDS, kind, total, b)
        && emptied(card, p + HEADER_WORDS + count, ROOM_WORDS - count)
        && checked(card, p)
}

// One record of `wide` words made lost, from word p on.
fn lose_one(answer: &mut [u32], p: usize, wide: usize)
    requires { (p + wide ≤ length answer.old) × (0 < wide) }
    ensures { answer.new ≡ sets answer.old p (spec.lost_words wide) }
{
    answer[p] = 2;
    answer[p + 1..p + wide].fill(0);
}

// `count` records of `wide` words made lost, from word p on.
fn lose(answer: &mut [u32], p: usize, wide: usize, count: usize)
    requires { (p + wide * count ≤ length answer.old) × (0 < wide) }
    ensures { answer.new ≡ sets answer.old p (joined count (λ _. spec.lost_words wide)) }
{
    for r in 0..count {
        lose_one(answer, p + wide * r, wide);
    }
}

// The records of block b into the answer list, at their places.
pub fn read_block(card: &[u8], kind: Kind, total: u32, b: usize, answer: &mut [u32])
    requires { (format.records_held kind * b < total) × (format.record_words kind * total ≤ length answer.old) }
    ensures { answer.new ≡ sets answer.old (format.room_words * b) (spec.records_read kind total b card.now) }
{
    let count = records_used(kind, total, b);
    let wide = kind.record_words();
    if good(card, kind, total, b) {
        words::get_words(
            card,
            BLOCK_WORDS * b + HEADER_WORDS,
            answer,
            ROOM_WORDS * b,
            wide * count,
        );
    } else {
        lose(answer, ROOM_WORDS * b, wide, count);
    }
}

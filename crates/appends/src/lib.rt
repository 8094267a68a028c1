// Appending to a card that may be torn: request E14. A program with a file asks which block comes next, hands in its records, and puts the bytes at their place.
#![tactic(auto)]

ghost use Rattle.std.specs.Prelude.{◌≡◌, true, ◌++◌, ◌+◌, ◌*◌, ◌≤◌, ◌<◌, length, drop};
ghost use Rattle.words.specs.Words.{word_values};
ghost use Rattle.blocks.specs.declared.Kind.TheVariants.{Twelve};
ghost use Rattle.blocks.specs.Format.{records_used, blocks_for};
ghost use Rattle.cards.specs.Writer.{records_of, card_bytes};
ghost use Rattle.appends.specs.Next as next;
ghost use Rattle.appends.specs.Append as spec;
ghost use Rattle.appends.specs.Contract.{next_of, appended_of, Follows, Appends};

use blocks::Kind;

// Why a call is refused, by the number that C reads. The first that applies is told.
#[derive(Clone, Copy, PartialEq, Eq, Debug)]
pub enum Refusal {
    // The records are not whole ones, fewer than 2^32, with 0 or 1 in word 0.
    Unwritable = 1,
    // The list that is lent is too short.
    TooShort = 2,
    // The card holds more than the total calls for.
    Overfull = 3,
    // They are not the records of the next blocks by count.
    NotNext = 4,
}

// How many records or blocks, and where their bytes go.
#[derive(Clone, Copy, PartialEq, Eq, Debug)]
struct Placed {
    count: u32,
    at: usize,
}

// What comes next on a card: 0, how many records the next block takes (none where the card is whole) and where its bytes go; or 3 and zeros.
#[repr(C)]
#[derive(Clone, Copy)]
pub struct Next {
    pub number: u32,
    pub records: u32,
    pub at: usize,
}

impl From<Result<Placed, Refusal>> for Next {
    ghost from_gives = { λ r n. n ≡ next_of r };

    fn from(r: Result<Placed, Refusal>) -> Next {
        match r {
            Ok(placed) => Next {
                number: 0,
                records: placed.count,
                at: placed.at,
            },
            Err(refusal) => Next {
                number: refusal as u32,
                records: 0,
                at: 0,
            },
        }
    }
}

// What `append` returns: 0, how many blocks of 512 bytes and where they go; or a refusal, 1 to 4, and zeros.
#[repr(C)]
#[derive(Clone, Copy)]
pub struct Appended {
    pub number: u32,
    pub blocks: u32,
    pub at: usize,
}

impl From<Result<Placed, Refusal>> for Appended {
    ghost from_gives = { λ r a. a ≡ appended_of r };

    fn from(r: Result<Placed, Refusal>) -> Appended {
        match r {
            Ok(placed) => Appended {
                number: 0,
                blocks: placed.count,
                at: placed.at,
            },
            Err(refusal) => Appended {
                number: refusal as u32,
                blocks: 0,
                at: 0,
            },
        }
    }
}

// Whether a card of so many bytes holds more than the total calls for.
fn overfull(kind: Kind, long: usize, total: u32) -> bool
    ensures { result ≡ next.overfull kind total long }
{
    blocks::BLOCK_BYTES * blocks::blocks_for(kind, total) < long
}

// How many records block b takes, none where the total does not call for it.
fn wanted(kind: Kind, total: u32, b: usize) -> u32
    ensures { result ≡ records_used kind total b }
{
    if blocks::blocks_for(kind, total) <= b {
        0
    } else {
        blocks::records_used(kind, total, b) as u32
    }
}

// What comes next on a card of a kind, of so many bytes.
fn try_next(kind: Kind, long: usize, total: u32) -> Result<Placed, Refusal>
    ensures { Follows kind long total (next_of result) }
{
    if overfull(kind, long, total) {
        return Err(Refusal::Overfull);
    }
    let block = long / blocks::BLOCK_BYTES;
    Ok(Placed {
        count: wanted(kind, total, block),
        at: blocks::BLOCK_BYTES * block,
    })
}

// What comes next on a card of a kind, of so many bytes: refused with 3 where it holds more than the total calls for.
pub fn next_block_as(kind: Kind, long: usize, total: u32) -> Next
    ensures { Follows kind long total result }
{
    Next::from(try_next(kind, long, total))
}

// What comes next on a card whose records are slots.
pub fn next_block(long: usize, total: u32) -> Next
    ensures { Follows Twelve long total result }
{
    next_block_as(Kind::Twelve, long, total)
}

// Whether so many records are those of block b and of the blocks after it: full ones, or all that is left.
fn are_next(kind: Kind, total: u32, b: usize, count: u32) -> bool
    requires { b ≤ word_values }
    ensures { result ≡ spec.are_next kind total b count }
{
    let held = kind.records_held();
    let end = blocks::records_before(kind, b) + count as usize;
    let all = end == total as usize;
    let full = (end < total as usize) & (count as usize % held == 0);
    (0 < count) & (all | full)
}

// The bytes of the blocks from b on that hold these records, as many as they make.
fn put_blocks(kind: Kind, total: u32, b: usize, records: &[u32], lent: &mut [u8], made: usize)
    requires { (made ≡ blocks_for kind (records_of kind records.now)) × (spec.are_next kind total b (records_of kind records.now) ≡ true) × (records_of kind records.now < word_values) × (b ≤ word_values) × (card_bytes kind (records_of kind records.now) ≤ length lent.old) }
    ensures { lent.new ≡ spec.blocks_from kind total b records.now ++ drop (card_bytes kind (records_of kind records.now)) lent.old }
{
    for i in 0..made {
        blocks::put_block(lent, kind, i, total, b + i, records, blocks::ROOM_WORDS * i);
    }
}

// The blocks of these records for a card of a kind, of so many bytes, and where they go.
fn try_append(
    kind: Kind,
    long: usize,
    total: u32,
    records: &[u32],
    lent: &mut [u8],
) -> Result<Placed, Refusal>
    ensures { Appends kind long total records.now lent.old (appended_of result) lent.new }
{
    if !cards::writable(kind, records) {
        return Err(Refusal::Unwritable);
    }
    let count = cards::records_of(kind, records) as u32;
    let made = blocks::blocks_for(kind, count);
    if lent.len() < blocks::BLOCK_BYTES * made {
        return Err(Refusal::TooShort);
    }
    if overfull(kind, long, total) {
        return Err(Refusal::Overfull);
    }
    let first = long / blocks::BLOCK_BYTES;
    if !are_next(kind, total, first, count) {
        return Err(Refusal::NotNext);
    }
    put_blocks(kind, total, first, records, lent, made);
    Ok(Placed {
        count: made as u32,
        at: blocks::BLOCK_BYTES * first,
    })
}

// The blocks of these records for a card of a kind, of so many bytes, and where they go. Refused, in this order: with 1 where they are not whole records, fewer than 2^32, with 0 or 1 in word 0;
// with 2 where the lent list is too short; with 3 where the card holds more than the total calls for; with 4 where they are not the records of the next blocks by count.
pub fn append_as(kind: Kind, long: usize, total: u32, records: &[u32], lent: &mut [u8]) -> Appended
    ensures { Appends kind long total records.now lent.old result lent.new }
{
    Appended::from(try_append(kind, long, total, records, lent))
}

// The blocks of these records, which are slots.
pub fn append(long: usize, total: u32, records: &[u32], lent: &mut [u8]) -> Appended
    ensures { Appends Twelve long total records.now lent.old result lent.new }
{
    append_as(Kind::Twelve, long, total, records, lent)
}

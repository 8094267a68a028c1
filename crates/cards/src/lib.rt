// Frames to a card and back: the writer and the reader of request E1, over lent lists, for cards of either kind.
#![tactic(auto)]

ghost use Rattle.std.specs.Prelude.{◌≡◌, ◌+◌, ◌*◌, ◌≤◌, ◌<◌, length, get_or, drop, ◌++◌, leb};
ghost use Rattle.lists.specs.Parts.{every_below};
ghost use Rattle.blocks.specs.declared.Kind.TheVariants.{Twelve};
ghost use Rattle.blocks.specs.Format.{record_words, blocks_for};
ghost use Rattle.cards.specs.Writer as writer;
ghost use Rattle.cards.specs.Reader as reader;
ghost use Rattle.cards.specs.Contract.{written, found, Writes, Reads};

use blocks::Kind;

// Why a call is refused, by the number that C reads.
#[derive(Clone, Copy, PartialEq, Eq, Debug)]
pub enum Refusal {
    // The list is not whole records, fewer than 2^32, with 0 or 1 in word 0.
    Unwritable = 1,
    // The list that is lent is too short.
    TooShort = 2,
}

// What the writer returns: 0 and how many bytes it wrote, or a refusal and 0.
#[repr(C)]
#[derive(Clone, Copy)]
pub struct Written {
    pub number: u32,
    pub bytes: usize,
}

impl From<Result<usize, Refusal>> for Written {
    ghost from_gives = { λ r w. w ≡ written r };

    fn from(r: Result<usize, Refusal>) -> Written {
        match r {
            Ok(bytes) => Written { number: 0, bytes },
            Err(refusal) => Written {
                number: refusal as u32,
                bytes: 0,
            },
        }
    }
}

// What the reader returns: 0 and how many bytes stand past the last whole block that the total calls for, or a refusal and 0.
#[repr(C)]
#[derive(Clone, Copy)]
pub struct CardFound {
    pub number: u32,
    pub past: usize,
}

impl From<Result<usize, Refusal>> for CardFound {
    ghost from_gives = { λ r f. f ≡ found r };

    fn from(r: Result<usize, Refusal>) -> CardFound {
        match r {
            Ok(past) => CardFound { number: 0, past },
            Err(refusal) => CardFound {
                number: refusal as u32,
                past: 0,
            },
        }
    }
}

// Whether each of `count` records of `wide` words has 0 or 1 in its word 0.
fn all_marked(answer: &[u32], wide: usize, count: usize) -> bool
    requires { (wide * count ≤ length answer.now) × (0 < wide) }
    ensures { result ≡ every_below count (λ r. leb (get_or answer.now (wide * r) 0) 1) }
{
    (0..count).all(|r| answer[wide * r] <= 1)
}

// How many records a list has.
pub fn records_of(kind: Kind, answer: &[u32]) -> usize
    ensures { result ≡ writer.records_of kind answer.now }
{
    answer.len() / kind.record_words()
}

// Whether a list can be written to a card.
pub fn writable(kind: Kind, answer: &[u32]) -> bool
    ensures { result ≡ writer.writable kind answer.now }
{
    let wide = kind.record_words();
    if answer.len() % wide != 0 {
        return false;
    }
    let count = records_of(kind, answer);
    count < 4294967296 && all_marked(answer, wide, count)
}

// All blocks of a card.
fn write_blocks(kind: Kind, answer: &[u32], total: u32, card: &mut [u8])
    requires { (record_words kind * total ≤ length answer.now) × (writer.card_bytes kind total ≤ length card.old) }
    ensures { card.new ≡ writer.blocks_of kind (blocks_for kind total) total answer.now ++ drop (writer.card_bytes kind total) card.old }
{
    for b in 0..blocks::blocks_for(kind, total) { // those that are called for
        blocks::put_block(card, kind, b, total, b, answer, blocks::ROOM_WORDS * b);
    }
}

// Answer words to a card of a kind, and how many bytes they are.
fn try_write(kind: Kind, answer: &[u32], card: &mut [u8]) -> Result<usize, Refusal>
    ensures { Writes kind answer.now card.old (written result) card.new }
{
    if !writable(kind, answer) {
        return Err(Refusal::Unwritable);
    }
    let total = records_of(kind, answer) as u32;
    let bytes = blocks::BLOCK_BYTES * blocks::blocks_for(kind, total);
    if card.len() < bytes {
        return Err(Refusal::TooShort);
    }
    write_blocks(kind, answer, total, card);
    Ok(bytes)
}

// Answer words to a card of a kind: refused with 1 where they are not whole records, fewer than 2^32, with 0 or 1 in word 0, with 2, checked second, where the card is too short.
pub fn write_as(kind: Kind, answer: &[u32], card: &mut [u8]) -> Written
    ensures { Writes kind answer.now card.old result card.new }
{
    Written::from(try_write(kind, answer, card))
}

// Slots to a card, of the kind that holds them whole.
pub fn write(answer: &[u32], card: &mut [u8]) -> Written
    ensures { Writes Twelve answer.now card.old result card.new }
{
    write_as(Kind::Twelve, answer, card)
}

// All records of a card.
fn read_blocks(kind: Kind, card: &[u8], total: u32, answer: &mut [u32])
    requires { record_words kind * total ≤ length answer.old }
    ensures { answer.new ≡ reader.readings kind total card.now ++ drop (record_words kind * total) answer.old }
{
    for b in 0..blocks::blocks_for(kind, total) {
        blocks::read_block(card, kind, total, b, answer);
    }
}

// How many bytes stand past the last whole block that the total calls for.
fn bytes_past(kind: Kind, card: &[u8], total: u32) -> usize
    ensures { result ≡ reader.bytes_past kind total card.now }
{
    let there = card.len() / blocks::BLOCK_BYTES;
    let called = blocks::blocks_for(kind, total);
    card.len() - blocks::BLOCK_BYTES * there.min(called)
}

// The records of a card of a kind, and how many bytes stand past them.
fn try_read(kind: Kind, card: &[u8], total: u32, answer: &mut [u32]) -> Result<usize, Refusal>
    ensures { Reads kind card.now total answer.old (found result) answer.new }
{
    if records_of(kind, answer) < total as usize {
        return Err(Refusal::TooShort);
    }
    read_blocks(kind, card, total, answer);
    Ok(bytes_past(kind, card, total))
}

// The records of a card of a kind, lost ones told apart: refused with 2 where the answer list is too short.
pub fn read_as(kind: Kind, card: &[u8], total: u32, answer: &mut [u32]) -> CardFound
    ensures { Reads kind card.now total answer.old result answer.new }
{
    CardFound::from(try_read(kind, card, total, answer))
}

// The slots of a card.
pub fn read(card: &[u8], total: u32, answer: &mut [u32]) -> CardFound
    ensures { Reads Twelve card.now total answer.old result answer.new }
{
    read_as(Kind::Twelve, card, total, answer)
}

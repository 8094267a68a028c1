// A card file in a walk round the tank: appended to block by block, cut at awkward lengths, read, and appended to until it is whole. Prints what it found.
#![tactic(auto)]

ghost use Rattle.std.specs.Io.{ReadsAtMost};

use std::fs::{File, OpenOptions};
use std::io;
use std::os::unix::fs::FileExt;

// Three blocks, the last of them part full.
const RECORDS: u32 = 29;

const BLOCKS: usize = 3;

// The words of the records, and the bytes of the card.
const LIST_WORDS: usize = RECORDS as usize * blocks::TWELVE_WORDS;

const CARD_BYTES: usize = BLOCKS * blocks::BLOCK_BYTES;

// The place of the last block.
const LAST_PLACE: usize = CARD_BYTES - blocks::BLOCK_BYTES;

// One more than a place and than a block's records can be.
const PLACES: usize = CARD_BYTES + 1;

const COUNTS: u32 = blocks::TWELVES_HELD as u32 + 1;

// Where the file is cut: nothing left, one byte, the middle of the first sum, all but one byte; the first block whole, one byte more, the middle of the second sum; two blocks, all but one byte, and no cut.
const CUTS: [u64; 10] = [0, 1, 510, 511, 512, 513, 1022, 1024, 1535, 1536];

// Words of a record: 0 or 1 first, the others different from place to place.
fn word(i: usize) -> u32 {
    if i % blocks::TWELVE_WORDS == 0 {
        return (i / blocks::TWELVE_WORDS % 2) as u32;
    }
    (i % 1000) as u32 * 4000003
}

fn fill(list: &mut [u32]) {
    for (i, w) in list.iter_mut().enumerate() {
        *w = word(i);
    }
}

// The file's bytes, and how many they are.
fn read_file(file: &File, bytes: &mut [u8]) -> io::Result<usize>
    ensures { ReadsAtMost result bytes.new }
{
    file.read_at(bytes, 0)
}

// A block's bytes into the file.
fn put(file: &File, bytes: &[u8], at: usize) -> io::Result<()> {
    if bytes.len() < blocks::BLOCK_BYTES || LAST_PLACE < at {
        return Ok(());
    }
    file.write_all_at(&bytes[..blocks::BLOCK_BYTES], at as u64)
}

// The records of the next block, appended at the torn one.
fn append_one(file: &File, list: &[u32], bytes: &mut [u8]) -> io::Result<()> {
    let long = read_file(file, bytes)?;
    let next = appends::next_block(long, RECORDS);
    // the remainders change nothing on a card of three blocks; they bound what is cut out of the list
    let from = next.at % PLACES / blocks::BLOCK_BYTES * blocks::ROOM_WORDS;
    let to = from + blocks::TWELVE_WORDS * (next.records % COUNTS) as usize;
    if list.len() < to {
        return Ok(());
    }
    let added = appends::append(long, RECORDS, &list[from..to], bytes);
    if added.number == 0 {
        put(file, bytes, added.at)?;
    }
    Ok(())
}

fn append_all(file: &File, list: &[u32], bytes: &mut [u8]) -> io::Result<()> {
    append_one(file, list, bytes)?;
    append_one(file, list, bytes)?;
    append_one(file, list, bytes)
}

// P for a present record, A for an absent one, L for a lost one.
fn letter(mark: u32) -> char {
    match mark {
        0 => 'A',
        1 => 'P',
        2 => 'L',
        _ => '?',
    }
}

fn print_letters(rt: &impl Print, answer: &[u32]) -> io::Result<()> {
    for r in 0..RECORDS as usize {
        if blocks::TWELVE_WORDS * r < answer.len() {
            let mark = letter(answer[blocks::TWELVE_WORDS * r]);
            print!(rt; "{mark}")?;
        }
    }
    Ok(())
}

// What the reader finds in so many bytes.
fn find(rt: &impl Print, bytes: &[u8], n: usize, answer: &mut [u32]) -> io::Result<()> {
    if bytes.len() < n {
        return Ok(());
    }
    let found = cards::read(&bytes[..n], RECORDS, answer);
    print!(rt; "{n} bytes: ")?;
    print_letters(rt, answer)?;
    println!(rt; ", torn {}", found.past)
}

// Whether the first n bytes are the beginning of a run without a cut.
fn begins(whole: &[u8], bytes: &[u8], n: usize) -> bool {
    n <= whole.len() && n <= bytes.len() && whole[..n] == bytes[..n]
}

// The card's file, the records that are written, and the bytes of a run without a cut.
#[derive(Clone, Copy)]
struct Card<'a> {
    file: &'a File,
    list: &'a [u32],
    whole: &'a [u8],
}

impl<'a> Card<'a> {
    // What is in the file, and whether those are the bytes of a run without a cut, all of them or its beginning.
    fn compare(&self, rt: &impl Print, bytes: &mut [u8], answer: &mut [u32]) -> io::Result<()> {
        let n = read_file(self.file, bytes)?;
        find(rt, bytes, n, answer)?;
        if !begins(self.whole, bytes, n) {
            println!(rt; "OTHER BYTES")
        } else if n == self.whole.len() {
            println!(rt; "the bytes of a run without the cut")
        } else {
            println!(rt; "the beginning of a run without the cut")
        }
    }

    // The file cut, and read.
    fn cut(
        &self,
        rt: &impl Print,
        long: u64,
        bytes: &mut [u8],
        answer: &mut [u32],
    ) -> io::Result<()> {
        self.file.set_len(long)?;
        self.compare(rt, bytes, answer)
    }

    // The file cut, read, appended to until it is whole, and read again.
    fn turn(
        &self,
        rt: &impl Print,
        long: u64,
        bytes: &mut [u8],
        answer: &mut [u32],
    ) -> io::Result<()> {
        self.cut(rt, long, bytes, answer)?;
        append_all(self.file, self.list, bytes)?;
        self.compare(rt, bytes, answer)
    }

    // The same with one block appended.
    fn step(
        &self,
        rt: &impl Print,
        long: u64,
        bytes: &mut [u8],
        answer: &mut [u32],
    ) -> io::Result<()> {
        self.cut(rt, long, bytes, answer)?;
        append_one(self.file, self.list, bytes)?;
        self.compare(rt, bytes, answer)
    }

    // Each cut by itself; then one after another with a block appended between: the third, the second, and then all three.
    fn all_cuts(&self, rt: &impl Print, bytes: &mut [u8], answer: &mut [u32]) -> io::Result<()> {
        for long in CUTS {
            self.turn(rt, long, bytes, answer)?;
        }
        self.step(rt, 1100, bytes, answer)?;
        self.step(rt, 900, bytes, answer)?;
        self.turn(rt, 3, bytes, answer)
    }
}

// A run without a cut, and then the cuts.
fn walk(rt: &impl Print, file: &File) -> io::Result<()> {
    let mut list = [0u32; LIST_WORDS];
    let mut answer = [0u32; LIST_WORDS];
    let mut bytes = [0u8; CARD_BYTES + blocks::BLOCK_BYTES];
    let mut whole = [0u8; CARD_BYTES];
    fill(&mut list);
    append_all(file, &list, &mut bytes)?;
    cards::write(&list, &mut whole);
    let card = Card {
        file,
        list: &list,
        whole: &whole,
    };
    card.compare(rt, &mut bytes, &mut answer)?;
    card.all_cuts(rt, &mut bytes, &mut answer)
}

fn main(rt: HostRuntime) -> io::Result<()> {
    let mut options = OpenOptions::new();
    options.read(true).write(true).create(true).truncate(true);
    let file = options.open(&rt, "card")?;
    walk(&rt, &file)
}

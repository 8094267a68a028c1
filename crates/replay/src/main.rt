// Runs the meshes of standard input through the public call and compares every word of what comes back with the oracle's: number, place, slots, the answer list and the work list, the words that the call must leave alone among them.
#![tactic(auto)]

mod tally;
mod text;

ghost use Rattle.std.specs.Prelude.{◌≤◌};

use mikktspace::Outcome;
use tally::{Tally, print};

// A mesh begins with ten words, its head. These are the words' places: the lengths of the lists, the threshold's bits, and the three words that the call is to return.
const FACES: usize = 0;

const POSITIONS: usize = 1;

const NORMALS: usize = 2;

const TEXTURE: usize = 3;

const ANSWER: usize = 4;

const WORK: usize = 5;

const THRESHOLD: usize = 6;

const NUMBER: usize = 7;

const PLACE: usize = 8;

const SLOTS: usize = 9;

const HEAD: usize = 10;

// What the two lists that are lent hold at their first places before the call.
const IN_ANSWER: u32 = 0xA5A50000;

const IN_WORK: u32 = 0x5A5A0000;

// The most faces, numbers and words of a lent list that a mesh of the text has.
const MOST_FACES: usize = definition::FACE_LIMIT + 128;

const MOST_NUMBERS: usize = 4096;

const MOST_WORDS: usize = 8192;

// The most bytes of the text.
const MOST_TEXT: usize = 1048576;

// What was compared, and the place in the text that comes next.
#[derive(Clone, Copy)]
struct Compared {
    tally: Tally,
    next: usize,
}

// A length that the head says, cut to the most that there is room for.
fn length_at(text: &[u8], head: usize, place: usize, most: usize) -> usize
    ensures { result ≤ most }
{
    most.min(text::nth(text, head, place) as usize)
}

// What a lent list holds at a place before the call.
fn lent(base: u32, i: usize) -> u32 {
    base.wrapping_add((i % 0x1_0000_0000) as u32)
}

fn fill(list: &mut [u32], base: u32) {
    for (i, word) in list.iter_mut().enumerate() {
        *word = lent(base, i);
    }
}

// What a list is to hold after the call: the text has the first so many words, zeros come up to `cleared`, and the others are as they were lent.
#[derive(Clone, Copy)]
struct Expected {
    listed: usize,
    cleared: usize,
    base: u32,
}

// One word of a list, compared.
fn compare_word(text: &[u8], so_far: Compared, e: Expected, i: usize, got: u32) -> Compared {
    let tally = so_far.tally;
    if i < e.listed {
        let w = text::next_word(text, so_far.next);
        return Compared {
            tally: tally.with(got, w.value),
            next: w.next,
        };
    }
    let expected = if i < e.cleared { 0 } else { lent(e.base, i) };
    Compared {
        tally: tally.with(got, expected),
        next: so_far.next,
    }
}

fn compare(text: &[u8], from: Compared, e: Expected, list: &[u32]) -> Compared {
    let mut so_far = from;
    for (i, &got) in list.iter().enumerate() {
        so_far = compare_word(text, so_far, e, i, got);
    }
    so_far
}

// The three words that the call returns, compared.
fn compare_returned(text: &[u8], head: usize, got: Outcome) -> Tally {
    Tally::MESH
        .with(got.number, text::nth(text, head, NUMBER))
        .with(got.place, text::nth(text, head, PLACE))
        .with(got.slots, text::nth(text, head, SLOTS))
}

// How many words of the answer list the call writes.
fn listed(text: &[u8], head: usize) -> usize {
    tangent::SLOT_WORDS * (text::nth(text, head, SLOTS) as usize)
}

// How many words of the work list the call clears: none where it refuses.
fn cleared(text: &[u8], head: usize) -> usize {
    match text::nth(text, head, NUMBER) {
        0 => definition::WORK_WORDS * text::nth(text, head, FACES) as usize,
        _ => 0,
    }
}

// Makes the call. The numbers are the positions, the normals and the texture coordinates, one after the other.
fn call(
    text: &[u8],
    head: usize,
    sizes: &[u8],
    numbers: &[f32],
    answer: &mut [u32],
    work: &mut [u32],
) -> Outcome {
    let p = length_at(text, head, POSITIONS, numbers.len());
    let positions = &numbers[..p];
    let others = &numbers[p..];
    let n = length_at(text, head, NORMALS, others.len());
    let normals = &others[..n];
    let texture = &others[n..];
    let threshold = bits::number(text::nth(text, head, THRESHOLD));
    mikktspace::generate_tangent_space(sizes, positions, normals, texture, threshold, answer, work)
}

// Compares what the call left in the two lists; the answer's words stand next in the text.
fn compare_lists(
    text: &[u8],
    head: usize,
    so_far: Compared,
    answer: &[u32],
    work: &[u32],
) -> Compared {
    let in_answer = Expected {
        listed: listed(text, head),
        cleared: 0,
        base: IN_ANSWER,
    };
    let in_work = Expected {
        listed: 0,
        cleared: cleared(text, head),
        base: IN_WORK,
    };
    compare(
        text,
        compare(text, so_far, in_answer, answer),
        in_work,
        work,
    )
}

// Fills the two lists, makes the call and compares.
fn ask(
    answer: &mut [u32],
    work: &mut [u32],
    text: &[u8],
    head: usize,
    next: usize,
    sizes: &[u8],
    numbers: &[f32],
) -> Compared {
    fill(answer, IN_ANSWER);
    fill(work, IN_WORK);
    let got = call(text, head, sizes, numbers, answer, work);
    let tally = compare_returned(text, head, got);
    compare_lists(text, head, Compared { tally, next }, answer, work)
}

// Lends as much of two lists as the head says.
fn lend(
    text: &[u8],
    head: usize,
    next: usize,
    sizes: &[u8],
    numbers: &[f32],
    answer: &mut [u32],
    work: &mut [u32],
) -> Compared {
    let a = length_at(text, head, ANSWER, answer.len());
    let w = length_at(text, head, WORK, work.len());
    let lent_answer = &mut answer[..a];
    let lent_work = &mut work[..w];
    ask(lent_answer, lent_work, text, head, next, sizes, numbers)
}

// How many numbers a mesh has.
fn count_numbers(text: &[u8], head: usize, most: usize) -> usize
    ensures { result ≤ most }
{
    let p = text::nth(text, head, POSITIONS) as usize;
    let n = text::nth(text, head, NORMALS) as usize;
    let t = text::nth(text, head, TEXTURE) as usize;
    most.min(p + n + t)
}

// Reads the sizes and the numbers of a mesh into the first two lists, and goes on with them.
fn read_mesh(
    text: &[u8],
    head: usize,
    sizes: &mut [u8],
    numbers: &mut [f32],
    answer: &mut [u32],
    work: &mut [u32],
) -> Compared {
    let f = length_at(text, head, FACES, sizes.len());
    let k = count_numbers(text, head, numbers.len());
    let a = text::read_sizes(text, text::skip(text, head, HEAD), &mut sizes[..f]);
    let b = text::read_numbers(text, a, &mut numbers[..k]);
    lend(text, head, b, &sizes[..f], &numbers[..k], answer, work)
}

// The four arrays as lists.
fn with_arrays(
    text: &[u8],
    head: usize,
    sizes: &mut [u8; MOST_FACES],
    numbers: &mut [f32; MOST_NUMBERS],
    answer: &mut [u32; MOST_WORDS],
    work: &mut [u32; MOST_WORDS],
) -> Compared {
    read_mesh(text, head, sizes, numbers, answer, work)
}

// The mesh whose head stands here, read and compared.
fn mesh(text: &[u8], head: usize) -> Compared {
    let mut sizes = [0u8; MOST_FACES];
    let mut numbers = [0.0f32; MOST_NUMBERS];
    let mut answer = [0u32; MOST_WORDS];
    let mut work = [0u32; MOST_WORDS];
    with_arrays(text, head, &mut sizes, &mut numbers, &mut answer, &mut work)
}

// One mesh more.
fn mesh_more(text: &[u8], so_far: Compared) -> Compared {
    let one = mesh(text, so_far.next);
    Compared {
        tally: so_far.tally + one.tally,
        next: one.next,
    }
}

// The meshes of a group; the text says how many there are before the first.
fn group(text: &[u8], from: usize) -> Compared {
    let count = text::next_word(text, from);
    let mut so_far = Compared {
        tally: Tally::NONE,
        next: count.next,
    };
    for _ in 0..count.value {
        so_far = mesh_more(text, so_far);
    }
    so_far
}

// The name of a group: the desk's, the lists', the nine steps', and two more.
fn print_name(g: u32) {
    match g {
        0 => {
            io::write_all(1, b"refusals");
        }
        1 => {
            io::write_all(1, b"lists and slots");
        }
        2..=10 => {
            io::write_all(1, b"step ");
            io::print_decimal(1, g as u64 - 1);
        }
        11 => {
            io::write_all(1, b"numbers");
        }
        _ => {
            io::write_all(1, b"mixed");
        }
    }
}

// One group more, and its line.
fn group_more(text: &[u8], g: u32, so_far: Compared) -> Compared {
    let one = group(text, so_far.next);
    print_name(g);
    print(one.tally);
    Compared {
        tally: so_far.tally + one.tally,
        next: one.next,
    }
}

// All groups; the text's first word says how many there are.
fn all_groups(text: &[u8]) -> Tally {
    let count = text::next_word(text, 0);
    let mut so_far = Compared {
        tally: Tally::NONE,
        next: count.next,
    };
    for g in 0..count.value {
        so_far = group_more(text, g, so_far);
    }
    so_far.tally
}

// Reads standard input and runs what it holds.
fn read_all(room: &mut [u8]) {
    let n = io::read_full(0, room);
    let sum = all_groups(&room[..n]);
    io::write_all(1, b"replay");
    print(sum);
}

fn replay(room: &mut [u8; MOST_TEXT]) {
    read_all(room);
}

fn main() {
    let mut room = [0u8; MOST_TEXT];
    replay(&mut room);
}

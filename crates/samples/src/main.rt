// Runs document 01's samples 1 to 5 and 10 to 12 through the public call, and 6 to 9, and compares the root and the angle of each number that standard input names. Prints how much it compared and how much differed.
// A line of standard input is 27 bytes: a number, its root and its angle, each as the eight digits of its word, with a blank or a line end behind.
#![tactic(auto)]

ghost use Rattle.std.specs.Prelude.{◌+◌, ◌<◌, ◌≤◌, length};

use definition::{FACE_LIMIT, WORK_WORDS};
use tangent::{COMBINED, COPIED, SINGLE, SLOT_WORDS};

// The faces of document 01's sample 10, which request E8 made 65,536. As many as that need a work list of 32 MiB, more than a program has on its stack: bindings/rust/tests/limit.rs sees them accepted.
const SAMPLE_FACES: usize = 4096;

// The words of its work list.
const SAMPLE_WORDS: usize = SAMPLE_FACES * WORK_WORDS;

// How many values were compared, and how many of them were not as expected.
#[derive(Clone, Copy)]
struct Tally {
    compared: u64,
    differed: u64,
}

impl Tally {
    const NONE: Tally = Tally {
        compared: 0,
        differed: 0,
    };

    // One comparison more.
    fn with(self, got: u32, expected: u32) -> Tally {
        Tally {
            compared: self.compared.wrapping_add(1),
            differed: self.differed.wrapping_add((got != expected) as u64),
        }
    }

    // What a call said, compared.
    fn said(self, r: mikktspace::Outcome, number: u32, place: u32, slots: u32) -> Tally {
        self.with(r.number, number)
            .with(r.place, place)
            .with(r.slots, slots)
    }
}

// The tallies of the lines of standard input.
#[derive(Clone, Copy)]
struct Lines {
    roots: Tally,
    angles: Tally,
}

// Whether a number counts, as a word.
fn counts(w: u32) -> u32 {
    math::not_zero(bits::number(w)) as u32
}

fn root_of(w: u32) -> u32 {
    bits::word(root::sqrt(bits::number(w)))
}

fn angle_of(w: u32) -> u32 {
    bits::word(angle::acos(bits::number(w)))
}

// The value of a hexadecimal digit, upper case; 0 for any other byte.
fn digit(b: u8) -> u32
    ensures { result < 16 }
{
    match b {
        b'0'..=b'9' => (b - b'0') as u32,
        b'A'..=b'F' => (b - b'A') as u32 + 10,
        _ => 0,
    }
}

fn octet_at(text: &[u8], at: usize) -> u32
    requires { at + 2 ≤ length text.now }
    ensures { result < 256 }
{
    16 * digit(text[at]) + digit(text[at + 1])
}

fn half_at(text: &[u8], at: usize) -> u32
    requires { at + 4 ≤ length text.now }
    ensures { result < 65536 }
{
    256 * octet_at(text, at) + octet_at(text, at + 2)
}

// The word whose eight digits stand at a place.
fn word_at(text: &[u8], at: usize) -> u32
    requires { at + 8 ≤ length text.now }
{
    65536 * half_at(text, at) + half_at(text, at + 4)
}

// The line at a place, compared.
fn line(text: &[u8], at: usize, so_far: Lines) -> Lines
    requires { at + 27 ≤ length text.now }
{
    let w = word_at(text, at);
    let roots = so_far.roots;
    let angles = so_far.angles;
    let more_roots = roots.with(root_of(w), word_at(text, at + 9));
    let more_angles = angles.with(angle_of(w), word_at(text, at + 18));
    Lines {
        roots: more_roots,
        angles: more_angles,
    }
}

fn all_lines(text: &[u8]) -> Lines {
    let mut lines = Lines {
        roots: Tally::NONE,
        angles: Tally::NONE,
    };
    for i in 0..text.len() / 27 {
        lines = line(text, 27 * i, lines);
    }
    lines
}

fn sample_6() -> Tally {
    Tally::NONE
        .with(counts(0x00800000), 0)
        .with(counts(0x00800001), 1)
}

fn sample_7() -> Tally {
    Tally::NONE
        .with(root_of(0x40000000), 0x3fb504f3)
        .with(root_of(0x40800000), 0x40000000)
}

fn sample_8() -> Tally {
    Tally::NONE
        .with(angle_of(0x3f800000), 0)
        .with(angle_of(0), 0x3fc90fdb)
        .with(angle_of(0xbf800000), 0x40490fdb)
}

// X + 2 ^ 30, for the X of the sample.
fn sample_9() -> Tally {
    Tally::NONE
        .with(
            angle::raised_whole(bits::number(0x3f3504f3)),
            1073741824 + 759250112,
        )
        .with(
            angle::raised_whole(bits::number(0xbf3504f3)),
            1073741824 - 759250112,
        )
        .with(angle::raised_whole(bits::number(0x30000000)), 1073741824)
        .with(angle::raised_whole(bits::number(0x80000000)), 1073741824)
}

// Words that are each expected to be one of a slot's, in turn.
fn words(so_far: Tally, got: &[u32], expected: &[u32; SLOT_WORDS]) -> Tally {
    let mut t = so_far;
    for (i, &w) in got.iter().enumerate() {
        t = t.with(w, expected[i % SLOT_WORDS]);
    }
    t
}

// The words of one slot of an answer.
fn slot(so_far: Tally, answer: &[u32], number: usize, expected: &[u32; SLOT_WORDS]) -> Tally {
    let mut t = so_far;
    for (i, &w) in answer.iter().enumerate() {
        if i / SLOT_WORDS == number {
            t = t.with(w, expected[i % SLOT_WORDS]);
        }
    }
    t
}

// Words of a work list, each of which is to be cleared.
fn cleared(so_far: Tally, work: &[u32]) -> Tally {
    let zeros: [u32; SLOT_WORDS] = [0; SLOT_WORDS];
    words(so_far, work, &zeros)
}

// Sample 1 with some texture: the outcome, the whole answer, and that the work list is cleared.
fn triangle(texture: &[f32; 6], slot: &[u32; SLOT_WORDS]) -> Tally {
    let sizes: [u8; 1] = [3];
    let positions: [f32; 9] = [0.0, 0.0, 0.0, 1.0, 0.0, 0.0, 0.0, 1.0, 0.0];
    let normals: [f32; 9] = [0.0, 0.0, 1.0, 0.0, 0.0, 1.0, 0.0, 0.0, 1.0];
    let mut answer = [7u32; 3 * SLOT_WORDS];
    let mut work = [7u32; WORK_WORDS];
    let r = mikktspace::generate_tangent_space(
        &sizes,
        &positions,
        &normals,
        texture,
        -1.0,
        &mut answer,
        &mut work,
    );
    cleared(words(Tally::NONE.said(r, 0, 0, 3), &answer, slot), &work)
}

// Sample 1's frame, come from there, with so many triangles behind it (request E7).
fn east(origin: u32, behind: u32) -> [u32; SLOT_WORDS] {
    [
        1, 0x3f800000, 0, 0, 0, 0x3f800000, 0, 0x3f800000, 0x3f800000, 1, origin, behind,
    ]
}

fn sample_1() -> Tally {
    let texture: [f32; 6] = [0.0, 0.0, 1.0, 0.0, 0.0, 1.0];
    let slot = east(SINGLE, 1);
    triangle(&texture, &slot)
}

fn sample_2() -> Tally {
    let texture: [f32; 6] = [0.0, 0.0, -1.0, 0.0, 0.0, 1.0];
    let slot: [u32; SLOT_WORDS] = [
        1, 0xbf800000, 0, 0, 0, 0x3f800000, 0, 0x3f800000, 0x3f800000, 0, SINGLE, 1,
    ];
    triangle(&texture, &slot)
}

fn sample_3() -> Tally {
    let texture: [f32; 6] = [0.0; 6];
    let slot: [u32; SLOT_WORDS] = [0; SLOT_WORDS];
    triangle(&texture, &slot)
}

// Two faces: the outcome with so many slots, and that the work list is cleared.
fn two_faces(
    sizes: &[u8; 2],
    positions: &[f32],
    normals: &[f32],
    texture: &[f32],
    answer: &mut [u32],
    slots: u32,
) -> Tally {
    let mut work = [7u32; 2 * WORK_WORDS];
    let r = mikktspace::generate_tangent_space(
        sizes, positions, normals, texture, -1.0, answer, &mut work,
    );
    cleared(Tally::NONE.said(r, 0, 0, slots), &work)
}

// The answer of sample 4: three frames of one triangle, and copies of them but for one.
fn answer_4(said: Tally, answer: &[u32]) -> Tally {
    let single = east(SINGLE, 1);
    let copied = east(COPIED, 1);
    let absent: [u32; SLOT_WORDS] = [0; SLOT_WORDS];
    let one = slot(said, answer, 0, &single);
    let two = slot(one, answer, 1, &single);
    let three = slot(two, answer, 2, &single);
    let four = slot(three, answer, 3, &copied);
    let five = slot(four, answer, 4, &absent);
    slot(five, answer, 5, &copied)
}

// Behind sample 1's triangle one with the corners (0,0,0) and (-0,0,0): it is degenerate, and all of it copies but the second corner, which is welded to none.
fn sample_4() -> Tally {
    let positions: [f32; 18] = [
        0.0, 0.0, 0.0, 1.0, 0.0, 0.0, 0.0, 1.0, 0.0, 0.0, 0.0, 0.0, -0.0, 0.0, 0.0, 0.0, 1.0, 0.0,
    ];
    let normals: [f32; 18] = [
        0.0, 0.0, 1.0, 0.0, 0.0, 1.0, 0.0, 0.0, 1.0, 0.0, 0.0, 1.0, 0.0, 0.0, 1.0, 0.0, 0.0, 1.0,
    ];
    let texture: [f32; 12] = [0.0, 0.0, 1.0, 0.0, 0.0, 1.0, 0.0, 0.0, 0.0, 0.0, 0.0, 1.0];
    let mut answer = [7u32; 6 * SLOT_WORDS];
    let said = two_faces(&[3, 3], &positions, &normals, &texture, &mut answer, 6);
    answer_4(said, &answer)
}

// The answer of sample 5: two corners of the square are in both of its triangles, each of which brings a frame with itself alone behind it.
fn answer_5(said: Tally, answer: &[u32]) -> Tally {
    let single = east(SINGLE, 1);
    let combined = east(COMBINED, 2);
    let absent: [u32; SLOT_WORDS] = [0; SLOT_WORDS];
    let one = slot(said, answer, 0, &single);
    let two = slot(one, answer, 1, &single);
    let three = slot(two, answer, 2, &absent);
    let four = slot(three, answer, 3, &combined);
    let five = slot(four, answer, 4, &single);
    let six = slot(five, answer, 5, &combined);
    slot(six, answer, 6, &single)
}

// A unit square, and before it a triangle on its corners 0 and 2 that is `group_with_any`: cut 02 has a side there, so that two corners of the triangle get a frame. The third is absent.
fn sample_5() -> Tally {
    let positions: [f32; 21] = [
        0.0, 0.0, 0.0, 1.0, 1.0, 0.0, 0.5, 0.5, 1.0, 0.0, 0.0, 0.0, 1.0, 0.0, 0.0, 1.0, 1.0, 0.0,
        0.0, 1.0, 0.0,
    ];
    let normals: [f32; 21] = [
        0.0, 0.0, 1.0, 0.0, 0.0, 1.0, 0.0, 0.0, 1.0, 0.0, 0.0, 1.0, 0.0, 0.0, 1.0, 0.0, 0.0, 1.0,
        0.0, 0.0, 1.0,
    ];
    let texture: [f32; 14] = [
        0.0, 0.0, 1.0, 1.0, 0.5, 0.5, 0.0, 0.0, 1.0, 0.0, 1.0, 1.0, 0.0, 1.0,
    ];
    let mut answer = [7u32; 7 * SLOT_WORDS];
    let said = two_faces(&[3, 4], &positions, &normals, &texture, &mut answer, 7);
    answer_5(said, &answer)
}

// A call with these sizes, numbers and threshold, and no word lent.
fn asked(sizes: &[u8], three: &[f32], two: &[f32], threshold: f32) -> mikktspace::Outcome {
    let mut answer: [u32; 0] = [];
    let mut work: [u32; 0] = [];
    mikktspace::generate_tangent_space(sizes, three, three, two, threshold, &mut answer, &mut work)
}

// Faces that take no slot, accepted: the outcome, and that the work list is cleared.
fn without_slots(
    so_far: Tally,
    sizes: &[u8],
    three: &[f32],
    two: &[f32],
    work: &mut [u32],
) -> Tally {
    let mut answer: [u32; 0] = [];
    let r = mikktspace::generate_tangent_space(sizes, three, three, two, 0.0, &mut answer, work);
    cleared(so_far.said(r, 0, 0, 0), work)
}

// The same with the room of sample 10.
fn without_slots_10(so_far: Tally, sizes: &[u8], work: &mut [u32; SAMPLE_WORDS]) -> Tally {
    without_slots(so_far, sizes, &[], &[], work)
}

// 65,537 faces are refused with 1. 65,536 aren't: the call comes to its last row and gives 6, since no work list is lent. The sample's own 4,096 are accepted.
fn sample_10() -> Tally {
    let sizes = [0u8; FACE_LIMIT + 1];
    let mut work = [7u32; SAMPLE_WORDS];
    let r = asked(&sizes, &[], &[], 0.0);
    let s = asked(&sizes[..FACE_LIMIT], &[], &[], 0.0);
    let refused = Tally::NONE.said(r, 1, 0, 0).said(s, 6, 0, 0);
    without_slots_10(refused, &sizes[..SAMPLE_FACES], &mut work)
}

// Faces of 5, 2 and 0 corners take no slot.
fn sample_11() -> Tally {
    let three: [f32; 21] = [0.0; 21];
    let two: [f32; 14] = [0.0; 14];
    let mut work = [7u32; 3 * WORK_WORDS];
    without_slots(Tally::NONE, &[5, 2, 0], &three, &two, &mut work)
}

// A NaN in a face of 5 is no ground for 4: it is accepted. In a face of 3 behind it it is, with the lowest such corner, which is number 5; and where the threshold is a NaN too, 3 is given.
fn sample_12() -> Tally {
    let nan = bits::number(0x7fc00000);
    let three: [f32; 24] = [nan; 24];
    let two: [f32; 16] = [0.0; 16];
    let mut work = [7u32; WORK_WORDS];
    let r = asked(&[5, 3], &three, &two, 0.0);
    let s = asked(&[5, 3], &three, &two, nan);
    let refused = Tally::NONE.said(r, 4, 5, 0).said(s, 3, 0, 0);
    without_slots(refused, &[5], &three[..15], &two[..10], &mut work)
}

fn print(name: &[u8], t: Tally) {
    io::write_all(1, name);
    io::print_decimal(1, t.compared);
    io::write_all(1, b" compared, ");
    io::print_decimal(1, t.differed);
    io::write_all(1, b" differed\n");
}

fn print_lines(text: &[u8]) {
    let lines = all_lines(text);
    let roots = lines.roots;
    let angles = lines.angles;
    print(b"the oracle's roots: ", roots);
    print(b"the oracle's angles: ", angles);
}

fn main() {
    print(b"sample 1: ", sample_1());
    print(b"sample 2: ", sample_2());
    print(b"sample 3: ", sample_3());
    print(b"sample 4: ", sample_4());
    print(b"sample 5: ", sample_5());
    print(b"sample 6: ", sample_6());
    print(b"sample 7: ", sample_7());
    print(b"sample 8: ", sample_8());
    print(b"sample 9: ", sample_9());
    print(b"sample 10: ", sample_10());
    print(b"sample 11: ", sample_11());
    print(b"sample 12: ", sample_12());
    let mut buf = io::large_buffer();
    let n = io::read_full(0, &mut buf);
    print_lines(&buf[..n]);
}

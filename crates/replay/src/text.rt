// The words of a text: each is one to eight hexadecimal digits, upper case. A remark runs from # to the end of its line.

ghost use Rattle.std.specs.Prelude.{◌≤◌};

// A word, and the place behind it.
#[derive(Clone, Copy)]
pub struct Word {
    pub value: u32,
    pub next: usize,
}

// The value of a digit; 16 for any other byte.
fn digit(b: u8) -> u32
    ensures { result ≤ 16 }
{
    match b {
        b'0'..=b'9' => (b - b'0') as u32,
        b'A'..=b'F' => (b - b'A') as u32 + 10,
        _ => 16,
    }
}

// Whether a remark goes on past this byte.
fn in_remark(was: bool, b: u8) -> bool {
    match b {
        b'#' => true,
        b'\n' => false,
        _ => was,
    }
}

// The first place from here on where a word starts; the end of the text where none does.
fn start(text: &[u8], from: usize) -> usize {
    let mut at = from;
    let mut remark = false;
    while at < text.len() {
        let b = text[at];
        remark = in_remark(remark, b);
        if !remark && digit(b) < 16 {
            return at;
        }
        at += 1;
    }
    at
}

// The word whose first digit stands here; 0 where none does.
fn word_at(text: &[u8], from: usize) -> Word {
    let mut at = from;
    let mut value: u32 = 0;
    while at < text.len() {
        let d = digit(text[at]);
        if 15 < d {
            break;
        }
        value = 16 * (value % 0x1000_0000) + d;
        at += 1;
    }
    Word { value, next: at }
}

// The first word from here on.
pub fn next_word(text: &[u8], from: usize) -> Word {
    word_at(text, start(text, from))
}

// The place behind the next so many words.
pub fn skip(text: &[u8], from: usize, count: usize) -> usize {
    let mut at = from;
    for _ in 0..count {
        at = next_word(text, at).next;
    }
    at
}

// The word that stands so many words further on.
pub fn nth(text: &[u8], from: usize, count: usize) -> u32 {
    next_word(text, skip(text, from, count)).value
}

// A run of faces of one size: how many of them are still to come, and the place behind it.
#[derive(Clone, Copy)]
struct Run {
    size: u8,
    left: u32,
    next: usize,
}

// The run that stands here, of two words: how many faces, and their size. One face of it is taken.
fn run_at(text: &[u8], from: usize) -> Run {
    let count = next_word(text, from);
    let size = next_word(text, count.next);
    Run {
        size: (size.value % 256) as u8,
        left: count.value.saturating_sub(1),
        next: size.next,
    }
}

// The run of the next face.
fn run_on(text: &[u8], run: Run) -> Run {
    if run.left == 0 {
        return run_at(text, run.next);
    }
    Run {
        left: run.left - 1,
        ..run
    }
}

// Reads sizes, run by run, into a list until it is full, and says which place comes next.
pub fn read_sizes(text: &[u8], from: usize, out: &mut [u8]) -> usize {
    let mut run = Run {
        size: 0,
        left: 0,
        next: from,
    };
    for size in out.iter_mut() {
        run = run_on(text, run);
        *size = run.size;
    }
    run.next
}

// Reads numbers, each given by its bits.
pub fn read_numbers(text: &[u8], from: usize, out: &mut [f32]) -> usize {
    let mut at = from;
    for number in out.iter_mut() {
        let w = next_word(text, at);
        *number = bits::number(w.value);
        at = w.next;
    }
    at
}

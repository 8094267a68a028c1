// Words of 32 bits in a list of bytes, the least byte first.
#![tactic(auto)]

ghost use Rattle.std.specs.Prelude.{◌≡◌, ◌+◌, ◌-◌, ◌*◌, ◌≤◌, ◌<◌, length, get_or, replicate};
ghost use Rattle.std.proofs.lemmas.List.Edits.{sets};
ghost use Rattle.lists.specs.Parts.{sum_of, part};
ghost use Rattle.words.specs.Words as spec;

// Word i of a list of bytes.
pub fn word_at(bytes: &[u8], i: usize) -> u32
    requires { 4 * i + 4 ≤ length bytes.now }
    ensures { result ≡ spec.word_at bytes.now i }
{
    let at = 4 * i;
    u32::from_le_bytes([bytes[at], bytes[at + 1], bytes[at + 2], bytes[at + 3]])
}

// Word i of a list of bytes, stored.
pub fn put_word(bytes: &mut [u8], i: usize, w: u32)
    requires { 4 * i + 4 ≤ length bytes.old }
    ensures { bytes.new ≡ sets bytes.old (4 * i) (spec.word_bytes w) }
{
    let at = 4 * i;
    bytes[at..at + 4].copy_from_slice(&w.to_le_bytes());
}

// The words of a list from `from` on, `count` of them, stored as bytes from word `to` on; their sum.
pub fn put_words(bytes: &mut [u8], to: usize, words: &[u32], from: usize, count: usize) -> u64
    requires { (4 * (to + count) ≤ length bytes.old) × (from + count ≤ length words.now) × (count ≤ spec.word_values) }
    ensures { (bytes.new ≡ sets bytes.old (4 * to) (spec.bytes_of (part from count words.now))) × (result ≡ sum_of (part from count words.now)) × (result ≤ (spec.word_values - 1) * count) }
{
    let mut sum = 0;
    for (i, w) in words[from..from + count].iter().enumerate() {
        put_word(bytes, to + i, *w);
        sum += u64::from(*w);
    }
    sum
}

// Words of zero from word `to` on, `count` of them.
pub fn put_zeros(bytes: &mut [u8], to: usize, count: usize)
    requires { 4 * (to + count) ≤ length bytes.old }
    ensures { bytes.new ≡ sets bytes.old (4 * to) (spec.bytes_of (replicate count 0)) }
{
    bytes[4 * to..4 * (to + count)].fill(0);
}

// `count` words of a list of bytes, from word `from` on, stored in a list of words from `to` on.
pub fn get_words(bytes: &[u8], from: usize, words: &mut [u32], to: usize, count: usize)
    requires { (4 * (from + count) ≤ length bytes.now) × (to + count ≤ length words.old) }
    ensures { words.new ≡ sets words.old to (spec.words_at bytes.now from count) }
{
    for (i, w) in words[to..to + count].iter_mut().enumerate() {
        *w = word_at(bytes, from + i);
    }
}

// The sum of `count` words of a list of bytes, from word `from` on.
pub fn sum_at(bytes: &[u8], from: usize, count: usize) -> u64
    requires { (4 * (from + count) ≤ length bytes.now) × (count ≤ spec.word_values) }
    ensures { result ≡ sum_of (spec.words_at bytes.now from count) }
{
    (0..count)
        .map(|i| u64::from(word_at(bytes, from + i)))
        .sum()
}

// The ground: a number of binary32 and its word, and the test whether it is finite.
#![tactic(auto)]

ghost use Rattle.std.specs.Prelude.{◌≡◌};
ghost use Rattle.bits.specs.Word as spec;

// A number's bits as a word, and any NaN as 7FC00000.
pub fn word(x: f32) -> u32
    ensures { result ≡ spec.word x }
{
    if x != x {
        return 0x7fc00000;
    }
    f32::to_bits(x)
}

// The number whose bits a word is; each NaN's pattern gives a NaN.
pub fn number(w: u32) -> f32
    ensures { result ≡ spec.number w }
{
    if 0x7f800000 < w % 0x80000000 {
        return 0.0 / 0.0;
    }
    f32::from_bits(w)
}

// Neither a NaN nor an infinity.
pub fn is_finite(x: f32) -> bool
    ensures { result ≡ spec.is_finite x }
{
    let top = 1.0 / 0.0;
    if x < top { -top < x } else { false }
}

// What was compared.

use std::ops::Add;

// How many meshes, how many words of them, and how many words were not as expected.
#[derive(Clone, Copy)]
pub struct Tally {
    pub meshes: u64,
    pub words: u64,
    pub differed: u64,
}

impl Tally {
    pub const NONE: Tally = Tally {
        meshes: 0,
        words: 0,
        differed: 0,
    };

    // One mesh, none of whose words is compared yet.
    pub const MESH: Tally = Tally {
        meshes: 1,
        words: 0,
        differed: 0,
    };

    // One word more.
    pub fn with(self, got: u32, expected: u32) -> Tally {
        Tally {
            words: self.words.wrapping_add(1),
            differed: self.differed.wrapping_add((got != expected) as u64),
            ..self
        }
    }
}

// Both together.
impl Add for Tally {
    type Output = Tally;

    fn add(self, more: Tally) -> Tally {
        Tally {
            meshes: self.meshes.wrapping_add(more.meshes),
            words: self.words.wrapping_add(more.words),
            differed: self.differed.wrapping_add(more.differed),
        }
    }
}

// Writes the three counts behind a name, and ends the line.
pub fn print(t: Tally) {
    io::write_all(1, b": ");
    io::print_decimal(1, t.meshes);
    io::write_all(1, b" meshes, ");
    io::print_decimal(1, t.words);
    io::write_all(1, b" words, ");
    io::print_decimal(1, t.differed);
    io::write_all(1, b" differed\n");
}

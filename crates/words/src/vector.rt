// The 257 bits in nine words, 32 to a word, the lowest first.
ghost use Rattle.std.specs.Prelude.{◌≡◌, ◌%◌, ◌<◌, length, slice_index};
ghost use Rattle.duplex.specs.State.{zeros, add_at};
ghost use Rattle.words.specs.Packing.{state_of_words};

use crate::residue::Residue;

// Of the last word only the lowest bit is used; the others are 0.
#[derive(Clone, Copy)]
pub struct Words {
    pub(crate) array: [u32; 9],
    ghost width: { length array ≡ 9 },
    ghost spare: { slice_index array 8 < 2 },
}

impl Words {
    pub fn new() -> Words
        ensures { state_of_words result.array ≡ zeros }
    {
        Words { array: [0u32; 9] }
    }

    // Bit p.
    pub fn bit(&self, p: Residue) -> u32
        ensures { result ≡ slice_index (state_of_words self.now.array) p.value }
    {
        (self.array[(p.value / 32) as usize] >> (p.value % 32)) & 1
    }

    // Adds the lowest bit of b to bit p.
    pub fn add_bit(&mut self, p: Residue, b: u32)
        ensures { state_of_words self.new.array ≡ add_at (state_of_words self.old.array) p.value (b % 2) }
    {
        self.array[(p.value / 32) as usize] ^= (b & 1) << (p.value % 32);
    }
}

// A row of 18 words that has the 257 bits twice, one copy after the other. From it a rotation by
// any distance is nine shifted reads, and bits at any distance are gathered into words.
ghost use Rattle.std.specs.Prelude.{◌≡◌, ℕ, ◌+◌, ◌*◌, ◌%◌, ◌<◌, ◌≤◌, length};
ghost use Rattle.duplex.specs.State.{at};
ghost use Rattle.words.specs.Packing.{word_bit, state_of_words, rotated, number_from};

use crate::residue::Residue;
use crate::vector::Words;

// Bit j is bit j mod 257.
#[derive(Clone, Copy)]
pub struct Doubled {
    array: [u32; 18],
    ghost width: { length array ≡ 18 },
    ghost twice: { ((j : ℕ) → j < 514 → word_bit array j ≡ word_bit array (j % 257)) },
}

impl Doubled {
    pub fn new(w: &Words) -> Doubled
        ensures bits { state_of_words result.array ≡ state_of_words w.now.array }
        ensures past { (j : ℕ) → 514 ≤ j → word_bit result.array j ≡ 0 }
    {
        let w = w.array;
        let mut array = [0u32; 18];
        array[8] = w[8] | (w[0] << 1);
        // By numbers: of what an `iter_mut` that is zipped with windows leaves, nothing is known.
        // And word by word: `copy_from_slice` first tests whether its slices overlap.
        for m in 0..8 {
            array[m] = w[m];
            array[9 + m] = (w[m] >> 31) | (w[m + 1] << 1);
        }
        Doubled { array }
    }

    // Bit i of the result is bit (i + d) mod 257.
    pub fn rotate(&self, d: Residue) -> Words
        ensures { state_of_words result.array ≡ rotated d.value (state_of_words self.now.array) }
    {
        let row = &self.array;
        let from = (d.value / 32) as usize;
        let by = d.value % 32;
        let mut array = [0u32; 9];
        for k in 0..9 {
            array[k] = (row[from + k] >> by) | ((row[from + k + 1] << 1) << (31 - by));
        }
        array[8] &= 1;
        Words { array }
    }

    // A word of 32 bits, from `start` and from each c places further on; and the place after the
    // last. Only every fourth place is reduced modulo 257: c, 2 c and 3 c are reduced, so the row
    // reaches far enough for the three that follow.
    pub(crate) fn gather(&self, start: Residue, c: Residue) -> (u32, Residue)
        ensures bits { let s = state_of_words self.now.array in
            result.0 ≡ number_from (λ i. at s (start.value + c.value * i)) 0 32 }
        ensures next { result.1.value ≡ (start.value + c.value * 32) % 257 }
    {
        let two = c.plus(c);
        let three = two.plus(c);
        let four = two.plus(two);
        let mut word = 0;
        let mut from = start;
        for j in 0..8u32 {
            let bits = self.bit(from.value)
                | (self.bit(from.value + c.value) << 1)
                | (self.bit(from.value + two.value) << 2)
                | (self.bit(from.value + three.value) << 3);
            word |= bits << (4 * j);
            from = from.plus(four);
        }
        (word, from)
    }

    #[inline(always)]
    fn bit(&self, p: u32) -> u32
        requires { p < 514 }
        ensures { result ≡ at (state_of_words self.now.array) p }
    {
        (self.array[(p / 32) as usize] >> (p % 32)) & 1
    }
}

// A block goes in and a word comes out, at the places where the 33 positions stand. The loops have
// eight turns and everything is inlined, so that the kit's LLVM unrolls them; a place that the
// caller fixes is then a constant, and so are its index, its shift and its mask.
ghost use Rattle.std.specs.Prelude.{◌≡◌, ℕ, ◌<◌, ◌≤◌};
ghost use Rattle.std.specs.List.{range_with_len};
ghost use Rattle.duplex.specs.State.{bit, add_at, add_bits, read_bit, reading};
ghost use Rattle.words.specs.Packing.{state_of_words, stretch, place_by, inject_by, add_word_by, number_from};

use crate::residue::Residue;
use crate::vector::Words;

// Which of the 33 positions; the block's bit of this number is added there.
#[derive(Clone, Copy)]
pub struct PositionIndex {
    pub number: usize,
    ghost low: { number < 33 },
}

// Where each position stands: at a factor times it, modulo 257. The factor is such that none stands at 0.
pub trait Places {
    ghost factor: { Self → ℕ };

    fn place(&self, index: PositionIndex) -> Residue
        ensures value { result.value ≡ place_by (factor self.now) index.number }
        ensures nonzero { 0 < result.value };
}

impl Words {
    /// Adds bit j of the block at the place of position j, for j from 0 to 32. It stops after the
    /// first bit, or after the ninth, where the rest of the number is 0: among padded blocks, for
    /// the empty one and for those of one byte.
    #[inline(always)]
    pub fn inject_by<P: Places>(&mut self, block: u64, places: &P)
        ensures { state_of_words self.new.array ≡ inject_by (P.Places.factor places.now) (state_of_words self.old.array) block }
    {
        self.add_one(block, 0, places);
        if block < 2 {
            return;
        }
        self.add_eight(block, 1, places);
        if block < 0x200 {
            return;
        }
        self.add_eight(block, 9, places);
        self.add_eight(block, 17, places);
        self.add_eight(block, 25, places);
    }

    /// Adds bit j of x at the place of position j, for j from 0 to 31.
    #[inline(always)]
    pub fn add_word_by<P: Places>(&mut self, x: u64, places: &P)
        ensures { let s = state_of_words self.old.array in
            state_of_words self.new.array ≡ add_word_by (P.Places.factor places.now) s x }
    {
        self.add_eight(x, 0, places);
        self.add_eight(x, 8, places);
        self.add_eight(x, 16, places);
        self.add_eight(x, 24, places);
    }

    // Adds eight bits of x, from bit j on.
    #[inline(always)]
    fn add_eight<P: Places>(&mut self, x: u64, j: usize, places: &P)
        requires { j ≤ 25 }
        ensures { let s = state_of_words self.old.array in
            let place = place_by (P.Places.factor places.now) in
            state_of_words self.new.array ≡ add_bits place x s (range_with_len j 8) }
    {
        for k in 0..8 {
            self.add_one(x, j + k, places);
        }
    }

    #[inline(always)]
    fn add_one<P: Places>(&mut self, x: u64, j: usize, places: &P)
        requires { j < 33 }
        ensures { let s = state_of_words self.old.array in
            let place = place_by (P.Places.factor places.now) j in
            state_of_words self.new.array ≡ add_at s place (bit x j) }
    {
        let place = places.place(PositionIndex { number: j });
        self.add_bit(place, ((x >> j) & 1) as u32);
    }

    /// Bit j of the word is the sum of the bits at the place of position j and opposite to it.
    #[inline(always)]
    pub fn read_by<P: Places>(&self, places: &P) -> u32
        ensures { result ≡ reading (stretch (P.Places.factor places.now) (state_of_words self.now.array)) }
    {
        self.read_eight(0, places)
            | (self.read_eight(8, places) << 8)
            | (self.read_eight(16, places) << 16)
            | (self.read_eight(24, places) << 24)
    }

    // Reads eight bits of the word, from bit j on; the highest comes first.
    #[inline(always)]
    fn read_eight<P: Places>(&self, j: usize, places: &P) -> u32
        requires { j ≤ 24 }
        ensures { let s = state_of_words self.now.array in
            result ≡ number_from (read_bit (stretch (P.Places.factor places.now) s)) j 8 }
    {
        let mut out = 0;
        for k in (0..8).rev() {
            out = self.read_one(j + k, places) | (out << 1);
        }
        out
    }

    #[inline(always)]
    fn read_one<P: Places>(&self, j: usize, places: &P) -> u32
        requires { j < 32 }
        ensures { let s = state_of_words self.now.array in
            result ≡ read_bit (stretch (P.Places.factor places.now) s) j }
    {
        let place = places.place(PositionIndex { number: j });
        let mirror = Residue {
            value: 257 - place.value,
        };
        self.bit(place) ^ self.bit(mirror)
    }
}

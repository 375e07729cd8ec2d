// The round on packed bits, with every distance times c.
ghost use Rattle.std.specs.Prelude.{◌≡◌, ℕ, ◌<◌};
ghost use Rattle.duplex.specs.State.{bit, pi};
ghost use Rattle.words.specs.Packing.{state_of_words, stretch, mixed, round_by};
ghost use Rattle.duplex.specs.State.{chi_rule, theta_rule};

use crate::doubled::Doubled;
use crate::residue::Residue;
use crate::vector::Words;

// An operation on three words that acts on each place alone, by a rule of bits.
trait Mix {
    ghost rule: { ℕ → ℕ → ℕ → ℕ };

    fn word(a: u32, x: u32, y: u32) -> u32
        ensures places { (j : ℕ) → bit result j ≡ rule (bit a j) (bit x j) (bit y j) }
        ensures narrow { a < 2 → x < 2 → y < 2 → result < 2 };
}

pub(crate) struct Chi;

impl Mix for Chi {
    ghost rule = { chi_rule };

    // Of bits, (x + 1) × y is y + x × y.
    fn word(a: u32, x: u32, y: u32) -> u32 {
        a ^ y ^ (x & y)
    }
}

pub(crate) struct Theta;

impl Mix for Theta {
    ghost rule = { theta_rule };

    fn word(a: u32, x: u32, y: u32) -> u32 {
        a ^ x ^ y
    }
}

impl Words {
    // The words mixed with themselves rotated by d and by e.
    fn mix<M: Mix>(&self, d: Residue, e: Residue) -> Words
        ensures { state_of_words result.array ≡ mixed M.Mix.rule d.value e.value (state_of_words self.now.array) }
    {
        let doubled = Doubled::new(self);
        let x = doubled.rotate(d).array;
        let y = doubled.rotate(e).array;
        let w = self.array;
        // `array::from_fn` was tried, and the proof did not close: of a bound's call inside a closure it gets too little.
        let mut array = [0u32; 9];
        for k in 0..9 {
            array[k] = M::word(w[k], x[k], y[k]);
        }
        Words { array }
    }

    // chi, iota and theta: distances c and 2 c, and then 3 c and 8 c.
    #[inline(always)]
    pub fn round_by(&self, c: Residue) -> Words
        ensures { state_of_words result.array ≡ round_by c.value (state_of_words self.now.array) }
    {
        let mut words = self.mix::<Chi>(c, c.times(Residue { value: 2 }));
        words.add_bit(Residue { value: 0 }, 1);
        words.mix::<Theta>(c.times(Residue { value: 3 }), c.times(Residue { value: 8 }))
    }

    // pi: bit i becomes bit 12 i.
    pub fn shuffle(&self) -> Words
        ensures { state_of_words result.array ≡ pi (state_of_words self.now.array) }
    {
        self.stretch_by(Residue { value: 12 })
    }

    // Bit i becomes bit c i.
    pub fn stretch_by(&self, c: Residue) -> Words
        ensures { state_of_words result.array ≡ stretch c.value (state_of_words self.now.array) }
    {
        let row = Doubled::new(self);
        let mut array = [0u32; 9];
        let mut from = Residue { value: 0 };
        for k in 0..8 {
            let (word, next) = row.gather(from, c);
            array[k] = word;
            from = next;
        }
        array[8] = self.bit(from);
        Words { array }
    }
}

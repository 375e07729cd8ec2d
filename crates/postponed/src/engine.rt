// The postponed engine: packed bits a, and the count n of shuffles that are owed. Bit i of the state is found at a(12^n × i).
ghost use Rattle.std.specs.Prelude.{◌≡◌, ◌+◌, ◌%◌, ◌^◌};
ghost use Rattle.duplex.specs.State.{zeros, step};
ghost use Rattle.words.specs.Packing.{state_of_words, inject_by, round_by};
ghost use Rattle.postponed.specs.Meaning.{meant};
ghost use Rattle.postponed.specs.Powers.{power_of_12};
ghost use Rattle.words.specs.StateLaw.{words-state};
ghost use Rattle.words.proofs.StretchLaws.{stretch-state};

use crate::count::Count;
use duplex::Engine;
use words::Words;

#[derive(Clone, Copy)]
pub struct Postponed {
    pub(crate) words: Words,
    pub(crate) count: Count,
}

impl Engine for Postponed {
    ghost bits = { λ e. meant e };

    ghost means = { λ e. stretch-state _ _ (words-state e.words.array) };

    fn new() -> Postponed
        ensures means { meant result ≡ zeros }
        ensures count { result.count.value ≡ 0 }
    {
        Postponed {
            words: Words::new(),
            count: Count { value: 0 },
        }
    }

    // Distances are for the count before the round, positions for the count after it.
    fn step(&mut self, block: u64)
        ensures means { meant self.new ≡ step (meant self.old) block }
        ensures count { self.new.count.value ≡ (self.old.count.value + 1) % 256 }
        ensures words { state_of_words self.new.words.array ≡ inject_by (12 ^ self.new.count.value) (round_by (power_of_12 self.old.count.value) (state_of_words self.old.words.array)) block }
    {
        let mut words = self.words.round_by(self.count.power());
        let count = self.count.next();
        count.inject(&mut words, block);
        self.words = words;
        self.count = count;
    }

    fn read(&self) -> u32 {
        self.count.read(&self.words)
    }

    fn copy(&self) -> Postponed
        ensures same { result ≡ self.now }
        ensures means { meant result ≡ meant self.now }
    {
        *self
    }
}

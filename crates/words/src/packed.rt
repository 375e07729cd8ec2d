// The packed engine: bit i of the state is bit i of the words.
ghost use Rattle.words.specs.Packing.{state_of_words};
ghost use Rattle.words.specs.StateLaw.{words-state};

use crate::residue::Residue;
use crate::transfer::{Places, PositionIndex};
use crate::vector::Words;
use duplex::{Engine, positions};

// Every position stands at itself.
struct Unmoved;

impl Places for Unmoved {
    ghost factor = { λ _. 1 };

    fn place(&self, index: PositionIndex) -> Residue {
        Residue {
            value: positions()[index.number],
        }
    }
}

#[derive(Clone, Copy)]
pub struct Packed {
    words: Words,
}

impl Engine for Packed {
    ghost bits = { λ e. state_of_words e.words.array };

    ghost means = { λ e. words-state e.words.array };

    fn new() -> Packed {
        Packed {
            words: Words::new(),
        }
    }

    fn step(&mut self, block: u64) {
        let mut words = self.words.round_by(Residue { value: 1 }).shuffle();
        words.inject_by(block, &Unmoved);
        self.words = words;
    }

    fn read(&self) -> u32 {
        self.words.read_by(&Unmoved)
    }

    fn copy(&self) -> Packed {
        *self
    }
}

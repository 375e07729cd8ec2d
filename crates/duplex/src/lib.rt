// The duplex state of Subterranean 2.0: what an engine is, and the tables and figures that all engines share.
#![tactic(auto)]

ghost use Rattle.std.specs.Prelude.{◌≡◌, ℕ, List};
ghost use Rattle.duplex.specs.State.{IsState, zeros, step, reading};

mod figures;
mod table;

pub use figures::{padded_blocks, step_counts, worked_figures};
pub use table::positions;

// A representation of the 257 bits. `bits` says which bits a value means.
pub trait Engine: Drop {
    ghost bits: { Self → List ℕ };

    // All bits zero.
    fn new() -> Self
        ensures { bits result ≡ zeros };

    // A round, and then the lowest 33 bits of the block added at the positions.
    fn step(&mut self, block: u64)
        ensures { bits self.new ≡ step (bits self.old) block };

    // The 32 bits that are read.
    fn read(&self) -> u32
        ensures { result ≡ reading (bits self.now) };

    // A second value that means the same bits. It is neither `Clone`, which can fail in Rattle, nor `Copy`, a bound that would ask more of an engine.
    fn copy(&self) -> Self
        ensures { bits result ≡ bits self.now };

    ghost means: { (e : Self) → IsState (bits e) };
}

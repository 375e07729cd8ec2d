// The plain engine: 257 cells of one byte, each 0 or 1.
#![tactic(auto)]

ghost use Rattle.std.specs.Prelude.{◌≡◌, ℕ, ◌<◌, length, slice_index};
ghost use Rattle.duplex.specs.State.{inject, position};

mod round;

use duplex::{Engine, positions};
use round::rounded;

#[derive(Clone, Copy)]
pub struct Plain {
    cells: [u8; 257],
    ghost width: { length cells ≡ 257 },
    ghost binary: { (i : ℕ) → slice_index cells i < 2 },
}

// Position j as an index of the cells.
fn place(j: usize) -> usize
    requires { j < 33 }
    ensures value { result ≡ position j }
    ensures inside { (0 < result) × (result < 257) }
{
    positions()[j] as usize
}

// Adds bit j of the block to the cell at position j, for each of its lowest 33 bits.
fn add_block(cells: &mut [u8; 257], block: u64)
    ensures { cells.new ≡ inject cells.old block }
{
    for j in 0..33 {
        cells[place(j)] ^= ((block >> j) % 2) as u8;
    }
}

impl Engine for Plain {
    ghost bits = { λ e. e.cells };

    ghost means = { λ e. record { width = e.width; binary = e.binary } };

    fn new() -> Plain {
        Plain { cells: [0u8; 257] }
    }

    fn step(&mut self, block: u64) {
        let mut cells = rounded(&self.cells);
        add_block(&mut cells, block);
        self.cells = cells;
    }

    fn read(&self) -> u32 {
        let mut out = 0u32;
        for j in 0..32 {
            let p = place(j);
            let bit = self.cells[p] ^ self.cells[257 - p];
            out |= (bit as u32) << j;
        }
        out
    }

    fn copy(&self) -> Plain {
        *self
    }
}

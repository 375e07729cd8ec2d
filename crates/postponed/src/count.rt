// The count of owed shuffles: which power of 12 it stands for, and where it puts the positions.
ghost use Rattle.std.specs.Prelude.{◌≡◌, ◌+◌, ◌%◌, ◌^◌, ◌<◌};
ghost use Rattle.postponed.specs.Powers.{power_of_12};

use crate::table::powers;
use duplex::positions;
use words::{Places, PositionIndex, Residue};

#[derive(Clone, Copy)]
pub struct Count {
    pub value: u32,
    ghost low: { value < 256 },
}

impl Count {
    // 12 to the power of the count.
    pub fn power(self) -> Residue
        ensures { result.value ≡ power_of_12 self.value }
    {
        Residue {
            value: u32::from(powers()[self.value as usize]),
        }
    }

    // One more, and after 255 again 0.
    pub fn next(self) -> Count
        ensures { result.value ≡ (self.value + 1) % 256 }
    {
        Count {
            value: (self.value + 1) % 256,
        }
    }
}

impl Places for Count {
    ghost factor = { λ e. 12 ^ e.value };

    #[inline(always)]
    fn place(&self, index: PositionIndex) -> Residue {
        self.power().times(Residue {
            value: positions()[index.number],
        })
    }
}

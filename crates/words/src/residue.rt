// Numbers modulo 257.
ghost use Rattle.std.specs.Prelude.{◌≡◌, ◌+◌, ◌*◌, ◌%◌, ◌<◌};

#[derive(Clone, Copy)]
pub struct Residue {
    pub value: u32,
    ghost below: { value < 257 },
}

impl Residue {
    pub fn plus(self, other: Residue) -> Residue
        ensures { result.value ≡ (self.value + other.value) % 257 }
    {
        let sum = self.value + other.value;
        Residue {
            value: if sum < 257 { sum } else { sum - 257 },
        }
    }

    // 256 is −1: the product's low byte less the rest of it.
    pub fn times(self, other: Residue) -> Residue
        ensures { result.value ≡ self.value * other.value % 257 }
    {
        let product = self.value * other.value;
        let low = product % 256;
        let high = product / 256;
        Residue {
            value: if high <= low {
                low - high
            } else {
                low + 257 - high
            },
        }
    }
}

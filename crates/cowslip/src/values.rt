// Slices of fixed length, as C hands them over.
ghost use Rattle.std.specs.Prelude.{◌≡◌, length, Ok};
ghost use Rattle.cowslip.specs.Memory.{sized};

use crate::fault::CallFault;

// The bytes of a slice that has to be so long; `argument` is its place among the arguments, from 0. A lent array is made where it is needed: a function that gives one has to say by a clause of its own what the whole slice becomes, which is longer than the lines it saves.
pub(crate) fn fixed<const N: usize>(slice: &[u8], argument: usize) -> Result<[u8; N], CallFault>
    ensures { result ≡ sized argument N (length slice.now) (Ok slice.now) }
{
    <[u8; N]>::try_from(slice).map_err(|_| CallFault::ArgumentLength { argument })
}

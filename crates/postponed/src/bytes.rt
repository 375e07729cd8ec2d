// The bits that a postponed engine means, in 33 bytes: eight to a byte, the lowest first.
ghost use Rattle.std.specs.Prelude.{◌≡◌};
ghost use Rattle.duplex.specs.Bytes.{bytes_of_state, state_of_bytes};
ghost use Rattle.postponed.specs.Meaning.{meant};

use crate::count::Count;
use crate::engine::Postponed;
use words::Words;

impl Postponed {
    // The shuffles that are owed are carried out in the bytes. They hold these bits and no others, so `from_bytes` finds them again.
    pub fn to_bytes(&self) -> [u8; 33]
        ensures value { result ≡ bytes_of_state (meant self.now) }
        ensures back { state_of_bytes result ≡ meant self.now }
    {
        self.words.stretch_by(self.count.power()).to_bytes()
    }

    // The seven high places of the last byte are not read.
    pub fn from_bytes(bytes: &[u8; 33]) -> Postponed
        ensures means { meant result ≡ state_of_bytes bytes.now }
        ensures count { result.count.value ≡ 0 }
    {
        Postponed {
            words: Words::from_bytes(bytes),
            count: Count { value: 0 },
        }
    }
}

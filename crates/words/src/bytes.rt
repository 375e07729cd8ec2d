// The 257 bits in 33 bytes: eight to a byte, the lowest first.
ghost use Rattle.std.specs.Prelude.{◌≡◌};
ghost use Rattle.duplex.specs.Bytes.{bytes_of_state, state_of_bytes};
ghost use Rattle.words.specs.Packing.{state_of_words};

use crate::vector::Words;

impl Words {
    // The bytes hold these bits and no others, so `from_bytes` finds them again.
    pub fn to_bytes(&self) -> [u8; 33]
        ensures value { result ≡ bytes_of_state (state_of_words self.now.array) }
        ensures back { state_of_bytes result ≡ state_of_words self.now.array }
    {
        let mut bytes = [0u8; 33];
        for k in 0..33 {
            bytes[k] = ((self.array[k / 4] >> (8 * (k % 4) as u32)) & 0xff) as u8;
        }
        bytes
    }

    // The seven high places of the last byte are not read.
    pub fn from_bytes(bytes: &[u8; 33]) -> Words
        ensures { state_of_words result.array ≡ state_of_bytes bytes.now }
    {
        let mut array = [0u32; 9];
        let (blocks, _) = bytes.as_chunks::<4>();
        // Of what an `iter_mut` that is zipped leaves, nothing is known.
        for (k, block) in blocks.iter().enumerate() {
            array[k] = u32::from_le_bytes(*block);
        }
        array[8] = u32::from(bytes[32] & 1);
        Words { array }
    }
}

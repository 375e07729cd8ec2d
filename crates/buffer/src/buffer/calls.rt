// Writing into a buffer. What does not fit is dropped: `write!` would end at the first piece without room, and nothing is then known of what it wrote.
ghost use Rattle.std.specs.Prelude.{◌≡◌, [], ◌∷◌, length, decimal, ◌==◌};
ghost use Rattle.digits.specs.Pairs.{hex};
ghost use Rattle.buffer.specs.Buffers.{held, kept};

use super::Buffer;
use digits::hex_digit;

const ROOM: usize = 131;

impl Buffer {
    pub fn new() -> Buffer
        ensures { held result ≡ [] }
    {
        Buffer {
            cells: [0u8; 131],
            count: 0,
        }
    }

    // The bytes that are held.
    pub fn as_slice(&self) -> &[u8]
        ensures { result.now ≡ held self.now }
    {
        &self.cells[0..self.count]
    }

    pub fn is_empty(&self) -> bool
        ensures { result ≡ (length (held self.now) == 0) }
    {
        self.count == 0
    }

    // One byte more.
    pub fn push(&mut self, byte: u8)
        ensures { held self.new ≡ kept (held self.old) (byte ∷ []) }
    {
        if self.count < ROOM {
            self.cells[self.count] = byte;
            self.count += 1;
        }
    }

    pub fn extend(&mut self, bytes: &[u8])
        ensures { held self.new ≡ kept (held self.old) bytes.now }
    {
        for b in bytes {
            self.push(*b);
        }
    }

    // Bytes as hex.
    pub fn extend_hex(&mut self, bytes: &[u8])
        ensures { held self.new ≡ kept (held self.old) (hex bytes.now) }
    {
        for b in bytes {
            self.push(hex_digit(*b / 16));
            self.push(hex_digit(*b));
        }
    }

    // A number in decimal.
    pub fn extend_decimal(&mut self, n: usize)
        ensures { held self.new ≡ kept (held self.old) (decimal n) }
    {
        if n >= 10 {
            self.extend_decimal(n / 10);
        }
        self.push(b'0' + (n % 10) as u8);
    }
}

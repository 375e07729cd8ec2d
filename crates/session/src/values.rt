// Key, nonce and tag: 16 bytes each. They are three types of one shape, so that none can stand for another. None has `==` or `Debug`: tags are compared in constant time, and a key is not to be printed.
ghost use Rattle.std.specs.Prelude.{◌≡◌};
ghost use Rattle.std.specs.Str.{bytes_eq};

#[derive(Clone, Copy)]
pub struct Key {
    pub bytes: [u8; 16],
}

#[derive(Clone, Copy)]
pub struct Nonce {
    pub bytes: [u8; 16],
}

#[derive(Clone, Copy)]
pub struct Tag {
    pub bytes: [u8; 16],
}

impl Tag {
    // Whether all bytes are the same, in time that does not depend on where they differ.
    pub fn same(&self, other: &Tag) -> bool
        ensures { result ≡ bytes_eq self.now.bytes other.now.bytes }
    {
        let differences = self
            .bytes
            .iter()
            .zip(&other.bytes)
            .fold(0, |found, (a, b)| found | (a ^ b));
        differences == 0
    }
}

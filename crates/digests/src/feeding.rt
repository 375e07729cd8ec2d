// A digest that is fed. Bytes are absorbed as they come.
ghost use Rattle.std.specs.Prelude.{◌≡◌, false, ◌||◌, length};
ghost use Rattle.duplex.specs.State.{zeros};
ghost use Rattle.duplex.specs.Strings.{appended, squeezed, after_squeezing};
ghost use Rattle.digests.specs.Feeding.{feeding_bits, squeezing_bits, is_open, after_end, EndsString, closed, finished, some_bytes};

use duplex::Engine;
use strings::{BLANKS, Duplex};

// Takes strings in. `string_open` says whether bytes were appended since the last end; two types would not do, since it shows only when the calls run.
#[derive(Drop)]
pub struct Feeding<E> {
    duplex: Duplex<E>,
    string_open: bool,
}

// Gives bytes, and takes none.
#[derive(Drop)]
pub struct Squeezing<E> {
    duplex: Duplex<E>,
}

impl<E: Engine> Feeding<E> {
    pub fn new() -> Feeding<E>
        ensures bits { feeding_bits E.bits result ≡ zeros }
        ensures string { is_open result ≡ false }
    {
        Feeding {
            duplex: Duplex::new(),
            string_open: false,
        }
    }

    // Appends bytes to the string. No bytes change nothing.
    pub fn append(&mut self, bytes: &[u8])
        ensures moved { feeding_bits E.bits self.new ≡ appended (feeding_bits E.bits self.old) bytes.now }
        ensures string { is_open self.new ≡ (is_open self.old || some_bytes bytes.now) }
    {
        self.duplex.append_unkeyed(bytes);
        if !bytes.is_empty() {
            self.string_open = true;
        }
    }

    // Ends the string, which is empty where nothing was appended since the last end. What was appended is then absorbed as one unkeyed string.
    pub fn end_string(&mut self)
        ensures moved { feeding_bits E.bits self.new ≡ after_end (feeding_bits E.bits self.old) }
        ensures whole { EndsString (feeding_bits E.bits self.old) (feeding_bits E.bits self.new) }
        ensures string { is_open self.new ≡ false }
    {
        self.duplex.blank(2);
        self.string_open = false;
    }

    // Ends a string that is open, and goes over to squeezing.
    pub fn finish(mut self) -> Squeezing<E>
        ensures { squeezing_bits E.bits result ≡ finished (feeding_bits E.bits self) (is_open self) }
    {
        self.end_open();
        let Feeding {
            mut duplex,
            string_open: _,
        } = self;
        duplex.blank(BLANKS);
        Squeezing { duplex }
    }

    // Ends a string that is open.
    fn end_open(&mut self)
        ensures { feeding_bits E.bits self.new ≡ closed (feeding_bits E.bits self.old) (is_open self.old) }
    {
        if self.string_open {
            self.end_string();
        }
    }
}

impl<E: Engine> Squeezing<E> {
    // Fills `out`. Each call takes readings of its own, and drops the bytes that are over.
    pub fn squeeze(&mut self, out: &mut [u8])
        ensures out { out.new ≡ squeezed (squeezing_bits E.bits self.old) (length out.old) }
        ensures moved { squeezing_bits E.bits self.new ≡ after_squeezing (squeezing_bits E.bits self.old) (length out.old) }
    {
        self.duplex.squeeze(out);
    }
}

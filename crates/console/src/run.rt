// A run of the bench: bytes in, lines out.
ghost use Rattle.std.specs.Prelude.{◌≡◌, ℕ, ◌+◌, ◌<◌, List, [], ◌∷◌, ◌++◌, nat_le};
ghost use Rattle.std.specs.Option.{option_map};
ghost use Rattle.duplex.specs.State.{zeros};
ghost use Rattle.buffer.specs.Buffers.{held};
ghost use Rattle.console.specs.Runs.{run_state, state_of, transcript, to_come, ended, reply, after_byte, byte_reply, after_end, end_reply, bytes_of, most_lines};

use crate::carry::interpret;
use buffer::Buffer;
use duplex::Engine;
use strings::Duplex;

// After so many lines the bench stops reading.
const LINES: usize = 9999;

// A duplex object, the first bytes of the line that is being read, and the lines before it.
#[derive(Drop)]
pub struct Console<E> {
    pub duplex: Duplex<E>,
    pub line: Buffer,
    pub lines: usize,
}

impl<E: Engine> Console<E> {
    pub fn new() -> Console<E>
        ensures value { state_of E.bits result ≡ run_state zeros [] 0 }
        ensures prints { (input : List ℕ) → to_come (state_of E.bits result) input ≡ transcript input }
    {
        Console {
            duplex: Duplex::new(),
            line: Buffer::new(),
            lines: 0,
        }
    }

    // All lines are read.
    pub fn is_done(&self) -> bool
        ensures { result ≡ nat_le most_lines self.now.lines }
    {
        self.lines >= LINES
    }

    // Takes in a byte, and gives the line to print where it ends one. The exact effect is proved case by case at take_byte, and the law over the input to come once, here, from it.
    pub fn push(&mut self, byte: u8) -> Option<Buffer>
        ensures moved { state_of E.bits self.new ≡ after_byte (state_of E.bits self.old) byte }
        ensures value { option_map held result ≡ byte_reply (state_of E.bits self.old) byte }
        ensures prints { (more : List ℕ) → to_come (state_of E.bits self.old) (byte ∷ more) ≡ bytes_of (option_map held result) ++ to_come (state_of E.bits self.new) more }
    {
        self.take_byte(byte)
    }

    // The input has ended: gives the line to print where one was begun. As with push, the effect is proved at take_end and the law here.
    pub fn finish(&mut self) -> Option<Buffer>
        ensures moved { state_of E.bits self.new ≡ after_end (state_of E.bits self.old) }
        ensures value { option_map held result ≡ end_reply (state_of E.bits self.old) }
        ensures prints { to_come (state_of E.bits self.old) [] ≡ bytes_of (option_map held result) }
    {
        self.take_end()
    }

    fn take_byte(&mut self, byte: u8) -> Option<Buffer>
        ensures moved { state_of E.bits self.new ≡ after_byte (state_of E.bits self.old) byte }
        ensures value { option_map held result ≡ byte_reply (state_of E.bits self.old) byte }
    {
        if self.is_done() {
            return None;
        }
        if byte == b'\n' {
            return Some(self.end_line());
        }
        self.line.push(byte);
        None
    }

    fn take_end(&mut self) -> Option<Buffer>
        ensures moved { state_of E.bits self.new ≡ after_end (state_of E.bits self.old) }
        ensures value { option_map held result ≡ end_reply (state_of E.bits self.old) }
    {
        if self.is_done() || self.line.is_empty() {
            return None;
        }
        Some(self.end_line())
    }

    // Carries out the line that was begun.
    fn end_line(&mut self) -> Buffer
        requires { self.old.lines < most_lines }
        ensures moved { state_of E.bits self.new ≡ ended (state_of E.bits self.old) }
        ensures value { held result ≡ reply (state_of E.bits self.old) }
    {
        self.lines += 1;
        let reply = interpret(&mut self.duplex, self.lines, self.line.as_slice());
        self.line = Buffer::new();
        reply
    }
}

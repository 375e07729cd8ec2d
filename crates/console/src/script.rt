// A whole script, from a reader to a writer.
ghost use Rattle.std.specs.Prelude.{ℕ, List, ◌++◌, Option, IfSome, OnOk};
ghost use Rattle.std.specs.Option.{option_map};
ghost use Rattle.std.specs.Io.KnownBytes.{Appends};
ghost use Rattle.buffer.specs.Buffers.{held};
ghost use Rattle.console.specs.Runs.{transcript, to_come, state_of, bytes_of};

use crate::run::Console;
use buffer::Buffer;
use duplex::Engine;
use std::io;
use std::io::{ErrorKind, Read, Write};

// Writes the line of a reply, where there is one.
fn write_reply<W: Write>(output: &mut W, reply: Option<Buffer>) -> io::Result<()>
    ensures { OnOk result (Appends (W.contents output.old) (W.contents output.new) (bytes_of (option_map held reply))) }
{
    match reply {
        Some(line) => output.write_all(line.as_slice()),
        None => Ok(()),
    }
}

// Takes in bytes of the input and writes the lines that they end: what is then printed for the rest of the input completes what is printed for both.
fn feed<E: Engine, W: Write>(
    console: &mut Console<E>,
    bytes: &[u8],
    output: &mut W,
) -> io::Result<()>
    ensures { OnOk result ((rest : List ℕ) (last : Option (List ℕ)) → Appends (W.contents output.new) last (to_come (state_of E.bits console.new) rest) → Appends (W.contents output.old) last (to_come (state_of E.bits console.old) (bytes.now ++ rest))) }
{
    for byte in bytes {
        write_reply(output, console.push(*byte))?;
    }
    Ok(())
}

// Reads a script piece by piece to its end, or until all lines are read, and writes the transcript. Where the reader does not say what bytes it has, or the writer what it holds, nothing is claimed.
pub fn run_script<E: Engine, R: Read + Drop, W: Write>(
    mut input: R,
    output: &mut W,
) -> io::Result<()>
    ensures { OnOk result (IfSome (R.remaining input) (λ script. Appends (W.contents output.old) (W.contents output.new) (transcript script))) }
{
    let mut console = Console::<E>::new();
    let mut piece = [0u8; 4096];
    // A loop is bounded; an input that outlasts this one is an error.
    for _ in 0..u64::MAX {
        let n = match input.read(&mut piece) {
            Ok(n) => n,
            Err(error) if error.kind() == ErrorKind::Interrupted => continue,
            Err(error) => return Err(error),
        };
        if n == 0 {
            write_reply(output, console.finish())?;
            return output.flush();
        }
        feed(&mut console, &piece[..n], output)?;
        if console.is_done() {
            return output.flush();
        }
    }
    Err(ErrorKind::TimedOut.into())
}

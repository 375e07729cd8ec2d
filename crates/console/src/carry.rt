// Carrying out a line.
ghost use Rattle.std.specs.Prelude.{◌≡◌, ◌≤◌, [], ◌∷◌, ◌++◌, length, codes};
ghost use Rattle.digits.specs.Pairs.{hex};
ghost use Rattle.buffer.specs.Buffers.{held};
ghost use Rattle.commands.specs.Lines.{Within};
ghost use Rattle.commands.specs.Refusals.{told};
ghost use Rattle.console.specs.Replies.{after, shown, refused, line_bits, printed, line_feed};

use buffer::Buffer;
use commands::{Command, Fault, parse};
use digits::{Letters, decode_by};
use duplex::Engine;
use refusals::Refusal;
use strings::Duplex;

// The line that answers a command with nothing to show.
fn ok_line() -> Buffer
    ensures { held result ≡ codes "ok" ++ line_feed ∷ [] }
{
    let mut reply = Buffer::new();
    reply.extend(b"ok\n");
    reply
}

// The line that shows bytes.
fn hex_line(bytes: &[u8]) -> Buffer
    requires { length bytes.now ≤ 64 }
    ensures { held result ≡ hex bytes.now ++ line_feed ∷ [] }
{
    let mut reply = Buffer::new();
    reply.extend_hex(bytes);
    reply.push(b'\n');
    reply
}

// The line that tells a refusal.
fn refusal_line(number: usize, fault: Fault) -> Buffer
    ensures { held result ≡ refused number (told fault) ++ line_feed ∷ [] }
{
    let refusal = Refusal::from(fault);
    let mut reply = Buffer::new();
    reply.extend(b"? ");
    reply.extend_decimal(usize::from(refusal.number));
    reply.push(b' ');
    reply.extend_decimal(number);
    reply.push(b' ');
    reply.extend_decimal(refusal.place);
    reply.push(b'\n');
    reply
}

// Carries out a command with its string.
fn execute<E: Engine>(duplex: &mut Duplex<E>, command: Command, text: &mut [u8]) -> Buffer
    requires { (length text.old ≤ 64) × (Within command) }
    ensures moved { E.bits duplex.new.engine ≡ after (E.bits duplex.old.engine) command text.old }
    ensures reply { held result ≡ shown (E.bits duplex.old.engine) command text.old ++ line_feed ∷ [] }
{
    match command {
        Command::Zero => {
            *duplex = Duplex::new();
            ok_line()
        }
        Command::Absorb => {
            duplex.absorb(text);
            ok_line()
        }
        Command::AbsorbUnkeyed => {
            duplex.absorb_unkeyed(text);
            ok_line()
        }
        Command::Encrypt => {
            duplex.encrypt(text);
            hex_line(text)
        }
        Command::Decrypt => {
            duplex.decrypt(text);
            hex_line(text)
        }
        Command::Blank(times) => {
            duplex.blank(usize::from(times));
            ok_line()
        }
        Command::Squeeze(count) => {
            let mut out = [0; 64];
            let out = &mut out[..usize::from(count)];
            duplex.squeeze(out);
            hex_line(out)
        }
    }
}

// Carries out the line with this number, and gives the line to print. A refused line leaves the object alone.
pub fn interpret<E: Engine>(duplex: &mut Duplex<E>, number: usize, line: &[u8]) -> Buffer
    ensures moved { E.bits duplex.new.engine ≡ line_bits (E.bits duplex.old.engine) line.now }
    ensures reply { held result ≡ printed (E.bits duplex.old.engine) number line.now }
{
    match parse(line) {
        Ok(command) => {
            let digits = &line[line.len().min(2)..];
            let mut text = [0; 64];
            decode_by(Letters::Lower, digits, &mut text);
            execute(duplex, command, &mut text[..digits.len() / 2])
        }
        Err(fault) => refusal_line(number, fault),
    }
}

// Prints the suite's known-answer files, in the form of the NIST lightweight cryptography call.
#![tactic(auto)]

use anyhow::{anyhow, bail};
use cli::EngineName;
use digests::{Entry, digest};
use digits::Capitals;
use duplex::Engine;
use plain::Plain;
use postponed::Postponed;
use session::{Key, Nonce, Session, Tag};
use std::io::{BufWriter, Write};
use std::rt::Stdout;
use std::{array, env, io};
use words::Packed;

const USAGE: &str = "usage: kat hash|aead [plain | packed | postponed]

  hash   the digests of 00 01 02 ..., of 0 to 1024 bytes
  aead   texts of 0 to 32 bytes, each with associated data of 0 to 32 bytes, sealed
         under key and nonce 00 01 .. 0F; the tag stands at the end of CT

The second argument names the engine; all print the same, and without one it is the postponed engine.";

// The most bytes of 00 01 02 ..., counting round, that a record has.
const MOST: usize = 1024;

// The most bytes of a text or of associated data.
const ROOM: usize = 32;

const NO_FILE: &str = "the first argument is hash or aead; try --help";

type Out = BufWriter<Stdout>;

// No record is refused: an entry lies in its message, and the room is as long as the text. If one were, the program would end here.
fn refused() -> io::Error {
    io::Error::from(io::ErrorKind::InvalidInput)
}

fn counting() -> [u8; MOST] {
    array::from_fn(|i| (i % 256) as u8)
}

// A line with a label and bytes in hex, the letters in capitals.
fn put(out: &mut Out, label: &str, bytes: &[u8]) -> io::Result<()> {
    writeln!(out, "{label} = {}", Capitals(bytes))
}

fn hash_record<E: Engine>(out: &mut Out, count: usize, message: &[u8]) -> io::Result<()> {
    let entry = Entry {
        start: 0,
        length: message.len(),
    };
    let mut md = [0u8; 32];
    digest::<E>(message, &[entry], &mut md).map_err(|_| refused())?;
    writeln!(out, "Count = {count}")?;
    put(out, "Msg", message)?;
    put(out, "MD", &md)?;
    writeln!(out)
}

fn hash_file<E: Engine>(out: &mut Out) -> io::Result<()> {
    let bytes = counting();
    for n in 0..=MOST {
        hash_record::<E>(out, n + 1, &bytes[..n])?;
    }
    Ok(())
}

fn aead_record<E: Engine>(out: &mut Out, count: usize, text: &[u8], ad: &[u8]) -> io::Result<()> {
    let block = [0, 1, 2, 3, 4, 5, 6, 7, 8, 9, 10, 11, 12, 13, 14, 15];
    let mut session = Session::<E>::begin(&Key { bytes: block }, &Nonce { bytes: block });
    let mut room = [0u8; ROOM];
    let ciphertext = room.get_mut(..text.len()).ok_or_else(refused)?;
    let mut tag = Tag { bytes: [0u8; 16] };
    session
        .seal(ad, text, ciphertext, &mut tag)
        .map_err(|_| refused())?;
    writeln!(out, "Count = {count}")?;
    put(out, "Key", &block)?;
    put(out, "Nonce", &block)?;
    put(out, "PT", text)?;
    put(out, "AD", ad)?;
    writeln!(
        out,
        "CT = {}{}\n",
        Capitals(ciphertext),
        Capitals(&tag.bytes)
    )
}

fn aead_file<E: Engine>(out: &mut Out) -> io::Result<()> {
    let bytes = counting();
    for n in 0..=ROOM {
        for m in 0..=ROOM {
            aead_record::<E>(out, (ROOM + 1) * n + m + 1, &bytes[..n], &bytes[..m])?;
        }
    }
    Ok(())
}

fn file<E: Engine>(rt: &HostRuntime, name: &str) -> anyhow::Result<()> {
    let mut out = BufWriter::new(rt.alloc(), rt.stdout())?;
    match name {
        "hash" => hash_file::<E>(&mut out)?,
        "aead" => aead_file::<E>(&mut out)?,
        _ => bail!(NO_FILE),
    }
    Ok(out.flush()?)
}

// A closure cannot be generic over the engine, and a trait with an impl in each program would be longer than the three arms.
fn file_on(rt: &HostRuntime, engine: EngineName, name: &str) -> anyhow::Result<()> {
    match engine {
        EngineName::Plain => file::<Plain>(rt, name),
        EngineName::Packed => file::<Packed>(rt, name),
        EngineName::Postponed => file::<Postponed>(rt, name),
    }
}

fn start(rt: &HostRuntime) -> anyhow::Result<()> {
    let mut args = env::args(rt)?;
    let _program = args.next();
    let name = args.next().ok_or_else(|| anyhow!(NO_FILE))?;
    if let "-h" | "--help" = name.as_str() {
        return Ok(rt.println(USAGE)?);
    }
    let engine = args
        .next()
        .map_or(Ok(EngineName::default()), |engine| engine.parse())
        .map_err(|error| anyhow!("{error}; try --help"))?;
    file_on(rt, engine, name.as_str())
}

fn main(rt: HostRuntime) -> anyhow::Result<()> {
    start(&rt)
}

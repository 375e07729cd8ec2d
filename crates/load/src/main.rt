// A program for measuring: something that the library does, again and again, on any engine.
#![tactic(auto)]

mod run;
mod work;
mod works;

use anyhow::{anyhow, bail};
use cli::EngineName;
use digits::Hex;
use duplex::Engine;
use link::{Kind, ReceivingEnd, SendingEnd};
use plain::Plain;
use postponed::Postponed;
use run::{Load, Task};
use session::Session;
use std::env::{self, Args};
use std::io;
use std::process::ExitCode;
use wording::kind_byte;
use words::Packed;

const USAGE: &str = "usage: load ENGINE WORK COUNT
       load sizes

Does WORK so many times on the engine (plain, packed or postponed), and prints the last bytes
that came of it, at most 32, as hex digits. WORK is one of

  step           a step with the last reading as a full block, and a reading
  digest SIZE    32 bytes of the digest of one string of SIZE bytes
  squeeze SIZE   SIZE bytes squeezed, from where the last ones ended
  seal SIZE      a text of SIZE bytes sealed, with no associated data, in one session
  write KIND     a frame of the kind written by a sending end
  take KIND      the same, and the frame taken by a receiving end

KIND is poll-value, alarm, output, clock, zone-name or heartbeat. An end has 1,000,000 numbers,
so for frames COUNT is at most that. All bytes of texts are 5a, of the key 01, of the nonce 02.

sizes prints for each engine the bytes of its value, of a session, and of either end.";

// The word after WORK, as a number of bytes.
fn read_size(args: &mut Args) -> anyhow::Result<usize> {
    let word = args.next().ok_or_else(|| anyhow!("no SIZE; try --help"))?;
    word.parse()
        .map_err(|_| anyhow!("SIZE is no number; try --help"))
}

// The word after WORK, as a kind.
fn read_kind(args: &mut Args) -> anyhow::Result<Kind> {
    let word = args.next().ok_or_else(|| anyhow!("no KIND; try --help"))?;
    kind_byte(word.as_bytes())
        .and_then(|byte| Kind::try_from(byte).ok())
        .ok_or_else(|| anyhow!("no such KIND; try --help"))
}

fn read_task(args: &mut Args) -> anyhow::Result<Task> {
    let name = args.next().ok_or_else(|| anyhow!("no WORK; try --help"))?;
    match name.as_str() {
        "step" => Ok(Task::Step),
        "digest" => Ok(Task::Digest(read_size(args)?)),
        "squeeze" => Ok(Task::Squeeze(read_size(args)?)),
        "seal" => Ok(Task::Seal(read_size(args)?)),
        "write" => Ok(Task::Write(read_kind(args)?)),
        "take" => Ok(Task::Take(read_kind(args)?)),
        _ => bail!("no such WORK; try --help"),
    }
}

fn load(rt: &HostRuntime, engine: EngineName, mut args: Args) -> anyhow::Result<()> {
    let task = read_task(&mut args)?;
    let (Some(count), None) = (args.next(), args.next()) else {
        bail!("one COUNT comes last; try --help");
    };
    let count = count
        .parse::<u32>()
        .map_err(|_| anyhow!("COUNT is no number of 32 bits; try --help"))?;
    let load = Load {
        heap: rt.alloc(),
        count,
    };
    // A closure cannot be generic over the engine, and a trait with an impl in each program would be longer than the three arms.
    let out = match engine {
        EngineName::Plain => load.perform::<Plain>(task)?,
        EngineName::Packed => load.perform::<Packed>(task)?,
        EngineName::Postponed => load.perform::<Postponed>(task)?,
    };
    let last = Hex(&out[out.len().saturating_sub(32)..]);
    Ok(println!(rt; "{last}")?)
}

// The bytes of an engine's value, of a session and of either end. A macro, since `size_of` of a type parameter was tried and is not proved.
macro_rules! sizes {
    ($engine:ty) => {
        [
            size_of::<$engine>(),
            size_of::<Session<$engine>>(),
            size_of::<SendingEnd<$engine>>(),
            size_of::<ReceivingEnd<$engine>>(),
        ]
    };
}

fn print_sizes(rt: &HostRuntime, engine: EngineName, sizes: [usize; 4]) -> io::Result<()> {
    let [value, session, sending, receiving] = sizes;
    println!(rt;
        "{engine}: engine {value}, session {session}, sending end {sending}, receiving end {receiving}"
    )
}

fn print_all_sizes(rt: &HostRuntime) -> io::Result<()> {
    print_sizes(rt, EngineName::Plain, sizes!(Plain))?;
    print_sizes(rt, EngineName::Packed, sizes!(Packed))?;
    print_sizes(rt, EngineName::Postponed, sizes!(Postponed))
}

fn start(rt: &HostRuntime) -> anyhow::Result<()> {
    let mut args = env::args(rt)?;
    let _program = args.next();
    let first = args
        .next()
        .ok_or_else(|| anyhow!("no arguments; try --help"))?;
    match first.as_str() {
        "-h" | "--help" => Ok(println!(rt; "{USAGE}")?),
        "sizes" => Ok(print_all_sizes(rt)?),
        name => {
            let engine = name
                .parse()
                .map_err(|_| anyhow!("no such ENGINE; try --help"))?;
            load(rt, engine, args)
        }
    }
}

fn main(rt: HostRuntime) -> ExitCode {
    cli::report(&rt, "load", start(&rt))
}

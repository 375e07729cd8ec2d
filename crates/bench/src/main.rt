// The bench: reads a script of duplex operations and prints the suite's answers.
#![tactic(auto)]

use anyhow::ensure;
use cli::EngineName;
use console::run_script;
use plain::Plain;
use postponed::Postponed;
use std::io::BufWriter;
use std::{env, io};
use words::Packed;

const USAGE: &str = "usage: bench [plain | packed | postponed] < SCRIPT

Carries out a script of duplex operations of Subterranean 2.0, one line each, and prints
a line for each. The argument names the engine; all give the same answers, and without
one it is the postponed engine.

  Z          set the state to zero         A [HEX]   absorb a keyed string
  U [HEX]    absorb an unkeyed string      C [HEX]   encrypt, and print the ciphertext
  P [HEX]    decrypt, and print the text   B COUNT   blank COUNT times
  S COUNT    squeeze COUNT bytes, and print them

A line that is no command prints '? NUMBER LINE COLUMN' and changes nothing. docs/BENCH.md has all rules.";

// A closure cannot be generic over the engine, and a trait with an impl in each program would be longer than the three arms.
fn run_on(rt: &HostRuntime, engine: EngineName) -> io::Result<()> {
    let input = rt.stdin();
    let mut output = BufWriter::new(rt.alloc(), rt.stdout())?;
    match engine {
        EngineName::Plain => run_script::<Plain, _, _>(input, &mut output),
        EngineName::Packed => run_script::<Packed, _, _>(input, &mut output),
        EngineName::Postponed => run_script::<Postponed, _, _>(input, &mut output),
    }
}

// The engine of a name. Where there is none, the usage is printed.
fn read_engine(rt: &HostRuntime, name: &str) -> anyhow::Result<EngineName> {
    match name.parse() {
        Ok(engine) => Ok(engine),
        Err(error) => {
            rt.eprintln(USAGE)?;
            Err(error.into())
        }
    }
}

fn start(rt: &HostRuntime) -> anyhow::Result<()> {
    let mut args = env::args(rt)?;
    let _program = args.next();
    let Some(word) = args.next() else {
        return Ok(run_on(rt, EngineName::default())?);
    };
    ensure!(args.next().is_none(), "more than one argument; try --help");
    match word.as_str() {
        "-h" | "--help" => Ok(rt.println(USAGE)?),
        name => Ok(run_on(rt, read_engine(rt, name)?)?),
    }
}

fn main(rt: HostRuntime) -> anyhow::Result<()> {
    start(&rt)
}

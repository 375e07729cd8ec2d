// Rehearsals of the link: a script of frames between a panel and a head.
#![tactic(auto)]

use anyhow::{anyhow, bail, ensure};
use cli::EngineName;
use duplex::Engine;
use plain::Plain;
use postponed::Postponed;
use session::{Key, Nonce};
use std::env::Args;
use std::io::Read;
use std::process::ExitCode;
use std::{env, fs};
use words::Packed;

mod courier;
mod fault;
mod line;
mod million;
mod script;
mod show;
mod stage;

use script::{Opening, Script};
use show::Screen;

const USAGE: &str = "usage: rehearse [FILE]
       rehearse --million [plain | packed | postponed]

Rehearses a script of frames between a panel that writes them and a head that takes them,
and prints a line for each call. Without a FILE, or where it is -, reads standard input.

  open KEY NONCE       begin: once and first, 32 hex digits each
  write KIND [TEXT]    the panel writes a text as a kind
  hand                 the head is handed the next written frame
  hand N               the head is handed frame N
  flip BIT             the head is handed the next written frame with one bit flipped
  flip BIT N           the same of frame N
  drop                 the next written frame is lost
  swap                 the head is handed the next two written frames, the second one first
  repeat               the head is handed the same bytes once more
  bytes [HEX]          the head is handed the given bytes
  tell                 both ends tell their numbers

KIND is poll-value, alarm, output, clock, zone-name, heartbeat or two hex digits. TEXT and HEX
are lower-case hex digits. What follows a # is a comment. A line that cannot be carried out is
told on standard error, and the program ends with status 1.

  --million   passes heartbeats from a panel to a head on the named engine (without a name,
              the plain one) until no number is left

docs/REHEARSE.md has all rules.";

// Reads standard input, or a file.
fn read_input(rt: &HostRuntime, name: &str) -> anyhow::Result<Vec<u8>> {
    if name == "-" {
        let mut text = Vec::new(rt.alloc());
        rt.stdin().read_to_end(&mut text)?;
        Ok(text)
    } else {
        Ok(fs::read(rt, name)?)
    }
}

fn rehearse_script(rt: &HostRuntime, screen: &mut Screen<'_>, name: &str) -> anyhow::Result<()> {
    let text = read_input(rt, name)?;
    let script = Script::read(rt.alloc(), text.as_slice())?;
    let Some(opening) = script.opening else {
        screen.print_faults(script.entries.as_slice())?;
        bail!("the ends were not opened");
    };
    let all = stage::perform(rt.alloc(), &opening, script.entries.as_slice())?;
    let good = screen.print_rehearsal(&all)?;
    ensure!(all.second_agrees(), "the second end differs from head");
    ensure!(good, "not every line was carried out");
    Ok(())
}

// The engine that is named, or the plain one.
fn engine_of(mut args: Args) -> anyhow::Result<EngineName> {
    let name = args.next();
    ensure!(args.next().is_none(), "more than one engine; try --help");
    match name {
        None => Ok(EngineName::Plain),
        Some(name) => name.parse().map_err(|error| anyhow!("{error}; try --help")),
    }
}

fn use_all_numbers(screen: &mut Screen<'_>, engine: EngineName) -> anyhow::Result<()> {
    let opening = Opening {
        key: Key { bytes: [0; 16] },
        nonce: Nonce { bytes: [0; 16] },
    };
    // A closure cannot be generic over the engine, and a trait with an impl in each program would be longer than these three arms.
    let tally = match engine {
        EngineName::Plain => million::pass_all::<Postponed, Plain>(&opening),
        EngineName::Packed => million::pass_all::<Postponed, Packed>(&opening),
        EngineName::Postponed => million::pass_all::<Postponed, Postponed>(&opening),
    };
    screen.print(&tally)?;
    ensure!(tally.is_full(), "not every number was used");
    Ok(())
}

fn run(rt: &HostRuntime, screen: &mut Screen<'_>) -> anyhow::Result<()> {
    let mut args = env::args(rt)?;
    let _program = args.next();
    let Some(first) = args.next() else {
        return rehearse_script(rt, screen, "-");
    };
    if first.as_str() == "--million" {
        return use_all_numbers(screen, engine_of(args)?);
    }
    ensure!(args.next().is_none(), "more than one argument; try --help");
    match first.as_str() {
        "-h" | "--help" => Ok(screen.print(&USAGE)?),
        "-" => rehearse_script(rt, screen, "-"),
        name => {
            ensure!(!name.starts_with('-'), "unknown option {name}; try --help");
            rehearse_script(rt, screen, name)
        }
    }
}

fn start(rt: &HostRuntime) -> anyhow::Result<()> {
    let mut screen = Screen::new(rt)?;
    let done = run(rt, &mut screen);
    screen.flush()?;
    done
}

fn main(rt: HostRuntime) -> ExitCode {
    cli::report(&rt, "rehearse", start(&rt))
}

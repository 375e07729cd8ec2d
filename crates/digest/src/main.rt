// Digests of files, in the form known from sha256sum, and keys by the deck function.
#![tactic(auto)]

use anyhow::{bail, ensure};
use report::Report;
use std::env;
use std::env::Args;
use std::io::Write;
use std::process::ExitCode;
use sums::STDIN;

mod hex;
mod lists;
mod report;
mod sums;
mod work;

const USAGE: &str = "usage: digest [FILE...]
       digest -c [LIST...]
       digest strings LENGTH [STRING...]
       digest derive KEY LENGTH [STRING...]

Without a command, prints the digest of each FILE: 64 hex digits, two blanks and the name.
Without a FILE, or where FILE is -, reads standard input. A file is one string of the digest.

  -c        reads such lines, says of each file whether its digest is as listed,
            and ends with status 1 where one is not
  strings   prints LENGTH bytes of the digest of a list of strings
  derive    prints LENGTH bytes that the deck function gives for a key and a list of strings

KEY and each STRING are hex digits, two for a byte, and may be empty. Where KEY is -, it is
the first line of standard input, so that no list of processes shows it.
docs/DIGEST.md has all rules.";

// Does something for each name, and tells whether it succeeded for all.
fn all<F: FnMut(&str) -> anyhow::Result<bool>>(
    first: &str,
    rest: Args,
    mut each: F,
) -> anyhow::Result<bool>
    requires { (f : _) (x : _) → F.pre f x }
{
    let mut all = each(first)?;
    for name in rest {
        all &= each(name.as_str())?;
    }
    Ok(all)
}

fn print_lines(report: &mut Report, first: &str, rest: Args) -> anyhow::Result<()> {
    let all = all(first, rest, |name| Ok(report.print_line(name)?))?;
    ensure!(all, "not every file was read");
    Ok(())
}

fn check_lists(report: &mut Report, mut args: Args) -> anyhow::Result<()> {
    let first = args.next();
    let first = first.as_deref().unwrap_or(STDIN);
    let all = all(first, args, |list| report.check_list(list))?;
    ensure!(all, "not every file is as listed");
    Ok(())
}

fn run(report: &mut Report) -> anyhow::Result<()> {
    let mut args = env::args(report.rt)?;
    let _program = args.next();
    let Some(first) = args.next() else {
        return print_lines(report, STDIN, args);
    };
    match first.as_str() {
        "-h" | "--help" => Ok(writeln!(report.out, "{USAGE}")?),
        "-c" | "--check" => check_lists(report, args),
        "strings" => report.digest_strings(args),
        "derive" => report.derive_key(args),
        name => {
            if name != STDIN && name.starts_with('-') {
                bail!("unknown option {name}; try --help");
            }
            print_lines(report, name, args)
        }
    }
}

fn start(rt: &HostRuntime) -> anyhow::Result<()> {
    let mut report = Report::new(rt)?;
    let done = run(&mut report);
    report.out.flush()?;
    done
}

fn main(rt: HostRuntime) -> ExitCode {
    cli::report(&rt, "digest", start(&rt))
}

// Seals a file's bytes under a key, a nonce and associated data, and opens them again.
#![tactic(auto)]

mod fault;
mod words;

use cli::report;
use fault::{Fault, Subject};
use sealed::{open, seal};
use session::{Key, Nonce};
use std::alloc::Global;
use std::process::ExitCode;
use std::str::FromStr;
use std::{env, fs, io};
use words::{hex_bytes, sixteen_bytes};

const HELP: &str = "usage: seal seal KEY NONCE AD IN OUT
       seal open KEY NONCE AD IN OUT
       seal --help

seal   encrypts the bytes of file IN and writes them to file OUT, a tag of 16 bytes after them
open   checks the tag of such a file IN and writes the decrypted bytes to file OUT

KEY and NONCE are 32 hex digits each, AD an even number of them or '' for none. Never seal
two files under the same key and nonce. A refusal says why and ends with status 1. It leaves
OUT alone, except that writing OUT may fail half-way, and that OUT is already written where
the closing line cannot be printed.";

// What is done to the bytes of a file.
#[derive(Clone, Copy)]
enum Task {
    Seal,
    Open,
}

impl FromStr for Task {
    type Err = Fault;

    fn from_str(word: &str) -> Result<Task, Fault> {
        match word {
            "seal" => Ok(Task::Seal),
            "open" => Ok(Task::Open),
            _ => Err(Fault::Usage),
        }
    }
}

// What was done with a file, or why it was not.
fn done<T: Drop>(subject: Subject, outcome: io::Result<T>) -> Result<T, Fault> {
    outcome.map_err(|error| Fault::File { subject, error })
}

// Carries out the command of these words.
fn carry_out(rt: &HostRuntime, words: &[String]) -> Result<(), Fault> {
    let [verb, key, nonce, ad, from, to] = words else {
        return Err(Fault::Usage);
    };
    let heap = rt.alloc();
    let task = verb.as_str().parse::<Task>()?;
    let key = Key {
        bytes: sixteen_bytes(Subject::Key, key.as_str())?,
    };
    let nonce = Nonce {
        bytes: sixteen_bytes(Subject::Nonce, nonce.as_str())?,
    };
    let ad = hex_bytes(heap, Subject::Ad, ad.as_str())?;
    let input = done(Subject::In, fs::read(rt, from.as_str()))?;
    let (did, output) = match task {
        Task::Seal => (
            "sealed",
            seal(heap, &key, &nonce, ad.as_slice(), input.as_slice())?,
        ),
        Task::Open => (
            "opened",
            open(heap, &key, &nonce, ad.as_slice(), input.as_slice())?,
        ),
    };
    done(Subject::Out, fs::write(rt, to.as_str(), output.as_slice()))?;
    let (given, made) = (input.len(), output.len());
    done(
        Subject::Print,
        println!(rt; "{did} {from}, {given} bytes, into {to}, {made} bytes"),
    )
}

fn run(rt: &HostRuntime) -> Result<(), Fault> {
    let args = env::args(rt).map_err(|_| Fault::Usage)?;
    let words: Vec<String> = args.skip(1).collect(rt.alloc())?;
    if let [word] = words.as_slice() {
        if word.as_str() == "--help" {
            let _ = rt.println(HELP);
            return Ok(());
        }
    }
    carry_out(rt, words.as_slice())
}

fn main(rt: HostRuntime) -> ExitCode {
    report(&rt, "seal", run(&rt))
}

// The digests of files, and lists of them.
use crate::report::Report;
use crate::{hex, work};
use anyhow::{anyhow, ensure};
use digits::Hex;
use std::io::{BufRead, BufReader, Read, Write};
use std::{fs, io};

// The name that stands for standard input.
pub(crate) const STDIN: &str = "-";

// The digest that a line of a list writes, and the name behind it.
fn parse_line<'a>(rt: &HostRuntime, line: &'a str) -> anyhow::Result<(Vec<u8>, &'a str)> {
    let (digits, name) = line
        .split_once("  ")
        .ok_or_else(|| anyhow!("no digest, two blanks and a name"))?;
    let digest = hex::bytes_of(rt.alloc(), digits)?;
    ensure!(digest.len() == 32, "not the 64 digits of a digest");
    Ok((digest, name))
}

impl Report<'_> {
    // The digest of a file as one string.
    fn digest_file(&self, name: &str) -> io::Result<[u8; 32]> {
        if name == STDIN {
            work::digest_input(&mut self.rt.stdin())
        } else {
            work::digest_input(&mut fs::open(self.rt, name)?)
        }
    }

    fn complain(&self, name: &str, error: &io::Error) -> io::Result<()> {
        eprintln!(self.rt; "digest: {name}: {error}")
    }

    // Prints the line of a file, or says why there is none. Answers whether it printed one.
    pub(crate) fn print_line(&mut self, name: &str) -> io::Result<bool> {
        match self.digest_file(name) {
            Ok(digest) => {
                writeln!(self.out, "{}  {name}", Hex(&digest))?;
                Ok(true)
            }
            Err(error) => {
                self.complain(name, &error)?;
                Ok(false)
            }
        }
    }

    // Holds a file to a line of a list and says how it does. Answers whether it is as it was.
    fn check_line(&mut self, line: &str) -> anyhow::Result<bool> {
        let (listed, name) = parse_line(self.rt, line)?;
        match self.digest_file(name) {
            Ok(digest) => {
                let same = listed.as_slice() == digest.as_slice();
                let verdict = if same { "OK" } else { "FAILED" };
                writeln!(self.out, "{name}: {verdict}")?;
                Ok(same)
            }
            Err(error) => {
                self.complain(name, &error)?;
                writeln!(self.out, "{name}: FAILED open or read")?;
                Ok(false)
            }
        }
    }

    // Holds files to the lines of a list. Answers whether all are as they were.
    fn check_lines<R: Read + Drop>(&mut self, list: &str, input: R) -> anyhow::Result<bool> {
        let heap = self.rt.alloc();
        let mut all = true;
        // Counted by hand: a `zip` with numbers would need a flag beside it to tell an empty list.
        let mut number = 0u64;
        for line in BufReader::new(heap, input)?.lines(heap) {
            number = number.saturating_add(1);
            all &= match self.check_line(line?.as_str()) {
                Ok(same) => same,
                Err(error) => {
                    eprintln!(self.rt; "digest: {list}: line {number}: {error}")?;
                    false
                }
            };
        }
        if number == 0 {
            eprintln!(self.rt; "digest: {list}: an empty list")?;
            all = false;
        }
        Ok(all)
    }

    // The same of a list by its name.
    pub(crate) fn check_list(&mut self, list: &str) -> anyhow::Result<bool> {
        if list == STDIN {
            return self.check_lines(list, self.rt.stdin());
        }
        match fs::open(self.rt, list) {
            Ok(input) => self.check_lines(list, input),
            Err(error) => {
                self.complain(list, &error)?;
                Ok(false)
            }
        }
    }
}

// The digest and the deck function of strings that are written as hex.
use crate::hex;
use crate::report::Report;
use crate::sums::STDIN;
use crate::work::Chosen;
use anyhow::anyhow;
use digests::{Entry, EntryFault, deck, digest};
use digits::Hex;
use std::alloc::Global;
use std::env::Args;
use std::io::{BufRead, BufReader, Write};

const MOST_BYTES: usize = 1_048_576;

// Strings, one after the other in one buffer.
#[derive(Drop)]
struct Strings {
    buffer: Vec<u8>,
    entries: Vec<Entry>,
}

impl Strings {
    // Those that the arguments write.
    fn read(heap: Global, args: Args) -> anyhow::Result<Strings> {
        let mut strings = Strings {
            buffer: Vec::new(heap),
            entries: Vec::new(heap),
        };
        for digits in args {
            strings.push(digits.as_str())?;
        }
        Ok(strings)
    }

    fn push(&mut self, digits: &str) -> anyhow::Result<()> {
        let entry = Entry {
            start: self.buffer.len(),
            length: digits.len() / 2,
        };
        hex::push_bytes(&mut self.buffer, digits).map_err(|error| anyhow!("{digits}: {error}"))?;
        Ok(self.entries.push(entry)?)
    }
}

// As many zeros as the next argument says.
fn room(heap: Global, args: &mut Args) -> anyhow::Result<Vec<u8>> {
    let text = args.next().ok_or_else(|| anyhow!("no LENGTH; try --help"))?;
    let length = text
        .parse::<usize>()
        .ok()
        .filter(|length| *length <= MOST_BYTES)
        .ok_or_else(|| anyhow!("{text}: no LENGTH from 0 to {MOST_BYTES}"))?;
    Ok(vec![in heap; 0; length]?)
}

fn outside(_fault: EntryFault) -> anyhow::Error {
    anyhow!("a string outside the buffer")
}

impl Report<'_> {
    // The key of the next argument. An error does not show it.
    fn read_key(&self, args: &mut Args) -> anyhow::Result<Vec<u8>> {
        let heap = self.rt.alloc();
        let mut digits = args.next().ok_or_else(|| anyhow!("no KEY; try --help"))?;
        if digits.as_str() == STDIN {
            digits = BufReader::new(heap, self.rt.stdin())?
                .lines(heap)
                .next()
                .ok_or_else(|| anyhow!("KEY: standard input is empty"))??;
        }
        hex::bytes_of(heap, digits.as_str()).map_err(|error| anyhow!("KEY: {error}"))
    }

    fn print_bytes(&mut self, bytes: &[u8]) -> anyhow::Result<()> {
        Ok(writeln!(self.out, "{}", Hex(bytes))?)
    }

    // `strings LENGTH [STRING...]`
    pub(crate) fn digest_strings(&mut self, mut args: Args) -> anyhow::Result<()> {
        let heap = self.rt.alloc();
        let mut bytes = room(heap, &mut args)?;
        let strings = Strings::read(heap, args)?;
        digest::<Chosen>(&strings.buffer, &strings.entries, &mut bytes).map_err(outside)?;
        self.print_bytes(&bytes)
    }

    // `derive KEY LENGTH [STRING...]`
    pub(crate) fn derive_key(&mut self, mut args: Args) -> anyhow::Result<()> {
        let heap = self.rt.alloc();
        let key = self.read_key(&mut args)?;
        let mut derived = room(heap, &mut args)?;
        let strings = Strings::read(heap, args)?;
        deck::<Chosen>(&key, &strings.buffer, &strings.entries, &mut derived).map_err(outside)?;
        self.print_bytes(&derived)
    }
}

// The words of a line.
use wording::{Stop, run_length};

// A word and the column, from 1, at which it begins.
#[derive(Clone, Copy)]
pub struct Word<'a> {
    pub text: &'a [u8],
    pub column: usize,
}

// What is left of a line, and the column at which that begins.
#[derive(Drop)]
pub struct Words<'a> {
    rest: &'a [u8],
    column: usize,
}

impl<'a> Words<'a> {
    // The words of a line, up to a `#`.
    pub(crate) fn new(line: &'a [u8]) -> Words<'a> {
        let end = run_length(line, Stop::Byte(b'#'));
        Words {
            rest: &line[..end],
            column: 1,
        }
    }

    // The column past the words that were given.
    pub(crate) fn column(&self) -> usize {
        self.column
    }
}

impl<'a> Iterator for Words<'a> {
    type Item = Word<'a>;

    fn next(&mut self) -> Option<Word<'a>> {
        let gap = run_length(self.rest, Stop::Word);
        let begun = &self.rest[gap..];
        if begun.is_empty() {
            return None;
        }
        let (text, rest) = begun.split_at(run_length(begun, Stop::Blank));
        let column = self.column.saturating_add(gap);
        self.rest = rest;
        self.column = column.saturating_add(text.len());
        Some(Word { text, column })
    }
}

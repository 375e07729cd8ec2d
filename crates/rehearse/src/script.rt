// What a script says.
use crate::fault::{Fault, Reason, Trouble};
use crate::line::{Word, Words};
use session::{Key, Nonce};
use std::alloc::{AllocError, Global};

// What the ends are opened with.
#[derive(Clone, Copy)]
pub struct Opening {
    pub key: Key,
    pub nonce: Nonce,
}

// A number, and the column at which it stands.
#[derive(Clone, Copy)]
pub struct Figure {
    pub value: usize,
    pub column: usize,
}

#[derive(Drop)]
pub enum Step {
    Open(Opening),
    // a kind's byte, as the panel takes it, and a text
    Write(u8, Vec<u8>),
    // the next written frame, or the named one
    Hand(Option<Figure>),
    // the same with one bit changed
    Flip(Figure, Option<Figure>),
    Lose,
    Repeat,
    Swap,
    Bytes(Vec<u8>),
    Tell,
}

// The saturated value of a word of decimal digits.
impl<'a> TryFrom<Word<'a>> for Figure {
    type Error = Fault;

    fn try_from(word: Word<'a>) -> Result<Figure, Fault> {
        let Word { text, column } = word;
        if let Some(i) = text.iter().position(|c| !c.is_ascii_digit()) {
            return Err(Fault::new(column.saturating_add(i), Reason::NoDigit));
        }
        let value = text.iter().fold(0usize, |value, c| {
            value
                .saturating_mul(10)
                .saturating_add(usize::from(c.saturating_sub(b'0')))
        });
        Ok(Figure { value, column })
    }
}

// Reads the words that follow a line's command.
#[derive(Drop)]
struct Reader<'a> {
    heap: Global,
    words: Words<'a>,
}

impl<'a> Reader<'a> {
    // The next word, or why one is wanted.
    fn word(&mut self, reason: Reason) -> Result<Word<'a>, Fault> {
        let word = self.words.next();
        word.ok_or(Fault::new(self.words.column(), reason))
    }

    // The bytes of a word, or what spoils it: told by a column of the line, so not as `sealed` and `digest` tell it.
    fn bytes_of(&self, word: Word<'_>) -> Result<Vec<u8>, Trouble> {
        let Some(place) = wording::bad_place(word.text) else {
            return Ok(wording::decode(self.heap, word.text)?);
        };
        let reason = if place < word.text.len() {
            Reason::NoHexDigit
        } else {
            Reason::OddDigits
        };
        Err(Fault::new(word.column.saturating_add(place), reason).into())
    }

    // The bytes of the next word, and none where there is no word.
    fn bytes_if_any(&mut self) -> Result<Vec<u8>, Trouble> {
        match self.words.next() {
            Some(word) => self.bytes_of(word),
            None => Ok(Vec::new(self.heap)),
        }
    }

    fn sixteen(&mut self, reason: Reason) -> Result<[u8; 16], Trouble> {
        let word = self.word(reason)?;
        let bytes = self.bytes_of(word)?;
        let sixteen = bytes.as_slice().try_into();
        Ok(sixteen.map_err(|_| Fault::new(word.column, reason))?)
    }

    fn figure_if_any(&mut self) -> Result<Option<Figure>, Fault> {
        self.words.next().map(Figure::try_from).transpose()
    }

    fn open(&mut self) -> Result<Step, Trouble> {
        let key = self.sixteen(Reason::KeyWanted)?;
        let nonce = self.sixteen(Reason::NonceWanted)?;
        Ok(Step::Open(Opening {
            key: Key { bytes: key },
            nonce: Nonce { bytes: nonce },
        }))
    }

    fn write(&mut self) -> Result<Step, Trouble> {
        let word = self.word(Reason::KindWanted)?;
        let kind = wording::kind_byte(word.text);
        let kind = kind.ok_or(Fault::new(word.column, Reason::UnknownKind))?;
        Ok(Step::Write(kind, self.bytes_if_any()?))
    }

    fn flip(&mut self) -> Result<Step, Trouble> {
        let bit = self.word(Reason::BitWanted)?.try_into()?;
        Ok(Step::Flip(bit, self.figure_if_any()?))
    }

    fn step_of(&mut self, command: Word<'_>) -> Result<Step, Trouble> {
        match command.text {
            b"open" => self.open(),
            b"write" => self.write(),
            b"hand" => Ok(Step::Hand(self.figure_if_any()?)),
            b"flip" => self.flip(),
            b"bytes" => Ok(Step::Bytes(self.bytes_if_any()?)),
            b"drop" => Ok(Step::Lose),
            b"repeat" => Ok(Step::Repeat),
            b"swap" => Ok(Step::Swap),
            b"tell" => Ok(Step::Tell),
            _ => Err(Fault::new(command.column, Reason::UnknownCommand).into()),
        }
    }
}

// The step of a line, if it has any, and the column at which it begins.
fn parse(heap: Global, line: &[u8]) -> Result<Option<(usize, Step)>, Trouble> {
    let words = Words::new(line);
    let mut reader = Reader { heap, words };
    let Some(command) = reader.words.next() else {
        return Ok(None);
    };
    let step = reader.step_of(command)?;
    match reader.words.next() {
        None => Ok(Some((command.column, step))),
        Some(word) => Err(Fault::new(word.column, Reason::ExtraWord).into()),
    }
}

// Where something of the script stands.
#[derive(Clone, Copy)]
pub struct Place {
    pub line: usize,
    pub column: usize,
}

// A line with something on it.
#[derive(Drop)]
pub struct Entry {
    pub place: Place,
    pub step: Result<Step, Fault>,
}

#[derive(Drop)]
pub struct Script {
    pub entries: Vec<Entry>,
    pub opening: Option<Opening>,
}

impl Script {
    // Holds a step to what came before it: the ends are opened once, and first.
    fn admit(&mut self, step: Step) -> Result<Step, Reason> {
        match (&step, self.opening) {
            (Step::Open(opening), None) => self.opening = Some(*opening),
            (Step::Open(_), Some(_)) => return Err(Reason::OpenAlready),
            (_, None) => return Err(Reason::NotOpen),
            (_, Some(_)) => {}
        }
        Ok(step)
    }

    fn read_line(&mut self, heap: Global, number: usize, line: &[u8]) -> Result<(), AllocError> {
        let (column, step) = match parse(heap, line) {
            Ok(None) => return Ok(()),
            Ok(Some((column, step))) => match self.admit(step) {
                Ok(step) => (column, Ok(step)),
                Err(reason) => (column, Err(Fault::new(column, reason))),
            },
            Err(Trouble::Line(fault)) => (fault.column, Err(fault)),
            Err(Trouble::Memory(error)) => return Err(error),
        };
        let place = Place {
            line: number,
            column,
        };
        self.entries.push(Entry { place, step })?;
        Ok(())
    }

    // What follows the last line feed has no word where it is empty, and so counts for nothing.
    pub(crate) fn read(heap: Global, text: &[u8]) -> Result<Script, AllocError> {
        let mut script = Script {
            entries: Vec::new(heap),
            opening: None,
        };
        for (i, line) in text.split(|b| *b == b'\n').enumerate() {
            script.read_line(heap, i.saturating_add(1), line)?;
        }
        Ok(script)
    }
}

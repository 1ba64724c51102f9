// A row of a table.
ghost use Rattle.std.specs.Prelude.{◌≤◌, ◌<◌, ◌^◌};

use crate::fault::Fault;
use crate::piece::{push_line, push_piece, push_times};
use crate::table::{RowPart, Spelling};
use journal_base::Sizes;
use prolog_session::Want;
use std::alloc::Global;

/// What a row's run is to give; what isn't asked for is none.
#[derive(Drop)]
pub struct Wanted {
    pub status: u8,
    pub output: Vec<u8>,
    pub journal: Option<Vec<u8>>,
    pub runs: Option<Vec<u8>>,
    pub passes: Option<Vec<u8>>,
}

/// A row: what is run, and what it is to give.
#[derive(Drop)]
pub struct Row {
    pub name: String,
    pub must_differ: bool,
    pub text: Vec<u8>,
    /// The words of the command, each as its bytes.
    pub words: Vec<Vec<u8>>,
    pub sizes: RowSizes,
    /// How many bytes source and sink take a call; where it isn't said, the row is run with one, two and three.
    pub step: Option<usize>,
    pub wanted: Wanted,
}

/// Sizes that a database may have.
#[derive(Clone, Copy)]
pub struct RowSizes {
    pub words: u64,
    pub updates: u64,
    ghost words_fit: { (1 ≤ words) × (words ≤ 2 ^ 30) },
    ghost updates_fit: { (1 ≤ updates) × (updates < 2 ^ 24) },
}

impl RowSizes {
    /// The sizes next to these that a database may have.
    fn near(words: u64, updates: u64) -> RowSizes {
        RowSizes {
            words: words.clamp(1, 1 << 30),
            updates: updates.clamp(1, (1 << 24) - 1),
        }
    }

    /// The sizes of the base.
    pub fn sizes(&self) -> Sizes
        ensures words { (1 ≤ result.words) × (result.words ≤ 2 ^ 30) }
        ensures updates { (1 ≤ result.updates) × (result.updates < 2 ^ 24) }
    {
        Sizes {
            words: self.words,
            updates: self.updates,
        }
    }
}

/// Adds bytes that are written so.
fn push_spelled(into: &mut Vec<u8>, spelling: Spelling, bytes: &str) -> Result<(), Fault> {
    match spelling {
        Spelling::Line => push_line(into, bytes),
        Spelling::Piece => push_piece(into, bytes),
        Spelling::Times => push_times(into, bytes),
    }
}

/// Adds a line to lines that are asked for, from now on if not before.
fn push_asked(alloc: Global, lines: &mut Option<Vec<u8>>, line: &str) -> Result<(), Fault> {
    let into = lines.get_or_insert(Vec::new(alloc));
    push_line(into, line)
}

fn number(digits: &str) -> Result<u64, Fault> {
    digits.parse::<u64>().map_err(|_| Fault::NoNumber)
}

impl Row {
    /// A row of this name of which nothing else is said yet.
    pub fn new(alloc: Global, name: &str, must_differ: bool) -> Result<Row, Want> {
        Ok(Row {
            name: String::from_str(alloc, name)?,
            must_differ,
            text: Vec::new(alloc),
            words: Vec::new(alloc),
            sizes: RowSizes::near(1000, 1000),
            step: None,
            wanted: Wanted {
                status: 0,
                output: Vec::new(alloc),
                journal: None,
                runs: None,
                passes: None,
            },
        })
    }

    /// Takes a part of the row.
    pub fn take(&mut self, alloc: Global, part: RowPart<'_>) -> Result<(), Fault> {
        match part {
            RowPart::Text(spelling, bytes) => push_spelled(&mut self.text, spelling, bytes)?,
            RowPart::Output(spelling, bytes) => {
                push_spelled(&mut self.wanted.output, spelling, bytes)?;
            }
            RowPart::Word(spelling, bytes) => self.begin_word(alloc, spelling, bytes)?,
            RowPart::MoreWord(spelling, bytes) => {
                let word = self.words.last_mut().ok_or(Fault::NoWord)?;
                push_spelled(word, spelling, bytes)?;
            }
            RowPart::Status(digits) => {
                self.wanted.status = digits.parse::<u8>().map_err(|_| Fault::NoNumber)?;
            }
            RowPart::Sizes(digits) => {
                let (words, updates) = digits.split_once(' ').ok_or(Fault::NoNumber)?;
                self.sizes = RowSizes::near(number(words)?, number(updates)?);
            }
            RowPart::Step(digits) => {
                self.step = Some(digits.parse::<usize>().map_err(|_| Fault::NoNumber)?);
            }
            RowPart::JournalLine(line) => push_asked(alloc, &mut self.wanted.journal, line)?,
            RowPart::NoJournal => self.wanted.journal = Some(Vec::new(alloc)),
            RowPart::RunLine(line) => push_asked(alloc, &mut self.wanted.runs, line)?,
            RowPart::NoRun => self.wanted.runs = Some(Vec::new(alloc)),
            RowPart::Passes(line) => push_asked(alloc, &mut self.wanted.passes, line)?,
        }
        Ok(())
    }

    /// Begins a word: as it stands, or a piece of it.
    fn begin_word(&mut self, alloc: Global, spelling: Spelling, bytes: &str) -> Result<(), Fault> {
        let mut word = Vec::new(alloc);
        match spelling {
            Spelling::Line => word.extend_from_slice(bytes.as_bytes())?,
            Spelling::Piece => push_piece(&mut word, bytes)?,
            Spelling::Times => push_times(&mut word, bytes)?,
        }
        self.words.push(word)?;
        Ok(())
    }
}

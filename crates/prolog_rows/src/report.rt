// What is told of the rows.
use crate::fault::Fault;
use crate::row::Row;
use crate::trial::Came;
use prolog_session::Want;
use std::alloc::Global;

/// What is told of a table that can't be read.
pub fn fault_text(fault: Fault) -> &'static str {
    match fault {
        Fault::Want => "out of memory",
        Fault::NotText => "the table isn't UTF-8",
        Fault::NoSuchLine => "no line of a table begins so",
        Fault::NoRow => "a part of a row before the first row",
        Fault::NoEscape => "a \\ that begins no escape",
        Fault::NoNumber => "a number is out of form",
        Fault::NoWord => "a word isn't UTF-8, or isn't begun",
    }
}

/// What is told, and the counts of rows.
#[derive(Drop)]
pub struct Report {
    alloc: Global,
    told: Vec<u8>,
    as_said: u64,
    differing: u64,
    bad: u64,
}

impl Report {
    /// Nothing told, nothing counted.
    pub fn new(alloc: Global) -> Report {
        Report {
            alloc,
            told: Vec::new(alloc),
            as_said: 0,
            differing: 0,
            bad: 0,
        }
    }

    /// What is told.
    pub fn bytes(&self) -> &[u8] {
        &self.told
    }

    /// Whether each row is as it should be.
    pub fn is_good(&self) -> bool {
        self.bad == 0
    }

    /// Counts a row that was run.
    pub fn count(&mut self, must_differ: bool, good: bool) {
        if !good {
            self.bad = self.bad.saturating_add(1);
        } else if must_differ {
            self.differing = self.differing.saturating_add(1);
        } else {
            self.as_said = self.as_said.saturating_add(1);
        }
    }

    fn say(&mut self, bytes: &[u8]) -> Result<(), Want> {
        self.told.extend_from_slice(bytes)?;
        Ok(())
    }

    /// Tells lines, each behind a mark.
    fn say_marked(&mut self, mark: &[u8], lines: &[u8]) -> Result<(), Want> {
        let mut begins = true;
        for byte in lines {
            if begins {
                self.say(mark)?;
            }
            self.told.push(*byte)?;
            begins = *byte == b'\n';
        }
        if !begins {
            self.say(b"\n")?;
        }
        Ok(())
    }

    /// Tells what was wanted and what came of a part of a row, where these differ.
    fn say_part(&mut self, part: &[u8], wanted: &[u8], came: &[u8]) -> Result<(), Want> {
        if wanted == came {
            return Ok(());
        }
        self.say(b"  ")?;
        self.say(part)?;
        self.say(b" wanted:\n")?;
        self.say_marked(b"  | ", wanted)?;
        self.say(b"  ")?;
        self.say(part)?;
        self.say(b" came:\n")?;
        self.say_marked(b"  | ", came)
    }

    fn say_asked(
        &mut self,
        part: &[u8],
        wanted: &Option<Vec<u8>>,
        came: &[u8],
    ) -> Result<(), Want> {
        match wanted {
            Some(wanted) => self.say_part(part, wanted, came),
            None => Ok(()),
        }
    }

    /// Tells of a row that isn't as it should be.
    pub fn say_row(&mut self, row: &Row, came: &Came) -> Result<(), Want> {
        if row.must_differ {
            self.say(b"must differ and doesn't: ")?;
            self.say(row.name.as_bytes())?;
            return self.say(b"\n");
        }
        self.say(b"differs: ")?;
        self.say(row.name.as_bytes())?;
        self.say(b"\n")?;
        let wanted = row.wanted.status;
        let status = format!(in self.alloc; "{wanted}")?;
        let got = came.status;
        let other = format!(in self.alloc; "{got}")?;
        self.say_part(b"status", status.as_bytes(), other.as_bytes())?;
        self.say_part(b"output", &row.wanted.output, &came.output)?;
        self.say_asked(b"journal", &row.wanted.journal, &came.journal)?;
        self.say_asked(b"runs", &row.wanted.runs, &came.runs)?;
        self.say_asked(b"passes", &row.wanted.passes, &came.passes)
    }

    /// Tells why a table can't be read, and at which line.
    pub fn say_fault(&mut self, line: u64, fault: &str) -> Result<(), Want> {
        let said = format!(in self.alloc; "line {line}: {fault}.\n")?;
        self.say(said.as_bytes())
    }

    /// Tells the counts.
    pub fn say_counts(&mut self) -> Result<(), Want> {
        let as_said = self.as_said;
        let differing = self.differing;
        let bad = self.bad;
        let said = format!(in self.alloc;
            "{as_said} rows are as they say.\n{differing} rows that must differ do.\n"
        )?;
        self.say(said.as_bytes())?;
        if bad > 0 {
            let said = format!(in self.alloc; "{bad} rows are not as they should be.\n")?;
            self.say(said.as_bytes())?;
        }
        Ok(())
    }
}

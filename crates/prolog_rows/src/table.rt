// What a line of a table is.
use crate::fault::Fault;

/// How bytes are written.
#[derive(Clone, Copy)]
pub enum Spelling {
    /// As they stand, with a newline behind them.
    Line,
    /// A piece with escapes.
    Piece,
    /// A count, and a piece that stands so many times.
    Times,
}

/// A part of a row.
#[derive(Clone, Copy)]
pub enum RowPart<'a> {
    Text(Spelling, &'a str),
    Output(Spelling, &'a str),
    /// A word begins with this piece; with Line, the word is what stands there, without a newline.
    Word(Spelling, &'a str),
    /// More of the last word.
    MoreWord(Spelling, &'a str),
    Status(&'a str),
    Sizes(&'a str),
    Step(&'a str),
    JournalLine(&'a str),
    NoJournal,
    RunLine(&'a str),
    NoRun,
    Passes(&'a str),
}

/// What a line is.
pub enum Part<'a> {
    /// Blank, or a comment.
    Nothing,
    /// A row of this name begins; the mark says whether it must differ from what it says.
    Begin(&'a str, bool),
    /// It says a part of the row.
    Of(RowPart<'a>),
}

/// How the bytes behind the line's first byte are written, and which these are.
fn spelled(rest: &str) -> Result<(Spelling, &str), Fault> {
    if rest.is_empty() {
        return Ok((Spelling::Line, rest));
    }
    if let Some(line) = rest.strip_prefix(" ") {
        return Ok((Spelling::Line, line));
    }
    if let Some(piece) = rest.strip_prefix("|") {
        return Ok((Spelling::Piece, piece));
    }
    match rest.strip_prefix("*") {
        Some(counted) => Ok((Spelling::Times, counted)),
        None => Err(Fault::NoSuchLine),
    }
}

/// The part that a line with a word of the command says.
fn word_part(rest: &str) -> Result<RowPart<'_>, Fault> {
    if let Some(piece) = rest.strip_prefix("+") {
        return Ok(RowPart::MoreWord(Spelling::Piece, piece));
    }
    if let Some(counted) = rest.strip_prefix("*") {
        return Ok(RowPart::MoreWord(Spelling::Times, counted));
    }
    let (spelling, bytes) = spelled(rest)?;
    Ok(RowPart::Word(spelling, bytes))
}

/// The part that a line with a mark at its front says; none where it has no such mark.
fn marked_part(line: &str) -> Result<Option<RowPart<'_>>, Fault> {
    if let Some(rest) = line.strip_prefix("<") {
        let (spelling, bytes) = spelled(rest)?;
        return Ok(Some(RowPart::Text(spelling, bytes)));
    }
    if let Some(rest) = line.strip_prefix(">") {
        let (spelling, bytes) = spelled(rest)?;
        return Ok(Some(RowPart::Output(spelling, bytes)));
    }
    match line.strip_prefix("?") {
        Some(rest) => Ok(Some(word_part(rest)?)),
        None => Ok(None),
    }
}

/// The part that a line with a word or a mark and one blank at its front says.
fn said_part(line: &str) -> Result<RowPart<'_>, Fault> {
    let (first, rest) = line.split_once(' ').unwrap_or((line, ""));
    match first {
        "=" => Ok(RowPart::Status(rest)),
        "sizes" => Ok(RowPart::Sizes(rest)),
        "step" => Ok(RowPart::Step(rest)),
        "passes" => Ok(RowPart::Passes(rest)),
        "@" if rest.is_empty() => Ok(RowPart::NoJournal),
        "@" => Ok(RowPart::JournalLine(rest)),
        "%" if rest.is_empty() => Ok(RowPart::NoRun),
        "%" => Ok(RowPart::RunLine(rest)),
        _ => Err(Fault::NoSuchLine),
    }
}

/// What a line is, by how it begins.
pub fn part_of(line: &str) -> Result<Part<'_>, Fault> {
    if line.is_empty() || line.starts_with("#") {
        return Ok(Part::Nothing);
    }
    if let Some(name) = line.strip_prefix("== ") {
        return Ok(Part::Begin(name, false));
    }
    if let Some(name) = line.strip_prefix("!= ") {
        return Ok(Part::Begin(name, true));
    }
    match marked_part(line)? {
        Some(part) => Ok(Part::Of(part)),
        None => Ok(Part::Of(said_part(line)?)),
    }
}

// The words of the command line.
ghost use Rattle.std.specs.Prelude.{◌≡◌, ◌≤◌, None, Some, IfOk, IfNone, IfSome, map, string_bytes};
ghost use Rattle.prolog_terms.specs.Operators.{initial_operators};
ghost use Rattle.prolog_reader.specs.Texts.{read_reading, HasItsVariables};
ghost use Rattle.prolog_session.specs.Words as the_words;
ghost use Rattle.prolog_session.specs.Words.{IsReady};
ghost use Rattle.wam_machine.specs.Runs.{AreShown};

use prolog_lexer::Lexer;
use prolog_reader::{Read, ReadTerm, read_term};
use prolog_terms::{Ops, Want};
use std::alloc::Global;
use wam_machine::Goal;

/// What the words ask for.
#[derive(Debug, Drop)]
pub struct Command {
    /// The most steps of a run.
    pub steps: u64,
    /// The goal, if there is one.
    pub goal: Option<Goal>,
}

/// The most steps of a run, unless the words give a number.
pub const STEP_BUDGET: u64 = 10_000_000;

/// The greatest number of steps that the words may give.
const MAX_STEPS: u64 = 100_000_000_000;

fn is_digit(byte: u8) -> bool
    ensures { result ≡ the_words.is_digit byte }
{
    byte >= b'0' && byte <= b'9'
}

/// The number of steps that a word is, if it is one.
#[tactic(auto, unfolding(crate::specs::Words::steps_of))]
fn steps(word: &[u8]) -> Option<u64>
    ensures number { result ≡ the_words.steps_of word.now }
    ensures bounds { IfSome result (λ steps. (1 ≤ steps) × (steps ≤ the_words.max_steps)) }
{
    let mut value = 0u64;
    for byte in word {
        if value > MAX_STEPS {
            return None;
        }
        if !is_digit(*byte) {
            return None;
        }
        value = value * 10 + u64::from(*byte - b'0');
    }
    if value < 1 {
        return None;
    }
    if value > MAX_STEPS {
        return None;
    }
    Some(value)
}

/// The one read-term of a text, if it has one and nothing else.
#[tactic(auto, unfolding(crate::specs::Words::term_of))]
fn only_term(alloc: Global, ops: &Ops, text: &[u8]) -> Result<Option<ReadTerm>, Want>
    requires { ops.now ≡ initial_operators }
    ensures none { IfOk result (λ read. IfNone read (the_words.term_of text.now ≡ None)) }
    ensures some { IfOk result (λ read. IfSome read (λ r. the_words.term_of text.now ≡ Some (read_reading r))) }
    ensures variables { IfOk result (λ read. IfSome read (λ r. HasItsVariables (read_reading r))) }
{
    let mut lexer = Lexer::new(text);
    let read = match read_term(alloc, &mut lexer, ops)? {
        Read::Term(read) => read,
        Read::End => return Ok(None),
        Read::Refused { .. } => return Ok(None),
    };
    match read_term(alloc, &mut lexer, ops)? {
        Read::End => Ok(Some(read)),
        Read::Term(_) => Ok(None),
        Read::Refused { .. } => Ok(None),
    }
}

/// The goal that a read-term is.
fn goal_of_term(read: ReadTerm) -> Goal
    requires { HasItsVariables (read_reading read) }
    ensures goal { the_words.goal_in (Some (read_reading read)) ≡ Some result }
    ensures shown { AreShown result }
{
    Goal {
        term: read.term,
        shown: read.shown,
    }
}

/// The goal of a word.
#[tactic(auto, unfolding(crate::specs::Words::goal_of))]
fn goal(alloc: Global, ops: &Ops, word: &str) -> Result<Option<Goal>, Want>
    requires { ops.now ≡ initial_operators }
    ensures goal { IfOk result (λ goal. goal ≡ the_words.goal_of word.now) }
    ensures shown { IfOk result (λ goal. IfSome goal AreShown) }
{
    if let Some(read) = only_term(alloc, ops, word.as_bytes())? {
        return Ok(Some(goal_of_term(read)));
    }
    let mut text = Vec::from_slice(alloc, word.as_bytes())?;
    text.extend_from_slice(b"\n.")?;
    match only_term(alloc, ops, &text)? {
        Some(read) => Ok(Some(goal_of_term(read))),
        None => Ok(None),
    }
}

/// The command of so many steps and these words, of which there is at most one, the goal's.
fn within(alloc: Global, ops: &Ops, steps: u64, words: &[String]) -> Result<Option<Command>, Want>
    requires ops { ops.now ≡ initial_operators }
    requires steps { (1 ≤ steps) × (steps ≤ the_words.max_steps) }
    ensures command { IfOk result (λ command. command ≡ the_words.within (Some steps) (map string_bytes words.now)) }
    ensures ready { IfOk result (λ command. IfSome command IsReady) }
{
    if words.is_empty() {
        return Ok(Some(Command { steps, goal: None }));
    }
    if words.len() > 1 {
        return Ok(None);
    }
    match goal(alloc, ops, words[0].as_str())? {
        Some(goal) => Ok(Some(Command {
            steps,
            goal: Some(goal),
        })),
        None => Ok(None),
    }
}

/// The command of the words behind `--steps`: a number, and those that are left.
fn behind_steps(alloc: Global, ops: &Ops, words: &[String]) -> Result<Option<Command>, Want>
    requires { ops.now ≡ initial_operators }
    ensures command { IfOk result (λ command. command ≡ the_words.behind_steps (map string_bytes words.now)) }
    ensures ready { IfOk result (λ command. IfSome command IsReady) }
{
    if words.is_empty() {
        return Ok(None);
    }
    match steps(words[0].as_bytes()) {
        Some(steps) => within(alloc, ops, steps, &words[1..]),
        None => Ok(None),
    }
}

fn begins_steps(words: &[String]) -> bool
    ensures { result ≡ the_words.begins_steps (map string_bytes words.now) }
{
    match words.first() {
        Some(word) => word.as_bytes() == b"--steps".as_slice(),
        None => false,
    }
}

/// The command of these words: `--steps` and a number, or neither, and then at most one goal; or `None` where the words are
/// bad.
#[tactic(auto, unfolding(crate::specs::Words::command_of))]
pub fn read_command(alloc: Global, ops: &Ops, words: &[String]) -> Result<Option<Command>, Want>
    requires { ops.now ≡ initial_operators }
    ensures command { IfOk result (λ command. command ≡ the_words.command_of (map string_bytes words.now)) }
    ensures ready { IfOk result (λ command. IfSome command IsReady) }
{
    if begins_steps(words) {
        return behind_steps(alloc, ops, &words[1..]);
    }
    within(alloc, ops, STEP_BUDGET, words)
}

// What the program writes.
ghost use Rattle.std.specs.Prelude.{◌≡◌, ◌≤◌, ◌++◌, List, filter, OnOk, IfOk, length};
ghost use Rattle.std.specs.List.{list_any};
ghost use Rattle.prolog_terms.specs.Tree.{Tree, integer, HasArities};
ghost use Rattle.prolog_terms.specs.Flat.{nodes as nodes_of};
ghost use Rattle.prolog_writer.specs.Shapes.{is_cell};
ghost use Rattle.prolog_writer.specs.Pieces.{written};
ghost use Rattle.prolog_writer.specs.declared.style.Style.TheVariants.{Quoted};
ghost use Rattle.prolog_session.specs.Errors as errors;
ghost use Rattle.prolog_session.specs.Cells.{at_cell};
ghost use Rattle.prolog_session.specs.Output.{elements, value_text, further_text, values_text, is_open, completed, event_after, events_after, written_after, closes, is_closed, end_text, is_of_load, is_of_goal, is_answer, has_answered, told_of_load, load_run_after, load_runs_after, load_text, run_after, runs_after, output_of};

use crate::putting::{put, put_number};
use crate::refusal::{Refusal, put_refusal};
use prolog_terms::{Bytes, Name, Node, Ops, Shown, Term, Want, Whole};
use prolog_writer::{Style, write_front};
use std::alloc::Global;
use wam_machine::{Event, Run, RunEnd};

/// The greatest priority of a value that stands without a parenthesis: less than that of `=`.
const VALUE_PRIORITY: u16 = 699;

/// The greatest priority that a term has.
const BALL_PRIORITY: u16 = 1200;

// A variable and its value, the term at the front of these nodes; answers how many nodes that has.
fn put_value(
    text: &mut Vec<u8>,
    alloc: Global,
    ops: &Ops,
    variable: &Shown,
    nodes: &[Node],
) -> Result<usize, Want>
    ensures text { (t : Tree) → (rest : List Node) → HasArities t → nodes.now ≡ nodes_of t ++ rest → OnOk result (text.new.items ≡ text.old.items ++ value_text ops.now variable.now t) }
    ensures count { (t : Tree) → (rest : List Node) → HasArities t → nodes.now ≡ nodes_of t ++ rest → IfOk result (λ n. n ≡ length (nodes_of t)) }
    ensures within { IfOk result (λ n. n ≤ length nodes.now) }
{
    text.extend_from_slice(variable.name.bytes())?;
    put(text, " = ")?;
    let count = write_front(alloc, text, nodes, ops, Style::Quoted, VALUE_PRIORITY)?;
    Ok(count)
}

fn is_cell(name: &Name, arity: u32) -> bool
    ensures { result ≡ is_cell name.now arity }
{
    arity == 2 && name.bytes() == b".".as_slice()
}

fn at_cell(nodes: &[Node]) -> bool
    ensures { result ≡ at_cell nodes.now }
{
    match nodes.first() {
        Some(Node::Functor(name, arity)) => is_cell(name, *arity),
        _ => false,
    }
}

// Further variables and their values, which are the elements of the list with these nodes.
fn put_further(
    text: &mut Vec<u8>,
    alloc: Global,
    ops: &Ops,
    shown: &[Shown],
    nodes: &[Node],
) -> Result<(), Want>
    ensures { (t : Tree) → HasArities t → nodes.now ≡ nodes_of t → OnOk result (text.new.items ≡ text.old.items ++ further_text ops.now shown.now (elements t)) }
{
    let mut at = 0;
    for variable in shown {
        if !at_cell(&nodes[at..]) {
            return Ok(());
        }
        put(text, ", ")?;
        at += 1;
        at += put_value(text, alloc, ops, variable, &nodes[at..])?;
    }
    Ok(())
}

// The shown variables and their values, of which the term is the list.
fn put_values(
    text: &mut Vec<u8>,
    alloc: Global,
    ops: &Ops,
    shown: &[Shown],
    values: &Term,
) -> Result<(), Want>
    ensures { OnOk result (text.new.items ≡ text.old.items ++ values_text ops.now shown.now (elements values.now)) }
{
    let (first, further) = match shown.split_first() {
        Some(split) => split,
        None => return put(text, "true"),
    };
    let nodes = values.nodes();
    if !at_cell(nodes) {
        return Ok(());
    }
    let count = put_value(text, alloc, ops, first, &nodes[1..])?;
    put_further(text, alloc, ops, further, &nodes[1..][count..])?;
    Ok(())
}

// Whether something is written whose last byte is not that of the end of a line.
fn is_open(text: &[u8]) -> bool
    ensures { result ≡ is_open text.now }
{
    match text.split_last() {
        None => false,
        Some((byte, _)) => *byte != b'\n',
    }
}

// Completes the last line.
fn complete(text: &mut Vec<u8>) -> Result<(), Want>
    ensures { OnOk result (text.new.items ≡ completed text.old.items) }
{
    if is_open(text) {
        return put(text, "\n");
    }
    Ok(())
}

fn put_bytes(text: &mut Vec<u8>, bytes: &Bytes) -> Result<(), Want>
    ensures { OnOk result (text.new.items ≡ text.old.items ++ bytes.now) }
{
    text.extend_from_slice(bytes.bytes())?;
    Ok(())
}

#[tactic(auto, unfolding(crate::specs::Output::event_after))]
fn put_event(
    text: &mut Vec<u8>,
    alloc: Global,
    ops: &Ops,
    shown: &[Shown],
    event: &Event,
) -> Result<(), Want>
    ensures { OnOk result (text.new.items ≡ event_after ops.now shown.now text.old.items event.now) }
{
    match event {
        Event::Answer { values, left } => {
            complete(text)?;
            put_values(text, alloc, ops, shown, values)?;
            put(text, if *left { " ;\n" } else { ".\n" })
        }
        Event::Wrote(bytes) => put_bytes(text, bytes),
    }
}

#[tactic(auto, unfolding(crate::specs::Output::events_after))]
fn put_events(
    text: &mut Vec<u8>,
    alloc: Global,
    ops: &Ops,
    shown: &[Shown],
    events: &[Event],
) -> Result<(), Want>
    ensures { OnOk result (text.new.items ≡ events_after ops.now shown.now text.old.items events.now) }
{
    for event in events {
        put_event(text, alloc, ops, shown, event)?;
    }
    Ok(())
}

fn closes(event: &Event) -> bool
    ensures { result ≡ closes event.now }
{
    match event {
        Event::Answer { values: _, left } => !*left,
        Event::Wrote(_) => false,
    }
}

fn is_closed(events: &[Event]) -> bool
    ensures { result ≡ is_closed events.now }
{
    match events.split_last() {
        None => false,
        Some((event, _)) => closes(event),
    }
}

fn put_ball(text: &mut Vec<u8>, alloc: Global, ops: &Ops, ball: &Term) -> Result<(), Want>
    ensures { OnOk result (text.new.items ≡ text.old.items ++ written ops.now Quoted 1200 ball.now) }
{
    write_front(alloc, text, ball.nodes(), ops, Style::Quoted, BALL_PRIORITY)?;
    Ok(())
}

fn put_code(text: &mut Vec<u8>, alloc: Global, ops: &Ops, code: &Whole) -> Result<(), Want>
    ensures { OnOk result (text.new.items ≡ text.old.items ++ written ops.now Quoted 1200 (integer code.now)) }
{
    let mut nodes = Vec::new(alloc);
    nodes.push(Node::Int(*code))?;
    write_front(alloc, text, &nodes, ops, Style::Quoted, BALL_PRIORITY)?;
    Ok(())
}

fn put_end(
    text: &mut Vec<u8>,
    alloc: Global,
    ops: &Ops,
    events: &[Event],
    end: &RunEnd,
) -> Result<(), Want>
    ensures { OnOk result (text.new.items ≡ text.old.items ++ end_text ops.now events.now end.now) }
{
    match end {
        RunEnd::Exhausted => {
            if is_closed(events) {
                return Ok(());
            }
            put(text, "false.\n")
        }
        RunEnd::Ball(ball) => {
            put(text, "error: ")?;
            put_ball(text, alloc, ops, ball)?;
            put(text, ".\n")
        }
        RunEnd::Spent(steps) => {
            put(text, "stopped after ")?;
            put_number(text, u128::from(*steps))?;
            put(text, " steps.\n")
        }
        RunEnd::Halted(code) => {
            put(text, "halted with ")?;
            put_code(text, alloc, ops, code)?;
            put(text, ".\n")
        }
        RunEnd::Want => Ok(()),
    }
}

#[tactic(auto, unfolding(crate::specs::Output::run_after))]
fn put_run(
    text: &mut Vec<u8>,
    alloc: Global,
    ops: &Ops,
    number: usize,
    run: &Run,
) -> Result<(), Want>
    ensures { OnOk result (text.new.items ≡ run_after ops.now text.old.items number run.now) }
{
    put(text, "% goal ")?;
    put_number(text, number as u128)?;
    put(text, "\n")?;
    let events = run.transcript.items();
    put_events(text, alloc, ops, run.shown.items(), events)?;
    complete(text)?;
    put_end(text, alloc, ops, events, &run.end)
}

fn is_of_load(run: &Run) -> bool
    ensures { result ≡ is_of_load run.now }
{
    run.engine == 0
}

fn is_answer(event: &Event) -> bool
    ensures { result ≡ is_answer event.now }
{
    match event {
        Event::Answer { .. } => true,
        Event::Wrote(_) => false,
    }
}

fn some_answer(events: &[Event]) -> bool
    ensures { result ≡ list_any is_answer events.now }
{
    events.iter().any(|event| is_answer(event))
}

// Whether a run with these events and this end had an answer and no alternative is left.
fn has_answered(events: &[Event], end: &RunEnd) -> bool
    ensures { result ≡ has_answered events.now end.now }
{
    match end {
        RunEnd::Exhausted => some_answer(events),
        RunEnd::Ball(_) | RunEnd::Spent(_) | RunEnd::Halted(_) | RunEnd::Want => false,
    }
}

// Puts what these events wrote.
fn put_written(text: &mut Vec<u8>, events: &[Event]) -> Result<(), Want>
    ensures { OnOk result (text.new.items ≡ written_after text.old.items events.now) }
{
    for event in events {
        if let Event::Wrote(bytes) = event {
            put_bytes(text, bytes)?;
        }
    }
    Ok(())
}

// Puts what is told of a run of the load.
#[tactic(auto, unfolding(crate::specs::Output::told_of_load))]
fn put_told(text: &mut Vec<u8>, alloc: Global, ops: &Ops, run: &Run) -> Result<(), Want>
    ensures { OnOk result (text.new.items ≡ text.old.items ++ told_of_load ops.now run.now) }
{
    if has_answered(run.transcript.items(), &run.end) {
        return Ok(());
    }
    put(text, "% line ")?;
    put_number(text, run.line.into())?;
    put(text, ": ")?;
    put_end(text, alloc, ops, run.transcript.items(), &run.end)
}

#[tactic(auto, unfolding(crate::specs::Output::load_run_after))]
fn put_load_run(text: &mut Vec<u8>, alloc: Global, ops: &Ops, run: &Run) -> Result<(), Want>
    ensures { OnOk result (text.new.items ≡ load_run_after ops.now text.old.items run.now) }
{
    put_written(text, run.transcript.items())?;
    complete(text)?;
    put_told(text, alloc, ops, run)
}

// Puts the text of the runs of the load among these.
#[tactic(auto, unfolding(crate::specs::Output::load_runs_after))]
fn put_load(text: &mut Vec<u8>, alloc: Global, ops: &Ops, runs: &[Run]) -> Result<(), Want>
    ensures { OnOk result (text.new.items ≡ load_runs_after ops.now text.old.items (filter is_of_load runs.now)) }
{
    for run in runs {
        if is_of_load(run) {
            put_load_run(text, alloc, ops, run)?;
        }
    }
    Ok(())
}

// Puts the texts of the runs of goals among these.
#[tactic(auto, unfolding(crate::specs::Output::runs_after))]
fn put_goals(text: &mut Vec<u8>, alloc: Global, ops: &Ops, runs: &[Run]) -> Result<(), Want>
    ensures { OnOk result (text.new.items ≡ runs_after ops.now text.old.items 1 (filter is_of_goal runs.now)) }
{
    let mut goals = 0;
    for run in runs {
        if !is_of_load(run) {
            goals += 1;
            put_run(text, alloc, ops, goals, run)?;
        }
    }
    Ok(())
}

/// The text of the load and of a refusal behind it, under an operator table.
#[tactic(auto, unfolding(crate::specs::Output::load_text))]
pub fn refused_text(
    alloc: Global,
    ops: &Ops,
    runs: &[Run],
    refusal: Refusal,
) -> Result<Vec<u8>, Want>
    ensures { IfOk result (λ text. text.items ≡ load_text ops.now runs.now ++ errors.refusal_text refusal) }
{
    let mut text = Vec::new(alloc);
    put_load(&mut text, alloc, ops, runs)?;
    put_refusal(&mut text, refusal)?;
    Ok(text)
}

/// The text of all runs under an operator table. For each of the load it has what it wrote, and then its line and its end, unless
/// it had an answer and is exhausted; and then for each goal a heading with its number, counted from 1, what it wrote and a line
/// for each answer with the values of the shown variables, in their order, and its end. A line whose end wasn't written is
/// completed before an answer and behind the last event of a run.
#[tactic(auto, unfolding(crate::specs::Output::output_of, crate::specs::Output::load_text))]
pub fn output(alloc: Global, ops: &Ops, runs: &[Run]) -> Result<Vec<u8>, Want>
    ensures { IfOk result (λ text. text.items ≡ output_of ops.now runs.now) }
{
    let mut text = Vec::new(alloc);
    put_load(&mut text, alloc, ops, runs)?;
    put_goals(&mut text, alloc, ops, runs)?;
    Ok(text)
}

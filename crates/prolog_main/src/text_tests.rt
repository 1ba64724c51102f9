// The text of runs that no table of rows can show: several goals, runs that end for want of memory, and deep values.

use journal_base::Tally;
use prolog_session::output;
use prolog_terms::{Bytes, Name, Node, Ops, Shown, ShownVariables, Term, Want, Whole};
use std::alloc::Global;
use std::process::Abort;
use wam_machine::{Event, Events, Fronts, Run, RunEnd};

/// A node, in a table.
#[derive(Clone, Copy)]
enum Piece {
    Var(u64),
    Int(Whole),
    Atom(&'static str),
    Functor(&'static str, u32),
}

/// How a run ends, in a table.
#[derive(Clone, Copy)]
enum End {
    Exhausted,
    Ball(&'static [Piece]),
    Spent(u64),
    Halted(Whole),
    Want,
}

/// What happens in a run, in a table.
#[derive(Clone, Copy)]
enum Happening {
    /// The list of the shown variables' values, and whether an alternative is left.
    Answer(&'static [Piece], bool),
    Wrote(&'static str),
}

/// A run, in a table: its line in the load, or 0 for a goal; the names of its shown variables; what happens; its end.
type RunRow = (u64, &'static [&'static str], &'static [Happening], End);

fn node_of(alloc: Global, piece: Piece) -> Result<Node, Want> {
    match piece {
        Piece::Var(number) => Ok(Node::Var(number)),
        Piece::Int(whole) => Ok(Node::Int(whole)),
        Piece::Atom(name) => Ok(Node::Atom(Name::of(alloc, name.as_bytes())?)),
        Piece::Functor(name, arity) => Ok(Node::Functor(Name::of(alloc, name.as_bytes())?, arity)),
    }
}

fn term_of(alloc: Global, pieces: &[Piece]) -> Result<Term, Want> {
    let mut nodes = Vec::new(alloc);
    for piece in pieces {
        nodes.push(node_of(alloc, *piece)?)?;
    }
    Term::of_nodes(nodes).map_err(|_| Want)
}

fn end_of(alloc: Global, end: End) -> Result<RunEnd, Want> {
    match end {
        End::Exhausted => Ok(RunEnd::Exhausted),
        End::Ball(pieces) => Ok(RunEnd::Ball(term_of(alloc, pieces)?)),
        End::Spent(steps) => Ok(RunEnd::Spent(steps)),
        End::Halted(code) => Ok(RunEnd::Halted(code)),
        End::Want => Ok(RunEnd::Want),
    }
}

fn shown_of(alloc: Global, names: &[&str]) -> Result<Vec<Shown>, Want> {
    let mut shown = Vec::new(alloc);
    for name in names {
        shown.push(Shown {
            name: Name::of(alloc, name.as_bytes())?,
            var: 0,
        })?;
    }
    Ok(shown)
}

fn event_of(alloc: Global, happening: Happening) -> Result<Event, Want> {
    match happening {
        Happening::Answer(pieces, left) => Ok(Event::Answer {
            values: term_of(alloc, pieces)?,
            left,
        }),
        Happening::Wrote(text) => Ok(Event::Wrote(Bytes::of(alloc, text.as_bytes())?)),
    }
}

fn events_of(alloc: Global, happenings: &[Happening]) -> Result<Vec<Event>, Want> {
    let mut events = Vec::new(alloc);
    for happening in happenings {
        events.push(event_of(alloc, *happening)?)?;
    }
    Ok(events)
}

fn run_of(alloc: Global, row: &RunRow) -> Result<Run, Want> {
    let shown = shown_of(alloc, row.1)?;
    let events = events_of(alloc, row.2)?;
    let end = end_of(alloc, row.3)?;
    Ok(Run {
        engine: if row.0 == 0 { 1 } else { 0 },
        line: row.0,
        shown: ShownVariables::from_vec(shown),
        transcript: Events::of(events),
        fronts: Fronts::of(Vec::new(alloc)),
        tally: Tally::new(),
        steps: 0,
        end,
    })
}

fn runs_of(alloc: Global, rows: &[RunRow]) -> Result<Vec<Run>, Want> {
    let mut runs = Vec::new(alloc);
    for row in rows {
        runs.push(run_of(alloc, row)?)?;
    }
    Ok(runs)
}

/// The text of these runs under the operators that there are from the start.
fn text_of(alloc: Global, runs: &[Run]) -> Result<Vec<u8>, Want> {
    let ops = Ops::initial(alloc)?;
    output(alloc, &ops, runs)
}

/// Whether these runs have this text.
fn have_text(alloc: Global, rows: &[RunRow], text: &[u8]) -> Result<bool, Want> {
    let runs = runs_of(alloc, rows)?;
    let found = text_of(alloc, runs.as_slice())?;
    Ok(found.as_slice() == text)
}

const NO_VALUES: &[Piece] = &[Piece::Atom("[]")];

const CLOSED: Happening = Happening::Answer(NO_VALUES, false);

const OPENED: Happening = Happening::Answer(NO_VALUES, true);

const LAST: &[Happening] = &[CLOSED];

const OPEN: &[Happening] = &[OPENED];

const TWO: &[Happening] = &[OPENED, CLOSED];

const TWO_OPEN: &[Happening] = &[OPENED, OPENED];

const OOPS: End = End::Ball(&[Piece::Functor("oops", 1), Piece::Var(1)]);

const VALUES: &[Happening] = &[
    Happening::Answer(
        &[
            Piece::Functor(".", 2),
            Piece::Functor("f", 1),
            Piece::Var(0),
            Piece::Functor(".", 2),
            Piece::Functor(".", 2),
            Piece::Var(0),
            Piece::Var(1),
            Piece::Atom("[]"),
        ],
        true,
    ),
    Happening::Answer(
        &[
            Piece::Functor(".", 2),
            Piece::Atom("a b"),
            Piece::Functor(".", 2),
            Piece::Int(-7),
            Piece::Atom("[]"),
        ],
        false,
    ),
];

const NOTHING: Happening = Happening::Wrote("");

const BEGUN: Happening = Happening::Wrote("a b");

const LINE: Happening = Happening::Wrote("c\n");

/// Runs, and their text.
type TextRow = (&'static [RunRow], &'static str);

const TEXTS: [TextRow; 8] = [
    (&[], ""),
    (
        &[
            (0, &[], &[], End::Exhausted),
            (0, &[], TWO, End::Exhausted),
            (0, &[], TWO_OPEN, End::Exhausted),
            (0, &[], OPEN, OOPS),
            (0, &[], &[], End::Spent(7)),
            (0, &[], OPEN, End::Halted(-2)),
            (0, &[], LAST, End::Want),
        ],
        "% goal 1\nfalse.\n\
            % goal 2\ntrue ;\ntrue.\n\
            % goal 3\ntrue ;\ntrue ;\nfalse.\n\
            % goal 4\ntrue ;\nerror: oops(_2).\n\
            % goal 5\nstopped after 7 steps.\n\
            % goal 6\ntrue ;\nhalted with -2.\n\
            % goal 7\ntrue.\n",
    ),
    (
        &[(0, &["X", "Tail"], VALUES, End::Exhausted)],
        "% goal 1\nX = f(_1), Tail = [_1|_2] ;\nX = 'a b', Tail = -7.\n",
    ),
    // no success of the load
    (
        &[
            (1, &[], LAST, End::Exhausted),
            (2, &[], &[], End::Exhausted),
            (3, &[], OPEN, End::Exhausted),
            (4, &[], OPEN, End::Spent(7)),
            (5, &[], &[], End::Spent(8)),
        ],
        "% line 2: false.\n\
            % line 4: stopped after 7 steps.\n\
            % line 5: stopped after 8 steps.\n",
    ),
    // the load comes first
    (
        &[
            (1, &[], &[], End::Ball(&[Piece::Int(-5)])),
            (0, &[], &[], End::Exhausted),
            (300, &[], &[], OOPS),
            (0, &[], LAST, End::Exhausted),
        ],
        "% line 1: error: -5.\n\
            % line 300: error: oops(_2).\n\
            % goal 1\nfalse.\n\
            % goal 2\ntrue.\n",
    ),
    // what a goal wrote, before an answer
    (
        &[
            (0, &[], &[LINE, CLOSED], End::Exhausted),
            (0, &[], &[BEGUN, CLOSED], End::Exhausted),
            (0, &[], &[NOTHING, CLOSED], End::Exhausted),
            (
                0,
                &[],
                &[BEGUN, NOTHING, OPENED, LINE, BEGUN, LINE, BEGUN, CLOSED],
                End::Exhausted,
            ),
        ],
        "% goal 1\nc\ntrue.\n\
            % goal 2\na b\ntrue.\n\
            % goal 3\ntrue.\n\
            % goal 4\na b\ntrue ;\nc\na bc\na b\ntrue.\n",
    ),
    // before an end
    (
        &[
            (0, &[], &[BEGUN], End::Exhausted),
            (0, &[], &[LINE], End::Exhausted),
            (0, &[], &[NOTHING], End::Exhausted),
            (0, &[], &[OPENED, BEGUN], End::Exhausted),
            (0, &[], &[OPENED, BEGUN], OOPS),
            (0, &[], &[LINE], End::Spent(7)),
            (0, &[], &[BEGUN], End::Halted(-2)),
            (0, &[], &[BEGUN], End::Want),
        ],
        "% goal 1\na b\nfalse.\n\
            % goal 2\nc\nfalse.\n\
            % goal 3\nfalse.\n\
            % goal 4\ntrue ;\na b\nfalse.\n\
            % goal 5\ntrue ;\na b\nerror: oops(_2).\n\
            % goal 6\nc\nstopped after 7 steps.\n\
            % goal 7\na b\nhalted with -2.\n\
            % goal 8\na b\n",
    ),
    // what goals of the load wrote
    (
        &[
            (1, &[], &[NOTHING], End::Exhausted),
            (2, &[], &[NOTHING, CLOSED], End::Exhausted),
            (3, &[], &[BEGUN, CLOSED], End::Exhausted),
            (4, &[], &[LINE, OPENED, BEGUN], End::Exhausted),
            (5, &[], &[BEGUN], End::Exhausted),
            (6, &[], &[OPENED, LINE], OOPS),
            (0, &[], &[BEGUN, CLOSED], End::Exhausted),
            (7, &[], &[BEGUN, CLOSED], End::Exhausted),
        ],
        "% line 1: false.\n\
            a b\n\
            c\na b\n\
            a b\n% line 5: false.\n\
            c\n% line 6: error: oops(_2).\n\
            a b\n\
            % goal 1\na b\ntrue.\n",
    ),
];

fn expect_texts<R: Abort>(rt: &R, alloc: Global) {
    for row in &TEXTS {
        assert_eq!(rt;
            have_text(alloc, row.0, row.1.as_bytes()),
            Ok(true),
            "{}",
            row.1
        );
    }
}

#[test]
fn writes_runs(rt: HostRuntime) {
    expect_texts(&rt, rt.alloc());
}

const DEPTH: u32 = 100_000;

/// The list of a value that is so many compounds deep.
fn deep_values(alloc: Global) -> Result<Term, Want> {
    let mut nodes = Vec::new(alloc);
    nodes.push(node_of(alloc, Piece::Functor(".", 2))?)?;
    for _ in 0..DEPTH {
        nodes.push(node_of(alloc, Piece::Functor("f", 1))?)?;
    }
    nodes.push(Node::Var(0))?;
    nodes.push(node_of(alloc, Piece::Atom("[]"))?)?;
    Term::of_nodes(nodes).map_err(|_| Want)
}

fn deep_text(alloc: Global) -> Result<Vec<u8>, Want> {
    let mut text = Vec::from_slice(alloc, b"% goal 1\nX = ".as_slice())?;
    for _ in 0..DEPTH {
        text.extend_from_slice(b"f(")?;
    }
    text.extend_from_slice(b"_1")?;
    for _ in 0..DEPTH {
        text.push(b')')?;
    }
    text.extend_from_slice(b".\n")?;
    Ok(text)
}

fn deep_runs(alloc: Global) -> Result<Vec<Run>, Want> {
    let mut events = Vec::new(alloc);
    events.push(Event::Answer {
        values: deep_values(alloc)?,
        left: false,
    })?;
    let mut run = run_of(alloc, &(0, &["X"], &[], End::Exhausted))?;
    run.transcript = Events::of(events);
    let mut runs = Vec::new(alloc);
    runs.push(run)?;
    Ok(runs)
}

fn writes_deep(alloc: Global) -> Result<bool, Want> {
    let runs = deep_runs(alloc)?;
    let text = deep_text(alloc)?;
    let found = text_of(alloc, runs.as_slice())?;
    Ok(found.as_slice() == text.as_slice())
}

#[test]
fn writes_deep_values(rt: HostRuntime) {
    assert_eq!(rt; writes_deep(rt.alloc()), Ok(true));
}

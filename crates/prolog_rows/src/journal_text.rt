// The lines of a journal.
use crate::fault::Fault;
use prolog_session::Want;
use prolog_terms::{
    Bytes, Clause, End, Entries, Entry, Indicator, Kind, Name, Node, Ops, Term, What, Whole,
};
use prolog_writer::{Style, write};
use std::alloc::Global;

/// The nodes of `Name/Arity`.
fn indicator_nodes(alloc: Global, indicator: &Indicator) -> Result<Vec<Node>, Want> {
    let mut nodes = Vec::new(alloc);
    nodes.push(Node::Functor(Name::of(alloc, b"/")?, 2))?;
    nodes.push(Node::Atom(indicator.name.clone()?))?;
    nodes.push(Node::Int(Whole::from(i64::from(indicator.arity))))?;
    Ok(nodes)
}

/// Whether these nodes are the atom `true`.
fn is_true(nodes: &[Node]) -> bool {
    match nodes {
        [Node::Atom(name)] => name.bytes() == b"true".as_slice(),
        _ => false,
    }
}

/// The nodes of a clause: its head where the body is `true`, else head and body under `:-`.
fn clause_nodes(alloc: Global, clause: &Clause) -> Result<Vec<Node>, Want> {
    let mut nodes = Vec::new(alloc);
    let is_fact = is_true(clause.body.nodes());
    if !is_fact {
        nodes.push(Node::Functor(Name::of(alloc, b":-")?, 2))?;
    }
    for node in clause.head.nodes() {
        nodes.push(node.clone()?)?;
    }
    if !is_fact {
        for node in clause.body.nodes() {
            nodes.push(node.clone()?)?;
        }
    }
    Ok(nodes)
}

/// The text of the term of which these are the nodes, with quotes; nothing where they are no term.
fn nodes_text(alloc: Global, nodes: Vec<Node>, ops: &Ops, max: u16) -> Result<Vec<u8>, Want> {
    match Term::of_nodes(nodes) {
        Ok(term) => write(alloc, &term, ops, Style::Quoted, max),
        Err(_) => Ok(Vec::new(alloc)),
    }
}

/// What comes before a declaration's indicator, a clause, or the number of what is erased.
fn verb(what: &What) -> &'static str {
    match what {
        What::Declare(_, _) => "declare",
        What::Add(End::Front, _, _) => "front",
        What::Add(End::Back, _, _) => "back",
        What::Erase(_) => "erase",
    }
}

/// Adds the line of an entry.
fn push_entry(alloc: Global, into: &mut Vec<u8>, entry: &Entry, ops: &Ops) -> Result<(), Want> {
    let by = entry.by;
    let verb = verb(&entry.what);
    into.extend_from_slice(format!(in alloc; "{by} {verb} ")?.as_bytes())?;
    match &entry.what {
        What::Declare(indicator, kind) => {
            let nodes = indicator_nodes(alloc, indicator)?;
            into.extend_from_slice(&nodes_text(alloc, nodes, ops, 699)?)?;
            match kind {
                Kind::Static => into.extend_from_slice(b" static")?,
                Kind::Dynamic => into.extend_from_slice(b" dynamic")?,
            }
        }
        What::Add(_, _, clause) => {
            let nodes = clause_nodes(alloc, clause)?;
            into.extend_from_slice(&nodes_text(alloc, nodes, ops, 1200)?)?;
        }
        What::Erase(name) => into.extend_from_slice(format!(in alloc; "{name}")?.as_bytes())?,
    }
    into.push(b'\n')?;
    Ok(())
}

/// A line for each entry: `E declare PI static`, `E declare PI dynamic`, `E front C`, `E back C` or `E erase K`, with its engine,
/// the indicator, the clause or the number of the entry that added what is erased.
pub fn journal_text(alloc: Global, journal: &Entries, ops: &Option<Ops>) -> Result<Vec<u8>, Want> {
    let mut text = Vec::new(alloc);
    if let Some(ops) = ops {
        for entry in journal.items() {
            push_entry(alloc, &mut text, entry, ops)?;
        }
    }
    Ok(text)
}

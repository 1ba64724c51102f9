// A term's text behind another.

use prolog_terms::{Name, Node, Ops, Want, Whole};
use prolog_writer::{Style, write_front};
use std::alloc::Global;
use std::test::Fail;

// A node, in a table.
#[derive(Clone, Copy)]
enum Part {
    Var(u64),
    Int(Whole),
    Atom(&'static str),
    Functor(&'static str, u32),
}

fn node_of(alloc: Global, part: Part) -> Result<Node, Want> {
    Ok(match part {
        Part::Var(number) => Node::Var(number),
        Part::Int(whole) => Node::Int(whole),
        Part::Atom(name) => Node::Atom(Name::of(alloc, name.as_bytes())?),
        Part::Functor(name, arity) => Node::Functor(Name::of(alloc, name.as_bytes())?, arity),
    })
}

fn nodes_of(alloc: Global, parts: &[Part]) -> Result<Vec<Node>, Want> {
    let mut nodes = Vec::new(alloc);
    for part in parts {
        nodes.push(node_of(alloc, *part)?)?;
    }
    Ok(nodes)
}

// The text of the term at the front of these nodes behind another, and how many nodes it has.
fn fronted(alloc: Global, parts: &[Part], before: &str) -> Result<(Vec<u8>, usize), Want> {
    let ops = Ops::initial(alloc)?;
    let nodes = nodes_of(alloc, parts)?;
    let mut text = Vec::from_slice(alloc, before.as_bytes())?;
    let count = write_front(alloc, &mut text, &nodes, &ops, Style::Quoted, 699)?;
    Ok((text, count))
}

#[test]
fn writes_the_term_at_the_front(rt: HostRuntime) -> Result<(), Fail> {
    let alloc = rt.alloc();
    let parts = [
        Part::Functor("-", 2),
        Part::Int(1),
        Part::Int(-1),
        Part::Atom("b"),
        Part::Var(0),
    ];
    let (text, count) = fronted(alloc, &parts, "X = ")?;
    assert!(rt; text.as_slice() == b"X = 1- -1".as_slice());
    assert!(rt; count == 3);
    let (text, count) = fronted(alloc, &[Part::Atom("b"), Part::Var(0)], "a")?;
    assert!(rt; text.as_slice() == b"ab".as_slice());
    assert!(rt; count == 1);
    Ok(())
}

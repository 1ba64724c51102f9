// In which form a compound is written, and where a parenthesis stands round it.
ghost use Rattle.std.specs.Prelude.{◌≡◌};
ghost use Rattle.prolog_writer.specs.Shapes as spec;
ghost use Rattle.prolog_writer.specs.Frames as frames;
ghost use Rattle.prolog_writer.specs.Shapes.{shape_of, is_enclosed, is_atom_enclosed};

use crate::Style;
use prolog_terms::{Infix, Name, Node, Ops, Postfix, Prefix};

/// The form of a compound.
#[derive(Clone, Copy, Debug)]
pub enum Shape {
    /// A list cell.
    Cell,
    /// One argument in braces.
    Braced,
    /// A prefix operator and its operand.
    Prefixed(Prefix),
    /// An infix operator between its operands.
    Infixed(Infix),
    /// A postfix operator behind its operand.
    Postfixed(Postfix),
    /// A name and its arguments in brackets.
    Call,
}

/// Where a term stands.
#[derive(Clone, Copy, Debug)]
pub enum Place {
    /// Where it is no operand: its greatest priority.
    Within(u16),
    /// A right operand: its greatest priority.
    Operand(u16),
    /// A left operand: its greatest priority, and the operator's own.
    Left(u16, u16),
}

/// Whether a compound is a list cell.
pub fn is_cell(name: &Name, arity: u32) -> bool
    ensures { result ≡ spec.is_cell name.now arity }
{
    arity == 2 && name.bytes() == b".".as_slice()
}

fn is_braced(name: &Name, arity: u32) -> bool
    ensures { result ≡ spec.is_braced name.now arity }
{
    arity == 1 && name.bytes() == b"{}".as_slice()
}

/// Whether a list cell begins with this node.
pub fn begins_cell(node: &Node) -> bool
    ensures { result ≡ frames.begins_cell node.now }
{
    match node {
        Node::Functor(name, arity) => is_cell(name, *arity),
        _ => false,
    }
}

/// Whether the node is the list without elements.
pub fn ends_list(node: &Node) -> bool
    ensures { result ≡ frames.ends_list node.now }
{
    match node {
        Node::Atom(name) => name.bytes() == b"[]".as_slice(),
        _ => false,
    }
}

fn has_operators(style: Style) -> bool
    ensures { result ≡ spec.has_operators style }
{
    match style {
        Style::Plain | Style::Quoted => true,
        Style::Canonical => false,
    }
}

fn unary(before: Option<Prefix>, after: Option<Postfix>) -> Shape
    ensures { result ≡ spec.unary before after }
{
    match before {
        Some(prefix) => Shape::Prefixed(prefix),
        None => match after {
            Some(postfix) => Shape::Postfixed(postfix),
            None => Shape::Call,
        },
    }
}

fn binary(between: Option<Infix>) -> Shape
    ensures { result ≡ spec.binary between }
{
    match between {
        Some(infix) => Shape::Infixed(infix),
        None => Shape::Call,
    }
}

fn operator_shape(ops: &Ops, name: &Name, arity: u32) -> Shape
    ensures { result ≡ spec.operator_shape ops.now name.now arity }
{
    if arity == 1 {
        unary(ops.prefix(name), ops.postfix(name))
    } else if arity == 2 {
        binary(ops.infix(name))
    } else {
        Shape::Call
    }
}

/// The form of a compound.
#[tactic(auto, unfolding(crate::specs::Shapes::shape_of))]
pub fn shape_of(ops: &Ops, style: Style, name: &Name, arity: u32) -> Shape
    ensures { result ≡ shape_of ops.now style name.now arity }
{
    if is_cell(name, arity) {
        Shape::Cell
    } else if is_braced(name, arity) {
        Shape::Braced
    } else if has_operators(style) {
        operator_shape(ops, name, arity)
    } else {
        Shape::Call
    }
}

fn priority(shape: Shape) -> u16
    ensures { result ≡ spec.priority shape }
{
    match shape {
        Shape::Cell | Shape::Braced | Shape::Call => 0,
        Shape::Prefixed(prefix) => prefix.priority,
        Shape::Infixed(infix) => infix.priority,
        Shape::Postfixed(postfix) => postfix.priority,
    }
}

fn nests_left(shape: Shape) -> bool
    ensures { result ≡ spec.nests_left shape }
{
    match shape {
        Shape::Cell | Shape::Braced | Shape::Call => false,
        Shape::Prefixed(_) => false,
        Shape::Infixed(infix) => infix.left == infix.priority,
        Shape::Postfixed(postfix) => postfix.operand == postfix.priority,
    }
}

/// Whether a parenthesis stands round a compound.
#[tactic(auto, unfolding(crate::specs::Shapes::is_enclosed))]
pub fn is_enclosed(place: Place, shape: Shape) -> bool
    ensures { result ≡ is_enclosed place shape }
{
    let priority = priority(shape);
    match place {
        Place::Within(most) => priority > most,
        Place::Operand(most) => priority > most,
        Place::Left(most, own) => priority > most || priority == own && !nests_left(shape),
    }
}

fn is_operand(place: Place) -> bool
    ensures { result ≡ spec.is_operand place }
{
    match place {
        Place::Within(_) => false,
        Place::Operand(_) => true,
        Place::Left(_, _) => true,
    }
}

fn is_operator(ops: &Ops, name: &Name) -> bool
    ensures { result ≡ spec.is_operator ops.now name.now }
{
    ops.prefix(name).is_some() || ops.infix(name).is_some() || ops.postfix(name).is_some()
}

/// Whether a parenthesis stands round an atom.
#[tactic(auto, unfolding(crate::specs::Shapes::is_atom_enclosed))]
pub fn is_atom_enclosed(ops: &Ops, style: Style, place: Place, name: &Name) -> bool
    ensures { result ≡ is_atom_enclosed ops.now style place name.now }
{
    is_operand(place) && has_operators(style) && is_operator(ops, name)
}

// What a directive `:- op(P, T, N)` declares, or the error that it raises (docs/LANGUAGE.md, "Operators").
ghost use Rattle.std.specs.Prelude.{◌≡◌, ◌≤◌, [], ◌∷◌, IfOk, IfSome};
ghost use Rattle.prolog_terms.specs.Tree.{atom};
ghost use Rattle.prolog_terms.specs.Flat.{tree, HasPrefixOrder};
ghost use Rattle.prolog_clauses.specs.Declarations as spec;

use crate::culprit::{domain_error, type_error};
use crate::elements::{
    begins_with, cell, ends_in_nil, has_unbound_element, is_variable, split_tree,
};
use crate::op_names::OpNames;
use prolog_terms::{Fault, Name, Node, OpKind, Term, Want, Whole};
use std::alloc::Global;

/// Operators to be declared: a priority from 0 to 1200, a type, and names.
#[derive(Debug, Drop)]
pub struct Declaration {
    pub priority: u16,
    pub kind: OpKind,
    pub names: OpNames,
}

/// What a directive `:- op(P, T, N)` comes to (ISO/IEC 13211-1, 8.14.3).
#[derive(Debug, Drop)]
pub enum Declaring {
    /// It declares these, unless the table refuses one of the names.
    Declares(Declaration),
    /// It raises this error, whatever the table.
    Raises(Fault),
}

/// What a term comes to as a directive `:- op(P, T, N)`; nothing where it is none. N is a name or a list of names, and `[]`
/// the list of none. The errors come in this order: something is unbound (an argument, or an element of N, whatever N ends
/// with); P is no integer, or not from 0 to 1200; T is no atom, or no type; N is no list; an element is no atom. What the
/// table refuses is for `declare` to say.
pub fn declaring_of(alloc: Global, term: &Term) -> Result<Option<Declaring>, Want>
    ensures declaring { IfOk result (λ d. d ≡ spec.declaring_of term.now) }
    ensures priority { IfOk result (λ d. IfSome d spec.HasPriority) }
{
    let nodes = term.nodes();
    if !begins_with(nodes, b":-", 1) || !begins_with(&nodes[1..], b"op", 3) {
        return Ok(None);
    }
    let (priority, behind) = split_tree(&nodes[2..]);
    let (kind, names) = split_tree(behind);
    Ok(Some(of_arguments(alloc, priority, kind, names)?))
}

/// What is unbound comes first.
fn of_arguments(
    alloc: Global,
    priority: &[Node],
    kind: &[Node],
    names: &[Node],
) -> Result<Declaring, Want>
    requires priority { HasPrefixOrder priority.now }
    requires kind { HasPrefixOrder kind.now }
    requires names { HasPrefixOrder names.now }
    ensures { IfOk result (λ d. d ≡ spec.declaring (spec.arguments (tree priority.now) (tree kind.now) (tree names.now))) }
{
    if is_variable(priority)
        || is_variable(kind)
        || is_variable(names)
        || has_unbound_element(names)
    {
        return Ok(Declaring::Raises(Fault::Instantiation));
    }
    by_priority(alloc, priority, kind, names)
}

fn by_priority(
    alloc: Global,
    priority: &[Node],
    kind: &[Node],
    names: &[Node],
) -> Result<Declaring, Want>
    requires priority { HasPrefixOrder priority.now }
    requires kind { HasPrefixOrder kind.now }
    requires names { HasPrefixOrder names.now }
    ensures { IfOk result (λ d. d ≡ spec.by_priority (tree priority.now) (tree kind.now) (tree names.now)) }
{
    match &priority[0] {
        Node::Int(whole) => match priority_of(*whole) {
            Some(value) => by_kind(alloc, value, kind, names),
            None => Ok(Declaring::Raises(domain_error(alloc, b"operator_priority", priority)?)),
        },
        Node::Var(_) | Node::Atom(_) | Node::Functor(_, _) => Ok(Declaring::Raises(type_error(
            alloc, b"integer", priority,
        )?)),
    }
}

/// The priority that an integer is.
fn priority_of(whole: Whole) -> Option<u16>
    ensures { result ≡ spec.priority_of whole }
{
    if whole < 0 || whole > 1200 {
        None
    } else {
        Some(whole as u16)
    }
}

fn by_kind(alloc: Global, priority: u16, kind: &[Node], names: &[Node]) -> Result<Declaring, Want>
    requires kind { HasPrefixOrder kind.now }
    requires names { HasPrefixOrder names.now }
    ensures { IfOk result (λ d. d ≡ spec.by_kind priority (tree kind.now) (tree names.now)) }
{
    match &kind[0] {
        Node::Atom(text) => match kind_named(text.bytes()) {
            Some(value) => by_names(alloc, priority, value, names),
            None => Ok(Declaring::Raises(domain_error(alloc, b"operator_specifier", kind)?)),
        },
        Node::Var(_) | Node::Int(_) | Node::Functor(_, _) => Ok(Declaring::Raises(type_error(
            alloc, b"atom", kind,
        )?)),
    }
}

/// The type of operators that a text names.
fn kind_named(text: &[u8]) -> Option<OpKind>
    ensures { result ≡ spec.kind_named text.now }
{
    if text == b"xfx".as_slice() {
        Some(OpKind::Xfx)
    } else if text == b"xfy".as_slice() {
        Some(OpKind::Xfy)
    } else if text == b"yfx".as_slice() {
        Some(OpKind::Yfx)
    } else if text == b"fy".as_slice() {
        Some(OpKind::Fy)
    } else if text == b"fx".as_slice() {
        Some(OpKind::Fx)
    } else if text == b"xf".as_slice() {
        Some(OpKind::Xf)
    } else if text == b"yf".as_slice() {
        Some(OpKind::Yf)
    } else {
        None
    }
}

fn by_names(alloc: Global, priority: u16, kind: OpKind, names: &[Node]) -> Result<Declaring, Want>
    requires { HasPrefixOrder names.now }
    ensures { IfOk result (λ d. d ≡ spec.by_names priority kind (tree names.now)) }
{
    match &names[0] {
        Node::Atom(name) => by_atom(alloc, priority, kind, name),
        Node::Functor(_, _) => by_list(alloc, priority, kind, names),
        Node::Var(_) | Node::Int(_) => Ok(Declaring::Raises(type_error(alloc, b"list", names)?)),
    }
}

/// `[]` is the list without elements, and any other atom is a name.
fn by_atom(alloc: Global, priority: u16, kind: OpKind, name: &Name) -> Result<Declaring, Want>
    ensures { IfOk result (λ d. d ≡ spec.by_names priority kind (atom name.now)) }
{
    let mut names = Vec::new(alloc);
    if name.bytes() != b"[]".as_slice() {
        names.push(name.clone()?)?;
    }
    Ok(Declaring::Declares(Declaration {
        priority,
        kind,
        names: OpNames::from_vec(names),
    }))
}

fn by_list(alloc: Global, priority: u16, kind: OpKind, list: &[Node]) -> Result<Declaring, Want>
    requires { HasPrefixOrder list.now }
    ensures { IfOk result (λ d. d ≡ spec.by_list priority kind (tree list.now)) }
{
    if ends_in_nil(list) {
        by_elements(alloc, priority, kind, list)
    } else {
        Ok(Declaring::Raises(type_error(alloc, b"list", list)?))
    }
}

/// Each element is a name, or the first that isn't is an error.
fn by_elements(alloc: Global, priority: u16, kind: OpKind, list: &[Node]) -> Result<Declaring, Want>
    requires { HasPrefixOrder list.now }
    ensures { IfOk result (λ d. d ≡ spec.by_elements priority kind (spec.elements (tree list.now))) }
{
    let mut names = Vec::new(alloc);
    let mut left = list;
    'cells: while let Some((element, rest)) = cell(left) {
        match &element[0] {
            Node::Atom(name) => names.push(name.clone()?)?,
            Node::Var(_) | Node::Int(_) | Node::Functor(_, _) => {
                return Ok(Declaring::Raises(type_error(alloc, b"atom", element)?));
            }
        }
        left = rest;
    }
    Ok(Declaring::Declares(Declaration {
        priority,
        kind,
        names: OpNames::from_vec(names),
    }))
}

// The text of a term, node by node.
ghost use Rattle.std.specs.Prelude.{◌≡◌, ◌≤◌, ℕ, List, [], ◌∷◌, ◌++◌, true, OnOk, IfOk, drop, length};
ghost use Rattle.prolog_terms.specs.Tree.{Tree, HasArities, HasWholes};
ghost use Rattle.prolog_terms.specs.Flat.{nodes as nodes_of};
ghost use Rattle.prolog_writer.specs.Spaces.{added, all_added};
ghost use Rattle.prolog_writer.specs.Pieces.{atom_piece, operator_piece, prefix_piece, functor_piece, atom_pieces, written};
ghost use Rattle.prolog_writer.specs.Frames.{behind, frames_behind, opening, begun, frames_begun, parenthesis, in_parenthesis, plain_pieces, plain_frames, rest_pieces, rest_frames, node_pieces, frames_after, walk};
ghost use Rattle.prolog_writer.specs.declared.shape.Place.TheVariants.{Within};
ghost use Rattle.prolog_writer.specs.Pieces as spec;
ghost use Rattle.prolog_writer.specs.Spelling.{has_quotes};
ghost use Rattle.prolog_writer.specs.Again.{IsReadAs};

use crate::Style;
use crate::frames::{Frame, Frames, opened};
use crate::kind::Kind;
use crate::output::Output;
use crate::reading_again::written_is_read_again;
use crate::shape::{Place, Shape, begins_cell, ends_list, is_atom_enclosed, is_enclosed, shape_of};
use crate::spelling::{quotes_atom, quotes_functor, quotes_operator, same_text};
use prolog_terms::{Name, Node, Ops, Term, Want};
use std::alloc::Global;
use std::mem;

/// How terms are written: in which style, under which operators, and where the outermost stands.
#[derive(Clone, Copy)]
struct Manner<'a> {
    alloc: Global,
    ops: &'a Ops,
    style: Style,
    outer: Place,
}

fn put_operator(out: &mut Output, alloc: Global, style: Style, name: &[u8]) -> Result<(), Want>
    ensures { OnOk result (out.new ≡ added out.old (operator_piece style name.now)) }
{
    out.put_name(alloc, Kind::Named, quotes_operator(style, name), name)
}

fn prefix_kind(name: &[u8]) -> Kind
    ensures { result ≡ spec.prefix_kind name.now }
{
    if same_text(name, "-") {
        Kind::Minus
    } else {
        Kind::Named
    }
}

fn put_prefix(out: &mut Output, alloc: Global, style: Style, name: &[u8]) -> Result<(), Want>
    ensures { OnOk result (out.new ≡ added out.old (prefix_piece style name.now)) }
{
    out.put_name(alloc, prefix_kind(name), quotes_operator(style, name), name)
}

fn put_functor(out: &mut Output, alloc: Global, style: Style, name: &[u8]) -> Result<(), Want>
    ensures { OnOk result (out.new ≡ added out.old (functor_piece style name.now)) }
{
    out.put_name(alloc, Kind::Other, quotes_functor(style, name), name)
}

fn put_bare_atom(out: &mut Output, alloc: Global, style: Style, name: &[u8]) -> Result<(), Want>
    ensures { OnOk result (out.new ≡ added out.old (atom_piece style name.now)) }
{
    out.put_name(alloc, Kind::Named, quotes_atom(style, name), name)
}

fn put_atom(out: &mut Output, manner: Manner<'_>, place: Place, name: &Name) -> Result<(), Want>
    ensures { OnOk result (out.new ≡ all_added out.old (atom_pieces manner.entry.ops.now manner.entry.style place name.now)) }
{
    if is_atom_enclosed(manner.ops, manner.style, place, name) {
        out.put(Kind::Paren, b"(".as_slice())?;
        put_bare_atom(out, manner.alloc, manner.style, name.bytes())?;
        out.put_mark(")")
    } else {
        put_bare_atom(out, manner.alloc, manner.style, name.bytes())
    }
}

// Puts what stands behind a whole term: the brackets that it closes and the operators that it ends, and a comma or an
// operator where a further term follows.
#[tactic(auto, unfolding(crate::specs::Frames::behind, crate::specs::Frames::frames_behind))]
fn put_behind(
    out: &mut Output,
    alloc: Global,
    style: Style,
    frames: &mut Frames,
) -> Result<(), Want>
    ensures text { OnOk result (out.new ≡ all_added out.old (behind style frames.old)) }
    ensures frames { OnOk result (frames.new ≡ frames_behind frames.old) }
{
    while let Some(frame) = frames.pop() {
        match frame {
            Frame::InArguments(left) => {
                if left > 1 {
                    out.put_mark(",")?;
                    return frames.push(Frame::InArguments(left - 1));
                }
                out.put_mark(")")?;
            }
            Frame::InBraces => out.put_mark("}")?,
            Frame::InElement => return frames.push(Frame::InTail),
            Frame::InTail => out.put_mark("]")?,
            Frame::InOperand(_) => {}
            Frame::InLeft(name, infix) => {
                put_operator(out, alloc, style, name.bytes())?;
                return frames.push(Frame::InOperand(infix.right));
            }
            Frame::InPostfixed(name, _) => put_operator(out, alloc, style, name.bytes())?,
            Frame::InParenthesis => out.put_mark(")")?,
        }
    }
    Ok(())
}

// Puts what stands before the arguments of a compound.
fn put_opening(
    out: &mut Output,
    alloc: Global,
    style: Style,
    shape: Shape,
    name: &[u8],
) -> Result<(), Want>
    ensures { OnOk result (out.new ≡ all_added out.old (opening style shape name.now)) }
{
    match shape {
        Shape::Cell => out.put_mark("["),
        Shape::Braced => out.put_mark("{"),
        Shape::Prefixed(_) => put_prefix(out, alloc, style, name),
        Shape::Infixed(_) => Ok(()),
        Shape::Postfixed(_) => Ok(()),
        Shape::Call => {
            put_functor(out, alloc, style, name)?;
            out.put_mark("(")
        }
    }
}

fn put_parenthesis(out: &mut Output, frames: &mut Frames, enclosed: bool) -> Result<(), Want>
    ensures text { OnOk result (out.new ≡ all_added out.old (parenthesis enclosed)) }
    ensures frames { OnOk result (frames.new ≡ in_parenthesis enclosed frames.old) }
{
    if enclosed {
        out.put(Kind::Paren, b"(".as_slice())?;
        frames.push(Frame::InParenthesis)
    } else {
        Ok(())
    }
}

fn begin(
    out: &mut Output,
    frames: &mut Frames,
    manner: Manner<'_>,
    place: Place,
    shape: Shape,
    name: &Name,
    arity: u32,
) -> Result<(), Want>
    ensures text { OnOk result (out.new ≡ all_added out.old (begun manner.entry.style place shape name.now)) }
    ensures frames { OnOk result (frames.new ≡ frames_begun place shape name.now arity frames.old) }
{
    put_parenthesis(out, frames, is_enclosed(place, shape))?;
    put_opening(out, manner.alloc, manner.style, shape, name.bytes())?;
    frames.push(opened(shape, name, arity)?)
}

fn put_plain(
    out: &mut Output,
    frames: &mut Frames,
    manner: Manner<'_>,
    place: Place,
    node: &Node,
) -> Result<(), Want>
    ensures text { OnOk result (out.new ≡ all_added out.old (plain_pieces manner.entry.ops.now manner.entry.style place frames.old node.now)) }
    ensures frames { OnOk result (frames.new ≡ plain_frames manner.entry.ops.now manner.entry.style place frames.old node.now) }
{
    match node {
        Node::Var(number) => out.put_variable(manner.alloc, *number)?,
        Node::Int(whole) => out.put_whole(*whole)?,
        Node::Atom(name) => put_atom(out, manner, place, name)?,
        Node::Functor(name, arity) => {
            let shape = shape_of(manner.ops, manner.style, name, *arity);
            return begin(out, frames, manner, place, shape, name, *arity);
        }
    }
    put_behind(out, manner.alloc, manner.style, frames)
}

// Behind an element of a list.
fn put_rest(
    out: &mut Output,
    frames: &mut Frames,
    manner: Manner<'_>,
    node: &Node,
) -> Result<(), Want>
    ensures text { OnOk result (out.new ≡ all_added out.old (rest_pieces manner.entry.ops.now manner.entry.style frames.old node.now)) }
    ensures frames { OnOk result (frames.new ≡ rest_frames manner.entry.ops.now manner.entry.style frames.old node.now) }
{
    if begins_cell(node) {
        out.put_mark(",")?;
        return frames.next_element();
    }
    if ends_list(node) {
        return put_behind(out, manner.alloc, manner.style, frames);
    }
    out.put_mark("|")?;
    put_plain(out, frames, manner, Place::Within(999), node)
}

#[tactic(auto, unfolding(crate::specs::Frames::node_pieces, crate::specs::Frames::frames_after))]
fn put_node(
    out: &mut Output,
    frames: &mut Frames,
    manner: Manner<'_>,
    node: &Node,
) -> Result<(), Want>
    ensures text { OnOk result (out.new ≡ all_added out.old (node_pieces manner.entry.ops.now manner.entry.style manner.entry.outer frames.old node.now)) }
    ensures frames { OnOk result (frames.new ≡ frames_after manner.entry.ops.now manner.entry.style manner.entry.outer frames.old node.now) }
{
    if frames.is_in_tail() {
        put_rest(out, frames, manner, node)
    } else {
        put_plain(out, frames, manner, frames.place(manner.outer), node)
    }
}

// Puts the term at the front of these nodes.
fn put_front(out: &mut Output, manner: Manner<'_>, nodes: &[Node]) -> Result<usize, Want>
    ensures text { OnOk result (out.new ≡ all_added out.old (walk manner.entry.ops.now manner.entry.style manner.entry.outer [] nodes.now).pieces) }
    ensures left { IfOk result (λ n. drop n nodes.now ≡ (walk manner.entry.ops.now manner.entry.style manner.entry.outer [] nodes.now).left) }
    ensures within { IfOk result (λ n. n ≤ length nodes.now) }
{
    let mut frames = Frames::new(manner.alloc);
    let mut count = 0;
    for node in nodes {
        put_node(out, &mut frames, manner, node)?;
        count += 1;
        if frames.is_empty() {
            return Ok(count);
        }
    }
    Ok(count)
}

/// Puts the text of the term at the front of these nodes at the end of a text, as `write` gives it, and answers how many nodes
/// the term has. The bytes that were there stay, and no space is put between them and the term's. After want of memory the
/// text may be any. What is added of a term in Quoted or Canonical is read again as the term (`write`).
pub fn write_front(
    alloc: Global,
    text: &mut Vec<u8>,
    nodes: &[Node],
    ops: &Ops,
    style: Style,
    max: u16,
) -> Result<usize, Want>
    ensures text { (t : Tree) → (rest : List Node) → HasArities t → nodes.now ≡ nodes_of t ++ rest → OnOk result (text.new.items ≡ text.old.items ++ written ops.now style max t) }
    ensures count { (t : Tree) → (rest : List Node) → HasArities t → nodes.now ≡ nodes_of t ++ rest → IfOk result (λ n. n ≡ length (nodes_of t)) }
    ensures within { IfOk result (λ n. n ≤ length nodes.now) }
    ensures read_again { (t : Tree) → (rest : List Node) → HasArities t → HasWholes t → nodes.now ≡ nodes_of t ++ rest → has_quotes style ≡ true → IfOk result (λ _. (added : List ℕ) × (text.new.items ≡ text.old.items ++ added) × IsReadAs ops.now added t) }
{
    ops.known();
    written_is_read_again();
    let manner = Manner {
        alloc,
        ops,
        style,
        outer: Place::Within(max),
    };
    let mut out = Output::behind(mem::replace(text, Vec::new(alloc)));
    let count = put_front(&mut out, manner, nodes)?;
    *text = out.into_text();
    Ok(count)
}

/// The text of a term in a style, under an operator table, where its priority may be `max` at most. No depth of the term is
/// too great. Where names have quotes, so in Quoted and Canonical, the text is read again as the same term under the same
/// table, with its variables numbered from 0 by first occurrence: wherever it stands in a text with ` .` behind it, and behind
/// that the end of the text, layout or `%`; what is left then is what stands behind the ` .`.
pub fn write(alloc: Global, term: &Term, ops: &Ops, style: Style, max: u16) -> Result<Vec<u8>, Want>
    ensures text { IfOk result (λ text. text.items ≡ written ops.now style max term.now) }
    ensures read_again { IfOk result (λ text. has_quotes style ≡ true → IsReadAs ops.now text.items term.now) }
{
    let mut text = Vec::new(alloc);
    write_front(alloc, &mut text, term.nodes(), ops, style, max)?;
    Ok(text)
}

// What is open at a place of a text.
ghost use Rattle.std.specs.Prelude.{◌≡◌, ◌==◌, ◌∷◌, [], OnOk, IfOk, IfNone, IfSome, length};
ghost use Rattle.prolog_writer.specs.Frames as spec;
ghost use Rattle.prolog_writer.specs.Frames.{inside_of, place_in, opened};

use crate::shape::{Place, Shape};
use prolog_terms::{Infix, Name, Postfix, Want};
use std::alloc::Global;
use std::marker::Model;

/// What is open.
#[derive(Debug, Drop)]
pub enum Frame {
    /// A compound of which so many arguments are still to come.
    InArguments(u32),
    /// A term in braces.
    InBraces,
    /// A list, and an element is to come.
    InElement,
    /// A list, and what stands behind an element is to come.
    InTail,
    /// The last operand of an operator, with its greatest priority.
    InOperand(u16),
    /// The left operand of an infix operator.
    InLeft(Name, Infix),
    /// The operand of a postfix operator.
    InPostfixed(Name, Postfix),
    /// A parenthesis.
    InParenthesis,
}

/// What is open, the innermost last in the Vec and first in contracts.
#[derive(Drop)]
pub struct Frames {
    stack: Vec<Frame>,
}

impl Model for Frames {
    ghost use Rattle.std.specs.Prelude.{List, reverse};
    ghost use Rattle.prolog_writer.specs.declared.frames.Frame.{Frame};

    ghost Value = { List Frame };

    ghost view = { λ f. reverse f.stack.items };
}

impl Frames {
    /// Nothing is open.
    pub fn new(alloc: Global) -> Frames
        ensures { result ≡ [] }
    {
        Frames {
            stack: Vec::new(alloc),
        }
    }

    /// One more is open, inside the others.
    pub fn push(&mut self, frame: Frame) -> Result<(), Want>
        ensures { OnOk result (self.new ≡ frame ∷ self.old) }
    {
        self.stack.push(frame)?;
        Ok(())
    }

    /// The innermost is closed.
    pub fn pop(&mut self) -> Option<Frame>
        ensures none { IfNone result ((self.old ≡ []) × (self.new ≡ [])) }
        ensures some { IfSome result (λ frame. self.old ≡ frame ∷ self.new) }
    {
        self.stack.pop()
    }

    /// Whether nothing is open.
    pub fn is_empty(&self) -> bool
        ensures { result ≡ (length self.now == 0) }
    {
        self.stack.is_empty()
    }

    /// Whether what stands behind an element of a list is to come.
    pub fn is_in_tail(&self) -> bool
        ensures { result ≡ spec.in_tail self.now }
    {
        match self.stack.last() {
            Some(Frame::InTail) => true,
            _ => false,
        }
    }

    /// Where the next term stands; the outermost has a place of its own.
    pub fn place(&self, outer: Place) -> Place
        ensures { result ≡ place_in outer self.now }
    {
        match self.stack.last() {
            Some(frame) => inside_of(frame),
            None => outer,
        }
    }

    /// A further element of a list is to come.
    pub fn next_element(&mut self) -> Result<(), Want>
        ensures { OnOk result (self.new ≡ spec.next_element self.old) }
    {
        match self.pop() {
            Some(_) => self.push(Frame::InElement),
            None => Ok(()),
        }
    }
}

fn inside_of(frame: &Frame) -> Place
    ensures { result ≡ inside_of frame.now }
{
    match frame {
        Frame::InArguments(_) | Frame::InElement | Frame::InTail => Place::Within(999),
        Frame::InBraces | Frame::InParenthesis => Place::Within(1200),
        Frame::InOperand(most) => Place::Operand(*most),
        Frame::InLeft(_, infix) => Place::Left(infix.left, infix.priority),
        Frame::InPostfixed(_, postfix) => Place::Left(postfix.operand, postfix.priority),
    }
}

/// What a compound opens.
pub fn opened(shape: Shape, name: &Name, arity: u32) -> Result<Frame, Want>
    ensures { IfOk result (λ frame. frame ≡ opened shape name.now arity) }
{
    match shape {
        Shape::Cell => Ok(Frame::InElement),
        Shape::Braced => Ok(Frame::InBraces),
        Shape::Prefixed(prefix) => Ok(Frame::InOperand(prefix.operand)),
        Shape::Infixed(infix) => Ok(Frame::InLeft(name.clone()?, infix)),
        Shape::Postfixed(postfix) => Ok(Frame::InPostfixed(name.clone()?, postfix)),
        Shape::Call => Ok(Frame::InArguments(arity)),
    }
}

// The parser: one rule at a time.
ghost use Rattle.prolog_reader.specs.declared.rule.Frame.TheVariants.{Arguments, Items, Tail, Paren, Braces};
ghost use Rattle.std.specs.Prelude.{◌≡◌, ◌+◌, ◌∷◌, ◌≤◌, pos, ◌-ℤ◌, IfOk, OnOk};
ghost use Rattle.prolog_reader.specs.Grammar as grammar;
ghost use Rattle.prolog_reader.specs.Steps.{state_of, Makes, Finds, Reads};

use crate::ahead::{
    calls, extension, found_of, is_punct, negates, next_is, next_value, operator_text, refusal,
    takes_operand,
};
use crate::built::Built;
use crate::rule::{Extension, Fault, Frame, Mode, Next};
use crate::stack::Stack;
use crate::variables::Variables;
use prolog_lexer::{Token, TokenKind};
use prolog_terms::{Bytes, Name, Node, Ops, Prefix, Want};
use std::alloc::Global;

#[derive(Drop)]
pub(crate) struct Parser {
    mode: Mode,
    frames: Stack<Frame>,
    pub(crate) terms: Built,
    pub(crate) variables: Variables,
}

impl Parser {
    fn grow(&mut self, extension: Extension, most: u16) -> Result<(), Want>
        ensures { OnOk result (state_of self.new ≡ grammar.grown extension most self.old.frames self.old.terms self.old.variables) }
    {
        match extension {
            Extension::OverTwo(name, own, right) => {
                self.frames.push(Frame::Infixed(name, own, most))?;
                self.mode = Mode::Wants(right);
            }
            Extension::OverOne(name, own) => {
                self.terms.push(Node::Functor(name, 1))?;
                self.mode = Mode::Has(own, most);
            }
        }
        Ok(())
    }

    fn continue_with(
        &mut self,
        alloc: Global,
        ops: &Ops,
        mut priority: u16,
        mut most: u16,
        token: &Token,
    ) -> Result<Next, Want>
        ensures { IfOk result (λ next. Makes (grammar.continued ops.now priority most self.old.frames self.old.terms self.old.variables token.now) next (state_of self.new)) }
    {
        let text = operator_text(&token.kind);
        let found = found_of(ops, text);
        'frames: loop {
            if let Some(extension) = extension(alloc, text, found, priority, most)? {
                self.grow(extension, most)?;
                return Ok(Next::One);
            }
            match self.frames.pop() {
                None => return Ok(Next::Stop(refusal(ops, token))),
                Some(Frame::Prefixed(name, own, around)) => {
                    self.terms.push(Node::Functor(name, 1))?;
                    priority = own;
                    most = around;
                }
                Some(Frame::Infixed(name, own, around)) => {
                    self.terms.push(Node::Functor(name, 2))?;
                    priority = own;
                    most = around;
                }
                Some(Frame::Arguments(name, count, around)) => return self.take_argument(
                    ops, name, count, around, token,
                ),
                Some(Frame::Items(count, around)) => return self.take_item(
                    alloc, ops, count, around, token,
                ),
                Some(Frame::Tail(count, around)) => return self.take_tail(
                    alloc, ops, count, around, token,
                ),
                Some(Frame::Paren(around)) => return self.take_paren(ops, around, token),
                Some(Frame::Braces(around)) => return self.take_braces(alloc, ops, around, token),
            }
        }
    }

    fn take_argument(
        &mut self,
        ops: &Ops,
        name: Name,
        count: u8,
        around: u16,
        token: &Token,
    ) -> Result<Next, Want>
        ensures { IfOk result (λ next. Makes (grammar.taken ops.now (Arguments name count around) self.old.frames self.old.terms self.old.variables token.now) next (state_of self.new)) }
    {
        if is_punct(&token.kind, b',') {
            if count >= 254 {
                return Ok(Next::Stop(Fault::Arity));
            }
            self.frames.push(Frame::Arguments(name, count + 1, around))?;
            self.mode = Mode::Wants(999);
            Ok(Next::One)
        } else if is_punct(&token.kind, b')') {
            self.terms.push(Node::Functor(name, u32::from(count) + 1))?;
            self.mode = Mode::Has(0, around);
            Ok(Next::One)
        } else {
            Ok(Next::Stop(refusal(ops, token)))
        }
    }

    fn take_item(
        &mut self,
        alloc: Global,
        ops: &Ops,
        count: u64,
        around: u16,
        token: &Token,
    ) -> Result<Next, Want>
        ensures { IfOk result (λ next. Makes (grammar.taken ops.now (Items count around) self.old.frames self.old.terms self.old.variables token.now) next (state_of self.new)) }
    {
        let items = count.checked_add(1).ok_or(Want)?;
        if is_punct(&token.kind, b',') {
            self.frames.push(Frame::Items(items, around))?;
            self.mode = Mode::Wants(999);
            Ok(Next::One)
        } else if is_punct(&token.kind, b'|') {
            self.frames.push(Frame::Tail(items, around))?;
            self.mode = Mode::Wants(999);
            Ok(Next::One)
        } else if is_punct(&token.kind, b']') {
            self.terms.push(Node::Atom(Name::of(alloc, b"[]")?))?;
            self.cells(alloc, items)?;
            self.mode = Mode::Has(0, around);
            Ok(Next::One)
        } else {
            Ok(Next::Stop(refusal(ops, token)))
        }
    }

    fn take_tail(
        &mut self,
        alloc: Global,
        ops: &Ops,
        count: u64,
        around: u16,
        token: &Token,
    ) -> Result<Next, Want>
        ensures { IfOk result (λ next. Makes (grammar.taken ops.now (Tail count around) self.old.frames self.old.terms self.old.variables token.now) next (state_of self.new)) }
    {
        if is_punct(&token.kind, b']') {
            self.cells(alloc, count)?;
            self.mode = Mode::Has(0, around);
            Ok(Next::One)
        } else {
            Ok(Next::Stop(refusal(ops, token)))
        }
    }

    fn take_paren(&mut self, ops: &Ops, around: u16, token: &Token) -> Result<Next, Want>
        ensures { IfOk result (λ next. Makes (grammar.taken ops.now (Paren around) self.old.frames self.old.terms self.old.variables token.now) next (state_of self.new)) }
    {
        if is_punct(&token.kind, b')') {
            self.mode = Mode::Has(0, around);
            Ok(Next::One)
        } else {
            Ok(Next::Stop(refusal(ops, token)))
        }
    }

    fn take_braces(
        &mut self,
        alloc: Global,
        ops: &Ops,
        around: u16,
        token: &Token,
    ) -> Result<Next, Want>
        ensures { IfOk result (λ next. Makes (grammar.taken ops.now (Braces around) self.old.frames self.old.terms self.old.variables token.now) next (state_of self.new)) }
    {
        if is_punct(&token.kind, b'}') {
            self.terms.push(Node::Functor(Name::of(alloc, b"{}")?, 1))?;
            self.mode = Mode::Has(0, around);
            Ok(Next::One)
        } else {
            Ok(Next::Stop(refusal(ops, token)))
        }
    }

    fn cells(&mut self, alloc: Global, count: u64) -> Result<(), Want>
        ensures terms { OnOk result (self.new.terms ≡ grammar.cells count self.old.terms) }
        ensures frames { OnOk result (self.new.frames ≡ self.old.frames) }
        ensures variables { OnOk result (self.new.variables ≡ self.old.variables) }
        ensures mode { OnOk result (self.new.mode ≡ self.old.mode) }
    {
        'cells: for _ in 0..count {
            self.terms.push(Node::Functor(Name::of(alloc, b".")?, 2))?;
        }
        Ok(())
    }

    #[tactic(auto, unfolding(crate::specs::Grammar::primary))]
    fn primary(
        &mut self,
        alloc: Global,
        ops: &Ops,
        most: u16,
        token: &Token,
        rest: &[Token],
    ) -> Result<Next, Want>
        ensures { IfOk result (λ next. Makes (grammar.primary ops.now most (state_of self.old) token.now rest.now token.now.kind) next (state_of self.new)) }
    {
        match &token.kind {
            TokenKind::Name(name) => self.named(alloc, ops, name, most, token, rest),
            TokenKind::Quoted(name) => self.named(alloc, ops, name, most, token, rest),
            TokenKind::Variable(name) => self.variable(name, most),
            TokenKind::Integer(value) => self.integer(*value, most),
            TokenKind::Codes(bytes) => self.codes(alloc, bytes, most),
            TokenKind::Stop => Ok(Next::Stop(Fault::Unexpected)),
            TokenKind::Punct(byte) => self.bracket(alloc, *byte, most, rest),
        }
    }

    #[tactic(auto, unfolding(crate::specs::Grammar::named))]
    fn named(
        &mut self,
        alloc: Global,
        ops: &Ops,
        name: &Name,
        most: u16,
        token: &Token,
        rest: &[Token],
    ) -> Result<Next, Want>
        ensures { IfOk result (λ next. Makes (grammar.named ops.now name.now most (state_of self.old) token.now rest.now) next (state_of self.new)) }
    {
        if calls(token, rest) {
            self.open(Frame::Arguments(name.clone()?, 0, most), 999)?;
            return Ok(Next::Two);
        }
        if negates(token, rest) {
            return self.negative(next_value(rest), most);
        }
        self.prefixed(ops.prefix(name), name, most, takes_operand(ops, rest))
    }

    fn prefixed(
        &mut self,
        op: Option<Prefix>,
        name: &Name,
        most: u16,
        operand: bool,
    ) -> Result<Next, Want>
        ensures { IfOk result (λ next. Makes (grammar.prefixed op name.now most (state_of self.old) operand) next (state_of self.new)) }
    {
        match op {
            Some(op) if operand => {
                if op.priority > most {
                    return Ok(Next::Stop(Fault::Priority));
                }
                self.open(
                    Frame::Prefixed(name.clone()?, op.priority, most),
                    op.operand,
                )?;
            }
            _ => self.leaf(Node::Atom(name.clone()?), most)?,
        }
        Ok(Next::One)
    }

    fn open(&mut self, frame: Frame, most: u16) -> Result<(), Want>
        ensures { OnOk result (state_of self.new ≡ grammar.opened (state_of self.old) frame most) }
    {
        self.frames.push(frame)?;
        self.mode = Mode::Wants(most);
        Ok(())
    }

    fn leaf(&mut self, node: Node, most: u16) -> Result<(), Want>
        ensures { OnOk result (state_of self.new ≡ grammar.with_term (state_of self.old) most (grammar.pushed node self.old.terms)) }
    {
        self.terms.push(node)?;
        self.mode = Mode::Has(0, most);
        Ok(())
    }

    fn negative(&mut self, value: u128, most: u16) -> Result<Next, Want>
        ensures { IfOk result (λ next. Makes (grammar.negated value most (state_of self.old)) next (state_of self.new)) }
    {
        if value > 0x8000_0000_0000_0000 {
            return Ok(Next::Stop(Fault::TooLarge));
        }
        self.leaf(Node::Int(negated(value)), most)?;
        Ok(Next::Two)
    }

    fn integer(&mut self, value: u128, most: u16) -> Result<Next, Want>
        ensures { IfOk result (λ next. Makes (grammar.an_integer value most (state_of self.old)) next (state_of self.new)) }
    {
        if value >= 0x8000_0000_0000_0000 {
            return Ok(Next::Stop(Fault::TooLarge));
        }
        self.leaf(Node::Int(value as i64), most)?;
        Ok(Next::One)
    }

    #[tactic(auto, unfolding(crate::specs::Grammar::bracket))]
    fn bracket(&mut self, alloc: Global, byte: u8, most: u16, rest: &[Token]) -> Result<Next, Want>
        ensures { IfOk result (λ next. Makes (grammar.bracket byte most (state_of self.old) rest.now) next (state_of self.new)) }
    {
        match byte {
            b'(' => self.open(Frame::Paren(most), 1200)?,
            b'[' => {
                if next_is(b']', rest) {
                    self.leaf(Node::Atom(Name::of(alloc, b"[]")?), most)?;
                    return Ok(Next::Two);
                }
                self.open(Frame::Items(0, most), 999)?;
            }
            b'{' => {
                if next_is(b'}', rest) {
                    self.leaf(Node::Atom(Name::of(alloc, b"{}")?), most)?;
                    return Ok(Next::Two);
                }
                self.open(Frame::Braces(most), 1200)?;
            }
            _ => return Ok(Next::Stop(Fault::Unexpected)),
        }
        Ok(Next::One)
    }

    fn variable(&mut self, name: &Name, most: u16) -> Result<Next, Want>
        ensures { IfOk result (λ next. Makes (grammar.goes (grammar.a_variable name.now most (state_of self.old))) next (state_of self.new)) }
    {
        let number = self.variables.number(name)?;
        self.leaf(Node::Var(number), most)?;
        Ok(Next::One)
    }

    fn codes(&mut self, alloc: Global, bytes: &Bytes, most: u16) -> Result<Next, Want>
        ensures { IfOk result (λ next. Makes (grammar.has (state_of self.old) most (grammar.text_codes bytes.now self.old.terms)) next (state_of self.new)) }
    {
        let text = bytes.bytes();
        self.push_codes(text)?;
        self.terms.push(Node::Atom(Name::of(alloc, b"[]")?))?;
        self.cells(alloc, text.len() as u64)?;
        self.mode = Mode::Has(0, most);
        Ok(Next::One)
    }

    fn push_codes(&mut self, text: &[u8]) -> Result<(), Want>
        ensures terms { OnOk result (self.new.terms ≡ grammar.pushed_codes text.now self.old.terms) }
        ensures frames { OnOk result (self.new.frames ≡ self.old.frames) }
        ensures variables { OnOk result (self.new.variables ≡ self.old.variables) }
    {
        'codes: for b in text {
            self.terms.push(Node::Int(i64::from(*b)))?;
        }
        Ok(())
    }

    #[tactic(auto, unfolding(crate::specs::Grammar::rule))]
    fn step(
        &mut self,
        alloc: Global,
        ops: &Ops,
        token: &Token,
        rest: &[Token],
    ) -> Result<Next, Want>
        ensures { IfOk result (λ next. Makes (grammar.rule ops.now (state_of self.old) token.now rest.now) next (state_of self.new)) }
    {
        match self.mode {
            Mode::Wants(most) => self.primary(alloc, ops, most, token, rest),
            Mode::Has(priority, most) => self.continue_with(alloc, ops, priority, most, token),
        }
    }

    #[tactic(auto, unfolding(crate::specs::Grammar::at_end))]
    fn finish(&mut self) -> Result<Result<(), Fault>, Want>
        ensures { IfOk result (λ answer. Finds (grammar.at_end (state_of self.old)) answer self.new.terms self.new.variables) }
    {
        match self.mode {
            Mode::Wants(_) => Ok(Err(Fault::Unexpected)),
            Mode::Has(_, _) => self.close_all(),
        }
    }

    fn close_all(&mut self) -> Result<Result<(), Fault>, Want>
        ensures { IfOk result (λ answer. Finds (grammar.closing self.old.frames self.old.terms self.old.variables) answer self.new.terms self.new.variables) }
    {
        'frames: loop {
            match self.frames.pop() {
                None => return Ok(Ok(())),
                Some(Frame::Prefixed(name, _, _)) => self.terms.push(Node::Functor(name, 1))?,
                Some(Frame::Infixed(name, _, _)) => self.terms.push(Node::Functor(name, 2))?,
                Some(Frame::Arguments(_, _, _)) => return Ok(Err(Fault::Unexpected)),
                Some(Frame::Items(_, _)) => return Ok(Err(Fault::Unexpected)),
                Some(Frame::Tail(_, _)) => return Ok(Err(Fault::Unexpected)),
                Some(Frame::Paren(_)) => return Ok(Err(Fault::Unexpected)),
                Some(Frame::Braces(_)) => return Ok(Err(Fault::Unexpected)),
            }
        }
    }
}

fn negated(value: u128) -> i64
    requires { value ≤ 0x8000_0000_0000_0000 }
    ensures { result ≡ pos 0 -ℤ pos value }
{
    (0 - value as i128) as i64
}

/// Reads all of the tokens as one term.
pub(crate) fn read(
    alloc: Global,
    ops: &Ops,
    tokens: &[Token],
) -> Result<Result<Parser, Fault>, Want>
    ensures { IfOk result (λ answer. Reads (grammar.read ops.now tokens.now) answer) }
{
    let mut parser = Parser {
        mode: Mode::Wants(1200),
        frames: Stack::new(alloc),
        terms: Built::new(alloc),
        variables: Variables::new(alloc),
    };
    let mut at = 0;
    'tokens: while at < tokens.len() {
        match parser.step(alloc, ops, &tokens[at], &tokens[at + 1..])? {
            Next::One => at += 1,
            Next::Two => at += 2,
            Next::Stop(fault) => return Ok(Err(fault)),
        }
    }
    match parser.finish()? {
        Ok(()) => Ok(Ok(parser)),
        Err(fault) => Ok(Err(fault)),
    }
}

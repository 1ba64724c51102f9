// The operator table.
ghost use Rattle.std.specs.Prelude.{◌≡◌, ◌≤◌, [], IfOk, IfErr, OnOk, OnErr, None, map};
ghost use Rattle.prolog_terms.specs.Operators as spec;
ghost use Rattle.prolog_terms.specs.Operators.{initial_operators, refusal, Answers, declared, all_declared, rows_declared, ChangesAlone, IsTable};

use crate::{Name, Want};
use indexmap::IndexMap;
use std::alloc::{AllocError, Global};
use std::marker::Model;

/// The type of an operator (ISO/IEC 13211-1, 6.3.4): where its operands stand, and whether each may have the
/// operator's own priority (`y`) or only a lower one (`x`).
#[derive(Clone, Copy, Debug, PartialEq, Eq)]
pub enum OpKind {
    Xfx,
    Xfy,
    Yfx,
    Fy,
    Fx,
    Xf,
    Yf,
}

/// A prefix operator's priority, from 1 to 1200, and the greatest that its operand may have.
#[derive(Clone, Copy, Debug, PartialEq, Eq)]
pub struct Prefix {
    pub priority: u16,
    pub operand: u16,
}

/// An infix operator's priority, from 1 to 1200, and the greatest that its left and right operands may have.
#[derive(Clone, Copy, Debug, PartialEq, Eq)]
pub struct Infix {
    pub left: u16,
    pub priority: u16,
    pub right: u16,
}

/// A postfix operator's priority, from 1 to 1200, and the greatest that its operand may have.
#[derive(Clone, Copy, Debug, PartialEq, Eq)]
pub struct Postfix {
    pub operand: u16,
    pub priority: u16,
}

/// What a name is as an operator, in each class.
#[derive(Clone, Copy, Debug, PartialEq, Eq)]
pub struct Definitions {
    pub as_prefix: Option<Prefix>,
    pub as_infix: Option<Infix>,
    pub as_postfix: Option<Postfix>,
}

/// Why a declaration was refused: the name is `,`; the name is `|`, `[]` or `{}`; an infix name would become postfix or
/// a postfix one infix; or want of memory.
#[derive(Clone, Copy, Debug, PartialEq, Eq)]
pub enum OpFault {
    Comma,
    Reserved,
    Clash,
    Want,
}

impl From<AllocError> for OpFault {
    ghost use Rattle.prolog_terms.specs.declared.ops.OpFault.TheVariants.{Want as NoMemory};

    ghost from_gives = { λ _ fault. fault ≡ NoMemory };

    fn from(_: AllocError) -> OpFault {
        OpFault::Want
    }
}

impl From<Want> for OpFault {
    ghost use Rattle.prolog_terms.specs.declared.ops.OpFault.TheVariants.{Want as NoMemory};

    ghost from_gives = { λ _ fault. fault ≡ NoMemory };

    fn from(_: Want) -> OpFault {
        OpFault::Want
    }
}

/// Names that are operators of one priority and type.
type Row = (u16, OpKind, &'static [&'static str]);

/// The operators that a load begins with.
const INITIAL: [Row; 14] = [
    (1200, OpKind::Xfx, &[":-", "-->"]),
    (1200, OpKind::Fx, &[":-", "?-"]),
    (
        1150,
        OpKind::Fx,
        &["dynamic", "discontiguous", "multifile", "initialization"],
    ),
    (1100, OpKind::Xfy, &[";"]),
    (1050, OpKind::Xfy, &["->"]),
    (1000, OpKind::Xfy, &[","]),
    (900, OpKind::Fy, &["\\+"]),
    (
        700,
        OpKind::Xfx,
        &["=", "\\=", "==", "\\==", "@<", "@=<", "@>", "@>="],
    ),
    (
        700,
        OpKind::Xfx,
        &["=..", "is", "=:=", "=\\=", "<", "=<", ">", ">="],
    ),
    (500, OpKind::Yfx, &["+", "-", "/\\", "\\/"]),
    (
        400,
        OpKind::Yfx,
        &["*", "/", "//", "rem", "mod", "<<", ">>"],
    ),
    (200, OpKind::Xfx, &["**"]),
    (200, OpKind::Xfy, &["^"]),
    (200, OpKind::Fy, &["-", "\\"]),
];

/// Names, and what each is as an operator.
#[derive(Debug, Drop)]
pub(crate) struct Operators {
    definitions: IndexMap<Name, Definitions>,
}

impl Model for Operators {
    ghost use Rattle.prolog_terms.specs.Operators.{Table};

    ghost Value = { Table };

    ghost view = { λ o. o.definitions.entries };
}

/// An operator table that declarations make: for each name at most one prefix, one infix and one postfix operator.
#[derive(Debug, Drop)]
pub struct Ops {
    operators: Operators,
}

impl Model for Ops {
    ghost use Rattle.prolog_terms.specs.Operators.{Table, IsTable};

    ghost Value = { Table };

    ghost view = { λ o. o.operators };

    ghost invariant = { λ o. IsTable o.operators };
}

impl Ops {
    /// The table that a load begins with (ISO/IEC 13211-1, 6.3.4.4, and the operators that `docs/LANGUAGE.md` adds).
    pub fn initial(alloc: Global) -> Result<Ops, Want>
        ensures { IfOk result (λ o. o ≡ initial_operators) }
    {
        Ok(Ops {
            operators: Operators::initial(alloc)?,
        })
    }

    /// A copy of the table.
    pub fn copy(&self) -> Result<Ops, Want>
        ensures { IfOk result (λ o. o ≡ self.now) }
    {
        Ok(Ops {
            operators: self.operators.copy()?,
        })
    }

    /// The table is one that declarations make.
    pub fn known(&self)
        ensures table { IsTable self.now }
    {
        let _ = &self.operators;
    }

    /// Declares an operator: from then on the name is one of this type and priority (ISO/IEC 13211-1, 8.14.3). Priority
    /// 0 removes the operator of the type's class. Nothing else of the table changes; after a refusal nothing does.
    pub fn declare(&mut self, priority: u16, kind: OpKind, name: &Name) -> Result<(), OpFault>
        requires { priority ≤ 1200 }
        ensures accepted { OnOk result (refusal priority kind name.now self.old ≡ None) }
        ensures ok { OnOk result (self.new ≡ declared priority kind name.now self.old) }
        ensures alone { OnOk result (ChangesAlone priority kind name.now self.old self.new) }
        ensures refused { IfErr result (λ fault. Answers (refusal priority kind name.now self.old) fault) }
        ensures err { OnErr result (self.new ≡ self.old) }
    {
        if let Some(fault) = self.refusal(priority, kind, name) {
            return Err(fault);
        }
        let name = name.clone()?;
        self.operators.define(priority, kind, name)?;
        Ok(())
    }

    /// Why a declaration would be refused; none where it wouldn't be.
    pub fn refusal(&self, priority: u16, kind: OpKind, name: &Name) -> Option<OpFault>
        ensures { result ≡ refusal priority kind name.now self.now }
    {
        if is_comma(name.bytes()) {
            return Some(OpFault::Comma);
        }
        if is_reserved(name.bytes()) {
            return Some(OpFault::Reserved);
        }
        if priority > 0 && clashes(kind, self.definitions(name.bytes())) {
            return Some(OpFault::Clash);
        }
        None
    }

    /// What a text is as an operator.
    pub fn definitions(&self, name: &[u8]) -> Definitions
        ensures { result ≡ spec.definitions self.now name.now }
    {
        self.operators.definitions_of(name)
    }

    /// The prefix operator of a name.
    pub fn prefix(&self, name: &Name) -> Option<Prefix>
        ensures { result ≡ spec.prefix_op self.now name.now }
    {
        self.definitions(name.bytes()).as_prefix
    }

    /// The infix operator of a name.
    pub fn infix(&self, name: &Name) -> Option<Infix>
        ensures { result ≡ spec.infix_op self.now name.now }
    {
        self.definitions(name.bytes()).as_infix
    }

    /// The postfix operator of a name.
    pub fn postfix(&self, name: &Name) -> Option<Postfix>
        ensures { result ≡ spec.postfix_op self.now name.now }
    {
        self.definitions(name.bytes()).as_postfix
    }
}

impl Operators {
    fn new(alloc: Global) -> Operators
        ensures { result ≡ [] }
    {
        Operators {
            definitions: IndexMap::new(alloc),
        }
    }

    #[tactic(auto, unfolding(crate::specs::Operators::initial_operators))]
    fn initial(alloc: Global) -> Result<Operators, Want>
        ensures { IfOk result (λ o. o ≡ initial_operators) }
    {
        let mut ops = Operators::new(alloc);
        ops.put_rows(alloc, &INITIAL)?;
        Ok(ops)
    }

    fn put_rows(&mut self, alloc: Global, rows: &[Row]) -> Result<(), Want>
        ensures { OnOk result (self.new ≡ rows_declared (map (λ r. spec.row r.0 r.1 (map (λ n. n.now) r.2.now)) rows.now) self.old) }
    {
        for row in rows {
            self.put(alloc, row.0, row.1, row.2)?;
        }
        Ok(())
    }

    fn copy(&self) -> Result<Operators, Want>
        ensures { IfOk result (λ o. o ≡ self.now) }
    {
        Ok(Operators {
            definitions: self.definitions.clone()?,
        })
    }

    #[tactic(auto, unfolding(crate::specs::Operators::definitions))]
    fn definitions_of(&self, name: &[u8]) -> Definitions
        ensures { result ≡ spec.definitions self.now name.now }
    {
        match self.definitions.get(name) {
            Some(definitions) => *definitions,
            None => Definitions {
                as_prefix: None,
                as_infix: None,
                as_postfix: None,
            },
        }
    }

    fn put(
        &mut self,
        alloc: Global,
        priority: u16,
        kind: OpKind,
        names: &[&str],
    ) -> Result<(), Want>
        ensures { OnOk result (self.new ≡ all_declared priority kind (map (λ n. n.now) names.now) self.old) }
    {
        for name in names {
            let name = Name::of(alloc, name.as_bytes())?;
            self.define(priority, kind, name)?;
        }
        Ok(())
    }

    fn define(&mut self, priority: u16, kind: OpKind, name: Name) -> Result<(), Want>
        ensures ok { OnOk result (self.new ≡ declared priority kind name self.old) }
        ensures err { OnErr result (self.new ≡ self.old) }
    {
        let definitions = defined(kind, priority, self.definitions_of(name.bytes()));
        self.definitions.insert(name, definitions)?;
        Ok(())
    }
}

fn defined(kind: OpKind, priority: u16, before: Definitions) -> Definitions
    ensures { result ≡ spec.defined kind priority before }
{
    let below = priority.saturating_sub(1);
    match kind {
        OpKind::Fy => with_prefix(before, priority, priority),
        OpKind::Fx => with_prefix(before, priority, below),
        OpKind::Xfx => with_infix(before, below, priority, below),
        OpKind::Xfy => with_infix(before, below, priority, priority),
        OpKind::Yfx => with_infix(before, priority, priority, below),
        OpKind::Xf => with_postfix(before, below, priority),
        OpKind::Yf => with_postfix(before, priority, priority),
    }
}

fn with_prefix(before: Definitions, priority: u16, operand: u16) -> Definitions
    ensures { result ≡ record before { as_prefix = spec.unless_zero priority (record { priority = priority; operand = operand }) } }
{
    let as_prefix = if priority == 0 {
        None
    } else {
        Some(Prefix { priority, operand })
    };
    Definitions {
        as_prefix,
        ..before
    }
}

fn with_infix(before: Definitions, left: u16, priority: u16, right: u16) -> Definitions
    ensures { result ≡ record before { as_infix = spec.unless_zero priority (record { left = left; priority = priority; right = right }) } }
{
    let as_infix = if priority == 0 {
        None
    } else {
        Some(Infix {
            left,
            priority,
            right,
        })
    };
    Definitions { as_infix, ..before }
}

fn with_postfix(before: Definitions, operand: u16, priority: u16) -> Definitions
    ensures { result ≡ record before { as_postfix = spec.unless_zero priority (record { operand = operand; priority = priority }) } }
{
    let as_postfix = if priority == 0 {
        None
    } else {
        Some(Postfix { operand, priority })
    };
    Definitions {
        as_postfix,
        ..before
    }
}

fn is_comma(name: &[u8]) -> bool
    ensures { result ≡ spec.is_comma name.now }
{
    name == b",".as_slice()
}

fn is_reserved(name: &[u8]) -> bool
    ensures { result ≡ spec.is_reserved name.now }
{
    name == b"|".as_slice() || name == b"[]".as_slice() || name == b"{}".as_slice()
}

fn clashes(kind: OpKind, definitions: Definitions) -> bool
    ensures { result ≡ spec.clashes kind definitions }
{
    match kind {
        OpKind::Fy | OpKind::Fx => false,
        OpKind::Xfx | OpKind::Xfy | OpKind::Yfx => definitions.as_postfix.is_some(),
        OpKind::Xf | OpKind::Yf => definitions.as_infix.is_some(),
    }
}

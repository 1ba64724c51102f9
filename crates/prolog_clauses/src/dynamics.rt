// What a directive `:- dynamic(Specs)` declares, or the error that it raises (docs/LANGUAGE.md, "Dynamic procedures").
ghost use Rattle.std.specs.Prelude.{◌≡◌, ◌++◌, [], ◌∷◌, IfOk, OnOk, MatchOption, None, Some};
ghost use Rattle.std.specs.List.{list_any};
ghost use Rattle.prolog_terms.specs.Flat.{tree, HasPrefixOrder};
ghost use Rattle.prolog_clauses.specs.Dynamics as spec;
ghost use Rattle.prolog_clauses.specs.Procedures.{terms_left, AreLeft};

use crate::culprit::type_error;
use crate::elements::{ends_in_nil, is_variable, list_end};
use crate::slash::{indicator_of, is_unbound};
use crate::terms::{Form, next_term};
use prolog_terms::{Fault, Indicator, Node, Want};
use std::alloc::Global;
use std::marker::Model;

/// Names and arities of procedures, in order.
#[derive(Debug, Drop)]
pub struct Indicators {
    indicators: Vec<Indicator>,
}

impl Model for Indicators {
    ghost use Rattle.std.specs.Prelude.{List};
    ghost use Rattle.prolog_terms.specs.declared.entry.Indicator.{Indicator};
    ghost use Rattle.prolog_terms.specs.contracts.entry.Indicator as of_indicator;
    ghost use Rattle.std.specs.Coded.{coded_list};

    ghost Value = { List Indicator };

    ghost coded = { coded_list of_indicator.the_row.coded };

    ghost view = { λ i. i.indicators.items };
}

impl Indicators {
    /// None.
    pub fn new(alloc: Global) -> Indicators
        ensures { result ≡ [] }
    {
        Indicators {
            indicators: Vec::new(alloc),
        }
    }

    /// One more, at the end.
    pub fn push(&mut self, indicator: Indicator) -> Result<(), Want>
        ensures { OnOk result (self.new ≡ self.old ++ indicator ∷ []) }
    {
        self.indicators.push(indicator)?;
        Ok(())
    }

    /// The names and arities.
    pub fn items(&self) -> &[Indicator]
        ensures { result.now ≡ self.now }
    {
        self.indicators.as_slice()
    }
}

/// What a directive `:- dynamic(Specs)` comes to.
#[derive(Debug, Drop)]
pub enum Dynamics {
    /// It declares these procedures dynamic, unless one of them may not be.
    Declares(Indicators),
    /// It raises this error, whatever procedures there are.
    Raises(Fault),
}

/// What `dynamic` of these nodes comes to: they are those of an indicator `N/A`, of a list of indicators or of a conjunction of
/// them. What is unbound comes first (the argument, the end of a list, an indicator, its name or its arity), and then the
/// first that is no indicator with an atom N and an integer A from 0 to 255; a list inside of a list or a conjunction is none,
/// and a list that doesn't end in `[]` is none itself.
pub(crate) fn dynamics_of(alloc: Global, specs: &[Node]) -> Result<Dynamics, Want>
    requires { HasPrefixOrder specs.now }
    ensures { IfOk result (λ d. d ≡ spec.dynamics_of (tree specs.now)) }
{
    let form = form_of(specs);
    if is_variable(list_end(specs)) || has_unbound(form, specs) {
        return Ok(Dynamics::Raises(Fault::Instantiation));
    }
    Ok(of_terms(alloc, form, specs)?)
}

/// How the terms that stand for procedures are held together: a list that ends in `[]` holds its elements.
fn form_of(specs: &[Node]) -> Form
    requires { HasPrefixOrder specs.now }
    ensures terms { terms_left result specs.now ≡ spec.specs_of (tree specs.now) }
    ensures left { AreLeft result specs.now }
{
    if ends_in_nil(specs) {
        Form::Listed
    } else {
        Form::Joined
    }
}

/// Whether one of the terms is unbound, or its name or its arity.
fn has_unbound(form: Form, nodes: &[Node]) -> bool
    requires { AreLeft form nodes.now }
    ensures { result ≡ list_any spec.is_unbound (terms_left form nodes.now) }
{
    let mut left = nodes;
    'terms: while let Some((term, rest)) = next_term(form, left) {
        if is_unbound(term) {
            return true;
        }
        left = rest;
    }
    false
}

/// Each term is an indicator, or the first that isn't is an error.
fn of_terms(alloc: Global, form: Form, nodes: &[Node]) -> Result<Dynamics, Want>
    requires { AreLeft form nodes.now }
    ensures { IfOk result (λ d. d ≡ spec.by_specs (terms_left form nodes.now)) }
{
    let mut indicators = Indicators::new(alloc);
    let mut left = nodes;
    'terms: while let Some((term, rest)) = next_term(form, left) {
        match indicator_of(term)? {
            Some(indicator) => indicators.push(indicator)?,
            None => {
                let fault = type_error(alloc, b"predicate_indicator", term)?;
                return Ok(Dynamics::Raises(fault));
            }
        }
        left = rest;
    }
    Ok(Dynamics::Declares(indicators))
}

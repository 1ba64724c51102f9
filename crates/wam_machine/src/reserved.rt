// The procedures that neither a text nor a goal may define (docs/LANGUAGE.md, Programs).
ghost use Rattle.std.specs.Prelude.{◌≡◌};
ghost use Rattle.std.specs.List.{list_any};
ghost use Rattle.journals.specs.Journal.{same_indicator};
ghost use Rattle.wam_machine.specs.Reserved as reserved;

use prolog_terms::Indicator;

/// Names of one arity.
type Row = (u32, &'static [&'static str]);

const CONTROL: [Row; 9] = [
    (0, &["!", "true", "fail", "repeat", "halt"]),
    (1, &["\\+", "call", "once", "throw", "halt"]),
    (2, &[",", ";", "->", "call"]),
    (3, &["call", "catch", "findall"]),
    (4, &["call"]),
    (5, &["call"]),
    (6, &["call"]),
    (7, &["call"]),
    (8, &["call"]),
];

const OF_TERMS: [Row; 6] = [
    (1, &["var", "nonvar", "atom", "integer", "number"]),
    (1, &["atomic", "compound", "callable"]),
    (2, &["=", "unify_with_occurs_check", "\\="]),
    (2, &["==", "\\==", "@<", "@=<", "@>", "@>="]),
    (2, &["=..", "copy_term"]),
    (3, &["compare", "functor", "arg"]),
];

const OF_TEXTS: [Row; 3] = [
    (0, &["nl"]),
    (1, &["write", "writeq", "write_canonical", "put_char"]),
    (2, &["atom_length", "atom_codes", "atom_chars", "char_code"]),
];

const OF_NUMBERS: [Row; 1] = [(2, &["is", "=:=", "=\\=", "<", "=<", ">", ">="])];

const OF_CLAUSES: [Row; 2] = [
    (
        1,
        &["asserta", "assertz", "retract", "retractall", "abolish"],
    ),
    (2, &["clause"]),
];

/// Whether the indicator is that of a control construct or of a builtin.
#[tactic(auto, unfolding(crate::specs::Reserved::is_reserved))]
pub fn is_reserved(indicator: &Indicator) -> bool
    ensures { result ≡ reserved.is_reserved indicator.now }
{
    is_control(indicator)
        || is_of_terms(indicator)
        || is_of_texts(indicator)
        || is_of_numbers(indicator)
        || is_of_clauses(indicator)
}

#[tactic(auto, unfolding(crate::specs::Reserved::control))]
fn is_control(indicator: &Indicator) -> bool
    ensures { result ≡ reserved.is_in reserved.control indicator.now }
{
    is_in(indicator, &CONTROL)
}

#[tactic(auto, unfolding(crate::specs::Reserved::of_terms))]
fn is_of_terms(indicator: &Indicator) -> bool
    ensures { result ≡ reserved.is_in reserved.of_terms indicator.now }
{
    is_in(indicator, &OF_TERMS)
}

#[tactic(auto, unfolding(crate::specs::Reserved::of_texts))]
fn is_of_texts(indicator: &Indicator) -> bool
    ensures { result ≡ reserved.is_in reserved.of_texts indicator.now }
{
    is_in(indicator, &OF_TEXTS)
}

#[tactic(auto, unfolding(crate::specs::Reserved::of_numbers))]
fn is_of_numbers(indicator: &Indicator) -> bool
    ensures { result ≡ reserved.is_in reserved.of_numbers indicator.now }
{
    is_in(indicator, &OF_NUMBERS)
}

#[tactic(auto, unfolding(crate::specs::Reserved::of_clauses))]
fn is_of_clauses(indicator: &Indicator) -> bool
    ensures { result ≡ reserved.is_in reserved.of_clauses indicator.now }
{
    is_in(indicator, &OF_CLAUSES)
}

fn is_in(indicator: &Indicator, rows: &[Row]) -> bool
    ensures { result ≡ list_any (λ row. list_any (λ name. same_indicator indicator.now (reserved.named row.0 name.now)) row.1.now) rows.now }
{
    rows.iter().any(|row| is_one_of(indicator, row.0, row.1))
}

fn is_one_of(indicator: &Indicator, arity: u32, names: &[&str]) -> bool
    ensures { result ≡ list_any (λ name. same_indicator indicator.now (reserved.named arity name.now)) names.now }
{
    names.iter().any(|name| indicator.name.bytes() == name.as_bytes() && indicator.arity == arity)
}

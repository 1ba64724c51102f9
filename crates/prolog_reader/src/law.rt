// What the grammar by cases, the rules and the read-terms of a text have in common.
ghost use Rattle.std.specs.Prelude.{◌≡◌, ℕ, List, []};
ghost use Rattle.prolog_terms.specs.Tree.{Tree, none, more};
ghost use Rattle.prolog_terms.specs.Operators.{Table};
ghost use Rattle.prolog_lexer.specs.declared.token.Token.{Token};
ghost use Rattle.prolog_lexer.specs.Streams.{Stream};
ghost use Rattle.prolog_reader.specs.declared.rule.Fault.{Fault};
ghost use Rattle.prolog_reader.specs.Numberings.{Numbering, no_variables};
ghost use Rattle.prolog_reader.specs.Grammar.{Found, read};
ghost use Rattle.prolog_reader.specs.Reads.{Reads};
ghost use Rattle.prolog_reader.specs.Stops.{StopsAt};
ghost use Rattle.prolog_reader.specs.Texts.{program, after_answer, read_of, tail};

/// What the rules read is what reads as a term by the cases of the grammar: each such term is found, and what is found is
/// such a term. Where the rules stop at a fault nothing reads as a term, and no tokens read as two terms.
pub fn reads_by_cases()
    ensures found { (ops : Table) (ts : List Token) (q : ℕ) (t : Tree) (ws : Numbering) → Reads ops 1200 ts no_variables q t [] ws → read ops ts ≡ Ok (record { terms = more t none; variables = ws }) }
    ensures had { (ops : Table) (ts : List Token) (x : Found) → read ops ts ≡ Ok x → (q : ℕ) × (t : Tree) × Reads ops 1200 ts no_variables q t [] x.variables × (x.terms ≡ more t none) }
    ensures refused { (ops : Table) (ts : List Token) (f : Fault) (q : ℕ) (t : Tree) (ws : Numbering) → read ops ts ≡ Err f → Reads ops 1200 ts no_variables q t [] ws → ⊥ }
    ensures once { (ops : Table) (ts : List Token) (p q : ℕ) (t u : Tree) (ws xs : Numbering) → Reads ops 1200 ts no_variables p t [] ws → Reads ops 1200 ts no_variables q u [] xs → t ≡ u }
{}

/// Tokens that the rules refuse are those that stop being read, by cases, at a first token at which no rule applies, and with
/// the fault of that case; they stop with one fault only.
pub fn faults_by_cases()
    ensures refused { (ops : Table) (ts : List Token) (f : Fault) (xs : List Token) → StopsAt ops ts f xs → read ops ts ≡ Err f }
    ensures stops { (ops : Table) (ts : List Token) (f : Fault) → read ops ts ≡ Err f → (xs : List Token) × StopsAt ops ts f xs }
    ensures once { (ops : Table) (ts : List Token) (f g : Fault) (xs ys : List Token) → StopsAt ops ts f xs → StopsAt ops ts g ys → f ≡ g }
{}

/// The read-terms of a text are those that are read at its front one after the other, up to its end or the first one that
/// is refused.
pub fn program_by_parts()
    ensures { (ops : Table) (s : Stream) → program ops s ≡ after_answer (read_of ops s) (program ops (tail s).rest) }
{}

// What the clause of a term is.
ghost use Rattle.std.specs.Prelude.{◌≡◌};
ghost use Rattle.prolog_terms.specs.Tree.{Tree};
ghost use Rattle.prolog_terms.specs.Clauses.{IsClause};
ghost use Rattle.prolog_terms.specs.declared.entry.Clause.{Clause};
ghost use Rattle.prolog_clauses.specs.declared.clause.Formed.TheVariants.{Clause as Made};
ghost use Rattle.prolog_clauses.specs.Formed.{clause_of, parts_of, IsRenaming};

/// What a term gives is a clause, and is the term's head and body with `call` of each variable that stands as a goal, and
/// other numbers for their variables, no two of which get the same. It is the only such clause.
pub fn clauses_are_renamings()
    ensures clause { (t : Tree) (c : Clause) → clause_of t ≡ Made c → IsClause c }
    ensures renaming { (t : Tree) (c : Clause) → clause_of t ≡ Made c → IsRenaming (parts_of t) c }
    ensures only { (t : Tree) (c d : Clause) → clause_of t ≡ Made c → IsClause d → IsRenaming (parts_of t) d → d ≡ c }
{}

// Laws of keys, codes and sizes.

ghost use Rattle.call_patterns.specs.Agreement.{agreeing};
ghost use Rattle.call_patterns.specs.Codes.{hash, key_code};
ghost use Rattle.call_patterns.specs.Examples.{HasRows};
ghost use Rattle.call_patterns.specs.Laws.{SizesByCounts, WorkedSizes};
ghost use Rattle.call_patterns.specs.Matching.{OneTermsMatch};
ghost use Rattle.call_patterns.specs.Patterns.{pattern, pattern_codes};
ghost use Rattle.call_patterns.specs.Rows.{bucket, names, rows};
ghost use Rattle.call_patterns.specs.Candidates.{candidates, head_agrees};
ghost use Rattle.journals.specs.Journal.{Journal, alive, clause_named};
ghost use Rattle.call_patterns.specs.Keys.{GoalKeys, Key, same_key};
ghost use Rattle.std.specs.Prelude.{[], filter, length, true, ℕ, ◌∷◌, ◌≡◌};

/// The hash of the one byte `a` is the published one.
pub fn published_check()
    ensures { hash (97 ∷ []) ≡ 0xaf63dc4c8601ec8c }
{}

/// Keys that agree have one code.
pub fn equal_keys_have_equal_codes()
    ensures { (left right : Key) → same_key left right ≡ true → key_code left ≡ key_code right }
{}

/// The candidates of a call are those clauses of the bucket of its codes whose heads could match it, in the bucket's order;
/// so none is lost. Where the call's pattern is empty, the bucket has every clause alive.
pub fn candidates_are_in_the_bucket()
    ensures candidates { (journal : Journal) (procedure : ℕ) (goal : GoalKeys)
        → candidates journal procedure goal ≡ filter (λ k. head_agrees goal (clause_named journal k)) (names (bucket (rows journal procedure) (pattern goal) (pattern_codes goal))) }
    ensures all { (journal : Journal) (procedure : ℕ) (goal : GoalKeys)
        → pattern goal ≡ [] → agreeing journal procedure goal ≡ length (alive journal procedure) }
{}

/// A head that some substitution makes one with an instance of a goal could match it, so the choice of clauses loses no
/// answer.
pub fn heads_that_unify_could_match()
    ensures { OneTermsMatch }
{}

/// Worked sizes of trees, computed by the checker.
pub fn worked_sizes()
    ensures { WorkedSizes }
{}

/// The sizes of trees by how many rows and distinct codes there are: of no rows, at no position, and at one or two positions
/// where each row has a code.
pub fn sizes_by_counts()
    ensures { SizesByCounts }
{}

/// Worked keys and candidates, computed by the checker.
pub fn worked_keys()
    ensures { HasRows }
{}

// Laws of what stores show.
ghost use Rattle.term_store.specs.Laws.{BuiltStays, TermStays, FreeIsItself, NewIsFree, UnifiedTerms, MarkStays, BackIsBack, MarkIsRestored, TermsHaveArities};

/// What holds of any stores, by what they show.
pub fn store_laws()
    ensures built { BuiltStays }
    ensures term { TermStays }
    ensures free { FreeIsItself }
    ensures new_free { NewIsFree }
    ensures unified { UnifiedTerms }
    ensures mark { MarkStays }
    ensures back { BackIsBack }
    ensures restored { MarkIsRestored }
    ensures arities { TermsHaveArities }
{}

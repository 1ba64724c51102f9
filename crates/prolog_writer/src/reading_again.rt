// What the text of pieces is read as.
ghost use Rattle.std.specs.Prelude.{◌≡◌, ◌<◌, ◌≤◌, ◌+◌, ◌^◌, ◌++◌, ◌∷◌, [], ℕ, List, Bool, false, true, codes, length, None};
ghost use Rattle.std.specs.Fmt.{decimal};
ghost use Rattle.prolog_lexer.specs.declared.token.TokenKind.TheVariants.{Name, Variable, Integer};
ghost use Rattle.prolog_lexer.specs.Pieces.{is_break};
ghost use Rattle.prolog_lexer.specs.Streams.{stream};
ghost use Rattle.prolog_terms.specs.Tree.{Tree, HasArities, HasWholes};
ghost use Rattle.prolog_terms.specs.Operators.{Table, IsTable};
ghost use Rattle.prolog_terms.specs.Substitutions.{numbered, variable_count};
ghost use Rattle.prolog_reader.specs.Numberings.{Numbering, no_variables, shown_of};
ghost use Rattle.prolog_reader.specs.Reads.{Reads};
ghost use Rattle.prolog_writer.specs.declared.style.Style.{Style};
ghost use Rattle.prolog_writer.specs.declared.shape.Place.TheVariants.{Within};
ghost use Rattle.prolog_writer.specs.Pieces.{pieces, written};
ghost use Rattle.prolog_writer.specs.Again.{IsLawful, IsReadAgain};
ghost use Rattle.prolog_writer.specs.Tokens.{lexemes};
ghost use Rattle.prolog_writer.specs.Told.{told, as_told};
ghost use Rattle.prolog_writer.specs.Spelling.{has_quotes, stands_alone, name_text, variable_text};
ghost use Rattle.prolog_writer.specs.Spaces.{Piece, text_of};
ghost use Rattle.prolog_writer.specs.Lexemes.{Lexeme, lexeme, Spells, AllSpell, tokens_of, followed, end_at, lexemes_of_name};

/// The text of pieces, each of which is spelled as its tokens, with ` .` and then the end of the text, layout or `%` behind it,
/// has these tokens, an End and what is behind, at each place of a text: no two pieces run together, and no space stands
/// within one.
pub fn texts_have_tokens()
    ensures { (ps : List Piece) (xss : List (List Lexeme)) → AllSpell ps xss → (at line : ℕ) (later : List ℕ) → is_break later ≡ true
        → stream 0 at line (text_of ps ++ (codes " ." ++ later)) ≡ followed (tokens_of line None at ps xss (end_at (at + length (text_of ps) + 1) line ∷ [])) (stream 0 (at + length (text_of ps) + 2) line later) }
{
    prolog_lexer::tokens_by_cases();
}

/// A name is spelled as one token that means its bytes, between quotes or, where it stands alone, without; `[]` and `{}` are
/// two marks. An integer of 64 bits and a variable are spelled as their tokens.
pub fn parts_have_tokens()
    ensures names { (quoted : Bool) (name : List ℕ) → (quoted ≡ false → stands_alone name ≡ true) → Spells (name_text quoted name) (lexemes_of_name quoted name) }
    ensures numbers { (n : ℕ) → n ≤ 0x8000_0000_0000_0000 → Spells (decimal n) (lexeme (Integer n) (length (decimal n)) ∷ []) }
    ensures negatives { (n : ℕ) → n ≤ 0x8000_0000_0000_0000 → Spells (45 ∷ decimal n) (lexeme (Name (codes "-")) 1 ∷ lexeme (Integer n) (length (decimal n)) ∷ []) }
    ensures variables { (n : ℕ) → n < 2 ^ 64 → Spells (variable_text n) (lexeme (Variable (variable_text n)) (length (variable_text n)) ∷ []) }
{}

/// The text of a term, Quoted or Canonical, has the tokens of its pieces, wherever it stands with ` .` behind it.
pub fn terms_have_tokens()
    ensures { (ops : Table) (style : Style) (max : ℕ) (t : Tree) → has_quotes style ≡ true → HasWholes t → (at line : ℕ) (later : List ℕ) → is_break later ≡ true
        → stream 0 at line (written ops style max t ++ (codes " ." ++ later))
        ≡ followed (tokens_of line None at (pieces ops style (Within max) t) (lexemes ops style (Within max) t) (end_at (at + length (written ops style max t) + 1) line ∷ [])) (stream 0 (at + length (written ops style max t) + 2) line later) }
{
    texts_have_tokens();
}

/// A table that declarations make has the comma as it is at first, no operators `[]` and `{}`, no operand of a priority above
/// its operator's, and no name that is both infix and postfix.
pub fn tables_are_lawful()
    ensures { (ops : Table) → IsTable ops → IsLawful ops }
{}

/// Variables that are written by their numbers are numbered by first occurrence when they are read, and none is shown.
pub fn variables_are_numbered()
    ensures terms { (t : Tree) → HasWholes t → as_told t no_variables ≡ numbered t }
    ensures count { (t : Tree) → HasWholes t → (told t no_variables).count ≡ variable_count t }
    ensures shown { (t : Tree) → HasWholes t → shown_of (told t no_variables).known ≡ [] }
{}

/// The tokens of a term, Quoted or Canonical, read as the term, each variable by the name that it is written with, from each
/// place in each line on.
pub fn terms_read()
    ensures { (ops : Table) (style : Style) (max : ℕ) (t : Tree) (vs : Numbering) → IsLawful ops → has_quotes style ≡ true → HasArities t → HasWholes t → (at line : ℕ)
        → (q : ℕ) × Reads ops 1200 (tokens_of line None at (pieces ops style (Within max) t) (lexemes ops style (Within max) t) []) vs q (as_told t vs) [] (told t vs) }
{}

/// A term that is written with quotes, under a table that declarations make, and followed by ` .`, is read again as the same
/// term, its variables numbered by first occurrence, wherever it stands in a text and whatever stands behind it; what is left
/// then is what stands behind the ` .`.
pub fn written_is_read_again()
    ensures { IsReadAgain }
{
    terms_read();
    terms_have_tokens();
    variables_are_numbered();
    tables_are_lawful();
    prolog_reader::reads_by_cases();
}

// What the tokens of a text are, by cases.
ghost use Rattle.std.specs.Prelude.{◌≡◌, ℕ, ◌+◌, List, length};
ghost use Rattle.prolog_lexer.specs.declared.token.Token.{Token};
ghost use Rattle.prolog_lexer.specs.Streams.{stream};
ghost use Rattle.prolog_lexer.specs.Tokens.{Tokens, Ending, stream_of, listed, ending, AreApart};

/// The lexer's tokens from any place of a text on, in any line, and how they end, are those that the bytes there have by
/// cases, and no others. They stand in order and apart, and within the text.
pub fn tokens_by_cases()
    ensures given { (at line : ℕ) (bytes : List ℕ) (ts : List Token) (e : Ending) → Tokens at line bytes ts e → stream 0 at line bytes ≡ stream_of ts e }
    ensures had { (at line : ℕ) (bytes : List ℕ) → Tokens at line bytes (listed (stream 0 at line bytes)) (ending (stream 0 at line bytes)) }
    ensures once { (at line : ℕ) (bytes : List ℕ) (ts us : List Token) (e f : Ending) → Tokens at line bytes ts e → Tokens at line bytes us f → (ts ≡ us) × (e ≡ f) }
    ensures apart { (at line : ℕ) (bytes : List ℕ) (ts : List Token) (e : Ending) → Tokens at line bytes ts e → AreApart at (at + length bytes) ts }
{}

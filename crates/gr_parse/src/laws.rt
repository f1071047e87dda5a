//! What the answers of the parser are worth: a text has one of them.

ghost use Rattle.std.specs.Prelude.{◌≡◌, ℕ, List};
ghost use Rattle.gr_syntax.specs.declared.syntax.Program.{Program};
ghost use Rattle.gr_text.specs.Text.{AreTokens};
ghost use Rattle.gr_text.specs.declared.token.Token.{Token};
ghost use Rattle.gr_parse.specs.declared.fault.ParseError.{ParseError};
ghost use Rattle.gr_parse.specs.Grammar.{IsProgramOf, IsFault};

/// States that at most one program is a text's, that at most one place of a text is its first fault, and
/// that no text has both.
pub fn answers_are_unique()
    ensures program { (text : List ℕ) (tokens : List Token) (one other : Program)
        → IsProgramOf text tokens one → IsProgramOf text tokens other → one ≡ other }
    ensures fault { (text : List ℕ) (tokens : List Token) (one two : ParseError)
        → AreTokens text tokens → IsFault one text tokens → IsFault two text tokens → one ≡ two }
    ensures apart { (text : List ℕ) (tokens : List Token) (error : ParseError) (program : Program)
        → AreTokens text tokens → IsFault error text tokens → IsProgramOf text tokens program → ⊥ }
{}

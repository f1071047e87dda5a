//! Which programs the contract of printing speaks of, and which texts it compares with.

ghost use Rattle.std.specs.Prelude.{◌≡◌, ℕ, List, Ok};
ghost use Rattle.gr_syntax.specs.declared.syntax.Program.{Program};
ghost use Rattle.gr_text.specs.Text.{Reads};
ghost use Rattle.gr_text.specs.declared.token.Token.{Token};
ghost use Rattle.gr_expressions.specs.Tok.{toks};
ghost use Rattle.gr_parse.specs.Grammar.{IsProgramOf};
ghost use Rattle.gr_print.specs.Printed.{IsSpelled, IsSpelling, ReadsBack};

/// States that the tokens of each text that is read as a program, but for places, are a spelling of the
/// program, and that each program that a text is read as is spelled.
pub fn texts_are_spellings()
    ensures spelling { (text : List ℕ) (program : Program) (back : ReadsBack text program)
        → IsSpelling (toks text back.spelled.front) program }
    ensures spelled { (text : List ℕ) (tokens : List Token) (program : Program)
        → Reads text (Ok tokens) → IsProgramOf text tokens program → IsSpelled program }
{}

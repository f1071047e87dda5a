//! Laws of tokens. The functions do nothing: what they tell is their contracts.

ghost use Rattle.std.specs.Prelude.{◌≡◌, length, true};
ghost use Rattle.gr_syntax.specs.Names.{is_name};
ghost use Rattle.gr_text.specs.Text.{Fits, IsToken, Text};
ghost use Rattle.gr_text.specs.declared.token.TokenKind.TheVariants as kind;

/// States that the tokens which are names are the names of the language, and no others.
pub fn names_are_names()
    ensures named { (bytes : Text) → IsToken kind.Name bytes → Fits kind.Name (length bytes)
        → is_name bytes ≡ true }
    ensures token { (bytes : Text) → is_name bytes ≡ true → IsToken kind.Name bytes }
    ensures fits { (bytes : Text) → is_name bytes ≡ true → Fits kind.Name (length bytes) }
{}

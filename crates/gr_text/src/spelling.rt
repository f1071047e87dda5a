//! How keywords and signs are written.
ghost use Rattle.std.specs.Prelude.{◌≡◌, ◌≢◌, length, MatchOption};
ghost use Rattle.gr_text.specs.Spelling.{keyword_bytes, sign_bytes};
ghost use Rattle.gr_text.specs.declared.token.Keyword.{Keyword};

use crate::token::{Keyword, Sign};

impl Keyword {
    /// The word as a text writes it.
    pub fn text(self) -> &'static str
        ensures { result.now ≡ keyword_bytes self }
    {
        match self {
            Keyword::Array => "array",
            Keyword::Set => "set",
            Keyword::Map => "map",
            Keyword::Vector => "vector",
            Keyword::Heap => "heap",
            Keyword::Input => "input",
            Keyword::Show => "show",
            Keyword::Task => "task",
            Keyword::Let => "let",
            Keyword::If => "if",
            Keyword::Else => "else",
            Keyword::While => "while",
            Keyword::Print => "print",
            Keyword::Spawn => "spawn",
            Keyword::At => "at",
            Keyword::Offer => "offer",
            Keyword::Finish => "finish",
            Keyword::Forall => "forall",
            Keyword::Grain => "grain",
        }
    }
}

impl Sign {
    /// The sign as a text writes it.
    pub fn text(self) -> &'static str
        ensures { result.now ≡ sign_bytes self }
    {
        match self {
            Sign::LeftParen => "(",
            Sign::RightParen => ")",
            Sign::LeftBrace => "{",
            Sign::RightBrace => "}",
            Sign::LeftBracket => "[",
            Sign::RightBracket => "]",
            Sign::Semicolon => ";",
            Sign::Comma => ",",
            Sign::Dot => ".",
            Sign::DotDot => "..",
            Sign::Assign => "=",
            Sign::EqualEqual => "==",
            Sign::BangEqual => "!=",
            Sign::Less => "<",
            Sign::LessEqual => "<=",
            Sign::Greater => ">",
            Sign::GreaterEqual => ">=",
            Sign::Plus => "+",
            Sign::Minus => "-",
            Sign::Star => "*",
            Sign::Slash => "/",
            Sign::Percent => "%",
            Sign::Ampersand => "&",
            Sign::Bar => "|",
            Sign::Caret => "^",
            Sign::Bang => "!",
        }
    }
}

/// The keyword that a text writes so.
pub fn keyword(word: &[u8]) -> Option<Keyword>
    ensures { MatchOption result
        ((k : Keyword) → word.now ≢ keyword_bytes k) (λ k. word.now ≡ keyword_bytes k) }
{
    let keywords = [
        Keyword::Array,
        Keyword::Set,
        Keyword::Map,
        Keyword::Vector,
        Keyword::Heap,
        Keyword::Input,
        Keyword::Show,
        Keyword::Task,
        Keyword::Let,
        Keyword::If,
        Keyword::Else,
        Keyword::While,
        Keyword::Print,
        Keyword::Spawn,
        Keyword::At,
        Keyword::Offer,
        Keyword::Finish,
        Keyword::Forall,
        Keyword::Grain,
    ];
    'each: for keyword in keywords {
        if word == keyword.text().as_bytes() {
            return Some(keyword);
        }
    }
    None
}

//! What a token is.
ghost use Rattle.std.specs.Prelude.{◌≡◌, [], ◌∷◌, ◌++◌, length, OnOk, OnErr};

use gr_syntax::Place;
use std::alloc::{AllocError, Global};
use std::marker::Model;

/// A word of the language, which can't be a name.
#[derive(Clone, Copy, PartialEq, Eq)]
pub enum Keyword {
    Array,
    Set,
    Map,
    Vector,
    Heap,
    Input,
    Show,
    Task,
    Let,
    If,
    Else,
    While,
    Print,
    Spawn,
    At,
    Offer,
    Finish,
    Forall,
    Grain,
}

/// A sign of the language.
#[derive(Clone, Copy, PartialEq, Eq)]
pub enum Sign {
    /// `(`
    LeftParen,
    /// `)`
    RightParen,
    /// `{`
    LeftBrace,
    /// `}`
    RightBrace,
    /// `[`
    LeftBracket,
    /// `]`
    RightBracket,
    /// `;`
    Semicolon,
    /// `,`
    Comma,
    /// `.`
    Dot,
    /// `..`
    DotDot,
    /// `=`
    Assign,
    /// `==`
    EqualEqual,
    /// `!=`
    BangEqual,
    /// `<`
    Less,
    /// `<=`
    LessEqual,
    /// `>`
    Greater,
    /// `>=`
    GreaterEqual,
    /// `+`
    Plus,
    /// `-`
    Minus,
    /// `*`
    Star,
    /// `/`
    Slash,
    /// `%`
    Percent,
    /// `&`
    Ampersand,
    /// `|`
    Bar,
    /// `^`
    Caret,
    /// `!`
    Bang,
}

/// What a token is, with a number's value.
#[derive(Clone, Copy, PartialEq, Eq)]
pub enum TokenKind {
    /// A name, which is the bytes of the token's span.
    Name,
    /// A number, of this value.
    Number { value: u64 },
    /// A keyword.
    Keyword { word: Keyword },
    /// A sign.
    Sign { sign: Sign },
    /// The end of the text, which is the last token of each text.
    End,
}

/// A token: its kind, the place in bytes where it starts and the one behind its last byte, and the line
/// and column of its start.
#[derive(Clone, Copy, PartialEq, Eq)]
pub struct Token {
    pub kind: TokenKind,
    pub from: u64,
    pub to: u64,
    pub at: Place,
}

/// A list of tokens.
#[derive(Drop)]
pub struct Tokens {
    items: Vec<Token>,
}

impl Model for Tokens {
    ghost use Rattle.std.specs.Prelude.{List};
    ghost use Rattle.gr_text.specs.declared.token.Token.{Token};

    ghost Value = { List Token };

    ghost view = { λ t. t.items.items };
}

impl Tokens {
    /// No tokens.
    pub fn new(alloc: Global) -> Tokens
        ensures { result ≡ [] }
    {
        Tokens {
            items: Vec::new(alloc),
        }
    }

    /// The tokens, lent.
    pub fn as_slice(&self) -> &[Token]
        ensures { result.now ≡ self.now }
    {
        self.items.as_slice()
    }

    /// Puts a token last. Unchanged where there is no memory.
    pub fn push(&mut self, token: Token) -> Result<(), AllocError>
        ensures ok { OnOk result (self.new ≡ self.old ++ token ∷ []) }
        ensures err { OnErr result (self.new ≡ self.old) }
    {
        self.items.push(token)?;
        Ok(())
    }
}

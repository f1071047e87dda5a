//! The syntax tree of a program. Each name and number keeps its place in the text.
ghost use Rattle.std.specs.Prelude.{◌≡◌, string_bytes};
ghost use Rattle.std.specs.Str.{bytes_eq};

use sqlite_items::{Boxed, Items};
use std::marker::Model;

/// A place in a source text. Lines and columns count from 1, and a column counts bytes.
#[derive(Clone, Copy, Debug, PartialEq, Eq)]
pub struct Place {
    pub line: u64,
    pub column: u64,
}

/// A string that contracts see as its bytes.
#[derive(Drop)]
pub struct Text {
    text: String,
}

impl Model for Text {
    ghost use Rattle.std.specs.Prelude.{List, ℕ, string_bytes};

    ghost Value = { List ℕ };

    ghost view = { λ t. string_bytes t.text };
}

impl Text {
    /// The text that holds this string.
    pub fn new(text: String) -> Text
        ensures { result ≡ string_bytes text }
    {
        Text { text }
    }

    /// The string, lent.
    pub fn as_str(&self) -> &str
        ensures { result.now ≡ self.now }
    {
        self.text.as_str()
    }

    /// The bytes, lent.
    pub fn as_bytes(&self) -> &[u8]
        ensures { result.now ≡ self.now }
    {
        self.text.as_bytes()
    }

    /// Whether both have the same bytes.
    pub fn is(&self, other: &Text) -> bool
        ensures { result ≡ bytes_eq self.now other.now }
    {
        self.text == other.text
    }

    /// Whether this is the given word.
    pub fn is_word(&self, word: &str) -> bool
        ensures { result ≡ bytes_eq self.now word.now }
    {
        self.text.as_str() == word
    }
}

/// A name as it stands in the text: a letter or `_`, then letters, digits or `_`, at most 32 bytes.
#[derive(Drop)]
pub struct Name {
    pub text: Text,
    pub at: Place,
}

/// A number as it stands in the text.
#[derive(Clone, Copy, Debug, PartialEq, Eq)]
pub struct Number {
    pub value: u64,
    pub at: Place,
}

/// The binary signs of expressions, from the loosest to the tightest.
#[derive(Clone, Copy, Debug, PartialEq, Eq)]
pub enum BinOp {
    /// `==`
    Eq,
    /// `!=`
    Ne,
    /// `<`
    Lt,
    /// `<=`
    Le,
    /// `>`
    Gt,
    /// `>=`
    Ge,
    /// `|`
    Or,
    /// `^`
    Xor,
    /// `&`
    And,
    /// `+`, which wraps at 2^64
    Add,
    /// `-`, which wraps at 2^64
    Sub,
    /// `*`, which wraps at 2^64
    Mul,
    /// `/`
    Div,
    /// `%`
    Rem,
}

/// An expression over words.
#[derive(Drop)]
pub enum Expr {
    /// A number.
    Lit {
        number: Number,
    },
    /// A local of the task.
    Local {
        name: Name,
    },
    /// `!`: 1 where the inner word is 0, else 0.
    Not {
        inner: Boxed<Expr>,
    },
    /// Two operands, evaluated from left to right, with a binary sign between them.
    Two {
        op: BinOp,
        left: Boxed<Expr>,
        right: Boxed<Expr>,
    },
}

/// A list of names.
pub type Names = Items<Name>;

/// A list of numbers.
pub type Numbers = Items<Number>;

/// A list of expressions.
pub type Exprs = Items<Expr>;

/// The statements between two braces.
pub type Block = Items<Stmt>;

/// A call of an object's operation, as `m.merge max (k, w)`. The heap is the object of the name `heap`.
#[derive(Drop)]
pub struct CallText {
    pub object: Name,
    pub op: Name,
    pub reducer: Option<Name>,
    pub args: Exprs,
}

/// What stands right of `=`.
#[derive(Drop)]
pub enum Right {
    /// An expression, for one target.
    Value { value: Expr },
    /// A call, whose result words are for one or two targets.
    Result { call: CallText },
}

/// Where a new task may run.
#[derive(Drop)]
pub enum HowText {
    /// `spawn`: at the core of the task that spawns it.
    Here,
    /// `spawn at`: at the core with this number.
    At { core: Expr },
    /// `offer`: wherever a core asks for work.
    Offer,
}

/// A statement.
#[derive(Drop)]
pub enum Stmt {
    /// An assignment. `fresh` is true after `let`.
    Set1 {
        fresh: bool,
        targets: Names,
        right: Right,
    },
    /// A call whose result words are dropped.
    Do {
        call: CallText,
    },
    /// `print`
    Print {
        value: Expr,
    },
    /// `if`; a missing `else` is an empty block.
    If {
        test: Expr,
        yes: Block,
        no: Block,
    },
    /// `while`
    While {
        test: Expr,
        body: Block,
    },
    /// `finish`: waits at its end for all tasks that were started in it.
    Finish {
        body: Block,
    },
    /// `spawn`, `spawn at` or `offer`
    Spawn {
        how: HowText,
        target: Name,
        args: Exprs,
    },
    /// `forall lo .. hi grain g task(args)`
    Forall {
        lo: Expr,
        hi: Expr,
        grain: Expr,
        target: Name,
        args: Exprs,
    },
}

/// An item of a program.
#[derive(Drop)]
pub enum Item {
    /// An array of as many words.
    Array {
        name: Name,
        words: Number,
    },
    /// A set of words.
    Set {
        name: Name,
    },
    /// A map from words to words.
    Map {
        name: Name,
    },
    /// A list of words with calls at both ends.
    Vector {
        name: Name,
    },
    /// The heap, with as many words.
    Heap {
        words: Number,
    },
    /// An object whose final contents are written.
    Show {
        name: Name,
    },
    /// The first words of an array.
    Input {
        name: Name,
        values: Numbers,
    },
    /// A task with its parameters.
    Task {
        name: Name,
        params: Names,
        body: Block,
    },
}

/// A program: its items in the order of the text, and the place where the text ends.
#[derive(Drop)]
pub struct Program {
    pub items: Items<Item>,
    pub end: Place,
}

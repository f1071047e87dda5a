//! Why a program text is refused, and where.
ghost use Rattle.std.specs.Prelude.{◌≡◌};
ghost use Rattle.gr_syntax.specs.Faults.{rank, words_of};

use crate::syntax::Place;

/// Why a program text is refused. The first three are found while the tokens are read, the next two by
/// the grammar and the ten after them by the checker.
#[derive(Clone, Copy, Debug, PartialEq, Eq)]
pub enum Kind {
    /// A byte outside comments that begins no token and is no white space.
    BadByte,
    /// A number above 2^64 - 1.
    NumberTooWide,
    /// A name of more than 32 bytes.
    NameTooLong,
    /// The first token after which nothing continues a program.
    Unexpected,
    /// The same, where it is the end of the text.
    UnexpectedEnd,
    /// No task is named `main`.
    NoMain,
    /// `main` has a parameter.
    MainHasParams,
    /// A name that is taken already.
    Duplicate,
    /// A name that nothing has, or a local that isn't visible.
    Unknown,
    /// A task for an object, an object for a task, or an operation of another kind of object.
    WrongKind,
    /// Another number of arguments, targets or reducers than the operation or task takes.
    WrongArity,
    /// One task, object, local or parameter more than is allowed.
    TooMany,
    /// Arrays and heap have more than 2^24 words together.
    HeapTooLarge,
    /// More numbers than the array has words.
    InputTooLong,
    /// Numbers for a name that is no array.
    InputUnknown,
}

impl Kind {
    /// The words that a refusal of this kind is written with.
    pub fn words(self) -> &'static str
        ensures { result.now ≡ words_of self }
    {
        match self {
            Kind::BadByte => "bad byte",
            Kind::NumberTooWide => "number too wide",
            Kind::NameTooLong => "name too long",
            Kind::Unexpected => "unexpected",
            Kind::UnexpectedEnd => "unexpected end",
            Kind::NoMain => "no main",
            Kind::MainHasParams => "main has parameters",
            Kind::Duplicate => "duplicate name",
            Kind::Unknown => "unknown name",
            Kind::WrongKind => "wrong kind",
            Kind::WrongArity => "wrong number",
            Kind::TooMany => "too many",
            Kind::HeapTooLarge => "heap too large",
            Kind::InputTooLong => "input too long for its array",
            Kind::InputUnknown => "input of no array",
        }
    }

    /// The kind's place among the conditions: of two faults at one place the one of the lower rank is
    /// reported.
    pub fn rank(self) -> u8
        ensures { result ≡ rank self }
    {
        match self {
            Kind::BadByte => 1,
            Kind::NumberTooWide => 2,
            Kind::NameTooLong => 3,
            Kind::Unexpected => 4,
            Kind::UnexpectedEnd => 5,
            Kind::NoMain => 6,
            Kind::MainHasParams => 7,
            Kind::Duplicate => 8,
            Kind::Unknown => 9,
            Kind::WrongKind => 10,
            Kind::WrongArity => 11,
            Kind::TooMany => 12,
            Kind::HeapTooLarge => 13,
            Kind::InputTooLong => 14,
            Kind::InputUnknown => 15,
        }
    }
}

/// A condition that holds at a place.
#[derive(Clone, Copy, Debug, PartialEq, Eq)]
pub struct Fault {
    pub kind: Kind,
    pub at: Place,
}

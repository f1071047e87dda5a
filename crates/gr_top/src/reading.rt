//! From a text to an accepted program, or to its first fault.
ghost use Rattle.std.specs.Prelude.{◌≡◌, true, IfOk, IsErr, Ok};
ghost use Rattle.gr_syntax.specs.Targets.{targets_fit};
ghost use Rattle.gr_parse.specs.Grammar.{IsProgramOf, Says};
ghost use Rattle.gr_text.specs.Text.{Reads, IsFaultOf};
ghost use Rattle.gr_top.specs.AnswerView.{reading_of};
ghost use Rattle.gr_top.specs.Readings.{ReadsAs};

use gr_accept::Accepted;
use gr_checker::{CheckError, check};
use gr_parse::{ParseError, parse};
use gr_syntax::{Fault, Kind, Place, Program};
use gr_text::{TextError, Tokens, place, tokens};
use std::alloc::{AllocError, Global};

/// What a text reads as.
#[derive(Drop)]
pub(crate) enum TextRead {
    /// An accepted program.
    Accepted { program: Accepted },
    /// No accepted program: the first fault.
    Refused { fault: Fault },
}

fn refused(kind: Kind, at: Place) -> TextRead
    ensures { result ≡ TextRead.Refused (record { kind = kind; at = at }) }
{
    TextRead::Refused {
        fault: Fault { kind, at },
    }
}

/// The fault that was found while the tokens were read.
fn token_fault(text: &[u8], error: TextError) -> Result<TextRead, AllocError>
    requires { IsFaultOf text.now error }
    ensures reads { IfOk result (λ read. ReadsAs text.now (reading_of read)) }
    ensures memory { IsErr result → error ≡ TextError.OutOfMemory }
{
    match error {
        TextError::BadByte { at } => Ok(refused(Kind::BadByte, place(text, at))),
        TextError::NumberTooWide { at } => Ok(refused(Kind::NumberTooWide, place(text, at))),
        TextError::NameTooLong { at } => Ok(refused(Kind::NameTooLong, place(text, at))),
        TextError::OutOfMemory => Err(AllocError),
    }
}

/// The fault that was found by the grammar.
fn grammar_fault(text: &[u8], tokens: &Tokens, error: ParseError) -> Result<TextRead, AllocError>
    requires reads { Reads text.now (Ok tokens.now) }
    requires says { Says error text.now tokens.now }
    ensures reads { IfOk result (λ read. ReadsAs text.now (reading_of read)) }
    ensures memory { IsErr result → error ≡ ParseError.OutOfMemory }
{
    let _ = text;
    let _ = tokens;
    match error {
        ParseError::Unexpected { line, column } => {
            Ok(refused(Kind::Unexpected, Place { line, column }))
        }
        ParseError::UnexpectedEnd { line, column } => {
            Ok(refused(Kind::UnexpectedEnd, Place { line, column }))
        }
        ParseError::OutOfMemory => Err(AllocError),
    }
}

/// The fault that was found by the checker.
fn checker_fault(error: CheckError) -> Result<Fault, AllocError>
    ensures fault { IfOk result (λ f. error ≡ CheckError.Refused f.kind f.at.line f.at.column) }
    ensures memory { IsErr result → error ≡ CheckError.OutOfMemory }
{
    match error {
        CheckError::Refused { kind, line, column } => Ok(Fault {
            kind,
            at: Place { line, column },
        }),
        CheckError::OutOfMemory => Err(AllocError),
    }
}

/// The program that the text spells, where it is accepted, and else its first fault.
fn checked(
    alloc: Global,
    text: &[u8],
    tokens: &Tokens,
    program: Program,
) -> Result<TextRead, AllocError>
    requires reads { Reads text.now (Ok tokens.now) }
    requires spelled { IsProgramOf text.now tokens.now program }
    requires shaped { targets_fit program ≡ true }
    ensures { IfOk result (λ read. ReadsAs text.now (reading_of read)) }
{
    let _ = text;
    let _ = tokens;
    let checked = check(alloc, program);
    match checked {
        Ok(program) => Ok(TextRead::Accepted { program }),
        Err(error) => {
            let fault = checker_fault(error)?;
            Ok(TextRead::Refused { fault })
        }
    }
}

/// What the text reads as: tokens, then grammar, then checker.
pub(crate) fn read_text(alloc: Global, text: &[u8]) -> Result<TextRead, AllocError>
    ensures { IfOk result (λ read. ReadsAs text.now (reading_of read)) }
{
    let found = tokens(alloc, text);
    let tokens = match found {
        Ok(tokens) => tokens,
        Err(error) => return token_fault(text, error),
    };
    let parsed = parse(alloc, text, &tokens);
    match parsed {
        Ok(program) => checked(alloc, text, &tokens, program),
        Err(error) => grammar_fault(text, &tokens, error),
    }
}

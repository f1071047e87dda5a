//! The program of a text.

ghost use Rattle.std.specs.Prelude.{◌≡◌, ◌<◌, ◌^◌, true, length, IfOk, IfErr, MatchResult};
ghost use Rattle.gr_syntax.specs.declared.syntax.Program.{Program as ProgramValue};
ghost use Rattle.gr_syntax.specs.Targets.{targets_fit};
ghost use Rattle.gr_text.specs.Text.{AreTokens};
ghost use Rattle.gr_parse.specs.Grammar.{IsProgramOf, Says};
ghost use Rattle.gr_parse.specs.ReportsWords as reports;
ghost use Rattle.gr_parse.specs.ReportsWords.{IsWithin, Reports, Stands};

use crate::declarations::items;
use crate::fault::ParseError;
use gr_expressions::{Rest, Stop};
use gr_syntax::Program;
use gr_text::{Token, TokenKind, Tokens};
use std::alloc::Global;

/// The error where the first fault is at this token.
fn error_at(token: Token) -> ParseError
    ensures { result ≡ reports.error_at token }
{
    match token.kind {
        TokenKind::End => ParseError::UnexpectedEnd {
            line: token.at.line,
            column: token.at.column,
        },
        _ => ParseError::Unexpected {
            line: token.at.line,
            column: token.at.column,
        },
    }
}

/// The token behind which so many are left.
fn token_before(tokens: &[Token], left: usize) -> Token
    requires { left < length tokens.now }
    ensures stands { Stands result tokens.now left }
    ensures few { length tokens.now < 2 ^ 64 }
{
    tokens[tokens.len() - 1 - left]
}

/// The error that this stop comes to.
fn report(tokens: &[Token], stop: Stop) -> ParseError
    requires { IsWithin stop (length tokens.now) }
    ensures reports { Reports stop tokens.now result }
    ensures few { length tokens.now < 2 ^ 64 }
{
    match stop {
        Stop::OutOfMemory => ParseError::OutOfMemory,
        Stop::Fault { left } => error_at(token_before(tokens, left)),
    }
}

/// Reads the program that the tokens of a text spell.
///
/// The program is the one that the grammar gives the text. Each of its assignments has as many targets as
/// the grammar allows. The error names the line and the column of the first token with which no program
/// goes on, or those of the end of the text where a program would have to go on, counted from 1. There may
/// be no memory.
pub fn parse(alloc: Global, text: &[u8], tokens: &Tokens) -> Result<Program, ParseError>
    requires { AreTokens text.now tokens.now }
    ensures found { IfOk result (λ program. IsProgramOf text.now tokens.now program) }
    ensures only { (program : ProgramValue) → IsProgramOf text.now tokens.now program
        → MatchResult result (λ found. found ≡ program) (λ e. e ≡ ParseError.OutOfMemory) }
    ensures fault { IfErr result (λ error. Says error text.now tokens.now) }
    ensures shaped { IfOk result (λ program. targets_fit program ≡ true) }
{
    let all = tokens.as_slice();
    let last = all.len() - 1;
    let read = items(alloc, Rest::new(text, &all[..last]));
    match read {
        Ok(items) => Ok(Program {
            items,
            end: token_before(all, 0).at,
        }),
        Err(stop) => Err(report(all, stop)),
    }
}

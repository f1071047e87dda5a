//! The tokenizer.
ghost use Rattle.std.specs.Prelude.{◌≡◌, ◌⊎◌, Ok, Err, length, drop, IfOk, IfErr, MatchResult};
ghost use Rattle.gr_text.specs.Text.{Outcome, Reads, IsFaultOf, AreTokens};
ghost use Rattle.gr_text.specs.declared.fault.TextError.TheVariants as faults;

use crate::fault::TextError;
use crate::front::{Front, classify, past};
use crate::placing::advance;
use crate::token::{Token, TokenKind, Tokens};
use gr_syntax::Place;
use std::alloc::Global;

/// The tokens of a text, the last of which is its end, or its first fault.
pub fn tokens(alloc: Global, text: &[u8]) -> Result<Tokens, TextError>
    ensures reads { IfOk result (λ found. Reads text.now (Ok found)) }
    ensures fault { IfErr result (λ error. IsFaultOf text.now error) }
    ensures only { (outcome : Outcome) → Reads text.now outcome → MatchResult result
        (λ found. outcome ≡ Ok found) (λ e. (e ≡ faults.OutOfMemory) ⊎ (outcome ≡ Err e)) }
    ensures well { IfOk result (λ found. AreTokens text.now found) }
{
    let mut found = Tokens::new(alloc);
    let mut at: u64 = 0;
    let mut place = Place { line: 1, column: 1 };
    let mut rest = text;
    'each: while !rest.is_empty() {
        match classify(rest) {
            Front::Blank { length } => {
                place = advance(place, rest, length);
                at += length as u64;
                rest = past(rest, length);
            }
            Front::Token { kind, length } => {
                let to = at + length as u64;
                found.push(Token {
                    kind,
                    from: at,
                    to,
                    at: place,
                })?;
                place = advance(place, rest, length);
                at = to;
                rest = past(rest, length);
            }
            Front::TooWide => return Err(TextError::NumberTooWide { at }),
            Front::TooLong => return Err(TextError::NameTooLong { at }),
            Front::Bad => return Err(TextError::BadByte { at }),
        }
    }
    found.push(Token {
        kind: TokenKind::End,
        from: at,
        to: at,
        at: place,
    })?;
    Ok(found)
}

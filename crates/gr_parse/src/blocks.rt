//! Statements and blocks.

ghost use Rattle.std.specs.Prelude.{◌≡◌, [], None};
ghost use Rattle.gr_meets.specs.Parsers as read;
ghost use Rattle.gr_text.specs.declared.token.Sign.TheVariants as signs;
ghost use Rattle.gr_expressions.specs.TokWords as tok;
ghost use Rattle.gr_expressions.specs.GivesWords.{Gives};
ghost use Rattle.gr_parse.specs.ParsingWords as spec;

use crate::starts::{heap_statement, named_statement, plain_statement};
use gr_expressions::{Rest, Stop, expr, make_heap_name};
use gr_syntax::{Block, Stmt};
use gr_text::{Keyword, Sign};
use sqlite_items::Items;
use std::alloc::Global;

/// A statement, with room for so many nestings.
#[cycle(statement)]
fn statement<'a>(alloc: Global, rest: Rest<'a>, depth: usize) -> Result<(Stmt, Rest<'a>), Stop>
    ensures { Gives (λ x. x) result (spec.statement spec.plenty depth rest.entry) }
{
    let ahead = rest.name_ahead(alloc)?;
    match ahead {
        Some(first) => named_statement(alloc, rest.next(), depth, first),
        None => word_statement(alloc, rest, depth),
    }
}

/// A statement that begins with a word of the language.
#[cycle(statement)]
fn word_statement<'a>(alloc: Global, rest: Rest<'a>, depth: usize) -> Result<(Stmt, Rest<'a>), Stop>
    ensures { Gives (λ x. x) result
        (spec.name_or spec.plenty depth (spec.block spec.plenty depth) None rest.entry) }
{
    let ahead = rest.heap_ahead();
    match ahead {
        Some(at) => {
            let object = make_heap_name(alloc, at)?;
            heap_statement(alloc, rest.next(), depth, object)
        }
        None => key_statement(alloc, rest, depth),
    }
}

/// A statement that begins with a keyword.
#[cycle(statement)]
#[tactic(auto, unfolding(crate::specs::ParsingWords::key_statement, crate::specs::ParsingWords::finish))]
fn key_statement<'a>(alloc: Global, rest: Rest<'a>, depth: usize) -> Result<(Stmt, Rest<'a>), Stop>
    ensures { Gives (λ x. x) result
        (spec.key_statement spec.plenty depth (spec.block spec.plenty depth) rest.entry) }
{
    if rest.sees_word(Keyword::If) {
        return if_statement(alloc, rest.next(), depth);
    }
    if rest.sees_word(Keyword::While) {
        return while_statement(alloc, rest.next(), depth);
    }
    if rest.sees_word(Keyword::Finish) {
        let (body, rest) = block(alloc, rest.next(), depth)?;
        return Ok((Stmt::Finish { body }, rest));
    }
    plain_statement(alloc, rest, depth)
}

/// A statement behind `if`.
#[cycle(statement)]
#[tactic(auto, unfolding(crate::specs::ParsingWords::if_statement))]
fn if_statement<'a>(alloc: Global, rest: Rest<'a>, depth: usize) -> Result<(Stmt, Rest<'a>), Stop>
    ensures { Gives (λ x. x) result
        (spec.if_statement depth (spec.block spec.plenty depth) rest.entry) }
{
    let (test, rest) = expr(alloc, rest, depth)?;
    let (yes, rest) = block(alloc, rest, depth)?;
    let (no, rest) = else_block(alloc, rest, depth)?;
    Ok((Stmt::If { test, yes, no }, rest))
}

/// The block behind `else`, or an empty one.
#[cycle(statement)]
#[tactic(auto, unfolding(crate::specs::ParsingWords::else_block))]
fn else_block<'a>(alloc: Global, rest: Rest<'a>, depth: usize) -> Result<(Block, Rest<'a>), Stop>
    ensures { Gives (λ x. x) result (spec.else_block (spec.block spec.plenty depth) rest.entry) }
{
    if rest.sees_word(Keyword::Else) {
        return block(alloc, rest.next(), depth);
    }
    Ok((Items::new(alloc), rest))
}

/// A statement behind `while`.
#[cycle(statement)]
#[tactic(auto, unfolding(crate::specs::ParsingWords::while_statement))]
fn while_statement<'a>(
    alloc: Global,
    rest: Rest<'a>,
    depth: usize,
) -> Result<(Stmt, Rest<'a>), Stop>
    ensures { Gives (λ x. x) result
        (spec.while_statement depth (spec.block spec.plenty depth) rest.entry) }
{
    let (test, rest) = expr(alloc, rest, depth)?;
    let (body, rest) = block(alloc, rest, depth)?;
    Ok((Stmt::While { test, body }, rest))
}

/// A block, with room for so many nestings.
#[cycle(statement)]
pub fn block<'a>(alloc: Global, rest: Rest<'a>, depth: usize) -> Result<(Block, Rest<'a>), Stop>
    ensures { Gives (λ x. x) result (spec.block spec.plenty depth rest.entry) }
{
    if depth == 0 {
        return Err(rest.refusal());
    }
    let rest = rest.expect(Sign::LeftBrace)?;
    let (body, rest) = statements(alloc, rest, depth - 1)?;
    let rest = rest.expect(Sign::RightBrace)?;
    Ok((body, rest))
}

/// Statements up to the closing brace.
#[cycle(statement)]
fn statements<'a>(
    alloc: Global,
    mut rest: Rest<'a>,
    depth: usize,
) -> Result<(Block, Rest<'a>), Stop>
    ensures { Gives (λ x. x) result
        (read.run (tok.is_sign signs.RightBrace) (spec.statement spec.plenty depth) spec.plenty [] rest.entry) }
{
    let mut found = Items::new(alloc);
    'each: while !rest.halts(Sign::RightBrace) {
        let (one, after) = statement(alloc, rest, depth)?;
        found.push(one)?;
        rest = after;
    }
    Ok((found, rest))
}

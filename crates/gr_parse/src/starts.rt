//! Statements without a block.

ghost use Rattle.std.specs.Prelude.{◌≡◌, List};
ghost use Rattle.gr_syntax.specs.declared.syntax.Name.{Name as NameValue};
ghost use Rattle.gr_syntax.specs.declared.syntax.Expr.{Expr as ExprValue};
ghost use Rattle.gr_syntax.specs.declared.syntax.HowText.TheVariants as hows;
ghost use Rattle.gr_syntax.specs.declared.syntax.Stmt.{Stmt as StmtValue};
ghost use Rattle.gr_syntax.specs.declared.syntax.Stmt.TheVariants as stmts;
ghost use Rattle.gr_expressions.specs.GivesWords.{Gives};
ghost use Rattle.gr_parse.specs.ParsingWords as spec;

use crate::assignments::assignment;
use gr_expressions::{Rest, Stop, args, expr, method, name, operation};
use gr_syntax::{Exprs, HowText, Name, Stmt};
use gr_text::{Keyword, Sign};
use std::alloc::Global;

/// A statement behind `let`.
#[tactic(auto, unfolding(crate::specs::ParsingWords::let_statement))]
fn let_statement<'a>(alloc: Global, rest: Rest<'a>, depth: usize) -> Result<(Stmt, Rest<'a>), Stop>
    ensures { Gives (λ x. x) result (spec.let_statement spec.plenty depth rest.entry) }
{
    let (first, rest) = name(alloc, rest)?;
    assignment(alloc, rest, depth, true, first)
}

/// A statement behind the name that it begins with.
#[tactic(auto, unfolding(crate::specs::ParsingWords::named_statement, gr_expressions::specs::OperandsWords::semicolon))]
pub fn named_statement<'a>(
    alloc: Global,
    rest: Rest<'a>,
    depth: usize,
    first: Name,
) -> Result<(Stmt, Rest<'a>), Stop>
    ensures { Gives (λ x. x) result (spec.named_statement spec.plenty depth first rest.entry) }
{
    if rest.sees(Sign::Dot) {
        let (call, rest) = operation(alloc, rest.next(), depth, first)?;
        let rest = rest.expect(Sign::Semicolon)?;
        return Ok((Stmt::Do { call }, rest));
    }
    assignment(alloc, rest, depth, false, first)
}

/// A statement behind `heap`.
#[tactic(auto, unfolding(crate::specs::ParsingWords::heap_statement, gr_expressions::specs::OperandsWords::semicolon))]
pub fn heap_statement<'a>(
    alloc: Global,
    rest: Rest<'a>,
    depth: usize,
    object: Name,
) -> Result<(Stmt, Rest<'a>), Stop>
    ensures { Gives (λ x. x) result (spec.heap_statement spec.plenty depth object rest.entry) }
{
    let (call, rest) = method(alloc, rest, depth, object)?;
    let rest = rest.expect(Sign::Semicolon)?;
    Ok((Stmt::Do { call }, rest))
}

/// A statement behind `print`.
#[tactic(auto, unfolding(crate::specs::ParsingWords::print, gr_expressions::specs::OperandsWords::semicolon))]
fn print<'a>(alloc: Global, rest: Rest<'a>, depth: usize) -> Result<(Stmt, Rest<'a>), Stop>
    ensures { Gives (λ x. x) result (spec.print depth rest.entry) }
{
    let (value, rest) = expr(alloc, rest, depth)?;
    let rest = rest.expect(Sign::Semicolon)?;
    Ok((Stmt::Print { value }, rest))
}

/// A task's name and its arguments, of which any statement may be made.
#[tactic(auto, unfolding(crate::specs::ParsingWords::started, gr_expressions::specs::OperandsWords::semicolon))]
fn started<'a>(alloc: Global, rest: Rest<'a>, depth: usize) -> Result<(Name, Exprs, Rest<'a>), Stop>
    ensures { (make : NameValue → List ExprValue → StmtValue)
        → Gives (λ x. (make x.0 x.1, x.2)) result (spec.started spec.plenty depth make rest.entry) }
{
    let (target, rest) = name(alloc, rest)?;
    let (args, rest) = args(alloc, rest, depth)?;
    let rest = rest.expect(Sign::Semicolon)?;
    Ok((target, args, rest))
}

/// Where a task is spawned.
#[tactic(auto, unfolding(crate::specs::ParsingWords::spawned_at))]
fn spawned_at<'a>(alloc: Global, rest: Rest<'a>, depth: usize) -> Result<(HowText, Rest<'a>), Stop>
    ensures { Gives (λ x. x) result (spec.spawned_at depth rest.entry) }
{
    if rest.sees_word(Keyword::At) {
        let (core, rest) = expr(alloc, rest.next(), depth)?;
        return Ok((HowText::At { core }, rest));
    }
    Ok((HowText::Here, rest))
}

/// A statement behind `spawn`.
#[tactic(auto, unfolding(crate::specs::ParsingWords::spawn))]
fn spawn<'a>(alloc: Global, rest: Rest<'a>, depth: usize) -> Result<(Stmt, Rest<'a>), Stop>
    ensures { Gives (λ x. x) result (spec.spawn spec.plenty depth rest.entry) }
{
    let (how, rest) = spawned_at(alloc, rest, depth)?;
    let (target, args, rest) = started(alloc, rest, depth)?;
    Ok((Stmt::Spawn { how, target, args }, rest))
}

/// A statement behind `offer`.
fn offer<'a>(alloc: Global, rest: Rest<'a>, depth: usize) -> Result<(Stmt, Rest<'a>), Stop>
    ensures { Gives (λ x. x) result (spec.started spec.plenty depth (stmts.Spawn hows.Offer) rest.entry) }
{
    let how = HowText::Offer;
    let (target, args, rest) = started(alloc, rest, depth)?;
    Ok((Stmt::Spawn { how, target, args }, rest))
}

/// A statement behind `forall`.
#[tactic(auto, unfolding(crate::specs::ParsingWords::forall_statement))]
fn forall_statement<'a>(
    alloc: Global,
    rest: Rest<'a>,
    depth: usize,
) -> Result<(Stmt, Rest<'a>), Stop>
    ensures { Gives (λ x. x) result (spec.forall_statement spec.plenty depth rest.entry) }
{
    let (lo, rest) = expr(alloc, rest, depth)?;
    let rest = rest.expect(Sign::DotDot)?;
    let (hi, rest) = expr(alloc, rest, depth)?;
    let rest = rest.expect_word(Keyword::Grain)?;
    let (grain, rest) = expr(alloc, rest, depth)?;
    let (target, args, rest) = started(alloc, rest, depth)?;
    let statement = Stmt::Forall {
        lo,
        hi,
        grain,
        target,
        args,
    };
    Ok((statement, rest))
}

/// A statement that begins with a keyword and has no block.
#[tactic(auto, unfolding(crate::specs::ParsingWords::plain_statement))]
pub fn plain_statement<'a>(
    alloc: Global,
    rest: Rest<'a>,
    depth: usize,
) -> Result<(Stmt, Rest<'a>), Stop>
    ensures { Gives (λ x. x) result (spec.plain_statement spec.plenty depth rest.entry) }
{
    if rest.sees_word(Keyword::Let) {
        return let_statement(alloc, rest.next(), depth);
    }
    if rest.sees_word(Keyword::Print) {
        return print(alloc, rest.next(), depth);
    }
    if rest.sees_word(Keyword::Spawn) {
        return spawn(alloc, rest.next(), depth);
    }
    if rest.sees_word(Keyword::Offer) {
        return offer(alloc, rest.next(), depth);
    }
    if rest.sees_word(Keyword::Forall) {
        return forall_statement(alloc, rest.next(), depth);
    }
    Err(rest.refusal())
}

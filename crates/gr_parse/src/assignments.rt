//! Assignments, and what stands right of `=`.

ghost use Rattle.std.specs.Prelude.{◌≡◌, [], ◌∷◌, IfOk};
ghost use Rattle.gr_expressions.specs.GivesWords.{Gives};
ghost use Rattle.gr_parse.specs.ParsingWords as spec;

use gr_expressions::{Rest, Stop, call, expr, expr_from, make_heap_name, method, name, operation};
use gr_syntax::{Expr, Name, Names, Right, Stmt};
use gr_text::Sign;
use sqlite_items::Items;
use std::alloc::{AllocError, Global};

/// A call or an expression that begins with this name.
#[tactic(auto, unfolding(crate::specs::ParsingWords::named_right))]
fn named_right<'a>(
    alloc: Global,
    rest: Rest<'a>,
    depth: usize,
    first: Name,
) -> Result<(Right, Rest<'a>), Stop>
    ensures { Gives (λ x. x) result (spec.named_right spec.plenty depth first rest.entry) }
{
    if rest.sees(Sign::Dot) {
        let (call, rest) = operation(alloc, rest.next(), depth, first)?;
        return Ok((Right::Result { call }, rest));
    }
    let (value, rest) = expr_from(alloc, rest, depth, Expr::Local { name: first })?;
    Ok((Right::Value { value }, rest))
}

/// What stands right of `=`.
#[tactic(auto, unfolding(crate::specs::ParsingWords::right_side))]
fn right_side<'a>(alloc: Global, rest: Rest<'a>, depth: usize) -> Result<(Right, Rest<'a>), Stop>
    ensures { Gives (λ x. x) result (spec.right_side spec.plenty depth rest.entry) }
{
    let ahead = rest.name_ahead(alloc)?;
    match ahead {
        Some(first) => named_right(alloc, rest.next(), depth, first),
        None => heap_right(alloc, rest, depth),
    }
}

/// A call of the heap, or an expression.
fn heap_right<'a>(alloc: Global, rest: Rest<'a>, depth: usize) -> Result<(Right, Rest<'a>), Stop>
    ensures { Gives (λ x. x) result (spec.right_by spec.plenty depth None rest.entry) }
{
    let ahead = rest.heap_ahead();
    match ahead {
        Some(at) => {
            let object = make_heap_name(alloc, at)?;
            let (call, rest) = method(alloc, rest.next(), depth, object)?;
            Ok((Right::Result { call }, rest))
        }
        None => {
            let (value, rest) = expr(alloc, rest, depth)?;
            Ok((Right::Value { value }, rest))
        }
    }
}

fn one_name(alloc: Global, first: Name) -> Result<Names, AllocError>
    ensures { IfOk result (λ names. names ≡ first ∷ []) }
{
    let mut names = Items::new(alloc);
    names.push(first)?;
    Ok(names)
}

fn two_names(alloc: Global, first: Name, second: Name) -> Result<Names, AllocError>
    ensures { IfOk result (λ names. names ≡ first ∷ second ∷ []) }
{
    let mut names = one_name(alloc, first)?;
    names.push(second)?;
    Ok(names)
}

/// An assignment to one target, behind `=`.
#[tactic(auto, unfolding(crate::specs::ParsingWords::one_target, gr_expressions::specs::OperandsWords::semicolon))]
fn one_target<'a>(
    alloc: Global,
    rest: Rest<'a>,
    depth: usize,
    fresh: bool,
    first: Name,
) -> Result<(Stmt, Rest<'a>), Stop>
    ensures { Gives (λ x. x) result (spec.one_target spec.plenty depth fresh first rest.entry) }
{
    let (right, rest) = right_side(alloc, rest, depth)?;
    let rest = rest.expect(Sign::Semicolon)?;
    let targets = one_name(alloc, first)?;
    let statement = Stmt::Set1 {
        fresh,
        targets,
        right,
    };
    Ok((statement, rest))
}

/// An assignment to two targets, behind the comma.
#[tactic(auto, unfolding(crate::specs::ParsingWords::two_targets, gr_expressions::specs::OperandsWords::semicolon))]
fn two_targets<'a>(
    alloc: Global,
    rest: Rest<'a>,
    depth: usize,
    fresh: bool,
    first: Name,
) -> Result<(Stmt, Rest<'a>), Stop>
    ensures { Gives (λ x. x) result (spec.two_targets spec.plenty depth fresh first rest.entry) }
{
    let (second, rest) = name(alloc, rest)?;
    let rest = rest.expect(Sign::Assign)?;
    let (call, rest) = call(alloc, rest, depth)?;
    let rest = rest.expect(Sign::Semicolon)?;
    let targets = two_names(alloc, first, second)?;
    let right = Right::Result { call };
    let statement = Stmt::Set1 {
        fresh,
        targets,
        right,
    };
    Ok((statement, rest))
}

/// An assignment behind its first target.
#[tactic(auto, unfolding(crate::specs::ParsingWords::assignment))]
pub fn assignment<'a>(
    alloc: Global,
    rest: Rest<'a>,
    depth: usize,
    fresh: bool,
    first: Name,
) -> Result<(Stmt, Rest<'a>), Stop>
    ensures { Gives (λ x. x) result (spec.assignment spec.plenty depth fresh first rest.entry) }
{
    if rest.sees(Sign::Assign) {
        return one_target(alloc, rest.next(), depth, fresh, first);
    }
    let rest = rest.expect(Sign::Comma)?;
    two_targets(alloc, rest, depth, fresh, first)
}

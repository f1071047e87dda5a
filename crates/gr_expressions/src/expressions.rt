//! Expressions.

ghost use Rattle.std.specs.Prelude.{◌≡◌, ℕ, ◌<◌, IfOk};
ghost use Rattle.gr_meets.specs.Parsers as read;
ghost use Rattle.gr_expressions.specs.TokWords as tok;
ghost use Rattle.gr_expressions.specs.OperandsWords as spec;
ghost use Rattle.gr_expressions.specs.GivesWords.{Gives};

use crate::fault::Stop;
use crate::limits::{LOOSEST, MAX_SIGNS};
use crate::rest::Rest;
use gr_syntax::{BinOp, Expr};
use gr_text::Sign;
use sqlite_items::Boxed;
use std::alloc::{AllocError, Global};

fn two(alloc: Global, op: BinOp, left: Expr, right: Expr) -> Result<Expr, AllocError>
    ensures { IfOk result (λ x. x ≡ spec.two op left right) }
{
    Ok(Expr::Two {
        op,
        left: Boxed::new(alloc, left)?,
        right: Boxed::new(alloc, right)?,
    })
}

fn negation(alloc: Global, inner: Expr) -> Result<Expr, AllocError>
    ensures { IfOk result (λ x. x ≡ Expr.Not inner) }
{
    Ok(Expr::Not {
        inner: Boxed::new(alloc, inner)?,
    })
}

/// A number or a local.
#[tactic(auto, unfolding(crate::specs::OperandsWords::atom, gr_meets::specs::Parsers::value))]
fn atom<'a>(alloc: Global, rest: Rest<'a>, signs: usize) -> Result<(Expr, usize, Rest<'a>), Stop>
    ensures { Gives (λ x. ((x.0, x.1), x.2)) result (spec.atom signs rest.entry) }
{
    match rest.atom_ahead(alloc)? {
        Some(atom) => Ok((atom, signs, rest.next())),
        None => Err(rest.refusal()),
    }
}

/// An operand, with room for so many nestings. `signs` is, here and below, the number of binary signs
/// that may still come.
#[cycle(expr)]
#[tactic(auto, unfolding(crate::specs::OperandsWords::unary))]
fn unary<'a>(
    alloc: Global,
    rest: Rest<'a>,
    depth: usize,
    signs: usize,
) -> Result<(Expr, usize, Rest<'a>), Stop>
    ensures { Gives (λ x. ((x.0, x.1), x.2)) result (spec.unary depth signs rest.entry) }
{
    if depth == 0 {
        return atom(alloc, rest, signs);
    }
    if rest.sees(Sign::Bang) {
        let (inner, signs, rest) = unary(alloc, rest.next(), depth - 1, signs)?;
        return Ok((negation(alloc, inner)?, signs, rest));
    }
    if rest.sees(Sign::LeftParen) {
        return group(alloc, rest.next(), depth - 1, signs);
    }
    atom(alloc, rest, signs)
}

/// An expression in brackets, behind the opening one.
#[cycle(expr)]
#[tactic(auto, unfolding(crate::specs::OperandsWords::group))]
fn group<'a>(
    alloc: Global,
    rest: Rest<'a>,
    depth: usize,
    signs: usize,
) -> Result<(Expr, usize, Rest<'a>), Stop>
    ensures { Gives (λ x. ((x.0, x.1), x.2)) result
        (spec.group (spec.comparison (spec.unary depth) signs) rest.entry) }
{
    let (inner, signs, rest) = comparison(alloc, rest, depth, signs)?;
    let rest = rest.expect(Sign::RightParen)?;
    Ok((inner, signs, rest))
}

/// All operators.
#[cycle(expr)]
#[tactic(auto, unfolding(crate::specs::OperandsWords::comparison))]
fn comparison<'a>(
    alloc: Global,
    rest: Rest<'a>,
    depth: usize,
    signs: usize,
) -> Result<(Expr, usize, Rest<'a>), Stop>
    ensures { Gives (λ x. ((x.0, x.1), x.2)) result
        (spec.comparison (spec.unary depth) signs rest.entry) }
{
    let (first, signs, rest) = levels(alloc, rest, depth, LOOSEST, signs)?;
    comparing(alloc, rest, depth, signs, first)
}

/// Behind a first operand, a comparison with a second one, if there is one.
#[cycle(expr)]
#[tactic(auto, unfolding(crate::specs::OperandsWords::comparing))]
fn comparing<'a>(
    alloc: Global,
    rest: Rest<'a>,
    depth: usize,
    signs: usize,
    first: Expr,
) -> Result<(Expr, usize, Rest<'a>), Stop>
    ensures { Gives (λ x. ((x.0, x.1), x.2)) result
        (spec.comparing (spec.unary depth) (first, signs) rest.entry) }
{
    let ahead = rest.operator_ahead(LOOSEST);
    match ahead {
        Some(op) => {
            if signs == 0 {
                return Err(rest.refusal());
            }
            let (second, signs, rest) = levels(alloc, rest.next(), depth, LOOSEST, signs - 1)?;
            Ok((two(alloc, op, first, second)?, signs, rest))
        }
        None => Ok((first, signs, rest)),
    }
}

/// The operators of the levels below this one.
#[cycle(expr)]
#[tactic(auto, unfolding(gr_meets::specs::Parsers::levels))]
fn levels<'a>(
    alloc: Global,
    rest: Rest<'a>,
    depth: usize,
    below: u8,
    signs: usize,
) -> Result<(Expr, usize, Rest<'a>), Stop>
    ensures { Gives (λ x. ((x.0, x.1), x.2)) result
        (read.levels tok.operator spec.two (spec.unary depth) below signs rest.entry) }
{
    if below == 0 {
        return unary(alloc, rest, depth, signs);
    }
    let (first, signs, rest) = levels(alloc, rest, depth, below - 1, signs)?;
    chain(alloc, rest, depth, below - 1, signs, first)
}

/// Behind a first operand, the operators of one level with their operands, grouped to the left.
#[cycle(expr)]
fn chain<'a>(
    alloc: Global,
    mut rest: Rest<'a>,
    depth: usize,
    below: u8,
    mut signs: usize,
    first: Expr,
) -> Result<(Expr, usize, Rest<'a>), Stop>
    ensures { (n : ℕ) → signs < n → Gives (λ x. ((x.0, x.1), x.2)) result
        (read.chain (tok.operator below) spec.two
        (read.levels tok.operator spec.two (spec.unary depth) below) n (first, signs) rest.entry) }
{
    let mut left = first;
    while let Some(op) = rest.operator_ahead(below) {
        if signs == 0 {
            return Err(rest.refusal());
        }
        let (right, fewer, after) = levels(alloc, rest.next(), depth, below, signs - 1)?;
        left = two(alloc, op, left, right)?;
        signs = fewer;
        rest = after;
    }
    Ok((left, signs, rest))
}

/// An expression, with room for so many nestings.
#[tactic(auto, unfolding(crate::specs::OperandsWords::expr))]
pub fn expr<'a>(alloc: Global, rest: Rest<'a>, depth: usize) -> Result<(Expr, Rest<'a>), Stop>
    ensures { Gives (λ x. x) result (spec.expr depth rest.entry) }
{
    let (value, _, rest) = comparison(alloc, rest, depth, MAX_SIGNS)?;
    Ok((value, rest))
}

/// From a first operand on, the operators of the levels below this one.
#[tactic(auto, unfolding(gr_meets::specs::Parsers::onward))]
fn onward<'a>(
    alloc: Global,
    rest: Rest<'a>,
    depth: usize,
    below: u8,
    signs: usize,
    first: Expr,
) -> Result<(Expr, usize, Rest<'a>), Stop>
    ensures { Gives (λ x. ((x.0, x.1), x.2)) result
        (read.onward tok.operator spec.two (spec.unary depth) below (first, signs) rest.entry) }
{
    if below == 0 {
        return Ok((first, signs, rest));
    }
    let (left, signs, rest) = onward(alloc, rest, depth, below - 1, signs, first)?;
    chain(alloc, rest, depth, below - 1, signs, left)
}

/// An expression whose first operand was read.
#[tactic(auto, unfolding(crate::specs::OperandsWords::expr_from))]
pub fn expr_from<'a>(
    alloc: Global,
    rest: Rest<'a>,
    depth: usize,
    first: Expr,
) -> Result<(Expr, Rest<'a>), Stop>
    ensures { Gives (λ x. x) result (spec.expr_from depth first rest.entry) }
{
    let (left, signs, rest) = onward(alloc, rest, depth, LOOSEST, MAX_SIGNS, first)?;
    let (value, _, rest) = comparing(alloc, rest, depth, signs, left)?;
    Ok((value, rest))
}

//! Names, numbers, and lists with commas.

ghost use Rattle.std.specs.Prelude.{◌≡◌, ℕ, ◌≤◌, length, IfOk};
ghost use Rattle.gr_meets.specs.Parsers as read;
ghost use Rattle.gr_text.specs.declared.token.Sign.TheVariants as signs;
ghost use Rattle.gr_expressions.specs.TokWords as tok;
ghost use Rattle.gr_expressions.specs.OperandsWords as spec;
ghost use Rattle.gr_expressions.specs.GivesWords.{Gives};

use crate::expressions::expr;
use crate::fault::Stop;
use crate::rest::Rest;
use gr_syntax::{Expr, Name, Number};
use gr_text::Sign;
use sqlite_items::Items;
use std::alloc::Global;

/// What stands between the commas of a list.
pub trait Element: Sized + Drop {
    ghost read_one: { ℕ → read.Parser tok.Tok Self };

    /// One element, with room for so many nestings.
    fn parse<'a>(alloc: Global, rest: Rest<'a>, depth: usize) -> Result<(Self, Rest<'a>), Stop>
        ensures gives { Gives (λ x. x) result (read_one depth rest.entry) }
        ensures shorter { IfOk result (λ x. length x.1 ≤ length rest.entry) };
}

impl Element for Name {
    ghost use Rattle.gr_expressions.specs.OperandsWords as spec;

    ghost read_one = { λ _. spec.name };

    fn parse<'a>(alloc: Global, rest: Rest<'a>, _depth: usize) -> Result<(Name, Rest<'a>), Stop> {
        name(alloc, rest)
    }
}

impl Element for Number {
    ghost use Rattle.gr_expressions.specs.OperandsWords as spec;

    ghost read_one = { λ _. spec.number };

    fn parse<'a>(
        _alloc: Global,
        rest: Rest<'a>,
        _depth: usize,
    ) -> Result<(Number, Rest<'a>), Stop> {
        number(rest)
    }
}

impl Element for Expr {
    ghost use Rattle.gr_expressions.specs.OperandsWords as spec;

    ghost read_one = { λ depth. spec.expr depth };

    fn parse<'a>(alloc: Global, rest: Rest<'a>, depth: usize) -> Result<(Expr, Rest<'a>), Stop> {
        expr(alloc, rest, depth)
    }
}

/// A name.
#[tactic(auto, unfolding(crate::specs::OperandsWords::name, gr_meets::specs::Parsers::value))]
pub fn name<'a>(alloc: Global, rest: Rest<'a>) -> Result<(Name, Rest<'a>), Stop>
    ensures { Gives (λ x. x) result (spec.name rest.entry) }
{
    let ahead = rest.name_ahead(alloc)?;
    match ahead {
        Some(name) => Ok((name, rest.next())),
        None => Err(rest.refusal()),
    }
}

/// A number.
#[tactic(auto, unfolding(crate::specs::OperandsWords::number, gr_meets::specs::Parsers::value))]
pub fn number<'a>(rest: Rest<'a>) -> Result<(Number, Rest<'a>), Stop>
    ensures { Gives (λ x. x) result (spec.number rest.entry) }
{
    let ahead = rest.number_ahead();
    match ahead {
        Some(number) => Ok((number, rest.next())),
        None => Err(rest.refusal()),
    }
}

/// One element or more, with a comma between two.
pub fn separated<'a, E: Element>(
    alloc: Global,
    rest: Rest<'a>,
    depth: usize,
) -> Result<(Items<E>, Rest<'a>), Stop>
    ensures { Gives (λ x. x) result
        (read.separated (tok.is_sign signs.Comma) (E.read_one depth) spec.plenty rest.entry) }
{
    let (first, mut rest) = E::parse(alloc, rest, depth)?;
    let mut found = Items::new(alloc);
    found.push(first)?;
    'each: while rest.sees(Sign::Comma) {
        let (one, after) = E::parse(alloc, rest.next(), depth)?;
        found.push(one)?;
        rest = after;
    }
    Ok((found, rest))
}

/// Elements with a comma between two, none of them needed, up to the closing bracket, which is taken.
#[tactic(auto, unfolding(gr_meets::specs::Parsers::enclosed))]
pub fn enclosed<'a, E: Element>(
    alloc: Global,
    rest: Rest<'a>,
    depth: usize,
) -> Result<(Items<E>, Rest<'a>), Stop>
    ensures { Gives (λ x. x) result (read.enclosed (tok.is_sign signs.RightParen)
        (tok.is_sign signs.Comma) (E.read_one depth) spec.plenty rest.entry) }
{
    if rest.sees(Sign::RightParen) {
        return Ok((Items::new(alloc), rest.next()));
    }
    let (found, rest) = separated(alloc, rest, depth)?;
    let rest = rest.expect(Sign::RightParen)?;
    Ok((found, rest))
}

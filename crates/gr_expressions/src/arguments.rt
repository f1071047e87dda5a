//! Arguments and calls.

ghost use Rattle.std.specs.Prelude.{◌≡◌};
ghost use Rattle.gr_expressions.specs.OperandsWords as spec;
ghost use Rattle.gr_expressions.specs.GivesWords.{Gives};

use crate::fault::Stop;
use crate::lists::{enclosed, name};
use crate::rest::Rest;
use gr_syntax::{CallText, Exprs, Name};
use gr_text::Sign;
use std::alloc::Global;

/// Arguments, with room for so many nestings.
#[tactic(auto, unfolding(crate::specs::OperandsWords::args))]
pub fn args<'a>(alloc: Global, rest: Rest<'a>, depth: usize) -> Result<(Exprs, Rest<'a>), Stop>
    ensures { Gives (λ x. x) result (spec.args spec.plenty depth rest.entry) }
{
    if depth == 0 {
        return Err(rest.refusal());
    }
    let rest = rest.expect(Sign::LeftParen)?;
    enclosed(alloc, rest, depth - 1)
}

/// A reducer's name, if there is one.
#[tactic(auto, unfolding(crate::specs::OperandsWords::reducer))]
fn reducer<'a>(alloc: Global, rest: Rest<'a>) -> Result<(Option<Name>, Rest<'a>), Stop>
    ensures { Gives (λ x. x) result (spec.reducer rest.entry) }
{
    match rest.name_ahead(alloc)? {
        Some(name) => Ok((Some(name), rest.next())),
        None => Ok((None, rest)),
    }
}

/// A call behind its dot.
#[tactic(auto, unfolding(crate::specs::OperandsWords::operation))]
pub fn operation<'a>(
    alloc: Global,
    rest: Rest<'a>,
    depth: usize,
    object: Name,
) -> Result<(CallText, Rest<'a>), Stop>
    ensures { Gives (λ x. x) result (spec.operation spec.plenty depth object rest.entry) }
{
    let (op, rest) = name(alloc, rest)?;
    let (reducer, rest) = reducer(alloc, rest)?;
    let (args, rest) = args(alloc, rest, depth)?;
    let call = CallText {
        object,
        op,
        reducer,
        args,
    };
    Ok((call, rest))
}

/// A call behind its object.
#[tactic(auto, unfolding(crate::specs::OperandsWords::method))]
pub fn method<'a>(
    alloc: Global,
    rest: Rest<'a>,
    depth: usize,
    object: Name,
) -> Result<(CallText, Rest<'a>), Stop>
    ensures { Gives (λ x. x) result (spec.method spec.plenty depth object rest.entry) }
{
    let rest = rest.expect(Sign::Dot)?;
    operation(alloc, rest, depth, object)
}

/// A call.
#[tactic(auto, unfolding(crate::specs::OperandsWords::call, gr_meets::specs::Parsers::value))]
pub fn call<'a>(alloc: Global, rest: Rest<'a>, depth: usize) -> Result<(CallText, Rest<'a>), Stop>
    ensures { Gives (λ x. x) result (spec.call spec.plenty depth rest.entry) }
{
    match rest.object_ahead(alloc)? {
        Some(object) => method(alloc, rest.next(), depth, object),
        None => Err(rest.refusal()),
    }
}

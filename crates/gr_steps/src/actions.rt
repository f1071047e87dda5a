//! The action at which a task stands, from the statement that stands first.
ghost use Rattle.std.specs.Prelude.{◌≡◌, IfOk};
ghost use Rattle.gr_lang.specs.Next.{acted, call_action as call_action_of, fits as fits_in, how_of as way_of, loop_action as loop_action_of, named_action as named_action_of, print_action as print_action_of, reducer_number as reducer_number_of, spawn_action as spawn_action_of};
ghost use Rattle.gr_lang.specs.Expressions.{values};
ghost use Rattle.gr_lang.specs.Openings.{opening};
ghost use Rattle.gr_steps.specs.RangeWords.{range_words, ranged};

use crate::expressions::{value_of, values_of};
use crate::locals::LocalWords;
use crate::table::Table;
use gr_accept::{Operation, operation_of, reducer_of};
use gr_lang::{Action, How, Op, TrapKind, op_of};
use gr_syntax::{CallText, Expr, Exprs, HowText, Name};
use std::alloc::{AllocError, Global};

/// The trap of a zero divisor.
fn divided() -> Action
    ensures { result ≡ Action.Trap TrapKind.Div }
{
    Action::Trap {
        kind: TrapKind::Div,
    }
}

/// The print of this expression.
pub fn print_action(locals: &LocalWords, value: &Expr) -> Action
    ensures { result ≡ print_action_of locals.now value.now }
{
    match value_of(locals, value) {
        None => divided(),
        Some(word) => Action::Call {
            op: Op::Print { word },
        },
    }
}

fn reducer_number(reducer: &Option<Name>) -> u64
    ensures { result ≡ reducer_number_of reducer.now }
{
    match reducer {
        None => 0,
        Some(name) => reducer_of(name.text.as_bytes()).unwrap_or(0),
    }
}

/// Whether a word call's place is in its object; a call without a place always fits.
fn fits(table: &Table, op: &Op) -> bool
    ensures { result ≡ fits_in (opening table.now) op.now }
{
    match op {
        Op::Read { object, place } => table.has_place(*object, *place),
        Op::Write { object, place, .. } => table.has_place(*object, *place),
        Op::Add { object, place, .. } => table.has_place(*object, *place),
        Op::Cas { object, place, .. } => table.has_place(*object, *place),
        Op::Reduce { object, place, .. } => table.has_place(*object, *place),
        _ => true,
    }
}

fn named_action(
    table: &Table,
    operation: Option<Operation>,
    object: u64,
    reducer: u64,
    words: &[u64],
) -> Action
    ensures { result ≡ named_action_of table.now operation object reducer words.now }
{
    match operation {
        None => Action::Trap {
            kind: TrapKind::Place,
        },
        Some(operation) => {
            let op = op_of(operation, object, reducer, words);
            if fits(table, &op) {
                Action::Call { op }
            } else {
                Action::Trap {
                    kind: TrapKind::Place,
                }
            }
        }
    }
}

/// The call, or its trap.
pub fn call_action(
    alloc: Global,
    table: &Table,
    locals: &LocalWords,
    call: &CallText,
) -> Result<Action, AllocError>
    ensures { IfOk result (λ action. action ≡ call_action_of table.now locals.now call.now) }
{
    let found = values_of(alloc, locals, &call.args)?;
    match found {
        None => Ok(divided()),
        Some(words) => {
            let object = table.object_of(&call.object.text);
            let reducer = reducer_number(&call.reducer);
            let operation = operation_of(call.op.text.as_bytes());
            Ok(named_action(table, operation, object, reducer, words.as_slice()))
        }
    }
}

fn how_of(locals: &LocalWords, how: &HowText) -> Option<How>
    ensures { result ≡ way_of locals.now how.now }
{
    match how {
        HowText::Here => Some(How::Here),
        HowText::At { core } => {
            let core = value_of(locals, core)?;
            Some(How::At { core })
        }
        HowText::Offer => Some(How::Offer),
    }
}

/// The spawn, or its trap. The core is evaluated before the arguments.
pub fn spawn_action(
    alloc: Global,
    table: &Table,
    locals: &LocalWords,
    how: &HowText,
    target: &Name,
    args: &Exprs,
) -> Result<Action, AllocError>
    ensures { IfOk result (λ action. action
        ≡ spawn_action_of table.now locals.now (way_of locals.now how.now) target.now args.now) }
{
    match how_of(locals, how) {
        None => Ok(divided()),
        Some(how) => {
            let found = values_of(alloc, locals, args)?;
            match found {
                None => Ok(divided()),
                Some(words) => Ok(Action::Spawn {
                    how,
                    target: table.target_of(&target.text),
                    args: words,
                }),
            }
        }
    }
}

/// The bounds and the grain of a loop; None where one divides by 0.
pub fn range_of(locals: &LocalWords, lo: &Expr, hi: &Expr, grain: &Expr) -> Option<(u64, u64, u64)>
    ensures { result ≡ range_words locals.now lo.now hi.now grain.now }
{
    let lo = value_of(locals, lo)?;
    let hi = value_of(locals, hi)?;
    let grain = value_of(locals, grain)?;
    Some((lo, hi, grain))
}

/// The loop of this range, or its trap. A grain of 0 counts as 1.
pub fn loop_action(
    alloc: Global,
    table: &Table,
    locals: &LocalWords,
    range: Option<(u64, u64, u64)>,
    target: &Name,
    args: &Exprs,
) -> Result<Action, AllocError>
    ensures { IfOk result (λ action. action
        ≡ acted (loop_action_of table.now target.now) (ranged range (values locals.now args.now))) }
{
    match range {
        None => Ok(divided()),
        Some((lo, hi, grain)) => {
            let found = values_of(alloc, locals, args)?;
            match found {
                None => Ok(divided()),
                Some(words) => Ok(Action::Loop {
                    lo,
                    hi,
                    grain: if grain == 0 { 1 } else { grain },
                    target: table.target_of(&target.text),
                    args: words,
                }),
            }
        }
    }
}

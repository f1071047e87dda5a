//! The action of an instruction, with evaluated words.
ghost use Rattle.std.specs.Prelude.{◌≡◌, false, IfOk};
ghost use Rattle.gr_lang.specs.Next.{acted, acts, fits as fits_in, named_action as named_action_of};
ghost use Rattle.gr_lang.specs.Openings.{opening};
ghost use Rattle.gr_code.specs.Instructions.{does, how_of as way_of, looped, printed, spawned};
ghost use Rattle.gr_code.specs.Terms.{term_value, term_values};
ghost use Rattle.gr_task.specs.TurnWords.{is_pure};

use crate::evaluation::{value_of, values_of};
use gr_accept::Operation;
use gr_code::{Code, Instruction, Term, Terms, Way};
use gr_lang::{Action, How, Op, TrapKind, Words, op_of};
use std::alloc::{AllocError, Global};

/// The trap of a zero divisor.
pub fn divided() -> Action
    ensures { result ≡ Action.Trap TrapKind.Div }
{
    Action::Trap {
        kind: TrapKind::Div,
    }
}

/// The print of this term's word.
fn print_action(locals: &[u64], value: &Term) -> Action
    ensures { result ≡ printed (term_value locals.now value.now) }
{
    match value_of(locals, value) {
        None => divided(),
        Some(word) => Action::Call {
            op: Op::Print { word },
        },
    }
}

/// Whether a word call's place is in its object; a call without a place always fits.
fn fits(code: &Code, op: &Op) -> bool
    ensures { result ≡ fits_in (opening code.now.program) op.now }
{
    match op {
        Op::Read { object, place } => code.has_place(*object, *place),
        Op::Write { object, place, .. } => code.has_place(*object, *place),
        Op::Add { object, place, .. } => code.has_place(*object, *place),
        Op::Cas { object, place, .. } => code.has_place(*object, *place),
        Op::Reduce { object, place, .. } => code.has_place(*object, *place),
        _ => true,
    }
}

fn named_action(
    code: &Code,
    operation: Option<Operation>,
    object: u64,
    reducer: u64,
    words: &[u64],
) -> Action
    ensures { result ≡ named_action_of code.now.program operation object reducer words.now }
{
    match operation {
        None => Action::Trap {
            kind: TrapKind::Place,
        },
        Some(operation) => {
            let op = op_of(operation, object, reducer, words);
            if fits(code, &op) {
                Action::Call { op }
            } else {
                Action::Trap {
                    kind: TrapKind::Place,
                }
            }
        }
    }
}

/// The call, or its trap.
fn call_action(
    alloc: Global,
    code: &Code,
    operation: Option<Operation>,
    object: u64,
    reducer: u64,
    locals: &[u64],
    args: &Terms,
) -> Result<Action, AllocError>
    ensures { IfOk result (λ action. action ≡ acted
        (named_action_of code.now.program operation object reducer) (term_values locals.now args.now)) }
{
    let found = values_of(alloc, locals, args)?;
    match found {
        None => Ok(divided()),
        Some(words) => Ok(named_action(code, operation, object, reducer, words.as_slice())),
    }
}

fn how_of(locals: &[u64], way: &Way) -> Option<How>
    ensures { result ≡ way_of locals.now way.now }
{
    match way {
        Way::Here => Some(How::Here),
        Way::At { core } => {
            let core = value_of(locals, core)?;
            Some(How::At { core })
        }
        Way::Offer => Some(How::Offer),
    }
}

/// The spawn, or its trap. The core is evaluated before the arguments.
fn spawn_action(
    alloc: Global,
    locals: &[u64],
    way: &Way,
    target: u64,
    args: &Terms,
) -> Result<Action, AllocError>
    ensures { IfOk result (λ action. action
        ≡ spawned target (way_of locals.now way.now) (term_values locals.now args.now)) }
{
    match how_of(locals, way) {
        None => Ok(divided()),
        Some(how) => {
            let found = values_of(alloc, locals, args)?;
            match found {
                None => Ok(divided()),
                Some(args) => Ok(Action::Spawn { how, target, args }),
            }
        }
    }
}

/// The loop of these words: bounds, grain and arguments.
fn looped_action(alloc: Global, target: u64, words: &[u64]) -> Result<Action, AllocError>
    ensures { IfOk result (λ action. action ≡ looped target words.now) }
{
    match words {
        [lo, hi, grain, rest @ ..] => {
            let args = Words::from_vec(Vec::from_slice(alloc, rest)?);
            Ok(Action::Loop {
                lo: *lo,
                hi: *hi,
                grain: if *grain == 0 { 1 } else { *grain },
                target,
                args,
            })
        }
        _ => Ok(Action::Trap {
            kind: TrapKind::Place,
        }),
    }
}

/// The loop, or its trap. A grain of 0 counts as 1.
fn loop_action(
    alloc: Global,
    locals: &[u64],
    target: u64,
    args: &Terms,
) -> Result<Action, AllocError>
    ensures { IfOk result
        (λ action. action ≡ acted (looped target) (term_values locals.now args.now)) }
{
    let found = values_of(alloc, locals, args)?;
    match found {
        None => Ok(divided()),
        Some(words) => looped_action(alloc, target, words.as_slice()),
    }
}

/// The action of an instruction that is no pure step, or its trap.
pub fn action_of(
    alloc: Global,
    code: &Code,
    locals: &[u64],
    instruction: &Instruction,
) -> Result<Action, AllocError>
    requires { is_pure (does code.now.program code.now.points instruction.now locals.now) ≡ false }
    ensures { IfOk result (λ action.
        does code.now.program code.now.points instruction.now locals.now ≡ acts action) }
{
    match instruction {
        Instruction::Set { .. } => unreachable!(),
        Instruction::Branch { .. } => unreachable!(),
        Instruction::Call {
            operation,
            object,
            reducer,
            args,
            ..
        } => {
            let action = call_action(alloc, code, *operation, *object, *reducer, locals, args)?;
            Ok(action)
        }
        Instruction::Print { value, .. } => Ok(print_action(locals, value)),
        Instruction::Finish { .. } => Ok(Action::Finish),
        Instruction::Spawn {
            way,
            target,
            args,
            ..
        } => {
            let action = spawn_action(alloc, locals, way, *target, args)?;
            Ok(action)
        }
        Instruction::Loop { target, args, .. } => {
            let action = loop_action(alloc, locals, *target, args)?;
            Ok(action)
        }
        Instruction::Arrive { .. } => Ok(Action::Arrive),
        Instruction::End => Ok(Action::End),
    }
}

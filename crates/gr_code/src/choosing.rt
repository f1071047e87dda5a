//! The instructions of statements without blocks.
ghost use Rattle.std.specs.Prelude.{◌≡◌, ◌∷◌, IfOk, map};
ghost use Rattle.gr_lang.specs.Next.{reducer_number as reducer_number_of};
ghost use Rattle.gr_lang.specs.Openings.{target_of};
ghost use Rattle.gr_code.specs.EmitWords.{IsCallOf, IsPrintOf, IsRightOf, IsSpawnOf, IsWayOf};
ghost use Rattle.gr_code.specs.Terms.{AreTermsOf};

use crate::instructions::{Instruction, Way};
use crate::terms::{Targets, Terms, resolve, resolve_all};
use gr_accept::{operation_of, reducer_of};
use gr_names::ProgramNames;
use gr_syntax::{CallText, Expr, Exprs, HowText, Name, Right, Text};
use sqlite_items::Items;
use std::alloc::{AllocError, Global};

fn reducer_number(reducer: &Option<Name>) -> u64
    ensures { result ≡ reducer_number_of reducer.now }
{
    match reducer {
        None => 0,
        Some(name) => reducer_of(name.text.as_bytes()).unwrap_or(0),
    }
}

/// A call, whose result words the targets take.
pub fn call_instruction(
    alloc: Global,
    program: &ProgramNames,
    locals: &[&Text],
    call: &CallText,
    targets: Targets,
    next: usize,
) -> Result<Instruction, AllocError>
    ensures { IfOk result (λ x. IsCallOf program.now (map (λ n. n.now) locals.now)
        call.now targets next x) }
{
    let args = resolve_all(alloc, locals, &call.args)?;
    Ok(Instruction::Call {
        operation: operation_of(call.op.text.as_bytes()),
        object: program.object(&call.object.text).unwrap_or(0),
        reducer: reducer_number(&call.reducer),
        args,
        targets,
        next,
    })
}

fn way_of(alloc: Global, locals: &[&Text], how: &HowText) -> Result<Way, AllocError>
    ensures { IfOk result (λ way. IsWayOf (map (λ n. n.now) locals.now) way how.now) }
{
    match how {
        HowText::Here => Ok(Way::Here),
        HowText::At { core } => {
            let core = resolve(alloc, locals, core)?;
            Ok(Way::At { core })
        }
        HowText::Offer => Ok(Way::Offer),
    }
}

/// The bounds, the grain and the arguments as one list.
pub fn loop_args(
    alloc: Global,
    locals: &[&Text],
    lo: &Expr,
    hi: &Expr,
    grain: &Expr,
    args: &Exprs,
) -> Result<Terms, AllocError>
    ensures { IfOk result (λ terms. AreTermsOf (map (λ n. n.now) locals.now) terms
        (lo.now ∷ hi.now ∷ grain.now ∷ args.now)) }
{
    let mut terms = Items::new(alloc);
    let lo = resolve(alloc, locals, lo)?;
    let hi = resolve(alloc, locals, hi)?;
    let grain = resolve(alloc, locals, grain)?;
    terms.push(lo)?;
    terms.push(hi)?;
    terms.push(grain)?;
    let rest = resolve_all(alloc, locals, args)?;
    terms.append(rest)?;
    Ok(terms)
}

/// An assignment of what stands right of `=`.
pub fn right_instruction(
    alloc: Global,
    program: &ProgramNames,
    locals: &[&Text],
    right: &Right,
    targets: Targets,
    next: usize,
) -> Result<Instruction, AllocError>
    ensures { IfOk result (λ x. IsRightOf program.now (map (λ n. n.now) locals.now)
        right.now targets next x) }
{
    match right {
        Right::Value { value } => {
            let value = resolve(alloc, locals, value)?;
            Ok(Instruction::Set {
                value,
                targets,
                next,
            })
        }
        Right::Result { call } => {
            let call = call_instruction(alloc, program, locals, call, targets, next)?;
            Ok(call)
        }
    }
}

/// The print of an expression.
pub fn print_instruction(
    alloc: Global,
    locals: &[&Text],
    value: &Expr,
    next: usize,
) -> Result<Instruction, AllocError>
    ensures { IfOk result (λ x. IsPrintOf (map (λ n. n.now) locals.now) value.now next x) }
{
    let value = resolve(alloc, locals, value)?;
    Ok(Instruction::Print { value, next })
}

/// The spawn of a task.
pub fn spawn_instruction(
    alloc: Global,
    program: &ProgramNames,
    locals: &[&Text],
    how: &HowText,
    target: &Name,
    args: &Exprs,
    next: usize,
) -> Result<Instruction, AllocError>
    ensures { IfOk result (λ x. IsSpawnOf program.now (map (λ n. n.now) locals.now)
        how.now target.now args.now next x) }
{
    let way = way_of(alloc, locals, how)?;
    let args = resolve_all(alloc, locals, args)?;
    Ok(Instruction::Spawn {
        way,
        target: program.task(&target.text).unwrap_or(0),
        args,
        next,
    })
}

/// The loop of a task with these bounds, grain and arguments.
pub fn loop_instruction(
    program: &ProgramNames,
    target: &Name,
    args: Terms,
    next: usize,
) -> Instruction
    ensures { result ≡ Instruction.Loop (target_of program.now target.now.text) args next }
{
    Instruction::Loop {
        target: program.task(&target.text).unwrap_or(0),
        args,
        next,
    }
}

//! The code of statements, made backwards: that of what follows a statement comes before its own.
ghost use Rattle.std.specs.Prelude.{◌≡◌, ◌<◌, ◌≤◌, ◌∷◌, ◌++◌, IfOk, length, map};
ghost use Rattle.gr_lang.specs.Next.{run, runs};
ghost use Rattle.gr_code.specs.EmitWords.{Emitted};
ghost use Rattle.gr_code.specs.Points.{point_at};

use crate::choosing::{
    call_instruction, loop_args, loop_instruction, print_instruction, right_instruction,
    spawn_instruction,
};
use crate::instructions::Instruction;
use crate::points::{Origin, Points};
use crate::terms::{Targets, resolve, targets_of};
use gr_names::ProgramNames;
use gr_syntax::{Block, Expr, Stmt, Text};
use std::alloc::{AllocError, Global};

/// Adds the code of a block, which then leads to `next`. Gives the point at which it begins.
#[cycle(emit)]
pub fn emit_block<'a>(
    alloc: Global,
    points: &mut Points<'a>,
    program: &ProgramNames,
    locals: &[&Text],
    block: &'a [Stmt],
    next: usize,
) -> Result<usize, AllocError>
    requires within { next < length points.old.points }
    requires names { (point_at points.old.points next).names ≡ map (λ n. n.now) locals.now }
    ensures emitted { IfOk result (λ at. Emitted program.now (map (λ n. n.now) locals.now)
        points.old points.new (runs block.now ++ (point_at points.old.points next).todo) at) }
    ensures within { IfOk result (λ at. (at < length points.new.points)
        × (length points.old.points ≤ length points.new.points)) }
    ensures names { IfOk result (λ at. (point_at points.new.points at).names
        ≡ map (λ n. n.now) locals.now) }
{
    let mut at = next;
    let mut i = block.len();
    while i > 0 {
        i -= 1;
        at = emit_step(alloc, points, program, locals, &block[i], at)?;
    }
    Ok(at)
}

/// Adds the code of a statement, which then leads to `next`. Gives the point at which it begins.
#[cycle(emit)]
fn emit_step<'a>(
    alloc: Global,
    points: &mut Points<'a>,
    program: &ProgramNames,
    locals: &[&Text],
    stmt: &'a Stmt,
    next: usize,
) -> Result<usize, AllocError>
    requires within { next < length points.old.points }
    requires names { (point_at points.old.points next).names ≡ map (λ n. n.now) locals.now }
    ensures emitted { IfOk result (λ at. Emitted program.now (map (λ n. n.now) locals.now)
        points.old points.new (run stmt.now ∷ (point_at points.old.points next).todo) at) }
    ensures within { IfOk result (λ at. (at < length points.new.points)
        × (length points.old.points ≤ length points.new.points)) }
    ensures names { IfOk result (λ at. (point_at points.new.points at).names
        ≡ map (λ n. n.now) locals.now) }
{
    let origin = Origin::Run { stmt, next };
    match stmt {
        Stmt::Set1 { targets, right, .. } => {
            let targets = targets_of(locals, targets);
            let set = right_instruction(alloc, program, locals, right, targets, next)?;
            let at = points.put(set, origin)?;
            Ok(at)
        }
        Stmt::Do { call } => {
            let call = call_instruction(alloc, program, locals, call, Targets::Empty, next)?;
            let at = points.put(call, origin)?;
            Ok(at)
        }
        Stmt::Print { value } => {
            let print = print_instruction(alloc, locals, value, next)?;
            let at = points.put(print, origin)?;
            Ok(at)
        }
        Stmt::If { test, yes, no } => {
            emit_if(alloc, points, program, locals, stmt, test, yes, no, next)
        }
        Stmt::While { test, body } => {
            emit_while(alloc, points, program, locals, stmt, test, body, next)
        }
        Stmt::Finish { body } => emit_finish(alloc, points, program, locals, stmt, body, next),
        Stmt::Spawn { how, target, args } => {
            let spawn = spawn_instruction(alloc, program, locals, how, target, args, next)?;
            let at = points.put(spawn, origin)?;
            Ok(at)
        }
        Stmt::Forall {
            lo,
            hi,
            grain,
            target,
            args,
        } => {
            let args = loop_args(alloc, locals, lo, hi, grain, args)?;
            let at = points.put(loop_instruction(program, target, args, next), origin)?;
            Ok(at)
        }
    }
}

/// The code of an `if` with this test and these blocks.
#[cycle(emit)]
fn emit_if<'a>(
    alloc: Global,
    points: &mut Points<'a>,
    program: &ProgramNames,
    locals: &[&Text],
    stmt: &'a Stmt,
    test: &'a Expr,
    one: &'a Block,
    other: &'a Block,
    next: usize,
) -> Result<usize, AllocError>
    requires is { stmt.now ≡ Stmt.If test.now one.now other.now }
    requires within { next < length points.old.points }
    requires names { (point_at points.old.points next).names ≡ map (λ n. n.now) locals.now }
    ensures emitted { IfOk result (λ at. Emitted program.now (map (λ n. n.now) locals.now)
        points.old points.new (run stmt.now ∷ (point_at points.old.points next).todo) at) }
    ensures within { IfOk result (λ at. (at < length points.new.points)
        × (length points.old.points ≤ length points.new.points)) }
    ensures names { IfOk result (λ at. (point_at points.new.points at).names
        ≡ map (λ n. n.now) locals.now) }
{
    let test = resolve(alloc, locals, test)?;
    let other = emit_block(alloc, points, program, locals, other.as_slice(), next)?;
    let one = emit_block(alloc, points, program, locals, one.as_slice(), next)?;
    let branch = Instruction::Branch {
        test,
        one,
        other,
        next,
    };
    let at = points.put(branch, Origin::Run { stmt, next })?;
    Ok(at)
}

/// The code of a `while` with this test and body.
#[cycle(emit)]
fn emit_while<'a>(
    alloc: Global,
    points: &mut Points<'a>,
    program: &ProgramNames,
    locals: &[&Text],
    stmt: &'a Stmt,
    test: &'a Expr,
    body: &'a Block,
    next: usize,
) -> Result<usize, AllocError>
    requires is { stmt.now ≡ Stmt.While test.now body.now }
    requires within { next < length points.old.points }
    requires names { (point_at points.old.points next).names ≡ map (λ n. n.now) locals.now }
    ensures emitted { IfOk result (λ at. Emitted program.now (map (λ n. n.now) locals.now)
        points.old points.new (run stmt.now ∷ (point_at points.old.points next).todo) at) }
    ensures within { IfOk result (λ at. (at < length points.new.points)
        × (length points.old.points ≤ length points.new.points)) }
    ensures names { IfOk result (λ at. (point_at points.new.points at).names
        ≡ map (λ n. n.now) locals.now) }
{
    let test = resolve(alloc, locals, test)?;
    // Its body leads back to it, so its point comes first.
    let at = points.put(Instruction::End, Origin::Run { stmt, next })?;
    let one = emit_block(alloc, points, program, locals, body.as_slice(), at)?;
    let branch = Instruction::Branch {
        test,
        one,
        other: next,
        next,
    };
    points.patch(at, branch);
    Ok(at)
}

/// The code of a `finish` with this body.
#[cycle(emit)]
fn emit_finish<'a>(
    alloc: Global,
    points: &mut Points<'a>,
    program: &ProgramNames,
    locals: &[&Text],
    stmt: &'a Stmt,
    body: &'a Block,
    next: usize,
) -> Result<usize, AllocError>
    requires is { stmt.now ≡ Stmt.Finish body.now }
    requires within { next < length points.old.points }
    requires names { (point_at points.old.points next).names ≡ map (λ n. n.now) locals.now }
    ensures emitted { IfOk result (λ at. Emitted program.now (map (λ n. n.now) locals.now)
        points.old points.new (run stmt.now ∷ (point_at points.old.points next).todo) at) }
    ensures within { IfOk result (λ at. (at < length points.new.points)
        × (length points.old.points ≤ length points.new.points)) }
    ensures names { IfOk result (λ at. (point_at points.new.points at).names
        ≡ map (λ n. n.now) locals.now) }
{
    let arrive = points.put(Instruction::Arrive { next }, Origin::Arrive { next })?;
    let body = emit_block(alloc, points, program, locals, body.as_slice(), arrive)?;
    let at = points.put(Instruction::Finish { body }, Origin::Run { stmt, next })?;
    Ok(at)
}

//! The walk over a task's text.
ghost use Rattle.std.specs.Prelude.{◌≡◌, [], OnOk};
ghost use Rattle.gr_accept.specs.Walks as spec;
ghost use Rattle.gr_checker.specs.ScopeView.{noted_in};
ghost use Rattle.gr_checker.specs.WalkView.{after};

use crate::calls::{check_call, check_expr, check_exprs, check_locals, check_start};
use crate::earliest::Earliest;
use crate::scope::Scope;
use gr_syntax::{Expr, HowText, Kind, MAX_LOCALS, Name, Right, Stmt};
use std::alloc::AllocError;

/// A walk through a task's text.
#[derive(Drop)]
pub struct Walk<'s, 'a> {
    /// The earliest fault so far.
    pub found: Earliest,
    /// What names stand for.
    pub scope: Scope<'s, 'a>,
}

#[tactic(auto, unfolding(gr_accept::specs::Conditions::faults_at), using(crate::proofs::Leasts::leasts))]
fn give<'a>(walk: &mut Walk<'_, 'a>, name: &'a Name) -> Result<(), AllocError>
    ensures { OnOk result (walk.new ≡ after walk.old (spec.given name.now)) }
{
    let is_there = walk.scope.named.has(&name.text);
    let is_full = walk.scope.named.len() == MAX_LOCALS;
    walk.found.note_if(is_there, Kind::Duplicate, name.at);
    walk.found
        .note_if(!is_there && is_full, Kind::TooMany, name.at);
    walk.scope.named.add(&name.text)?;
    walk.scope.visible.add(&name.text)?;
    Ok(())
}

/// Gives the task these names one after the other, and makes them visible. An error is want of memory.
#[tactic(auto, using(crate::proofs::Leasts::leasts))]
pub fn give_all<'a>(walk: &mut Walk<'_, 'a>, names: &'a [Name]) -> Result<(), AllocError>
    ensures { OnOk result (walk.new ≡ after walk.old (spec.givens names.now)) }
{
    for name in names {
        give(walk, name)?;
    }
    Ok(())
}

#[tactic(auto, using(crate::proofs::Leasts::leasts))]
fn check_targets<'a>(
    walk: &mut Walk<'_, 'a>,
    fresh: bool,
    names: &'a [Name],
) -> Result<(), AllocError>
    ensures { OnOk result (walk.new ≡ after walk.old (spec.targets fresh names.now)) }
{
    if fresh {
        give_all(walk, names)?;
    } else {
        check_locals(&walk.scope, &mut walk.found, names);
    }
    Ok(())
}

fn check_right(scope: &Scope, found: &mut Earliest, targets: &[Name], right: &Right)
    ensures { found.new ≡ noted_in scope.now found.old (spec.right_sites targets.now right.now) }
{
    match right {
        Right::Value { value } => check_expr(scope, found, value),
        Right::Result { call } => check_call(scope, found, targets, call),
    }
}

fn check_set<'a>(
    walk: &mut Walk<'_, 'a>,
    fresh: bool,
    names: &'a [Name],
    right: &Right,
) -> Result<(), AllocError>
    ensures { let right_then = spec.both (spec.only (spec.right_sites names.now right.now)) in
        OnOk result (walk.new ≡ after walk.old (right_then (spec.targets fresh names.now))) }
{
    check_right(&walk.scope, &mut walk.found, names, right);
    check_targets(walk, fresh, names)?;
    Ok(())
}

fn check_how(scope: &Scope, found: &mut Earliest, how: &HowText)
    ensures { found.new ≡ noted_in scope.now found.old (spec.how_sites how.now) }
{
    match how {
        HowText::At { core } => check_expr(scope, found, core),
        _ => (),
    }
}

#[tactic(auto, using(crate::proofs::Leasts::leasts))]
fn check_spawn(scope: &Scope, found: &mut Earliest, how: &HowText, target: &Name, args: &[Expr])
    ensures { let part = spec.spawn_sites how.now target.now args.now in
        found.new ≡ noted_in scope.now found.old part }
{
    check_how(scope, found, how);
    check_start(scope.meanings, found, target, args.len());
    check_exprs(scope, found, args);
}

#[tactic(auto, using(crate::proofs::Leasts::leasts))]
fn check_forall(
    scope: &Scope,
    found: &mut Earliest,
    lo: &Expr,
    hi: &Expr,
    grain: &Expr,
    target: &Name,
    args: &[Expr],
)
    ensures { let part = spec.forall_sites lo.now hi.now grain.now target.now args.now in
        found.new ≡ noted_in scope.now found.old part }
{
    check_expr(scope, found, lo);
    check_expr(scope, found, hi);
    check_expr(scope, found, grain);
    check_start(scope.meanings, found, target, args.len() + 1);
    check_exprs(scope, found, args);
}

/// Notes the faults of a statement, and goes on after it. An error is want of memory.
#[cycle(statements)]
#[tactic(auto, using(crate::proofs::Statements::statements))]
pub fn check_stmt<'a>(walk: &mut Walk<'_, 'a>, stmt: &'a Stmt) -> Result<(), AllocError>
    ensures { OnOk result (walk.new ≡ after walk.old (spec.stmt stmt.now)) }
{
    match stmt {
        Stmt::Set1 {
            fresh,
            targets,
            right,
        } => {
            check_set(walk, *fresh, targets.as_slice(), right)?;
            Ok(())
        }
        Stmt::Do { call } => {
            check_call(&walk.scope, &mut walk.found, &[], call);
            Ok(())
        }
        Stmt::Print { value } => {
            check_expr(&walk.scope, &mut walk.found, value);
            Ok(())
        }
        Stmt::If { test, yes, no } => {
            check_expr(&walk.scope, &mut walk.found, test);
            check_block(walk, yes.as_slice())?;
            check_block(walk, no.as_slice())?;
            Ok(())
        }
        Stmt::While { test, body } => {
            check_expr(&walk.scope, &mut walk.found, test);
            check_block(walk, body.as_slice())?;
            Ok(())
        }
        Stmt::Finish { body } => {
            check_block(walk, body.as_slice())?;
            Ok(())
        }
        Stmt::Spawn { how, target, args } => {
            check_spawn(&walk.scope, &mut walk.found, how, target, args.as_slice());
            Ok(())
        }
        Stmt::Forall {
            lo,
            hi,
            grain,
            target,
            args,
        } => {
            check_forall(
                &walk.scope,
                &mut walk.found,
                lo,
                hi,
                grain,
                target,
                args.as_slice(),
            );
            Ok(())
        }
    }
}

/// Notes the faults of statements, and goes on after them, with the names that they give visible. An error
/// is want of memory.
#[cycle(statements)]
#[tactic(auto, using(crate::proofs::Statements::statements))]
pub fn check_all<'a>(walk: &mut Walk<'_, 'a>, block: &'a [Stmt]) -> Result<(), AllocError>
    ensures { OnOk result (walk.new ≡ after walk.old (spec.stmts block.now)) }
{
    for stmt in block {
        check_stmt(walk, stmt)?;
    }
    Ok(())
}

#[cycle(statements)]
#[tactic(auto, using(crate::proofs::Statements::statements))]
fn check_block<'a>(walk: &mut Walk<'_, 'a>, block: &'a [Stmt]) -> Result<(), AllocError>
    ensures { OnOk result (walk.new ≡ after walk.old (spec.closed (spec.stmts block.now))) }
{
    let before = walk.scope.visible.len();
    check_all(walk, block)?;
    walk.scope.visible.truncate(before);
    Ok(())
}

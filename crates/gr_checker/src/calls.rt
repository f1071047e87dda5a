//! Expressions and calls.
ghost use Rattle.std.specs.Prelude.{◌≡◌, [], ◌∷◌, slice_get};
ghost use Rattle.gr_checker.specs.EarliestWords.{least, seen};
ghost use Rattle.gr_accept.specs.Conditions as spec;
ghost use Rattle.gr_accept.specs.Sites.{mentions, calls, starts, shows};
ghost use Rattle.gr_checker.specs.MeaningView.{meaning_of};
ghost use Rattle.gr_checker.specs.ScopeView.{noted_in};
ghost use Rattle.gr_accept.specs.Walks.{expr_sites, exprs_sites, locals_sites, call_sites};

use crate::earliest::Earliest;
use crate::meanings::Meanings;
use crate::scope::Scope;
use gr_accept::{Declared, Operation, operation_of, reducer_of};
use gr_syntax::{CallText, Expr, Kind, Name};

/// Notes a local that is read or assigned and isn't visible.
#[tactic(auto, unfolding(gr_accept::specs::Conditions::faults_at), using(crate::proofs::Leasts::leasts))]
fn check_local(scope: &Scope, found: &mut Earliest, name: &Name)
    ensures { found.new ≡ noted_in scope.now found.old (λ visible. mentions name.now visible ∷ []) }
{
    let is_visible = scope.visible.has(&name.text);
    found.note_if(!is_visible, Kind::Unknown, name.at);
}

/// Notes the faults of an expression where these locals are visible.
#[tactic(auto, using(crate::proofs::Trees::trees))]
pub fn check_expr(scope: &Scope, found: &mut Earliest, expr: &Expr)
    ensures { found.new ≡ noted_in scope.now found.old (λ visible. expr_sites visible expr.now) }
{
    match expr {
        Expr::Lit { .. } => (),
        Expr::Local { name } => check_local(scope, found, name),
        Expr::Not { inner } => check_expr(scope, found, inner.get()),
        Expr::Two { left, right, .. } => {
            check_expr(scope, found, left.get());
            check_expr(scope, found, right.get());
        }
    }
}

/// Notes the faults of arguments, from left to right.
#[tactic(auto, using(crate::proofs::Leasts::leasts))]
pub fn check_exprs(scope: &Scope, found: &mut Earliest, exprs: &[Expr])
    ensures { found.new ≡ noted_in scope.now found.old (λ visible. exprs_sites visible exprs.now) }
{
    for expr in exprs {
        check_expr(scope, found, expr);
    }
}

/// Notes the faults of targets that are locals of the task already.
#[tactic(auto, using(crate::proofs::Leasts::leasts))]
pub fn check_locals(scope: &Scope, found: &mut Earliest, names: &[Name])
    ensures { found.new ≡ noted_in scope.now found.old (λ visible. locals_sites visible names.now) }
{
    for name in names {
        check_local(scope, found, name);
    }
}

fn is_task(declared: Option<Declared>) -> bool
    ensures { result ≡ spec.is_task declared }
{
    matches!(declared, Some(Declared::Task { .. }))
}

fn is_object(declared: Option<Declared>) -> bool
    ensures { result ≡ spec.is_object declared }
{
    match declared {
        None => false,
        Some(Declared::Task { .. }) => false,
        Some(_) => true,
    }
}

fn differs(declared: Option<Declared>, count: usize) -> bool
    ensures { result ≡ spec.differs declared count }
{
    match declared {
        Some(Declared::Task { params }) => params != count,
        _ => false,
    }
}

fn misses(declared: Option<Declared>, operation: Option<Operation>) -> bool
    ensures { result ≡ spec.misses declared operation }
{
    match operation {
        None => false,
        Some(operation) => match declared {
            None => false,
            Some(Declared::Task { .. }) => false,
            Some(declared) => !operation.works_on(declared),
        },
    }
}

fn misfits(operation: Option<Operation>, count: usize, has_reducer: bool) -> bool
    ensures { result ≡ spec.misfits operation count has_reducer }
{
    match operation {
        None => false,
        Some(operation) => {
            let is_misfit = if operation.takes_reducer() {
                !has_reducer
            } else {
                has_reducer
            };
            count != operation.argument_count() || is_misfit
        }
    }
}

fn miscounts(declared: Option<Declared>, operation: Option<Operation>, count: usize) -> bool
    ensures { result ≡ spec.miscounts declared operation count }
{
    match declared {
        None => false,
        Some(declared) => match operation {
            None => false,
            Some(operation) => operation.works_on(declared) && count != operation.result_count(),
        },
    }
}

/// Notes a `show` of a name that is no object.
#[tactic(auto, unfolding(gr_accept::specs::Conditions::faults_at), using(crate::proofs::Leasts::leasts))]
pub fn check_shown(meanings: &Meanings, found: &mut Earliest, name: &Name)
    ensures { found.new ≡ seen (meaning_of meanings.now) found.old (shows name.now ∷ []) }
{
    let declared = meanings.get(&name.text);
    found.note_if(declared.is_none(), Kind::Unknown, name.at);
    found.note_if(is_task(declared), Kind::WrongKind, name.at);
}

/// Notes the start of what is no task, or of a task with another number of parameters than `count`.
#[tactic(auto, unfolding(gr_accept::specs::Conditions::faults_at), using(crate::proofs::Leasts::leasts))]
pub fn check_start(meanings: &Meanings, found: &mut Earliest, name: &Name, count: usize)
    ensures { found.new ≡ seen (meaning_of meanings.now) found.old (starts name.now count ∷ []) }
{
    let declared = meanings.get(&name.text);
    found.note_if(declared.is_none(), Kind::Unknown, name.at);
    found.note_if(is_object(declared), Kind::WrongKind, name.at);
    found.note_if(differs(declared, count), Kind::WrongArity, name.at);
}

fn check_reducer(found: &mut Earliest, reducer: &Option<Name>)
    ensures { found.new ≡ least found.old (spec.reducer_unknown reducer.now) }
{
    match reducer {
        None => (),
        Some(name) => {
            let reducer = reducer_of(name.text.as_bytes());
            found.note_if(reducer.is_none(), Kind::Unknown, name.at);
        }
    }
}

fn check_first(found: &mut Earliest, is_wrong: bool, targets: &[Name])
    ensures { found.new ≡ least found.old (spec.at_first is_wrong (slice_get targets.now 0)) }
{
    if let Some(first) = targets.get(0) {
        found.note_if(is_wrong, Kind::WrongArity, first.at);
    }
}

#[tactic(auto, unfolding(gr_accept::specs::Conditions::faults_at), using(crate::proofs::Leasts::leasts))]
fn check_operation(meanings: &Meanings, found: &mut Earliest, targets: &[Name], call: &CallText)
    ensures { let sites = calls call.now targets.now ∷ [] in
        found.new ≡ seen (meaning_of meanings.now) found.old sites }
{
    let declared = meanings.get(&call.object.text);
    let operation = operation_of(call.op.text.as_bytes());
    let is_missed = misses(declared, operation);
    let is_misfit = misfits(operation, call.args.len(), call.reducer.is_some());
    let is_miscounted = miscounts(declared, operation, targets.len());
    found.note_if(declared.is_none(), Kind::Unknown, call.object.at);
    found.note_if(operation.is_none(), Kind::Unknown, call.op.at);
    check_reducer(found, &call.reducer);
    found.note_if(is_task(declared), Kind::WrongKind, call.object.at);
    found.note_if(is_missed, Kind::WrongKind, call.op.at);
    found.note_if(is_misfit, Kind::WrongArity, call.op.at);
    check_first(found, is_miscounted, targets);
}

/// Notes the faults of a call, with the targets of its result words, and of its arguments.
#[tactic(auto, using(crate::proofs::Leasts::leasts))]
pub fn check_call(scope: &Scope, found: &mut Earliest, targets: &[Name], call: &CallText)
    ensures { found.new ≡ noted_in scope.now found.old (call_sites targets.now call.now) }
{
    check_operation(scope.meanings, found, targets, call);
    check_exprs(scope, found, call.args.as_slice());
}

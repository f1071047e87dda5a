//! The test whether each assignment of a program has as many targets as the grammar gives it.
ghost use Rattle.std.specs.Prelude.{◌≡◌};
ghost use Rattle.std.specs.List.{list_all};
ghost use Rattle.gr_syntax.specs.Targets as spec;

use crate::syntax::{Item, Name, Program, Right, Stmt};

fn fit(targets: &[Name], right: &Right) -> bool
    ensures { result ≡ spec.fit targets.now right.now }
{
    match right {
        Right::Value { .. } => targets.len() == 1,
        Right::Result { .. } => targets.len() == 1 || targets.len() == 2,
    }
}

#[cycle(fits)]
#[tactic(auto, using(crate::proofs::Fits::fits))]
fn stmt_fits(stmt: &Stmt) -> bool
    ensures { result ≡ spec.stmt_fits stmt.now }
{
    match stmt {
        Stmt::Set1 { targets, right, .. } => fit(targets.as_slice(), right),
        Stmt::If { yes, no, .. } => all_fit(yes.as_slice()) && all_fit(no.as_slice()),
        Stmt::While { body, .. } => all_fit(body.as_slice()),
        Stmt::Finish { body } => all_fit(body.as_slice()),
        Stmt::Do { .. } => true,
        Stmt::Print { .. } => true,
        Stmt::Spawn { .. } => true,
        Stmt::Forall { .. } => true,
    }
}

#[cycle(fits)]
#[tactic(auto, using(crate::proofs::Fits::fits))]
fn all_fit(block: &[Stmt]) -> bool
    ensures { result ≡ list_all spec.stmt_fits block.now }
{
    for stmt in block {
        if !stmt_fits(stmt) {
            return false;
        }
    }
    true
}

fn item_fits(item: &Item) -> bool
    ensures { result ≡ spec.item_fits item.now }
{
    match item {
        Item::Task { body, .. } => all_fit(body.as_slice()),
        _ => true,
    }
}

/// Whether each assignment in each task's body has one target before an expression, and one or two before
/// a call.
pub fn targets_fit(program: &Program) -> bool
    ensures { result ≡ spec.targets_fit program.now }
{
    for item in program.items.as_slice() {
        if !item_fits(item) {
            return false;
        }
    }
    true
}

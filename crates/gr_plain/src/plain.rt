//! The plain memory with its tasks, as a machine that takes the entries of a history one by one.
ghost use Rattle.std.specs.Prelude.{◌≡◌, IfOk, None, OnOk, Some};
ghost use Rattle.gr_memory.specs.Contents.{contents_of};
ghost use Rattle.gr_plain.specs.CountWords.{IsCounted, is_work_in as is_work_in_scope};
ghost use Rattle.gr_plain.specs.DueWords.{is_blocked as is_blocked_by};
ghost use Rattle.gr_plain.specs.Held.{entry_due, opening_held, stepped};

use crate::plain_state::PlainState;
use gr_accept::Accepted;
use gr_lang::{Entry, TaskId};
use gr_memory::Contents;
use gr_tables::{change_numbers, number_in};
use gr_valid::{states_stay_valid, work_is_direct};
use std::alloc::{AllocError, Global};
use std::marker::Model;
use thiserror::Error;

/// Why an entry wasn't taken.
#[derive(Debug, Drop, Error)]
pub enum StepError {
    /// The entry isn't legal here.
    #[error("not legal")]
    NotLegal,
    /// There is no memory.
    #[error("out of memory")]
    OutOfMemory,
}

impl From<AllocError> for StepError {
    ghost use Rattle.std.specs.Prelude.{◌≡◌};
    ghost use Rattle.gr_plain.specs.declared.plain.StepError.TheVariants as error;

    ghost from_gives = { λ e r. r ≡ error.OutOfMemory };

    fn from(error: AllocError) -> StepError {
        let _ = error;
        StepError::OutOfMemory
    }
}

/// One plain memory with the tasks and scopes of a program, which takes the entries of a history.
#[derive(Drop)]
pub struct Plain<'a> {
    held: PlainState<'a>,
    /// For each scope, the number of its tasks that haven't ended.
    unended: Vec<u64>,
    /// Whether a step broke off for want of memory, so that the numbers may be wrong. Then no more
    /// steps are taken.
    is_broken: bool,
}

impl<'a> Model for Plain<'a> {
    ghost use Rattle.gr_plain.specs.Held.{Held};
    ghost use Rattle.std.specs.Coded.{codes, coded_ℕ};
    ghost use Rattle.std.specs.FinMap as fin;
    ghost use Rattle.std.specs.FinSet as set;
    ghost use Rattle.std.specs.Ordering.{nat_cmp};
    ghost use Rattle.gr_syntax.specs.contracts.syntax.Stmt as stmt;
    ghost use Rattle.gr_lang.specs.States.{id_cmp, Task};

    ghost Value = { Held };

    ghost coded = { Prim.hlevel (codes, stmt.the_row.coded, set.code {R = nat_cmp} coded_ℕ, fin.code {R = nat_cmp} coded_ℕ coded_ℕ, fin.code {X = Task} {R = id_cmp} (Prim.hlevel codes) (Prim.hlevel (codes, stmt.the_row.coded))) };

    ghost use Rattle.gr_plain.specs.PlainView.{IsKept};

    ghost view = { λ p. p.held };

    ghost invariant = { IsKept };
}

/// Whether a task stands in the scope that hasn't ended, or an index of its range hasn't begun.
fn is_work_in(held: &PlainState, unended: &[u64], scope: u64) -> bool
    ensures { result ≡ is_work_in_scope unended.now held.now.state scope }
{
    let has_tasks = number_in(unended, scope) > 0;
    has_tasks || held.is_range_left(scope)
}

/// Whether work is left under the scope that the entry passes.
fn is_blocked(held: &PlainState, unended: &[u64], entry: &Entry) -> bool
    requires { IsCounted held.now.program held.now.state unended.now }
    ensures { result ≡ is_blocked_by held.now.state entry.now }
{
    work_is_direct();
    match entry {
        Entry::Pass { task } => match held.passes(*task) {
            None => false,
            Some(scope) => is_work_in(held, unended, scope),
        },
        Entry::Over => is_work_in(held, unended, 0),
        _ => false,
    }
}

/// Takes an entry, and keeps the numbers. Where it isn't legal, nothing has changed.
fn take(
    held: &mut PlainState,
    unended: &mut Vec<u64>,
    alloc: Global,
    entry: &Entry,
) -> Result<(), StepError>
    requires { IsCounted held.old.program held.old.state unended.old.items }
    ensures ok { OnOk result (stepped held.old entry.now ≡ Some held.new) }
    ensures counted { OnOk result (IsCounted held.new.program held.new.state unended.new.items) }
    ensures not_legal { result ≡ Err StepError.NotLegal
        → (stepped held.old entry.now ≡ None) × (held.new ≡ held.old) }
    ensures as_before { result ≡ Err StepError.NotLegal → unended.new.items ≡ unended.old.items }
{
    let is_left = is_blocked(held, unended, entry);
    let change = held.change(entry);
    held.step(alloc, entry, is_left)?;
    states_stay_valid();
    // Each number is at most the number of tasks, which fits 64 bits.
    let _ = held.task_count();
    change_numbers(unended, change)?;
    Ok(())
}

impl<'a> Plain<'a> {
    /// The state before the first entry: the opening objects, and `main` at its first action.
    /// `steps` is the limit of pure steps between two actions.
    pub fn start(
        alloc: Global,
        program: &'a Accepted,
        cores: u64,
        steps: u64,
    ) -> Result<Plain<'a>, AllocError>
        ensures { IfOk result (λ plain. plain ≡ opening_held program.now cores steps) }
    {
        let held = PlainState::start(alloc, program, cores, steps)?;
        let mut unended = Vec::new(alloc);
        unended.push(1)?;
        states_stay_valid();
        Ok(Plain {
            held,
            unended,
            is_broken: false,
        })
    }

    /// Takes the next entry of a history. `NotLegal` where the entry is no step, and then nothing
    /// has changed. After `OutOfMemory` the state is of no more use.
    pub fn step(&mut self, alloc: Global, entry: &Entry) -> Result<(), StepError>
        ensures ok { OnOk result (stepped self.old entry.now ≡ Some self.new) }
        ensures not_legal { result ≡ Err StepError.NotLegal
            → (stepped self.old entry.now ≡ None) × (self.new ≡ self.old) }
    {
        if self.is_broken {
            return Err(StepError::OutOfMemory);
        }
        self.is_broken = true;
        let taken = take(&mut self.held, &mut self.unended, alloc, entry);
        match taken {
            Ok(()) => {
                self.is_broken = false;
                Ok(())
            }
            Err(StepError::NotLegal) => {
                self.is_broken = false;
                Err(StepError::NotLegal)
            }
            Err(StepError::OutOfMemory) => Err(StepError::OutOfMemory),
        }
    }

    /// The legal entry of a going task whose next action is a call, an end or a trap; None for any
    /// other task.
    pub fn next_call(&self, task: TaskId) -> Result<Option<Entry>, AllocError>
        ensures { IfOk result (λ entry. entry ≡ entry_due self.now.state task) }
    {
        self.held.next_call(task)
    }

    /// What each object holds but the heap, by the objects' numbers. An error is want of memory.
    pub fn contents(&self, alloc: Global) -> Result<Contents, AllocError>
        ensures { IfOk result (λ contents. contents ≡ contents_of self.now.state.objects) }
    {
        self.held.contents(alloc)
    }

    /// Whether the root scope is passed, as it is exactly after a complete history.
    pub fn complete(&self) -> bool
        ensures { result ≡ self.now.state.passed }
    {
        self.held.complete()
    }
}

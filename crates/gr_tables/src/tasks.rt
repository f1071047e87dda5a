//! The tasks of a run by their ids.
ghost use Rattle.std.specs.Prelude.{◌≡◌, ◌∷◌, IfOk, OnOk, length};
ghost use Rattle.std.specs.BTreeMap.{IsOrdered};
ghost use Rattle.std.specs.FinMap as fin;
ghost use Rattle.std.specs.Option.{option_copied};
ghost use Rattle.gr_lang.specs.States.{child, id_cmp, innermost, is_at_loop as at_loop_mode, is_going as going_mode};
ghost use Rattle.gr_lang.specs.Steps.{goes_on as gone_on};
ghost use Rattle.gr_tables.specs.Stacks.{top_of, under_top};
ghost use Rattle.gr_tables.specs.TaskView.{mode_of};
ghost use Rattle.gr_tables.specs.Turns.{changed_at, scope_if, turned};

use crate::word_stack::WordStack;
use gr_lang::{Action, Reply, TaskId};
use gr_steps::{Running, Table};
use std::alloc::{AllocError, Global};
use std::collections::BTreeMap;
use std::marker::Model;

/// A task goes on, waits at its loop, has ended or is trapped.
#[derive(Clone, Copy)]
pub enum Mode {
    Going,
    AtLoop,
    Ended,
    Trapped,
}

/// What an entry makes of a task.
#[derive(Clone, Copy)]
pub enum Turn {
    /// It goes on after its action, with the reply's words.
    GoesOn { reply: Reply },
    /// It goes on in this scope, which it opens.
    Enters { scope: u64 },
    /// It waits at its loop, for which it opens this scope.
    Waits { scope: u64 },
    /// It leaves its innermost scope, and goes on.
    Leaves,
    /// It ends.
    Ends,
    /// It is trapped.
    Traps,
}

/// A task: the scope in which it stands, its next action and what it still has to do there, and the
/// scopes that it has opened and not passed.
#[derive(Drop)]
pub struct Row<'a> {
    scope: u64,
    action: Action,
    running: Running<'a>,
    opened: WordStack,
    mode: Mode,
}

impl<'a> Model for Row<'a> {
    ghost use Rattle.gr_lang.specs.States.{Task};
    ghost use Rattle.std.specs.Coded.{codes};
    ghost use Rattle.gr_syntax.specs.contracts.syntax.Stmt as stmt;

    ghost Value = { Task };

    ghost coded = { Prim.hlevel (codes, stmt.the_row.coded) };

    ghost use Rattle.gr_tables.specs.TaskView.{task_of};

    ghost view = { task_of };
}

impl<'a> Row<'a> {
    /// A new task in a scope, at its first action.
    pub fn start(
        alloc: Global,
        table: &Table<'a>,
        steps: u64,
        scope: u64,
        target: u64,
        args: &[u64],
    ) -> Result<Row<'a>, AllocError>
        ensures { IfOk result (λ row. row ≡ child table.now steps scope target args.now) }
    {
        let mut running = Running::start(alloc, table, target, args)?;
        let action = running.next(alloc, table, steps)?;
        Ok(Row {
            scope,
            action,
            running,
            opened: WordStack::new(alloc),
            mode: Mode::Going,
        })
    }

    /// The scope in which it stands.
    pub fn scope(&self) -> u64
        ensures { result ≡ self.now.scope }
    {
        self.scope
    }

    /// The scope under which its new work stands.
    pub fn innermost(&self) -> u64
        ensures { result ≡ innermost self.now }
    {
        self.opened.top().unwrap_or(self.scope)
    }

    /// The scope under which its new work stands, where it goes on and this is due.
    pub fn scope_if(&self, is_due: bool) -> Option<u64>
        ensures { result ≡ scope_if is_due self.now }
    {
        if self.is_going() && is_due {
            Some(self.innermost())
        } else {
            None
        }
    }

    /// The innermost scope that it has opened and not passed.
    pub fn opened(&self) -> Option<u64>
        ensures { result ≡ top_of self.now.opened }
    {
        self.opened.top()
    }

    /// Its next action.
    pub fn action(&self) -> &Action
        ensures { result.now ≡ self.now.action }
    {
        &self.action
    }

    /// Whether it goes on.
    pub fn is_going(&self) -> bool
        ensures { result ≡ going_mode self.now.mode }
    {
        matches!(self.mode, Mode::Going)
    }

    /// Whether it waits at its loop.
    pub fn is_at_loop(&self) -> bool
        ensures { result ≡ at_loop_mode self.now.mode }
    {
        matches!(self.mode, Mode::AtLoop)
    }

    fn set_mode(&mut self, mode: Mode)
        ensures { self.new ≡ record self.old { mode = mode_of mode } }
    {
        self.mode = mode;
    }

    fn enter(&mut self, scope: u64) -> Result<(), AllocError>
        ensures { OnOk result (self.new ≡ record self.old { opened = scope ∷ self.old.opened }) }
    {
        self.opened.push(scope)
    }

    fn leave(&mut self)
        ensures { self.new ≡ record self.old { opened = under_top self.old.opened } }
    {
        self.opened.drop_top();
    }

    /// Goes on to the next action.
    fn go_on(
        &mut self,
        alloc: Global,
        table: &Table,
        steps: u64,
        reply: Reply,
    ) -> Result<(), AllocError>
        ensures { OnOk result (self.new ≡ gone_on table.now steps self.old reply) }
    {
        self.running.go_on(reply)?;
        self.action = self.running.next(alloc, table, steps)?;
        self.mode = Mode::Going;
        Ok(())
    }

    /// Takes this turn.
    fn turn(
        &mut self,
        alloc: Global,
        table: &Table,
        steps: u64,
        turn: Turn,
    ) -> Result<(), AllocError>
        ensures { OnOk result (self.new ≡ turned table.now steps turn self.old) }
    {
        match turn {
            Turn::GoesOn { reply } => self.go_on(alloc, table, steps, reply),
            Turn::Enters { scope } => {
                self.go_on(alloc, table, steps, Reply::nothing())?;
                self.enter(scope)
            }
            Turn::Waits { scope } => {
                self.set_mode(Mode::AtLoop);
                self.enter(scope)
            }
            Turn::Leaves => {
                self.leave();
                self.go_on(alloc, table, steps, Reply::nothing())
            }
            Turn::Ends => {
                self.set_mode(Mode::Ended);
                Ok(())
            }
            Turn::Traps => {
                self.set_mode(Mode::Trapped);
                Ok(())
            }
        }
    }
}

fn row_count(rows: &BTreeMap<TaskId, Row>) -> usize
    ensures value { result ≡ length rows.now.entries }
    ensures ordered { IsOrdered id_cmp rows.now }
{
    rows.len()
}

/// The tasks by id.
#[derive(Drop)]
pub struct Tasks<'a> {
    rows: BTreeMap<TaskId, Row<'a>>,
}

impl<'a> Model for Tasks<'a> {
    ghost use Rattle.std.specs.FinMap as fin;
    ghost use Rattle.gr_lang.specs.States.{Task, id_cmp};
    ghost use Rattle.std.specs.Coded.{codes};
    ghost use Rattle.gr_syntax.specs.contracts.syntax.Stmt as stmt;

    ghost Value = { fin.FinMap id_cmp Task };

    ghost coded = { fin.code (Prim.hlevel codes) (Prim.hlevel (codes, stmt.the_row.coded)) };

    ghost view = { λ t. fin.from_entries t.rows.entries };
}

impl<'a> Tasks<'a> {
    /// No tasks.
    pub fn new(alloc: Global) -> Tasks<'a>
        ensures { result ≡ fin.empty }
    {
        Tasks {
            rows: BTreeMap::new(alloc),
        }
    }

    /// The task of this id.
    pub fn get(&self, id: TaskId) -> Option<&Row<'a>>
        ensures { option_copied result ≡ fin.get self.now id }
    {
        self.rows.get(&id)
    }

    fn take(&mut self, id: TaskId) -> Option<Row<'a>>
        ensures value { result ≡ fin.get self.old id }
        ensures rest { self.new ≡ fin.remove self.old id }
    {
        self.rows.remove(&id)
    }

    /// The task of this id is this one.
    pub fn put(&mut self, id: TaskId, row: Row<'a>) -> Result<(), AllocError>
        ensures { OnOk result (self.new ≡ fin.insert self.old id row.entry) }
    {
        let _ = self.rows.insert(id, row)?;
        Ok(())
    }

    /// The task of this id takes a turn; where there is none, nothing changes.
    #[tactic(auto, using(gr_lang::proofs::TaskIds::put_back, crate::proofs::Absent::remove_absent))]
    pub fn turn(
        &mut self,
        alloc: Global,
        table: &Table,
        steps: u64,
        id: TaskId,
        turn: Turn,
    ) -> Result<(), AllocError>
        ensures { OnOk result (self.new ≡ changed_at self.old id (turned table.now steps turn)) }
    {
        match self.take(id) {
            None => Ok(()),
            Some(mut row) => {
                row.turn(alloc, table, steps, turn)?;
                self.put(id, row)
            }
        }
    }

    /// The number of tasks.
    pub fn len(&self) -> usize
        ensures { result ≡ fin.len self.now }
    {
        row_count(&self.rows)
    }
}

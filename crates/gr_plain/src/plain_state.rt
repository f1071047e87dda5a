//! The plain memory with its tasks and scopes, and what each entry of a history does to them.
ghost use Rattle.std.specs.Prelude.{◌≡◌, ◌∷◌, ◌++◌, [], IfOk, OnOk, Some, length};
ghost use Rattle.std.specs.FinMap as fin;
ghost use Rattle.std.specs.Option.{option_map, option_and_then};
ghost use Rattle.gr_lang.specs.Objects.{call};
ghost use Rattle.gr_memory.specs.Contents.{contents_of};
ghost use Rattle.gr_lang.specs.States.{child as child_task, innermost, left as work_left};
ghost use Rattle.gr_lang.specs.Steps.{is_new as is_new_id};
ghost use Rattle.gr_plain.specs.Held.{entry_due, opening_held, stepped};
ghost use Rattle.gr_plain.specs.HeldWords.{IsRefused, after_turn, new_scope, with_objects, with_scope, with_scopes, with_tasks};
ghost use Rattle.gr_plain.specs.DueWords.{begin_args, due_begin, due_call, due_end, due_finish, due_loop, due_pass, due_spawn, due_trap, is_blocked, loop_scope};
ghost use Rattle.gr_tables.specs.Scopes.{begun_at, range_of};
ghost use Rattle.gr_plain.specs.CountWords.{change_of};
ghost use Rattle.gr_tables.specs.Stacks.{top_of};
ghost use Rattle.gr_valid.specs.Work.{has_index};

use crate::opening::open_memory;
use crate::plain::StepError;
use gr_accept::Accepted;
use gr_lang::{Action, Entry, How, Op, Reply, TaskId, TrapKind, Words};
use gr_memory::{Contents, Keys, Memory};
use gr_steps::Table;
use gr_syntax::Text;
use gr_tables::{
    Change, RangeRow, Row, ScopeRow, Tasks, Turn, begin_index, call_in, has_core, is_arrive,
    is_end, is_finish, is_loop, is_spawn, is_trap,
};
use std::alloc::{AllocError, Global};
use std::marker::Model;

/// The first task.
const MAIN: TaskId = TaskId { core: 0, number: 0 };

/// One plain memory with the tasks and scopes of a program.
#[derive(Drop)]
pub struct PlainState<'a> {
    table: Table<'a>,
    cores: u64,
    steps: u64,
    memory: Memory,
    tasks: Tasks<'a>,
    scopes: Vec<ScopeRow>,
    passed: bool,
}

impl<'a> Model for PlainState<'a> {
    ghost use Rattle.gr_plain.specs.Held.{Held};
    ghost use Rattle.std.specs.Coded.{codes, coded_ℕ};
    ghost use Rattle.std.specs.FinMap as fin;
    ghost use Rattle.std.specs.FinSet as set;
    ghost use Rattle.std.specs.Ordering.{nat_cmp};
    ghost use Rattle.gr_syntax.specs.contracts.syntax.Stmt as stmt;
    ghost use Rattle.gr_lang.specs.States.{id_cmp, Task};

    ghost Value = { Held };

    ghost coded = { Prim.hlevel (codes, stmt.the_row.coded, set.code {R = nat_cmp} coded_ℕ, fin.code {R = nat_cmp} coded_ℕ coded_ℕ, fin.code {X = Task} {R = id_cmp} (Prim.hlevel codes) (Prim.hlevel (codes, stmt.the_row.coded))) };

    ghost use Rattle.gr_plain.specs.PlainStateView.{held_of};

    ghost view = { held_of };
}

impl<'a> PlainState<'a> {
    /// The state before the first entry: the opening objects, and `main` at its first action.
    /// `steps` is the limit of pure steps between two actions.
    #[tactic(auto, using(crate::proofs::Sizes::heap_small))]
    pub fn start(
        alloc: Global,
        program: &'a Accepted,
        cores: u64,
        steps: u64,
    ) -> Result<PlainState<'a>, AllocError>
        ensures { IfOk result (λ state. state ≡ opening_held program.now cores steps) }
    {
        let text = program.program();
        let (memory, heap) = open_memory(alloc, text)?;
        let table = Table::new(alloc, text, heap)?;
        let main = Text::new("main".to_string(alloc)?);
        let target = table.target_of(&main);
        let row = Row::start(alloc, &table, steps, 0, target, &[])?;
        let mut tasks = Tasks::new(alloc);
        tasks.put(MAIN, row)?;
        let mut scopes = Vec::new(alloc);
        scopes.push(ScopeRow {
            owner: None,
            parent: 0,
            range: None,
        })?;
        Ok(PlainState {
            table,
            cores,
            steps,
            memory,
            tasks,
            scopes,
            passed: false,
        })
    }

    /// The task of this id takes a turn; where there is none, nothing changes.
    fn turn(&mut self, alloc: Global, id: TaskId, turn: Turn) -> Result<(), AllocError>
        ensures { OnOk result (self.new ≡ after_turn self.old id turn) }
    {
        self.tasks.turn(alloc, &self.table, self.steps, id, turn)
    }

    fn put(&mut self, id: TaskId, row: Row<'a>) -> Result<(), AllocError>
        ensures { OnOk result (self.new
            ≡ with_tasks self.old (fin.insert self.old.state.tasks id row.entry)) }
    {
        self.tasks.put(id, row)
    }

    fn open_scope(
        &mut self,
        owner: TaskId,
        parent: u64,
        range: Option<RangeRow>,
    ) -> Result<(), AllocError>
        ensures { OnOk result (self.new
            ≡ with_scope self.old (new_scope owner parent (option_map range_of range))) }
    {
        self.scopes.push(ScopeRow {
            owner: Some(owner),
            parent,
            range,
        })?;
        Ok(())
    }

    fn begin_index(&mut self, scope: u64, index: u64) -> Result<(), AllocError>
        ensures { OnOk result (self.new
            ≡ with_scopes self.old (begun_at self.old.state.scopes scope index)) }
    {
        begin_index(&mut self.scopes, scope, index)
    }

    fn apply(&mut self, op: Op) -> Result<(), AllocError>
        ensures { OnOk result (self.new
            ≡ with_objects self.old (call op self.old.state.objects).0) }
    {
        self.memory.apply(op)
    }

    fn reply(&self, op: Op) -> Reply
        ensures { result ≡ (call op self.now.state.objects).1 }
    {
        self.memory.reply(op)
    }

    /// What each object holds but the heap, by the objects' numbers. An error is want of memory.
    pub fn contents(&self, alloc: Global) -> Result<Contents, AllocError>
        ensures { IfOk result (λ contents. contents ≡ contents_of self.now.state.objects) }
    {
        self.memory.contents(alloc)
    }

    fn scope_count(&self) -> u64
        ensures { result ≡ length self.now.state.scopes }
    {
        self.scopes.len() as u64
    }

    fn is_new(&self, id: TaskId) -> bool
        ensures { result ≡ is_new_id self.now.state id }
    {
        self.tasks.get(id).is_none()
    }

    fn child(
        &self,
        alloc: Global,
        scope: u64,
        target: u64,
        args: &Words,
    ) -> Result<Row<'a>, AllocError>
        ensures { IfOk result (λ row. row
            ≡ child_task self.now.program self.now.steps scope target args.now) }
    {
        Row::start(
            alloc,
            &self.table,
            self.steps,
            scope,
            target,
            args.as_slice(),
        )
    }

    /// Whether an index of the scope's range hasn't begun.
    pub fn is_range_left(&self, scope: u64) -> bool
        ensures { result ≡ has_index self.now.state scope }
    {
        match self.scopes.get(scope as usize) {
            None => false,
            Some(row) => row.is_range_left(),
        }
    }

    /// The number of tasks, those that have ended among them.
    pub fn task_count(&self) -> usize
        ensures { result ≡ fin.len self.now.state.tasks }
    {
        self.tasks.len()
    }

    fn scope(&self, id: TaskId) -> Option<u64>
        ensures { result ≡ option_map (λ task. task.scope) (fin.get self.now.state.tasks id) }
    {
        let row = self.tasks.get(id)?;
        Some(row.scope())
    }

    fn innermost(&self, id: TaskId) -> Option<u64>
        ensures { result ≡ option_map innermost (fin.get self.now.state.tasks id) }
    {
        let row = self.tasks.get(id)?;
        Some(row.innermost())
    }

    fn opened(&self, id: TaskId) -> Option<u64>
        ensures { result
            ≡ option_and_then (λ task. top_of task.opened) (fin.get self.now.state.tasks id) }
    {
        let row = self.tasks.get(id)?;
        row.opened()
    }

    fn due(&self, id: TaskId) -> Option<Op>
        ensures { result ≡ due_call self.now.state id }
    {
        let row = self.tasks.get(id)?;
        if row.is_going() {
            call_in(row.action())
        } else {
            None
        }
    }

    fn spawns(&self, id: TaskId, how: How, target: u64, args: &Words) -> Option<u64>
        ensures { result ≡ due_spawn self.now.state id how target args.now }
    {
        let row = self.tasks.get(id)?;
        row.scope_if(is_spawn(row.action(), how, target, args))
    }

    fn finishes(&self, id: TaskId) -> Option<u64>
        ensures { result ≡ due_finish self.now.state id }
    {
        let row = self.tasks.get(id)?;
        row.scope_if(is_finish(row.action()))
    }

    fn loops(
        &self,
        id: TaskId,
        lo: u64,
        hi: u64,
        grain: u64,
        target: u64,
        args: &Words,
    ) -> Option<u64>
        ensures { result ≡ due_loop self.now.state id lo hi grain target args.now }
    {
        let row = self.tasks.get(id)?;
        row.scope_if(is_loop(row.action(), lo, hi, grain, target, args))
    }

    fn loop_scope(&self, owner: TaskId) -> Option<u64>
        ensures { result ≡ loop_scope self.now.state owner }
    {
        let row = self.tasks.get(owner)?;
        if row.is_at_loop() { row.opened() } else { None }
    }

    fn begins(&self, scope: u64, index: u64) -> Option<u64>
        ensures { result ≡ due_begin self.now.state scope index }
    {
        let row = self.scopes.get(scope as usize)?;
        row.begins(index)
    }

    fn begin_args(&self, alloc: Global, scope: u64, index: u64) -> Result<Words, AllocError>
        ensures { IfOk result (λ args. args ≡ begin_args self.now.state scope index) }
    {
        match self.scopes.get(scope as usize) {
            None => Ok(Words::new(alloc)),
            Some(row) => row.args(alloc, index),
        }
    }

    /// The scope that the task waits to pass.
    pub fn passes(&self, id: TaskId) -> Option<u64>
        ensures { result ≡ due_pass self.now.state id }
    {
        let row = self.tasks.get(id)?;
        let has_arrived = is_arrive(row.action());
        if row.is_at_loop() || (row.is_going() && has_arrived) {
            row.opened()
        } else {
            None
        }
    }

    fn ends(&self, id: TaskId) -> bool
        ensures { result ≡ due_end self.now.state id }
    {
        match self.tasks.get(id) {
            None => false,
            Some(row) => row.is_going() && is_end(row.action()),
        }
    }

    fn traps(&self, id: TaskId, kind: TrapKind) -> bool
        ensures { result ≡ due_trap self.now.cores self.now.state id kind }
    {
        match self.tasks.get(id) {
            None => false,
            Some(row) => row.is_going() && is_trap(self.cores, row.action(), kind),
        }
    }

    fn call(&mut self, alloc: Global, id: TaskId, op: Op, reply: Reply) -> Result<(), StepError>
        ensures ok { OnOk result (stepped self.old (Entry.Call id op reply) ≡ Some self.new) }
        ensures not_legal { result ≡ Err StepError.NotLegal
            → IsRefused self.old (Entry.Call id op reply) self.new }
    {
        let Some(due) = self.due(id) else {
            return Err(StepError::NotLegal);
        };
        let is_due = due.is(op);
        if !is_due {
            return Err(StepError::NotLegal);
        }
        let is_reply = reply.is(&self.reply(op));
        if !is_reply {
            return Err(StepError::NotLegal);
        }
        self.apply(op)?;
        self.turn(alloc, id, Turn::GoesOn { reply })?;
        Ok(())
    }

    fn spawn(
        &mut self,
        alloc: Global,
        id: TaskId,
        how: How,
        target: u64,
        args: &Words,
        child: TaskId,
    ) -> Result<(), StepError>
        ensures ok { OnOk result
            (stepped self.old (Entry.Spawn id how target args.now child) ≡ Some self.new) }
        ensures not_legal { result ≡ Err StepError.NotLegal
            → IsRefused self.old (Entry.Spawn id how target args.now child) self.new }
    {
        let Some(scope) = self.spawns(id, how, target, args) else {
            return Err(StepError::NotLegal);
        };
        let is_there = has_core(self.cores, how);
        if !is_there {
            return Err(StepError::NotLegal);
        }
        let is_new = self.is_new(child);
        if !is_new {
            return Err(StepError::NotLegal);
        }
        let row = self.child(alloc, scope, target, args)?;
        let reply = Reply::nothing();
        self.turn(alloc, id, Turn::GoesOn { reply })?;
        self.put(child, row)?;
        Ok(())
    }

    fn finish(&mut self, alloc: Global, id: TaskId) -> Result<(), StepError>
        ensures ok { OnOk result (stepped self.old (Entry.Finish id) ≡ Some self.new) }
        ensures not_legal { result ≡ Err StepError.NotLegal
            → IsRefused self.old (Entry.Finish id) self.new }
    {
        let Some(parent) = self.finishes(id) else {
            return Err(StepError::NotLegal);
        };
        let scope = self.scope_count();
        self.turn(alloc, id, Turn::Enters { scope })?;
        self.open_scope(id, parent, None)?;
        Ok(())
    }

    fn open_loop(
        &mut self,
        alloc: Global,
        id: TaskId,
        lo: u64,
        hi: u64,
        grain: u64,
        target: u64,
        args: &Words,
    ) -> Result<(), StepError>
        ensures ok { OnOk result
            (stepped self.old (Entry.Loop id lo hi grain target args.now) ≡ Some self.new) }
        ensures not_legal { result ≡ Err StepError.NotLegal
            → IsRefused self.old (Entry.Loop id lo hi grain target args.now) self.new }
    {
        let Some(parent) = self.loops(id, lo, hi, grain, target, args) else {
            return Err(StepError::NotLegal);
        };
        let range = RangeRow {
            lo,
            hi,
            target,
            args: args.copy()?,
            begun: Keys::new(alloc),
        };
        let scope = self.scope_count();
        self.turn(alloc, id, Turn::Waits { scope })?;
        self.open_scope(id, parent, Some(range))?;
        Ok(())
    }

    fn begin(
        &mut self,
        alloc: Global,
        owner: TaskId,
        index: u64,
        child: TaskId,
    ) -> Result<(), StepError>
        ensures ok { OnOk result
            (stepped self.old (Entry.Begin owner index child) ≡ Some self.new) }
        ensures not_legal { result ≡ Err StepError.NotLegal
            → IsRefused self.old (Entry.Begin owner index child) self.new }
    {
        let Some(scope) = self.loop_scope(owner) else {
            return Err(StepError::NotLegal);
        };
        let Some(target) = self.begins(scope, index) else {
            return Err(StepError::NotLegal);
        };
        let is_new = self.is_new(child);
        if !is_new {
            return Err(StepError::NotLegal);
        }
        let args = self.begin_args(alloc, scope, index)?;
        let row = self.child(alloc, scope, target, &args)?;
        self.put(child, row)?;
        self.begin_index(scope, index)?;
        Ok(())
    }

    fn pass(&mut self, alloc: Global, id: TaskId, is_left: bool) -> Result<(), StepError>
        requires { is_left ≡ is_blocked self.old.state (Entry.Pass id) }
        ensures ok { OnOk result (stepped self.old (Entry.Pass id) ≡ Some self.new) }
        ensures not_legal { result ≡ Err StepError.NotLegal
            → IsRefused self.old (Entry.Pass id) self.new }
    {
        if self.passes(id).is_none() || is_left {
            return Err(StepError::NotLegal);
        }
        self.turn(alloc, id, Turn::Leaves)?;
        Ok(())
    }

    fn end(&mut self, alloc: Global, id: TaskId) -> Result<(), StepError>
        ensures ok { OnOk result (stepped self.old (Entry.End id) ≡ Some self.new) }
        ensures not_legal { result ≡ Err StepError.NotLegal
            → IsRefused self.old (Entry.End id) self.new }
    {
        let is_due = self.ends(id);
        if !is_due {
            return Err(StepError::NotLegal);
        }
        self.turn(alloc, id, Turn::Ends)?;
        Ok(())
    }

    fn trap(&mut self, alloc: Global, id: TaskId, kind: TrapKind) -> Result<(), StepError>
        ensures ok { OnOk result (stepped self.old (Entry.Trap id kind) ≡ Some self.new) }
        ensures not_legal { result ≡ Err StepError.NotLegal
            → IsRefused self.old (Entry.Trap id kind) self.new }
    {
        let is_due = self.traps(id, kind);
        if !is_due {
            return Err(StepError::NotLegal);
        }
        self.turn(alloc, id, Turn::Traps)?;
        Ok(())
    }

    fn over(&mut self, is_left: bool) -> Result<(), StepError>
        requires { is_left ≡ work_left self.old.state 0 }
        ensures ok { OnOk result (stepped self.old Entry.Over ≡ Some self.new) }
        ensures not_legal { result ≡ Err StepError.NotLegal
            → IsRefused self.old Entry.Over self.new }
    {
        if self.passed {
            return Err(StepError::NotLegal);
        }
        if is_left {
            return Err(StepError::NotLegal);
        }
        self.passed = true;
        Ok(())
    }

    /// Takes the next entry of a history; `is_left` says whether work is left under the scope that
    /// it passes. `NotLegal` where the entry is no step, and then nothing has changed; after
    /// `OutOfMemory` the state is of no more use.
    pub fn step(&mut self, alloc: Global, entry: &Entry, is_left: bool) -> Result<(), StepError>
        requires { is_left ≡ is_blocked self.old.state entry.now }
        ensures ok { OnOk result (stepped self.old entry.now ≡ Some self.new) }
        ensures not_legal { result ≡ Err StepError.NotLegal
            → IsRefused self.old entry.now self.new }
    {
        match entry {
            Entry::Call { task, op, reply } => self.call(alloc, *task, *op, *reply),
            Entry::Spawn {
                task,
                how,
                target,
                args,
                child,
            } => self.spawn(alloc, *task, *how, *target, args, *child),
            Entry::Finish { task } => self.finish(alloc, *task),
            Entry::Loop {
                task,
                lo,
                hi,
                grain,
                target,
                args,
            } => self.open_loop(alloc, *task, *lo, *hi, *grain, *target, args),
            Entry::Begin {
                owner,
                index,
                child,
            } => self.begin(alloc, *owner, *index, *child),
            Entry::Pass { task } => self.pass(alloc, *task, is_left),
            Entry::End { task } => self.end(alloc, *task),
            Entry::Trap { task, kind } => self.trap(alloc, *task, *kind),
            Entry::Over => self.over(is_left),
        }
    }

    /// What the entry changes in the numbers of unended tasks, where it is a step.
    pub fn change(&self, entry: &Entry) -> Change
        ensures { result ≡ change_of self.now.state entry.now }
    {
        match entry {
            Entry::Spawn { task, .. } => Change::begins(self.innermost(*task)),
            Entry::Begin { owner, .. } => Change::begins(self.opened(*owner)),
            Entry::End { task } => Change::ends(self.scope(*task)),
            Entry::Finish { .. } => Change::Opens,
            Entry::Loop { .. } => Change::Opens,
            _ => Change::Stays,
        }
    }

    /// The legal entry of a going task whose next action is a call, an end or a trap; None for any
    /// other task.
    pub fn next_call(&self, task: TaskId) -> Result<Option<Entry>, AllocError>
        ensures { IfOk result (λ entry. entry ≡ entry_due self.now.state task) }
    {
        let Some(row) = self.tasks.get(task) else {
            return Ok(None);
        };
        if !row.is_going() {
            return Ok(None);
        }
        match row.action() {
            Action::Call { op } => Ok(Some(Entry::Call {
                task,
                op: *op,
                reply: self.memory.reply(*op),
            })),
            Action::End => Ok(Some(Entry::End { task })),
            Action::Trap { kind } => Ok(Some(Entry::Trap { task, kind: *kind })),
            _ => Ok(None),
        }
    }

    /// Whether the root scope is passed, as it is exactly after a complete history.
    pub fn complete(&self) -> bool
        ensures { result ≡ self.now.state.passed }
    {
        self.passed
    }
}

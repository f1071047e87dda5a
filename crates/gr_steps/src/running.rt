//! What a task still has to do, and how it comes to its next action.
ghost use Rattle.std.specs.Prelude.{◌≡◌, ◌∷◌, ◌++◌, [], OnOk, IfOk, Some};
ghost use Rattle.gr_lang.specs.Next.{arrive, go_on, look, look_if, look_set, look_while, next, runs, set_all, start};
ghost use Rattle.gr_lang.specs.Expressions.{value};
ghost use Rattle.gr_steps.specs.TurnWords.{IsTop, tail_of, Turns};
ghost use Rattle.gr_steps.specs.TableView.{row_of, started};

use crate::actions::{call_action, loop_action, print_action, range_of, spawn_action};
use crate::expressions::value_of;
use crate::locals::LocalWords;
use crate::table::{Table, TaskRow};
use gr_lang::{Action, Reply, TrapKind};
use gr_syntax::{Block, Expr, Names, Right, Stmt};
use std::alloc::{AllocError, Global};
use std::marker::Model;

/// What is to do: a statement, or the end of a `finish`.
#[derive(Drop)]
pub enum Todo<'a> {
    Run { stmt: &'a Stmt },
    Arrive,
}

/// What stands first.
#[derive(Clone, Copy)]
pub enum Top<'a> {
    End,
    Arrive,
    Run { stmt: &'a Stmt },
}

/// What one turn of a task came to.
#[derive(Drop)]
pub enum Turn {
    /// It made a pure step.
    Moved,
    /// It stands at a zero divisor.
    Divided,
    /// It stands at a pure step, and none is left.
    Limit,
    /// It stands at an action.
    Acts { action: Action },
}

/// What a task still has to do, and its locals.
#[derive(Drop)]
pub struct Running<'a> {
    stack: Vec<Todo<'a>>,
    locals: LocalWords<'a>,
}

impl<'a> Model for Running<'a> {
    ghost use Rattle.gr_lang.specs.Next.{Running as State};
    ghost use Rattle.std.specs.Coded.{codes};
    ghost use Rattle.gr_syntax.specs.contracts.syntax.Stmt as stmt;

    ghost Value = { State };

    ghost coded = { Prim.hlevel (codes, stmt.the_row.coded) };

    ghost use Rattle.gr_steps.specs.RunningView.{dues_of};

    ghost view = { λ r. record { todo = dues_of r.stack.items; locals = r.locals } };
}

impl<'a> Running<'a> {
    /// How the task of this number starts with these arguments.
    #[tactic(auto, using(crate::proofs::Known::start_is))]
    pub fn start(
        alloc: Global,
        table: &Table<'a>,
        target: u64,
        args: &[u64],
    ) -> Result<Running<'a>, AllocError>
        ensures { IfOk result (λ running. running ≡ start table.now target args.now) }
    {
        match table.task(target) {
            None => Ok(Running::new(alloc, LocalWords::start(alloc, &[], args)?)),
            Some(row) => Running::begin(alloc, row, args),
        }
    }

    fn begin(alloc: Global, row: &TaskRow<'a>, args: &[u64]) -> Result<Running<'a>, AllocError>
        ensures { IfOk result (λ running. running ≡ started (Some (row_of row.now)) args.now) }
    {
        let locals = LocalWords::start(alloc, row.locals.as_slice(), args)?;
        let mut running = Running::new(alloc, locals);
        running.push_block(row.body.as_slice())?;
        Ok(running)
    }

    /// A task that has nothing to do yet, with these locals.
    fn new(alloc: Global, locals: LocalWords<'a>) -> Running<'a>
        ensures { result ≡ record { todo = []; locals = locals.entry } }
    {
        Running {
            stack: Vec::new(alloc),
            locals,
        }
    }

    /// Puts a block before what is still to do.
    pub fn push_block(&mut self, block: &'a [Stmt]) -> Result<(), AllocError>
        ensures { OnOk result
            (self.new ≡ record self.old { todo = runs block.now ++ self.old.todo }) }
    {
        let mut at = block.len();
        while at > 0 {
            at -= 1;
            self.stack.push(Todo::Run { stmt: &block[at] })?;
        }
        Ok(())
    }

    /// What stands first.
    fn top(&self) -> Top<'a>
        ensures { IsTop result self.now.todo }
    {
        match self.stack.last() {
            None => Top::End,
            Some(Todo::Arrive) => Top::Arrive,
            Some(Todo::Run { stmt }) => Top::Run { stmt: *stmt },
        }
    }

    /// Takes off what stands first.
    fn drop_top(&mut self)
        ensures { self.new ≡ record self.old { todo = tail_of self.old.todo } }
    {
        let _ = self.stack.pop();
    }

    /// The locals, lent.
    fn locals(&self) -> &LocalWords<'a>
        ensures { result.now ≡ self.now.locals }
    {
        &self.locals
    }

    fn set_all(&mut self, targets: &Names, words: &[u64])
        ensures { self.new ≡ record self.old { locals = set_all self.old.locals targets.now words.now } }
    {
        self.locals.set_all(targets, words);
    }

    fn value(&self, expr: &Expr) -> Option<u64>
        ensures { result ≡ value self.now.locals expr.now }
    {
        value_of(&self.locals, expr)
    }

    /// Takes off what stands first, and sets the targets.
    fn assign(&mut self, targets: &Names, words: &[u64])
        ensures { self.new ≡ record { todo = tail_of self.old.todo; locals = set_all self.old.locals targets.now words.now } }
    {
        self.drop_top();
        self.set_all(targets, words);
    }

    fn turn_set(
        &mut self,
        alloc: Global,
        table: &Table,
        may_move: bool,
        targets: &Names,
        right: &Right,
    ) -> Result<Turn, AllocError>
        ensures { IfOk result (λ turn. Turns may_move (look_set table.now self.old
            (tail_of self.old.todo) targets.now right.now) self.old turn self.new) }
    {
        match right {
            Right::Value { value } => {
                if !may_move {
                    return Ok(Turn::Limit);
                }
                match self.value(value) {
                    None => Ok(Turn::Divided),
                    Some(word) => {
                        self.assign(targets, &[word]);
                        Ok(Turn::Moved)
                    }
                }
            }
            Right::Result { call } => {
                let action = call_action(alloc, table, self.locals(), call)?;
                Ok(Turn::Acts { action })
            }
        }
    }

    fn turn_if(
        &mut self,
        may_move: bool,
        test: &Expr,
        one: &'a Block,
        other: &'a Block,
    ) -> Result<Turn, AllocError>
        ensures { IfOk result (λ turn. Turns may_move (look_if self.old
            (tail_of self.old.todo) test.now one.now other.now) self.old turn self.new) }
    {
        if !may_move {
            return Ok(Turn::Limit);
        }
        match self.value(test) {
            None => Ok(Turn::Divided),
            Some(word) => {
                self.drop_top();
                self.push_block(if word == 0 {
                    other.as_slice()
                } else {
                    one.as_slice()
                })?;
                Ok(Turn::Moved)
            }
        }
    }

    fn turn_while(
        &mut self,
        may_move: bool,
        test: &Expr,
        body: &'a Block,
    ) -> Result<Turn, AllocError>
        ensures { IfOk result (λ turn. Turns may_move (look_while self.old
            (tail_of self.old.todo) test.now body.now) self.old turn self.new) }
    {
        if !may_move {
            return Ok(Turn::Limit);
        }
        match self.value(test) {
            None => Ok(Turn::Divided),
            Some(word) => {
                if word == 0 {
                    self.drop_top();
                } else {
                    self.push_block(body.as_slice())?;
                }
                Ok(Turn::Moved)
            }
        }
    }

    /// One pure step, where it may be made, or the next action.
    #[tactic(auto, unfolding(gr_lang::specs::Next::look), using(gr_lang::proofs::Opens::opens))]
    fn turn(&mut self, alloc: Global, table: &Table, may_move: bool) -> Result<Turn, AllocError>
        ensures { IfOk result (λ turn. Turns may_move
            (look table.now self.old) self.old turn self.new) }
    {
        match self.top() {
            Top::End => Ok(Turn::Acts {
                action: Action::End,
            }),
            Top::Arrive => Ok(Turn::Acts {
                action: Action::Arrive,
            }),
            Top::Run { stmt } => match stmt {
                Stmt::Set1 { targets, right, .. } => self.turn_set(
                    alloc, table, may_move, targets, right,
                ),
                Stmt::Do { call } => Ok(Turn::Acts {
                    action: call_action(alloc, table, self.locals(), call)?,
                }),
                Stmt::Print { value } => {
                    let action = print_action(self.locals(), value);
                    Ok(Turn::Acts { action })
                }
                Stmt::If { test, yes, no } => self.turn_if(may_move, test, yes, no),
                Stmt::While { test, body } => self.turn_while(may_move, test, body),
                Stmt::Finish { .. } => Ok(Turn::Acts {
                    action: Action::Finish,
                }),
                Stmt::Spawn { how, target, args } => Ok(Turn::Acts {
                    action: spawn_action(alloc, table, self.locals(), how, target, args)?,
                }),
                Stmt::Forall {
                    lo,
                    hi,
                    grain,
                    target,
                    args,
                } => {
                    let range = range_of(self.locals(), lo, hi, grain);
                    let action = loop_action(alloc, table, self.locals(), range, target, args)?;
                    Ok(Turn::Acts { action })
                }
            },
        }
    }

    /// Goes to the next action, after at most `limit` pure steps. Past them the action is the trap of
    /// the limit, and at a zero divisor it is that trap.
    #[tactic(auto, using(gr_lang::proofs::Nexts::nexts))]
    pub fn next(&mut self, alloc: Global, table: &Table, limit: u64) -> Result<Action, AllocError>
        ensures { IfOk result (λ action. next table.now limit self.old ≡ (action, self.new)) }
    {
        let mut left = limit;
        loop {
            match self.turn(alloc, table, left > 0)? {
                Turn::Moved => left -= 1,
                Turn::Divided => {
                    return Ok(Action::Trap {
                        kind: TrapKind::Div,
                    });
                }
                Turn::Limit => {
                    return Ok(Action::Trap {
                        kind: TrapKind::Steps,
                    });
                }
                Turn::Acts { action } => return Ok(action),
            }
        }
    }

    /// Goes on after the action at which it stands: the targets take the reply's words, and a `finish`
    /// is entered.
    #[tactic(auto, unfolding(gr_lang::specs::Next::go_on), using(gr_lang::proofs::Opens::opens))]
    pub fn go_on(&mut self, reply: Reply) -> Result<(), AllocError>
        ensures { OnOk result (self.new ≡ go_on self.old reply) }
    {
        match self.top() {
            Top::End => {}
            Top::Arrive => self.drop_top(),
            Top::Run { stmt } => match stmt {
                Stmt::Set1 { targets, .. } => self.assign(targets, &[reply.first, reply.second]),
                Stmt::Finish { body } => self.open(body)?,
                _ => self.drop_top(),
            },
        }
        Ok(())
    }

    /// Enters a `finish`.
    fn open(&mut self, body: &'a Block) -> Result<(), AllocError>
        ensures { OnOk result (self.new ≡ record self.old {
          todo = runs body.now ++
              (arrive ∷ tail_of self.old.todo);
        }) }
    {
        self.drop_top();
        self.push_arrive()?;
        self.push_block(body.as_slice())
    }

    fn push_arrive(&mut self) -> Result<(), AllocError>
        ensures { OnOk result (self.new ≡ record self.old { todo = arrive ∷ self.old.todo }) }
    {
        self.stack.push(Todo::Arrive)?;
        Ok(())
    }
}

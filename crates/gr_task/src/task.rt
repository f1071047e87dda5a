//! A suspended task: a point of the code, and the words of the locals.
ghost use Rattle.std.specs.Prelude.{◌≡◌, ◌==◌, true, IfOk, length, slice_set, if◌then◌else◌};
ghost use Rattle.gr_lang.specs.Next.{go_on, look, next, start};
ghost use Rattle.gr_code.specs.Points.{Lowered, point_at};
ghost use Rattle.gr_code.specs.Terms.{put_reply as reply_put, put_word as word_put};
ghost use Rattle.gr_task.specs.States.{IsOver, state_of, waits};
ghost use Rattle.gr_task.specs.TurnWords.{HasWords, Turns, first_of};

use crate::actions::{action_of, divided};
use crate::evaluation::value_of;
use gr_code::{Code, Instruction, Onward, Targets};
use gr_lang::{Action, Reply, TrapKind};
use std::alloc::{AllocError, Global};
use std::marker::Model;

/// A suspended task over the code of its program. Where it stands at an action, it knows how it goes on.
#[derive(Drop)]
pub struct TaskState {
    at: usize,
    locals: Vec<u64>,
    onward: Option<Onward>,
}

impl Model for TaskState {
    ghost use Rattle.gr_task.specs.States.{Task};

    ghost Value = { Task };

    ghost view = { λ t. record { at = t.at; words = t.locals.items; onward = t.onward } };
}

/// What one turn of a task came to.
#[derive(Drop)]
enum Turn {
    /// It made a pure step.
    Moved,
    /// It stands at a zero divisor.
    Divided,
    /// It stands at a pure step, and none is left.
    Limit,
    /// It stands at an action.
    Acts { action: Action },
}

fn put(locals: &mut Vec<u64>, at: usize, word: u64)
    ensures { locals.new.items ≡ slice_set locals.old.items at word }
{
    if at < locals.len() {
        locals[at] = word;
    }
}

/// The first target takes the word.
fn put_word(locals: &mut Vec<u64>, targets: Targets, word: u64)
    ensures { locals.new.items ≡ word_put targets word locals.old.items }
{
    match targets {
        Targets::Empty => {}
        Targets::One { first } => put(locals, first, word),
        Targets::Two { first, .. } => put(locals, first, word),
    }
}

/// The targets take the reply's words, from left to right.
fn put_reply(locals: &mut Vec<u64>, targets: Targets, reply: Reply)
    ensures { locals.new.items ≡ reply_put targets reply locals.old.items }
{
    match targets {
        Targets::Empty => {}
        Targets::One { first } => put(locals, first, reply.first),
        Targets::Two { first, second } => {
            put(locals, first, reply.first);
            put(locals, second, reply.second);
        }
    }
}

fn chosen(word: u64, one: usize, other: usize) -> usize
    ensures { result ≡ (if word == 0 then other else one) }
{
    if word == 0 { other } else { one }
}

/// The first words of so many locals: the arguments, then zeros.
fn first_words(alloc: Global, count: usize, args: &[u64]) -> Result<Vec<u64>, AllocError>
    ensures { IfOk result (λ words. words.items ≡ first_of count args.now) }
{
    let mut words = Vec::from_slice(alloc, args)?;
    words.resize(count, 0)?;
    Ok(words)
}

impl TaskState {
    /// A task of that number at the start of its body, with these arguments for its parameters. An
    /// error is want of memory.
    pub fn start(
        alloc: Global,
        code: &Code,
        target: u64,
        args: &[u64],
    ) -> Result<TaskState, AllocError>
        ensures state { IfOk result
            (λ task. state_of code.now task ≡ start code.now.program target args.now) }
        ensures over { IfOk result (λ task. IsOver code.now task) }
    {
        let entry = code.entry(target);
        let locals = first_words(alloc, entry.locals, args)?;
        Ok(TaskState {
            at: entry.at,
            locals,
            onward: None,
        })
    }

    /// One pure step, where it may be made, or the next action.
    fn turn(&mut self, alloc: Global, code: &Code, may_move: bool) -> Result<Turn, AllocError>
        requires { HasWords code.now self.old }
        ensures turns { IfOk result (λ turn. Turns may_move
            (look code.now.program (state_of code.now self.old))
            (state_of code.now self.old) turn (state_of code.now self.new)) }
        ensures words { HasWords code.now self.new }
        ensures onward { self.new.onward ≡ self.old.onward }
    {
        match code.instruction(self.at) {
            None => Ok(Turn::Acts {
                action: Action::End,
            }),
            Some(instruction) => match instruction {
                Instruction::Set {
                    value,
                    targets,
                    next,
                } => {
                    if !may_move {
                        return Ok(Turn::Limit);
                    }
                    match value_of(&self.locals, value) {
                        None => Ok(Turn::Divided),
                        Some(word) => {
                            put_word(&mut self.locals, *targets, word);
                            self.at = *next;
                            Ok(Turn::Moved)
                        }
                    }
                }
                Instruction::Branch {
                    test,
                    one,
                    other,
                    ..
                } => {
                    if !may_move {
                        return Ok(Turn::Limit);
                    }
                    match value_of(&self.locals, test) {
                        None => Ok(Turn::Divided),
                        Some(word) => {
                            self.at = chosen(word, *one, *other);
                            Ok(Turn::Moved)
                        }
                    }
                }
                other => Ok(Turn::Acts {
                    action: action_of(alloc, code, &self.locals, other)?,
                }),
            },
        }
    }

    /// Makes pure steps, at most `limit`, until an action or a trap stands next.
    #[tactic(auto, using(gr_lang::proofs::Nexts::nexts))]
    fn run(&mut self, alloc: Global, code: &Code, limit: u64) -> Result<Action, AllocError>
        requires { HasWords code.now self.old }
        ensures next { IfOk result (λ action. next code.now.program limit
            (state_of code.now self.old) ≡ (action, state_of code.now self.new)) }
        ensures words { HasWords code.now self.new }
        ensures onward { self.new.onward ≡ self.old.onward }
    {
        let mut left = limit;
        'turns: loop {
            match self.turn(alloc, code, left > 0)? {
                Turn::Moved => left -= 1,
                Turn::Divided => return Ok(divided()),
                Turn::Limit => {
                    return Ok(Action::Trap {
                        kind: TrapKind::Steps,
                    });
                }
                Turn::Acts { action } => return Ok(action),
            }
        }
    }

    /// The next action with its words, or the trap that stands next, after at most `limit` pure steps
    /// from here. Then the task waits. An error is want of memory.
    pub fn run_to_action(
        &mut self,
        alloc: Global,
        code: &Code,
        limit: u64,
    ) -> Result<Action, AllocError>
        requires { IsOver code.now self.old }
        ensures next { IfOk result (λ action. next code.now.program limit
            (state_of code.now self.old) ≡ (action, state_of code.now self.new)) }
        ensures waits { IfOk result (λ action. waits self.new ≡ true) }
        ensures over { IsOver code.now self.new }
    {
        self.onward = None;
        let action = self.run(alloc, code, limit)?;
        self.onward = Some(code.onward(self.at));
        Ok(action)
    }

    /// Goes on after the action at which the task waits, with the reply's words; these are 0 after an
    /// action that is no call.
    pub fn resume(&mut self, reply: Reply)
        requires { waits self.old ≡ true }
        ensures state { (code : Lowered) → IsOver code self.old
            → state_of code self.new ≡ go_on (state_of code self.old) reply }
        ensures over { (code : Lowered) → IsOver code self.old → IsOver code self.new }
    {
        if let Some(onward) = self.onward {
            put_reply(&mut self.locals, onward.targets, reply);
            self.at = onward.next;
            self.onward = None;
        }
    }
}

//! The code of a program's tasks.
ghost use Rattle.std.specs.Prelude.{◌≡◌, ◌++◌, IfOk, length};
ghost use Rattle.gr_syntax.specs.Items.{tasks_of, texts};
ghost use Rattle.gr_lang.specs.Next.{lets_of, runs};
ghost use Rattle.gr_code.specs.EmitWords.{AllAgree, AreEntries, Emitted};

use crate::emit::emit_block;
use crate::instructions::Instruction;
use crate::locals::locals_of;
use crate::points::{Origin, Points};
use gr_names::ProgramNames;
use gr_syntax::{Block, Item, Names};
use std::alloc::{AllocError, Global};

/// A task: the number of its parameters, that of its locals, and the point at which it begins.
#[derive(Clone, Copy)]
pub struct TaskEntry {
    pub params: u64,
    pub locals: usize,
    pub at: usize,
}

/// Adds the code of a task, and gives its entry.
fn lower_task<'a>(
    alloc: Global,
    points: &mut Points<'a>,
    program: &ProgramNames,
    params: &'a Names,
    body: &'a Block,
) -> Result<TaskEntry, AllocError>
    ensures emitted { IfOk result (λ entry. Emitted program.now
        (texts params.now ++ lets_of body.now) points.old points.new (runs body.now) entry.at) }
    ensures params { IfOk result (λ entry. entry.params ≡ length params.now) }
    ensures locals { IfOk result
        (λ entry. entry.locals ≡ length (texts params.now ++ lets_of body.now)) }
{
    let end = points.put(Instruction::End, Origin::End { params, body })?;
    let locals = locals_of(alloc, params, body)?;
    let at = emit_block(
        alloc,
        points,
        program,
        locals.as_slice(),
        body.as_slice(),
        end,
    )?;
    Ok(TaskEntry {
        params: params.len() as u64,
        locals: locals.len(),
        at,
    })
}

/// The code of all tasks among these items, and the entry of each, in the order of their numbers.
pub fn lower_tasks<'a>(
    alloc: Global,
    program: &ProgramNames,
    items: &'a [Item],
) -> Result<(Points<'a>, Vec<TaskEntry>), AllocError>
    ensures agree { IfOk result (λ lowered. AllAgree program.now lowered.0) }
    ensures tasks { IfOk result
        (λ lowered. AreEntries lowered.0.points lowered.1.items (tasks_of items.now)) }
{
    let mut points = Points::new(alloc);
    let mut tasks = Vec::new(alloc);
    for item in items {
        match item {
            Item::Task { params, body, .. } => {
                let entry = lower_task(alloc, &mut points, program, params, body)?;
                tasks.push(entry)?;
            }
            _ => (),
        }
    }
    Ok((points, tasks))
}

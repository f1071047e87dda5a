//! What a program's items say of its objects and tasks, in the order of their numbers.
ghost use Rattle.std.specs.Prelude.{◌≡◌, ◌++◌, IfOk, OnOk, map};
ghost use Rattle.gr_lang.specs.Next.{lets, lets_of};
ghost use Rattle.gr_syntax.specs.Items.{tasks_of, texts};
ghost use Rattle.gr_steps.specs.TableView.{knowns_of, reaches_of, row_of};

use crate::table::TaskRow;
use gr_syntax::{Item, Names, Stmt, Text};
use std::alloc::{AllocError, Global};

/// The number of places of each object; only arrays have places.
pub fn reaches_in(alloc: Global, items: &[Item]) -> Result<Vec<u64>, AllocError>
    ensures { IfOk result (λ reaches. reaches.items ≡ reaches_of items.now) }
{
    let mut reaches = Vec::new(alloc);
    for item in items {
        match item {
            Item::Array { words, .. } => reaches.push(words.value)?,
            Item::Set { .. } => reaches.push(0)?,
            Item::Map { .. } => reaches.push(0)?,
            Item::Vector { .. } => reaches.push(0)?,
            _ => (),
        }
    }
    Ok(reaches)
}

fn add_names<'a>(names: &mut Vec<&'a Text>, more: &'a Names) -> Result<(), AllocError>
    ensures { OnOk result (map (λ n. n.now) names.new.items
        ≡ map (λ n. n.now) names.old.items ++ texts more.now) }
{
    for name in more.as_slice() {
        names.push(&name.text)?;
    }
    Ok(())
}

/// Adds the names that a statement gives with `let`, in the order of the text.
#[cycle(lets)]
fn add_lets<'a>(names: &mut Vec<&'a Text>, stmt: &'a Stmt) -> Result<(), AllocError>
    ensures { OnOk result (map (λ n. n.now) names.new.items
        ≡ map (λ n. n.now) names.old.items ++ lets stmt.now) }
{
    match stmt {
        Stmt::Set1 { fresh, targets, .. } => {
            if *fresh {
                add_names(names, targets)?;
            }
            Ok(())
        }
        Stmt::If { yes, no, .. } => {
            add_block_lets(names, yes.as_slice())?;
            add_block_lets(names, no.as_slice())
        }
        Stmt::While { body, .. } => add_block_lets(names, body.as_slice()),
        Stmt::Finish { body } => add_block_lets(names, body.as_slice()),
        Stmt::Do { .. } => Ok(()),
        Stmt::Print { .. } => Ok(()),
        Stmt::Spawn { .. } => Ok(()),
        Stmt::Forall { .. } => Ok(()),
    }
}

/// Adds the names that a block gives with `let`, in the order of the text.
#[cycle(lets)]
fn add_block_lets<'a>(names: &mut Vec<&'a Text>, block: &'a [Stmt]) -> Result<(), AllocError>
    ensures { OnOk result (map (λ n. n.now) names.new.items
        ≡ map (λ n. n.now) names.old.items ++ lets_of block.now) }
{
    for stmt in block {
        add_lets(names, stmt)?;
    }
    Ok(())
}

/// The names of a task's locals: its parameters, then what its body gives.
fn locals_of<'a>(
    alloc: Global,
    params: &'a Names,
    body: &'a [Stmt],
) -> Result<Vec<&'a Text>, AllocError>
    ensures { IfOk result (λ names. map (λ n. n.now) names.items
        ≡ texts params.now ++ lets_of body.now) }
{
    let mut names = Vec::new(alloc);
    add_names(&mut names, params)?;
    add_block_lets(&mut names, body)?;
    Ok(names)
}

/// The tasks of the text.
pub fn task_rows<'a>(alloc: Global, items: &'a [Item]) -> Result<Vec<TaskRow<'a>>, AllocError>
    ensures { IfOk result (λ rows. map row_of rows.items ≡ knowns_of (tasks_of items.now)) }
{
    let mut rows = Vec::new(alloc);
    for item in items {
        match item {
            Item::Task { params, body, .. } => {
                let locals = locals_of(alloc, params, body.as_slice())?;
                rows.push(TaskRow { locals, body })?;
            }
            _ => (),
        }
    }
    Ok(rows)
}

//! The names of a task's locals.
ghost use Rattle.std.specs.Prelude.{◌≡◌, ◌++◌, IfOk, OnOk, map};
ghost use Rattle.gr_syntax.specs.Items.{texts};
ghost use Rattle.gr_lang.specs.Next.{lets, lets_of};

use gr_syntax::{Block, Names, Stmt, Text};
use std::alloc::{AllocError, Global};

fn add_names<'a>(names: &mut Vec<&'a Text>, more: &'a Names) -> Result<(), AllocError>
    ensures { OnOk result (map (λ n. n.now) names.new.items
        ≡ map (λ n. n.now) names.old.items ++ texts more.now) }
{
    for name in more.as_slice() {
        names.push(&name.text)?;
    }
    Ok(())
}

/// Adds the names that a statement gives with `let`, in the order of the text.
#[cycle(lets)]
fn add_lets<'a>(names: &mut Vec<&'a Text>, stmt: &'a Stmt) -> Result<(), AllocError>
    ensures { OnOk result (map (λ n. n.now) names.new.items
        ≡ map (λ n. n.now) names.old.items ++ lets stmt.now) }
{
    match stmt {
        Stmt::Set1 { fresh, targets, .. } => {
            if *fresh {
                add_names(names, targets)?;
            }
            Ok(())
        }
        Stmt::If { yes, no, .. } => {
            add_block_lets(names, yes.as_slice())?;
            add_block_lets(names, no.as_slice())
        }
        Stmt::While { body, .. } => add_block_lets(names, body.as_slice()),
        Stmt::Finish { body } => add_block_lets(names, body.as_slice()),
        Stmt::Do { .. } => Ok(()),
        Stmt::Print { .. } => Ok(()),
        Stmt::Spawn { .. } => Ok(()),
        Stmt::Forall { .. } => Ok(()),
    }
}

/// Adds the names that a block gives with `let`, in the order of the text.
#[cycle(lets)]
fn add_block_lets<'a>(names: &mut Vec<&'a Text>, block: &'a [Stmt]) -> Result<(), AllocError>
    ensures { OnOk result (map (λ n. n.now) names.new.items
        ≡ map (λ n. n.now) names.old.items ++ lets_of block.now) }
{
    for stmt in block {
        add_lets(names, stmt)?;
    }
    Ok(())
}

/// The names of a task's locals: its parameters, then what its body gives.
pub fn locals_of<'a>(
    alloc: Global,
    params: &'a Names,
    body: &'a Block,
) -> Result<Vec<&'a Text>, AllocError>
    ensures { IfOk result (λ names. map (λ n. n.now) names.items
        ≡ texts params.now ++ lets_of body.now) }
{
    let mut names = Vec::new(alloc);
    add_names(&mut names, params)?;
    add_block_lets(&mut names, body.as_slice())?;
    Ok(names)
}

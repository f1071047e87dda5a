//! The whole check of a program.
ghost use Rattle.std.specs.Prelude.{◌≡◌, true, None, IfOk, IfErr};
ghost use Rattle.gr_syntax.specs.Targets.{targets_fit};
ghost use Rattle.gr_accept.specs.Accepted.{faults, uses_sites, IsAccepted};
ghost use Rattle.gr_accept.specs.Conditions as condition;
ghost use Rattle.gr_checker.specs.EarliestWords.{least, seen};
ghost use Rattle.gr_checker.specs.HeadsView.{all_declared, kept_by, none};
ghost use Rattle.gr_checker.specs.MeaningView.{meaning_of};
ghost use Rattle.gr_checker.specs.Refusals.{Refuses};

use crate::earliest::Earliest;
use crate::heads::{Heads, declare};
use crate::meanings::Meanings;
use crate::name_set::NameSet;
use crate::uses::use_item;
use gr_accept::Accepted;
use gr_syntax::{Fault, Item, Kind, Program};
use std::alloc::{AllocError, Global};
use thiserror::Error;

/// Why `check` gives no accepted program.
#[derive(Debug, Drop, Error)]
pub enum CheckError {
    /// This condition holds at this place, and none before it in the text.
    #[error("refused line {line} column {column}: {}", .kind.words())]
    Refused { kind: Kind, line: u64, column: u64 },
    /// There is no memory for the tables of names.
    #[error("out of memory")]
    OutOfMemory,
}

impl From<AllocError> for CheckError {
    ghost use Rattle.std.specs.Prelude.{◌≡◌};
    ghost use Rattle.gr_checker.specs.declared.checking.CheckError.TheVariants as error;

    ghost from_gives = { λ e r. r ≡ error.OutOfMemory };

    fn from(error: AllocError) -> CheckError {
        let _ = error;
        CheckError::OutOfMemory
    }
}

fn declare_all<'a>(alloc: Global, items: &'a [Item]) -> Result<Heads<'a>, AllocError>
    ensures { IfOk result (λ heads. kept_by heads ≡ all_declared items.now none) }
{
    let mut heads = Heads {
        found: Earliest::new(),
        meanings: Meanings::new(alloc),
        inputs: NameSet::new(alloc),
        objects: 0,
        tasks: 0,
        words: 0,
    };
    for item in items {
        declare(&mut heads, item)?;
    }
    Ok(heads)
}

#[tactic(auto, using(crate::proofs::Leasts::leasts))]
fn use_all<'a>(
    alloc: Global,
    meanings: &Meanings<'a>,
    found: Earliest,
    items: &'a [Item],
) -> Result<Earliest, AllocError>
    ensures { let sites = uses_sites items.now in
        IfOk result (λ earliest. earliest ≡ seen (meaning_of meanings.now) found sites) }
{
    let mut found = found;
    for item in items {
        found = use_item(alloc, meanings, found, item)?;
    }
    Ok(found)
}

fn is_main(item: &Item) -> bool
    ensures { result ≡ condition.is_main item.now }
{
    match item {
        Item::Task { name, .. } => name.text.is_word("main"),
        _ => false,
    }
}

fn finds_main(items: &[Item]) -> bool
    ensures { result ≡ condition.has_main items.now }
{
    for item in items {
        if is_main(item) {
            return true;
        }
    }
    false
}

fn first_fault(alloc: Global, program: &Program) -> Result<Option<Fault>, AllocError>
    ensures { IfOk result (λ first. first ≡ least None (faults program.now)) }
{
    let items = program.items.as_slice();
    let heads = declare_all(alloc, items)?;
    let meanings = heads.meanings;
    let mut found = use_all(alloc, &meanings, heads.found, items)?;
    let has_main = finds_main(items);
    found.note_if(!has_main, Kind::NoMain, program.end);
    Ok(found.get())
}

/// The accepted program, where none of the ten conditions for a refusal holds anywhere in it, and else the
/// first that does: the first place in the text, and at one place the first kind in the list of kinds.
/// `OutOfMemory` where there is no memory for the tables of names. The program is one whose assignments have
/// as many targets as the grammar gives them.
pub fn check(alloc: Global, program: Program) -> Result<Accepted, CheckError>
    requires { targets_fit program ≡ true }
    ensures ok { IfOk result (λ accepted. (accepted ≡ program) × IsAccepted program) }
    ensures refused { IfErr result (λ error. Refuses error program) }
{
    let first = first_fault(alloc, &program)?;
    match first {
        None => Ok(Accepted::new(program)),
        Some(fault) => Err(CheckError::Refused {
            kind: fault.kind,
            line: fault.at.line,
            column: fault.at.column,
        }),
    }
}

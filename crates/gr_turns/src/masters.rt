//! The turns at the vectors whose master is here, by the numbers of the vectors.
ghost use Rattle.std.specs.Prelude.{◌≡◌, ◌≤◌, ◌%◌, ◌==◌, ◌&&◌, IfOk, None, OnOk, Some, if◌then◌else◌, true};
ghost use Rattle.std.specs.Option.{option_and_then, option_copied, option_map_or};
ghost use Rattle.gr_vector.specs.Turns.{asked, ended, grant_on_asking, granted, is_out};
ghost use Rattle.gr_vector.specs.Laws.{no_turns};
ghost use Rattle.gr_turns.specs.LineView.{masters_at};
ghost use Rattle.gr_turns.specs.LineWords.{changed_at, is_line, masters_from};

use gr_code::Shape;
use gr_vector::{Granted, VecMaster};
use std::alloc::{AllocError, Global};

/// The turns at the object of this number, where its shape is a vector's and its master is here.
fn first_master(alloc: Global, shape: Shape, number: u64, cores: u64, me: u64) -> Option<VecMaster>
    requires { 1 ≤ cores }
    ensures { result ≡ (if is_line shape && number % cores == me then Some no_turns else None) }
{
    match shape {
        Shape::Vector if number % cores == me => Some(VecMaster::new(alloc)),
        _ => None,
    }
}

/// The turns at each vector whose master is here, before any is asked for.
pub fn first_masters(
    alloc: Global,
    shapes: &[Shape],
    cores: u64,
    me: u64,
) -> Result<Vec<Option<VecMaster>>, AllocError>
    requires { 1 ≤ cores }
    ensures { IfOk result (λ masters. masters.items ≡ masters_from cores me 0 shapes.now) }
{
    let mut masters = Vec::new(alloc);
    for shape in shapes {
        let number = masters.len() as u64;
        masters.push(first_master(alloc, *shape, number, cores, me))?;
    }
    Ok(masters)
}

/// The turns at the vector of this number.
#[tactic(auto, using(crate::proofs::Numbered::at_numbers))]
pub fn master_at(masters: &[Option<VecMaster>], number: usize) -> Option<&VecMaster>
    ensures { option_copied result ≡ masters_at masters.now number }
{
    match masters.get(number) {
        Some(Some(master)) => Some(master),
        _ => None,
    }
}

/// A core asks for a turn, where there is a master of this number. Answers the grant, where it is granted at once.
#[tactic(auto, using(crate::proofs::Numbered::at_numbers))]
pub fn ask_at(
    masters: &mut [Option<VecMaster>],
    number: usize,
    core: u64,
) -> Result<Option<Granted>, AllocError>
    ensures grant { IfOk result (λ grant. grant
        ≡ option_and_then (λ turns. grant_on_asking turns core) (masters_at masters.old number)) }
    ensures turns { OnOk result (masters_at masters.new
        ≡ changed_at (λ turns. asked turns core) (masters_at masters.old) number) }
{
    if number < masters.len() {
        if let Some(master) = &mut masters[number] {
            let grant = master.ask(core)?;
            return Ok(grant);
        }
    }
    Ok(None)
}

/// The turn that is out ends, where there is a master of this number. Answers the next grant.
#[tactic(auto, using(crate::proofs::Numbered::at_numbers))]
pub fn done_at(
    masters: &mut [Option<VecMaster>],
    number: usize,
    head: u64,
    tail: u64,
) -> Option<Granted>
    requires { option_map_or is_out (masters_at masters.old number) true ≡ true }
    ensures grant { result
        ≡ option_and_then (λ turns. granted (ended turns head tail)) (masters_at masters.old number) }
    ensures turns { masters_at masters.new
        ≡ changed_at (λ turns. ended turns head tail) (masters_at masters.old) number }
{
    if number < masters.len() {
        if let Some(master) = &mut masters[number] {
            return master.done(head, tail);
        }
    }
    None
}

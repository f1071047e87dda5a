//! The vectors at a core by their numbers, and the change of one of them, where there is one of this number.
ghost use Rattle.std.specs.Prelude.{◌≡◌, IfOk, None, OnOk, Some, if◌then◌else◌};
ghost use Rattle.std.specs.Option.{option_and_then, option_map};
ghost use Rattle.gr_turns.specs.LineView.{vector_in, vectors_at};
ghost use Rattle.gr_turns.specs.LineWords.{changed_at, empty_data, is_line, lines_of};
ghost use Rattle.gr_turns.specs.Lines.{group_at, to_answer_get, to_answer_put, to_begin, to_close, to_finish, to_hold, to_join};

use crate::vector::Vector;
use gr_code::Shape;
use gr_lang::{Calls, WaitingCall};
use gr_vector::{Ends, Plan};
use std::alloc::{AllocError, Global};

/// The vector of this number, where the object's shape is one.
fn first_line(alloc: Global, shape: Shape, number: u64) -> Option<Vector>
    ensures { result ≡ (if is_line shape then Some empty_data else None) }
{
    match shape {
        Shape::Vector => Some(Vector::new(alloc, number)),
        _ => None,
    }
}

/// Each vector, empty.
pub fn first_lines(alloc: Global, shapes: &[Shape]) -> Result<Vec<Option<Vector>>, AllocError>
    ensures { IfOk result (λ lines. lines.items ≡ lines_of shapes.now) }
{
    let mut lines = Vec::new(alloc);
    for shape in shapes {
        let number = lines.len() as u64;
        lines.push(first_line(alloc, *shape, number))?;
    }
    Ok(lines)
}

/// The vector of this number.
#[tactic(auto, using(crate::proofs::Numbered::at_numbers))]
pub fn vector_at(vectors: &[Option<Vector>], number: usize) -> Option<&Vector>
    ensures { option_map (λ vector. vector_in vector.now) result ≡ vectors_at vectors.now number }
{
    match vectors.get(number) {
        Some(Some(vector)) => Some(vector),
        _ => None,
    }
}

/// A call joins those that wait.
#[tactic(auto, using(crate::proofs::Numbered::at_numbers))]
pub fn join_at(
    vectors: &mut [Option<Vector>],
    number: usize,
    call: WaitingCall,
) -> Result<(), AllocError>
    ensures { OnOk result (vectors_at vectors.new
        ≡ changed_at (to_join call) (vectors_at vectors.old) number) }
{
    if number < vectors.len() {
        if let Some(vector) = &mut vectors[number] {
            vector.join(call)?;
        }
    }
    Ok(())
}

/// All calls that wait are the newest group, of which a copy is answered.
#[tactic(auto, using(crate::proofs::Numbered::at_numbers))]
pub fn close_at(
    vectors: &mut [Option<Vector>],
    number: usize,
    alloc: Global,
) -> Result<Calls, AllocError>
    ensures group { IfOk result (λ group. group ≡ group_at (vectors_at vectors.old number)) }
    ensures closed { OnOk result (vectors_at vectors.new
        ≡ changed_at to_close (vectors_at vectors.old) number) }
{
    if number < vectors.len() {
        if let Some(vector) = &mut vectors[number] {
            let group = vector.close(alloc)?;
            return Ok(group);
        }
    }
    Ok(Calls::new(alloc))
}

/// The oldest group has the turn, with this plan.
#[tactic(auto, using(crate::proofs::Numbered::at_numbers))]
pub fn begin_at(
    vectors: &mut [Option<Vector>],
    number: usize,
    alloc: Global,
    ends: Ends,
    plan: &Plan,
) -> Result<(), AllocError>
    ensures { OnOk result (vectors_at vectors.new
        ≡ changed_at (to_begin ends plan.now) (vectors_at vectors.old) number) }
{
    if number < vectors.len() {
        if let Some(vector) = &mut vectors[number] {
            vector.begin(alloc, ends, plan)?;
        }
    }
    Ok(())
}

/// Puts a word at an empty position.
#[tactic(auto, using(crate::proofs::Numbered::at_numbers))]
pub fn put_at(
    vectors: &mut [Option<Vector>],
    number: usize,
    position: u64,
    word: u64,
) -> Result<(), AllocError>
    requires { option_and_then (λ vector. vector.part position) (vectors_at vectors.old number) ≡ None }
    ensures { OnOk result (vectors_at vectors.new
        ≡ changed_at (to_hold position (Some word)) (vectors_at vectors.old) number) }
{
    if number < vectors.len() {
        if let Some(vector) = &mut vectors[number] {
            vector.put(position, word)?;
        }
    }
    Ok(())
}

/// No word is held at the position from now on.
#[tactic(auto, using(crate::proofs::Numbered::at_numbers))]
pub fn take_at(vectors: &mut [Option<Vector>], number: usize, position: u64)
    ensures { vectors_at vectors.new
        ≡ changed_at (to_hold position None) (vectors_at vectors.old) number }
{
    if number < vectors.len() {
        if let Some(vector) = &mut vectors[number] {
            vector.take(position);
        }
    }
}

/// A put of the turn is answered.
#[tactic(auto, using(crate::proofs::Numbered::at_numbers))]
pub fn answer_put_at(vectors: &mut [Option<Vector>], number: usize, position: u64)
    ensures { vectors_at vectors.new
        ≡ changed_at (to_answer_put position) (vectors_at vectors.old) number }
{
    if number < vectors.len() {
        if let Some(vector) = &mut vectors[number] {
            vector.answer_put(position);
        }
    }
}

/// A get of the turn is answered, by this word.
#[tactic(auto, using(crate::proofs::Numbered::at_numbers))]
pub fn answer_get_at(
    vectors: &mut [Option<Vector>],
    number: usize,
    position: u64,
    word: u64,
) -> Result<(), AllocError>
    ensures { OnOk result (vectors_at vectors.new
        ≡ changed_at (to_answer_get position word) (vectors_at vectors.old) number) }
{
    if number < vectors.len() {
        if let Some(vector) = &mut vectors[number] {
            vector.answer_get(position, word)?;
        }
    }
    Ok(())
}

/// The turn has ended, and its group is gone.
#[tactic(auto, using(crate::proofs::Numbered::at_numbers))]
pub fn finish_at(vectors: &mut [Option<Vector>], number: usize)
    ensures { vectors_at vectors.new
        ≡ changed_at to_finish (vectors_at vectors.old) number }
{
    if number < vectors.len() {
        if let Some(vector) = &mut vectors[number] {
            vector.finish();
        }
    }
}

//! The objects and tasks of a program: shapes, addresses, and which calls are of what an object is.
ghost use Rattle.std.specs.Prelude.{◌≡◌, ◌^◌, slice_get};
ghost use Rattle.std.specs.Option.{option_map};
ghost use Rattle.gr_lang.specs.Objects.{address as address_of};
ghost use Rattle.gr_lang.specs.Openings.{opening};
ghost use Rattle.gr_code.specs.Shapes.{shape_of};
ghost use Rattle.gr_machine.specs.Calls.{is_keyed as is_keyed_of, is_reducer as is_reducer_of};
ghost use Rattle.gr_machine.specs.Machines.{has_task as has_task_of, machine_of};
ghost use Rattle.gr_machine.specs.Requests.{array_at, or_heap};
ghost use Rattle.gr_machine.specs.declared.setup.Setup.{Setup};
ghost use Rattle.gr_objects.specs.ShapeWords.{EndsBy, array_by, address_by, is_keyed_by, place_by};

use gr_code::{Code, Shape};
use gr_lang::Op;
use gr_syntax::HEAP;

/// The shape of that number.
fn shape_at(shapes: &[Shape], object: u64) -> Option<Shape>
    ensures { result ≡ slice_get shapes.now object }
{
    shapes.get(object as usize).copied()
}

/// The shape of an object; none where there is none of this number. The heap is none of them.
pub fn shape(code: &Code, object: u64) -> Option<Shape>
    ensures { result ≡ option_map shape_of (slice_get (opening code.now.program).things object) }
{
    shape_at(code.objects().as_slice(), object)
}

/// The place among words that have this address.
fn place_in(shape: Shape, at: u64) -> Option<u64>
    ensures { result ≡ place_by shape at }
{
    match shape {
        Shape::Words { from, words } if from <= at && at - from < words => Some(at - from),
        _ => None,
    }
}

/// The address of a place of an array.
fn address_in(shape: Option<Shape>, place: u64) -> Option<u64>
    requires { EndsBy (2 ^ 64) shape }
    ensures { result ≡ address_by shape place }
{
    match shape {
        Some(Shape::Words { from, words }) if place < words => Some(from + place),
        _ => None,
    }
}

/// The address of a place of an object, where the object has that place.
pub fn address(code: &Code, object: u64, place: u64) -> Option<u64>
    ensures { result ≡ address_of (opening code.now.program) object place }
{
    // Arrays end where the heap begins, so their addresses are words.
    let heap = code.heap();
    if object == HEAP {
        place_in(heap, place).and(Some(place))
    } else {
        address_in(shape(code, object), place)
    }
}

/// The array that has this address, with the place there.
fn array_in(shapes: &[Shape], at: u64) -> Option<(u64, u64)>
    ensures { result ≡ array_by 0 at shapes.now }
{
    for (object, shape) in shapes.iter().enumerate() {
        if let Some(place) = place_in(*shape, at) {
            return Some((object as u64, place));
        }
    }
    None
}

/// How calls name the word of an address: by an object and a place there.
pub fn named_at(code: &Code, at: u64) -> (u64, u64)
    ensures { result ≡ or_heap at (array_at 0 at (opening code.now.program).things) }
{
    match array_in(code.objects().as_slice(), at) {
        Some(named) => named,
        None => (HEAP, at),
    }
}

/// Whether a call on a key is one of what has this shape.
fn is_of(op: Op, shape: Option<Shape>) -> bool
    ensures { result ≡ is_keyed_by op shape }
{
    match (op, shape) {
        (Op::Insert { .. } | Op::Remove { .. } | Op::Has { .. }, Some(Shape::Set)) => true,
        (Op::Put { .. } | Op::Get { .. } | Op::Erase { .. }, Some(Shape::Map)) => true,
        (Op::Merge { reducer, .. }, Some(Shape::Map)) => is_reducer(reducer),
        _ => false,
    }
}

/// Whether a call on a key of an object is one of what the object is, with a reducer that there is.
pub fn is_keyed(code: &Code, op: Op, object: u64) -> bool
    ensures { result ≡ is_keyed_of op (slice_get (opening code.now.program).things object) }
{
    is_of(op, shape(code, object))
}

/// Whether there is a task of this number with so many parameters.
pub fn has_task(code: &Code, target: u64, count: u64) -> bool
    ensures { (setup : Setup) → result ≡ has_task_of (machine_of setup code.now.program) target count }
{
    match code.params(target) {
        Some(params) => params == count,
        None => false,
    }
}

/// Whether there is a reducer of this number.
pub fn is_reducer(number: u64) -> bool
    ensures { result ≡ is_reducer_of number }
{
    number < 8
}

//! The shapes of the objects with which a run opens.
ghost use Rattle.std.specs.Prelude.{◌≡◌, IfOk, map, is_some, slice_get};
ghost use Rattle.gr_lang.specs.Openings.{objects_from};
ghost use Rattle.gr_code.specs.Shapes.{shape_of};

use gr_lang::Sequence;
use gr_syntax::Item;
use std::alloc::{AllocError, Global};

/// What an object is: words, from a first address on, or a set, a map or a vector.
#[derive(Clone, Copy, PartialEq, Eq)]
pub enum Shape {
    Words { from: u64, words: u64 },
    Set,
    Map,
    Vector,
}

/// A list of shapes.
pub type Shapes = Sequence<Shape>;

/// The shapes of the objects that items declare. An error is want of memory, also for their words.
pub fn shapes_in(alloc: Global, items: &[Item]) -> Result<Shapes, AllocError>
    ensures { IfOk result (λ shapes. shapes ≡ map shape_of (objects_from 0 items.now)) }
{
    let mut shapes = Shapes::new(alloc);
    let mut from: u64 = 0;
    for item in items {
        match item {
            Item::Array { words, .. } => {
                shapes.push(Shape::Words {
                    from,
                    words: words.value,
                })?;
                match from.checked_add(words.value) {
                    Some(next) => from = next,
                    None => return Err(AllocError),
                }
            }
            Item::Set { .. } => shapes.push(Shape::Set)?,
            Item::Map { .. } => shapes.push(Shape::Map)?,
            Item::Vector { .. } => shapes.push(Shape::Vector)?,
            _ => (),
        }
    }
    Ok(shapes)
}

//! What lies at a core as a run opens.
ghost use Rattle.std.specs.Prelude.{◌≡◌, ◌<◌, IfOk, length, slice_get};
ghost use Rattle.std.specs.FinMap as map;
ghost use Rattle.gr_lang.specs.Openings.{opening};
ghost use Rattle.gr_addr.specs.Dealing.{linear_of};
ghost use Rattle.gr_addr.specs.Segments.{words_of};
ghost use Rattle.gr_hash.specs.Shards.{nothing_held};
ghost use Rattle.gr_code.specs.Shapes.{heap_shape};
ghost use Rattle.gr_store.specs.StoreView.{blocks_in, nothing_under, shards_of, under};

use crate::shard::Shard;
use gr_addr::{Layout, Segment, WordOp};
use gr_alloc::Blocks;
use gr_code::{Code, Shape};
use gr_hash::{MapShard, SetShard};
use gr_syntax::MAX_WORDS;
use std::alloc::{AllocError, Global};

/// The opening words of the addresses that are dealt to a core.
pub fn opening_segment(
    alloc: Global,
    code: &Code,
    layout: &Layout,
    me: u64,
) -> Result<Segment, AllocError>
    requires core { me < layout.now.cores }
    requires words { layout.now.words ≡ length (opening code.now.program).words }
    ensures { IfOk result (λ segment. words_of segment ≡ (λ place. slice_get
        (opening code.now.program).words (linear_of layout.now.cores layout.now.block me place))) }
{
    let mut segment = Segment::new(alloc, layout, me)?;
    let share = layout.share(me);
    'places: for place in 0..share {
        let word = code.opening(layout.linear(me, place));
        segment.apply(WordOp::Write { word }, place);
    }
    Ok(segment)
}

/// The part of an object of this shape with which a core opens: no keys.
fn opening_shard(alloc: Global, shape: Shape) -> Shard
    ensures { under result ≡ nothing_held }
{
    match shape {
        Shape::Set => Shard::Set(SetShard::new(alloc)),
        Shape::Map => Shard::Map(MapShard::new(alloc)),
        Shape::Words { .. } | Shape::Vector => Shard::Keyless,
    }
}

/// The parts of objects of these shapes with which a core opens: no keys.
pub fn opening_shards(alloc: Global, shapes: &[Shape]) -> Result<Vec<Shard>, AllocError>
    ensures { IfOk result (λ shards. shards_of shards.items ≡ nothing_under) }
{
    let mut shards = Vec::new(alloc);
    'shapes: for shape in shapes {
        shards.push(opening_shard(alloc, *shape))?;
    }
    Ok(shards)
}

/// The heap, which has this shape, with no live block. An error is want of memory for so many words.
fn opening_heap(alloc: Global, heap: Shape) -> Result<Blocks, AllocError>
    ensures heap { IfOk result (λ blocks. heap ≡ heap_shape blocks.heap) }
    ensures live { IfOk result (λ blocks. blocks.live ≡ map.empty) }
{
    match heap {
        Shape::Words { from, words } => {
            if words > MAX_WORDS || from > u64::MAX - words {
                return Err(AllocError);
            }
            let blocks = Blocks::new(alloc, from, words)?;
            Ok(blocks)
        }
        Shape::Set | Shape::Map | Shape::Vector => Err(AllocError),
    }
}

/// The heap, which has this shape, with no live block, where it is core 0 that opens.
pub fn opening_blocks(alloc: Global, heap: Shape, me: u64) -> Result<Option<Blocks>, AllocError>
    ensures heap { IfOk result (λ blocks. me ≡ 0 → heap ≡ heap_shape (blocks_in blocks).heap) }
    ensures live { IfOk result (λ blocks. (blocks_in blocks).live ≡ map.empty) }
{
    if me > 0 {
        return Ok(None);
    }
    let blocks = opening_heap(alloc, heap)?;
    Ok(Some(blocks))
}

//! Loads of the words of one core: of its share of the arrays, and of its part of a vector.
use gr_addr::{Layout, Segment, WordOp};
use gr_vector::{VecMaster, VecPart};
use std::alloc::{AllocError, Global};

/// The words of the segment that is loaded.
const WORDS: u64 = 1024;

/// So many words are added to, by their addresses, in a segment of one core.
pub fn words(alloc: Global, count: u64) -> Result<String, AllocError> {
    let Ok(layout) = Layout::new(1, 8, WORDS) else {
        return String::from_str(alloc, "no layout");
    };
    let mut segment = Segment::new(alloc, &layout, 0)?;
    let mut before = 0u64;
    for at in 0..count {
        let place = layout.place(at % WORDS);
        if segment.holds(place) {
            before = before.wrapping_add(segment.apply(WordOp::Add { word: 1 }, place));
        }
    }
    format!(in alloc; "sum {before} before")
}

/// So many words are put at positions of a part of a vector, and taken out again.
pub fn positions(alloc: Global, count: u64) -> Result<String, AllocError> {
    let mut part = VecPart::new(alloc);
    for at in 0..count {
        if !part.holds(at) {
            part.put(at, at.wrapping_mul(3))?;
        }
    }
    let held = part.sorted(alloc)?.len();
    let mut sum = 0u64;
    for at in 0..count {
        if part.holds(at) {
            sum = sum.wrapping_add(part.take(at));
        }
    }
    let left = part.sorted(alloc)?.len();
    format!(in alloc; "{held} held, sum {sum}, {left} left")
}

/// So many turns at a vector are asked for by 16 cores, and ended as soon as all have asked.
pub fn turns(alloc: Global, count: u64) -> Result<String, AllocError> {
    let mut master = VecMaster::new(alloc);
    let mut granted = 0u64;
    for at in 0..count {
        if master.ask(at % 16)?.is_some() {
            granted = granted.wrapping_add(1);
        }
        if at >= 16 && master.is_out() && master.done(at, at).is_some() {
            granted = granted.wrapping_add(1);
        }
    }
    format!(in alloc; "{granted} granted")
}

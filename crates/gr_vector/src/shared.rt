//! That what belongs to vectors may be handed to other threads.
use crate::combiner::VecCombiner;
use crate::master::VecMaster;
use crate::part::VecPart;

/// Takes what other threads may own and read.
fn share<T: Send + Sync>(value: &T) {
    let _ = value;
}

/// A master, a part and a combiner may be owned and read by other threads.
pub fn vectors_are_shared(master: &VecMaster, part: &VecPart, combiner: &VecCombiner) {
    share(master);
    share(part);
    share(combiner);
}

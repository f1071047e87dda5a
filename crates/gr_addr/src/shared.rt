//! That a layout and a segment may be handed to other threads.
use crate::layout::Layout;
use crate::segment::Segment;

/// Takes what other threads may own and read.
fn share<T: Send + Sync>(value: &T) {
    let _ = value;
}

/// A layout and a segment may be owned and read by other threads.
pub fn segments_are_shared(layout: &Layout, segment: &Segment) {
    share(layout);
    share(segment);
}

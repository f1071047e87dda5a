//! Trees of peaks in an array.
ghost use Rattle.std.specs.Prelude.{◌≡◌, ◌+◌, ◌*◌, ◌<◌, ◌≤◌, ◌^◌, ℕ, drop, length, slice_index, slice_set};
ghost use Rattle.gr_alloc.specs.PeakView.{IsTree};

/// Puts a number at a leaf, and the peaks above it right.
pub(crate) fn set_leaf(tree: &mut [u32], levels: u32, leaf: usize, number: u32)
    requires is_tree { IsTree tree.old levels }
    requires leaf { 2 ^ levels ≤ leaf }
    requires inside { leaf < length tree.old }
    ensures is_tree { IsTree tree.new levels }
    ensures leaves { drop (2 ^ levels) tree.new
        ≡ drop (2 ^ levels) (slice_set tree.old leaf number) }
{
    tree[leaf] = number;
    let mut node = leaf;
    'climbing: while node > 1 {
        node /= 2;
        tree[node] = tree[2 * node].max(tree[2 * node + 1]);
    }
}

/// The first leaf that holds at least `need`, where the root does.
pub(crate) fn first_leaf(tree: &[u32], levels: u32, need: u32) -> usize
    requires is_tree { IsTree tree.now levels }
    requires reaches { need ≤ slice_index tree.now 1 }
    ensures leaf { 2 ^ levels ≤ result }
    ensures inside { result < length tree.now }
    ensures found { need ≤ slice_index tree.now result }
    ensures first { (k : ℕ) → 2 ^ levels ≤ k → k < result
        → slice_index tree.now k < need }
{
    let mut node = 1;
    'descending: for _ in 0..levels {
        node *= 2;
        if tree[node] < need {
            node += 1;
        }
    }
    node
}

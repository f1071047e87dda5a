//! The holes among the pieces of the heap: a block is made of the first words of one, and becomes one again.
ghost use Rattle.std.specs.Prelude.{◌≡◌, ◌≢◌, ◌+◌, ◌-◌, ◌<◌, ◌≤◌, ℕ, None, Some, length, slice_index};
ghost use Rattle.gr_alloc.specs.HoleView.{AreHoles, Changes, IsBlock, NoHoleBefore, NoHoleBehind, live_at};

use crate::cuts::Cuts;
use crate::peaks::Peaks;

/// Makes a block of the first words of the hole at a place.
pub fn fill(cuts: &mut Cuts, holes: &mut Peaks, at: usize, count: u32)
    requires holes { AreHoles cuts.old holes.old }
    requires some { 0 < count }
    requires fits { count ≤ slice_index holes.old at }
    ensures holes { AreHoles cuts.new holes.new }
    ensures len { length cuts.new ≡ length cuts.old }
    ensures live { Changes cuts.old holes.old cuts.new holes.new at (Some count) }
{
    let words = holes.get(at);
    holes.set(at, 0);
    if count < words {
        cuts.split(at, count);
        holes.set(at + count as usize, words - count);
    }
}

/// Adds the hole behind the block at a place to it, if there is one.
fn grow_behind(cuts: &mut Cuts, holes: &mut Peaks, at: usize)
    requires holes { AreHoles cuts.old holes.old }
    requires block { IsBlock cuts.old holes.old at }
    ensures holes { AreHoles cuts.new holes.new }
    ensures len { length cuts.new ≡ length cuts.old }
    ensures block { IsBlock cuts.new holes.new at }
    ensures behind { NoHoleBehind cuts.new holes.new at }
    ensures live { (k : ℕ) → k ≢ at
        → live_at cuts.new holes.new k ≡ live_at cuts.old holes.old k }
{
    let end = at + cuts.size(at) as usize;
    if end < cuts.len() && holes.get(end) > 0 {
        holes.set(end, 0);
        cuts.join(at);
    }
}

/// Adds the block at a place to the hole before it, if there is one, and gives the start of what is a block
/// then.
fn grow_before(cuts: &mut Cuts, holes: &mut Peaks, at: usize) -> usize
    requires holes { AreHoles cuts.old holes.old }
    requires block { IsBlock cuts.old holes.old at }
    requires behind { NoHoleBehind cuts.old holes.old at }
    ensures holes { AreHoles cuts.new holes.new }
    ensures len { length cuts.new ≡ length cuts.old }
    ensures block { IsBlock cuts.new holes.new result }
    ensures behind { NoHoleBehind cuts.new holes.new result }
    ensures before { NoHoleBefore holes.new result }
    ensures gone { result ≢ at → live_at cuts.new holes.new at ≡ None }
    ensures hole { result ≢ at → live_at cuts.old holes.old result ≡ None }
    ensures live { (k : ℕ) → k ≢ at → k ≢ result
        → live_at cuts.new holes.new k ≡ live_at cuts.old holes.old k }
{
    let start = at - cuts.size_before(at) as usize;
    if holes.get(start) == 0 {
        return at;
    }
    holes.set(start, 0);
    cuts.join(start);
    start
}

/// Makes a hole of the block at a place, which has no hole beside it.
fn open_hole(cuts: &Cuts, holes: &mut Peaks, at: usize)
    requires holes { AreHoles cuts.now holes.old }
    requires block { IsBlock cuts.now holes.old at }
    requires behind { NoHoleBehind cuts.now holes.old at }
    requires before { NoHoleBefore holes.old at }
    ensures holes { AreHoles cuts.now holes.new }
    ensures live { Changes cuts.now holes.old cuts.now holes.new at None }
{
    holes.set(at, cuts.size(at));
}

/// Makes a hole of the block at a place, in one with the holes beside it.
pub fn clear(cuts: &mut Cuts, holes: &mut Peaks, at: usize)
    requires holes { AreHoles cuts.old holes.old }
    requires block { IsBlock cuts.old holes.old at }
    ensures holes { AreHoles cuts.new holes.new }
    ensures len { length cuts.new ≡ length cuts.old }
    ensures live { Changes cuts.old holes.old cuts.new holes.new at None }
{
    grow_behind(cuts, holes, at);
    let start = grow_before(cuts, holes, at);
    open_hole(cuts, holes, start);
}

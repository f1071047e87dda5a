//! The merge of the cores' lists.
ghost use Rattle.std.specs.Prelude.{◌≡◌, ℕ, ◌+◌, [], ◌∷◌, IfOk, IfSome, IfNone, map, length};
ghost use Rattle.gr_merge.specs.Merges as spec;
ghost use Rattle.gr_merge.specs.MergeWords as words;

use std::alloc::{AllocError, Global};
use std::collections::VecDeque;

/// What stands in the list of a core at a clock.
pub trait Clocked {
    ghost clock_of: { Self → ℕ };

    /// Its clock.
    fn clock(&self) -> u64
        ensures { result ≡ clock_of self.now };
}

/// Whether one stands before another, by clock, then by core.
fn goes_first<T: Clocked>(core: u64, one: &T, other_core: u64, other: &T) -> bool
    ensures { result ≡ spec.goes_first T.clock_of (core, one.now) (other_core, other.now) }
{
    let clock = one.clock();
    let other_clock = other.clock();
    clock < other_clock || (clock == other_clock && core < other_core)
}

/// Whether the next is the first of the second list.
fn second_is_next<T: Clocked>(core: u64, list: &VecDeque<T>, others: &VecDeque<(u64, T)>) -> bool
    ensures { result ≡ words.second_is_next T.clock_of core list.now.items others.now.items }
{
    match (list.front(), others.front()) {
        (_, None) => false,
        (None, Some(_)) => true,
        (Some(one), Some(other)) => goes_first(other.0, &other.1, core, one),
    }
}

/// Takes the next of the merge of a core's list and another list.
fn take_next<T: Clocked + Drop>(
    core: u64,
    list: &mut VecDeque<T>,
    others: &mut VecDeque<(u64, T)>,
) -> Option<(u64, T)>
    ensures some { IfSome result (λ next. words.merge_own T.clock_of core list.old.items others.old.items
        ≡ next ∷ words.merge_own T.clock_of core list.new.items others.new.items) }
    ensures none { IfNone result (words.merge_own T.clock_of core list.old.items others.old.items ≡ []) }
    ensures fewer { IfSome result (λ _. length list.new.items + length others.new.items + 1
        ≡ length list.old.items + length others.old.items) }
{
    if second_is_next(core, list, others) {
        others.pop_front()
    } else {
        match list.pop_front() {
            Some(item) => Some((core, item)),
            None => None,
        }
    }
}

/// The list of a core and another list as one.
fn merge_own<T: Clocked + Drop>(
    alloc: Global,
    core: u64,
    list: Vec<T>,
    others: Vec<(u64, T)>,
) -> Result<Vec<(u64, T)>, AllocError>
    ensures { IfOk result (λ merged. merged.items ≡ words.merge_own T.clock_of core list.items others.items) }
{
    let mut list = VecDeque::from(list);
    let mut others = VecDeque::from(others);
    let mut merged = Vec::new(alloc);
    'taking: while let Some(next) = take_next(core, &mut list, &mut others) {
        merged.push(next)?;
    }
    Ok(merged)
}

/// The lists of all cores, from core 0 on, as one, by clock and then by core. Each has its core.
pub fn merge<T: Clocked + Drop>(
    alloc: Global,
    lists: Vec<Vec<T>>,
) -> Result<Vec<(u64, T)>, AllocError>
    ensures { IfOk result (λ merged. merged.items ≡ spec.merge T.clock_of (map (λ list. list.items) lists.items)) }
{
    let mut lists = lists;
    let mut merged = Vec::new(alloc);
    'cores: while let Some(list) = lists.pop() {
        merged = merge_own(alloc, lists.len() as u64, list, merged)?;
    }
    Ok(merged)
}

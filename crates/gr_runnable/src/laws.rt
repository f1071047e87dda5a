//! The law, the contract of a function that does nothing.
ghost use Rattle.gr_runnable.specs.Laws as laws;

use gr_fits::actions_fit;
use gr_fits_numbers::spelled_numbers_fit;
use gr_fits_words_heap::heaps_fit;
use gr_spelled_names::spelled_objects_have_names;

/// A text that spells a program which is accepted spells one that can be run.
pub fn texts_are_runnable()
    ensures { laws.TextsAreRunnable }
{
    spelled_numbers_fit();
    heaps_fit();
    spelled_objects_have_names();
    actions_fit();
}

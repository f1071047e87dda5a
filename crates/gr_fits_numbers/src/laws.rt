//! The law, the contract of a function that does nothing.
ghost use Rattle.gr_fits_numbers.specs.Laws as laws;

/// Each number of a program that a text spells is below 2^64.
pub fn spelled_numbers_fit()
    ensures { laws.SpelledNumbersFit }
{}

//! The law, the contract of a function that does nothing.
ghost use Rattle.gr_spelled_names.specs.Laws as laws;

/// Each array, set, map and vector of a program that a text spells has a name of the language.
pub fn spelled_objects_have_names()
    ensures { laws.SpelledObjectsHaveNames }
{}

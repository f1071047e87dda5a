//! The objects of a program that a text spells have names of the language, and so none is named `heap`.
#![tactic(auto)]

mod laws;

pub use laws::spelled_objects_have_names;

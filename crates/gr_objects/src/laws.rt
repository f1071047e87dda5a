//! The laws of batches by the shape of their object, the contract of a function that does nothing.
ghost use Rattle.gr_objects.specs.Laws as laws;

/// The shape of an object says where the home of its batches is, and what a batch does.
pub fn batches_are_by_shape()
    ensures homes { laws.BatchHomesAreByShape }
    ensures batches { laws.BatchesAreByShape }
{}

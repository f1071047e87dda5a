//! The laws, each the contract of a function that does nothing.
ghost use Rattle.gr_lang.specs.Laws.{OperationsAreTheirParts, ReducersAreAssociative};

/// Each operation is the one that its parts make.
#[tactic(auto, using(crate::proofs::Operations::together))]
pub fn operations_are_their_parts()
    ensures { OperationsAreTheirParts }
{}

/// Each reducer is associative.
#[tactic(auto, using(crate::proofs::Reducers::associative))]
pub fn reducers_are_associative()
    ensures { ReducersAreAssociative }
{}

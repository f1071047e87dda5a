//! The laws, each the contract of a function that does nothing.
ghost use Rattle.gr_bounds_numbers.specs.Laws as laws;

/// The numbers of the scopes that are opened next, the ends of tasks that messages tell of, and the active cores of each
/// scope.
pub fn numbers_grow()
    ensures scopes { laws.ScopesGrow }
    ensures ends { laws.EndsGrow }
    ensures active { laws.ActiveGrow }
{}

//! The laws, each the contract of a function that does nothing.
ghost use Rattle.gr_bounds_tails.specs.Laws as laws;

/// The end of a vector's words grows by one at most with each step, with the pushes that wait; so no turn is refused since
/// a position fits no word.
pub fn tails_grow()
    ensures tails { laws.TailsGrow }
    ensures grants { laws.GrantsFit }
{}

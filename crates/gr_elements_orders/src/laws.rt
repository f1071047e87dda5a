//! The laws, each the contract of a function that does nothing.
ghost use Rattle.gr_elements_orders.specs.Laws as laws;

/// What is sent in order keeps the order of a channel, and what a core sent to itself stays in its inbox.
pub fn orders_are_kept<S, M, P, E>()
    ensures order { laws.OutcomesKeepOrder S M P E }
    ensures own { laws.OutcomesKeepOwn S M P E }
{}

/// Shipping and taking leave each channel as it was.
pub fn orders_move<S, M, P>()
    ensures ships { laws.ShipsKeepChannels S M P }
    ensures takes { laws.TakesKeepChannels S M P }
    ensures ships_own { laws.ShipsKeepOwn S M P }
    ensures takes_own { laws.TakesKeepOwn S M P }
{}

/// Behind a late message that is taken up no early one comes.
pub fn orders_tell<S, M, P>()
    ensures { laws.NoneIsBehind S M P }
{}

//! The laws, each the contract of a function that does nothing.
ghost use Rattle.gr_net.specs.Laws as laws;

/// What is sent is in flight, and what is taken up is not; shipping and taking leave all that is in flight.
pub fn messages_flow<S, M, P, E>()
    ensures outcomes { laws.OutcomesFlow S M P E }
    ensures ships { laws.ShipsKeepFlight S M P }
    ensures takes { laws.TakesKeepFlight S M P }
{}

/// What a part sees of an event is an event of what it sees.
pub fn parts_see<S, T, M, N, P, E>()
    ensures outcomes { laws.OutcomesAreSeen S T M N P E }
    ensures ships { laws.ShipsAreSeen S T M N P }
    ensures takes { laws.TakesAreSeen S T M N P }
{}

//! The laws, each the contract of a function that does nothing.
ghost use Rattle.gr_scopes_units.specs.Laws as laws;

/// Units come from other cores, and go to them.
pub fn units_move()
    ensures spawns { laws.SpawnsArrive }
    ensures gifts { laws.GiftsArrive }
    ensures gives { laws.GiftsGoOff }
    ensures steals { laws.StealsGoOff }
{}

/// A unit is split, or its task starts.
pub fn units_are_taken_up()
    ensures splits { laws.ChunksSplit }
    ensures singles { laws.SinglesKeepScopes }
    ensures indices { laws.IndicesKeepScopes }
{}

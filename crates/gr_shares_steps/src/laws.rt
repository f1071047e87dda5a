//! The laws, each the contract of a function that does nothing.
ghost use Rattle.gr_shares_steps.specs.Laws as laws;

/// Each piece of an event keeps the part of work, where scopes keep their names.
pub fn pieces_keep_work()
    ensures runs { laws.RunPiecesKeepWork }
    ensures serves { laws.ServePiecesKeepWork }
    ensures ends { laws.EndPiecesKeepWork }
    ensures gives { laws.GiftPiecesKeepWork }
    ensures closes { laws.ClosePiecesKeepWork }
    ensures steals { laws.StealPiecesKeepWork }
    ensures moves { laws.MovePiecesKeepWork }
{}

/// It holds before the first step, takes names from the part of scopes, and tells what steps need.
pub fn work_stands()
    ensures opens { laws.OpeningsHaveWork }
    ensures names { laws.ScopesNameOn }
    ensures tells { laws.WorkIsTold }
{}

//! The laws, each the contract of a function that does nothing.
ghost use Rattle.gr_scopes_trees.specs.Laws as laws;

/// Each kind of entry leaves the tree, or makes of it what the part of scopes says.
pub fn steps_make_trees()
    ensures calls { laws.CallsLeaveTrees }
    ensures ends { laws.EndsLeaveTrees }
    ensures traps { laws.TrapsLeaveTrees }
    ensures spawns { laws.SpawnsMakeTasks }
    ensures finishes { laws.FinishesOpenScopes }
    ensures loops { laws.LoopsOpenScopes }
    ensures empty { laws.EmptyLoopsLeaveScopes }
    ensures indices { laws.IndicesMakeTasks }
    ensures passes { laws.PassesLeaveScopes }
    ensures over { laws.OverLeavesTheRoot }
{}

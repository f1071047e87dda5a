//! Worked rows of single events.
ghost use Rattle.gr_machine.specs.EnabledRows as events;
ghost use Rattle.gr_machine.specs.RequestRows as requests;
ghost use Rattle.gr_machine.specs.StrayRows as strays;

/// Which events are enabled before each event of a run, and that none is behind a trap or the end.
pub fn enabled_rows()
    ensures remote { events.RemoteEnabled }
    ensures batch { events.BatchEnabled }
    ensures calls { events.CallsFill }
    ensures messages { events.MessagesFill }
    ensures none { events.NothingMore }
{}

/// Each call that a home makes for a request; and messages, units and actions that find nothing to act on.
pub fn single_rows()
    ensures words { requests.WordsAreCalled }
    ensures blocks { requests.BlocksAreMade }
    ensures messages { strays.StraysFindNothing }
    ensures gone { strays.StrayIsGone }
    ensures scope { strays.FullScopeFindsNothing }
    ensures units { strays.UnitsAreDropped }
    ensures actions { strays.ActionsAreDropped }
{}

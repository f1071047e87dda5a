//! The laws, each the contract of a function that does nothing.
ghost use Rattle.gr_stands_legal.specs.Laws as laws;

use gr_stands_opening::programs_are_sound;
use gr_stands_parts::runs_are_histories;

/// What a run is given, where its setup is one and its program can be run, is such as the law of histories asks.
pub fn runs_are_given()
    ensures sound { laws.SetupsAreSound }
    ensures few { laws.SetupsHaveFewSteps }
    ensures accepted { laws.RunnableProgramsAreAccepted }
    ensures slots { laws.SlotsOfRunsFit }
    ensures fronts { laws.SlotsOfFrontsFit }
{
    programs_are_sound();
}

/// Under every schedule the history of a run is legal, and the machine stands for the plain memory after it and after
/// each front of its steps.
pub fn runs_are_legal()
    ensures given { laws.GivenRunsHold }
    ensures runs { laws.RunsHold }
    ensures fronts { laws.FrontsHold }
    ensures histories { laws.HistoriesHold }
    ensures legal { laws.HistoriesAreLegal }
{
    programs_are_sound();
    runs_are_histories();
}

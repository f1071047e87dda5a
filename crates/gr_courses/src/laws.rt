//! The laws of events outcome by outcome, each the contract of a function that does nothing.
ghost use Rattle.gr_courses.specs.Laws as laws;

/// An outcome that follows another one, and outcomes that change no more than the body.
pub fn outcomes_follow()
    ensures nothing { laws.NothingHappens }
    ensures bodies { laws.BodiesAreNew }
    ensures followed { laws.OutcomesFollow }
{}

/// What an outcome does with a list it does with each of its elements, one after another.
pub fn lists_go_one_by_one()
    ensures messages { laws.MessagesGoOneByOne }
    ensures marks { laws.MarksAreLeftOneByOne }
    ensures batches { laws.BatchesGoOneByOne }
    ensures units { laws.UnitsAreMadeOneByOne }
    ensures gifts { laws.GiftsGoOneByOne }
    ensures nobody { laws.NobodyWaits }
    ensures nothing { laws.NothingIsGiven }
{}

/// Each event of the machine is outcomes one after another.
pub fn events_are_courses()
    ensures settled { laws.SettlesByMessage }
    ensures served { laws.ServesGoSo }
    ensures ran { laws.RunsGoSo }
    ensures closed { laws.ClosesGoSo }
    ensures stolen { laws.StealsGoSo }
{}

/// A core step is an entry of the journal, and counts as the machine counts.
pub fn steps_are_entries()
    ensures counted { laws.EventsCountSo }
    ensures inner { laws.StepsAreInner }
    ensures takes { laws.StepsTake }
    ensures ships { laws.StepsShip }
{}

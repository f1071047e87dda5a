//! The laws, each the contract of a function that does nothing.
ghost use Rattle.gr_stands_outcomes.specs.Laws as laws;

/// An event that is inner to its core is one outcome there, and an outcome that is followed by another one is both of them,
/// one after the other.
pub fn events_are_outcomes()
    ensures inner { laws.InnerEventsAreOutcomes }
    ensures apart { laws.OutcomesComeApart }
{}

/// Marks that a core leaves after others have their entries after those of the others, with the batches that have gone off
/// till then; and entries lead on from the plain state to which those before them lead.
pub fn marks_follow()
    ensures batches { laws.BatchesGoOffInOrder }
    ensures entries { laws.EntriesComeInOrder }
    ensures histories { laws.HistoriesGoOn }
    ensures on { laws.EntriesLeadOn }
    ensures apart { laws.EntriesComeApart }
{}

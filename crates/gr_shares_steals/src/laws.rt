//! The laws, each the contract of a function that does nothing.
ghost use Rattle.gr_shares_steals.specs.Laws as laws;

/// A core asks another for work, and the other keeps the question.
pub fn questions_share()
    ensures asked { laws.QuestionsAreAsked }
    ensures waits { laws.QuestionsWait }
{}

/// A core gives units to those that wait at it, and a unit that was asked for comes.
pub fn gifts_share()
    ensures given { laws.GiftsKeepShares }
    ensures taken { laws.GiftsAreExpected }
{}

/// An event keeps the part of work whole, where its outcome keeps the sums.
pub fn events_share()
    ensures gifts { laws.GiftsEndEvents }
    ensures none { laws.EventsWithoutGifts }
{}

//! The laws, each the contract of a function that does nothing.
ghost use Rattle.gr_replay.specs.Laws.{JudgedOnce, LegalIsJudged, WrittenNames};

/// A history text has one verdict.
pub fn judged_once()
    ensures { JudgedOnce }
{}

/// Lines that name a legal history are judged legal, and complete where it is.
pub fn legal_is_judged()
    ensures { LegalIsJudged }
{}

/// What is written of a legal history of an accepted program names that history again.
pub fn written_names()
    ensures { WrittenNames }
{}

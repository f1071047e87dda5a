//! The laws, the contract of a function that does nothing.
ghost use Rattle.gr_fits_words.specs.Laws as laws;

/// In each state that is reached all words are below 2^64, and so each loop to which a task comes next has at most as many
/// indices as there are words.
pub fn words_fit()
    ensures calls { laws.CallsKeepWords }
    ensures words { laws.ReachedWordsFit }
    ensures loops { laws.ReachedLoopsHaveFewIndices }
{}

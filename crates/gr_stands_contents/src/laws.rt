//! The law, the contract of a function that does nothing.
ghost use Rattle.gr_stands_contents.specs.Laws as laws;

/// Where a world stands for a plain state in its words, and no vector has a turn out, its cores hold together what the
/// plain objects hold.
pub fn contents_stand()
    ensures { laws.ContentsStand }
{}

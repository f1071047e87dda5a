//! The laws of what cores hold together, the contract of a function that does nothing.
ghost use Rattle.gr_report.specs.Laws as laws;

/// Cores hold one thing together. Where one core alone may hold something, what it holds counts, and the word of an
/// address is the one at its home.
pub fn cores_hold_together()
    ensures once { laws.GatheredOnce }
    ensures alone { laws.AloneHeld }
    ensures none { laws.NoneHeld }
    ensures words { laws.WordsAreAtHome }
{}

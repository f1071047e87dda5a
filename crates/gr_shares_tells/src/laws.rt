//! The laws, each the contract of a function that does nothing.
ghost use Rattle.gr_shares_tells.specs.Laws as laws;

/// What a step needs of the part of work, and what the part of scopes does.
pub fn work_tells()
    ensures steps { laws.WorkTellsSteps }
    ensures scopes { laws.WorkTellsScopes }
{}

/// A unit that is taken up finds something to act on, with as many slots as it needs.
pub fn units_act()
    ensures sound { laws.UnitsAreSound }
    ensures slots { laws.UnitsTakeTheirSlots }
{}

/// At most one question is out from one core to another, and a core with units for others answers it at once.
pub fn questions_are_answered()
    ensures single { laws.QuestionsAreSingle }
    ensures once { laws.UnitsAreGivenAtOnce }
{}

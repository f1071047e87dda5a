//! The laws, each the contract of a function that does nothing.
ghost use Rattle.gr_view.specs.Laws.{PlacesArePut, PutsAreOverwritten, PutsAreRead, PutsLeaveOthers};

/// What is put at a number is what is read there, nothing else changes, and the later of two writes at one
/// number counts.
pub fn puts_are_read<T>()
    ensures read { PutsAreRead T }
    ensures others { PutsLeaveOthers T }
    ensures twice { PutsAreOverwritten T }
{}

/// A write at a place of a list is a write of the function that the list stands for.
pub fn places_are_put<T>()
    ensures { PlacesArePut T }
{}

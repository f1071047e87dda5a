//! Laws of refusals. The functions do nothing: what they tell is their contracts.
ghost use Rattle.std.specs.Prelude.{◌≡◌, ◌⊎◌, true};
ghost use Rattle.gr_accept.specs.Accepted.{faults, IsAccepted};
ghost use Rattle.gr_syntax.specs.Faults.{IsFirst};
ghost use Rattle.gr_syntax.specs.Targets.{targets_fit};
ghost use Rattle.gr_syntax.specs.declared.refusal.Fault.{Fault};
ghost use Rattle.gr_syntax.specs.declared.syntax.Program.{Program};

/// A program has at most one first fault, none if it is accepted, and one if it isn't, where its assignments have as
/// many targets as the grammar gives them. So a refusal tells exactly one kind and place, no program is both accepted
/// and refused, and each is one of the two.
pub fn refusals_are_exact()
    ensures at_most_one { (program : Program) (one other : Fault)
        → IsFirst one (faults program) → IsFirst other (faults program) → one ≡ other }
    ensures none_if_accepted { (program : Program) (first : Fault)
        → IsFirst first (faults program) → IsAccepted program → ⊥ }
    ensures one_unless_accepted { (program : Program) → targets_fit program ≡ true
        → IsAccepted program ⊎ ((first : Fault) × IsFirst first (faults program)) }
{}

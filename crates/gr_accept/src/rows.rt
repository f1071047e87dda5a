//! Worked rows, proved on the definitions: which worked programs are accepted, and which faults the others have.
ghost use Rattle.std.specs.Prelude.{◌≡◌, [], ◌∷◌};
ghost use Rattle.gr_accept.specs.Accepted.{faults, IsAccepted};
ghost use Rattle.gr_accept.specs.AcceptedRows as row;
ghost use Rattle.gr_accept.specs.AcceptedRows.{at};
ghost use Rattle.gr_syntax.specs.Faults.{fault, IsFirst};
ghost use Rattle.gr_syntax.specs.declared.refusal.Kind.TheVariants as kind;

/// Programs that are accepted. It does nothing: its contract is what it tells.
pub fn accepted_rows()
    ensures prints { IsAccepted row.prints }
    ensures uses_all_kinds { IsAccepted row.uses_all_kinds }
{}

/// Programs with one fault each. It does nothing: its contract is what it tells.
pub fn refused_rows()
    ensures unbound { faults row.unbound ≡ fault kind.Unknown (at 21) ∷ [] }
    ensures main_with_parameter { faults row.main_with_parameter ≡ fault kind.MainHasParams (at 11) ∷ [] }
    ensures empty { faults row.empty ≡ fault kind.NoMain (at 1) ∷ [] }
    ensures own_right_side { faults row.own_right_side ≡ fault kind.Unknown (at 23) ∷ [] }
    ensures sibling_block { faults row.sibling_block ≡ fault kind.Unknown (at 48) ∷ [] }
    ensures after_block { faults row.after_block ≡ fault kind.Unknown (at 41) ∷ [] }
    ensures name_in_two_blocks { faults row.name_in_two_blocks ≡ fault kind.Duplicate (at 46) ∷ [] }
    ensures second_heap { faults row.second_heap ≡ fault kind.Duplicate (at 14) ∷ [] }
    ensures not_of_its_kind { faults row.not_of_its_kind ≡ fault kind.WrongKind (at 24) ∷ [] }
    ensures task_for_object { faults row.task_for_object ≡ fault kind.WrongKind (at 15) ∷ [] }
    ensures argument_missing { faults row.argument_missing ≡ fault kind.WrongArity (at 24) ∷ [] }
    ensures target_too_many { faults row.target_too_many ≡ fault kind.WrongArity (at 26) ∷ [] }
    ensures nine_parameters { faults row.nine_parameters ≡ fault kind.TooMany (at 32) ∷ [] }
    ensures one_word_too_many { faults row.one_word_too_many ≡ fault kind.HeapTooLarge (at 25) ∷ [] }
    ensures numbers_past_end { faults row.numbers_past_end ≡ fault kind.InputTooLong (at 26) ∷ [] }
    ensures input_of_no_array { faults row.input_of_no_array ≡ fault kind.InputUnknown (at 14) ∷ [] }
{}

/// Programs with two faults, found in either order, of which the one that comes first in the text is
/// reported. It does nothing: its contract is what it tells.
pub fn first_place_rows()
    ensures use_first { IsFirst (fault kind.Unknown (at 21)) (faults row.use_first) }
    ensures head_first { IsFirst (fault kind.Duplicate (at 12)) (faults row.head_first) }
{}

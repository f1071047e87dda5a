//! What the definition of the options is worth to its readers.
ghost use Rattle.std.specs.Prelude.{◌≡◌, ℕ, List, Some};
ghost use Rattle.gr_cli.specs.Options.{IsWithinLimits, options_of};
ghost use Rattle.gr_cli.specs.declared.settings.Options.{Options};

/// States that each number of the options that any words give is within its bounds.
pub fn options_are_within_limits()
    ensures { (words : List (List ℕ)) (options : Options)
        → options_of words ≡ Some options → IsWithinLimits options }
{}

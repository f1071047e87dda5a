//! The laws, at an example language that uses each combinator.

ghost use Rattle.std.specs.Prelude.{◌≡◌, ℕ, ◌<◌, List, [], length, Ok, Err};
ghost use Rattle.gr_meets.specs.Example.{Token, Tree, IsText, text};
ghost use Rattle.gr_meets.specs.Faults.{FirstFault};

/// States that the example's parser is exact, for each limit of nesting and each bound of the turns.
///
/// What it reads is spelled so. What is spelled is read, from fewer tokens than turns, and a text spells
/// one thing at most. It stops where the first fault is and nowhere else, and at most one place of a text
/// is its first fault.
pub fn example_is_exact()
    ensures found { (limit turns : ℕ) (tokens rest : List Token) (lines : List (List Tree))
        → text limit turns tokens ≡ Ok (lines, rest) → IsText limit tokens lines }
    ensures complete { (limit turns : ℕ) (tokens : List Token) (lines : List (List Tree))
        → IsText limit tokens lines → length tokens < turns → text limit turns tokens ≡ Ok (lines, []) }
    ensures unique { (limit : ℕ) (tokens : List Token) (lines others : List (List Tree))
        → IsText limit tokens lines → IsText limit tokens others → lines ≡ others }
    ensures fault { (limit turns : ℕ) (tokens : List Token) (left : ℕ) → length tokens < turns
        → text limit turns tokens ≡ Err left → FirstFault (IsText limit) tokens left }
    ensures stops { (limit turns : ℕ) (tokens : List Token) (left : ℕ) → length tokens < turns
        → FirstFault (IsText limit) tokens left → text limit turns tokens ≡ Err left }
    ensures one { (limit : ℕ) (tokens : List Token) (here there : ℕ)
        → FirstFault (IsText limit) tokens here → FirstFault (IsText limit) tokens there → here ≡ there }
{}

//! Laws of what a text reads as and of the answer due. The functions do nothing: what they tell is their
//! contracts.
ghost use Rattle.std.specs.Prelude.{◌≡◌, ℕ, List, Option, String};
ghost use Rattle.std.specs.declared.alloc.Global.{Global};
ghost use Rattle.gr_engine.specs.declared.ending.WorldEnd.{WorldEnd};
ghost use Rattle.gr_top.specs.Readings.{ReadsAs, ReplaysAs, IsDue};
ghost use Rattle.gr_top.specs.Due.{Reading, Replayed, Due};

/// A text reads as one accepted program or as one first fault, a replay finds one thing, and so one answer
/// is due.
pub fn answers_are_exact()
    ensures reading { (text : List ℕ) (r q : Reading) → ReadsAs text r → ReadsAs text q → r ≡ q }
    ensures replay { (text history : List ℕ) (x y : Replayed) → ReplaysAs text history x
        → ReplaysAs text history y → x ≡ y }
    ensures due { (words : List (String Global)) (bytes : List ℕ) (world : Option WorldEnd)
        (d e : Due)
        → IsDue words bytes world d → IsDue words bytes world e → d ≡ e }
{}

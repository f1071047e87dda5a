//! Two effects as one.
ghost use Rattle.std.specs.Prelude.{◌≡◌};
ghost use Rattle.gr_batch.specs.Folding as spec;

use gr_lang::Effect;
use gr_reduce::Reducers;

/// An effect and a fold after it as one effect: none where both fold, by different reducers.
fn with_fold(first: Effect, reducer: u64, word: u64, reducers: &Reducers) -> Option<Effect>
    ensures { result ≡ spec.with_fold first reducer word }
{
    match first {
        Effect::Keep => Some(Effect::Fold { reducer, word }),
        Effect::Present { word: before } => Some(Effect::Present {
            word: reducers.apply(reducer, before, word),
        }),
        Effect::Absent => Some(Effect::Present { word }),
        Effect::Fold {
            reducer: own,
            word: before,
        } => {
            if own == reducer {
                Some(Effect::Fold {
                    reducer: own,
                    word: reducers.apply(own, before, word),
                })
            } else {
                None
            }
        }
    }
}

/// An effect and another after it as one effect: none where both fold, by different reducers.
pub fn together(first: Effect, second: Effect, reducers: &Reducers) -> Option<Effect>
    ensures { result ≡ spec.together first second }
{
    match second {
        Effect::Keep => Some(first),
        Effect::Present { word } => Some(Effect::Present { word }),
        Effect::Absent => Some(Effect::Absent),
        Effect::Fold { reducer, word } => with_fold(first, reducer, word, reducers),
    }
}

//! The eight reducers.
ghost use Rattle.std.specs.Prelude.{◌≡◌, map};
ghost use Rattle.gr_lang.specs.Effects.{after, reduced};
ghost use Rattle.gr_reduce.specs.Reducing.{numbers};

use crate::reducer::Reducer;
use gr_lang::Effect;

/// The eight reducers, each at the place of its number.
#[derive(Clone, Copy)]
pub struct Reducers {
    list: [Reducer; 8],
    ghost ordered: { map (λ reducer. reducer.number) list ≡ numbers },
}

impl Reducers {
    /// The eight reducers, in the order of their numbers. It takes no memory.
    pub fn new(list: [Reducer; 8]) -> Reducers
        requires { map (λ reducer. reducer.number) list ≡ numbers }
    {
        Reducers { list }
    }

    /// Two words made one by the reducer of this number, by calling the function that was handed in for it. A
    /// number of 8 or more gives the last word. It takes no memory.
    pub fn apply(&self, number: u64, one: u64, other: u64) -> u64
        ensures { result ≡ reduced number one other }
    {
        if number < 8 {
            self.list[number as usize].apply(one, other)
        } else {
            other
        }
    }

    /// What an effect makes of what stands under a key, or of a word. It takes no memory.
    pub fn after(&self, effect: Effect, before: Option<u64>) -> Option<u64>
        ensures { result ≡ after effect before }
    {
        match effect {
            Effect::Keep => before,
            Effect::Present { word } => Some(word),
            Effect::Absent => None,
            Effect::Fold { reducer, word } => match before {
                None => Some(word),
                Some(old) => Some(self.apply(reducer, old, word)),
            },
        }
    }
}

//! One reducer.
ghost use Rattle.std.specs.Prelude.{◌≡◌, ◌<◌};
ghost use Rattle.gr_lang.specs.Effects.{reduced};
ghost use Rattle.gr_reduce.specs.Reducing.{Reduces};

/// A function of two words that is the reducer of its number.
#[derive(Clone, Copy)]
pub struct Reducer {
    /// 0 to 7: add, min, max, or, and, xor, first, last.
    pub number: u64,
    call: fn(u64, u64) -> u64,
    ghost known: { number < 8 },
    ghost reduces: { Reduces (pre call) (post call) number },
}

impl Reducer {
    /// The reducer of this number, which the function is. It takes no memory.
    pub fn new(number: u64, call: fn(u64, u64) -> u64) -> Reducer
        requires known { number < 8 }
        requires reduces { Reduces (pre call) (post call) number }
        ensures { result.number ≡ number }
    {
        Reducer { number, call }
    }

    /// Two words made one, by calling the function.
    pub fn apply(&self, one: u64, other: u64) -> u64
        ensures { result ≡ reduced self.now.number one other }
    {
        (self.call)(one, other)
    }
}

//! Why a part of the parser read nothing.

use std::alloc::{AllocError, AllocFailed};

/// Why a part of the parser read nothing.
#[derive(Drop)]
pub enum Stop {
    /// There was no memory.
    OutOfMemory,
    /// The first fault is where so many tokens are left, the end not counted.
    Fault { left: usize },
}

impl From<AllocError> for Stop {
    ghost use Rattle.std.specs.Prelude.{◌≡◌};
    ghost use Rattle.gr_expressions.specs.declared.fault.Stop.TheVariants as stops;

    ghost from_gives = { λ _ e. e ≡ stops.OutOfMemory };

    fn from(_error: AllocError) -> Stop {
        Stop::OutOfMemory
    }
}

impl<T: Drop> From<AllocFailed<T>> for Stop {
    ghost use Rattle.std.specs.Prelude.{◌≡◌};
    ghost use Rattle.gr_expressions.specs.declared.fault.Stop.TheVariants as stops;

    ghost from_gives = { λ _ e. e ≡ stops.OutOfMemory };

    fn from(_error: AllocFailed<T>) -> Stop {
        Stop::OutOfMemory
    }
}

//! How far a line is indented.
ghost use Rattle.std.specs.Prelude.{◌≡◌, ◌+◌, IfOk, replicate, string_bytes, string_len};

use std::alloc::{AllocError, Global};
use std::marker::Model;

/// The blanks before the words of a line. Contracts see how many there are.
#[derive(Drop)]
pub(crate) struct Margin {
    blanks: String,
    ghost only_blanks: { string_bytes blanks ≡ replicate (string_len blanks) 32 },
}

impl Model for Margin {
    ghost use Rattle.std.specs.Prelude.{ℕ, string_len};

    ghost Value = { ℕ };

    ghost view = { λ m. string_len m.blanks };
}

impl Margin {
    /// No blanks.
    pub(crate) fn none(alloc: Global) -> Margin
        ensures { result ≡ 0 }
    {
        Margin {
            blanks: String::new(alloc),
        }
    }

    /// The blanks.
    pub(crate) fn as_str(&self) -> &str
        ensures { result.now ≡ replicate self.now 32 }
    {
        self.blanks.as_str()
    }

    /// Two blanks more, for the statements of a block.
    pub(crate) fn deeper(&self) -> Result<Margin, AllocError>
        ensures { IfOk result (λ m. m ≡ self.now + 2) }
    {
        let mut blanks = self.blanks.clone()?;
        blanks.push_str("  ")?;
        Ok(Margin { blanks })
    }
}

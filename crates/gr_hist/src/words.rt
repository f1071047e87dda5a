//! The words of reducers and traps, read.
ghost use Rattle.std.specs.Prelude.{◌≡◌};
ghost use Rattle.std.specs.List.{find};
ghost use Rattle.std.specs.Str.{bytes_eq};
ghost use Rattle.gr_accept.specs.Operations.{reducer_of};
ghost use Rattle.gr_lang.specs.Traps.{trap_word};
ghost use Rattle.gr_hist.specs.FieldWords.{Gives, trap_of};

use crate::fields::{LineError, given, is_text};
use gr_accept::reducer_of;
use gr_lang::TrapKind;

/// All kinds of traps.
const TRAPS: [TrapKind; 4] = [
    TrapKind::Div,
    TrapKind::Place,
    TrapKind::Core,
    TrapKind::Steps,
];

/// The number, 0 to 7, of the reducer of that word.
pub fn reducer_named(word: &[u8]) -> Result<u64, LineError>
    ensures { Gives (reducer_of word.now) result }
{
    given(reducer_of(word))
}

/// The first of these that is told by that word.
fn told_by(kinds: &[TrapKind], word: &[u8]) -> Option<TrapKind>
    ensures { result ≡ find (λ kind. bytes_eq word.now (trap_word kind)) kinds.now }
{
    for kind in kinds {
        if is_text(word, kind.word()) {
            return Some(*kind);
        }
    }
    None
}

/// The trap that is told by that word.
pub fn trap_named(word: &[u8]) -> Result<TrapKind, LineError>
    ensures { Gives (trap_of word.now) result }
{
    given(told_by(&TRAPS, word))
}

//! What stands at an action: which entry of a history is due.
ghost use Rattle.std.specs.Prelude.{◌≡◌};
ghost use Rattle.std.specs.Str.{bytes_eq};
ghost use Rattle.gr_lang.specs.Steps.{has_core as is_core};
ghost use Rattle.gr_tables.specs.Dues as due;

use gr_lang::{Action, How, Op, TrapKind, Words};

/// Whether both have the same words.
fn same_words(a: &Words, b: &Words) -> bool
    ensures { result ≡ bytes_eq a.now b.now }
{
    a.as_slice() == b.as_slice()
}

/// Whether the spawn names no core, or one that there is.
pub fn has_core(cores: u64, how: How) -> bool
    ensures { result ≡ is_core cores how }
{
    match how {
        How::At { core } => core < cores,
        _ => true,
    }
}

/// The call at which it stands.
pub fn call_in(action: &Action) -> Option<Op>
    ensures { result ≡ due.call_in action.now }
{
    match action {
        Action::Call { op } => Some(*op),
        _ => None,
    }
}

/// Whether it is this spawn.
pub fn is_spawn(action: &Action, how: How, target: u64, args: &Words) -> bool
    ensures { result ≡ due.is_spawn action.now how target args.now }
{
    match action {
        Action::Spawn {
            how: way,
            target: due,
            args: words,
        } => {
            let same = way.is(&how);
            let equal = same_words(words, args);
            same && *due == target && equal
        }
        _ => false,
    }
}

/// Whether it is the opening of a `finish`.
pub fn is_finish(action: &Action) -> bool
    ensures { result ≡ due.is_finish action.now }
{
    matches!(action, Action::Finish)
}

/// Whether it is the end of a `finish`.
pub fn is_arrive(action: &Action) -> bool
    ensures { result ≡ due.is_arrive action.now }
{
    matches!(action, Action::Arrive)
}

/// Whether it is the loop from `lo` to below `hi` with this grain and task.
pub fn is_loop(action: &Action, lo: u64, hi: u64, grain: u64, target: u64, args: &Words) -> bool
    ensures { result ≡ due.is_loop action.now lo hi grain target args.now }
{
    match action {
        Action::Loop {
            lo: low,
            hi: high,
            grain: size,
            target: due,
            args: words,
        } => {
            let equal = same_words(words, args);
            *low == lo && *high == hi && *size == grain && *due == target && equal
        }
        _ => false,
    }
}

/// Whether it is the end of the body.
pub fn is_end(action: &Action) -> bool
    ensures { result ≡ due.is_end action.now }
{
    matches!(action, Action::End)
}

/// Whether it is this trap, or a spawn at a core that there isn't.
pub fn is_trap(cores: u64, action: &Action, kind: TrapKind) -> bool
    ensures { result ≡ due.is_trap cores action.now kind }
{
    match action {
        Action::Trap { kind: due } => due.is(&kind),
        Action::Spawn { how, .. } => match kind {
            TrapKind::Core => !has_core(cores, *how),
            _ => false,
        },
        _ => false,
    }
}

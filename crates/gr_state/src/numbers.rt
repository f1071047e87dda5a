//! Numbers that count one after another.
ghost use Rattle.std.specs.Prelude.{◌≡◌, ◌+◌, IfOk, if◌then◌else◌};

use std::alloc::AllocError;

/// A number after one more. It is an error where numbers run out.
pub fn one_more(count: u64) -> Result<u64, AllocError>
    ensures { IfOk result (λ next. next ≡ count + 1) }
{
    count.checked_add(1).ok_or(AllocError)
}

/// So many, or one more.
pub fn counted(count: u64, is_more: bool) -> Result<u64, AllocError>
    ensures { IfOk result (λ next. next ≡ (if is_more then count + 1 else count)) }
{
    if is_more { one_more(count) } else { Ok(count) }
}

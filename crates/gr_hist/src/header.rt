//! The first line of a history text.
ghost use Rattle.gr_hist.specs.LineWords.{header_of, limits_of, sizes_of};
ghost use Rattle.gr_hist.specs.FieldWords.{Gives, bytes_of};

use crate::fields::{LineError, is_text, number};
use gr_syntax::{MAX_CORES, MAX_STEPS};

/// The numbers of cores and of steps, within their limits.
fn limits(cores: u64, steps: u64) -> Result<(u64, u64), LineError>
    ensures { Gives (limits_of cores steps) result }
{
    let fits = 1 <= cores && cores <= MAX_CORES && 1 <= steps && steps <= MAX_STEPS;
    if !fits {
        return Err(LineError::Bad);
    }
    Ok((cores, steps))
}

/// What stands behind `history 1 cores`.
fn sizes(fields: &[&[u8]]) -> Result<(u64, u64), LineError>
    ensures { Gives (sizes_of (bytes_of fields.now)) result }
{
    match fields {
        [cores, sign, steps] => {
            let has_steps = is_text(*sign, "steps");
            if !has_steps {
                return Err(LineError::Bad);
            }
            let cores = number(*cores)?;
            let steps = number(*steps)?;
            let found = limits(cores, steps)?;
            Ok(found)
        }
        [] | [_] | [_, _] | [_, _, _, _, ..] => Err(LineError::Bad),
    }
}

/// The numbers of cores and of steps of a first line with these fields.
pub fn header(fields: &[&[u8]]) -> Result<(u64, u64), LineError>
    ensures { Gives (header_of (bytes_of fields.now)) result }
{
    match fields {
        [first, version, sign, rest @ ..] => {
            let is_first = is_text(*first, "history")
                && is_text(*version, "1")
                && is_text(*sign, "cores");
            if !is_first {
                return Err(LineError::Bad);
            }
            let found = sizes(rest)?;
            Ok(found)
        }
        [] | [_] | [_, _] => Err(LineError::Bad),
    }
}

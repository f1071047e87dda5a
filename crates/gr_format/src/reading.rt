//! Numbers as they are read.
ghost use Rattle.std.specs.Prelude.{◌≡◌, true, false, MatchResult};
ghost use Rattle.std.specs.Int.{is_in_range};
ghost use Rattle.gr_format.specs.declared.error.FormatError.TheVariants as error;
ghost use Rattle.gr_format.specs.Formats.{ranged};
ghost use Rattle.gr_format.specs.Readers.{Reads};

use crate::error::FormatError;

/// A number that was read and the bytes behind it, where it lies in the range; else so many bytes are left.
fn within(
    number: u64,
    rest: &[u8],
    left: usize,
    least: u64,
    most: u64,
) -> Result<(u64, &[u8]), FormatError>
    ensures { MatchResult result
        (λ read. (is_in_range least most number ≡ true) × (read.0 ≡ number) × (read.1.now ≡ rest.now))
        (λ stopped. (is_in_range least most number ≡ false) × (stopped ≡ error.Fault left)) }
{
    if least <= number && number <= most {
        Ok((number, rest))
    } else {
        Err(FormatError::Fault { left })
    }
}

/// Reads a number of one byte, from the least to the most that is allowed. Answers it and the bytes behind it.
pub fn byte(bytes: &[u8], least: u64, most: u64) -> Result<(u64, &[u8]), FormatError>
    ensures { Reads (ranged 1 least most) bytes.now result }
{
    let left = bytes.len();
    let found = bytes.split_first_chunk::<1>();
    match found {
        Some((front, rest)) => within(u64::from(front[0]), rest, left, least, most),
        None => Err(FormatError::Fault { left }),
    }
}

/// Reads a number of two bytes, from the least to the most that is allowed. Answers it and the bytes behind it.
pub fn pair(bytes: &[u8], least: u64, most: u64) -> Result<(u64, &[u8]), FormatError>
    ensures { Reads (ranged 2 least most) bytes.now result }
{
    let left = bytes.len();
    let found = bytes.split_first_chunk::<2>();
    match found {
        Some((front, rest)) => within(
            u64::from(u16::from_be_bytes(*front)),
            rest,
            left,
            least,
            most,
        ),
        None => Err(FormatError::Fault { left }),
    }
}

/// Reads a number of eight bytes, from the least to the most that is allowed. Answers it and the bytes behind it.
pub fn word(bytes: &[u8], least: u64, most: u64) -> Result<(u64, &[u8]), FormatError>
    ensures { Reads (ranged 8 least most) bytes.now result }
{
    let left = bytes.len();
    let found = bytes.split_first_chunk::<8>();
    match found {
        Some((front, rest)) => within(u64::from_be_bytes(*front), rest, left, least, most),
        None => Err(FormatError::Fault { left }),
    }
}

//! Numbers as they are written.
ghost use Rattle.std.specs.Prelude.{◌≡◌, ◌++◌, OnOk};
ghost use Rattle.gr_format.specs.Writing.{spelled, written};

use std::alloc::AllocError;

/// The lowest bytes of a number, which are written with the highest first.
#[derive(Clone, Copy, Debug, PartialEq, Eq)]
pub enum Field {
    /// The lowest byte.
    Byte(u64),
    /// The two lowest bytes.
    Pair(u64),
    /// All eight bytes.
    Word(u64),
}

/// Writes a number behind what is there.
fn put_one(out: &mut Vec<u8>, field: Field) -> Result<(), AllocError>
    ensures { OnOk result (out.new.items ≡ out.old.items ++ written field) }
{
    match field {
        Field::Byte(number) => {
            out.push((number % 256) as u8)?;
            Ok(())
        }
        Field::Pair(number) => out.extend_from_slice(&((number % 65536) as u16).to_be_bytes()),
        Field::Word(number) => out.extend_from_slice(&number.to_be_bytes()),
    }
}

/// Writes numbers one after the other behind what is there.
pub fn put(out: &mut Vec<u8>, fields: &[Field]) -> Result<(), AllocError>
    ensures { OnOk result (out.new.items ≡ out.old.items ++ spelled fields.now) }
{
    for field in fields {
        put_one(out, *field)?;
    }
    Ok(())
}

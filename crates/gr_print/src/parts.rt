//! Lists, arguments and calls as text.
ghost use Rattle.std.specs.Prelude.{◌≡◌, ◌++◌, map, OnOk, string_bytes};
ghost use Rattle.gr_print.specs.Layout as spec;
ghost use Rattle.gr_print.specs.Pieces.{bytes_of};

use crate::expressions::write_expr;
use gr_syntax::{CallText, Expr, Name, Number};
use std::alloc::AllocError;
use std::fmt::Write;

/// Writes names with a comma between two.
pub(crate) fn write_names(out: &mut String, names: &[Name]) -> Result<(), AllocError>
    ensures { OnOk result (string_bytes out.new
        ≡ string_bytes out.old ++ bytes_of (spec.names names.now)) }
{
    if let Some((first, others)) = names.split_first() {
        out.push_str(first.text.as_str())?;
        'each: for name in others {
            write!(out, ", {}", name.text.as_str())?;
        }
    }
    Ok(())
}

/// Writes numbers with a comma between two.
pub(crate) fn write_numbers(out: &mut String, numbers: &[Number]) -> Result<(), AllocError>
    ensures { OnOk result (string_bytes out.new
        ≡ string_bytes out.old ++ bytes_of (spec.numbers numbers.now)) }
{
    if let Some((first, others)) = numbers.split_first() {
        write!(out, "{}", first.value)?;
        'each: for number in others {
            write!(out, ", {}", number.value)?;
        }
    }
    Ok(())
}

/// Writes expressions with a comma between two.
fn write_exprs(out: &mut String, values: &[Expr]) -> Result<(), AllocError>
    ensures { OnOk result (string_bytes out.new
        ≡ string_bytes out.old ++ bytes_of (spec.exprs values.now)) }
{
    if let Some((first, others)) = values.split_first() {
        write_expr(out, first)?;
        'each: for value in others {
            out.push_str(", ")?;
            write_expr(out, value)?;
        }
    }
    Ok(())
}

/// Writes arguments in their brackets.
pub(crate) fn write_args(out: &mut String, values: &[Expr]) -> Result<(), AllocError>
    ensures { OnOk result (string_bytes out.new
        ≡ string_bytes out.old ++ bytes_of (spec.args values.now)) }
{
    out.push_str("(")?;
    write_exprs(out, values)?;
    out.push_str(")")
}

/// Writes a reducer between two blanks, if there is one.
fn write_reducer(out: &mut String, reducer: &Option<Name>) -> Result<(), AllocError>
    ensures { OnOk result (string_bytes out.new
        ≡ string_bytes out.old ++ bytes_of (spec.reducer reducer.now)) }
{
    match reducer {
        Some(name) => {
            write!(out, " {} ", name.text.as_str())?;
            Ok(())
        }
        None => Ok(()),
    }
}

/// Writes a call.
pub(crate) fn write_call(out: &mut String, call: &CallText) -> Result<(), AllocError>
    ensures { OnOk result (string_bytes out.new
        ≡ string_bytes out.old ++ bytes_of (spec.call call.now)) }
{
    write!(
        out,
        "{}.{}",
        call.object.text.as_str(),
        call.op.text.as_str()
    )?;
    write_reducer(out, &call.reducer)?;
    write_args(out, call.args.as_slice())
}

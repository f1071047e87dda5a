//! Items as text.
ghost use Rattle.std.specs.Prelude.{◌≡◌, ◌++◌, OnOk, string_bytes};
ghost use Rattle.gr_print.specs.Layout as spec;
ghost use Rattle.gr_print.specs.Pieces.{bytes_of};

use crate::margin::Margin;
use crate::parts::{write_names, write_numbers};
use crate::statements::write_block;
use gr_syntax::{Item, Name, Number, Stmt};
use std::alloc::AllocError;
use std::fmt::Write;

fn write_input(out: &mut String, name: &Name, values: &[Number]) -> Result<(), AllocError>
    ensures { OnOk result (string_bytes out.new
        ≡ string_bytes out.old ++ bytes_of (spec.input name.now values.now)) }
{
    write!(out, "input {} = ", name.text.as_str())?;
    write_numbers(out, values)?;
    out.push_str(";")
}

fn write_task(
    out: &mut String,
    margin: &Margin,
    name: &Name,
    params: &[Name],
    body: &[Stmt],
) -> Result<(), AllocError>
    requires { margin.now ≡ 0 }
    ensures { OnOk result (string_bytes out.new
        ≡ string_bytes out.old ++ bytes_of (spec.task name.now params.now body.now)) }
{
    write!(out, "task {}(", name.text.as_str())?;
    write_names(out, params)?;
    out.push_str(") ")?;
    write_block(out, margin, body)
}

/// Writes an item, in a line with no margin.
pub(crate) fn write_item(out: &mut String, margin: &Margin, item: &Item) -> Result<(), AllocError>
    requires { margin.now ≡ 0 }
    ensures { OnOk result (string_bytes out.new
        ≡ string_bytes out.old ++ bytes_of (spec.item item.now)) }
{
    match item {
        Item::Array { name, words } => write!(
            out,
            "array {}[{}];",
            name.text.as_str(),
            words.value
        )?,
        Item::Set { name } => write!(out, "set {};", name.text.as_str())?,
        Item::Map { name } => write!(out, "map {};", name.text.as_str())?,
        Item::Vector { name } => write!(out, "vector {};", name.text.as_str())?,
        Item::Heap { words } => write!(out, "heap {};", words.value)?,
        Item::Show { name } => write!(out, "show {};", name.text.as_str())?,
        Item::Input { name, values } => write_input(out, name, values.as_slice())?,
        Item::Task { name, params, body } => {
            write_task(out, margin, name, params.as_slice(), body.as_slice())?
        }
    }
    Ok(())
}

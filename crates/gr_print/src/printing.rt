//! The text of a program.
ghost use Rattle.std.specs.Prelude.{◌≡◌, IfOk};
ghost use Rattle.gr_print.specs.Layout.{program_text};
ghost use Rattle.gr_print.specs.Printed.{IsSpelled, IsLeast};

use crate::declarations::write_item;
use crate::margin::Margin;
use gr_syntax::Program;
use std::alloc::{AllocError, Global};

/// The text of a program: one item or statement a line, blocks indented by two blanks, one blank around
/// binary signs.
///
/// Where the program is, but for places, one that the grammar gives, the text is read as this program, but
/// for places, and no text that is read so has fewer brackets. There may be no memory.
pub fn print_program(alloc: Global, program: &Program) -> Result<Vec<u8>, AllocError>
    ensures layout { IfOk result (λ text. text.items ≡ program_text program.now) }
    ensures least { IsSpelled program.now → IfOk result (λ text. IsLeast text.items program.now) }
{
    let mut text = String::new(alloc);
    let margin = Margin::none(alloc);
    'each: for item in program.items.as_slice() {
        write_item(&mut text, &margin, item)?;
        text.push_str("\n")?;
    }
    Ok(text.into_bytes())
}

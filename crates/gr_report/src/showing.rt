//! The lines that show what objects hold.
ghost use Rattle.std.specs.Prelude.{◌≡◌, ◌++◌, IfOk, OnOk, string_bytes};
ghost use Rattle.gr_report.specs.Showing as spec;

use gr_accept::Accepted;
use gr_memory::{Content, Contents};
use gr_names::ProgramNames;
use gr_syntax::{Item, Text};
use std::alloc::{AllocError, Global};
use std::fmt::Write;

/// The word for what it is the content of.
fn kind_word(content: &Content) -> &'static str
    ensures { result.now ≡ spec.kind_word content.now }
{
    match content {
        Content::Array { .. } => "array",
        Content::Set { .. } => "set",
        Content::Map { .. } => "map",
        Content::Vector { .. } => "vector",
    }
}

/// Adds words, each after a space.
#[tactic(auto, unfolding(crate::specs::Showing::words_text))]
fn write_words(text: &mut String, words: &[u64]) -> Result<(), AllocError>
    ensures { OnOk result (string_bytes text.new
        ≡ string_bytes text.old ++ spec.words_text words.now) }
{
    for word in words {
        write!(text, " {word}")?;
    }
    Ok(())
}

/// Adds pairs, each after a space.
#[tactic(auto, unfolding(crate::specs::Showing::pairs_text))]
fn write_pairs(text: &mut String, pairs: &[(u64, u64)]) -> Result<(), AllocError>
    ensures { OnOk result (string_bytes text.new
        ≡ string_bytes text.old ++ spec.pairs_text pairs.now) }
{
    for (key, word) in pairs {
        write!(text, " {key}={word}")?;
    }
    Ok(())
}

/// Adds all that an object holds.
fn write_held(text: &mut String, content: &Content) -> Result<(), AllocError>
    ensures { OnOk result (string_bytes text.new
        ≡ string_bytes text.old ++ spec.held_text content.now) }
{
    match content {
        Content::Array { words } => write_words(text, words.as_slice()),
        Content::Set { keys } => write_words(text, keys.as_slice()),
        Content::Map { pairs } => write_pairs(text, pairs.as_slice()),
        Content::Vector { words } => write_words(text, words.as_slice()),
    }
}

/// Adds the line that shows what the object of this name holds.
fn write_content(text: &mut String, name: &Text, content: &Content) -> Result<(), AllocError>
    ensures { OnOk result (string_bytes text.new
        ≡ string_bytes text.old ++ spec.content_line name.now content.now) }
{
    let kind = kind_word(content);
    let name = name.as_str();
    write!(text, "{kind} {name}:")?;
    write_held(text, content)?;
    writeln!(text)?;
    Ok(())
}

/// Adds the line for the object of this name, where there is one.
fn write_object(
    text: &mut String,
    names: &ProgramNames,
    contents: &[Content],
    name: &Text,
) -> Result<(), AllocError>
    ensures { OnOk result (string_bytes text.new
        ≡ string_bytes text.old ++ spec.object_line names.now contents.now name.now) }
{
    let number = names.object(name);
    match number {
        None => Ok(()),
        Some(number) => match contents.get(number as usize) {
            None => Ok(()),
            Some(content) => write_content(text, name, content),
        },
    }
}

/// Adds the line for an item, where it shows an object.
fn write_shown(
    text: &mut String,
    names: &ProgramNames,
    contents: &[Content],
    item: &Item,
) -> Result<(), AllocError>
    ensures { OnOk result (string_bytes text.new
        ≡ string_bytes text.old ++ spec.shown_by names.now contents.now item.now) }
{
    match item {
        Item::Show { name } => write_object(text, names, contents, &name.text),
        _ => Ok(()),
    }
}

/// The lines that show what objects hold, in the order of the items that ask for them. An error is want of memory.
#[tactic(auto, unfolding(crate::specs::Showing::shown_items))]
pub fn show_text(
    alloc: Global,
    program: &Accepted,
    contents: &Contents,
) -> Result<String, AllocError>
    ensures { IfOk result (λ text. string_bytes text ≡ spec.shown_text program.now contents.now) }
{
    let program = program.program();
    let names = ProgramNames::new(alloc, program)?;
    let mut text = String::new(alloc);
    for item in program.items.as_slice() {
        write_shown(&mut text, &names, contents.as_slice(), item)?;
    }
    Ok(text)
}

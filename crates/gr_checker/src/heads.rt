//! The pass over the heads of the items: what they declare.
ghost use Rattle.std.specs.Prelude.{◌≡◌, OnOk};
ghost use Rattle.gr_checker.specs.HeadsView as spec;
ghost use Rattle.gr_checker.specs.HeadsView.{kept_by};

use crate::earliest::Earliest;
use crate::meanings::Meanings;
use crate::name_set::NameSet;
use gr_accept::Declared;
use gr_syntax::{Item, Kind, MAX_OBJECTS, MAX_TASKS, MAX_WORDS, Name, Number, Place};
use std::alloc::AllocError;

/// What the items so far declare. Counts and sums stop at the greatest word.
#[derive(Drop)]
pub struct Heads<'a> {
    /// The earliest fault so far.
    pub found: Earliest,
    /// What each name of an object or a task means.
    pub meanings: Meanings<'a>,
    /// The names that have an `input`.
    pub inputs: NameSet<'a>,
    /// The number of objects, the heap not counted.
    pub objects: usize,
    /// The number of tasks.
    pub tasks: usize,
    /// The words of the arrays and the heap together.
    pub words: u64,
}

fn declare_name<'a>(
    heads: &mut Heads<'a>,
    name: &'a str,
    at: Place,
    declared: Declared,
) -> Result<(), AllocError>
    ensures { let kept = spec.declare_name name.now at declared (kept_by heads.old) in
        OnOk result (kept_by heads.new ≡ kept) }
{
    let is_there = heads.meanings.has(name);
    heads.found.note_if(is_there, Kind::Duplicate, at);
    heads.meanings.add(name, declared)?;
    Ok(())
}

fn count_object(heads: &mut Heads, at: Place)
    ensures { kept_by heads.new ≡ spec.count_object at (kept_by heads.old) }
{
    let is_full = heads.objects == MAX_OBJECTS;
    heads.found.note_if(is_full, Kind::TooMany, at);
    heads.objects = heads.objects.saturating_add(1);
}

fn count_task(heads: &mut Heads, at: Place)
    ensures { kept_by heads.new ≡ spec.count_task at (kept_by heads.old) }
{
    let is_full = heads.tasks == MAX_TASKS;
    heads.found.note_if(is_full, Kind::TooMany, at);
    heads.tasks = heads.tasks.saturating_add(1);
}

fn enlarge(heads: &mut Heads, words: &Number)
    ensures { kept_by heads.new ≡ spec.enlarge words.now (kept_by heads.old) }
{
    let sum = heads.words.saturating_add(words.value);
    let is_large = heads.words <= MAX_WORDS && sum > MAX_WORDS;
    heads.found.note_if(is_large, Kind::HeapTooLarge, words.at);
    heads.words = sum;
}

fn take_input<'a>(heads: &mut Heads<'a>, name: &'a Name) -> Result<(), AllocError>
    ensures { OnOk result (kept_by heads.new ≡ spec.take_input name.now (kept_by heads.old)) }
{
    let is_there = heads.inputs.has(&name.text);
    heads.found.note_if(is_there, Kind::Duplicate, name.at);
    heads.inputs.add(&name.text)?;
    Ok(())
}

fn declare_object<'a>(
    heads: &mut Heads<'a>,
    name: &'a Name,
    declared: Declared,
) -> Result<(), AllocError>
    ensures { let kept = spec.declare_object name.now declared (kept_by heads.old) in
        OnOk result (kept_by heads.new ≡ kept) }
{
    count_object(heads, name.at);
    declare_name(heads, name.text.as_str(), name.at, declared)?;
    Ok(())
}

/// Notes the faults of what an item declares, and adds it to what is declared. An error is want of memory.
pub fn declare<'a>(heads: &mut Heads<'a>, item: &'a Item) -> Result<(), AllocError>
    ensures { OnOk result (kept_by heads.new ≡ spec.item_declared item.now (kept_by heads.old)) }
{
    match item {
        Item::Array { name, words } => {
            enlarge(heads, words);
            declare_object(heads, name, Declared::Array { words: words.value })?;
        }
        Item::Set { name } => declare_object(heads, name, Declared::Set)?,
        Item::Map { name } => declare_object(heads, name, Declared::Map)?,
        Item::Vector { name } => declare_object(heads, name, Declared::Vector)?,
        Item::Heap { words } => {
            enlarge(heads, words);
            declare_name(heads, "heap", words.at, Declared::Heap)?;
        }
        Item::Show { .. } => (),
        Item::Input { name, .. } => take_input(heads, name)?,
        Item::Task { name, params, .. } => {
            let params = params.len();
            count_task(heads, name.at);
            declare_name(
                heads,
                name.text.as_str(),
                name.at,
                Declared::Task { params },
            )?;
        }
    }
    Ok(())
}

//! A program's objects and tasks by name and by number.
ghost use Rattle.std.specs.Prelude.{◌≡◌, [], ◌∷◌, ◌++◌, IfOk, OnOk};
ghost use Rattle.gr_syntax.specs.Items.{object_named, object_names, task_named};
ghost use Rattle.gr_names.specs.Numbered.{name_at, object_name, task_name, task_names};
ghost use Rattle.gr_names.specs.ProgramView.{AreNamesOf};

use crate::index::NameIndex;
use gr_syntax::{HEAP, Item, Program, Text};
use std::alloc::{AllocError, Global};
use std::marker::Model;

/// A program's objects and tasks by name and by number, which contracts see as the program. A name is
/// found by a look-up, and the first of equal names counts.
#[derive(Drop)]
pub struct ProgramNames<'a> {
    program: &'a Program,
    objects: NameIndex<'a>,
    tasks: NameIndex<'a>,
}

impl<'a> Model for ProgramNames<'a> {
    ghost use Rattle.gr_syntax.specs.declared.syntax.Program.{Program};
    ghost use Rattle.std.specs.Coded.{codes};
    ghost use Rattle.gr_syntax.specs.contracts.syntax.Stmt as stmt;
    ghost use Rattle.gr_names.specs.ProgramView.{IsOfProgram};

    ghost Value = { Program };

    ghost coded = { Prim.hlevel (codes, stmt.the_row.coded) };

    ghost view = { λ names. names.program.now };

    ghost invariant = { IsOfProgram };
}

/// Adds the name that an item declares to those of the objects or of the tasks.
#[tactic(auto, using(crate::proofs::Walks::walks))]
fn add<'a>(
    objects: &mut NameIndex<'a>,
    tasks: &mut NameIndex<'a>,
    item: &'a Item,
) -> Result<(), AllocError>
    ensures objects { OnOk result (objects.new ≡ objects.old ++ object_names (item.now ∷ [])) }
    ensures tasks { OnOk result (tasks.new ≡ tasks.old ++ task_names (item.now ∷ [])) }
{
    match item {
        Item::Array { name, .. } => objects.push(&name.text),
        Item::Set { name } => objects.push(&name.text),
        Item::Map { name } => objects.push(&name.text),
        Item::Vector { name } => objects.push(&name.text),
        Item::Task { name, .. } => tasks.push(&name.text),
        Item::Heap { .. } | Item::Show { .. } | Item::Input { .. } => Ok(()),
    }
}

/// The names of the objects and of the tasks that items declare, in the order of their numbers.
fn names_in<'a>(
    alloc: Global,
    items: &'a [Item],
) -> Result<(NameIndex<'a>, NameIndex<'a>), AllocError>
    ensures { IfOk result (λ names. AreNamesOf items.now names.0 names.1) }
{
    let mut objects = NameIndex::new(alloc);
    let mut tasks = NameIndex::new(alloc);
    for item in items {
        add(&mut objects, &mut tasks, item)?;
    }
    Ok((objects, tasks))
}

/// The name at that place; empty where there is none.
fn name_at<'a>(names: &NameIndex<'a>, number: u64) -> &'a str
    ensures { result.now ≡ name_at names.now number }
{
    match names.get(number as usize) {
        Some(name) => name.as_str(),
        None => "",
    }
}

impl<'a> ProgramNames<'a> {
    /// The tables of a program. An error is want of memory.
    pub fn new(alloc: Global, program: &'a Program) -> Result<ProgramNames<'a>, AllocError>
        ensures { IfOk result (λ names. names ≡ program.now) }
    {
        let (objects, tasks) = names_in(alloc, program.items.as_slice())?;
        Ok(ProgramNames {
            program,
            objects,
            tasks,
        })
    }

    /// The number of the object of that name, if the program has it; 255 for the heap.
    pub fn object(&self, name: &Text) -> Option<u64>
        ensures { result ≡ object_named self.now name.now }
    {
        if name.is_word("heap") {
            return Some(HEAP);
        }
        self.objects.place_of(name).map(|place| place as u64)
    }

    /// The number of the task of that name, if the program has it.
    pub fn task(&self, name: &Text) -> Option<u64>
        ensures { result ≡ task_named self.now name.now }
    {
        self.tasks.place_of(name).map(|place| place as u64)
    }

    /// The name of the object of that number, `heap` for the heap; empty where there is none.
    pub fn object_name(&self, number: u64) -> &'a str
        ensures { result.now ≡ object_name self.now number }
    {
        if number == HEAP {
            return "heap";
        }
        name_at(&self.objects, number)
    }

    /// The name of the task of that number; empty where there is none.
    pub fn task_name(&self, number: u64) -> &'a str
        ensures { result.now ≡ task_name self.now number }
    {
        name_at(&self.tasks, number)
    }
}

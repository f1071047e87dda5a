//! The code of a program, with what a run must know of its objects and tasks.
ghost use Rattle.std.specs.Prelude.{◌≡◌, IfOk, MatchOption, is_some, length, slice_get, slice_index, codes};
ghost use Rattle.std.specs.Option.{option_map, option_map_or};
ghost use Rattle.gr_syntax.specs.Items.{tasks_of};
ghost use Rattle.gr_lang.specs.Objects.{address};
ghost use Rattle.gr_lang.specs.Openings.{array_words, heap_of, opening, target_of};
ghost use Rattle.gr_code.specs.CodeView.{is_in, reaches};
ghost use Rattle.gr_code.specs.EmitWords.{AreEntries};
ghost use Rattle.gr_code.specs.OpeningWords.{all_words};
ghost use Rattle.gr_code.specs.Instructions.{Agrees, IsOnward};
ghost use Rattle.gr_code.specs.Points.{first_point, nowhere, point_at};
ghost use Rattle.gr_code.specs.Shapes.{heap_shape, shapes_of};

use crate::instructions::{Instruction, Onward};
use crate::lowering::{TaskEntry, lower_tasks};
use crate::opening::{ArrayWords, arrays_in, heap_words_of, word_in, words_in};
use crate::points::Points;
use crate::shapes::{Shape, Shapes, shapes_in};
use gr_accept::Accepted;
use gr_names::ProgramNames;
use gr_syntax::{HEAP, Text};
use std::alloc::{AllocError, Global};
use std::marker::Model;

/// The code of an accepted program. Contracts see that program, and the points of its tasks.
#[derive(Drop)]
pub struct Code<'a> {
    program: &'a Accepted,
    points: Points<'a>,
    tasks: Vec<TaskEntry>,
    shapes: Shapes,
    arrays: Vec<ArrayWords<'a>>,
    heap: Shape,
    main: u64,
}

impl<'a> Model for Code<'a> {
    ghost use Rattle.std.specs.Coded.{codes};
    ghost use Rattle.gr_syntax.specs.contracts.syntax.Stmt as stmt;
    ghost use Rattle.gr_code.specs.Points.{Lowered};
    ghost use Rattle.gr_code.specs.CodeView.{IsCode};

    ghost Value = { Lowered };

    ghost coded = { Prim.hlevel (codes, stmt.the_row.coded) };

    ghost view = { λ c. record { program = c.program.now; points = c.points.points } };

    ghost invariant = { IsCode };
}

/// The number of the task `main`.
fn main_in(alloc: Global, names: &ProgramNames) -> Result<u64, AllocError>
    ensures { IfOk result (λ main. main ≡ target_of names.now (codes "main")) }
{
    let main = Text::new("main".to_string(alloc)?);
    Ok(names.task(&main).unwrap_or(0))
}

/// The code of a program. An error is want of memory.
pub fn lower<'a>(alloc: Global, program: &'a Accepted) -> Result<Code<'a>, AllocError>
    ensures { IfOk result (λ code. code.program ≡ program.now) }
{
    let items = program.program().items.as_slice();
    let names = ProgramNames::new(alloc, program.program())?;
    let main = main_in(alloc, &names)?;
    let (points, tasks) = lower_tasks(alloc, &names, items)?;
    let shapes = shapes_in(alloc, items)?;
    let arrays = arrays_in(alloc, items)?;
    let from = words_in(arrays.as_slice())?;
    let heap = Shape::Words {
        from,
        words: heap_words_of(items),
    };
    Ok(Code {
        program,
        points,
        tasks,
        shapes,
        arrays,
        heap,
        main,
    })
}

/// Whether the object of that number is an array with this place.
fn is_in_array(shapes: &[Shape], object: u64, place: u64) -> bool
    ensures { result ≡ reaches (slice_get shapes.now object) place }
{
    match shapes.get(object as usize) {
        Some(Shape::Words { words, .. }) => place < *words,
        _ => false,
    }
}

/// Whether the address is that of a word of this shape.
fn covers(shape: Shape, at: u64) -> bool
    ensures { result ≡ is_in shape at }
{
    match shape {
        Shape::Words { from, words } => from <= at && at - from < words,
        _ => false,
    }
}

/// The entry of the task of that number.
fn entry_in(tasks: &[TaskEntry], target: u64) -> Option<TaskEntry>
    ensures { result ≡ slice_get tasks.now target }
{
    tasks.get(target as usize).copied()
}

impl<'a> Code<'a> {
    /// The entries of the tasks, lent.
    fn entries(&self) -> &[TaskEntry]
        ensures { AreEntries self.now.points result.now (tasks_of self.now.program.items) }
    {
        self.tasks.as_slice()
    }

    /// The arrays with their words, lent.
    fn arrays(&self) -> &[ArrayWords<'a>]
        ensures { all_words result.now ≡ array_words self.now.program.items self.now.program.items }
    {
        self.arrays.as_slice()
    }

    /// The shape of each object, in the order of their numbers; the heap is none of them.
    pub fn objects(&self) -> &Shapes
        ensures { result.now ≡ shapes_of self.now.program }
    {
        &self.shapes
    }

    /// The heap as words, behind those of the arrays; 0 words where the program has none.
    pub fn heap(&self) -> Shape
        ensures { result ≡ heap_shape (heap_of self.now.program) }
    {
        self.heap
    }

    /// The word at an address as a run opens: that of an array's input, or 0.
    pub fn opening(&self, at: u64) -> u64
        ensures { result ≡ slice_index (opening self.now.program).words at }
    {
        word_in(self.arrays(), at)
    }

    /// The number of the task `main`.
    pub fn main(&self) -> u64
        ensures { result ≡ target_of self.now.program (codes "main") }
    {
        self.main
    }

    /// The number of the parameters of a task; None where there is no task of that number.
    pub fn params(&self, target: u64) -> Option<u64>
        ensures { result ≡ option_map (λ task. length task.params)
            (slice_get (tasks_of self.now.program.items) target) }
    {
        match entry_in(self.entries(), target) {
            Some(task) => Some(task.params),
            None => None,
        }
    }

    /// The entry of a task; where there is no task of that number, one without locals at no point.
    pub fn entry(&self, target: u64) -> TaskEntry
        ensures point { point_at self.now.points result.at ≡ option_map_or first_point
            (slice_get (tasks_of self.now.program.items) target) nowhere }
        ensures locals { result.locals ≡ length (point_at self.now.points result.at).names }
    {
        match entry_in(self.entries(), target) {
            Some(task) => task,
            None => TaskEntry {
                params: 0,
                locals: 0,
                at: self.points.len(),
            },
        }
    }

    /// The instruction at a point; None where there is no such point.
    pub fn instruction(&self, at: usize) -> Option<&Instruction>
        ensures { MatchOption result (point_at self.now.points at ≡ nowhere)
            (λ x. Agrees self.now.program self.now.points at x.now) }
    {
        self.points.get(at)
    }

    /// How a task goes on that stands at a point.
    pub fn onward(&self, at: usize) -> Onward
        ensures { IsOnward self.now.points at result }
    {
        match self.instruction(at) {
            Some(instruction) => instruction.onward(at),
            None => Onward::to(at),
        }
    }

    /// Whether the object has that place. The places of the heap are addresses.
    pub fn has_place(&self, object: u64, place: u64) -> bool
        ensures { result ≡ is_some (address (opening self.now.program) object place) }
    {
        if object == HEAP {
            covers(self.heap(), place)
        } else {
            is_in_array(self.objects().as_slice(), object, place)
        }
    }
}

//! The tables of a program, made once as a run opens: its objects and tasks by name and by number.
ghost use Rattle.std.specs.Prelude.{◌≡◌, IfOk, is_some, slice_get};
ghost use Rattle.gr_lang.specs.Objects.{address, heap_address};
ghost use Rattle.gr_syntax.specs.Items.{tasks_of};
ghost use Rattle.gr_lang.specs.Openings.{heap_of, object_of, opening, target_of};
ghost use Rattle.gr_steps.specs.HeapRanges.{IsHeap};
ghost use Rattle.gr_steps.specs.TableView.{knowns_of, reaches_of, row_of, within};
ghost use Rattle.std.specs.Option.{option_map};

use crate::listing::{reaches_in, task_rows};
use gr_names::ProgramNames;
use gr_syntax::{Block, HEAP, Program, Text};
use std::alloc::{AllocError, Global};
use std::marker::Model;

/// A task of the text: its locals (first its parameters, then what its body gives with `let`) and its body.
#[derive(Drop)]
pub struct TaskRow<'a> {
    pub locals: Vec<&'a Text>,
    pub body: &'a Block,
}

/// The address of the heap's first word, and the number of its words.
#[derive(Clone, Copy)]
pub struct HeapRange {
    pub from: u64,
    pub count: u64,
}

/// A program by name and number, which contracts see as the program.
#[derive(Drop)]
pub struct Table<'a> {
    names: ProgramNames<'a>,
    reaches: Vec<u64>,
    tasks: Vec<TaskRow<'a>>,
    heap: HeapRange,
}

impl<'a> Model for Table<'a> {
    ghost use Rattle.gr_syntax.specs.declared.syntax.Program.{Program};
    ghost use Rattle.std.specs.Coded.{codes};
    ghost use Rattle.gr_syntax.specs.contracts.syntax.Stmt as stmt;

    ghost Value = { Program };

    ghost coded = { Prim.hlevel (codes, stmt.the_row.coded) };

    ghost use Rattle.gr_steps.specs.TableView.{IsTable};

    ghost view = { λ t. t.names };

    ghost invariant = { IsTable };
}

impl<'a> Table<'a> {
    /// The tables of a program whose heap lies there.
    pub fn new(
        alloc: Global,
        program: &'a Program,
        heap: HeapRange,
    ) -> Result<Table<'a>, AllocError>
        requires { IsHeap heap program.now }
        ensures { IfOk result (λ table. table ≡ program.now) }
    {
        let items = program.items.as_slice();
        let names = ProgramNames::new(alloc, program)?;
        let reaches = reaches_in(alloc, items)?;
        let tasks = task_rows(alloc, items)?;
        Ok(Table {
            names,
            reaches,
            tasks,
            heap,
        })
    }

    /// The number of the object of that name, 255 for the heap; 0 where there is none.
    pub fn object_of(&self, name: &Text) -> u64
        ensures { result ≡ object_of self.now name.now }
    {
        self.names.object(name).unwrap_or(0)
    }

    /// The task of that number.
    pub fn task(&self, target: u64) -> Option<&TaskRow<'a>>
        ensures { option_map (λ r. row_of r.now) result
            ≡ slice_get (knowns_of (tasks_of self.now.items)) target }
    {
        self.tasks.get(target as usize)
    }

    /// The number of the task of that name; 0 where there is none.
    pub fn target_of(&self, name: &Text) -> u64
        ensures { result ≡ target_of self.now name.now }
    {
        self.names.task(name).unwrap_or(0)
    }

    fn is_in_heap(&self, place: u64) -> bool
        ensures { result ≡ is_some (heap_address (heap_of self.now) place) }
    {
        self.heap.from <= place && place - self.heap.from < self.heap.count
    }

    fn is_in_array(&self, object: u64, place: u64) -> bool
        ensures { result ≡ within (slice_get (reaches_of self.now.items) object) place }
    {
        match self.reaches.get(object as usize) {
            Some(reach) => place < *reach,
            None => false,
        }
    }

    /// Whether the object has that place as a run opens.
    pub fn has_place(&self, object: u64, place: u64) -> bool
        ensures { result ≡ is_some (address (opening self.now) object place) }
    {
        if object == HEAP {
            self.is_in_heap(place)
        } else {
            self.is_in_array(object, place)
        }
    }
}

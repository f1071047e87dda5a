//! The marks of all cores as one list.
ghost use Rattle.std.specs.Prelude.{◌≡◌, IfOk, map};

use gr_machine::{CoreEnd, CoreEnds, StampedMark};
use gr_merge::Clocked;
use std::alloc::{AllocError, Global};
use std::marker::Model;

/// A mark that is lent, with the clock of its event.
#[derive(Drop)]
pub struct LentMark<'a> {
    mark: &'a StampedMark,
}

impl<'a> Model for LentMark<'a> {
    ghost use Rattle.gr_machine.specs.declared.journal.StampedMark.{StampedMark as AMark};

    ghost Value = { AMark };

    ghost view = { λ lent. lent.mark.now };
}

impl<'a> Clocked for LentMark<'a> {
    ghost clock_of = { λ mark. mark.clock };

    fn clock(&self) -> u64 {
        self.mark.clock
    }
}

impl<'a> LentMark<'a> {
    /// The mark.
    pub fn mark(&self) -> &'a StampedMark
        ensures { result.now ≡ self.now }
    {
        self.mark
    }
}

/// The marks of a core.
fn marks_of<'a>(alloc: Global, end: &'a CoreEnd) -> Result<Vec<LentMark<'a>>, AllocError>
    ensures { IfOk result (λ marks. marks.items ≡ end.now.marks) }
{
    let mut marks = Vec::new(alloc);
    for mark in end.marks.as_slice() {
        marks.push(LentMark { mark })?;
    }
    Ok(marks)
}

/// The marks of all cores, by core.
pub fn lists_of<'a>(alloc: Global, ends: &'a CoreEnds) -> Result<Vec<Vec<LentMark<'a>>>, AllocError>
    ensures { IfOk result (λ lists. map (λ list. list.items) lists.items ≡ map (λ end. end.marks) ends.now) }
{
    let mut lists = Vec::new(alloc);
    for end in ends.as_slice() {
        lists.push(marks_of(alloc, end)?)?;
    }
    Ok(lists)
}

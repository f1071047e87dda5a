//! What names stand for at a place of a task's text.
use crate::meanings::Meanings;
use crate::name_set::NameSet;

/// What names stand for at a place of a task's text.
#[derive(Drop)]
pub struct Scope<'s, 'a> {
    /// What the names of objects and tasks mean.
    pub meanings: &'s Meanings<'a>,
    /// The locals that the task has so far.
    pub named: NameSet<'a>,
    /// Those of them that are visible.
    pub visible: NameSet<'a>,
}

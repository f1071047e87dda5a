//! What the names of objects and tasks mean.
ghost use Rattle.std.specs.Prelude.{◌≡◌, OnOk, is_some};
ghost use Rattle.gr_checker.specs.MeaningView.{meaning_of, no_meaning, with_meaning};

use gr_accept::Declared;
use gr_syntax::Text;
use std::alloc::{AllocError, Global};
use std::collections::HashMap;

/// What each name of an object or a task means: what the first item of that name declares.
#[derive(Drop)]
pub struct Meanings<'a> {
    table: HashMap<&'a str, Declared>,
}

impl<'a> Meanings<'a> {
    /// No name has a meaning.
    pub fn new(alloc: Global) -> Meanings<'a>
        ensures { meaning_of result ≡ no_meaning }
    {
        Meanings {
            table: HashMap::new(alloc),
        }
    }

    /// What the name means, if it means anything.
    pub fn get(&self, name: &Text) -> Option<Declared>
        ensures { result ≡ meaning_of self.now name.now }
    {
        self.table.get(name.as_str()).copied()
    }

    /// Whether the name has a meaning.
    pub fn has(&self, name: &str) -> bool
        ensures { result ≡ is_some (meaning_of self.now name.now) }
    {
        self.table.contains_key(name)
    }

    /// Gives the name this meaning, unless it has one. An error is want of memory.
    pub fn add(&mut self, name: &'a str, declared: Declared) -> Result<(), AllocError>
        ensures { let meaning = with_meaning (meaning_of self.old) name.now declared in
            OnOk result (meaning_of self.new ≡ meaning) }
    {
        if self.table.contains_key(name) {
            return Ok(());
        }
        match self.table.insert(name, declared) {
            Ok(_) => Ok(()),
            Err(_) => Err(AllocError),
        }
    }
}

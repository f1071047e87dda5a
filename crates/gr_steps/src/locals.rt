//! The words of a task's locals.
ghost use Rattle.std.specs.Prelude.{◌≡◌, IfOk, map};
ghost use Rattle.gr_lang.specs.Locals.{word_of, set_word};
ghost use Rattle.gr_lang.specs.Next.{given, set_all};

use gr_syntax::{Names, Text};
use std::alloc::{AllocError, Global};
use std::marker::Model;

/// A local with its word.
#[derive(Drop)]
pub struct Local<'a> {
    pub name: &'a Text,
    pub word: u64,
}

/// The locals of a task, at most 64, in the order in which the text gives them.
#[derive(Drop)]
pub struct LocalWords<'a> {
    list: Vec<Local<'a>>,
}

impl<'a> Model for LocalWords<'a> {
    ghost use Rattle.gr_lang.specs.Locals.{Locals};

    ghost Value = { Locals };

    ghost use Rattle.gr_steps.specs.LocalView.{locals_of};

    ghost view = { λ w. locals_of w.list.items };
}

impl<'a> LocalWords<'a> {
    /// These names with their first words; a name without a word has 0.
    pub fn start(
        alloc: Global,
        names: &[&'a Text],
        words: &[u64],
    ) -> Result<LocalWords<'a>, AllocError>
        ensures { IfOk result (λ locals. locals ≡ given (map (λ n. n.now) names.now) words.now) }
    {
        let mut list = Vec::new(alloc);
        let mut left = words;
        for name in names {
            match left {
                [word, rest @ ..] => {
                    list.push(Local {
                        name: *name,
                        word: *word,
                    })?;
                    left = rest;
                }
                [] => list.push(Local {
                    name: *name,
                    word: 0,
                })?,
            }
        }
        Ok(LocalWords { list })
    }

    /// The word of that name.
    pub fn get(&self, name: &Text) -> u64
        ensures { result ≡ word_of self.now name.now }
    {
        for local in &self.list {
            if local.name.is(name) {
                return local.word;
            }
        }
        0
    }

    /// The name takes this word.
    pub fn set(&mut self, name: &Text, word: u64)
        ensures { self.new ≡ set_word self.old name.now word }
    {
        for local in self.list.iter_mut() {
            if local.name.is(name) {
                local.word = word;
                return;
            }
        }
    }

    /// The targets take the words from left to right.
    pub fn set_all(&mut self, targets: &Names, words: &[u64])
        ensures { self.new ≡ set_all self.old targets.now words.now }
    {
        let mut left = words;
        for name in targets.as_slice() {
            let [first, rest @ ..] = left else {
                return;
            };
            self.set(&name.text, *first);
            left = rest;
        }
    }
}

//! Lists that contracts see as lists.
ghost use Rattle.std.specs.Prelude.{◌≡◌, [], ◌∷◌, ◌++◌, length, IfOk, OnOk, OnErr};

use crate::action::{Entry, WaitingCall};
use std::alloc::{AllocError, Global};
use std::marker::Model;

/// A `Vec` that contracts see as the list of its elements.
#[derive(Drop)]
pub struct Sequence<T> {
    elements: Vec<T>,
}

/// A list of words.
pub type Words = Sequence<u64>;

/// A list of pairs of words.
pub type Pairs = Sequence<(u64, u64)>;

/// A list of waiting calls.
pub type Calls = Sequence<WaitingCall>;

/// A history: the entries of a run, in their order.
pub type History = Sequence<Entry>;

impl<T> Model for Sequence<T> {
    ghost use Rattle.std.specs.Prelude.{List};
    ghost use Rattle.std.specs.Coded.{coded_list};

    ghost Value = { List T };

    ghost coded = { coded_list T.code };

    ghost view = { λ s. s.elements.items };
}

impl<T> Sequence<T> {
    /// No elements.
    pub fn new(alloc: Global) -> Sequence<T>
        ensures { result ≡ [] }
    {
        Sequence {
            elements: Vec::new(alloc),
        }
    }

    /// The elements of a vector. It takes no memory.
    pub fn from_vec(elements: Vec<T>) -> Sequence<T>
        ensures { result ≡ elements.items }
    {
        Sequence { elements }
    }

    /// The vector of the elements. It takes no memory.
    pub fn into_vec(self) -> Vec<T>
        ensures { result.items ≡ self }
    {
        let Sequence { elements } = self;
        elements
    }

    /// The elements, lent.
    pub fn as_slice(&self) -> &[T]
        ensures { result.now ≡ self.now }
    {
        self.elements.as_slice()
    }

    /// The number of elements.
    pub fn len(&self) -> usize
        ensures { result ≡ length self.now }
    {
        self.elements.len()
    }
}

impl<T: Drop> Sequence<T> {
    /// Puts an element last. Unchanged where there is no memory.
    pub fn push(&mut self, element: T) -> Result<(), AllocError>
        ensures ok { OnOk result (self.new ≡ self.old ++ element ∷ []) }
        ensures err { OnErr result (self.new ≡ self.old) }
    {
        self.elements.push(element)?;
        Ok(())
    }
}

impl<T: Copy> Sequence<T> {
    /// An equal list.
    pub fn copy(&self) -> Result<Sequence<T>, AllocError>
        ensures { IfOk result (λ copied. copied ≡ self.now) }
    {
        let elements = Vec::from_slice(*self.elements.allocator(), self.elements.as_slice())?;
        Ok(Sequence { elements })
    }
}

//! Names in their order, each of which can be asked for its place.
ghost use Rattle.std.specs.Prelude.{◌≡◌, [], ◌∷◌, ◌++◌, OnOk, OnErr, length, position, slice_get};
ghost use Rattle.std.specs.HashMap.{IsUnchanged};
ghost use Rattle.std.specs.Option.{option_copied};
ghost use Rattle.std.specs.Str.{bytes_eq};
ghost use Rattle.gr_syntax.specs.Items.{texts};
ghost use Rattle.gr_names.specs.PlaceWords.{GivesPlace};

use gr_syntax::{Name, Text};
use std::alloc::{AllocError, Global};
use std::collections::HashMap;
use std::marker::Model;

/// Names in their order, which contracts see as their list. A name is found by a look-up, and the first
/// of equal names counts.
#[derive(Drop)]
pub struct NameIndex<'a> {
    names: Vec<&'a Text>,
    places: HashMap<&'a str, usize>,
}

impl<'a> Model for NameIndex<'a> {
    ghost use Rattle.std.specs.Prelude.{List, ℕ, map};
    ghost use Rattle.gr_names.specs.IndexView.{IsIndex};

    ghost Value = { List (List ℕ) };

    ghost view = { λ n. map (λ t. t.now) n.names.items };

    ghost invariant = { IsIndex };
}

/// Gives the name this place, unless it has one. An error is want of memory.
fn note<'a>(
    places: &mut HashMap<&'a str, usize>,
    name: &'a str,
    place: usize,
) -> Result<(), AllocError>
    ensures ok { OnOk result (GivesPlace places.old places.new name.now place) }
    ensures err { OnErr result (IsUnchanged places.old places.new) }
{
    if places.contains_key(name) {
        return Ok(());
    }
    match places.insert(name, place) {
        Ok(_) => Ok(()),
        Err(_) => Err(AllocError),
    }
}

impl<'a> NameIndex<'a> {
    /// No names.
    pub fn new(alloc: Global) -> NameIndex<'a>
        ensures { result ≡ [] }
    {
        NameIndex {
            names: Vec::new(alloc),
            places: HashMap::new(alloc),
        }
    }

    /// Adds the name last. An error is want of memory.
    pub fn push(&mut self, name: &'a Text) -> Result<(), AllocError>
        ensures ok { OnOk result (self.new ≡ self.old ++ name.now ∷ []) }
        ensures err { OnErr result (self.new ≡ self.old) }
    {
        let place = self.names.len();
        self.names.push(name)?;
        match note(&mut self.places, name.as_str(), place) {
            Ok(()) => Ok(()),
            Err(error) => {
                self.names.pop();
                Err(error)
            }
        }
    }

    /// Adds these names last, in their order. An error is want of memory.
    pub fn push_all(&mut self, names: &'a [Name]) -> Result<(), AllocError>
        ensures { OnOk result (self.new ≡ self.old ++ texts names.now) }
    {
        for name in names {
            self.push(&name.text)?;
        }
        Ok(())
    }

    /// The place of the name, counted from 0; of equal names the place of the first.
    pub fn place_of(&self, name: &Text) -> Option<usize>
        ensures { result ≡ position (bytes_eq name.now) self.now }
    {
        self.places.get(name.as_str()).copied()
    }

    /// The name at this place.
    pub fn get(&self, place: usize) -> Option<&'a Text>
        ensures { option_copied result ≡ slice_get self.now place }
    {
        self.names.get(place).copied()
    }

    /// The number of names.
    pub fn len(&self) -> usize
        ensures { result ≡ length self.now }
    {
        self.names.len()
    }
}

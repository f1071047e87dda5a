//! The objects of a plain memory: arrays, sets, maps and vectors, each with what a call does to it.
ghost use Rattle.std.specs.Prelude.{◌≡◌, ◌+◌, ◌≤◌, All, IfOk, OnErr, OnOk, Some, [], drop, length, map, take};
ghost use Rattle.std.specs.FinMap as fin;
ghost use Rattle.std.specs.FinSet as set;
ghost use Rattle.gr_lang.specs.Effects as effects;
ghost use Rattle.gr_lang.specs.Objects as spec;
ghost use Rattle.gr_memory.specs.Contents.{content_of};
ghost use Rattle.gr_memory.specs.Ranges.{LiesIn};
ghost use Rattle.gr_memory.specs.ThingView.{changed_at};

use crate::contents::{Content, Contents};
use crate::parts::{Keys, Line, Pairs};
use gr_lang::{Effect, Op, Reply, Words, reduced};
use std::alloc::{AllocError, Global};
use std::marker::Model;

/// What an object holds.
#[derive(Drop)]
enum Held {
    /// The words from one address on, so many.
    Array { from: u64, count: u64 },
    Set { its: Keys },
    Map { its: Pairs },
    Vector { its: Line },
}

/// An object of a program: an array, a set, a map or a vector.
#[derive(Drop)]
pub struct Thing {
    held: Held,
}

impl Model for Thing {
    ghost use Rattle.gr_lang.specs.Objects.{Object};
    ghost use Rattle.std.specs.Coded.{codes, coded_ℕ};
    ghost use Rattle.std.specs.FinMap as fin;
    ghost use Rattle.std.specs.FinSet as set;
    ghost use Rattle.std.specs.Ordering.{nat_cmp};

    ghost Value = { Object };

    ghost coded = { Prim.hlevel (codes, set.code {R = nat_cmp} coded_ℕ, fin.code {R = nat_cmp} coded_ℕ coded_ℕ) };

    ghost use Rattle.gr_memory.specs.ThingView.{object_of};

    ghost view = { λ thing. object_of thing.held };
}

/// What an effect makes of what stands under a key.
fn after(effect: Effect, before: Option<u64>) -> Option<u64>
    ensures { result ≡ effects.after effect before }
{
    match effect {
        Effect::Keep => before,
        Effect::Present { word } => Some(word),
        Effect::Absent => None,
        Effect::Fold { reducer, word } => match before {
            Some(before) => Some(reduced(reducer, before, word)),
            None => Some(word),
        },
    }
}

/// So many words from an address on.
fn words_at(alloc: Global, words: &[u64], from: u64, count: u64) -> Result<Words, AllocError>
    requires { from + count ≤ length words.now }
    ensures { IfOk result (λ held. held ≡ take count (drop from words.now)) }
{
    let from = from as usize;
    let end = from + count as usize;
    let held = Vec::from_slice(alloc, &words[from..end])?;
    Ok(Words::from_vec(held))
}

impl Thing {
    /// An array of `count` words from the address `from` on.
    pub fn array(from: u64, count: u64) -> Thing
        ensures { result ≡ spec.array from count }
    {
        Thing {
            held: Held::Array { from, count },
        }
    }

    /// An empty set.
    pub fn set(alloc: Global) -> Thing
        ensures { result ≡ spec.keys set.empty }
    {
        Thing {
            held: Held::Set {
                its: Keys::new(alloc),
            },
        }
    }

    /// An empty map.
    pub fn map(alloc: Global) -> Thing
        ensures { result ≡ spec.pairs fin.empty }
    {
        Thing {
            held: Held::Map {
                its: Pairs::new(alloc),
            },
        }
    }

    /// An empty vector.
    pub fn vector(alloc: Global) -> Thing
        ensures { result ≡ spec.line [] }
    {
        Thing {
            held: Held::Vector {
                its: Line::new(alloc),
            },
        }
    }

    /// The address of a place, where the object has that place.
    pub(crate) fn address(&self, place: u64) -> Option<u64>
        requires { LiesIn usize.MAX self.now }
        ensures { result ≡ spec.address_in (Some self.now) place }
    {
        match &self.held {
            Held::Array { from, count } => {
                if place < *count {
                    Some(*from + place)
                } else {
                    None
                }
            }
            _ => None,
        }
    }

    /// What the object holds. An array's words are among these. An error is want of memory.
    fn content(&self, alloc: Global, words: &[u64]) -> Result<Content, AllocError>
        requires { LiesIn (length words.now) self.now }
        ensures { IfOk result (λ content. content ≡ content_of words.now self.now) }
    {
        match &self.held {
            Held::Array { from, count } => {
                let words = words_at(alloc, words, *from, *count)?;
                Ok(Content::Array { words })
            }
            Held::Set { its } => {
                let keys = its.sorted(alloc)?;
                Ok(Content::Set { keys })
            }
            Held::Map { its } => {
                let pairs = its.sorted(alloc)?;
                Ok(Content::Map { pairs })
            }
            Held::Vector { its } => {
                let words = its.words(alloc)?;
                Ok(Content::Vector { words })
            }
        }
    }

    /// What stands under a key of a set or map.
    pub(crate) fn under(&self, key: u64) -> Option<u64>
        ensures { result ≡ spec.under self.now key }
    {
        match &self.held {
            Held::Set { its } => { if its.has(key) { Some(0) } else { None } }
            Held::Map { its } => its.get(key),
            _ => None,
        }
    }

    /// Lets this stand under a key of a set or map, or nothing. Unchanged where there is no memory.
    fn set_under(&mut self, key: u64, value: Option<u64>) -> Result<(), AllocError>
        ensures ok { OnOk result (self.new ≡ spec.with_key self.old key value) }
        ensures err { OnErr result (self.new ≡ self.old) }
    {
        match &mut self.held {
            Held::Set { its } => set_key(its, key, value),
            Held::Map { its } => set_pair(its, key, value),
            _ => Ok(()),
        }
    }

    /// Does an effect to what stands under a key of a set or map. Unchanged where there is no memory.
    fn affect(&mut self, key: u64, effect: Effect) -> Result<(), AllocError>
        ensures ok { OnOk result (self.new ≡ spec.affected self.old key effect) }
        ensures err { OnErr result (self.new ≡ self.old) }
    {
        if effect == Effect::Keep {
            return Ok(());
        }
        let value = after(effect, self.under(key));
        self.set_under(key, value)
    }

    /// What a vector replies to a call.
    pub(crate) fn line_reply(&self, op: Op) -> Reply
        ensures { result ≡ (spec.on_line op self.now).1 }
    {
        match &self.held {
            Held::Vector { its } => its.reply(op),
            _ => Reply::nothing(),
        }
    }

    /// Makes a call of a vector. Unchanged where there is no memory.
    fn change_line(&mut self, op: Op) -> Result<(), AllocError>
        ensures ok { OnOk result (self.new ≡ (spec.on_line op self.old).0) }
        ensures err { OnErr result (self.new ≡ self.old) }
    {
        match &mut self.held {
            Held::Vector { its } => its.change(op),
            _ => Ok(()),
        }
    }
}

fn set_key(keys: &mut Keys, key: u64, value: Option<u64>) -> Result<(), AllocError>
    ensures ok { OnOk result (spec.keys keys.new ≡ spec.with_key (spec.keys keys.old) key value) }
    ensures err { OnErr result (keys.new ≡ keys.old) }
{
    match value {
        Some(_) => keys.insert(key),
        None => {
            keys.remove(key);
            Ok(())
        }
    }
}

fn set_pair(pairs: &mut Pairs, key: u64, value: Option<u64>) -> Result<(), AllocError>
    ensures ok { OnOk result
        (spec.pairs pairs.new ≡ spec.with_key (spec.pairs pairs.old) key value) }
    ensures err { OnErr result (pairs.new ≡ pairs.old) }
{
    match value {
        Some(word) => pairs.put(key, word),
        None => {
            pairs.erase(key);
            Ok(())
        }
    }
}

/// Does an effect to what stands under a key of the object of that number, where there is one. Unchanged
/// where there is no memory.
#[tactic(auto, using(crate::proofs::AtThing::at_things))]
pub(crate) fn affect_at(
    things: &mut [Thing],
    object: u64,
    key: u64,
    effect: Effect,
) -> Result<(), AllocError>
    ensures ok { OnOk result
        (things.new ≡ changed_at things.old object (λ thing. spec.affected thing key effect)) }
    ensures err { OnErr result (things.new ≡ things.old) }
{
    let at = object as usize;
    if at < things.len() {
        things[at].affect(key, effect)
    } else {
        Ok(())
    }
}

/// Makes a call of the vector of that number, where there is one. Unchanged where there is no memory.
#[tactic(auto, using(crate::proofs::AtThing::at_things))]
pub(crate) fn change_line_at(things: &mut [Thing], object: u64, op: Op) -> Result<(), AllocError>
    ensures ok { OnOk result
        (things.new ≡ changed_at things.old object (λ thing. (spec.on_line op thing).0)) }
    ensures err { OnErr result (things.new ≡ things.old) }
{
    let at = object as usize;
    if at < things.len() {
        things[at].change_line(op)
    } else {
        Ok(())
    }
}

/// What the objects hold. The arrays' words are among these. An error is want of memory.
pub(crate) fn contents_in(
    alloc: Global,
    things: &[Thing],
    words: &[u64],
) -> Result<Contents, AllocError>
    requires { All (LiesIn (length words.now)) things.now }
    ensures { IfOk result (λ contents. contents ≡ map (content_of words.now) things.now) }
{
    let mut contents = Contents::new(alloc);
    for thing in things {
        let content = thing.content(alloc, words)?;
        contents.push(content)?;
    }
    Ok(contents)
}

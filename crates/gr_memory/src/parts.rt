//! The parts of a plain memory that grow and shrink: sets, maps and vectors of words.
ghost use Rattle.std.specs.Prelude.{◌≡◌, [], IfOk, OnErr, OnOk};
ghost use Rattle.std.specs.FinSet as set;
ghost use Rattle.std.specs.FinMap as fin;
ghost use Rattle.std.specs.BTreeMap as tree_map;
ghost use Rattle.std.specs.BTreeSet as tree_set;
ghost use Rattle.std.specs.Ordering.{nat_cmp};
ghost use Rattle.gr_lang.specs.Effects as spec;
ghost use Rattle.gr_memory.specs.Contents.{rising};

use gr_lang::{Op, Pairs as PairList, Reply, Words};
use std::alloc::{AllocError, Global};
use std::collections::{BTreeMap, BTreeSet, VecDeque};
use std::marker::Model;

/// A set of words.
#[derive(Drop)]
pub struct Keys {
    tree: BTreeSet<u64>,
}

impl Model for Keys {
    ghost use Rattle.std.specs.FinSet as set;
    ghost use Rattle.std.specs.Ordering.{nat_cmp};
    ghost use Rattle.std.specs.Coded.{coded_ℕ};

    ghost Value = { set.FinSet nat_cmp };

    ghost coded = { set.code coded_ℕ };

    ghost view = { λ a. set.from_list a.tree.keys };
}

/// The keys of a tree, by rising key.
fn keys_in(alloc: Global, tree: &BTreeSet<u64>) -> Result<Words, AllocError>
    ensures listed { IfOk result (λ words. words ≡ tree.now.keys) }
    ensures ordered { tree_set.IsOrdered nat_cmp tree.now }
{
    let mut words = Vec::with_capacity(alloc, tree.len())?;
    for key in tree {
        words.push(*key)?;
    }
    Ok(Words::from_vec(words))
}

/// The entries of a tree, by rising key.
fn pairs_in(alloc: Global, tree: &BTreeMap<u64, u64>) -> Result<PairList, AllocError>
    ensures listed { IfOk result (λ pairs. pairs ≡ tree.now.entries) }
    ensures ordered { tree_map.IsOrdered nat_cmp tree.now }
{
    let mut pairs = Vec::with_capacity(alloc, tree.len())?;
    for (key, word) in tree {
        pairs.push((*key, *word))?;
    }
    Ok(PairList::from_vec(pairs))
}

/// The words of a line, from its head.
fn words_in(alloc: Global, line: &VecDeque<u64>) -> Result<Words, AllocError>
    ensures { IfOk result (λ words. words ≡ line.now.items) }
{
    let mut words = Vec::with_capacity(alloc, line.len())?;
    for word in line {
        words.push(*word)?;
    }
    Ok(Words::from_vec(words))
}

impl Keys {
    /// The empty set.
    pub fn new(alloc: Global) -> Keys
        ensures { result ≡ set.empty }
    {
        Keys {
            tree: BTreeSet::new(alloc),
        }
    }

    /// Whether the word is in the set.
    pub fn has(&self, key: u64) -> bool
        ensures { result ≡ set.contains self.now key }
    {
        self.tree.contains(&key)
    }

    /// All words of the set, rising. An error is want of memory.
    pub fn sorted(&self, alloc: Global) -> Result<Words, AllocError>
        ensures { IfOk result (λ words. words ≡ rising (set.items self.now)) }
    {
        let words = keys_in(alloc, &self.tree)?;
        Ok(words)
    }

    /// How many words are in the set.
    pub fn len(&self) -> usize
        ensures { result ≡ set.len self.now }
    {
        self.tree.len()
    }

    /// Adds a word. Unchanged where there is no memory.
    pub fn insert(&mut self, key: u64) -> Result<(), AllocError>
        ensures ok { OnOk result (self.new ≡ set.insert self.old key) }
        ensures err { OnErr result (self.new ≡ self.old) }
    {
        self.tree.insert(key)?;
        Ok(())
    }

    /// Takes a word out.
    pub fn remove(&mut self, key: u64)
        ensures { self.new ≡ set.remove self.old key }
    {
        self.tree.remove(&key);
    }
}

/// A map from words to words.
#[derive(Drop)]
pub struct Pairs {
    tree: BTreeMap<u64, u64>,
}

impl Model for Pairs {
    ghost use Rattle.std.specs.Prelude.{ℕ};
    ghost use Rattle.std.specs.FinMap as fin;
    ghost use Rattle.std.specs.Ordering.{nat_cmp};
    ghost use Rattle.std.specs.Coded.{coded_ℕ};

    ghost Value = { fin.FinMap nat_cmp ℕ };

    ghost coded = { fin.code coded_ℕ coded_ℕ };

    ghost view = { λ a. fin.from_entries a.tree.entries };
}

impl Pairs {
    /// The empty map.
    pub fn new(alloc: Global) -> Pairs
        ensures { result ≡ fin.empty }
    {
        Pairs {
            tree: BTreeMap::new(alloc),
        }
    }

    /// The word at a key, if there is one.
    pub fn get(&self, key: u64) -> Option<u64>
        ensures { result ≡ fin.get self.now key }
    {
        self.tree.get(&key).copied()
    }

    /// All keys with their words, by rising key. An error is want of memory.
    pub fn sorted(&self, alloc: Global) -> Result<PairList, AllocError>
        ensures { IfOk result (λ pairs. pairs ≡ fin.entries self.now) }
    {
        let pairs = pairs_in(alloc, &self.tree)?;
        Ok(pairs)
    }

    /// Puts a word at a key. Unchanged where there is no memory.
    pub fn put(&mut self, key: u64, word: u64) -> Result<(), AllocError>
        ensures ok { OnOk result (self.new ≡ fin.insert self.old key word) }
        ensures err { OnErr result (self.new ≡ self.old) }
    {
        self.tree.insert(key, word)?;
        Ok(())
    }

    /// Takes a key and its word out.
    pub fn erase(&mut self, key: u64)
        ensures { self.new ≡ fin.remove self.old key }
    {
        self.tree.remove(&key);
    }
}

/// A list of words, open at both ends.
#[derive(Drop)]
pub struct Line {
    words: VecDeque<u64>,
}

impl Model for Line {
    ghost use Rattle.std.specs.Prelude.{List, ℕ};

    ghost Value = { List ℕ };

    ghost view = { λ a. a.words.items };
}

impl Line {
    /// The empty list.
    pub fn new(alloc: Global) -> Line
        ensures { result ≡ [] }
    {
        Line {
            words: VecDeque::new(alloc),
        }
    }

    /// All words, from the head. An error is want of memory.
    pub fn words(&self, alloc: Global) -> Result<Words, AllocError>
        ensures { IfOk result (λ words. words ≡ self.now) }
    {
        words_in(alloc, &self.words)
    }

    /// What the list replies to a call.
    pub fn reply(&self, op: Op) -> Reply
        ensures { result ≡ spec.line_reply op self.now }
    {
        match op {
            Op::Pop { .. } => Reply::found(self.words.back().copied()),
            Op::Dequeue { .. } => Reply::found(self.words.front().copied()),
            _ => Reply::nothing(),
        }
    }

    /// Makes a call. Unchanged where there is no memory.
    pub fn change(&mut self, op: Op) -> Result<(), AllocError>
        ensures ok { OnOk result (self.new ≡ spec.line_after op self.old) }
        ensures err { OnErr result (self.new ≡ self.old) }
    {
        match op {
            Op::Push { word, .. } => {
                self.words.push_back(word)?;
            }
            Op::Pop { .. } => {
                self.words.pop_back();
            }
            Op::Dequeue { .. } => {
                self.words.pop_front();
            }
            _ => (),
        }
        Ok(())
    }
}

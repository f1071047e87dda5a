//! The counts of unfinished tasks that this core keeps.
ghost use Rattle.std.specs.Prelude.{◌≡◌, ◌<◌, ◌≤◌, ◌^◌, ℕ, IfOk, IsSome, IsSomeAnd, OnErr, OnOk, None, Some, is_some};
ghost use Rattle.std.specs.Option.{option_copied, unwrap_or};
ghost use Rattle.gr_event.specs.Scopes.{at_scope, put_scope};
ghost use Rattle.gr_event.specs.Counts.{active_count, completed, counts_of, enrol_answer, enrolled, left_of, waiting_slots, when_acked};

use crate::by_scope::{find, put, set, take};
use gr_lang::Words;
use gr_msg::ScopeId;
use std::alloc::{AllocError, Global};
use std::collections::BTreeMap;
use std::marker::Model;

/// What a core keeps of a scope that isn't over for it.
#[derive(Drop)]
pub enum LocalCount {
    /// The core has asked to become active in the scope, and the tasks in these slots wait for that, in this order.
    Waits { slots: Words },
    /// The core is active in the scope, and so many tasks that started here haven't ended.
    Active { count: u128 },
}

/// What became of an enrolment.
#[derive(Clone, Copy)]
pub enum Enrol {
    /// The scope is active, and its count has risen by one.
    Counted,
    /// The slot is the first that waits, so the scope's home has to be asked.
    Ask,
    /// The slot waits behind others.
    Waiting,
}

/// Whether tasks of a scope are left.
#[derive(Clone, Copy)]
pub enum LocalLeft {
    /// None is left, and the scope is removed.
    Zero,
    /// Some are left.
    More,
}

/// For each scope, the tasks that started on this core under it and haven't ended.
#[derive(Drop)]
pub struct LocalCounts {
    alloc: Global,
    counts: BTreeMap<ScopeId, LocalCount>,
}

impl Model for LocalCounts {
    ghost use Rattle.std.specs.Prelude.{List};
    ghost use Rattle.gr_msg.specs.declared.message.ScopeId.{ScopeId as Scope};
    ghost use Rattle.gr_event.specs.declared.counts.LocalCount.{LocalCount as Local};

    ghost Value = { List (Scope × Local) };

    ghost view = { λ local. local.counts.entries };
}

impl LocalCount {
    /// One more task: it is counted, or its slot waits last. Unchanged where there is no memory.
    fn enrol(&mut self, slot: u64) -> Result<Enrol, AllocError>
        requires { unwrap_or (active_count (Some self.old)) 0 < 2 ^ 127 }
        ensures answer { IfOk result (λ answer. answer ≡ enrol_answer (Some self.old)) }
        ensures ok { OnOk result (Some self.new ≡ enrolled (Some self.old) slot) }
        ensures err { OnErr result (self.new ≡ self.old) }
    {
        match self {
            LocalCount::Waits { slots } => {
                slots.push(slot)?;
                Ok(Enrol::Waiting)
            }
            LocalCount::Active { count } => {
                *count += 1;
                Ok(Enrol::Counted)
            }
        }
    }
}

/// The first slot that waits at a scope that isn't there. Unchanged where there is no memory.
fn ask(
    map: &mut BTreeMap<ScopeId, LocalCount>,
    alloc: Global,
    scope: ScopeId,
    slot: u64,
) -> Result<Enrol, AllocError>
    requires { at_scope map.old.entries scope ≡ None }
    ensures answer { IfOk result (λ answer. answer ≡ enrol_answer (at_scope map.old.entries scope)) }
    ensures ok { OnOk result (at_scope map.new.entries ≡ put_scope (at_scope map.old.entries) scope
        (enrolled (at_scope map.old.entries scope) slot)) }
    ensures err { OnErr result (map.new.entries ≡ map.old.entries) }
{
    let mut slots = Words::new(alloc);
    slots.push(slot)?;
    put(map, scope, LocalCount::Waits { slots })?;
    Ok(Enrol::Ask)
}

/// One more task at a scope. Unchanged where there is no memory.
#[tactic(auto, using(crate::proofs::ScopePuts::at_scopes))]
fn count_one(
    map: &mut BTreeMap<ScopeId, LocalCount>,
    alloc: Global,
    scope: ScopeId,
    slot: u64,
) -> Result<Enrol, AllocError>
    requires { unwrap_or (active_count (at_scope map.old.entries scope)) 0 < 2 ^ 127 }
    ensures answer { IfOk result (λ answer. answer ≡ enrol_answer (at_scope map.old.entries scope)) }
    ensures ok { OnOk result (at_scope map.new.entries ≡ put_scope (at_scope map.old.entries) scope
        (enrolled (at_scope map.old.entries scope) slot)) }
    ensures err { OnErr result (at_scope map.new.entries ≡ at_scope map.old.entries) }
{
    match map.get_mut(&scope) {
        Some(count) => {
            let answer = count.enrol(slot)?;
            Ok(answer)
        }
        None => ask(map, alloc, scope, slot),
    }
}

/// The count of a scope that is active.
fn active_count(map: &BTreeMap<ScopeId, LocalCount>, scope: ScopeId) -> Option<u128>
    ensures { result ≡ active_count (at_scope map.now.entries scope) }
{
    match find(map, scope) {
        Some(LocalCount::Active { count }) => Some(*count),
        _ => None,
    }
}

/// Whether slots wait at a scope.
fn has_waiting(map: &BTreeMap<ScopeId, LocalCount>, scope: ScopeId) -> bool
    ensures { result ≡ is_some (waiting_slots (at_scope map.now.entries scope)) }
{
    matches!(find(map, scope), Some(LocalCount::Waits { .. }))
}

/// The slots that waited at a scope, which is active from now on with so many tasks.
#[tactic(auto, using(crate::proofs::ScopePuts::at_scopes))]
fn activate(map: &mut BTreeMap<ScopeId, LocalCount>, scope: ScopeId) -> Result<Words, AllocError>
    requires { IsSome (waiting_slots (at_scope map.old.entries scope)) }
    ensures slots { IfOk result (λ slots.
        waiting_slots (at_scope map.old.entries scope) ≡ Some slots) }
    ensures rest { OnOk result (at_scope map.new.entries ≡ put_scope (at_scope map.old.entries) scope
        (when_acked (at_scope map.old.entries scope))) }
{
    match take(map, scope) {
        Some(LocalCount::Waits { slots }) => {
            let count = slots.len() as u128;
            put(map, scope, LocalCount::Active { count })?;
            Ok(slots)
        }
        _ => unreachable!(),
    }
}

impl LocalCounts {
    ghost use Rattle.std.specs.Prelude.{List, Option};

    /// No counts. It takes no memory.
    #[tactic(auto, using(crate::proofs::ScopePuts::at_scopes))]
    pub fn new(alloc: Global) -> LocalCounts
        ensures { counts_of result ≡ (λ scope. None) }
    {
        LocalCounts {
            alloc,
            counts: BTreeMap::new(alloc),
        }
    }

    fn put(&mut self, scope: ScopeId, count: LocalCount) -> Result<(), AllocError>
        ensures ok { OnOk result (counts_of self.new
            ≡ put_scope (counts_of self.old) scope (Some count)) }
        ensures err { OnErr result (counts_of self.new ≡ counts_of self.old) }
    {
        put(&mut self.counts, scope, count)
    }

    fn set(&mut self, scope: ScopeId, count: LocalCount)
        requires { IsSome (counts_of self.old scope) }
        ensures { counts_of self.new ≡ put_scope (counts_of self.old) scope (Some count) }
    {
        set(&mut self.counts, scope, count)
    }

    fn remove(&mut self, scope: ScopeId)
        ensures { counts_of self.new ≡ put_scope (counts_of self.old) scope None }
    {
        let _ = take(&mut self.counts, scope);
    }

    /// The scope is active from now on, with a count of at least 1. It isn't there before. Unchanged where there
    /// is no memory.
    pub fn start(&mut self, scope: ScopeId, count: u128) -> Result<(), AllocError>
        requires absent { counts_of self.old scope ≡ None }
        requires positive { 1 ≤ count }
        ensures ok { OnOk result (counts_of self.new
            ≡ put_scope (counts_of self.old) scope (Some (LocalCount.Active count))) }
        ensures err { OnErr result (counts_of self.new ≡ counts_of self.old) }
    {
        self.put(scope, LocalCount::Active { count })
    }

    /// One more task under a scope: it is counted where the scope is active, and else its slot waits last. The
    /// count is below 2^127. Unchanged where there is no memory.
    pub fn enrol(&mut self, scope: ScopeId, slot: u64) -> Result<Enrol, AllocError>
        requires { unwrap_or (active_count (counts_of self.old scope)) 0 < 2 ^ 127 }
        ensures answer { IfOk result (λ answer. answer ≡ enrol_answer (counts_of self.old scope)) }
        ensures ok { OnOk result (counts_of self.new
            ≡ put_scope (counts_of self.old) scope (enrolled (counts_of self.old scope) slot)) }
        ensures err { OnErr result (counts_of self.new ≡ counts_of self.old) }
    {
        count_one(&mut self.counts, self.alloc, scope, slot)
    }

    /// The core has become active in a scope at which slots wait: these slots, in their order. Its count is their
    /// number.
    pub fn acked(&mut self, scope: ScopeId) -> Result<Words, AllocError>
        requires { IsSome (waiting_slots (counts_of self.old scope)) }
        ensures slots { IfOk result (λ slots.
            waiting_slots (counts_of self.old scope) ≡ Some slots) }
        ensures rest { OnOk result (counts_of self.new
            ≡ put_scope (counts_of self.old) scope (when_acked (counts_of self.old scope))) }
    {
        activate(&mut self.counts, scope)
    }

    /// So many tasks have ended under a scope that is active with at least so many.
    pub fn complete(&mut self, scope: ScopeId, count: u64) -> LocalLeft
        requires { IsSomeAnd (active_count (counts_of self.old scope)) (λ held. count ≤ held) }
        ensures left { result ≡ left_of (counts_of self.old scope) count }
        ensures rest { counts_of self.new
            ≡ put_scope (counts_of self.old) scope (completed (counts_of self.old scope) count) }
    {
        let held = self.count(scope).unwrap();
        let ended = count as u128;
        if held == ended {
            self.remove(scope);
            LocalLeft::Zero
        } else {
            self.set(
                scope,
                LocalCount::Active {
                    count: held - ended,
                },
            );
            LocalLeft::More
        }
    }

    /// What is kept of a scope; none where the scope isn't there.
    pub fn get(&self, scope: ScopeId) -> Option<&LocalCount>
        ensures { option_copied result ≡ counts_of self.now scope }
    {
        find(&self.counts, scope)
    }

    /// The count of a scope; none exactly where the scope isn't active.
    pub fn count(&self, scope: ScopeId) -> Option<u128>
        ensures { result ≡ active_count (counts_of self.now scope) }
    {
        active_count(&self.counts, scope)
    }

    /// Whether slots wait at a scope.
    pub fn waits(&self, scope: ScopeId) -> bool
        ensures { result ≡ is_some (waiting_slots (counts_of self.now scope)) }
    {
        has_waiting(&self.counts, scope)
    }
}

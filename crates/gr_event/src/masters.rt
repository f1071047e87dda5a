//! The scopes whose home is this core: in how many cores each is active, and who waits for its end.
ghost use Rattle.std.specs.Prelude.{◌≡◌, ◌<◌, ◌^◌, IsSome, IsSomeAnd, OnErr, OnOk, None, Some, is_some, false};
ghost use Rattle.std.specs.Option.{option_map};
ghost use Rattle.gr_event.specs.Scopes.{put_scope};
ghost use Rattle.gr_event.specs.Masters.{active_of, after_leave, enrol_one, is_waited, masters_of, new_master, release_of, released, wait_for};

use crate::by_scope::{find, put, set, take};
use gr_msg::ScopeId;
use std::alloc::{AllocError, Global};
use std::collections::BTreeMap;
use std::marker::Model;

/// Who waits for the end of a scope.
#[derive(Clone, Copy)]
pub enum Waiter {
    /// The task in this slot.
    Task { slot: u64 },
    /// The program's end.
    Root,
}

/// Whether a scope has come to its end.
#[derive(Clone, Copy)]
pub enum Release {
    /// No core is active, and this one waited. The scope is removed.
    Released { waiter: Waiter },
    /// A core is active, or nobody waits.
    Held,
}

/// The number of active cores of a scope, and who waits for its end.
#[derive(Clone, Copy)]
pub struct Master {
    pub active: u64,
    pub waiter: Option<Waiter>,
}

/// For each scope whose home is this core, the number of its active cores and who waits.
#[derive(Drop)]
pub struct Masters {
    masters: BTreeMap<ScopeId, Master>,
}

impl Model for Masters {
    ghost use Rattle.std.specs.Prelude.{List};
    ghost use Rattle.gr_msg.specs.declared.message.ScopeId.{ScopeId as Scope};
    ghost use Rattle.gr_event.specs.declared.masters.Master.{Master as OfScope};

    ghost Value = { List (Scope × OfScope) };

    ghost view = { λ all. all.masters.entries };
}

fn master_at(masters: &BTreeMap<ScopeId, Master>, scope: ScopeId) -> Option<Master>
    ensures { result ≡ masters_of masters.now.entries scope }
{
    find(masters, scope).copied()
}

impl Masters {
    ghost use Rattle.std.specs.Prelude.{List, Option};

    /// No scopes. It takes no memory.
    #[tactic(auto, using(crate::proofs::ScopePuts::at_scopes))]
    pub fn new(alloc: Global) -> Masters
        ensures { masters_of result ≡ (λ scope. None) }
    {
        Masters {
            masters: BTreeMap::new(alloc),
        }
    }

    /// The master of a scope; none where the scope isn't there.
    pub fn get(&self, scope: ScopeId) -> Option<Master>
        ensures { result ≡ masters_of self.now scope }
    {
        master_at(&self.masters, scope)
    }

    fn set(&mut self, scope: ScopeId, master: Master)
        requires { IsSome (masters_of self.old scope) }
        ensures { masters_of self.new ≡ put_scope (masters_of self.old) scope (Some master) }
    {
        set(&mut self.masters, scope, master)
    }

    fn remove(&mut self, scope: ScopeId)
        ensures { masters_of self.new ≡ put_scope (masters_of self.old) scope None }
    {
        let _ = take(&mut self.masters, scope);
    }

    /// A scope that isn't there begins with one active core. Unchanged where there is no memory.
    pub fn start(&mut self, scope: ScopeId) -> Result<(), AllocError>
        requires { masters_of self.old scope ≡ None }
        ensures ok { OnOk result (masters_of self.new
            ≡ put_scope (masters_of self.old) scope (Some new_master)) }
        ensures err { OnErr result (masters_of self.new ≡ masters_of self.old) }
    {
        let master = Master {
            active: 1,
            waiter: None,
        };
        put(&mut self.masters, scope, master)
    }

    /// The waiter waits for the end of a scope that is there and for which nobody waits.
    pub fn wait(&mut self, scope: ScopeId, waiter: Waiter)
        requires there { IsSome (active_of (masters_of self.old scope)) }
        requires alone { is_waited (masters_of self.old scope) ≡ false }
        ensures { masters_of self.new ≡ put_scope (masters_of self.old) scope
            (option_map (wait_for waiter) (masters_of self.old scope)) }
    {
        let master = self.get(scope).unwrap();
        self.set(
            scope,
            Master {
                active: master.active,
                waiter: Some(waiter),
            },
        );
    }

    /// One more core is active in a scope that is there, with fewer than 2^63.
    pub fn enrol(&mut self, scope: ScopeId)
        requires { IsSomeAnd (active_of (masters_of self.old scope)) (λ active. active < 2 ^ 63) }
        ensures { masters_of self.new ≡ put_scope (masters_of self.old) scope
            (option_map enrol_one (masters_of self.old scope)) }
    {
        let master = self.get(scope).unwrap();
        self.set(
            scope,
            Master {
                active: master.active + 1,
                waiter: master.waiter,
            },
        );
    }

    /// One core less is active in a scope that is there, with at least one. The last to leave releases whoever
    /// waits.
    pub fn leave(&mut self, scope: ScopeId) -> Release
        requires { IsSomeAnd (active_of (masters_of self.old scope)) (λ active. 0 < active) }
        ensures answer { result ≡ release_of (released (masters_of self.old scope)) }
        ensures rest { masters_of self.new
            ≡ put_scope (masters_of self.old) scope (after_leave (masters_of self.old scope)) }
    {
        let master = self.get(scope).unwrap();
        match master.waiter {
            Some(waiter) if master.active == 1 => {
                self.remove(scope);
                Release::Released { waiter }
            }
            waiter => {
                let active = master.active - 1;
                self.set(scope, Master { active, waiter });
                Release::Held
            }
        }
    }

    /// The number of active cores of a scope; none exactly where the scope isn't there.
    pub fn active(&self, scope: ScopeId) -> Option<u64>
        ensures { result ≡ active_of (masters_of self.now scope) }
    {
        self.get(scope).map(|master| master.active)
    }

    /// Whether somebody waits for the end of a scope.
    pub fn waited(&self, scope: ScopeId) -> bool
        ensures { result ≡ is_waited (masters_of self.now scope) }
    {
        match self.get(scope) {
            None => false,
            Some(master) => master.waiter.is_some(),
        }
    }
}

//! Maps by scope, each seen as a function of the scope.
ghost use Rattle.std.specs.Prelude.{◌≡◌, IsSome, OnErr, OnOk, None, Some};
ghost use Rattle.std.specs.Option.{option_copied};
ghost use Rattle.gr_event.specs.Scopes.{at_scope, put_scope};

use gr_msg::ScopeId;
use std::alloc::{AllocError, Global};
use std::collections::BTreeMap;

/// What stands at a scope.
#[tactic(auto, using(crate::proofs::ScopePuts::at_scopes))]
pub fn find<V>(map: &BTreeMap<ScopeId, V>, scope: ScopeId) -> Option<&V>
    ensures { option_copied result ≡ at_scope map.now.entries scope }
{
    map.get(&scope)
}

/// Puts a value at a scope. Where there is no memory the map is unchanged, and the scope wasn't there.
#[tactic(auto, using(crate::proofs::ScopePuts::at_scopes))]
pub fn put<V: Drop>(
    map: &mut BTreeMap<ScopeId, V>,
    scope: ScopeId,
    value: V,
) -> Result<(), AllocError>
    ensures ok { OnOk result (at_scope map.new.entries
        ≡ put_scope (at_scope map.old.entries) scope (Some value)) }
    ensures err { OnErr result (map.new.entries ≡ map.old.entries) }
    ensures absent { OnErr result (at_scope map.old.entries scope ≡ None) }
{
    let _ = map.insert(scope, value)?;
    Ok(())
}

/// Puts a value at a scope that is there. It takes no memory.
#[tactic(auto, using(crate::proofs::ScopePuts::at_scopes))]
pub fn set<V: Drop>(map: &mut BTreeMap<ScopeId, V>, scope: ScopeId, value: V)
    requires { IsSome (at_scope map.old.entries scope) }
    ensures { at_scope map.new.entries ≡ put_scope (at_scope map.old.entries) scope (Some value) }
{
    match put(map, scope, value) {
        Ok(()) => (),
        Err(_) => unreachable!(),
    }
}

/// Takes out what stands at a scope.
#[tactic(auto, using(crate::proofs::ScopePuts::at_scopes))]
pub fn take<V>(map: &mut BTreeMap<ScopeId, V>, scope: ScopeId) -> Option<V>
    ensures value { result ≡ at_scope map.old.entries scope }
    ensures rest { at_scope map.new.entries ≡ put_scope (at_scope map.old.entries) scope None }
{
    map.remove(&scope)
}

//! The numbers of tasks that haven't ended, scope by scope, and how an entry changes them.
ghost use Rattle.std.specs.Prelude.{◌≡◌, ◌+◌, ◌-◌, ◌<◌, ◌^◌, ◌++◌, ◌∷◌, [], OnErr, OnOk, length, slice_index, slice_set};
ghost use Rattle.gr_tables.specs.Changes.{CanChange, begins_in, changed, ends_in};

use std::alloc::AllocError;

/// What an entry changes in the numbers.
#[derive(Clone, Copy)]
pub enum Change {
    /// Nothing.
    Stays,
    /// A new task stands in the scope.
    Begins { scope: u64 },
    /// A task of the scope has ended.
    Ends { scope: u64 },
    /// A new scope is opened, and no task stands in it.
    Opens,
}

impl Change {
    /// A task begins in the scope, if there is one.
    pub fn begins(scope: Option<u64>) -> Change
        ensures { result ≡ begins_in scope }
    {
        match scope {
            None => Change::Stays,
            Some(scope) => Change::Begins { scope },
        }
    }

    /// A task ends in the scope, if there is one.
    pub fn ends(scope: Option<u64>) -> Change
        ensures { result ≡ ends_in scope }
    {
        match scope {
            None => Change::Stays,
            Some(scope) => Change::Ends { scope },
        }
    }
}

/// The number of the scope; 0 where there is no such scope.
pub fn number_in(unended: &[u64], scope: u64) -> u64
    ensures { result ≡ slice_index unended.now scope }
{
    match unended.get(scope as usize) {
        None => 0,
        Some(number) => *number,
    }
}

fn raise(unended: &mut [u64], scope: u64)
    requires within { scope < length unended.old }
    requires fits { slice_index unended.old scope + 1 < 2 ^ 64 }
    ensures { unended.new ≡ slice_set unended.old scope (slice_index unended.old scope + 1) }
{
    unended[scope as usize] += 1;
}

fn lower(unended: &mut [u64], scope: u64)
    requires { 0 < slice_index unended.old scope }
    ensures { unended.new ≡ slice_set unended.old scope (slice_index unended.old scope - 1) }
{
    unended[scope as usize] -= 1;
}

/// Makes the change. An error is want of memory, and then the numbers are as they were.
pub fn change_numbers(unended: &mut Vec<u64>, change: Change) -> Result<(), AllocError>
    requires { CanChange change unended.old.items }
    ensures ok { OnOk result (unended.new.items ≡ changed change unended.old.items) }
    ensures err { OnErr result (unended.new.items ≡ unended.old.items) }
{
    match change {
        Change::Stays => {}
        Change::Begins { scope } => raise(unended, scope),
        Change::Ends { scope } => lower(unended, scope),
        Change::Opens => unended.push(0)?,
    }
    Ok(())
}

// What no clause says: that the call succeeds where there is memory.
use crate::merging::{Clocked, merge};
use std::test::Fail;

#[derive(Drop)]
struct Timed {
    clock: u64,
    name: u64,
}

impl Clocked for Timed {
    ghost clock_of = { λ timed. timed.clock };

    fn clock(&self) -> u64 {
        self.clock
    }
}

fn item(clock: u64, name: u64) -> Timed {
    Timed { clock, name }
}

#[test]
fn three_lists_are_one(rt: HostRuntime) -> Result<(), Fail> {
    let first = vec![in rt.alloc(); item(3, 9), item(3, 8)]?;
    let last = vec![in rt.alloc(); item(2, 7), item(3, 6)]?;
    let merged = merge(
        rt.alloc(),
        vec![in rt.alloc(); first, Vec::new(rt.alloc()), last]?,
    )?;
    let mut names = Vec::new(rt.alloc());
    for (core, timed) in merged {
        names.push((core, timed.name))?;
    }
    assert!(rt; names.as_slice() == [(2, 7), (0, 9), (0, 8), (2, 6)].as_slice());
    Ok(())
}

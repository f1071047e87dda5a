// What no clause says: that the calls succeed where there is memory, on a worked run.
use crate::aggregator::Aggregator;
use gr_msg::{Msg, ScopeId};
use std::test::Fail;

const SCOPE: ScopeId = ScopeId { core: 0, number: 1 };

const BYTES: [u8; 29] = [
    0, 0, 0, 0, 0, 0, 0, 9, 0, 2, 6, 0, 0, 0, 0, 0, 0, 0, 0, 1, 0, 0, 0, 0, 0, 0, 0, 3, 8,
];

fn may_move<T: Send>(value: &T) {
    let _ = value;
}

#[test]
fn completions_are_shipped_together(rt: HostRuntime) -> Result<(), Fail> {
    let mut kept = Aggregator::new(rt.alloc(), 2, 2)?;
    may_move(&kept);
    kept.add(
        1,
        Msg::Complete {
            scope: SCOPE,
            count: 1,
        },
    )?;
    kept.add(
        1,
        Msg::Complete {
            scope: SCOPE,
            count: 2,
        },
    )?;
    kept.add(1, Msg::StealAsk)?;
    assert!(rt; kept.ready(1, false));
    let packet = kept.front(rt.alloc(), 1, 9)?;
    assert!(rt; packet.clock() == 9);
    assert!(rt; packet.bytes() == BYTES.as_slice());
    kept.drop_front(1);
    assert!(rt; !kept.ready(1, true));
    Ok(())
}

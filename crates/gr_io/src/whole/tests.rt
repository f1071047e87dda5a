// What no clause says: that bytes up to the limit are given where there is memory for them.
use super::read_all;
use crate::standard::StdSource;
use std::test::Fail;

#[test]
fn bytes_up_to_the_limit_are_given(rt: HostRuntime) -> Result<(), Fail> {
    for max in [5, 6, u64::MAX] {
        let mut source = StdSource::new(b"01234".as_slice());
        let read = read_all(rt.alloc(), &mut source, max);
        assert!(rt; read.is_ok(), "at most {max}");
    }
    Ok(())
}

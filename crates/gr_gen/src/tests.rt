//! The text of each kind where there is memory.
use crate::programs::BenchKind::{Queue, Sets, Words};
use crate::programs::bench;
use std::test::Fail;

const WORDS: &str = "array hist[16];
task one(i, s) { hist.reduce add (((i + s) * 6364136223846793005 + 1442695040888963407) / 4294967296 % 16, 1); }
task main() { forall 0 .. 1000 grain 64 one(18446744073709551615); }
show hist;
";

const SETS: &str = "set keys;
array a[1];
task one(i, s) { let n = keys.insert(((i + s) * 6364136223846793005 + 1442695040888963407) / 4294967296 % 1000); a.add(0, n); }
task main() { forall 0 .. 1 grain 64 one(0); }
show a;
";

const QUEUE: &str = "vector v;
array a[2];
task give(i, s) { v.push(i + s); }
task grab(i) { let f, x = v.dequeue(); a.add(0, f); a.reduce xor (1, x); }
task main() { forall 0 .. 100000 grain 64 give(7); forall 0 .. 100000 grain 64 grab(); }
show a;
";

#[test]
fn writes_the_program_of_each_kind(rt: HostRuntime) -> Result<(), Fail> {
    let words = bench(rt.alloc(), Words, 1000, u64::MAX)?;
    assert_eq!(rt; words.as_slice(), WORDS.as_bytes());
    let sets = bench(rt.alloc(), Sets, 1, 0)?;
    assert_eq!(rt; sets.as_slice(), SETS.as_bytes());
    let queue = bench(rt.alloc(), Queue, 100000, 7)?;
    assert_eq!(rt; queue.as_slice(), QUEUE.as_bytes());
    Ok(())
}

//! The programs that `bench` makes.
ghost use Rattle.std.specs.Prelude.{◌≡◌, ◌<◌, ◌≤◌, IfOk, string_bytes};
ghost use Rattle.gr_gen.specs.Programs.{bench_text, queue_text, sets_text, words_text};

use std::alloc::{AllocError, Global};

/// The greatest size of a program. The least is 1.
pub const MAX_SIZE: u64 = 100000;

/// Which program `bench` makes.
#[derive(Clone, Copy, Debug, PartialEq, Eq)]
pub enum BenchKind {
    /// One that counts in the words of an array.
    Words,
    /// One that inserts into a set.
    Sets,
    /// One that uses a vector as a queue.
    Queue,
}

/// The text of the program of a kind, whose loops have `size` indices. The seed moves the words that its tasks
/// compute. The same kind, size and seed give the same text.
#[tactic(auto, unfolding(crate::specs::Programs::bench_text))]
pub fn bench(alloc: Global, kind: BenchKind, size: u64, seed: u64) -> Result<Vec<u8>, AllocError>
    requires least { 0 < size }
    requires greatest { size ≤ MAX_SIZE }
    ensures { IfOk result (λ text. text.items ≡ bench_text kind size seed) }
{
    let text = match kind {
        BenchKind::Words => words(alloc, size, seed)?,
        BenchKind::Sets => sets(alloc, size, seed)?,
        BenchKind::Queue => queue(alloc, size, seed)?,
    };
    Ok(text.into_bytes())
}

/// Tasks that count how often each of sixteen words comes.
fn words(alloc: Global, size: u64, seed: u64) -> Result<String, AllocError>
    ensures { IfOk result (λ text. string_bytes text ≡ words_text size seed) }
{
    format!(in alloc;
        "array hist[16];\n\
         task one(i, s) {{ hist.reduce add (((i + s) * 6364136223846793005 + 1442695040888963407) \
         / 4294967296 % 16, 1); }}\n\
         task main() {{ forall 0 .. {size} grain 64 one({seed}); }}\n\
         show hist;\n"
    )
}

/// Tasks that insert one of a thousand keys, and count the keys.
fn sets(alloc: Global, size: u64, seed: u64) -> Result<String, AllocError>
    ensures { IfOk result (λ text. string_bytes text ≡ sets_text size seed) }
{
    format!(in alloc;
        "set keys;\n\
         array a[1];\n\
         task one(i, s) {{ let n = keys.insert(((i + s) * 6364136223846793005 + 1442695040888963407) \
         / 4294967296 % 1000); a.add(0, n); }}\n\
         task main() {{ forall 0 .. {size} grain 64 one({seed}); }}\n\
         show a;\n"
    )
}

/// Tasks that push words, and then as many that take one out.
fn queue(alloc: Global, size: u64, seed: u64) -> Result<String, AllocError>
    ensures { IfOk result (λ text. string_bytes text ≡ queue_text size seed) }
{
    format!(in alloc;
        "vector v;\n\
         array a[2];\n\
         task give(i, s) {{ v.push(i + s); }}\n\
         task grab(i) {{ let f, x = v.dequeue(); a.add(0, f); a.reduce xor (1, x); }}\n\
         task main() {{ forall 0 .. {size} grain 64 give({seed}); \
         forall 0 .. {size} grain 64 grab(); }}\n\
         show a;\n"
    )
}

//! The table of operations, the reducers, and what a name can stand for.
ghost use Rattle.std.specs.Prelude.{◌≡◌, position};
ghost use Rattle.std.specs.List.{find};
ghost use Rattle.std.specs.Str.{bytes_eq};
ghost use Rattle.gr_accept.specs.Operations as spec;
ghost use Rattle.gr_accept.specs.RowWords.{IsRow};

/// What a name is declared as, as far as its uses are checked against it.
#[derive(Clone, Copy, PartialEq, Eq)]
pub enum Declared {
    /// An array of as many words.
    Array { words: u64 },
    /// A set.
    Set,
    /// A map.
    Map,
    /// A vector.
    Vector,
    /// The heap.
    Heap,
    /// A task with as many parameters.
    Task { params: usize },
}

/// What an operation works on.
#[derive(Clone, Copy)]
pub enum Holder {
    /// A word of an array or of the heap.
    Words,
    /// A set.
    Set,
    /// A map.
    Map,
    /// A vector.
    Vector,
    /// The blocks of the heap.
    Heap,
}

/// An operation of an object.
#[derive(Clone, Copy, PartialEq, Eq)]
pub enum Operation {
    Read,
    Write,
    Add,
    Cas,
    Reduce,
    Insert,
    Remove,
    Has,
    Put,
    Merge,
    Get,
    Erase,
    Push,
    Pop,
    Dequeue,
    Alloc,
    Free,
}

/// All operations.
pub const OPERATIONS: [Operation; 17] = [
    Operation::Read,
    Operation::Write,
    Operation::Add,
    Operation::Cas,
    Operation::Reduce,
    Operation::Insert,
    Operation::Remove,
    Operation::Has,
    Operation::Put,
    Operation::Merge,
    Operation::Get,
    Operation::Erase,
    Operation::Push,
    Operation::Pop,
    Operation::Dequeue,
    Operation::Alloc,
    Operation::Free,
];

/// The reducers by their numbers, 0 to 7.
pub const REDUCERS: [&str; 8] = ["add", "min", "max", "or", "and", "xor", "first", "last"];

/// A row of the table: what an operation is called, works on, takes and gives.
#[derive(Clone, Copy)]
struct Row {
    name: &'static str,
    holder: Holder,
    arguments: usize,
    results: usize,
    reduces: bool,
}

fn plain(name: &'static str, holder: Holder, arguments: usize, results: usize) -> Row
    ensures { IsRow result (spec.plain name.now holder arguments results) }
{
    Row {
        name,
        holder,
        arguments,
        results,
        reduces: false,
    }
}

fn reducing(name: &'static str, holder: Holder, arguments: usize, results: usize) -> Row
    ensures { IsRow result (spec.reducing name.now holder arguments results) }
{
    Row {
        name,
        holder,
        arguments,
        results,
        reduces: true,
    }
}

/// The table of operations.
fn signature(operation: Operation) -> Row
    ensures { IsRow result (spec.signature_of operation) }
{
    match operation {
        Operation::Read => plain("read", Holder::Words, 1, 1),
        Operation::Write => plain("write", Holder::Words, 2, 0),
        Operation::Add => plain("add", Holder::Words, 2, 1),
        Operation::Cas => plain("cas", Holder::Words, 3, 1),
        Operation::Reduce => reducing("reduce", Holder::Words, 2, 1),
        Operation::Insert => plain("insert", Holder::Set, 1, 1),
        Operation::Remove => plain("remove", Holder::Set, 1, 1),
        Operation::Has => plain("has", Holder::Set, 1, 1),
        Operation::Put => plain("put", Holder::Map, 2, 1),
        Operation::Merge => reducing("merge", Holder::Map, 2, 1),
        Operation::Get => plain("get", Holder::Map, 1, 2),
        Operation::Erase => plain("erase", Holder::Map, 1, 1),
        Operation::Push => plain("push", Holder::Vector, 1, 0),
        Operation::Pop => plain("pop", Holder::Vector, 0, 2),
        Operation::Dequeue => plain("dequeue", Holder::Vector, 0, 2),
        Operation::Alloc => plain("alloc", Holder::Heap, 1, 1),
        Operation::Free => plain("free", Holder::Heap, 1, 1),
    }
}

fn among(operations: &[Operation], name: &[u8]) -> Option<Operation>
    ensures { result ≡ find (λ op. bytes_eq name.now (spec.operation_name op)) operations.now }
{
    for operation in operations {
        if name == operation.name().as_bytes() {
            return Some(*operation);
        }
    }
    None
}

fn place_among(words: &[&str], name: &[u8]) -> Option<usize>
    ensures { result ≡ position (λ word. bytes_eq name.now word.now) words.now }
{
    words.iter().position(|word| name == word.as_bytes())
}

/// The operation of this name, if there is one.
pub fn operation_of(name: &[u8]) -> Option<Operation>
    ensures { result ≡ spec.operation_of name.now }
{
    among(&OPERATIONS, name)
}

/// The number of the reducer of this name, 0 to 7, if there is one.
pub fn reducer_of(name: &[u8]) -> Option<u64>
    ensures { result ≡ spec.reducer_of name.now }
{
    let place = place_among(&REDUCERS, name);
    match place {
        Some(place) => Some(place as u64),
        None => None,
    }
}

/// The name of the reducer of that number, 0 to 7; empty where there is none.
pub fn reducer_name(number: u64) -> &'static str
    ensures { result.now ≡ spec.reducer_name number }
{
    match REDUCERS.get(number as usize) {
        Some(name) => name,
        None => "",
    }
}

/// Whether what is declared so has such words, keys or blocks.
fn holds(holder: Holder, declared: Declared) -> bool
    ensures { result ≡ spec.holds holder declared }
{
    match holder {
        Holder::Words => matches!(declared, Declared::Array { .. } | Declared::Heap),
        Holder::Set => matches!(declared, Declared::Set),
        Holder::Map => matches!(declared, Declared::Map),
        Holder::Vector => matches!(declared, Declared::Vector),
        Holder::Heap => matches!(declared, Declared::Heap),
    }
}

impl Operation {
    /// Its name.
    pub fn name(self) -> &'static str
        ensures { result.now ≡ spec.operation_name self }
    {
        signature(self).name
    }

    /// Whether both are the same operation.
    pub fn is(self, other: Operation) -> bool
        ensures { result ≡ spec.same_operation self other }
    {
        self == other
    }

    /// Whether this is an operation of the declared kind of object.
    pub fn works_on(self, declared: Declared) -> bool
        ensures { result ≡ spec.works_on self declared }
    {
        holds(signature(self).holder, declared)
    }

    /// The number of its arguments, the reducer not counted.
    pub fn argument_count(self) -> usize
        ensures { result ≡ spec.argument_count self }
    {
        signature(self).arguments
    }

    /// The number of its result words.
    pub fn result_count(self) -> usize
        ensures { result ≡ spec.result_count self }
    {
        signature(self).results
    }

    /// Whether the name of a reducer stands behind its name.
    pub fn takes_reducer(self) -> bool
        ensures { result ≡ spec.takes_reducer self }
    {
        signature(self).reduces
    }
}

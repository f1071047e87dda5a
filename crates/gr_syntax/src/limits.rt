//! The limits of programs and of their runs, and the number of the heap.

/// The number by which calls name the heap. Other objects have numbers from 0 in the order of the text.
pub const HEAP: u64 = 255;

/// The greatest number of cores of a run. The least is 1.
pub const MAX_CORES: u64 = 16;

/// The greatest limit of pure steps between two actions of a task. The least is 1.
pub const MAX_STEPS: u64 = 1 << 40;

/// The most bytes of a name.
pub const MAX_NAME: usize = 32;

/// The most words of all arrays and the heap together.
pub const MAX_WORDS: u64 = 1 << 24;

/// The most arrays, sets, maps and vectors of a program.
pub const MAX_OBJECTS: usize = 64;

/// The most tasks of a program.
pub const MAX_TASKS: usize = 256;

/// The most parameters of a task.
pub const MAX_PARAMS: usize = 8;

/// The most locals of a task, its parameters counted.
pub const MAX_LOCALS: usize = 64;

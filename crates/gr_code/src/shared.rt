//! That code may be shared with other threads.
use crate::code::Code;

/// Takes what other threads may own and read.
fn share<T: Send + Sync>(value: &T) {
    let _ = value;
}

/// Code may be owned and read by other threads, with the program that it borrows: a call of this function
/// is proved.
pub fn code_is_shared(code: &Code) {
    share(code);
}

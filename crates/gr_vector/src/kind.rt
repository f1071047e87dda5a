//! The kinds of calls of vectors.
ghost use Rattle.std.specs.Prelude.{◌≡◌};
ghost use Rattle.gr_vector.specs.Groups.{is_of};

use gr_lang::Op;

/// A kind of call of a vector.
#[derive(Clone, Copy)]
pub enum Kind {
    Push,
    Pop,
    Dequeue,
}

/// Whether a call is of this kind.
pub fn is_of(kind: Kind, op: Op) -> bool
    ensures { result ≡ is_of kind op }
{
    match (kind, op) {
        (Kind::Push, Op::Push { .. }) => true,
        (Kind::Pop, Op::Pop { .. }) => true,
        (Kind::Dequeue, Op::Dequeue { .. }) => true,
        _ => false,
    }
}

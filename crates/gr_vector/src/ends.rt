//! Between which positions the words of a vector stand, and what one call makes of that.
ghost use Rattle.std.specs.Prelude.{◌≡◌, ◌+◌, ◌<◌, ◌^◌};
ghost use Rattle.gr_vector.specs.Plans as spec;

use gr_lang::Op;

/// The positions of a vector's words: from head to below tail.
#[derive(Clone, Copy)]
pub struct Ends {
    pub head: u64,
    pub tail: u64,
}

impl Ends {
    /// The positions after a call.
    pub fn after(self, op: Op) -> Ends
        requires { (spec.after op self).tail < 2 ^ 64 }
        ensures { result ≡ spec.after op self }
    {
        let Ends { head, tail } = self;
        match op {
            Op::Push { .. } => Ends {
                head,
                tail: tail + 1,
            },
            Op::Pop { .. } if head < tail => Ends {
                head,
                tail: tail - 1,
            },
            Op::Dequeue { .. } if head < tail => Ends {
                head: head + 1,
                tail,
            },
            _ => self,
        }
    }

    /// The position from which a call takes a word, if it takes one.
    pub fn taken(self, op: Op) -> Option<u64>
        ensures { result ≡ spec.taken op self }
    {
        match op {
            Op::Pop { .. } if self.head < self.tail => Some(self.tail - 1),
            Op::Dequeue { .. } if self.head < self.tail => Some(self.head),
            _ => None,
        }
    }

    /// The position at which a call puts a word, with the word, if it puts one.
    pub fn placed(self, op: Op) -> Option<(u64, u64)>
        ensures { result ≡ spec.placed op self }
    {
        match op {
            Op::Push { word, .. } => Some((self.tail, word)),
            _ => None,
        }
    }
}

//! The laws, each the contract of a function that does nothing.
ghost use Rattle.gr_lines_tells.specs.Laws as laws;

/// Each core has each vector, those that ask for turns are cores, and the calls that go off wait for that.
pub fn lines_tell()
    ensures vectors { laws.VectorsTell }
    ensures askers { laws.AskersTell }
    ensures closes { laws.GroupsTell }
{}

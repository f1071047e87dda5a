//! The laws, each the contract of a function that does nothing.
ghost use Rattle.gr_stands_closes.specs.Laws as laws;

/// The calls that wait on an object go off.
pub fn calls_go_off()
    ensures { laws.CallsGoOff }
{}

/// The calls of a batch get their replies.
pub fn batches_come_back()
    ensures { laws.BatchesComeBack }
{}

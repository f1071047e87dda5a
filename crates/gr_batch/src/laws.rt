//! The laws and worked rows, each the contract of a function that does nothing.
ghost use Rattle.gr_batch.specs.Laws as laws;
ghost use Rattle.gr_batch.specs.Rows as rows;

/// The one effect of calls that fold leaves what the last of them leaves, one after another.
#[tactic(auto, using(crate::proofs::Effects::batch_law))]
pub fn batches_do_their_calls()
    ensures { laws.BatchesDoTheirCalls }
{}

/// The batch of some calls on a key is the longest run of the first of them that folds, with its effect.
#[tactic(auto, using(crate::proofs::Groups::longest_is))]
pub fn batches_are_longest()
    ensures { laws.BatchesAreLongest }
{}

/// Each held call on a key is in its batch or stays, those of the batch first.
#[tactic(auto, using(crate::proofs::Kept::each_kept))]
pub fn each_call_is_kept()
    ensures { laws.EachCallIsKept }
{}

/// Worked rows of sets and of maps.
pub fn rows_of_batches()
    ensures set { rows.SetBatch }
    ensures replies { rows.SetReplies }
    ensures first { rows.GreatestIsFirst }
    ensures second { rows.SumIsSecond }
    ensures kept { rows.FirstIsKept }
{}

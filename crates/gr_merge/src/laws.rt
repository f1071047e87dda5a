//! The laws and worked rows, each the contract of a function that does nothing.
ghost use Rattle.gr_merge.specs.Laws as laws;
ghost use Rattle.gr_merge.specs.Rows as rows;

/// A merge has the list of each core that has one, in its order. Where the clocks of no list fall, it is in order by clock and then
/// by core, and so its clocks don't fall.
pub fn merges_are_in_order<T>()
    ensures lists { laws.MergesKeepLists T }
    ensures cores { laws.MergesAreOfCores T }
    ensures sorted { laws.MergesAreSorted T }
    ensures clocks { laws.MergesRise T }
{}

/// A local run is a fold over its journal, and a global run one over its steps.
pub fn folds_are_runs<S, E, P, M>()
    ensures local { laws.FoldsAreLocalRuns S E P M }
    ensures local_back { laws.LocalRunsAreFolds S E P M }
    ensures global { laws.FoldsAreGlobalRuns S E P M }
    ensures global_back { laws.GlobalRunsAreFolds S E P M }
{}

/// A fold goes on over more entries, or over more steps.
pub fn folds_go_on<S, E, P, M>()
    ensures local { laws.LocalFoldsGoOn S E P M }
    ensures global { laws.GlobalFoldsGoOn S E P M }
{}

/// Two local runs, of which the second begins where the first ended, are one.
pub fn journals_grow<S, E, P, M>()
    ensures { laws.LocalRunsJoin S E P M }
{}

/// A local run goes on by one more entry of its journal: an inner one, one that takes a packet, or one that ships one.
pub fn runs_go_on<S, E, P, M>()
    ensures inner { laws.InnerEntriesGoOn S E P M }
    ensures takes { laws.TakesGoOn S E P M }
    ensures ships { laws.ShipsGoOn S E P M }
{}

/// Local runs whose packets match are one global run, in each order in which no clock falls.
pub fn orders_are_global_runs<S, E, P, M>()
    ensures { laws.OrdersAreGlobalRuns S E P M }
{}

/// The merge of the journals of local runs whose packets match is a global run, and its marks are the merge of
/// their marks.
pub fn merges_are_global_runs<S, E, P, M>()
    ensures { laws.MergesAreGlobalRuns S E P M }
{}

/// Worked rows of merges.
pub fn merge_rows()
    ensures two { rows.TwoLists }
    ensures three { rows.ThreeLists }
    ensures last { rows.LastOfThree }
    ensures equal { rows.EqualInOneList }
{}

/// A worked machine of two cores, with a packet each way: its local runs, their merge, and that as a global run.
pub fn machine_rows()
    ensures first { rows.FirstRuns }
    ensures second { rows.SecondRuns }
    ensures merged { rows.JournalsMerge }
    ensures ran { rows.StepsRun }
    ensures marks { rows.MarksMerge }
    ensures clocked { rows.TotalsAreClocked }
{}

/// Entries that may not stand where they stand.
pub fn refused_rows()
    ensures not_told { rows.NoneTold }
    ensures other_clock { rows.NoneAtOtherClock }
    ensures not_received { rows.NoneReceived }
    ensures not_in_transit { rows.NoneInTransit }
{}

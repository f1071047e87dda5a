//! The laws, the contract of a function that does nothing.
ghost use Rattle.gr_fits_words_heap.specs.Laws as laws;

/// The addresses of an accepted program's heap are words, and so its literals fit where its numbers do.
pub fn heaps_fit()
    ensures heaps { laws.AcceptedHeapsFit }
    ensures literals { laws.AcceptedLiteralsFit }
{}

//! The laws and worked rows of packets, each the contract of a function that does nothing.
ghost use Rattle.gr_msg.specs.Laws.{BytesSayOne, PacketsAreApart, PacketsAreSpelledOnce, SpelledAreInRange};
ghost use Rattle.gr_msg.specs.Rows as rows;

/// Bytes spell one packet at most, a packet has one spelling, no spelling of a packet is the beginning of another's,
/// and all that a packet says is in its range.
pub fn packets_are_exact()
    ensures one { BytesSayOne }
    ensures once { PacketsAreSpelledOnce }
    ensures apart { PacketsAreApart }
    ensures in_range { SpelledAreInRange }
{}

/// Worked rows of packets.
pub fn packet_rows()
    ensures read { rows.OneIsRead }
    ensures faults { rows.FaultsAreFound }
{}

//! The laws and worked rows, each the contract of a function that does nothing.
ghost use Rattle.gr_addr.specs.Laws as laws;
ghost use Rattle.gr_addr.specs.Rows as rows;

/// Each address below the number of words is that of one place at one core, and each place of a core that of
/// one address.
#[tactic(auto, using(crate::proofs::Dealt::dealt))]
pub fn addresses_are_dealt()
    ensures held { laws.AddressesAreHeld }
    ensures back { laws.AddressesComeBack }
    ensures apart { laws.PairsAreApart }
    ensures addressed { laws.PlacesAreAddressed }
{}

/// What an operation stores is what the call that it stands for leaves, whatever the object and the place.
pub fn words_are_called()
    ensures { laws.WordsAreCalled }
{}

/// Worked rows of layouts.
pub fn dealt_rows()
    ensures pairs { rows.ThreeCores }
    ensures shares { rows.ThreeShares }
    ensures bad { rows.NoCores }
    ensures least { rows.LeastLayout }
{}

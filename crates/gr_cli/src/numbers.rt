//! The numbers of options.
ghost use Rattle.std.specs.Prelude.{◌≡◌};
ghost use Rattle.std.specs.Char.{is_ascii_digit};
ghost use Rattle.std.specs.List.{list_all};
ghost use Rattle.gr_cli.specs.Numbers as spec;

use gr_gen::MAX_SIZE;
use gr_syntax::{MAX_CORES, MAX_STEPS};

/// The greatest clock of a core at which a run can be ended.
const MAX_EVENTS: u64 = 1 << 40;

/// The most digits of a number.
pub const MAX_DIGITS: usize = 20;

/// The least and the greatest number that an option takes, and the one that it has by default.
#[derive(Clone, Copy)]
pub struct Bounds {
    /// What the option is where the words don't give it.
    pub default: u64,
    pub least: u64,
    pub most: u64,
}

impl Bounds {
    fn contains(self, value: u64) -> bool
        ensures { result ≡ spec.contains self value }
    {
        self.least <= value && value <= self.most
    }
}

/// The number of cores.
pub const CORES: Bounds = Bounds {
    default: 4,
    least: 1,
    most: MAX_CORES,
};

/// The words of a block, which lie at one core.
pub const BLOCK: Bounds = Bounds {
    default: 8,
    least: 1,
    most: 4096,
};

/// The messages with which a packet is shipped at once.
pub const LIMIT: Bounds = Bounds {
    default: 32,
    least: 1,
    most: 256,
};

/// The most pure steps of a task between two of its actions.
pub const STEPS: Bounds = Bounds {
    default: 1000000,
    least: 1,
    most: MAX_STEPS,
};

/// The most events of a core in one round.
pub const SLICE: Bounds = Bounds {
    default: 1024,
    least: 1,
    most: 65536,
};

/// The clock of a core at which a run is ended.
pub const EVENTS: Bounds = Bounds {
    default: MAX_EVENTS,
    least: 1,
    most: MAX_EVENTS,
};

/// The indices of a loop of the program that `bench` makes.
pub const SIZE: Bounds = Bounds {
    default: 1000,
    least: 1,
    most: MAX_SIZE,
};

/// The seed of that program.
pub const SEED: Bounds = Bounds {
    default: 1,
    least: 0,
    most: u64::MAX,
};

fn has_only_digits(text: &str) -> bool
    ensures { result ≡ list_all is_ascii_digit text.now }
{
    text.bytes().all(|byte| byte.is_ascii_digit())
}

/// Whether the text is one to `MAX_DIGITS` decimal digits and nothing else.
fn is_numeral(text: &str) -> bool
    ensures { result ≡ spec.is_numeral text.now }
{
    let len = text.len();
    1 <= len && len <= MAX_DIGITS && has_only_digits(text)
}

/// The number that the text spells, if it is a numeral of a number within the bounds.
pub(crate) fn number_in(text: &str, bounds: Bounds) -> Option<u64>
    ensures { result ≡ spec.number_in bounds text.now }
{
    if !is_numeral(text) {
        return None;
    }
    let Ok(value) = text.parse::<u64>() else {
        return None;
    };
    bounds.contains(value).then_some(value)
}

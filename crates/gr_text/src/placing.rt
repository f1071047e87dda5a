//! Lines and columns.
ghost use Rattle.std.specs.Prelude.{◌≡◌, ℕ, ◌+◌, ◌<◌, ◌≤◌, ◌^◌, length, take};
ghost use Rattle.gr_text.specs.Places.{after_byte, after_bytes, place_of};

use gr_syntax::Place;

/// The line and the column of this place of the text, which is in bytes from its start and at most at its
/// end. Both count from 1, and columns count bytes.
pub fn place(text: &[u8], at: u64) -> Place
    requires { at ≤ length text.now }
    ensures { result ≡ place_of text.now at }
{
    let start = Place { line: 1, column: 1 };
    advance(start, text, at as usize)
}

/// The place behind the first bytes of a text that stands at the place.
pub fn advance(start: Place, text: &[u8], count: usize) -> Place
    requires within { count ≤ length text.now }
    requires line { start.line + count < 2 ^ 64 }
    requires column { start.column + count < 2 ^ 64 }
    ensures { result ≡ after_bytes start (take count text.now) }
{
    let bytes = text.split_at(count).0;
    let mut place = start;
    'each: for byte in bytes {
        place = next_place(place, *byte);
    }
    place
}

/// The place behind this byte.
fn next_place(place: Place, byte: u8) -> Place
    requires line { place.line + 1 < 2 ^ 64 }
    requires column { place.column + 1 < 2 ^ 64 }
    ensures { result ≡ after_byte place byte }
{
    if byte == b'\n' {
        Place {
            line: place.line + 1,
            column: 1,
        }
    } else {
        Place {
            line: place.line,
            column: place.column + 1,
        }
    }
}

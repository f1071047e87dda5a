//! A source, divided into its program text and its history text.
ghost use Rattle.std.specs.Prelude.{◌≡◌, ◌==◌, ◌+◌, drop};
ghost use Rattle.std.specs.List.{position_or_len};
ghost use Rattle.std.specs.Str.{bytes_eq};
ghost use Rattle.gr_replay.specs.Division.{history_part, program_part};

/// The line between the program text and the history text.
const DIVIDING_LINE: &str = "---";

/// The number of bytes before the first line feed, or of all where there is none.
fn line_len(text: &[u8]) -> usize
    ensures { result ≡ position_or_len (λ byte. byte == 10) text.now }
{
    text.iter().take_while(|byte| **byte != b'\n').count()
}

fn is_line(line: &[u8], text: &str) -> bool
    ensures { result ≡ bytes_eq text.now line.now }
{
    text.as_bytes() == line
}

/// What stands behind the first line and its line feed; nothing where the line has none.
fn behind(text: &[u8], len: usize) -> &[u8]
    ensures { result.now ≡ drop (len + 1) text.now }
{
    if len < text.len() {
        &text[len + 1..]
    } else {
        &[]
    }
}

/// The program text, which is all before the first line that is exactly `---`, and the history
/// text, which is all behind that line. Where there is no such line the whole source is the program
/// text, and the history text is empty.
pub fn divide(source: &[u8]) -> (&[u8], &[u8])
    ensures program { result.0.now ≡ program_part source.now }
    ensures history { result.1.now ≡ history_part source.now }
{
    let mut start = 0;
    loop {
        let rest = &source[start..];
        let len = line_len(rest);
        let divides = is_line(&rest[..len], DIVIDING_LINE);
        if divides {
            return (&source[..start], behind(rest, len));
        }
        if len == rest.len() {
            return (source, &[]);
        }
        start += len + 1;
    }
}

//! What stands at the front of a text.
ghost use Rattle.std.specs.Prelude.{◌≡◌, ℕ, ◌+◌, ◌*◌, ◌≤◌, ◌<◌, ◌^◌, ◌||◌, true, false, ◌∷◌, length, take, drop, List, MatchOption, IfSome};
ghost use Rattle.std.specs.List.{list_all, prefix_len};
ghost use Rattle.std.specs.Char.{digit_value};
ghost use Rattle.std.specs.Str.Parse.{digits_value};
ghost use Rattle.gr_syntax.specs.Names.{is_word, is_digit, is_letter};
ghost use Rattle.gr_text.specs.Text.{is_white, not_newline, blank_len};
ghost use Rattle.gr_text.specs.FrontWords.{HasHead, IsFront, single_sign, double_sign, front_sign};

use crate::spelling::keyword;
use crate::token::{Sign, TokenKind};
use gr_syntax::MAX_NAME;

/// What stands at the front of a text that isn't empty.
#[derive(Clone, Copy)]
pub enum Front {
    /// This many bytes of white space, or of a comment.
    Blank { length: usize },
    /// A token of this many bytes.
    Token { kind: TokenKind, length: usize },
    /// A number above 2^64 - 1.
    TooWide,
    /// A name of more than 32 bytes.
    TooLong,
    /// A byte that begins no token and nothing blank.
    Bad,
}

/// Whether a name may begin with this byte.
fn is_letter(b: u8) -> bool
    ensures { result ≡ is_letter b }
{
    matches!(b, b'a'..=b'z' | b'A'..=b'Z' | b'_')
}

/// Whether this byte is a decimal digit.
fn is_digit(b: u8) -> bool
    ensures { result ≡ is_digit b }
{
    matches!(b, b'0'..=b'9')
}

/// Whether a name may go on with this byte.
fn is_word(b: u8) -> bool
    ensures { result ≡ is_word b }
{
    is_letter(b) || is_digit(b)
}

/// Whether this byte is white space.
fn is_white(b: u8) -> bool
    ensures { result ≡ is_white b }
{
    matches!(b, b' ' | b'\t' | b'\r' | b'\n')
}

/// How many bytes at the front are of words.
fn word_len(text: &[u8]) -> usize
    ensures { result ≡ prefix_len is_word text.now }
{
    text.iter().take_while(|b| is_word(**b)).count()
}

/// How many bytes at the front are digits.
fn digits_len(text: &[u8]) -> usize
    ensures { result ≡ prefix_len is_digit text.now }
{
    text.iter().take_while(|b| is_digit(**b)).count()
}

/// How many bytes at the front stand before the first newline.
fn line_len(text: &[u8]) -> usize
    ensures { result ≡ prefix_len not_newline text.now }
{
    text.iter().take_while(|b| **b != b'\n').count()
}

/// The first bytes of a text.
fn upto(text: &[u8], count: usize) -> &[u8]
    requires { count ≤ length text.now }
    ensures { result.now ≡ take count text.now }
{
    text.split_at(count).0
}

/// The text behind its first bytes.
pub fn past(text: &[u8], count: usize) -> &[u8]
    requires { count ≤ length text.now }
    ensures { result.now ≡ drop count text.now }
{
    text.split_at(count).1
}

/// How many bytes at the front are blank.
fn blank_len(text: &[u8]) -> usize
    ensures { result ≡ blank_len text.now }
{
    match text {
        [b, ..] => {
            if is_white(*b) {
                1
            } else if *b == b'#' {
                line_len(text)
            } else {
                0
            }
        }
        [] => 0,
    }
}

/// The number with one more digit behind it, unless it is too wide.
fn shifted(n: u64, digit: u8) -> Option<u64>
    requires { is_digit digit ≡ true }
    ensures { MatchOption result
        (2 ^ 64 ≤ n * 10 + digit_value digit) (λ m. m ≡ n * 10 + digit_value digit) }
{
    match n.checked_mul(10) {
        Some(tens) => tens.checked_add(u64::from(digit - b'0')),
        None => None,
    }
}

/// The number that the digits write, unless it is too wide.
fn value(digits: &[u8]) -> Option<u64>
    requires { list_all is_digit digits.now ≡ true }
    ensures { MatchOption result
        (2 ^ 64 ≤ digits_value 10 digits.now) (λ n. n ≡ digits_value 10 digits.now) }
{
    let mut n: u64 = 0;
    'each: for digit in digits {
        match shifted(n, *digit) {
            Some(more) => n = more,
            None => return None,
        }
    }
    Some(n)
}

/// The sign that is this byte.
fn single(b: u8) -> Option<Sign>
    ensures { result ≡ single_sign b }
{
    match b {
        b'(' => Some(Sign::LeftParen),
        b')' => Some(Sign::RightParen),
        b'{' => Some(Sign::LeftBrace),
        b'}' => Some(Sign::RightBrace),
        b'[' => Some(Sign::LeftBracket),
        b']' => Some(Sign::RightBracket),
        b';' => Some(Sign::Semicolon),
        b',' => Some(Sign::Comma),
        b'.' => Some(Sign::Dot),
        b'=' => Some(Sign::Assign),
        b'<' => Some(Sign::Less),
        b'>' => Some(Sign::Greater),
        b'+' => Some(Sign::Plus),
        b'-' => Some(Sign::Minus),
        b'*' => Some(Sign::Star),
        b'/' => Some(Sign::Slash),
        b'%' => Some(Sign::Percent),
        b'&' => Some(Sign::Ampersand),
        b'|' => Some(Sign::Bar),
        b'^' => Some(Sign::Caret),
        b'!' => Some(Sign::Bang),
        _ => None,
    }
}

/// The sign that is these two bytes.
fn double(a: u8, b: u8) -> Option<Sign>
    ensures { result ≡ double_sign a b }
{
    match (a, b) {
        (b'.', b'.') => Some(Sign::DotDot),
        (b'=', b'=') => Some(Sign::EqualEqual),
        (b'!', b'=') => Some(Sign::BangEqual),
        (b'<', b'=') => Some(Sign::LessEqual),
        (b'>', b'=') => Some(Sign::GreaterEqual),
        _ => None,
    }
}

/// The longest sign at the front.
fn front_sign(text: &[u8]) -> Option<Sign>
    ensures { result ≡ front_sign text.now }
{
    match text {
        [a, b, ..] => match double(*a, *b) {
            Some(sign) => Some(sign),
            None => single(*a),
        },
        [a] => single(*a),
        [] => None,
    }
}

/// The name or keyword at the front of a text that begins with a letter.
fn word(text: &[u8]) -> Front
    requires { HasHead (λ b. is_letter b ≡ true) text.now }
    ensures { IsFront result text.now }
{
    let length = word_len(text);
    if length > MAX_NAME {
        return Front::TooLong;
    }
    match keyword(upto(text, length)) {
        Some(word) => Front::Token {
            kind: TokenKind::Keyword { word },
            length,
        },
        None => Front::Token {
            kind: TokenKind::Name,
            length,
        },
    }
}

/// The number at the front of a text that begins with a digit.
fn number(text: &[u8]) -> Front
    requires { HasHead (λ b. is_digit b ≡ true) text.now }
    ensures { IsFront result text.now }
{
    let length = digits_len(text);
    match value(upto(text, length)) {
        Some(value) => Front::Token {
            kind: TokenKind::Number { value },
            length,
        },
        None => Front::TooWide,
    }
}

/// The sign at the front of a text that begins with nothing else.
fn sign(text: &[u8]) -> Front
    requires head { HasHead (λ b. (is_letter b || is_digit b) ≡ false) text.now }
    requires dark { blank_len text.now ≡ 0 }
    ensures { IsFront result text.now }
{
    match front_sign(text) {
        Some(sign) => Front::Token {
            kind: TokenKind::Sign { sign },
            length: sign.text().len(),
        },
        None => Front::Bad,
    }
}

/// What stands at the front.
pub fn classify(text: &[u8]) -> Front
    requires { 0 < length text.now }
    ensures { IsFront result text.now }
{
    let length = blank_len(text);
    if length > 0 {
        return Front::Blank { length };
    }
    let b = text[0];
    if is_letter(b) {
        return word(text);
    }
    if is_digit(b) {
        return number(text);
    }
    sign(text)
}

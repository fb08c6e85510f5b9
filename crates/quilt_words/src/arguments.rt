ghost use Rattle.std.specs.Prelude.{◌≡◌, ◌≤◌, ◌<◌, ◌+◌, ◌*◌, ◌-◌, ℕ, Ok, Err, Some, None, Option, Bool, cond, nat_le, if◌then◌else◌, Result, option_map, IfOk};
ghost use Rattle.std.specs.Prelude.{IfSome};
ghost use Rattle.std.specs.List.{list_all};
ghost use Rattle.quilt_words.specs.Spelling.{number, is_digit, is_spelled, value_of};
ghost use Rattle.quilt_words.specs.Table.{A_name, A_number, A_signed, Called, Number, Signed, colour, coordinate, extent};
ghost use Rattle.quilt_words.specs.Forms.{argument_value};
ghost use Rattle.quilt_words.specs.Parsing.{ReadsOne};
ghost use Rattle.quilt_words.specs.Fitting.{IsWithin};
ghost use Rattle.quilt_types.specs.Layers.{colours};

use quilt_types::{Code, Colour, Name};
use std::str;

/// The name that a word is.
#[tactic(auto, unfolding(crate::specs::Spelling::name, crate::specs::Forms::argument_value))]
pub fn parse_name(word: &[u8]) -> Result<Name, Code>
    ensures { ReadsOne Called result (argument_value A_name word.now) }
{
    let Ok(text) = str::from_utf8(word) else {
        return Err(Code::Name);
    };
    match Name::of(text) {
        Some(name) => Ok(name),
        None => Err(Code::Name),
    }
}

fn is_digit_byte(c: u8) -> bool
    ensures { result ≡ is_digit c }
{
    b'0' <= c && c <= b'9'
}

fn are_digits(bytes: &[u8]) -> bool
    ensures { result ≡ list_all is_digit bytes.now }
{
    bytes.iter().all(|c| is_digit_byte(*c))
}

/// Whether the bytes are decimal digits, with no zero at the front of others.
fn is_number(bytes: &[u8]) -> bool
    ensures { result ≡ is_spelled bytes.now }
{
    match bytes {
        [] => false,
        [c] => is_digit_byte(*c),
        [c, ..] => *c != b'0' && are_digits(bytes),
    }
}

/// The number that decimal digits spell, where it is at most so much.
fn value(digits: &[u8], high: u32) -> Option<u32>
    ensures { result ≡ (if nat_le (value_of digits.now) high then Some (value_of digits.now) else None) }
{
    let mut v: u64 = 0;
    for c in digits {
        v = 10 * v + u64::from(c.saturating_sub(b'0'));
        if v > u64::from(high) {
            return None;
        }
    }
    Some(v as u32)
}

/// The number from `low` to `high` that a word spells, if it spells one.
#[tactic(auto, unfolding(crate::specs::Spelling::number))]
pub fn number_of(low: u32, high: u32, word: &[u8]) -> Option<u32>
    ensures is { result ≡ number low high word.now }
    ensures within { IfSome result (IsWithin low high) }
{
    if !is_number(word) {
        return None;
    }
    match value(word, high) {
        Some(n) if n >= low => Some(n),
        _ => None,
    }
}

/// The number from `low` to `high` that a word spells.
#[tactic(auto, unfolding(crate::specs::Forms::argument_value))]
pub fn parse_number(low: u32, high: u32, word: &[u8]) -> Result<u32, Code>
    ensures value { ReadsOne Number result (argument_value (A_number low high) word.now) }
    ensures within { IfOk result (IsWithin low high) }
{
    match number_of(low, high, word) {
        Some(n) => Ok(n),
        None => Err(Code::Number),
    }
}

/// A coordinate.
pub fn parse_coordinate(word: &[u8]) -> Result<u16, Code>
    ensures { ReadsOne Number result (argument_value coordinate word.now) }
{
    let n = parse_number(0, 65535, word)?;
    Ok(n as u16)
}

/// An extent of a window, at least 1.
pub fn parse_extent(word: &[u8]) -> Result<u16, Code>
    ensures { ReadsOne Number result (argument_value extent word.now) }
{
    let n = parse_number(1, 65535, word)?;
    Ok(n as u16)
}

/// A number of at most 65535, or a minus before one that is not 0.
#[tactic(auto, unfolding(crate::specs::Forms::argument_value))]
pub fn parse_signed(word: &[u8]) -> Result<i32, Code>
    ensures { ReadsOne Signed result (argument_value A_signed word.now) }
{
    let Some((first, digits)) = word.split_first() else {
        return Err(Code::Number);
    };
    if *first == b'-' {
        return match number_of(1, 65535, digits) {
            Some(n) => Ok(-(n as i32)),
            None => Err(Code::Number),
        };
    }
    match number_of(0, 65535, word) {
        Some(n) => Ok(n as i32),
        None => Err(Code::Number),
    }
}

/// A number from 1 to `high`.
pub fn parse_few(high: u8, word: &[u8]) -> Result<u8, Code>
    ensures { ReadsOne Number result (argument_value (A_number 1 high) word.now) }
{
    let n = parse_number(1, u32::from(high), word)?;
    Ok(n as u8)
}

/// A colour of the format.
pub fn parse_colour(format: u8, word: &[u8]) -> Result<Colour, Code>
    ensures { ReadsOne (λ c. Number c.0) result (argument_value (colour format) word.now) }
{
    let n = parse_number(0, most_colour(format), word)?;
    Ok(Colour(n as u16))
}

/// The greatest colour of a format.
pub fn most_colour(format: u8) -> u32
    ensures { result ≡ colours format - 1 }
{
    if format == 1 { 255 } else { 65535 }
}

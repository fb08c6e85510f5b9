//! The rows of a raster, read over their own digits: what a row spells has no more bytes than the row, so that the memory of the
//! text serves for its colours.
ghost use Rattle.std.specs.Prelude.{◌≡◌, ◌≤◌, ◌+◌, ◌*◌, ◌==◌, ℕ, suc, true, ◌++◌, length, take, drop, Some, None, option_map, IfOk, IfSome, MatchOption};
ghost use Rattle.std.specs.Prelude.{if◌then◌else◌};
ghost use Rattle.quilt_types.specs.Plane.{side};
ghost use Rattle.quilt_words.specs.Items.{colour_bytes, lines_of, rows_of};
ghost use Rattle.quilt_words.specs.Spelling.{row};
ghost use Rattle.quilt_lang.specs.Spelled.{row_size, rows_front};

use crate::first_line::first_line;
use crate::spelled::{read_pairs, read_wide_pairs};
use quilt_types::Text;
use std::alloc::{AllocError, Global};

/// The highest level of which rows are read so.
pub const OVER_LEVEL: u8 = 16;

/// How many pixels a row has.
fn row_width(level: u8) -> usize
    requires { level ≤ 16 }
    ensures is { result ≡ side level }
    ensures low { result ≤ 65536 }
{
    1 << level
}

/// How many digits a row of so many pixels has.
fn row_digits(format: u8, width: usize) -> usize
    requires { width ≤ 65536 }
    ensures { result ≡ 2 * format * width }
{
    2 * usize::from(format) * width
}

/// How many bytes the colours of a row of so many digits have.
fn row_size(format: u8, digits: usize) -> usize
    ensures { result ≡ row_size format digits }
{
    if format == 1 { digits } else { digits / 2 }
}

/// Room for the colours of one row.
pub fn row_room(alloc: Global, level: u8, format: u8) -> Result<Vec<u8>, AllocError>
    requires { level ≤ 16 }
    ensures { IfOk result (λ room. length room.items ≡ row_size format (2 * format * side level)) }
{
    let size = row_size(format, row_digits(format, row_width(level)));
    let mut room = Vec::new(alloc);
    room.resize(size, 0)?;
    Ok(room)
}

/// Reads the colours that a row spells, two bytes each with the high one first. Says whether it is well formed; else the bytes are
/// only given up.
fn read_row(format: u8, width: usize, line: &[u8], bytes: &mut [u8]) -> bool
    requires low { width ≤ 65536 }
    requires room { length bytes.old ≡ row_size format (2 * format * width) }
    ensures same { length bytes.new ≡ length bytes.old }
    ensures read { (if result then Some bytes.new else None) ≡
        (if length line.now == 2 * format * width then option_map (colour_bytes format) (row line.now) else None) }
    ensures short { result ≡ true → length bytes.new ≤ length line.now }
{
    if line.len() != row_digits(format, width) {
        return false;
    }
    if format == 1 {
        read_wide_pairs(line, bytes)
    } else {
        read_pairs(line, bytes)
    }
}

/// Reads the colours of the row that begins at an index, and gives the index behind it; none where it is missing or not well formed:
/// then the colours are only given up.
fn read_row_at(
    format: u8,
    width: usize,
    text: &[u8],
    from: usize,
    colours: &mut [u8],
) -> Option<usize>
    requires low { width ≤ 65536 }
    requires within { from ≤ length text.now }
    requires room { length colours.old ≡ row_size format (2 * format * width) }
    ensures same { length colours.new ≡ length colours.old }
    ensures read { MatchOption result ((k : ℕ) → rows_front format width (suc k) (lines_of (drop from text.now)) ≡ None)
        (λ next. (k : ℕ) → rows_front format width (suc k) (lines_of (drop from text.now)) ≡
        option_map (λ rest. colours.new ++ rest) (rows_front format width k (lines_of (drop next text.now)))) }
    ensures within { IfSome result (λ next. next ≤ length text.now) }
    ensures behind { IfSome result (λ next. from + length colours.new ≤ next) }
{
    let rest = &text[from..];
    let Some(len) = first_line(rest, true) else {
        return None;
    };
    if !read_row(format, width, &rest[..len], colours) {
        return None;
    }
    Some(from + rest.len().min(len + 1))
}

/// Puts the colours of the rows that begin at an index over the bytes from the first one on, and says how many bytes they are; none
/// where a row is missing or not well formed: then the bytes are only given up. What is written ends before what is still to be read.
fn read_rows(level: u8, format: u8, bytes: &mut [u8], from: usize, room: &mut [u8]) -> Option<usize>
    requires low { level ≤ 16 }
    requires within { from ≤ length bytes.old }
    requires room { length room.old ≡ row_size format (2 * format * side level) }
    ensures { option_map (λ k. take k bytes.new) result ≡ rows_of format level (take (side level) (lines_of (drop from bytes.old))) }
{
    let width = row_width(level);
    let mut left = width;
    let mut src = from;
    let mut dst = 0;
    while left > 0 {
        let Some(next) = read_row_at(format, width, bytes, src, room) else {
            return None;
        };
        bytes[dst..dst + room.len()].copy_from_slice(room);
        dst += room.len();
        src = next;
        left -= 1;
    }
    Some(dst)
}

/// The colours of the rows that begin at an index, or none where one is missing or not well formed. They are in the memory of the
/// bytes; the room is for those of one row.
pub fn rows_over(
    level: u8,
    format: u8,
    mut bytes: Vec<u8>,
    from: usize,
    room: &mut [u8],
) -> Option<Text>
    requires low { level ≤ 16 }
    requires within { from ≤ length bytes.items }
    requires room { length room.old ≡ row_size format (2 * format * side level) }
    ensures { result ≡ rows_of format level (take (side level) (lines_of (drop from bytes.items))) }
{
    let Some(len) = read_rows(level, format, &mut bytes, from, room) else {
        return None;
    };
    bytes.truncate(len);
    bytes.shrink_to_fit();
    Some(Text::of(bytes))
}

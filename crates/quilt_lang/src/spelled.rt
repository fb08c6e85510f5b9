//! What the further lines of an item spell: rows, list lines and ring lines.
ghost use Rattle.std.specs.Prelude.{◌≡◌, List, ◌≤◌, ◌<◌, ◌+◌, ◌%◌, ◌*◌, ◌==◌, ℕ, [], ◌∷◌, ◌++◌, map, flat_map, length, take, nat_le, Some, None, option_map, unwrap_or};
ghost use Rattle.std.specs.Prelude.{if◌then◌else◌, ◌≢◌, true, false, IfOk, IfSome, MatchOption, codes};
ghost use Rattle.std.specs.Simd.Lanes.{Each1, mask_l};
ghost use Rattle.std.specs.Str.{bytes_eq};
ghost use Rattle.quilt_words.specs.Items.{listed_by, colour_bytes, corner_of, corners_of, point, point_of, points_joined, ring_of, rings_joined, rows_joined};
ghost use Rattle.quilt_words.specs.Items.{words_of};
ghost use Rattle.quilt_words.specs.Spelling.{number, row, hex_digit};
ghost use Rattle.quilt_lang.specs.Spelled.{IsWideUpTo, wide_pairs};

use quilt_types::{Corner, Pixel, Point, PointList, RingList, Text};
use quilt_words::{LINE_LIMIT, few_words, line_words, number_of, push_ring};
use std::alloc::{AllocError, Global};
use std::simd::prelude::*;

/// How many list lines or ring lines the words ask for.
pub fn listed(words: &[&[u8]]) -> u32
    ensures { result ≡ listed_by (map (λ w. w.now) words.now) }
{
    match words {
        [word, _, k] => asked_by_word(word, b"scatter", k, 100_000),
        [word, _, _, k] => asked_by_word(word, b"polygon", k, 1000),
        _ => 0,
    }
}

/// The number from 1 on that a word spells behind this word; 0 where it spells none, or the word is another.
fn asked_by_word(word: &[u8], name: &[u8], k: &[u8], most: u32) -> u32
    ensures { result ≡ (if bytes_eq word.now name.now then unwrap_or (number 1 most k.now) 0 else 0) }
{
    if word != name {
        return 0;
    }
    number_of(1, most, k).unwrap_or(0)
}

/// The value of a hexadecimal digit of either case, and 16 for each other byte. How far it stands behind `0`, and behind the nearer of
/// `A` and `a`, round and round, tells it with one branch.
fn digit_value(c: u8) -> u8
    ensures { result ≡ unwrap_or (hex_digit c) 16 }
{
    let digit = c.wrapping_sub(b'0');
    let letter = c.wrapping_sub(b'a').min(c.wrapping_sub(b'A'));
    if digit <= 9 {
        digit
    } else {
        letter.min(6) + 10
    }
}

/// The byte that two digits of these values spell.
fn byte_of(high: u8, low: u8) -> u8
    ensures { high ≤ 15 → low ≤ 15 → result ≡ 16 * high + low }
{
    16 * (high % 16) + low % 16
}

/// Reads pairs of hexadecimal digits into the bytes that they spell. Says whether all are digits; else the bytes are only given up.
pub fn read_pairs(line: &[u8], bytes: &mut [u8]) -> bool
    requires { length line.now ≡ 2 * length bytes.old }
    ensures same { length bytes.new ≡ length bytes.old }
    ensures read { (if result then Some bytes.new else None) ≡ row line.now }
{
    let mut most = 0_u8;
    let mut i = 0;
    while i < bytes.len() {
        let high = digit_value(line[2 * i]);
        let low = digit_value(line[2 * i + 1]);
        bytes[i] = byte_of(high, low);
        most = most.max(high).max(low);
        i += 1;
    }
    most <= 15
}

/// Reads pairs of hexadecimal digits into the bytes that they spell, each behind a byte of 0. Says whether all are digits; else the
/// bytes are only given up.
pub fn read_wide_pairs(line: &[u8], bytes: &mut [u8]) -> bool
    requires same { length line.now ≡ length bytes.old }
    requires even { length line.now % 2 ≡ 0 }
    ensures same { length bytes.new ≡ length bytes.old }
    ensures read { (if result then Some bytes.new else None) ≡ option_map (colour_bytes 1) (row line.now) }
{
    match read_sixteens(line, bytes) {
        Some(from) => read_wide_rest(line, bytes, from),
        None => false,
    }
}

/// The same of sixteen digits at a time, as far as there are as many, and how many digits these are; none where one is no digit.
fn read_sixteens(line: &[u8], bytes: &mut [u8]) -> Option<usize>
    requires { length line.now ≡ length bytes.old }
    ensures same { length bytes.new ≡ length bytes.old }
    ensures read { MatchOption result (option_map (colour_bytes 1) (row line.now) ≡ None) (λ i. IsWideUpTo line.now i (take i bytes.new)) }
    ensures within { IfSome result (λ i. i ≤ length line.now) }
    ensures even { IfSome result (λ i. i % 2 ≡ 0) }
{
    let mut i = 0;
    while i + 16 <= line.len() {
        let Some(part) = wide_sixteen(u8x16::from_slice(&line[i..])) else {
            return None;
        };
        u8x16::from_array(part).copy_to_slice(&mut bytes[i..]);
        i += 16;
    }
    Some(i)
}

/// The same of the digits behind these.
fn read_wide_rest(line: &[u8], bytes: &mut [u8], from: usize) -> bool
    requires same { length line.now ≡ length bytes.old }
    requires even { length line.now % 2 ≡ 0 }
    requires before { from % 2 ≡ 0 }
    requires read { IsWideUpTo line.now from (take from bytes.old) }
    ensures same { length bytes.new ≡ length bytes.old }
    ensures read { (if result then Some bytes.new else None) ≡ option_map (colour_bytes 1) (row line.now) }
{
    let mut most = 0_u8;
    let mut i = from;
    while i < bytes.len() {
        let high = digit_value(line[i]);
        let low = digit_value(line[i + 1]);
        bytes[i] = 0;
        bytes[i + 1] = byte_of(high, low);
        most = most.max(high).max(low);
        i += 2;
    }
    most <= 15
}

/// The bytes that sixteen digits spell, each behind a byte of 0, or none where one is no digit.
fn wide_sixteen(digits: u8x16) -> Option<[u8; 16]>
    ensures is { result ≡ option_map (colour_bytes 1) (row digits) }
    ensures long { IfSome result (λ part. length part ≡ 16) }
{
    let values = digit_values(digits);
    if has_other(values) {
        return None;
    }
    Some(paired(values).to_array())
}

/// Whether one of the values is that of a byte that is no digit.
fn has_other(values: u8x16) -> bool
    ensures yes { result ≡ true → mask_l (map (λ v. v == 16) values) ≢ 0 }
    ensures no { result ≡ false → mask_l (map (λ v. v == 16) values) ≡ 0 }
{
    values.simd_eq(u8x16::splat(16)).to_bitmask() != 0
}

/// The values of sixteen digits, as `digit_value` tells them. A byte that is none of `0` to `9` stands behind 15 from there.
fn digit_values(digits: u8x16) -> u8x16
    ensures { result ≡ map (λ c. unwrap_or (hex_digit c) 16) digits }
{
    let digit = (digits + u8x16::splat(198)).simd_max(u8x16::splat(6)) + u8x16::splat(10);
    let letter = (digits - u8x16::splat(b'a')).simd_min(digits - u8x16::splat(b'A'));
    digit.simd_min(letter.simd_min(u8x16::splat(6)) + u8x16::splat(10))
}

/// The bytes that each two digits of these values spell, behind a byte of 0. Two values are a number with the second in its high byte.
fn paired(values: u8x16) -> u8x16
    ensures { Each1 (λ v. v < 16) values → result ≡ wide_pairs values }
{
    let pairs = u16x8::from_le_bytes(values);
    ((pairs << 12) + ((pairs >> 8) << 8)).to_le_bytes()
}

/// The most bytes that a list line may have.
pub const POINT_LIMIT: usize = 64;

/// The point that a list line spells.
fn list_point(line: &[u8]) -> Option<Point>
    ensures { result ≡ (if nat_le (length line.now) 64 then point_of (words_of line.now) else None) }
{
    if line.len() > POINT_LIMIT {
        return None;
    }
    let words = few_words(line)?;
    match words.as_slice() {
        [x, y, label] => point_in(x, y, label),
        _ => None,
    }
}

fn point_in(x: &[u8], y: &[u8], label: &[u8]) -> Option<Point>
    ensures { result ≡ point (number 0 65535 x.now) (number 0 65535 y.now) (number 0 4294967295 label.now) }
{
    let x = number_of(0, 65535, x)?;
    let y = number_of(0, 65535, y)?;
    let label = number_of(0, u32::MAX, label)?;
    let at = Pixel {
        x: x as u16,
        y: y as u16,
    };
    Some(Point { at, label })
}

/// The points that all list lines spell, or none where one is not well formed.
pub fn list_points(alloc: Global, lines: &[&[u8]]) -> Result<Option<PointList>, AllocError>
    ensures { IfOk result (λ points. points ≡ points_joined (map (λ w. w.now) lines.now)) }
{
    let mut points = PointList::new(alloc);
    for line in lines {
        let Some(p) = list_point(line) else {
            return Ok(None);
        };
        points.push(p)?;
    }
    Ok(Some(points))
}

/// The colours that all rows of a raster spell, two bytes each with the high one first, or none where a row is not well formed:
/// in format 1 two digits a colour, and in format 2 four. The rows are read one after another into the same bytes.
pub fn raster_rows(
    alloc: Global,
    format: u8,
    width: usize,
    lines: &[&[u8]],
) -> Result<Option<Text>, AllocError>
    ensures { IfOk result (λ rows. rows ≡ rows_joined format width (map (λ w. w.now) lines.now)) }
{
    let mut rows = Text::new(alloc);
    let mut bytes = Vec::new(alloc);
    for line in lines {
        let is_row = row_colours(format, width, line, &mut bytes)?;
        if !is_row {
            return Ok(None);
        }
        rows.push(&bytes)?;
    }
    Ok(Some(rows))
}

/// Puts the colours that one row spells in the place of some bytes. Says whether it is well formed; else the bytes are only given up.
fn row_colours(
    format: u8,
    width: usize,
    line: &[u8],
    bytes: &mut Vec<u8>,
) -> Result<bool, AllocError>
    ensures { IfOk result (λ is_row. (if is_row then Some bytes.new.items else None) ≡
        (if length line.now == 2 * format * width then option_map (colour_bytes format) (row line.now) else None)) }
{
    if line.len() as u128 != 2 * u128::from(format) * width as u128 {
        return Ok(false);
    }
    if format == 1 {
        wide_bytes(line, bytes)
    } else {
        row_bytes(line, bytes)
    }
}

/// Puts the bytes that pairs of hexadecimal digits spell in the place of some bytes. Says whether they are such; else the bytes are
/// only given up.
fn row_bytes(line: &[u8], bytes: &mut Vec<u8>) -> Result<bool, AllocError>
    ensures { IfOk result (λ is_row. (if is_row then Some bytes.new.items else None) ≡ row line.now) }
{
    if line.len() % 2 != 0 {
        return Ok(false);
    }
    bytes.resize(line.len() / 2, 0)?;
    Ok(read_pairs(line, bytes))
}

/// The same, each behind a byte of 0.
fn wide_bytes(line: &[u8], bytes: &mut Vec<u8>) -> Result<bool, AllocError>
    ensures { IfOk result (λ is_row. (if is_row then Some bytes.new.items else None) ≡ option_map (colour_bytes 1) (row line.now)) }
{
    if line.len() % 2 != 0 {
        return Ok(false);
    }
    bytes.resize(line.len(), 0)?;
    Ok(read_wide_pairs(line, bytes))
}

/// The rings that all ring lines spell, or none where one is not well formed.
pub fn ring_lines(alloc: Global, lines: &[&[u8]]) -> Result<Option<RingList>, AllocError>
    ensures { IfOk result (λ rings. rings ≡ rings_joined (map (λ w. w.now) lines.now)) }
{
    let mut rings = RingList::new(alloc);
    for line in lines {
        let Some(corners) = ring_corners(alloc, line)? else {
            return Ok(None);
        };
        push_ring(&mut rings, &corners)?;
    }
    Ok(Some(rings))
}

/// The corners that a ring line spells: at least three.
fn ring_corners(alloc: Global, line: &[u8]) -> Result<Option<Vec<Corner>>, AllocError>
    ensures { IfOk result (λ corners. option_map (λ v. v.items) corners ≡ ring_of line.now) }
{
    if line.len() > LINE_LIMIT {
        return Ok(None);
    }
    let words = line_words(alloc, line)?;
    if words.len() < 6 {
        return Ok(None);
    }
    corners_in(alloc, &words)
}

/// The corners that words spell, two each.
fn corners_in(alloc: Global, words: &[&[u8]]) -> Result<Option<Vec<Corner>>, AllocError>
    ensures { IfOk result (λ corners. option_map (λ v. v.items) corners ≡ corners_of (map (λ w. w.now) words.now)) }
{
    if words.len() % 2 != 0 {
        return Ok(None);
    }
    let mut corners = Vec::with_capacity(alloc, words.len() / 2)?;
    let mut i = 0;
    while i < words.len() {
        let Some(c) = corner_in(words[i], words[i + 1]) else {
            return Ok(None);
        };
        corners.push(c)?;
        i += 2;
    }
    Ok(Some(corners))
}

fn corner_in(x: &[u8], y: &[u8]) -> Option<Corner>
    ensures { result ≡ corner_of (number 0 65535 x.now) (number 0 65535 y.now) }
{
    let x = number_of(0, 65535, x)?;
    let y = number_of(0, 65535, y)?;
    Some(Corner {
        x: x as u16,
        y: y as u16,
    })
}

//! The further lines that a line asks for.
ghost use Rattle.std.specs.Prelude.{◌≡◌, ◌<◌, ◌≤◌, ◌^◌, ◌==◌, ◌||◌, ℕ, false, codes, length, map, IfOk, IfSome};
ghost use Rattle.std.specs.Str.{bytes_eq};
ghost use Rattle.quilt_types.specs.Plane.{side};
ghost use Rattle.quilt_words.specs.Items.{asked, asked_by, begins_with, words_of};
ghost use Rattle.quilt_lang.specs.Cutting.{IsAsked, limit_of, further_count};
ghost use Rattle.quilt_lang.specs.declared.asked.Asked.TheVariants as kinds;
ghost use Rattle.quilt_lang.specs.Reading.{enough_of, row_limit};
ghost use Rattle.quilt_lang.specs.Shortening.{bounds};

use crate::spelled::{POINT_LIMIT, listed};
use quilt_words::{LINE_LIMIT, first_word, is_plain_line, line_words};
use std::alloc::{AllocError, Global};

/// The further lines that a line asks for.
#[derive(Clone, Copy)]
pub enum Asked {
    Nothing,
    /// A row for each row of the square.
    Rows,
    /// So many list lines.
    Points(u32),
    /// So many ring lines.
    Rings(u32),
}

impl Asked {
    /// Whether they are so many.
    fn is_number(self, level: u8, count: usize) -> bool
        ensures { result ≡ (count == further_count level self) }
    {
        match self {
            Asked::Nothing => count == 0,
            Asked::Rows => is_side(level, count),
            Asked::Points(k) => is_count(k, count),
            Asked::Rings(k) => is_count(k, count),
        }
    }

    /// So many bytes of one of them, and no more than show that it is too long.
    pub fn enough_of(self, level: u8, len: usize) -> usize
        ensures { result ≡ enough_of (limit_of level self) len }
    {
        match self {
            Asked::Nothing => len,
            Asked::Rows => enough_of_row(level, len),
            Asked::Points(_) => len.min(POINT_LIMIT + 1),
            Asked::Rings(_) => len.min(LINE_LIMIT + 1),
        }
    }

    /// The most bytes that one of them may have, and how many are missing where so many stand there.
    pub fn bounds(self, level: u8, count: usize) -> Option<(usize, usize)>
        ensures is { result ≡ bounds level self count }
        ensures low { IfSome result (λ b. b.0 < 2 ^ 63) }
    {
        match self {
            Asked::Nothing => None,
            Asked::Rows => row_bounds(level, count),
            Asked::Points(k) => Some((POINT_LIMIT, (k as usize).saturating_sub(count))),
            Asked::Rings(k) => Some((LINE_LIMIT, (k as usize).saturating_sub(count))),
        }
    }

    /// Whether so many lines are all of them, or no more can come.
    pub fn is_met(self, level: u8, count: usize, ended: bool) -> bool
        ensures { result ≡ (ended || (count == further_count level self)) }
    {
        ended || self.is_number(level, count)
    }
}

/// The highest level at which a row has a greatest length.
const ROW_LEVEL: u8 = 16;

/// The most bytes that a row may have in a format up to 2.
fn row_limit(level: u8) -> Option<usize>
    ensures is { result ≡ row_limit level }
    ensures low { IfSome result (λ most. most ≤ 262144) }
{
    if level > ROW_LEVEL {
        return None;
    }
    let side = 1_usize << level;
    Some(4 * side)
}

/// So many bytes of a row, and no more than show that it is too long.
fn enough_of_row(level: u8, len: usize) -> usize
    ensures { result ≡ enough_of (row_limit level) len }
{
    match row_limit(level) {
        Some(most) => len.min(most + 1),
        None => len,
    }
}

/// The most bytes that a row may have, and how many are missing where so many stand there.
fn row_bounds(level: u8, count: usize) -> Option<(usize, usize)>
    ensures is { result ≡ bounds level kinds.Rows count }
    ensures low { IfSome result (λ b. b.0 < 2 ^ 63) }
{
    if level > ROW_LEVEL {
        return None;
    }
    let side = 1_usize << level;
    Some((4 * side, side.saturating_sub(count)))
}

/// Whether so many lines are a row for each row of the square.
#[tactic(auto, using(crate::proofs::Asking::far_side, crate::proofs::Asking::near_side))]
pub fn is_side(level: u8, count: usize) -> bool
    ensures { result ≡ (count == side level) }
{
    if level > 63 {
        return false;
    }
    count == 1 << level
}

/// Whether so many lines are k.
pub fn is_count(k: u32, count: usize) -> bool
    ensures { result ≡ (count == k) }
{
    count == k as usize
}

/// Whether a line begins with a word that asks for further lines.
fn begins_asking(line: &[u8]) -> bool
    ensures { result ≡ (begins_with (words_of line.now) (codes "raster") || begins_with (words_of line.now) (codes "scatter")
        || begins_with (words_of line.now) (codes "polygon")) }
{
    match first_word(line) {
        Some((word, _)) => is_asking(word),
        None => false,
    }
}

/// Whether a word asks for further lines.
fn is_asking(word: &[u8]) -> bool
    ensures { result ≡ (bytes_eq word.now (codes "raster") || bytes_eq word.now (codes "scatter") || bytes_eq word.now (codes "polygon")) }
{
    word == b"raster".as_slice() || word == b"scatter".as_slice() || word == b"polygon".as_slice()
}

/// What a line asks for. It takes no memory where the line does not begin with a word that asks.
pub fn further_asked(alloc: Global, line: &[u8]) -> Result<Asked, AllocError>
    ensures { IfOk result (λ what. (n : ℕ) → IsAsked n (asked n line.now) (words_of line.now) what) }
{
    if !begins_asking(line) {
        return Ok(Asked::Nothing);
    }
    if line.len() > LINE_LIMIT {
        return Ok(Asked::Nothing);
    }
    if !is_plain_line(line) {
        return Ok(Asked::Nothing);
    }
    let words = line_words(alloc, line)?;
    Ok(asked_by_words(&words))
}

/// What words ask for.
pub fn asked_by_words(words: &[&[u8]]) -> Asked
    ensures { (n : ℕ) → IsAsked n (asked_by n (map (λ w. w.now) words.now)) (map (λ w. w.now) words.now) result }
{
    if is_raster(words) {
        Asked::Rows
    } else {
        asked_lists(words)
    }
}

fn asked_lists(words: &[&[u8]]) -> Asked
    requires { begins_with (map (λ w. w.now) words.now) (codes "raster") ≡ false }
    ensures { (n : ℕ) → IsAsked n (asked_by n (map (λ w. w.now) words.now)) (map (λ w. w.now) words.now) result }
{
    let count = listed(words);
    if count == 0 {
        Asked::Nothing
    } else if is_scatter(words) {
        Asked::Points(count)
    } else {
        Asked::Rings(count)
    }
}

fn is_raster(words: &[&[u8]]) -> bool
    ensures { result ≡ begins_with (map (λ w. w.now) words.now) (codes "raster") }
{
    match words {
        [word, ..] => *word == b"raster".as_slice(),
        [] => false,
    }
}

fn is_scatter(words: &[&[u8]]) -> bool
    ensures { result ≡ begins_with (map (λ w. w.now) words.now) (codes "scatter") }
{
    match words {
        [word, ..] => *word == b"scatter".as_slice(),
        [] => false,
    }
}

//! Where the item at the front of a text stands: a line, with the further lines that there are of those that it asks for.
ghost use Rattle.std.specs.Prelude.{◌≡◌, ◌+◌, ◌≤◌, false, [], ◌∷◌, length, take, drop, map, IfOk, IfSome, MatchOption};
ghost use Rattle.quilt_words.specs.Items.{whole_lines};
ghost use Rattle.quilt_lang.specs.Reading.{Gives, GivesItem, HasNone, begins_silent};
ghost use Rattle.quilt_lang.specs.Cutting.{CutsUpTo, HasRaster, grouped, further_count};
ghost use Rattle.quilt_lang.specs.Progress.{IsFrontLine, IsFront, IsProgress, IsUncut, IsWaiting};

use crate::asked::{Asked, further_asked};
use crate::first_line::{first_line, line_len};
use crate::held::item_of;
use crate::line_count::{count_lines, further_len};
use crate::progress::{CutLines, Progress, Waiting};
use crate::rows::OVER_LEVEL;
use quilt_words::Item;
use std::alloc::{AllocError, Global};

/// What stands at the front of a text.
#[derive(Clone, Copy)]
pub enum Front {
    /// The line of an item: so many bytes, and what it asks for. Its further lines all stand there with their newlines, or the
    /// input has ended.
    There(usize, Asked),
    /// No item that can be given yet, and how far it is cut.
    Waits(Progress),
}

/// Where the item at the front stands, where all of its lines stand there with their newlines, or where the input has ended.
pub fn find_front(
    alloc: Global,
    level: u8,
    text: &[u8],
    progress: Progress,
    ended: bool,
) -> Result<Front, AllocError>
    requires loud { begins_silent text.now ≡ false }
    requires cut { IsProgress level progress text.now }
    ensures { IfOk result (IsFront ended level text.now) }
{
    match progress {
        Progress::Waiting(waiting) => Ok(waiting_front(level, text, waiting, ended)),
        Progress::Begun(scanned) => begun_front(alloc, level, text, scanned, ended),
    }
}

/// The same where the line that begins the item is not cut yet, and so many bytes have no newline.
fn begun_front(
    alloc: Global,
    level: u8,
    text: &[u8],
    scanned: usize,
    ended: bool,
) -> Result<Front, AllocError>
    requires loud { begins_silent text.now ≡ false }
    requires cut { IsUncut scanned text.now }
    ensures { IfOk result (IsFront ended level text.now) }
{
    let Some(line) = line_len(text, scanned, ended) else {
        return Ok(Front::Waits(Progress::Begun(text.len())));
    };
    let what = further_asked(alloc, &text[..line])?;
    let cut = CutLines::NONE;
    let waiting = Waiting { line, what, cut };
    Ok(waiting_front(level, text, waiting, ended))
}

/// The same where the line that begins the item is cut.
fn waiting_front(level: u8, text: &[u8], waiting: Waiting, ended: bool) -> Front
    requires { IsWaiting ended level waiting text.now }
    ensures { IsFront ended level text.now result }
{
    match waits_on(level, text, waiting, ended) {
        Some(progress) => Front::Waits(progress),
        None => Front::There(waiting.line, waiting.what),
    }
}

/// The item at the front, whose line has so many bytes and asks for this, and how many bytes all of its lines have.
pub fn front_item(
    alloc: Global,
    level: u8,
    format: u8,
    text: &[u8],
    line: usize,
    what: Asked,
    ended: bool,
) -> Result<(Item, usize), AllocError>
    requires first { IsFrontLine ended level line what text.now }
    requires there { ended ≡ false → further_count level what ≤ length (whole_lines (drop (line + 1) text.now)) }
    ensures within { IfOk result (λ f. f.1 ≤ length text.now) }
    ensures gives { IfOk result (λ f. GivesItem ended level format f.0 text.now (drop f.1 text.now)) }
{
    let (more, len) = held_lines(alloc, level, text, line, what, ended)?;
    let item = item_of(alloc, level, format, &text[..line], what, &more)?;
    Ok((item, len))
}

/// How far an item is cut whose first line is cut, where it waits for further lines.
pub fn waits_on(level: u8, text: &[u8], waiting: Waiting, ended: bool) -> Option<Progress>
    requires { IsWaiting ended level waiting text.now }
    ensures { MatchOption result (ended ≡ false → further_count level waiting.what ≤ length (whole_lines (drop (waiting.line + 1) text.now)))
        (λ progress. HasNone ended level text.now × IsProgress level progress text.now) }
{
    if ended {
        return None;
    }
    let Waiting { line, what, cut } = waiting;
    if what.is_met(level, cut.count, false) {
        return None;
    }
    let behind = &text[line + 1..];
    let cut = count_lines(level, what, behind, cut);
    if !what.is_met(level, cut.count, false) {
        return Some(Progress::Waiting(Waiting { line, what, cut }));
    }
    None
}

/// The further lines of the item at the front, which are all there, or as many as there are where the input has ended; and how
/// many bytes all of its lines have.
pub fn held_lines<'a>(
    alloc: Global,
    level: u8,
    text: &'a [u8],
    line: usize,
    what: Asked,
    ended: bool,
) -> Result<(Vec<&'a [u8]>, usize), AllocError>
    requires first { IsFrontLine ended level line what text.now }
    requires there { ended ≡ false → further_count level what ≤ length (whole_lines (drop (line + 1) text.now)) }
    ensures within { IfOk result (λ f. f.1 ≤ length text.now) }
    ensures gives { IfOk result (λ f. Gives ended level (grouped (take line text.now) (map (λ w. w.now) f.0.items) ∷ []) text.now (drop f.1 text.now)) }
{
    let from = text.len().min(line + 1);
    let (more, len) = further_lines(alloc, level, what, &text[from..], ended)?;
    Ok((more, from + len))
}

/// The lines at the front, as many as are asked for or as there are, and the number of their bytes.
fn further_lines<'a>(
    alloc: Global,
    level: u8,
    what: Asked,
    text: &'a [u8],
    ended: bool,
) -> Result<(Vec<&'a [u8]>, usize), AllocError>
    ensures is { IfOk result (λ f. CutsUpTo ended (further_count level what) (map (λ w. w.now) f.0.items) text.now (drop f.1 text.now)) }
    ensures within { IfOk result (λ f. f.1 ≤ length text.now) }
{
    let mut lines = Vec::new(alloc);
    let mut len = 0;
    while !what.is_met(level, lines.len(), false) {
        let rest = &text[len..];
        let Some(k) = first_line(rest, ended) else {
            return Ok((lines, len));
        };
        lines.push(&rest[..k])?;
        len += rest.len().min(k + 1);
    }
    Ok((lines, len))
}

/// How many bytes the lines of the item at the front have, whose line has so many and asks for this, where its rows are to be read
/// over their own digits: rows of up to 65,536 pixels, which are no shorter than what stands behind them, since that is copied.
pub fn raster_len(level: u8, text: &[u8], line: usize, what: Asked, ended: bool) -> Option<usize>
    requires first { line ≤ length text.now }
    requires there { ended ≡ false → further_count level what ≤ length (whole_lines (drop (line + 1) text.now)) }
    ensures { IfSome result (λ len. HasRaster ended level line what len text.now) }
{
    let Asked::Rows = what else {
        return None;
    };
    if level > OVER_LEVEL {
        return None;
    }
    let from = text.len().min(line + 1);
    let len = from + further_len(level, what, &text[from..], ended);
    if text.len() - len > len {
        return None;
    }
    Some(len)
}

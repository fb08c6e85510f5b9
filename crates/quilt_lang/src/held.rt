//! What an item holds: its line, and what its further lines spell.
ghost use Rattle.std.specs.Prelude.{◌≡◌, map, IfOk};
ghost use Rattle.quilt_words.specs.Items.{asked, held, words_of, rows_of, points_of, rings_of};
ghost use Rattle.quilt_lang.specs.Cutting.{IsAsked, grouped, holding};

use crate::asked::{Asked, is_count, is_side};
use crate::spelled::{list_points, raster_rows, ring_lines};
use quilt_types::{PointList, RingList, Text};
use quilt_words::{Item, LINE_LIMIT};
use std::alloc::{AllocError, Global};

/// The item that a line is with these further lines, read in the format, where it asks for such.
pub fn item_of(
    alloc: Global,
    level: u8,
    format: u8,
    line: &[u8],
    what: Asked,
    more: &[&[u8]],
) -> Result<Item, AllocError>
    requires { IsAsked level (asked level line.now) (words_of line.now) what }
    ensures { IfOk result (λ item. item ≡ held format level (grouped line.now (map (λ w. w.now) more.now))) }
{
    if line.len() > LINE_LIMIT {
        return Ok(Item::Long);
    }
    let mut text = Text::new(alloc);
    text.push(line)?;
    item_with(alloc, level, format, text, what, more)
}

/// The item that a line is which is not too long.
fn item_with(
    alloc: Global,
    level: u8,
    format: u8,
    line: Text,
    what: Asked,
    more: &[&[u8]],
) -> Result<Item, AllocError>
    ensures { IfOk result (λ item. item ≡ holding format level line (map (λ w. w.now) more.now) what) }
{
    match what {
        Asked::Nothing => Ok(Item::Line(line)),
        Asked::Rows => {
            let rows = rows_in(alloc, level, format, more)?;
            Ok(Item::Rows(line, rows))
        }
        Asked::Points(k) => {
            let points = points_in(alloc, k, more)?;
            Ok(Item::PointLines(line, points))
        }
        Asked::Rings(k) => {
            let rings = rings_in(alloc, k, more)?;
            Ok(Item::RingLines(line, rings))
        }
    }
}

/// The colours of the rows, or none where one is missing or not well formed.
pub fn rows_in(
    alloc: Global,
    level: u8,
    format: u8,
    more: &[&[u8]],
) -> Result<Option<Text>, AllocError>
    ensures { IfOk result (λ rows. rows ≡ rows_of format level (map (λ w. w.now) more.now)) }
{
    if !is_side(level, more.len()) {
        return Ok(None);
    }
    raster_rows(alloc, format, more.len(), more)
}

/// The points of k list lines, or none where one is missing or not well formed.
pub fn points_in(alloc: Global, k: u32, more: &[&[u8]]) -> Result<Option<PointList>, AllocError>
    ensures { IfOk result (λ points. points ≡ points_of k (map (λ w. w.now) more.now)) }
{
    if !is_count(k, more.len()) {
        return Ok(None);
    }
    list_points(alloc, more)
}

/// The rings of k ring lines, or none where one is missing or not well formed.
pub fn rings_in(alloc: Global, k: u32, more: &[&[u8]]) -> Result<Option<RingList>, AllocError>
    ensures { IfOk result (λ rings. rings ≡ rings_of k (map (λ w. w.now) more.now)) }
{
    if !is_count(k, more.len()) {
        return Ok(None);
    }
    ring_lines(alloc, more)
}

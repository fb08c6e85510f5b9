ghost use Rattle.std.specs.Prelude.{◌≡◌, ◌↔◌, ℕ, ◌+◌, ◌*◌, ◌<◌, ◌≤◌, IsTrue, IsNone, IfSome, length, IfOk};
ghost use Rattle.quilt_types.specs.Plane.{side as side_of, whole};
ghost use Rattle.quilt_types.specs.Layers.{Grid};
ghost use Rattle.quilt_blocks.specs.Cutting.{leaves_by_code};
ghost use Rattle.quilt_raster.specs.Bytes.{cell_colours};
ghost use Rattle.quilt_tally.specs.Tallies.{AreTallies};
ghost use Rattle.quilt_par.specs.Parts.{IsCounted, quadrant_at};

use crate::gate::Gate;
use crate::part::{CountedPart, merged};
use crate::square::part_of;
use quilt_blocks::LeafList;
use quilt_tally::{Tally, is_few, joined};
use std::alloc::{AllocError, Global};
use std::thread::{Threads, join};

/// The leaves of a raster, as `leaves_of` gives them: the colours of a square of a level from 1 to 12, row by row, in two
/// bytes each, the high one first. Each quadrant's list is made by itself, in a thread of its own where one can be made,
/// and the four lists are then put together. Each quadrant's number passes the gate once, before the work on it.
pub fn leaves_of_par<R: Threads + Sync, G: Gate + Sync>(
    rt: &R,
    gate: &G,
    alloc: Global,
    colours: &[u8],
    level: u8,
) -> Result<LeafList, AllocError>
    requires least { 1 ≤ level }
    requires most { level ≤ 12 }
    requires all { length colours.now ≡ 2 * (side_of level * side_of level) }
    ensures { IfOk result (λ list. list ≡ record { level = level; grid = cell_colours colours.now }) }
{
    match few_leaves_of_par(rt, gate, alloc, colours, level, u32::MAX)? {
        Some(list) => Ok(list),
        None => unreachable!(),
    }
}

/// The same list where it has at most so many leaves, or None where it has more. No quadrant then lists many more than that,
/// and the lists are not put together.
pub fn few_leaves_of_par<R: Threads + Sync, G: Gate + Sync>(
    rt: &R,
    gate: &G,
    alloc: Global,
    colours: &[u8],
    level: u8,
    most: u32,
) -> Result<Option<LeafList>, AllocError>
    requires least { 1 ≤ level }
    requires high { level ≤ 12 }
    requires all { length colours.now ≡ 2 * (side_of level * side_of level) }
    ensures some { IfOk result (λ found. IfSome found (λ list. list ≡ record { level = level; grid = cell_colours colours.now })) }
    ensures none { IfOk result (λ found. IsNone found ↔ (most < length (leaves_by_code level (cell_colours colours.now)))) }
{
    let Some(four) = four_parts(rt, gate, alloc, colours, level, most)? else {
        return Ok(None);
    };
    let ((first, second), (third, fourth)) = four;
    if !are_few(first.tally, second.tally, third.tally, fourth.tally, most) {
        return Ok(None);
    }
    let parts = [first.part, second.part, third.part, fourth.part];
    let list = merged(alloc, level, &parts)?;
    Ok(Some(list))
}

/// Whether a square has at most so many leaves, by what is known of its quadrants.
fn are_few(first: Tally, second: Tally, third: Tally, last: Tally, most: u32) -> bool
    ensures { (n : ℕ) (g : Grid) → 1 ≤ n → n ≤ 12 → AreTallies n g (whole n) first second third last
        → IsTrue result ↔ (length (leaves_by_code n g) ≤ most) }
{
    match joined(first, second, third, last, most) {
        Some(t) => is_few(t, most),
        None => false,
    }
}

/// What a raster has in its four quadrants, the two in its upper half and the two in its lower one, or None where it has more
/// leaves than the most.
fn four_parts<R: Threads + Sync, G: Gate + Sync>(
    rt: &R,
    gate: &G,
    alloc: Global,
    colours: &[u8],
    level: u8,
    most: u32,
) -> Result<Option<((CountedPart, CountedPart), (CountedPart, CountedPart))>, AllocError>
    requires least { 1 ≤ level }
    requires high { level ≤ 12 }
    requires all { length colours.now ≡ 2 * (side_of level * side_of level) }
    ensures first { IfOk result (λ found. IfSome found (λ parts. IsCounted level (cell_colours colours.now) (quadrant_at level 0) (parts.0).0)) }
    ensures second { IfOk result (λ found. IfSome found (λ parts. IsCounted level (cell_colours colours.now) (quadrant_at level 1) (parts.0).1)) }
    ensures third { IfOk result (λ found. IfSome found (λ parts. IsCounted level (cell_colours colours.now) (quadrant_at level 2) (parts.1).0)) }
    ensures fourth { IfOk result (λ found. IfSome found (λ parts. IsCounted level (cell_colours colours.now) (quadrant_at level 3) (parts.1).1)) }
    ensures none { IfOk result (λ found. IsNone found → most < length (leaves_by_code level (cell_colours colours.now))) }
{
    let (upper, lower) = join(
        rt,
        ||
            requires least { 1 ≤ level }
            requires high { level ≤ 12 }
            requires all { length colours.now ≡ 2 * (side_of level * side_of level) }
        { two_parts(rt, gate, alloc, colours, level, 0, most) },
        ||
            requires least { 1 ≤ level }
            requires high { level ≤ 12 }
            requires all { length colours.now ≡ 2 * (side_of level * side_of level) }
        { two_parts(rt, gate, alloc, colours, level, 2, most) },
    );
    let (upper, lower) = (upper?, lower?);
    Ok(upper.zip(lower))
}

/// What a raster has in the quadrant of this number and in the next one, each in a thread of its own where one can be made, or
/// None where it has more leaves than the most.
fn two_parts<R: Threads + Sync, G: Gate + Sync>(
    rt: &R,
    gate: &G,
    alloc: Global,
    colours: &[u8],
    level: u8,
    number: u8,
    most: u32,
) -> Result<Option<(CountedPart, CountedPart)>, AllocError>
    requires least { 1 ≤ level }
    requires high { level ≤ 12 }
    requires all { length colours.now ≡ 2 * (side_of level * side_of level) }
    requires three { number < 3 }
    ensures left { IfOk result (λ found. IfSome found (λ parts. IsCounted level (cell_colours colours.now) (quadrant_at level number) parts.0)) }
    ensures right { IfOk result (λ found. IfSome found (λ parts. IsCounted level (cell_colours colours.now) (quadrant_at level (number + 1)) parts.1)) }
    ensures none { IfOk result (λ found. IsNone found → most < length (leaves_by_code level (cell_colours colours.now))) }
{
    let next = number + 1;
    let (left, right) = join(
        rt,
        || part_of(gate, alloc, colours, level, number, most),
        || part_of(gate, alloc, colours, level, next, most),
    );
    let (left, right) = (left?, right?);
    Ok(left.zip(right))
}

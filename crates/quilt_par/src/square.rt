ghost use Rattle.std.specs.Prelude.{◌≡◌, ℕ, ◌+◌, ◌*◌, ◌<◌, ◌≤◌, length, IfOk, IfSome, IsNone};
ghost use Rattle.quilt_types.specs.Plane.{side as side_of, IsBlock};
ghost use Rattle.quilt_blocks.specs.Cutting.{leaves_by_code};
ghost use Rattle.quilt_raster.specs.Bytes.{cell_colours};
ghost use Rattle.quilt_tally.specs.Tallies.{HasPast};
ghost use Rattle.quilt_par.specs.Parts.{IsCounted, quadrant_at};

use crate::counted::add_counted;
use crate::gate::Gate;
use crate::part::{CountedPart, Part};
use quilt_blocks::Maker;
use quilt_loc::{quarters, whole_square};
use quilt_raster::colour_in;
use quilt_tally::Tally;
use quilt_types::{Block, Pixel};
use std::alloc::{AllocError, Global};

/// The quadrant of this number of the square of a level from 1 to 12, in the order of the codes.
pub(crate) fn quadrant(level: u8, number: u8) -> Block
    requires least { 1 ≤ level }
    requires most { level ≤ 12 }
    requires four { number < 4 }
    ensures value { result ≡ quadrant_at level number }
    ensures valid { IsBlock level result }
    ensures half { 2 * result.side ≡ side_of level }
{
    quarters(whole_square(level))[usize::from(number)]
}

/// What a raster has in the quadrant of this number, after the number has passed the gate, or None where the whole raster has
/// more leaves than the most.
pub(crate) fn part_of<G: Gate>(
    gate: &G,
    alloc: Global,
    colours: &[u8],
    level: u8,
    number: u8,
    most: u32,
) -> Result<Option<CountedPart>, AllocError>
    requires least { 1 ≤ level }
    requires high { level ≤ 12 }
    requires all { length colours.now ≡ 2 * (side_of level * side_of level) }
    requires four { number < 4 }
    ensures some { IfOk result (λ part. IfSome part (IsCounted level (cell_colours colours.now) (quadrant_at level number))) }
    ensures none { IfOk result (λ part. IsNone part → most < length (leaves_by_code level (cell_colours colours.now))) }
{
    gate.pass(number);
    let block = quadrant(level, number);
    if level == 1 {
        let place = 2 * usize::from(block.y) + usize::from(block.x);
        let colour = colour_in(colours, place);
        Ok(Some(CountedPart {
            part: Part::Single(colour),
            tally: Tally::One(colour),
        }))
    } else {
        square_of(alloc, colours, level, block, most)
    }
}

/// The leaves of a quadrant, as those of a square of its own, or None where it has more than the most.
fn square_of(
    alloc: Global,
    colours: &[u8],
    level: u8,
    b: Block,
    most: u32,
) -> Result<Option<CountedPart>, AllocError>
    requires least { 2 ≤ level }
    requires high { level ≤ 12 }
    requires all { length colours.now ≡ 2 * (side_of level * side_of level) }
    requires valid { IsBlock level b }
    requires half { 2 * b.side ≡ side_of level }
    ensures some { IfOk result (λ part. IfSome part (IsCounted level (cell_colours colours.now) b)) }
    ensures past { IfOk result (λ part. IsNone part → HasPast level (cell_colours colours.now) b most) }
{
    let corner = Pixel { x: b.x, y: b.y };
    let whole = whole_square(level - 1);
    let mut maker = Maker::new(alloc, level - 1);
    let Some(tally) = add_counted(&mut maker, colours, level, corner, whole, most)? else {
        return Ok(None);
    };
    let part = Part::Leaves(maker.finish());
    Ok(Some(CountedPart { part, tally }))
}

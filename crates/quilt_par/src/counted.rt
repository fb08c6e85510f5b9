ghost use Rattle.std.specs.Prelude.{◌≡◌, ℕ, ◌+◌, ◌*◌, ◌≤◌, length, IfOk, IfSome, IsNone};
ghost use Rattle.quilt_types.specs.Plane.{side as side_of, IsBlock};
ghost use Rattle.quilt_loc.specs.Codes.{code_from, code_to};
ghost use Rattle.quilt_blocks.specs.Adding.{AddsColours};
ghost use Rattle.quilt_raster.specs.Bytes.{cell_colours, from_corner};
ghost use Rattle.quilt_tally.specs.Tallies.{IsTally, HasPast};
ghost use Rattle.quilt_par.specs.Parts.{at_corner};

use quilt_blocks::Maker;
use quilt_loc::quarters;
use quilt_raster::one_colour;
use quilt_tally::{Tally, joined, room_beside};
use quilt_types::{Block, Pixel};
use std::alloc::AllocError;

/// Puts the pixels of a block down, in squares of one colour, and tells what is known of its leaves. The block is one of the
/// maker's square, which lies in the raster of this level with its upper left pixel at the corner, and begins at the code at
/// which the last one ended. None where it has more leaves than the most, as soon as that many were met.
pub(crate) fn add_counted(
    maker: &mut Maker,
    colours: &[u8],
    level: u8,
    corner: Pixel,
    b: Block,
    most: u32,
) -> Result<Option<Tally>, AllocError>
    requires high { level ≤ 12 }
    requires all { length colours.now ≡ 2 * (side_of level * side_of level) }
    requires low { maker.old.level ≤ level }
    requires in_x { corner.x + side_of maker.old.level ≤ side_of level }
    requires in_y { corner.y + side_of maker.old.level ≤ side_of level }
    requires valid { IsBlock maker.old.level b }
    requires next { code_from b ≡ length maker.old.colours }
    ensures added { IfOk result (λ tally. IfSome tally (λ t.
        AddsColours maker.old.level (from_corner level (cell_colours colours.now) corner) (code_to b) maker.old maker.new)) }
    ensures tallied { IsBlock level (at_corner corner b) → IfOk result (λ tally. IfSome tally (IsTally level (cell_colours colours.now) (at_corner corner b))) }
    ensures past { IsBlock level (at_corner corner b) → IfOk result (λ tally. IsNone tally → HasPast level (cell_colours colours.now) (at_corner corner b) most) }
{
    let square = Block {
        x: corner.x + b.x,
        y: corner.y + b.y,
        side: b.side,
    };
    if let Some(colour) = one_colour(colours, level, square) {
        maker.push(b, colour)?;
        return Ok(Some(Tally::One(colour)));
    }
    let four = quarters(b);
    let mut tallies = [Tally::Many(0); 4];
    let mut room = most;
    for place in 0..4_usize {
        let Some(t) = add_counted(maker, colours, level, corner, four[place], room)? else {
            return Ok(None);
        };
        tallies[place] = t;
        room = room_beside(t, room);
    }
    Ok(joined(tallies[0], tallies[1], tallies[2], tallies[3], most))
}

ghost use Rattle.std.specs.Prelude.{◌↔◌, ℕ, ◌<◌, ◌≤◌, IsTrue, IsNone, IfSome, length};
ghost use Rattle.quilt_types.specs.Plane.{IsBlock};
ghost use Rattle.quilt_blocks.specs.Cutting.{leaves_by_code};
ghost use Rattle.quilt_tally.specs.Tallies.{HasLeaves, IsTally};

use crate::pixels::Pixels;
use crate::tally::{Tally, is_few, joined};
use quilt_loc::{quarters, whole_square};
use quilt_types::Block;

/// Whether the square of a level up to 12 has at most so many leaves. It takes no memory, and ends at the first block that has
/// more of them.
pub fn has_few_leaves<P: Pixels>(pixels: &P, level: u8, most: u32) -> bool
    requires high { level ≤ 12 }
    requires whole { P.is_whole pixels.now level }
    ensures { IsTrue result ↔ (length (leaves_by_code level (P.grid pixels.now level)) ≤ most) }
{
    match tally(pixels, level, whole_square(level), most) {
        Some(t) => is_few(t, most),
        None => false,
    }
}

/// What is known of a block's leaves, or None where there are more than so many. It ends at the first part that has more.
fn tally<P: Pixels>(pixels: &P, level: u8, square: Block, most: u32) -> Option<Tally>
    requires high { level ≤ 12 }
    requires whole { P.is_whole pixels.now level }
    requires valid { IsBlock level square }
    ensures some { IfSome result (IsTally level (P.grid pixels.now level) square) }
    ensures none { IsNone result → (k : ℕ) → HasLeaves level (P.grid pixels.now level) square k → most < k }
{
    if let Some(colour) = pixels.one_colour(level, square) {
        return Some(Tally::One(colour));
    }
    let four = quarters(square);
    let mut tallies = [Tally::Many(0); 4];
    for place in 0..4_usize {
        tallies[place] = tally(pixels, level, four[place], most)?;
    }
    joined(tallies[0], tallies[1], tallies[2], tallies[3], most)
}

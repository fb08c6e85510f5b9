ghost use Rattle.std.specs.Prelude.{ℕ, ◌<◌, ◌≤◌, IsNone, IfSome};
ghost use Rattle.quilt_types.specs.Plane.{IsBlock};
ghost use Rattle.quilt_types.specs.Layers.{Grid};
ghost use Rattle.quilt_blocks.specs.Mosaic.{HasColour};

use quilt_types::{Block, Colour};

/// The pixels of a square, as a count of its leaves asks for them.
pub trait Pixels {
    /// Their colours, as the grid of a level.
    ghost grid: { Self → ℕ → Grid };

    /// All pixels of the square of a level are there.
    ghost is_whole: { Self → ℕ → Type 0 };

    /// The colour of all pixels of a block, or None where they have two, and where it is too large to be looked at.
    fn one_colour(&self, level: u8, square: Block) -> Option<Colour>
        requires high { level ≤ 12 }
        requires whole { is_whole self.now level }
        requires valid { IsBlock level square }
        ensures some { IfSome result (λ c. HasColour level (grid self.now level) square c.0) }
        ensures none { IsNone result → 1 < square.side };
}

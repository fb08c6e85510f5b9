ghost use Rattle.std.specs.Prelude.{◌≡◌, ◌<◌, ◌≤◌, ◌↔◌};
ghost use Rattle.quilt_types.specs.declared.plane.Pixel.{Pixel as PixelValue};
ghost use Rattle.quilt_types.specs.Plane.{Holds, IsBlock};
ghost use Rattle.quilt_loc.specs.Codes.{code_at, code_from, code_to};

use quilt_types::{Block, Pixel, code_of};

/// The code after the last one of the block. The block's pixels are exactly those with a code from its own, that of its
/// upper left pixel, up to and without this one.
pub fn end_of(b: Block) -> u32
    requires { IsBlock 12 b }
    ensures value { result ≡ code_to b }
    ensures pixels { (p : PixelValue) → p.x < 4096 → p.y < 4096 → Holds b p ↔ ((code_from b ≤ code_at p) × (code_at p < result)) }
{
    let side = u32::from(b.side);
    code_of(Pixel { x: b.x, y: b.y }) + side * side
}

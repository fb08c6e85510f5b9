ghost use Rattle.std.specs.Prelude.{◌≡◌, ◌-◌, ◌%◌, ◌<◌, ◌≤◌, ◌↔◌, IsNone, IfSome};
ghost use Rattle.quilt_types.specs.Plane.{side as side_of, in_block, parent_of, quarters_of, whole, Holds, IsBlock};
ghost use Rattle.quilt_loc.specs.Codes.{IsSide, Rises, code_cmp};

use quilt_types::{Block, Pixel};

/// The whole square of a level.
pub fn whole_square(level: u8) -> Block
    requires { level ≤ 12 }
    ensures { result ≡ whole level }
{
    Block {
        x: 0,
        y: 0,
        side: 1 << level,
    }
}

/// The four blocks of half the side, in the order of their codes. The side is over 1.
pub fn quarters(b: Block) -> [Block; 4]
    requires valid { IsBlock 12 b }
    requires wide { 1 < b.side }
    ensures value { result ≡ quarters_of b }
    ensures order { Rises code_cmp result }
{
    let Block { x, y, side } = b;
    let half = side / 2;
    let quarter = |x, y| Block { x, y, side: half };
    [
        quarter(x, y),
        quarter(x + half, y),
        quarter(x, y + half),
        quarter(x + half, y + half),
    ]
}

/// The block of twice the side that holds it, and None for the whole square of the level.
pub fn parent(b: Block, level: u8) -> Option<Block>
    requires least { 1 ≤ level }
    requires most { level ≤ 12 }
    requires valid { IsBlock level b }
    ensures whole { IsNone result ↔ (b.side ≡ side_of level) }
    ensures value { IfSome result (λ q. q ≡ parent_of b) }
{
    if b.side == 1 << level {
        return None;
    }
    let twice = 2 * b.side;
    Some(Block {
        x: start(b.x, twice),
        y: start(b.y, twice),
        side: twice,
    })
}

/// Whether the pixel is one of the block's.
pub fn covers(b: Block, p: Pixel) -> bool
    requires { IsBlock 12 b }
    ensures { result ≡ in_block b p }
{
    b.x <= p.x && p.x < b.x + b.side && b.y <= p.y && p.y < b.y + b.side
}

/// The block of this side, a power of two up to 4096, that holds the pixel, whose coordinates are below 4096.
pub fn block_at(p: Pixel, side: u16) -> Block
    requires in_x { p.x < 4096 }
    requires in_y { p.y < 4096 }
    requires power { IsSide side }
    ensures valid { IsBlock 12 result }
    ensures size { result.side ≡ side }
    ensures held { Holds result p }
{
    Block {
        x: start(p.x, side),
        y: start(p.y, side),
        side,
    }
}

/// The last multiple of the side, a power of two up to 4096, that is no larger than the number.
fn start(x: u16, side: u16) -> u16
    requires { IsSide side }
    ensures { result ≡ x - x % side }
{
    x - (x & (side - 1))
}

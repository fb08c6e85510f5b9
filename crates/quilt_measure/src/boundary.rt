ghost use Rattle.std.specs.Prelude.{◌≡◌, ◌*◌, ◌<◌, ◌≤◌, sum_by};
ghost use Rattle.quilt_types.specs.Plane.{below, pixels_of, IsBlock};
ghost use Rattle.quilt_types.specs.Algebra.{edges_of, perimeter};
ghost use Rattle.quilt_blocks.specs.Mosaic.{HasColour};
ghost use Rattle.quilt_measure.specs.Edges.{place, differs, bare_side, behind_of, opposite_of, halves_of};

use quilt_blocks::LeafList;
use quilt_loc::quarters;
use quilt_types::{Block, Colour};

/// How many unit edges of pixels of the colour have a pixel of another colour or the outside behind them. It looks behind
/// each side of each leaf of the colour, block by block and not pixel by pixel (Samet 1990), by searches that begin at the
/// leaf's own place.
pub fn perimeter(a: &LeafList, c: Colour) -> u64
    ensures { result ≡ perimeter a.now.level a.now.grid c.0 }
{
    let mut sum = 0;
    for i in 0..a.len() {
        let leaf = a.leaf(i);
        if leaf.colour == c {
            sum += u64::from(edges_around(a, leaf.block, c, i));
        }
    }
    sum
}

/// A side of a block.
#[derive(Clone, Copy, Debug, PartialEq, Eq)]
enum Side {
    Left,
    Right,
    Top,
    Bottom,
}

impl Side {
    /// The side that a block behind this one turns to it.
    fn opposite(self) -> Side
        ensures { result ≡ opposite_of self }
    {
        match self {
            Side::Left => Side::Right,
            Side::Right => Side::Left,
            Side::Top => Side::Bottom,
            Side::Bottom => Side::Top,
        }
    }
}

/// The unit edges of the pixels of a block of this colour that count in the perimeter.
fn edges_around(a: &LeafList, b: Block, c: Colour, near: usize) -> u16
    requires small { a.now.level ≤ 12 }
    requires valid { IsBlock a.now.level b }
    requires colour { HasColour a.now.level a.now.grid b c.0 }
    ensures value { result ≡ sum_by (edges_of a.now.level a.now.grid) (pixels_of b) }
    ensures most { result ≤ 4 * b.side }
{
    edges_on(a, b, Side::Left, c, near)
        + edges_on(a, b, Side::Right, c, near)
        + edges_on(a, b, Side::Top, c, near)
        + edges_on(a, b, Side::Bottom, c, near)
}

/// The unit edges on one side of the block behind which is another colour than this or the outside.
fn edges_on(a: &LeafList, b: Block, on: Side, c: Colour, near: usize) -> u16
    requires valid { IsBlock a.now.level b }
    ensures value { result ≡ sum_by (λ t. bare_side on a.now.level a.now.grid c.0 (place on b t)) (below b.side) }
    ensures most { result ≤ b.side }
{
    match behind(b, on, a.level()) {
        Some(q) => other_along(a, q, on.opposite(), c, near),
        None => b.side,
    }
}

/// The block of the same size behind a side, or None where that is the outside.
fn behind(b: Block, on: Side, level: u8) -> Option<Block>
    requires most { level ≤ 12 }
    requires valid { IsBlock level b }
    ensures { result ≡ behind_of on level b }
{
    let Block { x, y, side } = b;
    let end = 1 << level;
    match on {
        Side::Left if x == 0 => None,
        Side::Left => Some(Block {
            x: x - side,
            y,
            side,
        }),
        Side::Right if x + side == end => None,
        Side::Right => Some(Block {
            x: x + side,
            y,
            side,
        }),
        Side::Top if y == 0 => None,
        Side::Top => Some(Block {
            x,
            y: y - side,
            side,
        }),
        Side::Bottom if y + side == end => None,
        Side::Bottom => Some(Block {
            x,
            y: y + side,
            side,
        }),
    }
}

/// How many pixels along a side of the block have another colour than this: all or none where the block has one colour,
/// and else those of its two quarters on that side.
fn other_along(a: &LeafList, b: Block, on: Side, c: Colour, near: usize) -> u16
    requires most { a.now.level ≤ 12 }
    requires valid { IsBlock a.now.level b }
    ensures value { result ≡ sum_by (λ t. differs a.now.level a.now.grid c.0 (place on b t)) (below b.side) }
    ensures most { result ≤ b.side }
{
    if let Some(d) = a.uniform_near(b, near) {
        return if d == c { 0 } else { b.side };
    }
    let (first, second) = halves(b, on);
    other_along(a, first, on, c, near) + other_along(a, second, on, c, near)
}

/// The two quarters of the block along one of its sides.
fn halves(b: Block, on: Side) -> (Block, Block)
    requires valid { IsBlock 12 b }
    requires wide { 1 < b.side }
    ensures { result ≡ halves_of on b }
{
    let [north_west, north_east, south_west, south_east] = quarters(b);
    match on {
        Side::Left => (north_west, south_west),
        Side::Right => (north_east, south_east),
        Side::Top => (north_west, north_east),
        Side::Bottom => (south_west, south_east),
    }
}

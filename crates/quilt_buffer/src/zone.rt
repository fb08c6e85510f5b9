ghost use Rattle.std.specs.Prelude.{◌≡◌, ◌<◌, ◌≤◌, length, IfOk, OnOk};
ghost use Rattle.quilt_types.specs.Plane.{IsBlock};
ghost use Rattle.quilt_types.specs.Algebra.{buffered};
ghost use Rattle.quilt_loc.specs.Codes.{code_from, code_to};
ghost use Rattle.quilt_blocks.specs.Cutting.{leaves_by_code};
ghost use Rattle.quilt_blocks.specs.Adding.{AddsColours};
ghost use Rattle.quilt_buffer.specs.Reach.{within_reach, blocks_with_colour};

use crate::reach::{blocks_near, is_covered};
use quilt_blocks::{Cursor, LeafList, Maker};
use quilt_loc::{quarters, whole_square};
use quilt_types::{Block, Colour};
use std::alloc::{AllocError, Global};

/// The leaves of the map that is 1 where a pixel of nonzero colour is within r, by the larger of the distances in x and
/// in y, and 0 elsewhere (Samet 1990).
///
/// A square is cut into quarters only where it meets a coloured leaf grown by r on each side and lies in none of them. So
/// the squares that are cut lie on the edges of the grown leaves, and their number grows with the length of those edges,
/// not with the pixels or with r. Each square looks at those coloured leaves alone that reach the square it was cut from.
pub fn buffer(alloc: Global, a: &LeafList, r: u16) -> Result<LeafList, AllocError>
    ensures { IfOk result (λ list. list ≡ record { level = a.now.level; grid = buffered a.now.level a.now.grid r }) }
{
    let level = a.level();
    let whole = whole_square(level);
    let blocks = coloured_blocks(alloc, a)?;
    let mut maker = Maker::new(alloc, level);
    fill(alloc, &mut maker, &blocks, r, whole)?;
    Ok(maker.finish())
}

/// The blocks of the leaves whose colour is not 0.
fn coloured_blocks(alloc: Global, a: &LeafList) -> Result<Vec<Block>, AllocError>
    ensures { IfOk result (λ v. v.items ≡ blocks_with_colour (leaves_by_code a.now.level a.now.grid)) }
{
    let mut blocks = Vec::new(alloc);
    let mut leaves = Cursor::new(a);
    while let Some(leaf) = leaves.next() {
        if leaf.colour != Colour(0) {
            blocks.push(leaf.block)?;
        }
    }
    Ok(blocks)
}

/// Puts the pixels of the square down: 1 where they are within r of one of the blocks, and else 0.
fn fill(
    alloc: Global,
    maker: &mut Maker,
    blocks: &[Block],
    r: u16,
    square: Block,
) -> Result<(), AllocError>
    requires most { maker.old.level ≤ 12 }
    requires valid { IsBlock maker.old.level square }
    requires next { code_from square ≡ length maker.old.colours }
    ensures { OnOk result (AddsColours maker.old.level (within_reach r blocks.now) (code_to square) maker.old maker.new) }
{
    if is_covered(blocks, r, square) {
        return maker.push(square, Colour(1));
    }
    let close = blocks_near(alloc, blocks, r, square)?;
    if close.is_empty() {
        return maker.push(square, Colour(0));
    }
    for quarter in quarters(square) {
        fill(alloc, maker, &close, r, quarter)?;
    }
    Ok(())
}

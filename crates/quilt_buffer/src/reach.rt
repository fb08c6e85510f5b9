ghost use Rattle.std.specs.Prelude.{◌≡◌, ◌+◌, filter, IfOk};
ghost use Rattle.std.specs.List.{list_any};
ghost use Rattle.quilt_buffer.specs.Reach.{reaches_some, reaches_all};

use quilt_types::Block;
use std::alloc::{AllocError, Global};

/// Whether all pixels of the square are within r of one of the blocks, the same for all.
pub(crate) fn is_covered(blocks: &[Block], r: u16, square: Block) -> bool
    ensures { result ≡ list_any (reaches_all r square) blocks.now }
{
    for block in blocks {
        if covers(*block, r, square) {
            return true;
        }
    }
    false
}

/// The blocks of which a pixel of the square is within r.
pub(crate) fn blocks_near(
    alloc: Global,
    blocks: &[Block],
    r: u16,
    square: Block,
) -> Result<Vec<Block>, AllocError>
    ensures { IfOk result (λ near. near.items ≡ filter (reaches_some r square) blocks.now) }
{
    let mut near = Vec::new(alloc);
    for block in blocks {
        if touches(*block, r, square) {
            near.push(*block)?;
        }
    }
    Ok(near)
}

/// Whether all pixels of the square are within r of the block: it lies in the block grown by r on each side.
fn covers(block: Block, r: u16, square: Block) -> bool
    ensures { result ≡ reaches_all r square block }
{
    u32::from(block.x) <= end(square.x, 0, r)
        && end(square.x, square.side, 0) <= end(block.x, block.side, r)
        && u32::from(block.y) <= end(square.y, 0, r)
        && end(square.y, square.side, 0) <= end(block.y, block.side, r)
}

/// Whether a pixel of the square is within r of the block: it meets the block grown by r on each side.
fn touches(block: Block, r: u16, square: Block) -> bool
    ensures { result ≡ reaches_some r square block }
{
    u32::from(block.x) < end(square.x, square.side, r)
        && u32::from(square.x) < end(block.x, block.side, r)
        && u32::from(block.y) < end(square.y, square.side, r)
        && u32::from(square.y) < end(block.y, block.side, r)
}

/// The place behind a row of places, and r further.
fn end(at: u16, length: u16, r: u16) -> u32
    ensures { result ≡ at + length + r }
{
    u32::from(at) + u32::from(length) + u32::from(r)
}

ghost use Rattle.std.specs.Prelude.{◌≡◌, ℕ, ◌+◌, ◌*◌, ◌<◌, ◌≤◌, true, length, slice_index, OnOk, IfSome, IsNone};
ghost use Rattle.quilt_types.specs.declared.plane.Pixel.{Pixel as PixelValue};
ghost use Rattle.quilt_types.specs.Plane.{Holds, IsBlock, Within};
ghost use Rattle.quilt_loc.specs.Codes.{code_from, code_to};
ghost use Rattle.quilt_blocks.specs.Adding.{AddsColours};
ghost use Rattle.quilt_raster.specs.Painting.{in_cells};

use quilt_blocks::Maker;
use quilt_loc::quarters;
use quilt_types::{Block, Colour};
use std::alloc::AllocError;

/// Puts the pixels of a block down, in squares of one colour. Their colours stand in the cells of a tile that holds the
/// block: one cell for each pixel of the tile, row by row. The block begins at the code at which the last one ended.
pub fn add_cells(maker: &mut Maker, cells: &[u16], tile: Block, b: Block) -> Result<(), AllocError>
    requires most { maker.old.level ≤ 12 }
    requires valid { IsBlock maker.old.level b }
    requires within { Within b tile }
    requires room { tile.side * tile.side ≤ length cells.now }
    requires next { code_from b ≡ length maker.old.colours }
    ensures { OnOk result (AddsColours maker.old.level (in_cells cells.now tile) (code_to b) maker.old maker.new) }
{
    if let Some(colour) = one_colour(cells, tile, b) {
        return maker.push(b, colour);
    }
    for q in quarters(b) {
        add_cells(maker, cells, tile, q)?;
    }
    Ok(())
}

/// The colour of all pixels of a block in the cells of a tile, or None where they have two, and where there are more than 8
/// in a row.
fn one_colour(cells: &[u16], tile: Block, b: Block) -> Option<Colour>
    requires some { 0 < b.side }
    requires within { Within b tile }
    requires room { tile.side * tile.side ≤ length cells.now }
    ensures some { IfSome result (λ c. (p : PixelValue) → Holds b p → in_cells cells.now tile p ≡ c.0) }
    ensures none { IsNone result → 1 < b.side }
{
    if b.side > 8 {
        return None;
    }
    let row = usize::from(tile.side);
    let first = usize::from(b.y - tile.y) * row + usize::from(b.x - tile.x);
    let length = usize::from(b.side);
    let colour = cells[first];
    for dy in 0..length {
        if !is_run(cells, first + dy * row, length, colour) {
            return None;
        }
    }
    Some(Colour(colour))
}

/// Whether so many cells from this place on all have the colour.
fn is_run(cells: &[u16], from: usize, count: usize, colour: u16) -> bool
    requires { from + count ≤ length cells.now }
    ensures all { result ≡ true → (k : ℕ) → from ≤ k → k < from + count → slice_index cells.now k ≡ colour }
    ensures one { count ≡ 1 → slice_index cells.now from ≡ colour → result ≡ true }
{
    for place in from..from + count {
        if cells[place] != colour {
            return false;
        }
    }
    true
}

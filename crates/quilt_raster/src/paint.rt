ghost use Rattle.std.specs.Prelude.{◌≡◌, ℕ, ◌+◌, ◌*◌, ◌^◌, ◌<◌, ◌≤◌, length, slice_index, slice_index_or};
ghost use Rattle.quilt_types.specs.declared.plane.Pixel.{Pixel as PixelValue};
ghost use Rattle.quilt_types.specs.declared.plane.Block.{Block as BlockValue};
ghost use Rattle.quilt_types.specs.Plane.{side, Holds, IsBlock};
ghost use Rattle.quilt_types.specs.Layers.{colour_at};
ghost use Rattle.quilt_loc.specs.Codes.{code_from, code_to};
ghost use Rattle.quilt_blocks.specs.Cutting.{leaves_by_code};
ghost use Rattle.quilt_raster.specs.Painting.{IsRoom, IsIn, place_of, ArePainted};

use quilt_blocks::{Leaf, LeafList};
use quilt_loc::{code_of, quarters, whole_square};
use quilt_types::{Block, Pixel, Window};

/// Puts the colours of a window's pixels into the first cells, one for each pixel, row by row. It finds the leaves of each
/// block of 16 pixels in a row that the window meets by one binary search.
pub fn paint_window(cells: &mut [u16], list: &LeafList, w: Window)
    requires in_x { w.x + w.w ≤ side list.now.level }
    requires in_y { w.y + w.h ≤ side list.now.level }
    requires room { w.w * w.h ≤ length cells.old }
    ensures long { length cells.new ≡ length cells.old }
    ensures painted { (p : PixelValue) → IsIn w p → slice_index cells.new (place_of w p) ≡ colour_at list.now.level list.now.grid p }
{
    let level = list.level();
    prove!(level <= 12);
    paint(cells, list, w, whole_square(level));
}

/// Puts the colours of a window's pixels that lie in a block into cells, one for each pixel of the window, row by row. It
/// cuts the block into quarters down to 16 pixels in a row, and leaves out those that have no pixel of the window.
fn paint(cells: &mut [u16], list: &LeafList, w: Window, b: Block)
    requires most { list.now.level ≤ 12 }
    requires valid { IsBlock list.now.level b }
    requires room { IsRoom list.now.level w cells.old }
    requires before { ArePainted list.now.level list.now.grid w (code_from b) cells.old }
    ensures long { length cells.new ≡ length cells.old }
    ensures after { ArePainted list.now.level list.now.grid w (code_to b) cells.new }
{
    if w.x + w.w <= b.x || b.x + b.side <= w.x || w.y + w.h <= b.y || b.y + b.side <= w.y {
        return;
    }
    if b.side <= 16 {
        return paint_leaves(cells, list, w, b);
    }
    for q in quarters(b) {
        paint(cells, list, w, q);
    }
}

/// The same, leaf by leaf. It looks for the first leaf alone, by a binary search.
fn paint_leaves(cells: &mut [u16], list: &LeafList, w: Window, b: Block)
    requires most { list.now.level ≤ 12 }
    requires valid { IsBlock list.now.level b }
    requires room { IsRoom list.now.level w cells.old }
    requires before { ArePainted list.now.level list.now.grid w (code_from b) cells.old }
    ensures long { length cells.new ≡ length cells.old }
    ensures after { ArePainted list.now.level list.now.grid w (code_to b) cells.new }
{
    let mut place = place_around(list, Pixel { x: b.x, y: b.y });
    let Leaf { block, colour } = list.leaf(place);
    if block.side > b.side {
        return fill(cells, w, b, colour.0);
    }
    let area = u32::from(b.side) * u32::from(b.side);
    let mut done = 0;
    while done < area {
        let Leaf { block, colour } = list.leaf(place);
        fill(cells, w, block, colour.0);
        done += u32::from(block.side) * u32::from(block.side);
        place += 1;
    }
}

/// The place of the leaf that holds the pixel, by a binary search: the last that begins at its code or before.
fn place_around(list: &LeafList, p: Pixel) -> usize
    requires in_x { p.x < side list.now.level }
    requires in_y { p.y < side list.now.level }
    ensures inside { result < length (leaves_by_code list.now.level list.now.grid) }
    ensures few { length (leaves_by_code list.now.level list.now.grid) < 2 ^ 64 }
    ensures held { (d : BlockValue × ℕ) → Holds (slice_index_or (leaves_by_code list.now.level list.now.grid) result d).0 p }
{
    let mut low = 0;
    let mut high = list.len();
    let code = code_of(p);
    while high - low > 1 {
        let middle = low + (high - low) / 2;
        let Block { x, y, .. } = list.leaf(middle).block;
        if code_of(Pixel { x, y }) <= code {
            low = middle;
        } else {
            high = middle;
        }
    }
    low
}

/// Puts a colour into the cells of the window's pixels that lie in the block, and leaves the others as they are.
fn fill(cells: &mut [u16], w: Window, b: Block, colour: u16)
    requires in_x { w.x + w.w ≤ 4096 }
    requires in_y { w.y + w.h ≤ 4096 }
    requires room { w.w * w.h ≤ length cells.old }
    requires block_x { b.x + b.side ≤ 4096 }
    requires block_y { b.y + b.side ≤ 4096 }
    ensures long { length cells.new ≡ length cells.old }
    ensures inside { (p : PixelValue) → IsIn w p → Holds b p → slice_index cells.new (place_of w p) ≡ colour }
    ensures outside { (p : PixelValue) → IsIn w p → (Holds b p → ⊥) → slice_index cells.new (place_of w p) ≡ slice_index cells.old (place_of w p) }
{
    let left = usize::from(b.x.saturating_sub(w.x));
    let right = usize::from((b.x + b.side).saturating_sub(w.x).min(w.w));
    let top = b.y.saturating_sub(w.y);
    let bottom = (b.y + b.side).saturating_sub(w.y).min(w.h);
    for dy in top..bottom {
        let row = usize::from(dy) * usize::from(w.w);
        fill_run(cells, row + left, row + right, colour);
    }
}

/// Puts a colour into the cells from one place up to and without another.
fn fill_run(cells: &mut [u16], from: usize, to: usize, colour: u16)
    requires { to ≤ length cells.old }
    ensures long { length cells.new ≡ length cells.old }
    ensures inside { (k : ℕ) → from ≤ k → k < to → slice_index cells.new k ≡ colour }
    ensures before { (k : ℕ) → k < from → slice_index cells.new k ≡ slice_index cells.old k }
    ensures behind { (k : ℕ) → to ≤ k → slice_index cells.new k ≡ slice_index cells.old k }
{
    for place in from..to {
        cells[place] = colour;
    }
}

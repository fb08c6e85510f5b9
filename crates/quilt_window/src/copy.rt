ghost use Rattle.std.specs.Prelude.{◌≡◌, ◌+◌, ◌*◌, ◌<◌, ◌≤◌, true, length, IfOk, OnOk, IfSome, IsNone};
ghost use Rattle.quilt_types.specs.declared.plane.Pixel.{Pixel as PixelValue};
ghost use Rattle.quilt_types.specs.Plane.{side as side_of, Holds, IsBlock};
ghost use Rattle.quilt_types.specs.Algebra.{grid_of};
ghost use Rattle.quilt_loc.specs.Codes.{code_from, code_to, IsSide};
ghost use Rattle.quilt_blocks.specs.Adding.{AddsColours};
ghost use Rattle.quilt_blocks.specs.Mosaic.{HasColour};
ghost use Rattle.quilt_window.specs.Copying.{FitsSide, copied_colour, square_at};

use crate::span::Span;
use quilt_blocks::{LeafList, Maker};
use quilt_loc::{block_at, quarters, whole_square};
use quilt_raster::{add_cells, paint_window};
use quilt_types::{Block, Colour, Pixel, Window};
use std::alloc::{AllocError, Global};

/// How many pixels in a row a block has at most whose colours go by cells.
const TILE: u16 = 32;

/// The leaves of the map whose pixels take their colours from another map by a span of each axis, and else are 0. It cuts
/// the square into quarters down to squares of which no pixel takes a colour, or all take theirs from leaves of one colour,
/// which four binary searches tell at most, or there are at most 32 pixels in a row and all take a colour: these go by
/// cells. The number of squares grows with the edges of the leaves there and here, not with the pixels.
pub(crate) fn copy(
    alloc: Global,
    a: &LeafList,
    across: Span,
    down: Span,
) -> Result<LeafList, AllocError>
    requires across { FitsSide a.now.level across }
    requires down { FitsSide a.now.level down }
    ensures { IfOk result (λ list. list ≡ record { level = a.now.level; grid = grid_of a.now.level (copied_colour a.now.level a.now.grid across down) }) }
{
    let level = a.level();
    let whole = whole_square(level);
    let mut maker = Maker::new(alloc, level);
    let mut cells = [0_u16; 1024];
    copy_block(&mut maker, &mut cells, a, across, down, whole)?;
    Ok(maker.finish())
}

/// Puts the pixels of the block down, in squares of one colour. The cells have room for a block of 32 pixels in a row, and
/// may hold anything.
fn copy_block(
    maker: &mut Maker,
    cells: &mut [u16],
    a: &LeafList,
    across: Span,
    down: Span,
    b: Block,
) -> Result<(), AllocError>
    requires least { 1 ≤ a.now.level }
    requires most { a.now.level ≤ 12 }
    requires valid { IsBlock a.now.level b }
    requires across { FitsSide a.now.level across }
    requires down { FitsSide a.now.level down }
    requires level { maker.old.level ≡ a.now.level }
    requires next { code_from b ≡ length maker.old.colours }
    requires room { length cells.old ≡ 1024 }
    ensures copied { OnOk result (AddsColours a.now.level (copied_colour a.now.level a.now.grid across down) (code_to b) maker.old maker.new) }
    ensures room { length cells.new ≡ 1024 }
{
    if let Some(colour) = one_colour(a, across, down, b) {
        return maker.push(b, colour);
    }
    if b.side <= TILE && across.covers(b.x, b.side) && down.covers(b.y, b.side) {
        return copy_tile(maker, cells, a, across, down, b);
    }
    for q in quarters(b) {
        copy_block(maker, cells, a, across, down, q)?;
    }
    Ok(())
}

/// The same for a block whose pixels are all in both spans: paints the square from which they take their colours into
/// cells, and gathers squares of one colour from these.
fn copy_tile(
    maker: &mut Maker,
    cells: &mut [u16],
    a: &LeafList,
    across: Span,
    down: Span,
    b: Block,
) -> Result<(), AllocError>
    requires most { a.now.level ≤ 12 }
    requires valid { IsBlock a.now.level b }
    requires across { FitsSide a.now.level across }
    requires down { FitsSide a.now.level down }
    requires left { across.to ≤ b.x }
    requires right { b.x + b.side ≤ across.to + across.length }
    requires top { down.to ≤ b.y }
    requires bottom { b.y + b.side ≤ down.to + down.length }
    requires level { maker.old.level ≡ a.now.level }
    requires next { code_from b ≡ length maker.old.colours }
    requires room { b.side * b.side ≤ length cells.old }
    ensures copied { OnOk result (AddsColours a.now.level (copied_colour a.now.level a.now.grid across down) (code_to b) maker.old maker.new) }
    ensures long { length cells.new ≡ length cells.old }
{
    let left = across.source_of(b.x);
    let top = down.source_of(b.y);
    let source = Window {
        x: left,
        y: top,
        w: b.side,
        h: b.side,
    };
    paint_window(cells, a, source);
    add_cells(maker, cells, b, b)
}

/// The colour of all pixels of the block: 0 where none of them is in both spans, or that of the leaf from which all of
/// them take theirs. None where neither is so, which never is at one pixel.
fn one_colour(a: &LeafList, across: Span, down: Span, b: Block) -> Option<Colour>
    requires least { 1 ≤ a.now.level }
    requires most { a.now.level ≤ 12 }
    requires valid { IsBlock a.now.level b }
    requires across { FitsSide a.now.level across }
    requires down { FitsSide a.now.level down }
    ensures some { IfSome result (λ c. (p : PixelValue) → Holds b p → copied_colour a.now.level a.now.grid across down p ≡ c.0) }
    ensures none { IsNone result → 1 < b.side }
{
    if across.misses(b.x, b.side) || down.misses(b.y, b.side) {
        return Some(Colour(0));
    }
    if !across.covers(b.x, b.side) || !down.covers(b.y, b.side) {
        return None;
    }
    let source = Pixel {
        x: across.source_of(b.x),
        y: down.source_of(b.y),
    };
    if b.side == 1 {
        return Some(a.colour_at(source));
    }
    colour_around(a, source, b.side)
}

/// The colour of the pixels of the square of this side, a power of two, whose upper left pixel this is: that of the blocks
/// of this side which the square meets, four at most. None where they have no one colour.
fn colour_around(a: &LeafList, p: Pixel, side: u16) -> Option<Colour>
    requires least { 1 ≤ a.now.level }
    requires most { a.now.level ≤ 12 }
    requires power { IsSide side }
    requires in_x { p.x + side ≤ side_of a.now.level }
    requires in_y { p.y + side ≤ side_of a.now.level }
    ensures { IfSome result (λ c. HasColour a.now.level a.now.grid (square_at p side) c.0) }
{
    let Block { x, y, .. } = block_at(p, side);
    let colour = a.uniform_in(Block { x, y, side })?;
    let is_across = x < p.x;
    let is_down = y < p.y;
    if agrees(
        a,
        Block {
            x: x + side,
            y,
            side,
        },
        is_across,
        colour,
    ) && agrees(
        a,
        Block {
            x,
            y: y + side,
            side,
        },
        is_down,
        colour,
    ) && agrees(
        a,
        Block {
            x: x + side,
            y: y + side,
            side,
        },
        is_across && is_down,
        colour,
    ) {
        Some(colour)
    } else {
        None
    }
}

/// Whether all pixels of the block have the colour, where the block is met.
fn agrees(a: &LeafList, b: Block, is_met: bool, colour: Colour) -> bool
    requires { is_met ≡ true → IsBlock a.now.level b }
    ensures { result ≡ true → is_met ≡ true → HasColour a.now.level a.now.grid b colour.0 }
{
    !is_met || a.uniform_in(b) == Some(colour)
}

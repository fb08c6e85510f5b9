ghost use Rattle.std.specs.Prelude.{◌≡◌, ℕ, ◌+◌, ◌*◌, ◌/◌, ◌%◌, ◌<◌, ◌≤◌, true, length, slice_index, IfOk, OnOk, IfSome, IsNone};
ghost use Rattle.quilt_types.specs.Plane.{side as side_of, IsBlock};
ghost use Rattle.quilt_loc.specs.Codes.{code_from, code_to};
ghost use Rattle.quilt_blocks.specs.Adding.{AddsColours};
ghost use Rattle.quilt_blocks.specs.Mosaic.{HasColour};
ghost use Rattle.quilt_raster.specs.Bytes.{cell_colours, from_corner, eight_pairs};

use quilt_blocks::{LeafList, Maker};
use quilt_loc::{quarters, whole_square};
use quilt_types::{Block, Colour, Pixel};
use std::alloc::{AllocError, Global};
use std::simd::prelude::*;

/// The leaves of a raster: the colours of a square of a level from 1 to 12, row by row, in two bytes each, the high one
/// first. It goes over the square quadrant by quadrant, and keeps no list of its pixels (Shaffer, Samet and Nelson 1990).
pub fn leaves_of(alloc: Global, colours: &[u8], level: u8) -> Result<LeafList, AllocError>
    requires least { 1 ≤ level }
    requires most { level ≤ 12 }
    requires all { length colours.now ≡ 2 * (side_of level * side_of level) }
    ensures { IfOk result (λ list. list ≡ record { level = level; grid = cell_colours colours.now }) }
{
    let whole = whole_square(level);
    let mut maker = Maker::new(alloc, level);
    add_square(&mut maker, colours, level, Pixel { x: 0, y: 0 }, whole)?;
    Ok(maker.finish())
}

/// Puts the pixels of a block down, in squares of one colour. The block is one of the maker's square, which lies in the
/// raster of this level with its upper left pixel at the corner, and begins at the code at which the last one ended.
pub fn add_square(
    maker: &mut Maker,
    colours: &[u8],
    level: u8,
    corner: Pixel,
    b: Block,
) -> Result<(), AllocError>
    requires most { level ≤ 12 }
    requires all { length colours.now ≡ 2 * (side_of level * side_of level) }
    requires low { maker.old.level ≤ level }
    requires in_x { corner.x + side_of maker.old.level ≤ side_of level }
    requires in_y { corner.y + side_of maker.old.level ≤ side_of level }
    requires valid { IsBlock maker.old.level b }
    requires next { code_from b ≡ length maker.old.colours }
    ensures { OnOk result (AddsColours maker.old.level (from_corner level (cell_colours colours.now) corner) (code_to b) maker.old maker.new) }
{
    let square = Block {
        x: corner.x + b.x,
        y: corner.y + b.y,
        side: b.side,
    };
    if let Some(colour) = one_colour(colours, level, square) {
        return maker.push(b, colour);
    }
    for q in quarters(b) {
        add_square(maker, colours, level, corner, q)?;
    }
    Ok(())
}

/// The colour of all pixels of a square of a raster, or None where they have two, and where there are more than 8 in a row.
pub fn one_colour(colours: &[u8], level: u8, square: Block) -> Option<Colour>
    requires most { level ≤ 12 }
    requires all { length colours.now ≡ 2 * (side_of level * side_of level) }
    requires some { 0 < square.side }
    requires in_x { square.x + square.side ≤ side_of level }
    requires in_y { square.y + square.side ≤ side_of level }
    ensures some { IfSome result (λ c. HasColour level (cell_colours colours.now) square c.0) }
    ensures none { IsNone result → 1 < square.side }
{
    if square.side > 8 {
        return None;
    }
    let row = 1_usize << level;
    let first = usize::from(square.y) * row + usize::from(square.x);
    let length = usize::from(square.side);
    let colour = colour_in(colours, first);
    for dy in 0..length {
        if !is_run(colours, first + dy * row, length, colour) {
            return None;
        }
    }
    Some(colour)
}

/// Whether the colours at this many places of a raster from this place on are all this one. Eight are tested together.
fn is_run(colours: &[u8], from: usize, count: usize, colour: Colour) -> bool
    requires { 2 * (from + count) ≤ length colours.now }
    ensures all { result ≡ true → (k : ℕ) → from ≤ k → k < from + count → slice_index (cell_colours colours.now) k ≡ colour.0 }
    ensures one { count ≡ 1 → slice_index (cell_colours colours.now) from ≡ colour.0 → result ≡ true }
{
    if count == 8 {
        return are_eight(colours, from, colour);
    }
    for place in from..from + count {
        if colour_in(colours, place) != colour {
            return false;
        }
    }
    true
}

/// Whether the colours at eight places of a raster from this place on are all this one.
fn are_eight(colours: &[u8], from: usize, colour: Colour) -> bool
    requires { 2 * (from + 8) ≤ length colours.now }
    ensures { result ≡ true → (k : ℕ) → from ≤ k → k < from + 8 → slice_index (cell_colours colours.now) k ≡ colour.0 }
{
    let found = u8x16::from_slice(&colours[2 * from..]);
    found.simd_ne(eight_times(colour)).to_bitmask() == 0
}

/// The bytes of a colour, eight times.
fn eight_times(colour: Colour) -> u8x16
    ensures { result ≡ eight_pairs (colour.0 / 256) (colour.0 % 256) }
{
    let high = (colour.0 / 256) as u8;
    let low = (colour.0 % 256) as u8;
    u8x16::from_array([
        high, low, high, low, high, low, high, low, high, low, high, low, high, low, high, low,
    ])
}

/// The colour at a place of a raster: of its two bytes there, the high one comes first.
pub fn colour_in(colours: &[u8], place: usize) -> Colour
    requires { 2 * place + 1 < length colours.now }
    ensures { result.0 ≡ slice_index (cell_colours colours.now) place }
{
    let high = u16::from(colours[2 * place]);
    let low = u16::from(colours[2 * place + 1]);
    Colour(256 * high + low)
}

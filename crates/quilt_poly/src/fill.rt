ghost use Rattle.std.specs.Prelude.{◌≡◌, ◌↔◌, ℕ, ◌*◌, ◌<◌, ◌≤◌, IsTrue, IsNone, IfSome, length, count_by, if◌then◌else◌, IfOk, OnOk};
ghost use Rattle.quilt_types.specs.Plane.{side as side_of, IsBlock};
ghost use Rattle.quilt_types.specs.Algebra.{grid_of};
ghost use Rattle.quilt_types.specs.Polygons.{filled_rings};
ghost use Rattle.quilt_loc.specs.Codes.{code_from, code_to};
ghost use Rattle.quilt_blocks.specs.Adding.{AddsColours};
ghost use Rattle.quilt_blocks.specs.Cutting.{leaves_by_code};
ghost use Rattle.quilt_poly.specs.Edges.{crosses};
ghost use Rattle.quilt_poly.specs.Bits.{strips, colour_in, HasParities};

use crate::bits::one_bit;
use crate::edges::{RingEdge, edges_of};
use crate::outline::mark_inside;
use quilt_blocks::{LeafList, Maker};
use quilt_loc::{quarters, whole_square};
use quilt_tally::Pixels;
use quilt_types::{Block, Colour, RingList};
use std::alloc::{AllocError, Global};

/// The leaves of the square of a level from 1 to 12 in which the pixels inside of the rings have the colour, and all others
/// are background. A pixel is inside where a line from its middle to the right crosses an odd number of edges.
///
/// Each edge is walked once, row by row, and marks one bit in each. A pass over the bits then leaves a 1 at the pixels
/// inside, of which the blocks are gathered.
pub fn region_of(
    alloc: Global,
    rings: &RingList,
    c: Colour,
    level: u8,
) -> Result<LeafList, AllocError>
    requires least { 1 ≤ level }
    requires most { level ≤ 12 }
    ensures { IfOk result (λ list. list ≡ record { level = level; grid = filled_rings level rings.now c.0 }) }
{
    let edges = edges_of(alloc, rings)?;
    let words = inside_bits(alloc, &edges, level)?;
    gathered(alloc, &words, level, c)
}

/// The same leaves, or None where there are more than so many. They are counted first, which takes no memory and ends at the
/// first block that has more of them, so that the list never has more than the most.
pub fn region_within(
    alloc: Global,
    rings: &RingList,
    c: Colour,
    level: u8,
    most: u32,
) -> Result<Option<LeafList>, AllocError>
    requires least { 1 ≤ level }
    requires high { level ≤ 12 }
    ensures some { IfOk result (λ found. IfSome found (λ list. list ≡ record { level = level; grid = filled_rings level rings.now c.0 })) }
    ensures none { IfOk result (λ found. IsNone found ↔ (most < length (leaves_by_code level (filled_rings level rings.now c.0)))) }
{
    let edges = edges_of(alloc, rings)?;
    let words = inside_bits(alloc, &edges, level)?;
    if !has_few_leaves(&words, level, c, most) {
        return Ok(None);
    }
    let list = gathered(alloc, &words, level, c)?;
    Ok(Some(list))
}

/// How many pixels the square of a level has in a row.
fn side_at(level: u8) -> usize
    requires { level ≤ 12 }
    ensures value { result ≡ side_of level }
    ensures small { result ≤ 4096 }
{
    1 << level
}

/// The bits of a square's pixels, 1 where a line to the right crosses an odd number of the edges. It takes 2 MB at level 12,
/// and a quarter of them at each level below.
fn inside_bits(alloc: Global, edges: &[RingEdge], level: u8) -> Result<Vec<u64>, AllocError>
    requires { level ≤ 12 }
    ensures room { IfOk result (λ words. length words.items ≡ strips (side_of level) * side_of level) }
    ensures odd { IfOk result (λ words. HasParities (side_of level) (λ p. count_by (crosses p) edges.now) words.items) }
{
    let side = side_at(level);
    let mut words = vec![in alloc; 0_u64; (side + 63) / 64 * side]?;
    mark_inside(&mut words, side, edges);
    Ok(words)
}

/// The colour of a pixel: this one inside, and the background elsewhere.
fn colour_of(inside: bool, c: Colour) -> Colour
    ensures { result.0 ≡ (if inside then c.0 else 0) }
{
    if inside { c } else { Colour(0) }
}

/// The leaves of a square of bits.
fn gathered(alloc: Global, words: &[u64], level: u8, c: Colour) -> Result<LeafList, AllocError>
    requires least { 1 ≤ level }
    requires most { level ≤ 12 }
    requires room { length words.now ≡ strips (side_of level) * side_of level }
    ensures { IfOk result (λ list. list ≡ record { level = level; grid = grid_of level (colour_in words.now (side_of level) c.0) }) }
{
    let whole = whole_square(level);
    let mut maker = Maker::new(alloc, level);
    fill(&mut maker, words, level, c, whole)?;
    Ok(maker.finish())
}

/// Puts the pixels of a block down: the colour where their bits are 1, and else 0.
fn fill(
    maker: &mut Maker,
    words: &[u64],
    level: u8,
    c: Colour,
    square: Block,
) -> Result<(), AllocError>
    requires most { level ≤ 12 }
    requires level { maker.old.level ≡ level }
    requires room { length words.now ≡ strips (side_of level) * side_of level }
    requires valid { IsBlock level square }
    requires next { code_from square ≡ length maker.old.colours }
    ensures { OnOk result (AddsColours level (colour_in words.now (side_of level) c.0) (code_to square) maker.old maker.new) }
{
    if let Some(inside) = one_bit(words, side_at(level), square) {
        return maker.push(square, colour_of(inside, c));
    }
    for quarter in quarters(square) {
        fill(maker, words, level, c, quarter)?;
    }
    Ok(())
}

/// The colour of the pixels whose bits are 1, and the background elsewhere.
#[derive(Drop)]
struct Inside<'a> {
    words: &'a [u64],
    colour: Colour,
}

impl Pixels for Inside<'_> {
    ghost grid = { λ inside level. grid_of level (colour_in inside.words.now (side_of level) inside.colour.0) };

    ghost is_whole = { λ inside level. length inside.words.now ≡ strips (side_of level) * side_of level };

    fn one_colour(&self, level: u8, square: Block) -> Option<Colour> {
        let inside = one_bit(self.words, side_at(level), square)?;
        Some(colour_of(inside, self.colour))
    }
}

/// Whether a square of bits has at most so many leaves.
fn has_few_leaves(words: &[u64], level: u8, c: Colour, most: u32) -> bool
    requires high { level ≤ 12 }
    requires room { length words.now ≡ strips (side_of level) * side_of level }
    ensures { IsTrue result ↔ (length (leaves_by_code level (grid_of level (colour_in words.now (side_of level) c.0))) ≤ most) }
{
    quilt_tally::has_few_leaves(&Inside { words, colour: c }, level, most)
}

ghost use Rattle.std.specs.Prelude.{◌≡◌, ℕ, ◌+◌, ◌*◌, ◌≤◌, ◌<◌, length, OnOk, IfOk};
ghost use Rattle.quilt_types.specs.Plane.{side as side_of, IsBlock};
ghost use Rattle.quilt_types.specs.Layers.{Grid};
ghost use Rattle.quilt_loc.specs.Codes.{code_from, code_to};
ghost use Rattle.quilt_blocks.specs.Adding.{AddsColours};
ghost use Rattle.quilt_par.specs.declared.part.Part.TheVariants.{Leaves};
ghost use Rattle.quilt_par.specs.Parts.{width_of, moved_colour, part_in, ShowAll};

use crate::square::quadrant;
use quilt_blocks::{Cursor, LeafList, Maker};
use quilt_tally::Tally;
use quilt_types::{Block, Colour};
use std::alloc::{AllocError, Global};

/// What a raster has in a quadrant, by itself.
#[derive(Drop)]
pub enum Part {
    /// One pixel, which is a quadrant at level 1.
    Single(Colour),
    /// The leaves of a square of the level below.
    Leaves(LeafList),
}

/// What a raster has in a quadrant, and what is known of its leaves.
#[derive(Drop)]
pub struct CountedPart {
    pub part: Part,
    pub tally: Tally,
}

/// The leaves of the square whose quadrants the parts are, in the order of their codes.
pub(crate) fn merged(alloc: Global, level: u8, parts: &[Part]) -> Result<LeafList, AllocError>
    requires least { 1 ≤ level }
    requires most { level ≤ 12 }
    requires four { length parts.now ≡ 4 }
    requires wide { (i : ℕ) → i < 4 → 2 * width_of (part_in parts.now i) ≡ side_of level }
    ensures { (g : Grid) → length g ≡ side_of level * side_of level → ShowAll level g parts.now
        → IfOk result (λ list. list ≡ record { level = level; grid = g }) }
{
    let mut maker = Maker::new(alloc, level);
    for number in 0..4_u8 {
        put(
            &mut maker,
            quadrant(level, number),
            &parts[usize::from(number)],
        )?;
    }
    Ok(maker.finish())
}

/// Puts a part down as this block, which begins at the code at which the last one ended.
fn put(maker: &mut Maker, b: Block, part: &Part) -> Result<(), AllocError>
    requires most { maker.old.level ≤ 12 }
    requires valid { IsBlock maker.old.level b }
    requires wide { b.side ≡ width_of part.now }
    requires next { code_from b ≡ length maker.old.colours }
    ensures { OnOk result (AddsColours maker.old.level (moved_colour b part.now) (code_to b) maker.old maker.new) }
{
    match part {
        Part::Single(colour) => maker.push(b, *colour),
        Part::Leaves(list) => put_leaves(maker, b, list),
    }
}

/// Puts the leaves of a square down as this block.
fn put_leaves(maker: &mut Maker, b: Block, list: &LeafList) -> Result<(), AllocError>
    requires most { maker.old.level ≤ 12 }
    requires valid { IsBlock maker.old.level b }
    requires wide { b.side ≡ side_of list.now.level }
    requires next { code_from b ≡ length maker.old.colours }
    ensures { OnOk result (AddsColours maker.old.level (moved_colour b (Leaves list.now)) (code_to b) maker.old maker.new) }
{
    let mut leaves = Cursor::new(list);
    while let Some(leaf) = leaves.next() {
        let Block { x, y, side } = leaf.block;
        let moved = Block {
            x: b.x + x,
            y: b.y + y,
            side,
        };
        maker.push(moved, leaf.colour)?;
    }
    Ok(())
}

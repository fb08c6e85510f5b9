ghost use Rattle.std.specs.Prelude.{◌≡◌, ℕ, ◌*◌, ◌%◌, ◌^◌, ◌≤◌, ◌↔◌, IsNone, IsTrue, IfSome, List, [], ◌++◌, replicate, length, Contains, OnOk, OnErr};
ghost use Rattle.quilt_types.specs.declared.plane.Block.{Block as BlockValue};
ghost use Rattle.quilt_types.specs.Plane.{IsBlock};
ghost use Rattle.quilt_types.specs.Layers.{Grid};
ghost use Rattle.quilt_types.specs.Quadtrees.{leaves};
ghost use Rattle.quilt_loc.specs.Codes.{code_from, code_to};
ghost use Rattle.quilt_blocks.specs.Painting.{colours_of, grid_by_code};
ghost use Rattle.quilt_blocks.specs.Mosaic.{IsMosaic};
ghost use Rattle.quilt_blocks.specs.Listing.{Follows, IsGrowing, IsMaking, EndsInQuarters, leaf_pairs};
ghost use Rattle.quilt_blocks.specs.Cutting.{leaf_pair};

use crate::{Leaf, LeafList};
use quilt_types::{Block, Colour};
use std::alloc::{AllocError, Global};
use std::marker::Model;

/// Makes a list of leaves of blocks that come in the order of their codes. The last leaves of the list are its stack of
/// finished siblings: four of one colour become one.
#[derive(Drop)]
pub struct Maker {
    level: u8,
    leaves: Vec<Leaf>,
}

impl Model for Maker {
    ghost use Rattle.quilt_blocks.specs.Painting.{Painted};

    ghost Value = { Painted };

    ghost use Rattle.quilt_blocks.specs.Painting.{colours_of};
    ghost use Rattle.quilt_blocks.specs.Listing.{IsMaking, leaf_pairs};

    ghost view = { λ m. record { level = m.level; colours = colours_of (leaf_pairs m.leaves.items) } };

    ghost invariant = { λ m. IsMaking m.level (leaf_pairs m.leaves.items) };
}

impl Maker {
    /// No blocks yet, for a square of a level from 1 to 12. It takes no memory, and keeps the allocator.
    pub fn new(alloc: Global, level: u8) -> Maker
        requires least { 1 ≤ level }
        requires most { level ≤ 12 }
        ensures { result ≡ record { level = level; colours = [] } }
    {
        Maker {
            level,
            leaves: Vec::new(alloc),
        }
    }

    /// Puts down a block that begins at the code at which the last one ended, or changes nothing where no memory is left.
    pub fn push(&mut self, b: Block, c: Colour) -> Result<(), AllocError>
        requires valid { IsBlock self.old.level b }
        requires next { code_from b ≡ length self.old.colours }
        ensures ok { OnOk result (self.new ≡ record { level = self.old.level; colours = self.old.colours ++ replicate (b.side * b.side) c.0 }) }
        ensures end { OnOk result (length self.new.colours ≡ code_to b) }
        ensures err { OnErr result (self.new ≡ self.old) }
    {
        self.leaves.push(Leaf {
            block: b,
            colour: c,
        })?;
        merge_last(&mut self.leaves, self.level);
        Ok(())
    }

    /// The leaves of the grid that the blocks paint, which cover the square.
    pub fn finish(self) -> LeafList
        requires { length self.colours ≡ 4 ^ self.level }
        ensures level { result.level ≡ self.level }
        ensures value { result.grid ≡ grid_by_code self.level self.colours }

        // Blocks of which exactly one holds each pixel and of which no four siblings have one colour are the leaves.
        ensures law { (n : ℕ) (g : Grid) (es : List (BlockValue × ℕ)) → IsMosaic n g es → (e : BlockValue × ℕ) → Contains es e ↔ Contains (leaves n g) e }
    {
        let Maker { level, leaves } = self;
        LeafList::of(level, leaves)
    }
}

/// Makes one leaf of the last four as long as they are siblings of one colour.
fn merge_last(leaves: &mut Vec<Leaf>, level: u8)
    requires least { 1 ≤ level }
    requires most { level ≤ 12 }
    requires growing { IsGrowing level (leaf_pairs leaves.old.items) }
    ensures making { IsMaking level (leaf_pairs leaves.new.items) }
    ensures colours { colours_of (leaf_pairs leaves.new.items) ≡ colours_of (leaf_pairs leaves.old.items) }
{
    while let Some(whole) = whole_of_last(leaves, level) {
        let first = leaves.len() - 4;
        leaves.truncate(first + 1);
        leaves[first] = whole;
    }
}

/// The leaf that the last four make, where they are siblings of one colour. The last of them is then the lower right
/// quarter of a block, and the three before it are the other quarters if they have its side.
fn whole_of_last(leaves: &[Leaf], level: u8) -> Option<Leaf>
    requires least { 1 ≤ level }
    requires most { level ≤ 12 }
    requires follows { Follows level 0 (leaf_pairs leaves.now) }
    ensures some { IfSome result (λ l. EndsInQuarters level (leaf_pairs leaves.now) (leaf_pair l)) }
    ensures none { IsNone result → (e : BlockValue × ℕ) → EndsInQuarters level (leaf_pairs leaves.now) e → ⊥ }
{
    let n = leaves.len();
    if n < 4 {
        return None;
    }
    let last = leaves[n - 1];
    let Leaf { block, colour } = last;
    if !is_last_quarter(block) {
        return None;
    }
    if is_alike(leaves[n - 2], last)
        && is_alike(leaves[n - 3], last)
        && is_alike(leaves[n - 4], last)
    {
        let Block { x, y, side } = block;
        let block = Block {
            x: x - side,
            y: y - side,
            side: 2 * side,
        };
        Some(Leaf { block, colour })
    } else {
        None
    }
}

/// Whether the block is the lower right quarter of a block.
fn is_last_quarter(b: Block) -> bool
    requires { IsBlock 12 b }
    ensures { IsTrue result ↔ ((b.x % (2 * b.side) ≡ b.side) × (b.y % (2 * b.side) ≡ b.side)) }
{
    b.x & b.side != 0 && b.y & b.side != 0
}

/// Whether the two leaves have one side and one colour.
fn is_alike(a: Leaf, b: Leaf) -> bool
    ensures { IsTrue result ↔ ((a.block.side ≡ b.block.side) × (a.colour.0 ≡ b.colour.0)) }
{
    a.block.side == b.block.side && a.colour == b.colour
}

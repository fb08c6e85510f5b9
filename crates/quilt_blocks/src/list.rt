ghost use Rattle.std.specs.Prelude.{◌≡◌, ℕ, ◌+◌, ◌<◌, ◌≤◌, ◌↔◌, false, length, Contains, IsNone, IfSome, slice_index_or};
ghost use Rattle.quilt_types.specs.declared.plane.Block.{Block as BlockValue};
ghost use Rattle.quilt_types.specs.Plane.{side, Holds, IsBlock};
ghost use Rattle.quilt_types.specs.Layers.{colour_at};
ghost use Rattle.quilt_types.specs.Quadtrees.{is_uniform, leaves};
ghost use Rattle.quilt_loc.specs.Codes.{Rises};
ghost use Rattle.quilt_blocks.specs.Raster.{IsRaster};
ghost use Rattle.quilt_blocks.specs.Cutting.{leaves_by_code, leaf_cmp, leaf_pair};
ghost use Rattle.quilt_blocks.specs.Mosaic.{HasColour};

use crate::Leaf;
use quilt_loc::code_of;
use quilt_types::{Block, Colour, Pixel};
use std::marker::Model;

/// The maximal blocks of one colour of a grid, in the order of their codes (Samet 1990; Shaffer, Samet and Nelson 1990).
#[derive(Drop)]
pub struct LeafList {
    level: u8,
    leaves: Vec<Leaf>,
}

impl Model for LeafList {
    ghost use Rattle.quilt_blocks.specs.Raster.{Raster};

    ghost Value = { Raster };

    ghost use Rattle.quilt_blocks.specs.Listing.{IsListed, grid_from, leaf_pairs};

    ghost view = { λ l. record { level = l.level; grid = grid_from l.level (leaf_pairs l.leaves.items) } };

    ghost invariant = { λ l. IsListed l.level (leaf_pairs l.leaves.items) };
}

impl LeafList {
    ghost use Rattle.quilt_blocks.specs.Listing.{IsListed, grid_from, leaf_pairs};

    /// The list of these leaves, which are the maximal blocks of one grid in the order of their codes.
    pub(crate) fn of(level: u8, leaves: Vec<Leaf>) -> LeafList
        requires { IsListed level (leaf_pairs leaves.items) }
        ensures { result ≡ record { level = level; grid = grid_from level (leaf_pairs leaves.items) } }
    {
        LeafList { level, leaves }
    }

    /// The level of the square, from 1 to 12.
    pub fn level(&self) -> u8
        ensures value { result ≡ self.now.level }
        ensures raster { IsRaster self.now }
    {
        self.level
    }

    /// How many leaves there are, at least one.
    pub fn len(&self) -> usize
        ensures value { result ≡ length (leaves_by_code self.now.level self.now.grid) }
        ensures some { 1 ≤ result }
        ensures raster { IsRaster self.now }
        ensures members { (e : BlockValue × ℕ) → Contains (leaves_by_code self.now.level self.now.grid) e ↔ Contains (leaves self.now.level self.now.grid) e }
        ensures order { Rises leaf_cmp (leaves_by_code self.now.level self.now.grid) }
    {
        self.leaves.len()
    }

    /// The leaf at a place in the order of the codes.
    pub fn leaf(&self, i: usize) -> Leaf
        requires { i < length (leaves_by_code self.now.level self.now.grid) }
        ensures value { leaf_pair result ≡ slice_index_or (leaves_by_code self.now.level self.now.grid) i (leaf_pair result) }
        ensures block { IsBlock self.now.level result.block }
        ensures colour { HasColour self.now.level self.now.grid result.block result.colour.0 }
    {
        self.leaves[i]
    }

    /// The leaf that holds the pixel, by a binary search.
    pub fn leaf_around(&self, p: Pixel) -> Leaf
        requires in_x { p.x < side self.now.level }
        requires in_y { p.y < side self.now.level }
        ensures member { Contains (leaves_by_code self.now.level self.now.grid) (leaf_pair result) }
        ensures block { IsBlock self.now.level result.block }
        ensures held { Holds result.block p }
        ensures colour { HasColour self.now.level self.now.grid result.block result.colour.0 }
    {
        self.search(p, 0, usize::MAX)
    }

    /// The colour of the pixel, by a binary search.
    pub fn colour_at(&self, p: Pixel) -> Colour
        requires in_x { p.x < side self.now.level }
        requires in_y { p.y < side self.now.level }
        ensures { result.0 ≡ colour_at self.now.level self.now.grid p }
    {
        self.leaf_around(p).colour
    }

    /// The one colour of the block's pixels, by a binary search, or None where they have two.
    pub fn uniform_in(&self, b: Block) -> Option<Colour>
        requires { IsBlock self.now.level b }
        ensures none { IsNone result ↔ (is_uniform self.now.level self.now.grid b ≡ false) }
        ensures colour { IfSome result (λ c. HasColour self.now.level self.now.grid b c.0) }
    {
        self.uniform_from(b, 0, usize::MAX)
    }

    /// The same by a search that begins at a place of the list, and takes the fewer steps the nearer the block's first pixel is.
    pub fn uniform_near(&self, b: Block, near: usize) -> Option<Colour>
        requires { IsBlock self.now.level b }
        ensures none { IsNone result ↔ (is_uniform self.now.level self.now.grid b ≡ false) }
        ensures colour { IfSome result (λ c. HasColour self.now.level self.now.grid b c.0) }
    {
        self.uniform_from(b, near, 1)
    }

    /// The one colour of the block's pixels, by a search that begins so.
    fn uniform_from(&self, b: Block, near: usize, step: usize) -> Option<Colour>
        requires { IsBlock self.now.level b }
        ensures none { IsNone result ↔ (is_uniform self.now.level self.now.grid b ≡ false) }
        ensures colour { IfSome result (λ c. HasColour self.now.level self.now.grid b c.0) }
    {
        let leaf = self.search(Pixel { x: b.x, y: b.y }, near, step);
        if leaf.block.side < b.side {
            return None;
        }
        Some(leaf.colour)
    }

    /// The leaf that holds the pixel: the last that begins at its code or before. The search begins at a place, goes from
    /// there by steps each twice as long as the one before, and halves what is left once that is shorter.
    fn search(&self, p: Pixel, near: usize, first_step: usize) -> Leaf
        requires in_x { p.x < side self.now.level }
        requires in_y { p.y < side self.now.level }
        ensures member { Contains (leaves_by_code self.now.level self.now.grid) (leaf_pair result) }
        ensures block { IsBlock self.now.level result.block }
        ensures held { Holds result.block p }
        ensures colour { HasColour self.now.level self.now.grid result.block result.colour.0 }
    {
        let leaves = &self.leaves;
        let code = code_of(p);
        let mut low = 0;
        let mut high = leaves.len();
        let mut step = first_step;
        while high - low > 1 {
            let middle = place_between(low, high, near, step);
            step = step.saturating_mul(2);
            let Block { x, y, .. } = leaves[middle].block;
            if code_of(Pixel { x, y }) <= code {
                low = middle;
            } else {
                high = middle;
            }
        }
        leaves[low]
    }
}

/// A place between two others: this one, or else one the step away from the end that is nearer to it, or half the way.
fn place_between(low: usize, high: usize, near: usize, step: usize) -> usize
    requires { low + 1 < high }
    ensures above { low < result }
    ensures below { result < high }
{
    if low < near && near < high {
        return near;
    }
    let half = (high - low) / 2;
    let most = step.min(half - 1);
    if near <= low {
        low + 1 + most
    } else {
        high - 1 - most
    }
}

ghost use Rattle.std.specs.Prelude.{◌≡◌, ℕ, ◌+◌, ◌*◌, ◌^◌, ◌↔◌, [], ◌∷◌, IsNone, IfSome};
ghost use Rattle.quilt_blocks.specs.Cutting.{leaves_by_code, leaf_pair};
ghost use Rattle.quilt_blocks.specs.Walk.{IsLeafAt};

use crate::{Leaf, LeafList};
use std::marker::Model;

/// A walk over the leaves of a list, in the order of their codes.
#[derive(Drop)]
pub struct Cursor<'a> {
    list: &'a LeafList,
    place: usize,
}

impl<'a> Model for Cursor<'a> {
    ghost use Rattle.quilt_blocks.specs.Walk.{LeafWalk};

    ghost Value = { LeafWalk };

    ghost use Rattle.std.specs.Prelude.{◌≤◌, ℕ, length, take, drop};
    ghost use Rattle.quilt_blocks.specs.Raster.{IsRaster};
    ghost use Rattle.quilt_blocks.specs.Cutting.{leaves_by_code};
    ghost use Rattle.quilt_blocks.specs.Walk.{pixel_count};

    ghost view = { λ c. record {
      level = c.list.now.level;
      grid = c.list.now.grid;
      at = pixel_count (take c.place (leaves_by_code c.list.now.level c.list.now.grid));
      rest = drop c.place (leaves_by_code c.list.now.level c.list.now.grid);
    } };

    ghost invariant = { λ c. c.place ≤ length (leaves_by_code c.list.now.level c.list.now.grid) };
}

impl<'a> Cursor<'a> {
    /// A walk from the first leaf on.
    pub fn new(list: &'a LeafList) -> Cursor<'a>
        ensures level { result.level ≡ list.now.level }
        ensures grid { result.grid ≡ list.now.grid }
        ensures at { result.at ≡ 0 }
        ensures rest { result.rest ≡ leaves_by_code list.now.level list.now.grid }
    {
        Cursor { list, place: 0 }
    }

    /// The next leaf, and None at the end.
    pub fn next(&mut self) -> Option<Leaf>
        ensures end { IsNone result ↔ (self.old.rest ≡ []) }
        ensures whole { IsNone result ↔ (self.old.at ≡ 4 ^ self.old.level) }
        ensures stays { IsNone result → self.new ≡ self.old }
        ensures first { IfSome result (λ l. self.old.rest ≡ leaf_pair l ∷ self.new.rest) }
        ensures leaf { IfSome result (λ l. IsLeafAt self.old.level self.old.grid self.old.at (leaf_pair l)) }
        ensures at { IfSome result (λ l. self.new.at ≡ self.old.at + l.block.side * l.block.side) }
        ensures level { self.new.level ≡ self.old.level }
        ensures grid { self.new.grid ≡ self.old.grid }
    {
        if self.place == self.list.len() {
            return None;
        }
        let leaf = self.list.leaf(self.place);
        self.place += 1;
        Some(leaf)
    }
}

ghost use Rattle.std.specs.Prelude.{◌≡◌, ℕ, ◌^◌, ◌<◌, ◌≤◌, ◌++◌, true, false, List, [], ◌∷◌, IfSome, IfNone};
ghost use Rattle.quilt_types.specs.declared.plane.Kind.TheVariants as kinds;
ghost use Rattle.quilt_types.specs.Plane.{IsBlock};
ghost use Rattle.quilt_types.specs.Layers.{colours};
ghost use Rattle.quilt_loc.specs.Codes.{code_from};
ghost use Rattle.quilt_blocks.specs.Cutting.{leaf_pair};
ghost use Rattle.quilt_record.specs.declared.record.Record.{Record as AnyRecord};
ghost use Rattle.quilt_spell.specs.OfLayer.{leaf_record};
ghost use Rattle.quilt_line_audit.specs.Layers.{RefusesRecord};
ghost use Rattle.quilt_audit.specs.Regions.{IsGoing, no_leaves};

use crate::codes::end_from;
use crate::siblings::are_siblings;
use quilt_blocks::Leaf;
use quilt_types::{Block, Colour};

/// No leaf, which stands for one before the first.
const NOTHING: Leaf = Leaf {
    block: Block {
        y: 0,
        x: 0,
        side: 0,
    },
    colour: Colour(0),
};

/// How far the records of a region layer have come.
#[derive(Clone, Copy)]
pub struct RegionRun {
    /// The code at which the last block ends.
    pub end: u32,
    /// The last three leaves.
    pub recent: [Leaf; 3],
}

impl RegionRun {
    /// No record yet.
    pub fn new() -> RegionRun
        ensures end { result.end ≡ 0 }
        ensures recent { result.recent ≡ no_leaves }
    {
        RegionRun {
            end: 0,
            recent: [NOTHING; 3],
        }
    }

    /// After one more leaf, whose block begins at this code; none where the last block did not end there, or where the two
    /// before it and this one make four siblings of one colour with another.
    pub fn next(&self, code: u32, leaf: Leaf, level: u8) -> Option<RegionRun>
        requires level { (1 ≤ level) × (level ≤ 12) }
        requires block { IsBlock level leaf.block }
        requires code { code ≡ code_from leaf.block }
        ensures some { IfSome result (λ next. (form layer : ℕ) (rs : List AnyRecord) → 1 ≤ layer → leaf.colour.0 < colours form
            → IsGoing form level rs layer self.now.end self.now.recent
            → IsGoing form level (rs ++ leaf_record level layer (leaf_pair leaf) ∷ []) layer next.end next.recent) }
        ensures none { IfNone result ((form layer : ℕ) (rs : List AnyRecord) → 1 ≤ layer → IsGoing form level rs layer self.now.end self.now.recent
            → RefusesRecord form level rs layer kinds.Region (leaf_record level layer (leaf_pair leaf))) }
    {
        if code != self.end {
            return None;
        }
        let [a, b, c] = self.recent;
        if are_siblings(a, b, c, leaf, level) {
            return None;
        }
        Some(RegionRun {
            end: end_from(code, leaf.block),
            recent: [b, c, leaf],
        })
    }

    /// Whether the blocks cover the square.
    pub fn is_finished(&self, level: u8) -> bool
        requires { level ≤ 12 }
        ensures yes { result ≡ true → self.now.end ≡ 4 ^ level }
        ensures no { result ≡ false → self.now.end ≡ 4 ^ level → ⊥ }
    {
        self.end == 1 << (2 * level)
    }
}

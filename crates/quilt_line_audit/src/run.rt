ghost use Rattle.std.specs.Prelude.{◌≡◌, ℕ, ◌≤◌, ◌++◌, List, [], ◌∷◌, IfOk, true, false};
ghost use Rattle.std.specs.Bool.{OnTrue, OnFalse};
ghost use Rattle.quilt_types.specs.declared.plane.Kind.TheVariants as kinds;
ghost use Rattle.quilt_types.specs.Layers.{is_in_square as is_seg_in_square};
ghost use Rattle.quilt_record.specs.declared.record.Record.{Record as AnyRecord};
ghost use Rattle.quilt_line_audit.specs.Layers.{RefusesRecord};
ghost use Rattle.quilt_line_audit.specs.Runs.{IsLineStart, IsLineRun, IsLined};

use crate::descent::end_in;
use crate::pair::Pair;
use quilt_loc::whole_square;
use quilt_record::{Record, read_pair, read_segment};
use quilt_types::Seg;
use std::alloc::{AllocError, Global};

/// The records of a line layer that have come: its pairs and its segments, each in the order in which they came. Its memory is
/// that of one layer's pairs and segments.
#[derive(Drop)]
pub struct LineRun {
    alloc: Global,
    pairs: Vec<Pair>,
    segs: Vec<(u32, Seg)>,
}

impl LineRun {
    /// No record yet. It takes no memory, and keeps the allocator.
    pub fn new(alloc: Global) -> LineRun
        ensures { IsLineStart result }
    {
        LineRun {
            alloc,
            pairs: Vec::new(alloc),
            segs: Vec::new(alloc),
        }
    }

    /// Takes one more record of the layer in a map of this level, and answers whether it can be one of a line layer.
    pub fn take(&mut self, r: &Record, level: u8) -> Result<bool, AllocError>
        requires level { (1 ≤ level) × (level ≤ 12) }
        requires layer { (1 ≤ r.now.key.layer) × (r.now.key.layer ≤ 255) }
        ensures taken { IfOk result (λ ok. (rs : List AnyRecord) (threshold : ℕ) → IsLineRun level rs r.now.key.layer threshold self.old
            → OnTrue ok (IsLineRun level (rs ++ r.now ∷ []) r.now.key.layer threshold self.new)) }
        ensures refused { IfOk result (λ ok. (form threshold : ℕ) (rs : List AnyRecord)
            → OnFalse ok (RefusesRecord form level rs r.now.key.layer (kinds.Lines threshold) r.now)) }
    {
        if let Some((block, id)) = read_pair(r, level) {
            self.pairs.push(Pair { block, id })?;
            return Ok(true);
        }
        let Some((id, s)) = read_segment(r) else {
            return Ok(false);
        };
        if !is_in_square(s, level) {
            return Ok(false);
        }
        self.segs.push((id, s))?;
        Ok(true)
    }

    /// Whether the records may be all of the layer: whether the blocks cover the square one behind the other, each with one pair
    /// for each segment that meets it, by id, and with the pair of none where no segment does. It goes down from the whole square,
    /// and hands to each quarter those segments alone that meet it, so its work grows with the blocks that the segments meet.
    pub fn is_whole(&self, level: u8) -> Result<bool, AllocError>
        requires { level ≤ 12 }
        ensures yes { IfOk result (λ ok. OnTrue ok (IsLined level self.now)) }
        ensures no { IfOk result (λ ok. OnFalse ok (IsLined level self.now → ⊥)) }
    {
        let square = whole_square(level);
        match end_in(self.alloc, &self.pairs, 0, &self.segs, square)? {
            None => Ok(false),
            Some(end) => Ok(end == self.pairs.len()),
        }
    }
}

/// Whether both ends of the segment are pixels of the level, which is at most 12.
fn is_in_square(s: Seg, level: u8) -> bool
    requires { level ≤ 12 }
    ensures { result ≡ is_seg_in_square level s }
{
    let side = 1_u16 << level;
    (s.x1 < side && s.y1 < side) && (s.x2 < side && s.y2 < side)
}

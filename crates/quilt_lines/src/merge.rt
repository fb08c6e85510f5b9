ghost use Rattle.std.specs.Prelude.{◌≡◌, ◌≤◌, ◌&&◌, ◌==◌, ◌++◌, ℕ, true, false, if◌then◌else◌, nat_le, not, length};
ghost use Rattle.std.specs.Prelude.{Contains, map, filter, IfOk, OnOk, IsPermutation, [], ◌∷◌};
ghost use Rattle.std.specs.List.Sorted.{IsSorted};
ghost use Rattle.std.specs.Ordering.{nat_cmp};
ghost use Rattle.std.specs.FinMap as finmap;
ghost use Rattle.quilt_types.specs.Sets as finset;
ghost use Rattle.quilt_types.specs.Plane.{side, quarters_of, IsBlock};
ghost use Rattle.quilt_types.specs.Segments.{square, meets as segment_meets};
ghost use Rattle.quilt_types.specs.Layers.{SegMap, BlockSet};
ghost use Rattle.quilt_record.specs.Canonical.{pair_fact};
ghost use Rattle.quilt_lines.specs.Layers.{fact_record};
ghost use Rattle.quilt_lines.specs.Reads.{AreIdsAt};
ghost use Rattle.quilt_lines.specs.Merges.{pair_facts, AddsIds, BecomesSettled, Gathers, IsMerged, IsGathered};

use crate::removal::Removal;
use quilt_clip::meets;
use quilt_record::{Record, pair_record};
use quilt_types::Block;
use std::alloc::{AllocError, Global};

/// What becomes of a block, or of several, when a segment goes: whether each is one block, then the ids that meet it and the
/// records of the blocks that it was made of, and the records on the blocks that come, that go, that stay and that nothing meets
/// any more.
#[derive(Drop)]
pub(crate) struct Settled {
    pub one: bool,
    pub ids: Vec<u32>,
    pub parts: Vec<Record>,
    pub coming: Vec<Record>,
    pub going: Vec<Record>,
    pub staying: Vec<Record>,
    pub emptied: Vec<Record>,
}

impl Settled {
    /// Nothing comes, goes or stays.
    pub(crate) fn new(alloc: Global, one: bool) -> Settled
        ensures one { result.one ≡ one }
        ensures ids { result.ids.items ≡ [] }
        ensures parts { result.parts.items ≡ [] }
        ensures coming { result.coming.items ≡ [] }
        ensures going { result.going.items ≡ [] }
        ensures staying { result.staying.items ≡ [] }
        ensures emptied { result.emptied.items ≡ [] }
    {
        Settled {
            one,
            ids: Vec::new(alloc),
            parts: Vec::new(alloc),
            coming: Vec::new(alloc),
            going: Vec::new(alloc),
            staying: Vec::new(alloc),
            emptied: Vec::new(alloc),
        }
    }

    /// Adds what becomes of one more block. No more ids are added once there are more than `most`.
    pub(crate) fn gather(&mut self, other: &Settled, most: u8) -> Result<(), AllocError>
        ensures { OnOk result (IsGathered most self.old other.now self.new) }
    {
        self.one = self.one && other.one;
        add_ids(&mut self.ids, &other.ids, most)?;
        self.parts.extend_from_slice(&other.parts)?;
        self.coming.extend_from_slice(&other.coming)?;
        self.going.extend_from_slice(&other.going)?;
        self.staying.extend_from_slice(&other.staying)?;
        self.emptied.extend_from_slice(&other.emptied)
    }
}

/// Adds the ids that are not there, until there are more than `most`.
fn add_ids(ids: &mut Vec<u32>, more: &[u32], most: u8) -> Result<(), AllocError>
    ensures { OnOk result (AddsIds most ids.old.items more.now ids.new.items) }
{
    for id in more {
        add_id(ids, *id, most)?;
    }
    Ok(())
}

/// Adds an id, if it is not there and there are not more than `most`.
fn add_id(ids: &mut Vec<u32>, id: u32, most: u8) -> Result<(), AllocError>
    ensures { OnOk result (AddsIds most ids.old.items (id ∷ []) ids.new.items) }
{
    if ids.len() > usize::from(most) {
        return Ok(());
    }
    if has_id(ids, id) {
        return Ok(());
    }
    ids.push(id)?;
    Ok(())
}

/// Whether the id is one of these.
fn has_id(ids: &[u32], id: u32) -> bool
    ensures yes { result ≡ true → Contains ids.now id }
    ensures no { Contains ids.now id → result ≡ true }
{
    ids.iter().any(|i| *i == id)
}

/// Puts ids in their order.
fn sort(ids: &mut Vec<u32>)
    ensures permutation { IsPermutation ids.old.items ids.new.items }
    ensures sorted { IsSorted nat_cmp ids.new.items }
{
    ids.sort_unstable();
}

/// The ids but one.
fn without(alloc: Global, ids: &[u32], id: u32) -> Result<Vec<u32>, AllocError>
    ensures { IfOk result (λ v. v.items ≡ filter (λ i. not (i == id)) ids.now) }
{
    ids.iter().filter(|i| **i != id).copied().collect(alloc)
}

impl Removal {
    /// What becomes of one of the layer's blocks, which these ids meet.
    pub(crate) fn kept(&self, alloc: Global, b: Block, ids: &[u32]) -> Result<Settled, AllocError>
        requires { IsBlock self.now.level b }
        ensures { IfOk result (λ x. (k : ℕ) (segs : SegMap) (cover : BlockSet) → AreIdsAt segs cover b ids.now → BecomesSettled self.now segs cover k b x) }
    {
        let others = without(alloc, ids, self.id)?;
        let met = meets(self.segment, b);
        let parts = self.pairs(alloc, b, ids)?;
        let staying = self.pair_if(alloc, b, Some(self.id), met)?;
        let emptied = self.pair_if(alloc, b, None, self.meets_alone(b, &others))?;
        Ok(Settled {
            one: true,
            ids: others,
            parts,
            coming: Vec::new(alloc),
            going: Vec::new(alloc),
            staying,
            emptied,
        })
    }

    /// What becomes of a block that was cut and that the segment met, by what becomes of its quarters: they are one block now
    /// if each of them is and few segments meet it.
    pub(crate) fn joined(
        &self,
        alloc: Global,
        b: Block,
        quarters: Settled,
    ) -> Result<Settled, AllocError>
        requires { IsBlock self.now.level b }
        ensures { IfOk result (λ x. (k : ℕ) (segs : SegMap) (cover : BlockSet) → b.side ≡ side (ℕ.suc k) →
            finset.contains cover b ≡ false → segment_meets self.now.segment (square b) ≡ true →
            Gathers self.now.level self.now.layer self.now.threshold self.now.id segs cover self.now.segment k (quarters_of b) quarters →
            BecomesSettled self.now segs cover (ℕ.suc k) b x) }
    {
        if !self.is_one_now(&quarters) {
            return Ok(Settled {
                one: false,
                ..quarters
            });
        }
        self.merged(alloc, b, quarters.ids, &quarters.parts)
    }

    /// Whether quarters of which this becomes are one block now.
    fn is_one_now(&self, quarters: &Settled) -> bool
        ensures { result ≡ (quarters.now.one && nat_le (length quarters.now.ids.items) self.now.threshold) }
    {
        quarters.one && quarters.ids.len() <= usize::from(self.threshold)
    }

    /// What becomes of a block that was cut and is one now, which these ids meet: the records of its parts go.
    fn merged(
        &self,
        alloc: Global,
        b: Block,
        ids: Vec<u32>,
        parts: &[Record],
    ) -> Result<Settled, AllocError>
        requires { IsBlock self.now.level b }
        ensures { IfOk result (IsMerged self.now.level self.now.layer b ids.items parts.now) }
    {
        let mut merged = Settled::new(alloc, true);
        merged.ids = ids;
        sort(&mut merged.ids);
        merged.coming = self.pairs(alloc, b, &merged.ids)?;
        merged.parts.extend_from_slice(parts)?;
        merged.going.extend_from_slice(parts)?;
        Ok(merged)
    }

    /// The record of a block with a segment that meets it, or with none.
    fn pair(&self, b: Block, id: Option<u32>) -> Record
        requires { IsBlock self.now.level b }
        ensures { result ≡ fact_record self.now.level self.now.layer (pair_fact b id) }
    {
        pair_record(self.layer, b, self.level, id)
    }

    /// Whether the segment meets the block and there are no others.
    fn meets_alone(&self, b: Block, others: &[u32]) -> bool
        ensures { result ≡ (segment_meets self.now.segment (square b) && (length others.now == 0)) }
    {
        meets(self.segment, b) && others.is_empty()
    }

    /// The record of a block with a segment that meets it, or with none, if it is wanted.
    fn pair_if(
        &self,
        alloc: Global,
        b: Block,
        id: Option<u32>,
        wanted: bool,
    ) -> Result<Vec<Record>, AllocError>
        requires { IsBlock self.now.level b }
        ensures { IfOk result (λ v. v.items ≡ (if wanted then fact_record self.now.level self.now.layer (pair_fact b id) ∷ [] else [])) }
    {
        if wanted {
            return Vec::from_slice(alloc, &[self.pair(b, id)]);
        }
        Ok(Vec::new(alloc))
    }

    /// The records of a block that these ids meet, or the one that says that there are none.
    fn pairs(&self, alloc: Global, b: Block, ids: &[u32]) -> Result<Vec<Record>, AllocError>
        requires { IsBlock self.now.level b }
        ensures { IfOk result (λ v. v.items ≡ map (fact_record self.now.level self.now.layer) (pair_facts b ids.now)) }
    {
        if ids.is_empty() {
            return Vec::from_slice(alloc, &[self.pair(b, None)]);
        }
        let mut records = Vec::new(alloc);
        for id in ids {
            records.push(self.pair(b, Some(*id)))?;
        }
        Ok(records)
    }
}

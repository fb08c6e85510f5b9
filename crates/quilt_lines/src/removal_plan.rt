ghost use Rattle.std.specs.Prelude.{◌≡◌, ◌↔◌, ◌≤◌, ◌<◌, ◌+◌, ◌++◌, ◌∷◌, length, IfOk, IfErr, IfSome, IsErrOf, IsNone, List, Some, MatchOption};
ghost use Rattle.std.specs.FinMap as finmap;
ghost use Rattle.quilt_types.specs.declared.plane.Seg.{Seg as AnySeg};
ghost use Rattle.quilt_types.specs.declared.stop.Stop.TheVariants.{Device};
ghost use Rattle.quilt_types.specs.Plane.{whole};
ghost use Rattle.quilt_types.specs.Layers.{SegMap, BlockSet, IsLineMap};
ghost use Rattle.quilt_types.specs.Facts.{IsSegment};
ghost use Rattle.quilt_types.specs.Quadtrees.{after_remove, reach};
ghost use Rattle.quilt_record.specs.declared.record.Record.{Record as AnyRecord};
ghost use Rattle.quilt_store.specs.Calls.{OnlyReads};
ghost use Rattle.quilt_world.specs.Tale.{Goes};
ghost use Rattle.quilt_store.specs.Stops.{IsNotDamage};
ghost use Rattle.quilt_btree.specs.Stops.{NamesPage};
ghost use Rattle.quilt_btree.specs.Trees.{IsRooted, IsTree};
ghost use Rattle.quilt_edits.specs.Edits.{EditsAscend};
ghost use Rattle.quilt_lines.specs.Layers.{HasLines, fact_record};
ghost use Rattle.quilt_lines.specs.Merges.{BecomesSettled, IsRemovalPlan};
ghost use Rattle.quilt_lines.specs.Plans.{IsLinePlan};
ghost use Rattle.quilt_lines.specs.Bounds.{is_met_above};

use crate::merge::Settled;
use crate::removal::Removal;
use crate::search::Search;
use crate::segments::segment;
use quilt_btree::Tree;
use quilt_edits::edits_of;
use quilt_loc::whole_square;
use quilt_record::{Edits, Record, segment_record};
use quilt_store::PageStore;
use quilt_types::{Pixel, Stop};
use std::alloc::{AllocError, Global};

/// The records that go and those that come when the segment of an id goes from the line layer with this number, from 1 to 255, and
/// this splitting threshold, from 1 to 32, of a map of this level, from 1 to 12: None exactly where the id is not there. Fewer
/// records come than go. It reads at most 3 pages, and what a look at the whole square and at each block whose parent the segment
/// meets may cost. Page 0 is said to be damaged where the records under the id's key or on a block are none of a line layer, and where
/// what goes and comes are no edits.
pub fn plan_remove<S: PageStore>(
    alloc: Global,
    store: &mut S,
    tree: &Tree,
    layer: u8,
    level: u8,
    t: u8,
    id: u32,
) -> Result<Option<Edits>, Stop>
    requires rooted { IsRooted (S.size store.old) tree.now }
    requires layer { 1 ≤ layer }
    requires level { (1 ≤ level) × (level ≤ 12) }
    requires threshold { (1 ≤ t) × (t ≤ 32) }
    ensures plan { IfOk result (λ o. IfSome o (λ edits. (segs : SegMap) (cover : BlockSet) →
        HasLines (S.told store.old) tree.now layer level t segs cover → (s : AnySeg) → finmap.get segs id ≡ Some s →
        IsLinePlan level layer t segs (finmap.remove segs id) cover (after_remove level t (finmap.remove segs id) cover s) edits)) }
    ensures none { IfOk result (λ o. (segs : SegMap) (cover : BlockSet) → HasLines (S.told store.old) tree.now layer level t segs cover →
        IsNone o ↔ IsNone (finmap.get segs id)) }
    ensures fewer { IfOk result (λ o. IfSome o (λ edits. (segs : SegMap) (cover : BlockSet) →
        HasLines (S.told store.old) tree.now layer level t segs cover → length edits.add < length edits.remove)) }
    ensures order { IfOk result (λ o. IfSome o EditsAscend) }
    ensures sound { IfErr result (λ e. (segs : SegMap) (cover : BlockSet) → HasLines (S.told store.old) tree.now layer level t segs cover →
        IsNotDamage e) }
    ensures zero { IfErr result (λ e. (rs : List AnyRecord) → IsTree (S.told store.old) tree.now rs → NamesPage 1 e) }
    ensures left { OnlyReads S.PageStore store.old store.new result }
    ensures reads { IfOk result (λ o. MatchOption o (Goes (λ old new. new ≤ old + 3) (S.reads store.old) (S.reads store.new))
        (λ edits. (segs : SegMap) (cover : BlockSet) → HasLines (S.told store.old) tree.now layer level t segs cover →
        (s : AnySeg) → finmap.get segs id ≡ Some s →
        Goes (λ old new. new ≤ old + (3 + reach level segs cover (is_met_above level s))) (S.reads store.old) (S.reads store.new))) }
{
    let Some(s) = segment(store, tree, layer, level, id)? else {
        return Ok(None);
    };
    let removal = Removal {
        layer,
        level,
        threshold: t,
        id,
        segment: s,
    };
    let edits = removal.plan(alloc, store, tree)?;
    Ok(Some(edits))
}

impl Removal {
    /// The records that go and those that come.
    fn plan<S: PageStore>(&self, alloc: Global, store: &mut S, tree: &Tree) -> Result<Edits, Stop>
        requires rooted { IsRooted (S.size store.old) tree.now }
        ensures plan { IfOk result (λ edits. (segs : SegMap) (cover : BlockSet) →
            HasLines (S.told store.old) tree.now self.now.layer self.now.level self.now.threshold segs cover →
            finmap.get segs self.now.id ≡ Some self.now.segment → IsRemovalPlan self.now segs cover edits) }
        ensures order { IfOk result EditsAscend }
        ensures sound { IfErr result (λ e. (segs : SegMap) (cover : BlockSet) →
            HasLines (S.told store.old) tree.now self.now.layer self.now.level self.now.threshold segs cover →
            finmap.get segs self.now.id ≡ Some self.now.segment → IsNotDamage e) }
        ensures zero { IfErr result (λ e. (rs : List AnyRecord) → IsTree (S.told store.old) tree.now rs → NamesPage 1 e) }
        ensures left { OnlyReads S.PageStore store.old store.new result }
        ensures reads { IfOk result (λ edits. (segs : SegMap) (cover : BlockSet) → HasLines (S.told store.old) tree.now self.now.layer self.now.level self.now.threshold segs cover →
            Goes (λ old new. new ≤ old + reach self.now.level segs cover (is_met_above self.now.level self.now.segment)) (S.reads store.old)
            (S.reads store.new)) }
    {
        let mut search = Search::new(Pixel {
            x: self.segment.x1,
            y: self.segment.y1,
        });
        let all = self.settle(alloc, store, tree, &mut search, whole_square(self.level))?;
        self.edits(alloc, &all)
    }

    /// The records that go and those that come, by what becomes of the whole square.
    fn edits(&self, alloc: Global, all: &Settled) -> Result<Edits, Stop>
        ensures plan { IfOk result (λ edits. (segs : SegMap) (cover : BlockSet) → IsLineMap self.now.level self.now.threshold segs cover →
            finmap.get segs self.now.id ≡ Some self.now.segment → BecomesSettled self.now segs cover self.now.level (whole self.now.level) all.now →
            IsRemovalPlan self.now segs cover edits) }
        ensures order { IfOk result EditsAscend }
        ensures sound { IfErr result (λ e. (segs : SegMap) (cover : BlockSet) → IsLineMap self.now.level self.now.threshold segs cover →
            finmap.get segs self.now.id ≡ Some self.now.segment → BecomesSettled self.now segs cover self.now.level (whole self.now.level) all.now →
            IsNotDamage e) }
        ensures zero { IfErr result (NamesPage 1) }
        ensures no_fault { IsErrOf result Device → ⊥ }
    {
        let Ok(gone) = self.gone(alloc, all) else {
            return Err(Stop::Memory);
        };
        let Ok(back) = back(alloc, all) else {
            return Err(Stop::Memory);
        };
        edits_of(gone, back)
    }

    /// The records that go.
    fn gone(&self, alloc: Global, all: &Settled) -> Result<Vec<Record>, AllocError>
        ensures { IfOk result (λ v. v.items ≡
            fact_record self.now.level self.now.layer (IsSegment self.now.id self.now.segment) ∷ all.now.going.items ++ all.now.staying.items) }
    {
        let mut gone = Vec::new(alloc);
        gone.push(segment_record(self.layer, self.id, self.segment))?;
        gone.extend_from_slice(&all.going)?;
        gone.extend_from_slice(&all.staying)?;
        Ok(gone)
    }
}

/// The records that come.
fn back(alloc: Global, all: &Settled) -> Result<Vec<Record>, AllocError>
    ensures { IfOk result (λ v. v.items ≡ all.now.coming.items ++ all.now.emptied.items) }
{
    let mut back = Vec::from_slice(alloc, &all.coming)?;
    back.extend_from_slice(&all.emptied)?;
    Ok(back)
}

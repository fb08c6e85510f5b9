ghost use Rattle.std.specs.Prelude.{◌≡◌, ◌↔◌, ◌≤◌, ◌<◌, ◌+◌, ◌*◌, ℕ, true, [], ◌∷◌, ◌++◌, length};
ghost use Rattle.std.specs.Prelude.{IfOk, IfErr, IfSome, IsNone, IsSome, List, None, OnOk, MatchOption};
ghost use Rattle.std.specs.FinMap as finmap;
ghost use Rattle.quilt_types.specs.Facts.{IsMetBy};
ghost use Rattle.quilt_types.specs.Layers.{SegMap, BlockSet, is_in_square as is_seg_in_square};
ghost use Rattle.quilt_types.specs.Plane.{side as side_of, IsBlock};
ghost use Rattle.quilt_types.specs.Quadtrees.{after_add, is_reached, reach};
ghost use Rattle.quilt_types.specs.Segments.{square, meets as segment_meets};
ghost use Rattle.quilt_near.specs.Lines.{meeting};
ghost use Rattle.quilt_line_laws.specs.Merging.{met_in};
ghost use Rattle.quilt_record.specs.declared.record.Record.{Record as AnyRecord};
ghost use Rattle.quilt_store.specs.Calls.{OnlyReads};
ghost use Rattle.quilt_world.specs.Tale.{Goes};
ghost use Rattle.quilt_store.specs.Stops.{IsNotDamage};
ghost use Rattle.quilt_btree.specs.Stops.{NamesPage};
ghost use Rattle.quilt_btree.specs.Trees.{IsRooted, IsTree};
ghost use Rattle.quilt_edits.specs.Edits.{EditsAscend};
ghost use Rattle.quilt_lines.specs.Layers.{HasLines};
ghost use Rattle.quilt_lines.specs.Reads.{ids_of};
ghost use Rattle.quilt_lines.specs.Adding.{facts_by, none_by, quarter_facts, ids_meeting as ids_meeting_it, Follow, IsAdded};
ghost use Rattle.quilt_lines.specs.Plans.{IsLinePlan};
ghost use Rattle.quilt_lines.specs.Bounds.{is_met, due};
ghost use Rattle.quilt_lines.specs.Searches.{IsLineSearch};

use crate::search::Search;
use crate::view::{DAMAGED, LineView};
use quilt_btree::Tree;
use quilt_clip::meets;
use quilt_edits::edits_of;
use quilt_loc::{quarters, whole_square};
use quilt_record::{Edits, Record, pair_record, segment_record};
use quilt_store::PageStore;
use quilt_types::{Block, Pixel, Seg, Stop};
use std::alloc::{AllocError, Global};

/// The records that go and those that come when a segment comes under an id to the line layer with this number, from 1 to 255, and
/// this splitting threshold, from 1 to 32, of a map of this level, from 1 to 12: None exactly where the id is there. Both ends are
/// pixels of the square. It reads at most 3 pages, and what a look at each block that the segment meets may cost. Page 0 is said to be
/// damaged where the records under the id's key or on a block are none of a line layer, where a pixel that the segment meets has none,
/// where a segment of a block that is split is missing, and where what goes and comes are no edits.
pub fn plan_add<S: PageStore>(
    alloc: Global,
    store: &mut S,
    tree: &Tree,
    layer: u8,
    level: u8,
    t: u8,
    id: u32,
    s: Seg,
) -> Result<Option<Edits>, Stop>
    requires rooted { IsRooted (S.size store.old) tree.now }
    requires layer { 1 ≤ layer }
    requires level { (1 ≤ level) × (level ≤ 12) }
    requires threshold { (1 ≤ t) × (t ≤ 32) }
    requires inside { is_seg_in_square level s ≡ true }
    ensures plan { IfOk result (λ o. IfSome o (λ edits. (segs : SegMap) (cover : BlockSet) →
        HasLines (S.told store.old) tree.now layer level t segs cover →
        IsLinePlan level layer t segs (finmap.insert segs id s) cover (after_add t (finmap.insert segs id s) cover s) edits)) }
    ensures none { IfOk result (λ o. (segs : SegMap) (cover : BlockSet) → HasLines (S.told store.old) tree.now layer level t segs cover →
        IsNone o ↔ IsSome (finmap.get segs id)) }
    ensures order { IfOk result (λ o. IfSome o EditsAscend) }
    ensures sound { IfErr result (λ e. (segs : SegMap) (cover : BlockSet) → HasLines (S.told store.old) tree.now layer level t segs cover →
        IsNotDamage e) }
    ensures zero { IfErr result (λ e. (rs : List AnyRecord) → IsTree (S.told store.old) tree.now rs → NamesPage 1 e) }
    ensures left { OnlyReads S.PageStore store.old store.new result }
    ensures reads { IfOk result (λ o. MatchOption o (Goes (λ old new. new ≤ old + 3) (S.reads store.old) (S.reads store.new))
        (λ edits. (segs : SegMap) (cover : BlockSet) → HasLines (S.told store.old) tree.now layer level t segs cover →
        Goes (λ old new. new ≤ old + (3 + reach level segs cover (is_met s))) (S.reads store.old) (S.reads store.new))) }
{
    let view = LineView {
        tree: *tree,
        layer,
        level,
    };
    if view.segment(store, id)?.is_some() {
        return Ok(None);
    }
    let arrival = Arrival { view, t, id, s };
    let edits = arrival.edits(alloc, store)?;
    Ok(Some(edits))
}

/// A segment that comes to a line layer under an id. A block that more than `t` segments then meet is split.
#[derive(Clone, Copy)]
struct Arrival {
    view: LineView,
    t: u8,
    id: u32,
    s: Seg,
    ghost has_threshold: { (1 ≤ t) × (t ≤ 32) },
    ghost has_inside: { is_seg_in_square view.level s ≡ true },
}

/// The records of a layer that go and those that come.
#[derive(Drop)]
struct Change {
    gone: Vec<Record>,
    come: Vec<Record>,
}

impl Arrival {
    /// The records that go and those that come, where the id is not there.
    fn edits<S: PageStore>(&self, alloc: Global, store: &mut S) -> Result<Edits, Stop>
        requires rooted { IsRooted (S.size store.old) self.now.view.tree }
        ensures plan { IfOk result (λ edits. (segs : SegMap) (cover : BlockSet) →
            HasLines (S.told store.old) self.now.view.tree self.now.view.layer self.now.view.level self.now.t segs cover →
            finmap.get segs self.now.id ≡ None →
            IsLinePlan self.now.view.level self.now.view.layer self.now.t segs (finmap.insert segs self.now.id self.now.s) cover
            (after_add self.now.t (finmap.insert segs self.now.id self.now.s) cover self.now.s) edits) }
        ensures order { IfOk result EditsAscend }
        ensures sound { IfErr result (λ e. (segs : SegMap) (cover : BlockSet) →
            HasLines (S.told store.old) self.now.view.tree self.now.view.layer self.now.view.level self.now.t segs cover →
            finmap.get segs self.now.id ≡ None → IsNotDamage e) }
        ensures zero { IfErr result (λ e. (rs : List AnyRecord) → IsTree (S.told store.old) self.now.view.tree rs → NamesPage 1 e) }
        ensures left { OnlyReads S.PageStore store.old store.new result }
        ensures reads { IfOk result (λ edits. (segs : SegMap) (cover : BlockSet) →
            HasLines (S.told store.old) self.now.view.tree self.now.view.layer self.now.view.level self.now.t segs cover →
            Goes (λ old new. new ≤ old + reach self.now.view.level segs cover (is_met self.now.s)) (S.reads store.old) (S.reads store.new)) }
    {
        let mut change = Change {
            gone: Vec::new(alloc),
            come: Vec::new(alloc),
        };
        let row = segment_record(self.view.layer, self.id, self.s);
        match change.come.push(row) {
            Err(_) => return Err(Stop::Memory),
            Ok(()) => {}
        }
        let mut search = Search::new(Pixel {
            x: self.s.x1,
            y: self.s.y1,
        });
        let all = whole_square(self.view.level);
        self.add_in(alloc, store, &mut search, &mut change, all)?;
        edits_of(change.gone, change.come)
    }

    /// Adds the records of the facts that change in a block, from the blocks of the layer in it that the segment meets.
    fn add_in<S: PageStore>(
        &self,
        alloc: Global,
        store: &mut S,
        search: &mut Search,
        change: &mut Change,
        b: Block,
    ) -> Result<(), Stop>
        requires rooted { IsRooted (S.size store.old) self.now.view.tree }
        requires search { IsLineSearch (S.told store.old) self.now.view.tree self.now.view.level self.now.view.layer search.old }
        requires block { IsBlock self.now.view.level b }
        ensures search { OnOk result (IsLineSearch (S.told store.old) self.now.view.tree self.now.view.level self.now.view.layer search.new) }
        ensures added { OnOk result ((segs : SegMap) (cover : BlockSet) →
            HasLines (S.told store.old) self.now.view.tree self.now.view.layer self.now.view.level self.now.t segs cover →
            finmap.get segs self.now.id ≡ None → (k : ℕ) → b.side ≡ side_of k →
            IsAdded self.now.view.level self.now.view.layer self.now.t segs self.now.id self.now.s (met_in cover self.now.s k b)
            change.old.gone.items change.new.gone.items change.old.come.items change.new.come.items) }
        ensures sound { IfErr result (λ e. (segs : SegMap) (cover : BlockSet) →
            HasLines (S.told store.old) self.now.view.tree self.now.view.layer self.now.view.level self.now.t segs cover →
            is_reached cover b ≡ true → IsNotDamage e) }
        ensures zero { IfErr result (λ e. (rs : List AnyRecord) → IsTree (S.told store.old) self.now.view.tree rs → NamesPage 1 e) }
        ensures left { OnlyReads S.PageStore store.old store.new result }
        ensures reads { OnOk result ((segs : SegMap) (cover : BlockSet) →
            HasLines (S.told store.old) self.now.view.tree self.now.view.layer self.now.view.level self.now.t segs cover →
            is_reached cover b ≡ true →
            Goes (λ old new. new ≤ old + due self.now.view.level (is_met self.now.s) segs cover b) (S.reads store.old) (S.reads store.new)) }
    {
        if !meets(self.s, b) {
            return Ok(());
        }
        if let Some(ids) = self.view.ids_near(alloc, store, search, b)? {
            return self.add_block(alloc, store, change, b, &ids);
        }
        if b.side <= 1 {
            return Err(DAMAGED);
        }
        for q in quarters(b) {
            self.add_in(alloc, store, search, change, q)?;
        }
        Ok(())
    }

    /// Adds the records of the facts that change on a block of the layer that the segment meets, beside those with these ids.
    fn add_block<S: PageStore>(
        &self,
        alloc: Global,
        store: &mut S,
        change: &mut Change,
        b: Block,
        ids: &[u32],
    ) -> Result<(), Stop>
        requires rooted { IsRooted (S.size store.old) self.now.view.tree }
        requires block { IsBlock self.now.view.level b }
        ensures added { OnOk result ((segs : SegMap) (cover : BlockSet) →
            HasLines (S.told store.old) self.now.view.tree self.now.view.layer self.now.view.level self.now.t segs cover →
            finmap.get segs self.now.id ≡ None → ids.now ≡ ids_of (meeting segs b) → segment_meets self.now.s (square b) ≡ true →
            IsAdded self.now.view.level self.now.view.layer self.now.t segs self.now.id self.now.s (b ∷ [])
            change.old.gone.items change.new.gone.items change.old.come.items change.new.come.items) }
        ensures sound { IfErr result (λ e. (segs : SegMap) (cover : BlockSet) →
            HasLines (S.told store.old) self.now.view.tree self.now.view.layer self.now.view.level self.now.t segs cover →
            ids.now ≡ ids_of (meeting segs b) → IsNotDamage e) }
        ensures zero { IfErr result (λ e. (rs : List AnyRecord) → IsTree (S.told store.old) self.now.view.tree rs → NamesPage 1 e) }
        ensures left { OnlyReads S.PageStore store.old store.new result }
        ensures reads { OnOk result (Goes (λ old new. new ≤ old + 3 * length ids.now) (S.reads store.old) (S.reads store.new)) }
    {
        if b.side > 1 && ids.len() >= usize::from(self.t) {
            return self.split(alloc, store, change, b, ids);
        }
        match self.stay(change, b, ids) {
            Err(_) => Err(Stop::Memory),
            Ok(()) => Ok(()),
        }
    }

    /// Adds the records of the facts that change on a block that stays: that the segment meets it, and no longer that none does.
    fn stay(&self, change: &mut Change, b: Block, ids: &[u32]) -> Result<(), AllocError>
        requires block { IsBlock self.now.view.level b }
        ensures gone { OnOk result (Follow self.now.view.level self.now.view.layer change.old.gone.items change.new.gone.items (none_by b ids.now)) }
        ensures come { OnOk result (Follow self.now.view.level self.now.view.layer
            change.old.come.items change.new.come.items (IsMetBy b self.now.id ∷ [])) }
    {
        if ids.is_empty() {
            change
                .gone
                .push(pair_record(self.view.layer, b, self.view.level, None))?;
        }
        change.come.push(pair_record(self.view.layer, b, self.view.level, Some(self.id)))?;
        Ok(())
    }

    /// Adds the records of the facts that change on a block that is split into its quarters.
    fn split<S: PageStore>(
        &self,
        alloc: Global,
        store: &mut S,
        change: &mut Change,
        b: Block,
        ids: &[u32],
    ) -> Result<(), Stop>
        requires rooted { IsRooted (S.size store.old) self.now.view.tree }
        requires block { IsBlock self.now.view.level b }
        requires wide { 1 < b.side }
        ensures gone { OnOk result (Follow self.now.view.level self.now.view.layer change.old.gone.items change.new.gone.items (facts_by b ids.now)) }
        ensures come { OnOk result ((segs : SegMap) (cover : BlockSet) →
            HasLines (S.told store.old) self.now.view.tree self.now.view.layer self.now.view.level self.now.t segs cover →
            ids.now ≡ ids_of (meeting segs b) →
            Follow self.now.view.level self.now.view.layer change.old.come.items change.new.come.items
            (quarter_facts (meeting segs b ++ (self.now.id, self.now.s) ∷ []) b)) }
        ensures sound { IfErr result (λ e. (segs : SegMap) (cover : BlockSet) →
            HasLines (S.told store.old) self.now.view.tree self.now.view.layer self.now.view.level self.now.t segs cover →
            ids.now ≡ ids_of (meeting segs b) → IsNotDamage e) }
        ensures zero { IfErr result (λ e. (rs : List AnyRecord) → IsTree (S.told store.old) self.now.view.tree rs → NamesPage 1 e) }
        ensures left { OnlyReads S.PageStore store.old store.new result }
        ensures reads { OnOk result (Goes (λ old new. new ≤ old + 3 * length ids.now) (S.reads store.old) (S.reads store.new)) }
    {
        match self.view.push_facts(&mut change.gone, b, ids) {
            Err(_) => return Err(Stop::Memory),
            Ok(()) => {}
        }
        let mut list = self.view.segments(alloc, store, ids)?;
        match list.push(self.id, self.s) {
            Err(_) => return Err(Stop::Memory),
            Ok(()) => {}
        }
        match self
            .view
            .push_quarters(alloc, &mut change.come, b, list.items())
        {
            Err(_) => Err(Stop::Memory),
            Ok(()) => Ok(()),
        }
    }
}

impl LineView {
    /// Adds the records of the facts on the quarters of a block that these segments meet, and no others.
    fn push_quarters(
        &self,
        alloc: Global,
        records: &mut Vec<Record>,
        b: Block,
        list: &[(u32, Seg)],
    ) -> Result<(), AllocError>
        requires block { IsBlock self.now.level b }
        requires wide { 1 < b.side }
        ensures { OnOk result (Follow self.now.level self.now.layer records.old.items records.new.items (quarter_facts list.now b)) }
    {
        for q in quarters(b) {
            let ids = ids_meeting(alloc, list, q)?;
            self.push_facts(records, q, &ids)?;
        }
        Ok(())
    }

    /// Adds the records of the facts on a block that the segments with these ids meet, and no others.
    fn push_facts(&self, records: &mut Vec<Record>, b: Block, ids: &[u32]) -> Result<(), AllocError>
        requires { IsBlock self.now.level b }
        ensures { OnOk result (Follow self.now.level self.now.layer records.old.items records.new.items (facts_by b ids.now)) }
    {
        if ids.is_empty() {
            records.push(pair_record(self.layer, b, self.level, None))?;
            return Ok(());
        }
        for id in ids {
            records.push(pair_record(self.layer, b, self.level, Some(*id)))?;
        }
        Ok(())
    }
}

/// The ids of those of the segments that meet the block.
fn ids_meeting(alloc: Global, list: &[(u32, Seg)], b: Block) -> Result<Vec<u32>, AllocError>
    ensures { IfOk result (λ ids. ids.items ≡ ids_meeting_it list.now b) }
{
    list.iter()
        .filter(|e| meets(e.1, b))
        .map(|e| e.0)
        .collect(alloc)
}

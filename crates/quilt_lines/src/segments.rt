ghost use Rattle.std.specs.Prelude.{◌≡◌, ◌≢◌, ℕ, ◌+◌, ◌*◌, ◌<◌, ◌≤◌, ◌&&◌, true, All, Contains, Some, IfOk, IfErr, IfSome, IsErrOf, OnOk, [], ◌∷◌, ◌++◌, map};
ghost use Rattle.std.specs.Prelude.{length, List, count_by, false};
ghost use Rattle.std.specs.FinMap as finmap;
ghost use Rattle.std.specs.Ordering.{nat_cmp};
ghost use Rattle.quilt_types.specs.declared.plane.Seg.{Seg as AnySeg};
ghost use Rattle.quilt_types.specs.declared.stop.Stop.TheVariants.{Device, Damaged};
ghost use Rattle.quilt_types.specs.Facts.{IsSegment};
ghost use Rattle.quilt_types.specs.Layers.{SegMap, BlockSet, IsLineMap, is_in_square as is_seg_in_square};
ghost use Rattle.quilt_loc.specs.Codes.{Rises};
ghost use Rattle.quilt_record.specs.Canonical.{FactFits};
ghost use Rattle.quilt_store.specs.Calls.{OnlyReads};
ghost use Rattle.quilt_world.specs.Tale.{Goes};
ghost use Rattle.quilt_store.specs.Stops.{IsNotDamage};
ghost use Rattle.quilt_record.specs.declared.record.Record.{Record};
ghost use Rattle.quilt_btree.specs.Damage.{NamesBad};
ghost use Rattle.quilt_btree.specs.Spots.{IsSpotIf};
ghost use Rattle.quilt_btree.specs.Stops.{NamesPage};
ghost use Rattle.quilt_btree.specs.Trees.{IsRooted, IsTree};
ghost use Rattle.quilt_near.specs.Lines.{Lines};
ghost use Rattle.quilt_near.specs.Knowing.{Knows, StaysKnown, known_seg, many_known};
ghost use Rattle.std.specs.Option.{is_none};
ghost use Rattle.quilt_lines.specs.Marks.{IsMark};
ghost use Rattle.quilt_lines.specs.Layers.{HasLines, ShowsLines, fact_record, segment_facts};
ghost use Rattle.quilt_lines.specs.Reads.{segment_key as key_of, ids_of};
ghost use Rattle.quilt_lines.specs.Said.{SaySegment, SaySegmentAt, SaySegments, segment_records};

use crate::marks::{mark_of, spot_of};
use crate::view::{DAMAGED, LineView};
use quilt_btree::{Spot, Tree};
use quilt_near::{Known, SegList};
use quilt_record::{Key, Record, read_segment};
use quilt_store::PageStore;
use quilt_types::{Seg, Stop};
use std::alloc::Global;

/// The segment of an id in the line layer with this number, from 1 to 255, of a map of this level, from 1 to 12: None exactly
/// where the id is not there. It reads at most 3 pages. Page 0 is said to be damaged where the record under the id's key is none of
/// a segment whose ends are pixels of the level.
pub fn segment<S: PageStore>(
    store: &mut S,
    tree: &Tree,
    layer: u8,
    level: u8,
    id: u32,
) -> Result<Option<Seg>, Stop>
    requires rooted { IsRooted (S.size store.old) tree.now }
    requires layer { 1 ≤ layer }
    requires level { (1 ≤ level) × (level ≤ 12) }
    ensures segment { IfOk result (λ o. (t : ℕ) (segs : SegMap) (cover : BlockSet) → HasLines (S.told store.old) tree.now layer level t segs cover
        → o ≡ finmap.get segs id) }
    ensures inside { IfOk result (λ o. IfSome o (λ s. is_seg_in_square level s ≡ true)) }
    ensures said { IfOk result (λ o. (rs : List Record) → IsTree (S.told store.old) tree.now rs → SaySegmentAt level layer rs id o) }
    ensures sound { IfErr result (λ e. (t : ℕ) (segs : SegMap) (cover : BlockSet) → HasLines (S.told store.old) tree.now layer level t segs cover → IsNotDamage e) }
    ensures zero { IfErr result (λ e. (rs : List Record) → IsTree (S.told store.old) tree.now rs → NamesPage 1 e) }
    ensures bad { IfErr result (λ e. e ≢ Damaged 0 → NamesBad (S.told store.old) tree.now.height tree.now.root e) }
    ensures left { OnlyReads S.PageStore store.old store.new result }
    ensures reads { Goes (λ old new. new ≤ old + 3) (S.reads store.old) (S.reads store.new) }
{
    let view = LineView {
        tree: *tree,
        layer,
        level,
    };
    view.segment(store, id)
}

/// All segments by id of the line layer with this number, from 1 to 255, of a map of this level, from 1 to 12. It reads at most 6
/// pages, and 3 more for each segment. Page 0 is said to be damaged where a record under a segment's key is none of a segment whose
/// ends are pixels of the level.
pub fn scan<S: PageStore>(
    alloc: Global,
    store: &mut S,
    tree: &Tree,
    layer: u8,
    level: u8,
) -> Result<SegList, Stop>
    requires rooted { IsRooted (S.size store.old) tree.now }
    requires layer { 1 ≤ layer }
    requires level { (1 ≤ level) × (level ≤ 12) }
    ensures segments { IfOk result (λ list. (t : ℕ) (segs : SegMap) (cover : BlockSet)
        → HasLines (S.told store.old) tree.now layer level t segs cover → list ≡ finmap.entries segs) }
    ensures inside { IfOk result (λ list. All (λ e. is_seg_in_square level e.1 ≡ true) list) }
    ensures order { IfOk result (λ list. Rises nat_cmp (ids_of list)) }
    ensures said { IfOk result (λ list. (rs : List Record) → IsTree (S.told store.old) tree.now rs → SaySegments level layer (segment_records layer rs) list) }
    ensures sound { IfErr result (λ e. (t : ℕ) (segs : SegMap) (cover : BlockSet) → HasLines (S.told store.old) tree.now layer level t segs cover → IsNotDamage e) }
    ensures zero { IfErr result (λ e. (rs : List Record) → IsTree (S.told store.old) tree.now rs → NamesPage 1 e) }
    ensures bad { IfErr result (λ e. e ≢ Damaged 0 → NamesBad (S.told store.old) tree.now.height tree.now.root e) }
    ensures left { OnlyReads S.PageStore store.old store.new result }
    ensures reads { IfOk result (λ list. Goes (λ old new. new ≤ old + 6 + 3 * length list) (S.reads store.old) (S.reads store.new)) }
{
    let view = LineView {
        tree: *tree,
        layer,
        level,
    };
    let low = segment_key(layer, 0);
    let high = segment_key(layer, u32::MAX);
    let records = tree.range(alloc, store, &low, &high, u32::MAX)?;
    view.all_segments(alloc, &records)
}

/// The key of the segment with an id.
pub(crate) fn segment_key(layer: u8, id: u32) -> Key
    ensures { result ≡ key_of layer id }
{
    Key {
        layer: u16::from(layer),
        part: 4,
        code: 0,
        depth: 0,
        item: id,
    }
}

/// Whether both ends of the segment are pixels of the level, which is at most 12.
fn is_in_square(s: Seg, level: u8) -> bool
    requires { level ≤ 12 }
    ensures { result ≡ is_seg_in_square level s }
{
    let side = 1_u16 << level;
    (s.x1 < side && s.y1 < side) && (s.x2 < side && s.y2 < side)
}

impl LineView {
    /// The segment of an id. It reads at most 3 pages.
    pub(crate) fn segment<S: PageStore>(&self, store: &mut S, id: u32) -> Result<Option<Seg>, Stop>
        requires rooted { IsRooted (S.size store.old) self.now.tree }
        ensures segment { IfOk result (λ o. (t : ℕ) (segs : SegMap) (cover : BlockSet)
            → HasLines (S.told store.old) self.now.tree self.now.layer self.now.level t segs cover → o ≡ finmap.get segs id) }
        ensures inside { IfOk result (λ o. IfSome o (λ s. is_seg_in_square self.now.level s ≡ true)) }
        ensures said { IfOk result (λ o. (rs : List Record) → IsTree (S.told store.old) self.now.tree rs →
            SaySegmentAt self.now.level self.now.layer rs id o) }
        ensures zero { IfErr result (λ e. (rs : List Record) → IsTree (S.told store.old) self.now.tree rs → NamesPage 1 e) }
        ensures bad { IfErr result (λ e. e ≢ Damaged 0 → NamesBad (S.told store.old) self.now.tree.height self.now.tree.root e) }
        ensures sound { IfErr result (λ e. (t : ℕ) (segs : SegMap) (cover : BlockSet)
            → HasLines (S.told store.old) self.now.tree self.now.layer self.now.level t segs cover → IsNotDamage e) }
        ensures left { OnlyReads S.PageStore store.old store.new result }
        ensures reads { Goes (λ old new. new ≤ old + 3) (S.reads store.old) (S.reads store.new) }
    {
        let mut spot = None;
        self.segment_from(store, &mut spot, id)
    }

    /// The same, where the record may be in the leaf of a spot, which is put to its leaf. It reads at most 3 pages.
    fn segment_from<S: PageStore>(
        &self,
        store: &mut S,
        spot: &mut Option<Spot>,
        id: u32,
    ) -> Result<Option<Seg>, Stop>
        requires rooted { IsRooted (S.size store.old) self.now.tree }
        requires spot { IsSpotIf (S.told store.old) self.now.tree spot.old }
        ensures spot { OnOk result (IsSpotIf (S.told store.old) self.now.tree spot.new) }
        ensures segment { IfOk result (λ o. (t : ℕ) (segs : SegMap) (cover : BlockSet)
            → HasLines (S.told store.old) self.now.tree self.now.layer self.now.level t segs cover → o ≡ finmap.get segs id) }
        ensures inside { IfOk result (λ o. IfSome o (λ s. is_seg_in_square self.now.level s ≡ true)) }
        ensures said { IfOk result (λ o. (rs : List Record) → IsTree (S.told store.old) self.now.tree rs →
            SaySegmentAt self.now.level self.now.layer rs id o) }
        ensures zero { IfErr result (λ e. (rs : List Record) → IsTree (S.told store.old) self.now.tree rs → NamesPage 1 e) }
        ensures bad { IfErr result (λ e. e ≢ Damaged 0 → NamesBad (S.told store.old) self.now.tree.height self.now.tree.root e) }
        ensures sound { IfErr result (λ e. (t : ℕ) (segs : SegMap) (cover : BlockSet)
            → HasLines (S.told store.old) self.now.tree self.now.layer self.now.level t segs cover → IsNotDamage e) }
        ensures left { OnlyReads S.PageStore store.old store.new result }
        ensures reads { Goes (λ old new. new ≤ old + 3) (S.reads store.old) (S.reads store.new) }
    {
        let key = segment_key(self.layer, id);
        let Some(value) = self.tree.get_from(store, spot, &key)? else {
            return Ok(None);
        };
        match self.segment_said(&Record { key, value }) {
            Some((_, s)) => Ok(Some(s)),
            None => Err(DAMAGED),
        }
    }

    /// The id and the segment that a record says, where both its ends are pixels of the level.
    pub(crate) fn segment_said(&self, r: &Record) -> Option<(u32, Seg)>
        ensures inside { IfSome result (λ v. is_seg_in_square self.now.level v.1 ≡ true) }
        ensures one { (id : ℕ) (s : AnySeg) → r.now ≡ fact_record self.now.level self.now.layer (IsSegment id s)
            → FactFits self.now.level (IsSegment id s) → is_seg_in_square self.now.level s ≡ true → result ≡ Some (id, s) }
        ensures some { IfSome result (λ v. r.now ≡ fact_record self.now.level r.now.key.layer (IsSegment v.0 v.1)) }
    {
        match read_segment(r) {
            Some((id, s)) if is_in_square(s, self.level) => Some((id, s)),
            _ => None,
        }
    }

    /// The segments of these ids. It reads at most 3 pages for each.
    pub(crate) fn segments<S: PageStore>(
        &self,
        alloc: Global,
        store: &mut S,
        ids: &[u32],
    ) -> Result<SegList, Stop>
        requires rooted { IsRooted (S.size store.old) self.now.tree }
        ensures ids { IfOk result (λ list. ids_of list ≡ ids.now) }
        ensures found { IfOk result (λ list. (t : ℕ) (segs : SegMap) (cover : BlockSet)
            → HasLines (S.told store.old) self.now.tree self.now.layer self.now.level t segs cover → All (λ e. finmap.get segs e.0 ≡ Some e.1) list) }
        ensures inside { IfOk result (λ list. All (λ e. is_seg_in_square self.now.level e.1 ≡ true) list) }
        ensures said { IfOk result (λ list. (rs : List Record) → IsTree (S.told store.old) self.now.tree rs →
            All (λ e. SaySegment self.now.level self.now.layer rs e.0 e.1) list) }
        ensures zero { IfErr result (λ e. (rs : List Record) → IsTree (S.told store.old) self.now.tree rs → NamesPage 1 e) }
        ensures bad { IfErr result (λ e. e ≢ Damaged 0 → NamesBad (S.told store.old) self.now.tree.height self.now.tree.root e) }
        ensures sound { IfErr result (λ e. (t : ℕ) (segs : SegMap) (cover : BlockSet)
            → HasLines (S.told store.old) self.now.tree self.now.layer self.now.level t segs cover
            → ((id : ℕ) → Contains ids.now id → (s : AnySeg) × (finmap.get segs id ≡ Some s)) → IsNotDamage e) }
        ensures left { OnlyReads S.PageStore store.old store.new result }
        ensures reads { IfOk result (λ list. Goes (λ old new. new ≤ old + 3 * length list) (S.reads store.old) (S.reads store.new)) }
    {
        let mut list = SegList::new(alloc);
        let mut spot = None;
        for id in ids {
            self.add_segment(store, &mut spot, &mut list, *id)?;
        }
        Ok(list)
    }

    /// Adds the segment of an id, which is there. It reads at most 3 pages.
    fn add_segment<S: PageStore>(
        &self,
        store: &mut S,
        spot: &mut Option<Spot>,
        list: &mut SegList,
        id: u32,
    ) -> Result<(), Stop>
        requires rooted { IsRooted (S.size store.old) self.now.tree }
        requires spot { IsSpotIf (S.told store.old) self.now.tree spot.old }
        ensures spot { OnOk result (IsSpotIf (S.told store.old) self.now.tree spot.new) }
        ensures added { OnOk result ((s : AnySeg) × (list.new ≡ list.old ++ (id, s) ∷ []) × (is_seg_in_square self.now.level s ≡ true)
            × ((t : ℕ) (segs : SegMap) (cover : BlockSet) → HasLines (S.told store.old) self.now.tree self.now.layer self.now.level t segs cover
            → finmap.get segs id ≡ Some s)
            × ((rs : List Record) → IsTree (S.told store.old) self.now.tree rs → SaySegment self.now.level self.now.layer rs id s)) }
        ensures zero { IfErr result (λ e. (rs : List Record) → IsTree (S.told store.old) self.now.tree rs → NamesPage 1 e) }
        ensures bad { IfErr result (λ e. e ≢ Damaged 0 → NamesBad (S.told store.old) self.now.tree.height self.now.tree.root e) }
        ensures sound { IfErr result (λ e. (t : ℕ) (segs : SegMap) (cover : BlockSet)
            → HasLines (S.told store.old) self.now.tree self.now.layer self.now.level t segs cover → (s : AnySeg) → finmap.get segs id ≡ Some s → IsNotDamage e) }
        ensures left { OnlyReads S.PageStore store.old store.new result }
        ensures reads { Goes (λ old new. new ≤ old + 3) (S.reads store.old) (S.reads store.new) }
    {
        let Some(s) = self.segment_from(store, spot, id)? else {
            return Err(DAMAGED);
        };
        match list.push(id, s) {
            Ok(()) => Ok(()),
            Err(_) => Err(Stop::Memory),
        }
    }

    /// The segments of these ids. It reads at most 3 pages for each that was not known, and knows it then.
    pub(crate) fn segments_known<S: PageStore>(
        &self,
        alloc: Global,
        store: &mut S,
        known: &mut Known,
        ids: &[u32],
    ) -> Result<SegList, Stop>
        requires rooted { IsRooted (S.size store.old) self.now.tree }
        requires known { Knows self.now.level (ShowsLines (S.told store.old) self.now.tree self.now.layer self.now.level) (IsMark (S.told store.old) self.now.tree) known.old }
        ensures ids { IfOk result (λ list. ids_of list ≡ ids.now) }
        ensures found { IfOk result (λ list. (l : Lines) → ShowsLines (S.told store.old) self.now.tree self.now.layer self.now.level l
            → All (λ e. finmap.get l.segs e.0 ≡ Some e.1) list) }
        ensures inside { IfOk result (λ list. All (λ e. is_seg_in_square self.now.level e.1 ≡ true) list) }
        ensures known { OnOk result (Knows self.now.level (ShowsLines (S.told store.old) self.now.tree self.now.layer self.now.level) (IsMark (S.told store.old) self.now.tree) known.new) }
        ensures stays { OnOk result (StaysKnown known.old known.new) }
        ensures zero { IfErr result (λ e. (rs : List Record) → IsTree (S.told store.old) self.now.tree rs → NamesPage 1 e) }
        ensures bad { IfErr result (λ e. e ≢ Damaged 0 → NamesBad (S.told store.old) self.now.tree.height self.now.tree.root e) }
        ensures sound { IfErr result (λ e. (l : Lines) → ShowsLines (S.told store.old) self.now.tree self.now.layer self.now.level l
            → ((id : ℕ) → Contains ids.now id → (s : AnySeg) × (finmap.get l.segs id ≡ Some s)) → IsNotDamage e) }
        ensures left { OnlyReads S.PageStore store.old store.new result }
        ensures reads { OnOk result (Goes (λ old new. new ≤ old + 3 * count_by (λ id. is_none (known_seg known.old id)) ids.now)
            (S.reads store.old) (S.reads store.new)) }
        ensures fresh { OnOk result (Goes (λ old new. new + 3 * many_known known.old ≤ old + 3 * many_known known.new)
            (S.reads store.old) (S.reads store.new)) }
    {
        let mut list = match SegList::with_room(alloc, ids.len()) {
            Err(_) => return Err(Stop::Memory),
            Ok(list) => list,
        };
        for id in ids {
            let s = self.segment_known(store, known, *id)?;
            match list.push(*id, s) {
                Err(_) => return Err(Stop::Memory),
                Ok(()) => {}
            }
        }
        Ok(list)
    }

    /// The segment of an id, which is there. It reads at most 3 pages where it was not known, and knows it then.
    fn segment_known<S: PageStore>(
        &self,
        store: &mut S,
        known: &mut Known,
        id: u32,
    ) -> Result<Seg, Stop>
        requires rooted { IsRooted (S.size store.old) self.now.tree }
        requires known { Knows self.now.level (ShowsLines (S.told store.old) self.now.tree self.now.layer self.now.level) (IsMark (S.told store.old) self.now.tree) known.old }
        ensures found { IfOk result (λ s. (l : Lines) → ShowsLines (S.told store.old) self.now.tree self.now.layer self.now.level l
            → finmap.get l.segs id ≡ Some s) }
        ensures inside { IfOk result (λ s. is_seg_in_square self.now.level s ≡ true) }
        ensures known { OnOk result (Knows self.now.level (ShowsLines (S.told store.old) self.now.tree self.now.layer self.now.level) (IsMark (S.told store.old) self.now.tree) known.new) }
        ensures stays { OnOk result (StaysKnown known.old known.new) }
        ensures zero { IfErr result (λ e. (rs : List Record) → IsTree (S.told store.old) self.now.tree rs → NamesPage 1 e) }
        ensures bad { IfErr result (λ e. e ≢ Damaged 0 → NamesBad (S.told store.old) self.now.tree.height self.now.tree.root e) }
        ensures sound { IfErr result (λ e. (l : Lines) → ShowsLines (S.told store.old) self.now.tree self.now.layer self.now.level l
            → (s : AnySeg) → finmap.get l.segs id ≡ Some s → IsNotDamage e) }
        ensures left { OnlyReads S.PageStore store.old store.new result }
        ensures reads { Goes (λ old new. new ≤ old + 3) (S.reads store.old) (S.reads store.new) }
        ensures again { is_none (known_seg known.old id) ≡ false → Goes (λ old new. new ≤ old) (S.reads store.old) (S.reads store.new) }
        ensures fresh { OnOk result (Goes (λ old new. new + 3 * many_known known.old ≤ old + 3 * many_known known.new)
            (S.reads store.old) (S.reads store.new)) }
    {
        if let Some(s) = known.find(id) {
            return Ok(s);
        }
        let mut spot = spot_of(&known.ids);
        let Some(s) = self.segment_from(store, &mut spot, id)? else {
            return Err(DAMAGED);
        };
        known.ids = mark_of(&spot);
        match known.keep(id, s) {
            Err(_) => Err(Stop::Memory),
            Ok(()) => Ok(s),
        }
    }

    /// The segments that records say, one each, by their ids.
    fn all_segments(&self, alloc: Global, records: &[Record]) -> Result<SegList, Stop>
        ensures segments { IfOk result (λ list. (t : ℕ) (segs : SegMap) (cover : BlockSet) → IsLineMap self.now.level t segs cover
            → records.now ≡ map (fact_record self.now.level self.now.layer) (segment_facts segs) → list ≡ finmap.entries segs) }
        ensures inside { IfOk result (λ list. All (λ e. is_seg_in_square self.now.level e.1 ≡ true) list) }
        ensures order { IfOk result (λ list. Rises nat_cmp (ids_of list)) }
        ensures said { IfOk result (λ list. All (λ r. r.key.layer ≡ self.now.layer) records.now → SaySegments self.now.level self.now.layer records.now list) }
        ensures many { IfOk result (λ list. length list ≡ length records.now) }
        ensures zero { IfErr result (NamesPage 1) }
        ensures sound { IfErr result (λ e. (t : ℕ) (segs : SegMap) (cover : BlockSet) → IsLineMap self.now.level t segs cover
            → records.now ≡ map (fact_record self.now.level self.now.layer) (segment_facts segs) → IsNotDamage e) }
        ensures no_fault { IsErrOf result Device → ⊥ }
    {
        let mut list = SegList::new(alloc);
        let mut least = 0_u64;
        for r in records {
            let Some((id, s)) = self.segment_said(r) else {
                return Err(DAMAGED);
            };
            if u64::from(id) < least {
                return Err(DAMAGED);
            }
            match list.push(id, s) {
                Ok(()) => least = u64::from(id) + 1,
                Err(_) => return Err(Stop::Memory),
            }
        }
        Ok(list)
    }
}

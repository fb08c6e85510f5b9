ghost use Rattle.std.specs.Prelude.{◌≡◌, ◌≢◌, ℕ, ◌+◌, ◌*◌, ◌≤◌, ◌++◌, ◌∷◌, true, false, filter, Option, Some, IfOk, IfErr, IfSome, OnOk, List, [], MatchOption, vec_len};
ghost use Rattle.std.specs.Ordering.{is_le, is_lt};
ghost use Rattle.quilt_types.specs.Sets as finset;
ghost use Rattle.quilt_types.specs.declared.plane.Pixel.{Pixel as AnyPixel};
ghost use Rattle.quilt_types.specs.declared.stop.Stop.TheVariants.{Damaged};
ghost use Rattle.quilt_types.specs.Plane.{in_block, IsBlock};
ghost use Rattle.quilt_types.specs.Layers.{SegMap, BlockSet};
ghost use Rattle.quilt_record.specs.declared.record.Record.{Record as AnyRecord};
ghost use Rattle.quilt_record.specs.Records.{key_cmp};
ghost use Rattle.quilt_store.specs.Calls.{OnlyReads};
ghost use Rattle.quilt_store.specs.Stops.{IsNotDamage};
ghost use Rattle.quilt_world.specs.Tale.{Goes};
ghost use Rattle.quilt_btree.specs.Damage.{NamesBad};
ghost use Rattle.quilt_btree.specs.Lists.{is_from_to};
ghost use Rattle.quilt_btree.specs.Spots.{IsSpotIf};
ghost use Rattle.quilt_btree.specs.Stops.{NamesPage};
ghost use Rattle.quilt_btree.specs.Trees.{IsRooted, IsTree};
ghost use Rattle.quilt_btree.specs.declared.tree.Tree.{Tree as AnyTree};
ghost use Rattle.quilt_lines.specs.Layers.{HasLines};
ghost use Rattle.quilt_lines.specs.Reads.{none_of, block_records, AreIdsAt};
ghost use Rattle.quilt_lines.specs.Said.{last_block_key};
ghost use Rattle.quilt_lines.specs.Searches.{IsLastAt, IsLastIn, IsLineSearch, is_before};
ghost use Rattle.quilt_lines.specs.Hints.{IsOfCover};

use crate::view::LineView;
use quilt_btree::Spot;
use quilt_loc::covers;
use quilt_record::{Key, Record, pair_record};
use quilt_store::PageStore;
use quilt_types::{Block, Pixel, Stop};
use std::alloc::Global;

/// What a look for the blocks at a pixel found: the last of the records that are at or before theirs.
#[derive(Clone, Copy)]
pub(crate) struct Look {
    last: Option<Record>,
}

/// Where a search for the blocks of a line layer stands: its spot in the tree, and what it found at one pixel, which stands for
/// all blocks that hold this pixel.
#[derive(Clone, Copy)]
pub(crate) struct Search {
    at: Pixel,
    home: Option<Look>,
    pub spot: Option<Spot>,
}

impl Search {
    /// A search about a pixel that has found nothing yet.
    pub(crate) fn new(at: Pixel) -> Search
        ensures { (told : Option (List (List ℕ))) (t : AnyTree) (n layer : ℕ) → IsLineSearch told t n layer result }
    {
        Search {
            at,
            home: None,
            spot: None,
        }
    }

    /// The record that it found at its pixel, if it looked there and there is one.
    fn record(&self) -> Option<Record>
        ensures { IfSome result (λ r. MatchOption self.now.home ⊥ (λ l. l.last ≡ Some r)) }
    {
        match self.home {
            None => None,
            Some(look) => look.last,
        }
    }
}

/// The record, if there is one and its key is one of those from `low` to `high`.
fn between(found: Option<Record>, low: &Key, high: &Key) -> Option<Record>
    ensures { MatchOption result (IfSome found (λ r. is_from_to low.now high.now r ≡ false)) (λ r. (found ≡ Some r) × (is_from_to low.now high.now r ≡ true)) }
{
    match found {
        None => None,
        Some(r) => {
            if *low <= r.key && r.key <= *high {
                Some(r)
            } else {
                None
            }
        }
    }
}

impl LineView {
    /// The block that was found at the pixel of a search.
    pub(crate) fn block_seen(&self, search: &Search) -> Option<Block>
        ensures { (told : Option (List (List ℕ))) (t : ℕ) (segs : SegMap) (cover : BlockSet)
            → IsLineSearch told self.now.tree self.now.level self.now.layer search.now
            → HasLines told self.now.tree self.now.layer self.now.level t segs cover → IsOfCover cover result }
    {
        match search.record() {
            None => None,
            Some(r) => self.block_of(&r),
        }
    }

    /// The last record at or before those of the blocks that begin at a pixel. It looks at one page where the record is in the spot's
    /// leaf, and reads at most 9 pages.
    fn last_at<S: PageStore>(
        &self,
        store: &mut S,
        spot: &mut Option<Spot>,
        p: Pixel,
    ) -> Result<Option<Record>, Stop>
        requires rooted { IsRooted (S.size store.old) self.now.tree }
        requires spot { IsSpotIf (S.told store.old) self.now.tree spot.old }
        requires pixel { (b : Block) → b.x ≡ p.x → b.y ≡ p.y → b.side ≡ 1 → IsBlock self.now.level b }
        ensures last { IfOk result (IsLastAt (S.told store.old) self.now.tree self.now.level self.now.layer p) }
        ensures spot { OnOk result (IsSpotIf (S.told store.old) self.now.tree spot.new) }
        ensures sound { IfErr result (λ e. (rs : List AnyRecord) → IsTree (S.told store.old) self.now.tree rs → IsNotDamage e) }
        ensures bad { IfErr result (λ e. e ≢ Damaged 0 → NamesBad (S.told store.old) self.now.tree.height self.now.tree.root e) }
        ensures left { OnlyReads S.PageStore store.old store.new result }
        ensures reads { Goes (λ old new. new ≤ old + 9) (S.reads store.old) (S.reads store.new) }
    {
        let pixel = Block {
            x: p.x,
            y: p.y,
            side: 1,
        };
        let key = pair_record(self.layer, pixel, self.level, Some(u32::MAX)).key;
        self.tree.floor_from(store, spot, &key)
    }

    /// The same for a pixel of a block: for that of the search, which is looked for once, where the block holds it. It reads at most 9
    /// pages.
    fn last_in<S: PageStore>(
        &self,
        store: &mut S,
        search: &mut Search,
        b: Block,
    ) -> Result<Option<Record>, Stop>
        requires rooted { IsRooted (S.size store.old) self.now.tree }
        requires search { IsLineSearch (S.told store.old) self.now.tree self.now.level self.now.layer search.old }
        requires block { IsBlock self.now.level b }
        ensures last { IfOk result (IsLastIn (S.told store.old) self.now.tree self.now.level self.now.layer b) }
        ensures search { OnOk result (IsLineSearch (S.told store.old) self.now.tree self.now.level self.now.layer search.new) }
        ensures sound { IfErr result (λ e. (rs : List AnyRecord) → IsTree (S.told store.old) self.now.tree rs → IsNotDamage e) }
        ensures bad { IfErr result (λ e. e ≢ Damaged 0 → NamesBad (S.told store.old) self.now.tree.height self.now.tree.root e) }
        ensures left { OnlyReads S.PageStore store.old store.new result }
        ensures reads { Goes (λ old new. new ≤ old + 9) (S.reads store.old) (S.reads store.new) }
    {
        if !covers(b, search.at) {
            return self.last_at(store, &mut search.spot, Pixel { x: b.x, y: b.y });
        }
        match search.home {
            Some(look) => return Ok(look.last),
            None => {}
        }
        let last = self.last_at(store, &mut search.spot, search.at)?;
        search.home = Some(Look { last });
        Ok(last)
    }

    /// The records from a key on, up to another one and without it, which is no other key where its item is 0. It reads nothing
    /// there, and else at most 6 pages and 3 for each record.
    fn records_before<S: PageStore>(
        &self,
        alloc: Global,
        store: &mut S,
        spot: &mut Option<Spot>,
        low: &Key,
        k: &Key,
    ) -> Result<Vec<Record>, Stop>
        requires rooted { IsRooted (S.size store.old) self.now.tree }
        requires spot { IsSpotIf (S.told store.old) self.now.tree spot.old }
        ensures spot { OnOk result (IsSpotIf (S.told store.old) self.now.tree spot.new) }
        ensures before { IfOk result (λ v. (rs : List AnyRecord) → IsTree (S.told store.old) self.now.tree rs →
            (k.now.item ≡ 0 → low.now ≡ k.now) → v.items ≡ filter (is_before low.now k.now) rs) }
        ensures sound { IfErr result (λ e. (rs : List AnyRecord) → IsTree (S.told store.old) self.now.tree rs → IsNotDamage e) }
        ensures bad { IfErr result (λ e. e ≢ Damaged 0 → NamesBad (S.told store.old) self.now.tree.height self.now.tree.root e) }
        ensures left { OnlyReads S.PageStore store.old store.new result }
        ensures reads { IfOk result (λ v. Goes (λ old new. new ≤ old + (6 + 3 * vec_len v)) (S.reads store.old) (S.reads store.new)) }
        ensures first { k.now.item ≡ 0 → Goes (λ old new. new ≤ old) (S.reads store.old) (S.reads store.new) }
    {
        if k.item == 0 {
            return Ok(Vec::new(alloc));
        }
        let high = Key {
            item: k.item - 1,
            ..*k
        };
        self.tree
            .range_from(alloc, store, spot, low, &high, u32::MAX)
    }

    /// The records of a block up to one of them, which is the last.
    fn records_to<S: PageStore>(
        &self,
        alloc: Global,
        store: &mut S,
        spot: &mut Option<Spot>,
        low: &Key,
        last: &Record,
    ) -> Result<Vec<Record>, Stop>
        requires rooted { IsRooted (S.size store.old) self.now.tree }
        requires spot { IsSpotIf (S.told store.old) self.now.tree spot.old }
        ensures spot { OnOk result (IsSpotIf (S.told store.old) self.now.tree spot.new) }
        ensures records { IfOk result (λ v. (rs : List AnyRecord) → IsTree (S.told store.old) self.now.tree rs →
            (last.now.key.item ≡ 0 → low.now ≡ last.now.key) → v.items ≡ filter (is_before low.now last.now.key) rs ++ last.now ∷ []) }
        ensures ends { IfOk result (λ v. (before : List AnyRecord) × (v.items ≡ before ++ last.now ∷ [])) }
        ensures sound { IfErr result (λ e. (rs : List AnyRecord) → IsTree (S.told store.old) self.now.tree rs → IsNotDamage e) }
        ensures bad { IfErr result (λ e. e ≢ Damaged 0 → NamesBad (S.told store.old) self.now.tree.height self.now.tree.root e) }
        ensures left { OnlyReads S.PageStore store.old store.new result }
        ensures reads { IfOk result (λ v. Goes (λ old new. new ≤ old + (3 + 3 * vec_len v)) (S.reads store.old) (S.reads store.new)) }
        ensures first { last.now.key.item ≡ 0 → Goes (λ old new. new ≤ old) (S.reads store.old) (S.reads store.new) }
    {
        let mut records = self.records_before(alloc, store, spot, low, &last.key)?;
        match records.push(*last) {
            Err(_) => Err(Stop::Memory),
            Ok(()) => Ok(records),
        }
    }

    /// The records of a block: none where it is none of the layer's. It reads at most 9 pages where there are none or one that says
    /// that no segment meets the block, and else 12 and 3 for each.
    fn records_near<S: PageStore>(
        &self,
        alloc: Global,
        store: &mut S,
        search: &mut Search,
        b: Block,
    ) -> Result<Vec<Record>, Stop>
        requires rooted { IsRooted (S.size store.old) self.now.tree }
        requires search { IsLineSearch (S.told store.old) self.now.tree self.now.level self.now.layer search.old }
        requires block { IsBlock self.now.level b }
        ensures records { IfOk result (λ v. (t : ℕ) (segs : SegMap) (cover : BlockSet)
            → HasLines (S.told store.old) self.now.tree self.now.layer self.now.level t segs cover
            → v.items ≡ block_records self.now.level self.now.layer segs cover b) }
        ensures search { OnOk result (IsLineSearch (S.told store.old) self.now.tree self.now.level self.now.layer search.new) }
        ensures sound { IfErr result (λ e. (rs : List AnyRecord) → IsTree (S.told store.old) self.now.tree rs → IsNotDamage e) }
        ensures bad { IfErr result (λ e. e ≢ Damaged 0 → NamesBad (S.told store.old) self.now.tree.height self.now.tree.root e) }
        ensures left { OnlyReads S.PageStore store.old store.new result }
        ensures reads { IfOk result (λ v. Goes (λ old new. new ≤ old + (12 + 3 * vec_len v)) (S.reads store.old) (S.reads store.new)) }
        ensures away { IfOk result (λ v. v.items ≡ [] → Goes (λ old new. new ≤ old + 9) (S.reads store.old) (S.reads store.new)) }
        ensures none { IfOk result (λ v. v.items ≡ none_of self.now.level self.now.layer b ∷ [] →
            Goes (λ old new. new ≤ old + 9) (S.reads store.old) (S.reads store.new)) }
    {
        let low = pair_record(self.layer, b, self.level, None).key;
        let high = Key {
            item: u32::MAX,
            ..low
        };
        let found = self.last_in(store, search, b)?;
        match between(found, &low, &high) {
            None => Ok(Vec::new(alloc)),
            Some(last) => self.records_to(alloc, store, &mut search.spot, &low, &last),
        }
    }

    /// The ids of the segments that meet a block: None where it is none of the layer's. It reads at most 9 pages where it is none, and
    /// else 12 and 3 more for each id.
    pub(crate) fn ids_near<S: PageStore>(
        &self,
        alloc: Global,
        store: &mut S,
        search: &mut Search,
        b: Block,
    ) -> Result<Option<Vec<u32>>, Stop>
        requires rooted { IsRooted (S.size store.old) self.now.tree }
        requires search { IsLineSearch (S.told store.old) self.now.tree self.now.level self.now.layer search.old }
        requires block { IsBlock self.now.level b }
        ensures ids { IfOk result (λ o. (t : ℕ) (segs : SegMap) (cover : BlockSet)
            → HasLines (S.told store.old) self.now.tree self.now.layer self.now.level t segs cover
            → MatchOption o (finset.contains cover b ≡ false) (λ ids. AreIdsAt segs cover b ids.items)) }
        ensures search { OnOk result (IsLineSearch (S.told store.old) self.now.tree self.now.level self.now.layer search.new) }
        ensures sound { IfErr result (λ e. (t : ℕ) (segs : SegMap) (cover : BlockSet)
            → HasLines (S.told store.old) self.now.tree self.now.layer self.now.level t segs cover → IsNotDamage e) }
        ensures zero { IfErr result (λ e. (rs : List AnyRecord) → IsTree (S.told store.old) self.now.tree rs → NamesPage 1 e) }
        ensures bad { IfErr result (λ e. e ≢ Damaged 0 → NamesBad (S.told store.old) self.now.tree.height self.now.tree.root e) }
        ensures left { OnlyReads S.PageStore store.old store.new result }
        ensures reads { IfOk result (λ o. MatchOption o (Goes (λ old new. new ≤ old + 9) (S.reads store.old) (S.reads store.new))
            (λ ids. Goes (λ old new. new ≤ old + (12 + 3 * vec_len ids)) (S.reads store.old) (S.reads store.new))) }
    {
        let records = self.records_near(alloc, store, search, b)?;
        self.ids_said(alloc, &records, b)
    }
}

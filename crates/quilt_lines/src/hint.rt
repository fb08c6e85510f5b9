ghost use Rattle.std.specs.Prelude.{◌≡◌, ◌≢◌, ℕ, ◌+◌, ◌*◌, ◌≤◌, ◌&&◌, ◌==◌, false, Contains, List, IfOk, IfErr, IfSome, OnOk, MatchOption, [], vec_len};
ghost use Rattle.std.specs.Option.{is_none};
ghost use Rattle.quilt_types.specs.declared.stop.Stop.TheVariants.{Damaged};
ghost use Rattle.quilt_types.specs.Sets as finset;
ghost use Rattle.quilt_types.specs.Plane.{in_block, IsBlock};
ghost use Rattle.quilt_types.specs.Layers.{SegMap, BlockSet};
ghost use Rattle.quilt_record.specs.declared.record.Record.{Record as AnyRecord};
ghost use Rattle.quilt_store.specs.Calls.{OnlyReads};
ghost use Rattle.quilt_store.specs.Stops.{IsNotDamage};
ghost use Rattle.quilt_world.specs.Tale.{Goes};
ghost use Rattle.quilt_btree.specs.Damage.{NamesBad};
ghost use Rattle.quilt_btree.specs.Spots.{IsSpotIf};
ghost use Rattle.quilt_btree.specs.Stops.{NamesPage};
ghost use Rattle.quilt_btree.specs.Trees.{IsRooted, IsTree};
ghost use Rattle.quilt_lines.specs.Layers.{HasLines, SpellsLines};
ghost use Rattle.quilt_lines.specs.Reads.{AreIdsAt};
ghost use Rattle.quilt_lines.specs.Hints.{is_cut as is_cut_of, IsOfCover};

use crate::search::Search;
use crate::view::LineView;
use quilt_btree::Spot;
use quilt_loc::covers;
use quilt_record::{Record, read_pair};
use quilt_store::PageStore;
use quilt_types::{Block, Pixel, Stop};
use std::alloc::Global;

/// A block of a line layer at a pixel, once it is found: no larger block that holds it is one of the layer's, so that none of them
/// needs a look. Beside it the spot in the tree where the records of a block were found last.
#[derive(Drop)]
pub(crate) struct Hint {
    pub at: Pixel,
    pub block: Option<Block>,
    pub spot: Option<Spot>,
}

impl Hint {
    /// Whether the block holds a smaller one of the layer, as far as that is known.
    fn is_cut(&self, b: Block) -> bool
        requires { IsBlock 12 b }
        ensures { result ≡ is_cut_of self.now.block b }
    {
        match self.block {
            None => false,
            Some(c) => 1 < b.side && c.side < b.side && covers(b, Pixel { x: c.x, y: c.y }),
        }
    }
}

impl LineView {
    /// Whether a record is one of the layer's.
    fn is_of(&self, r: &Record) -> bool
        ensures { result ≡ (r.now.key.layer == self.now.layer) }
    {
        r.key.layer == u16::from(self.layer)
    }

    /// The block that a record of the layer is of.
    pub(crate) fn block_of(&self, r: &Record) -> Option<Block>
        ensures { (t : ℕ) (segs : SegMap) (cover : BlockSet) (rs : List AnyRecord) → SpellsLines rs self.now.layer self.now.level t segs cover
            → Contains rs r.now → IsOfCover cover result }
    {
        if !self.is_of(r) {
            return None;
        }
        match read_pair(r, self.level) {
            None => None,
            Some((b, _)) => Some(b),
        }
    }

    /// The ids of the segments that meet a block: None where it is none of the layer's. The block at the pixel is found before it is
    /// known whether this is the one. It reads at most 9 pages where it is none of the layer's, and else 12 and 3 more for each id.
    fn ids_first<S: PageStore>(
        &self,
        alloc: Global,
        store: &mut S,
        hint: &mut Hint,
        b: Block,
    ) -> Result<Option<Vec<u32>>, Stop>
        requires rooted { IsRooted (S.size store.old) self.now.tree }
        requires block { IsBlock self.now.level b }
        ensures ids { IfOk result (λ o. (t : ℕ) (segs : SegMap) (cover : BlockSet)
            → HasLines (S.told store.old) self.now.tree self.now.layer self.now.level t segs cover
            → MatchOption o (finset.contains cover b ≡ false) (λ ids. AreIdsAt segs cover b ids.items)) }
        ensures known { OnOk result ((t : ℕ) (segs : SegMap) (cover : BlockSet)
            → HasLines (S.told store.old) self.now.tree self.now.layer self.now.level t segs cover → IsOfCover cover hint.new.block) }
        ensures spot { OnOk result (IsSpotIf (S.told store.old) self.now.tree hint.new.spot) }
        ensures sound { IfErr result (λ e. (t : ℕ) (segs : SegMap) (cover : BlockSet)
            → HasLines (S.told store.old) self.now.tree self.now.layer self.now.level t segs cover → IsNotDamage e) }
        ensures zero { IfErr result (λ e. (rs : List AnyRecord) → IsTree (S.told store.old) self.now.tree rs → NamesPage 1 e) }
        ensures bad { IfErr result (λ e. e ≢ Damaged 0 → NamesBad (S.told store.old) self.now.tree.height self.now.tree.root e) }
        ensures left { OnlyReads S.PageStore store.old store.new result }
        ensures reads { IfOk result (λ o. MatchOption o (Goes (λ old new. new ≤ old + 9) (S.reads store.old) (S.reads store.new))
            (λ ids. Goes (λ old new. new ≤ old + (12 + 3 * vec_len ids)) (S.reads store.old) (S.reads store.new))) }
    {
        let mut search = Search::new(hint.at);
        let found = self.ids_near(alloc, store, &mut search, b)?;
        hint.block = self.block_seen(&search);
        hint.spot = search.spot;
        Ok(found)
    }

    /// The ids of the segments that meet a block: None where it is none of the layer's. A block that holds the known one needs no look,
    /// and where none is known the block at the pixel is found first. It reads at most 12 pages where it is none of the layer's, and
    /// else 12 and 3 more for each id, or 9 and 3 more where a block was known.
    pub(crate) fn ids_known<S: PageStore>(
        &self,
        alloc: Global,
        store: &mut S,
        hint: &mut Hint,
        b: Block,
    ) -> Result<Option<Vec<u32>>, Stop>
        requires rooted { IsRooted (S.size store.old) self.now.tree }
        requires block { IsBlock self.now.level b }
        requires spot { IsSpotIf (S.told store.old) self.now.tree hint.old.spot }
        ensures ids { IfOk result (λ o. (t : ℕ) (segs : SegMap) (cover : BlockSet)
            → HasLines (S.told store.old) self.now.tree self.now.layer self.now.level t segs cover → IsOfCover cover hint.old.block
            → MatchOption o (finset.contains cover b ≡ false) (λ ids. AreIdsAt segs cover b ids.items)) }
        ensures known { OnOk result ((t : ℕ) (segs : SegMap) (cover : BlockSet)
            → HasLines (S.told store.old) self.now.tree self.now.layer self.now.level t segs cover → IsOfCover cover hint.old.block
            → IsOfCover cover hint.new.block) }
        ensures spot { OnOk result (IsSpotIf (S.told store.old) self.now.tree hint.new.spot) }
        ensures sound { IfErr result (λ e. (t : ℕ) (segs : SegMap) (cover : BlockSet)
            → HasLines (S.told store.old) self.now.tree self.now.layer self.now.level t segs cover → IsNotDamage e) }
        ensures zero { IfErr result (λ e. (rs : List AnyRecord) → IsTree (S.told store.old) self.now.tree rs → NamesPage 1 e) }
        ensures bad { IfErr result (λ e. e ≢ Damaged 0 → NamesBad (S.told store.old) self.now.tree.height self.now.tree.root e) }
        ensures left { OnlyReads S.PageStore store.old store.new result }
        ensures reads { IfOk result (λ o. MatchOption o (Goes (λ old new. new ≤ old + 12) (S.reads store.old) (S.reads store.new))
            (λ ids. Goes (λ old new. new ≤ old + (12 + 3 * vec_len ids)) (S.reads store.old) (S.reads store.new))) }
        ensures next { is_none hint.old.block ≡ false → IfOk result (λ o. IfSome o (λ ids.
            Goes (λ old new. new ≤ old + (9 + 3 * vec_len ids)) (S.reads store.old) (S.reads store.new))) }
        ensures met { is_none hint.old.block ≡ false → IfOk result (λ o. IfSome o (λ ids. 1 ≤ vec_len ids →
            Goes (λ old new. new ≤ old + (6 + 3 * vec_len ids)) (S.reads store.old) (S.reads store.new))) }
    {
        if hint.block.is_none() {
            return self.ids_first(alloc, store, hint, b);
        }
        if hint.is_cut(b) {
            return Ok(None);
        }
        self.ids_from(alloc, store, &mut hint.spot, b)
    }
}

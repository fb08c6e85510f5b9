ghost use Rattle.std.specs.Prelude.{◌≡◌, ◌<◌, ◌≤◌, ◌+◌, ℕ, true, false, List, Some, IfOk, IfErr, OnOk, sum_by};
ghost use Rattle.std.specs.FinMap as finmap;
ghost use Rattle.quilt_types.specs.Sets as finset;
ghost use Rattle.quilt_types.specs.Plane.{side, quarters_of, IsBlock};
ghost use Rattle.quilt_types.specs.Segments.{square, meets as segment_meets};
ghost use Rattle.quilt_types.specs.Layers.{SegMap, BlockSet};
ghost use Rattle.quilt_types.specs.Quadtrees.{is_reached};
ghost use Rattle.quilt_record.specs.declared.record.Record.{Record as AnyRecord};
ghost use Rattle.quilt_store.specs.Calls.{OnlyReads};
ghost use Rattle.quilt_world.specs.Tale.{Goes};
ghost use Rattle.quilt_store.specs.Stops.{IsNotDamage};
ghost use Rattle.quilt_btree.specs.Stops.{NamesPage};
ghost use Rattle.quilt_btree.specs.Trees.{IsRooted, IsTree};
ghost use Rattle.quilt_lines.specs.Layers.{HasLines};
ghost use Rattle.quilt_lines.specs.Merges.{BecomesSettled};
ghost use Rattle.quilt_lines.specs.Bounds.{is_met_above, due};
ghost use Rattle.quilt_lines.specs.Searches.{IsLineSearch};

use crate::merge::Settled;
use crate::removal::Removal;
use crate::search::Search;
use crate::view::LineView;
use quilt_btree::Tree;
use quilt_clip::meets;
use quilt_loc::quarters;
use quilt_store::PageStore;
use quilt_types::{Block, Stop};
use std::alloc::Global;

impl Removal {
    /// What becomes of a block: its quarters are settled first, where it is none of the layer's and the segment meets it.
    #[cycle(settle)]
    pub(crate) fn settle<S: PageStore>(
        &self,
        alloc: Global,
        store: &mut S,
        tree: &Tree,
        search: &mut Search,
        b: Block,
    ) -> Result<Settled, Stop>
        requires rooted { IsRooted (S.size store.old) tree.now }
        requires search { IsLineSearch (S.told store.old) tree.now self.now.level self.now.layer search.old }
        requires block { IsBlock self.now.level b }
        ensures settled { IfOk result (λ x. (k : ℕ) (segs : SegMap) (cover : BlockSet) → b.side ≡ side k →
            HasLines (S.told store.old) tree.now self.now.layer self.now.level self.now.threshold segs cover → BecomesSettled self.now segs cover k b x) }
        ensures search { OnOk result (IsLineSearch (S.told store.old) tree.now self.now.level self.now.layer search.new) }
        ensures sound { IfErr result (λ e. (segs : SegMap) (cover : BlockSet) →
            HasLines (S.told store.old) tree.now self.now.layer self.now.level self.now.threshold segs cover → IsNotDamage e) }
        ensures zero { IfErr result (λ e. (rs : List AnyRecord) → IsTree (S.told store.old) tree.now rs → NamesPage 1 e) }
        ensures left { OnlyReads S.PageStore store.old store.new result }
        ensures reads { IfOk result (λ x. (segs : SegMap) (cover : BlockSet) → HasLines (S.told store.old) tree.now self.now.layer self.now.level self.now.threshold segs cover →
            is_reached cover b ≡ true → is_met_above self.now.level self.now.segment b ≡ true →
            Goes (λ old new. new ≤ old + due self.now.level (is_met_above self.now.level self.now.segment) segs cover b) (S.reads store.old)
            (S.reads store.new)) }
    {
        let view = LineView {
            tree: *tree,
            layer: self.layer,
            level: self.level,
        };
        match view.ids_near(alloc, store, search, b)? {
            Some(ids) => match self.kept(alloc, b, &ids) {
                Err(_) => Err(Stop::Memory),
                Ok(kept) => Ok(kept),
            },
            None => {
                if !self.enters(b) {
                    return Ok(Settled::new(alloc, false));
                }
                self.settle_quarters(alloc, store, tree, search, b)
            }
        }
    }

    /// Whether the block has quarters and the segment meets it.
    fn enters(&self, b: Block) -> bool
        ensures wide { result ≡ true → 1 < b.side }
        ensures met { result ≡ true → segment_meets self.now.segment (square b) ≡ true }
        ensures unmet { result ≡ false → 1 < b.side → segment_meets self.now.segment (square b) ≡ false }
    {
        1 < b.side && meets(self.segment, b)
    }

    /// What becomes of a block that is none of the layer's and that the segment meets.
    #[cycle(settle)]
    fn settle_quarters<S: PageStore>(
        &self,
        alloc: Global,
        store: &mut S,
        tree: &Tree,
        search: &mut Search,
        b: Block,
    ) -> Result<Settled, Stop>
        requires rooted { IsRooted (S.size store.old) tree.now }
        requires search { IsLineSearch (S.told store.old) tree.now self.now.level self.now.layer search.old }
        requires block { IsBlock self.now.level b }
        requires wide { 1 < b.side }
        requires met { segment_meets self.now.segment (square b) ≡ true }
        ensures settled { IfOk result (λ x. (k : ℕ) (segs : SegMap) (cover : BlockSet) → b.side ≡ side k →
            HasLines (S.told store.old) tree.now self.now.layer self.now.level self.now.threshold segs cover →
            finset.contains cover b ≡ false → BecomesSettled self.now segs cover k b x) }
        ensures search { OnOk result (IsLineSearch (S.told store.old) tree.now self.now.level self.now.layer search.new) }
        ensures sound { IfErr result (λ e. (segs : SegMap) (cover : BlockSet) →
            HasLines (S.told store.old) tree.now self.now.layer self.now.level self.now.threshold segs cover → IsNotDamage e) }
        ensures zero { IfErr result (λ e. (rs : List AnyRecord) → IsTree (S.told store.old) tree.now rs → NamesPage 1 e) }
        ensures left { OnlyReads S.PageStore store.old store.new result }
        ensures reads { IfOk result (λ x. (segs : SegMap) (cover : BlockSet) → HasLines (S.told store.old) tree.now self.now.layer self.now.level self.now.threshold segs cover →
            is_reached cover b ≡ true → finset.contains cover b ≡ false →
            Goes (λ old new. new ≤ old + sum_by (due self.now.level (is_met_above self.now.level self.now.segment) segs cover) (quarters_of b))
            (S.reads store.old) (S.reads store.new)) }
    {
        let mut all = Settled::new(alloc, true);
        for q in quarters(b) {
            let x = self.settle(alloc, store, tree, search, q)?;
            match all.gather(&x, self.threshold) {
                Err(_) => return Err(Stop::Memory),
                Ok(()) => {}
            }
        }
        match self.joined(alloc, b, all) {
            Err(_) => Err(Stop::Memory),
            Ok(x) => Ok(x),
        }
    }
}

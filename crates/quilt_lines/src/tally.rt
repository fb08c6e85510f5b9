ghost use Rattle.std.specs.Prelude.{◌≡◌, ◌≢◌, ℕ, ◌+◌, ◌*◌, ◌^◌, ◌<◌, ◌≤◌, ◌==◌, true, slice_index, count_by, IfOk, IfErr, List, OnOk};
ghost use Rattle.std.specs.Ordering.{is_le};
ghost use Rattle.quilt_types.specs.Sets as finset;
ghost use Rattle.quilt_types.specs.Plane.{side as side_of, whole, IsBlock};
ghost use Rattle.quilt_types.specs.Layers.{SegMap, BlockSet};
ghost use Rattle.quilt_types.specs.Quadtrees.{is_reached};
ghost use Rattle.quilt_record.specs.declared.record.Record.{Record as AnyRecord};
ghost use Rattle.quilt_record.specs.Records.{key_cmp};
ghost use Rattle.quilt_store.specs.Calls.{OnlyReads};
ghost use Rattle.quilt_world.specs.Tale.{Goes};
ghost use Rattle.quilt_store.specs.Stops.{IsNotDamage};
ghost use Rattle.quilt_btree.specs.Stops.{NamesPage};
ghost use Rattle.quilt_btree.specs.Trees.{IsRooted, IsTree};
ghost use Rattle.quilt_lines.specs.Layers.{HasLines};
ghost use Rattle.quilt_lines.specs.Counting.{held_in, pages_in};

use crate::view::{DAMAGED, LineView};
use quilt_btree::Tree;
use quilt_loc::{quarters, whole_square};
use quilt_record::{Key, Record, pair_record};
use quilt_store::PageStore;
use quilt_types::{Block, Stop};

/// How many blocks of each side the line layer with this number has, from 1 to 255, of a map of this level, from 1 to 12: those of
/// side 2 ^ k at place k. It reads at most 6 pages for each block, and for each larger one around it. Page 0 is said to be damaged where
/// a pixel has no records.
pub fn block_counts<S: PageStore>(
    store: &mut S,
    tree: &Tree,
    layer: u8,
    level: u8,
) -> Result<[u32; 13], Stop>
    requires rooted { IsRooted (S.size store.old) tree.now }
    requires layer { 1 ≤ layer }
    requires level { (1 ≤ level) × (level ≤ 12) }
    ensures counts { IfOk result (λ counts. (t : ℕ) (segs : SegMap) (cover : BlockSet) →
        HasLines (S.told store.old) tree.now layer level t segs cover →
        (k : ℕ) → k ≤ 12 → slice_index counts k ≡ count_by (λ b. b.side == side_of k) (finset.items cover)) }
    ensures sound { IfErr result (λ e. (t : ℕ) (segs : SegMap) (cover : BlockSet) →
        HasLines (S.told store.old) tree.now layer level t segs cover → IsNotDamage e) }
    ensures zero { IfErr result (λ e. (rs : List AnyRecord) → IsTree (S.told store.old) tree.now rs → NamesPage 1 e) }
    ensures left { OnlyReads S.PageStore store.old store.new result }
    ensures reads { IfOk result (λ _. (t : ℕ) (segs : SegMap) (cover : BlockSet) → HasLines (S.told store.old) tree.now layer level t segs cover
        → Goes (λ old new. new ≤ old + pages_in cover level (whole level)) (S.reads store.old) (S.reads store.new)) }
{
    let view = LineView {
        tree: *tree,
        layer,
        level,
    };
    let mut counts = [0; 13];
    view.count_in(store, &mut counts, level, whole_square(level))?;
    Ok(counts)
}

/// Whether the key of a record is this one or a greater one.
fn is_from(low: &Key, r: &Record) -> bool
    ensures { result ≡ is_le (key_cmp low.now r.now.key) }
{
    *low <= r.key
}

/// Counts one block more of the side 2 ^ k.
fn count_one(counts: &mut [u32; 13], k: u8)
    requires depth { k ≤ 12 }
    requires room { slice_index counts.old k + 1 < 2 ^ 32 }
    ensures here { slice_index counts.new k ≡ slice_index counts.old k + 1 }
    ensures others { (j : ℕ) → j ≢ k → slice_index counts.new j ≡ slice_index counts.old j }
{
    counts[usize::from(k)] += 1;
}

impl LineView {
    /// Counts the blocks of the layer in a block of side 2 ^ k, each at the place of its side: at most 4 ^ k.
    fn count_in<S: PageStore>(
        &self,
        store: &mut S,
        counts: &mut [u32; 13],
        k: u8,
        b: Block,
    ) -> Result<(), Stop>
        requires rooted { IsRooted (S.size store.old) self.now.tree }
        requires block { IsBlock self.now.level b }
        requires side { b.side ≡ side_of k }
        requires depth { k ≤ 12 }
        requires room { (j : ℕ) → slice_index counts.old j + 4 ^ k < 2 ^ 32 }
        ensures counts { OnOk result ((t : ℕ) (segs : SegMap) (cover : BlockSet) →
            HasLines (S.told store.old) self.now.tree self.now.layer self.now.level t segs cover →
            (j : ℕ) → slice_index counts.new j ≡ slice_index counts.old j + count_by (λ c. c.side == side_of j) (held_in cover k b)) }
        ensures most { OnOk result ((j : ℕ) → slice_index counts.new j ≤ slice_index counts.old j + 4 ^ k) }
        ensures sound { IfErr result (λ e. (t : ℕ) (segs : SegMap) (cover : BlockSet) →
            HasLines (S.told store.old) self.now.tree self.now.layer self.now.level t segs cover → is_reached cover b ≡ true → IsNotDamage e) }
        ensures zero { IfErr result (λ e. (rs : List AnyRecord) → IsTree (S.told store.old) self.now.tree rs → NamesPage 1 e) }
        ensures left { OnlyReads S.PageStore store.old store.new result }
        ensures reads { OnOk result ((t : ℕ) (segs : SegMap) (cover : BlockSet) →
            HasLines (S.told store.old) self.now.tree self.now.layer self.now.level t segs cover →
            Goes (λ old new. new ≤ old + pages_in cover k b) (S.reads store.old) (S.reads store.new)) }
    {
        if self.has_block(store, b)? {
            count_one(counts, k);
            return Ok(());
        }
        if k == 0 {
            return Err(DAMAGED);
        }
        for q in quarters(b) {
            self.count_in(store, counts, k - 1, q)?;
        }
        Ok(())
    }

    /// Whether a block is one of the layer's. It reads at most 6 pages.
    fn has_block<S: PageStore>(&self, store: &mut S, b: Block) -> Result<bool, Stop>
        requires rooted { IsRooted (S.size store.old) self.now.tree }
        requires block { IsBlock self.now.level b }
        ensures there { IfOk result (λ there. (t : ℕ) (segs : SegMap) (cover : BlockSet) →
            HasLines (S.told store.old) self.now.tree self.now.layer self.now.level t segs cover → there ≡ finset.contains cover b) }
        ensures sound { IfErr result (λ e. (t : ℕ) (segs : SegMap) (cover : BlockSet) →
            HasLines (S.told store.old) self.now.tree self.now.layer self.now.level t segs cover → IsNotDamage e) }
        ensures zero { IfErr result (λ e. (rs : List AnyRecord) → IsTree (S.told store.old) self.now.tree rs → NamesPage 1 e) }
        ensures left { OnlyReads S.PageStore store.old store.new result }
        ensures reads { Goes (λ old new. new ≤ old + 6) (S.reads store.old) (S.reads store.new) }
    {
        let low = pair_record(self.layer, b, self.level, None).key;
        let high = Key {
            item: u32::MAX,
            ..low
        };
        match self.tree.floor(store, &high)? {
            None => Ok(false),
            Some(r) => Ok(is_from(&low, &r)),
        }
    }
}

ghost use Rattle.std.specs.Prelude.{◌≡◌, ◌≢◌, ℕ, ◌+◌, ◌*◌, ◌<◌, ◌≤◌, true, Some, None, IfOk, IfErr, IfSome, IsErrOf, List, [], ◌∷◌, map, length, vec_len};
ghost use Rattle.std.specs.Prelude.{MatchOption, OnOk, unwrap_or, false};
ghost use Rattle.std.specs.Option.{option_map};
ghost use Rattle.quilt_types.specs.Sets as finset;
ghost use Rattle.quilt_types.specs.declared.stop.Stop.TheVariants.{Device, Damaged};
ghost use Rattle.quilt_types.specs.Plane.{IsBlock};
ghost use Rattle.quilt_types.specs.Layers.{SegMap, BlockSet};
ghost use Rattle.quilt_store.specs.Calls.{OnlyReads};
ghost use Rattle.quilt_world.specs.Tale.{Goes};
ghost use Rattle.quilt_store.specs.Stops.{IsNotDamage};
ghost use Rattle.quilt_record.specs.declared.record.Record.{Record};
ghost use Rattle.quilt_btree.specs.Damage.{NamesBad};
ghost use Rattle.quilt_btree.specs.Spots.{IsSpotIf};
ghost use Rattle.quilt_btree.specs.Stops.{NamesPage};
ghost use Rattle.quilt_btree.specs.Trees.{IsRooted, IsTree};
ghost use Rattle.quilt_lines.specs.Layers.{HasLines};
ghost use Rattle.quilt_lines.specs.Reads.{pair_of, none_of, block_records, AreIdsAt};
ghost use Rattle.quilt_lines.specs.Said.{SayIds, records_at};

use crate::view::{DAMAGED, LineView};
use quilt_btree::Spot;
use quilt_record::{Key, Record, pair_record};
use quilt_store::PageStore;
use quilt_types::{Block, Stop};
use std::alloc::Global;

/// Whether two records are the same.
fn is_same(a: &Record, b: &Record) -> bool
    ensures yes { result ≡ true → a.now ≡ b.now }
    ensures no { a.now ≡ b.now → result ≡ true }
{
    a == b
}

impl LineView {
    /// The ids of the segments that meet a block, from the block's records: None exactly where it is none of the layer's. It
    /// reads at most 6 pages where it is none, and else 9 and 3 more for each id.
    pub(crate) fn ids_at<S: PageStore>(
        &self,
        alloc: Global,
        store: &mut S,
        b: Block,
    ) -> Result<Option<Vec<u32>>, Stop>
        requires rooted { IsRooted (S.size store.old) self.now.tree }
        requires block { IsBlock self.now.level b }
        ensures ids { IfOk result (λ o. (t : ℕ) (segs : SegMap) (cover : BlockSet)
            → HasLines (S.told store.old) self.now.tree self.now.layer self.now.level t segs cover
            → MatchOption o (finset.contains cover b ≡ false) (λ ids. AreIdsAt segs cover b ids.items)) }
        ensures said { IfOk result (λ o. (rs : List Record) → IsTree (S.told store.old) self.now.tree rs
            → MatchOption o (records_at self.now.level self.now.layer b rs ≡ [])
            (λ ids. SayIds self.now.level self.now.layer b (records_at self.now.level self.now.layer b rs) ids.items)) }
        ensures zero { IfErr result (λ e. (rs : List Record) → IsTree (S.told store.old) self.now.tree rs → NamesPage 1 e) }
        ensures bad { IfErr result (λ e. e ≢ Damaged 0 → NamesBad (S.told store.old) self.now.tree.height self.now.tree.root e) }
        ensures sound { IfErr result (λ e. (t : ℕ) (segs : SegMap) (cover : BlockSet)
            → HasLines (S.told store.old) self.now.tree self.now.layer self.now.level t segs cover → IsNotDamage e) }
        ensures left { OnlyReads S.PageStore store.old store.new result }
        ensures reads { IfOk result (λ o. MatchOption o (Goes (λ old new. new ≤ old + 6) (S.reads store.old) (S.reads store.new))
            (λ ids. Goes (λ old new. new ≤ old + (9 + 3 * vec_len ids)) (S.reads store.old) (S.reads store.new))) }
        ensures met { IfOk result (λ o. IfSome o (λ ids. 1 ≤ vec_len ids →
            Goes (λ old new. new ≤ old + (6 + 3 * vec_len ids)) (S.reads store.old) (S.reads store.new))) }
    {
        let mut spot = None;
        self.ids_from(alloc, store, &mut spot, b)
    }

    /// The same, where the records may be in the leaf of a spot, which is put to theirs.
    pub(crate) fn ids_from<S: PageStore>(
        &self,
        alloc: Global,
        store: &mut S,
        spot: &mut Option<Spot>,
        b: Block,
    ) -> Result<Option<Vec<u32>>, Stop>
        requires rooted { IsRooted (S.size store.old) self.now.tree }
        requires block { IsBlock self.now.level b }
        requires spot { IsSpotIf (S.told store.old) self.now.tree spot.old }
        ensures spot { OnOk result (IsSpotIf (S.told store.old) self.now.tree spot.new) }
        ensures ids { IfOk result (λ o. (t : ℕ) (segs : SegMap) (cover : BlockSet)
            → HasLines (S.told store.old) self.now.tree self.now.layer self.now.level t segs cover
            → MatchOption o (finset.contains cover b ≡ false) (λ ids. AreIdsAt segs cover b ids.items)) }
        ensures said { IfOk result (λ o. (rs : List Record) → IsTree (S.told store.old) self.now.tree rs
            → MatchOption o (records_at self.now.level self.now.layer b rs ≡ [])
            (λ ids. SayIds self.now.level self.now.layer b (records_at self.now.level self.now.layer b rs) ids.items)) }
        ensures zero { IfErr result (λ e. (rs : List Record) → IsTree (S.told store.old) self.now.tree rs → NamesPage 1 e) }
        ensures bad { IfErr result (λ e. e ≢ Damaged 0 → NamesBad (S.told store.old) self.now.tree.height self.now.tree.root e) }
        ensures sound { IfErr result (λ e. (t : ℕ) (segs : SegMap) (cover : BlockSet)
            → HasLines (S.told store.old) self.now.tree self.now.layer self.now.level t segs cover → IsNotDamage e) }
        ensures left { OnlyReads S.PageStore store.old store.new result }
        ensures reads { IfOk result (λ o. MatchOption o (Goes (λ old new. new ≤ old + 6) (S.reads store.old) (S.reads store.new))
            (λ ids. Goes (λ old new. new ≤ old + (9 + 3 * vec_len ids)) (S.reads store.old) (S.reads store.new))) }
        ensures met { IfOk result (λ o. IfSome o (λ ids. 1 ≤ vec_len ids →
            Goes (λ old new. new ≤ old + (6 + 3 * vec_len ids)) (S.reads store.old) (S.reads store.new))) }
    {
        let low = pair_record(self.layer, b, self.level, None).key;
        let high = Key {
            item: u32::MAX,
            ..low
        };
        let records = self
            .tree
            .range_from(alloc, store, spot, &low, &high, u32::MAX)?;
        self.ids_said(alloc, &records, b)
    }

    /// The ids that the records of a block say: None where there are no records.
    pub(crate) fn ids_said(
        &self,
        alloc: Global,
        records: &[Record],
        b: Block,
    ) -> Result<Option<Vec<u32>>, Stop>
        requires { IsBlock self.now.level b }
        ensures ids { IfOk result (λ o. (segs : SegMap) (cover : BlockSet) → records.now ≡ block_records self.now.level self.now.layer segs cover b
            → MatchOption o (finset.contains cover b ≡ false) (λ ids. AreIdsAt segs cover b ids.items)) }
        ensures said { IfOk result (λ o. MatchOption o (records.now ≡ [])
            (λ ids. SayIds self.now.level self.now.layer b records.now ids.items)) }
        ensures zero { IfErr result (NamesPage 1) }
        ensures few { IfOk result (λ o. length records.now ≤ 1 + unwrap_or (option_map vec_len o) 0) }
        ensures met { IfOk result (λ o. IfSome o (λ ids. 1 ≤ vec_len ids → length records.now ≡ vec_len ids)) }
        ensures sound { IfErr result (λ e. (segs : SegMap) (cover : BlockSet)
            → records.now ≡ block_records self.now.level self.now.layer segs cover b → IsNotDamage e) }
        ensures no_fault { IsErrOf result Device → ⊥ }
    {
        if records.is_empty() {
            return Ok(None);
        }
        if self.says_none(records, b) {
            return Ok(Some(Vec::new(alloc)));
        }
        let ids = self.all_ids(alloc, records, b)?;
        Ok(Some(ids))
    }

    /// Whether the records of a block are the one that says that no segment meets it.
    fn says_none(&self, records: &[Record], b: Block) -> bool
        requires { IsBlock self.now.level b }
        ensures yes { result ≡ true → records.now ≡ none_of self.now.level self.now.layer b ∷ [] }
        ensures no { records.now ≡ none_of self.now.level self.now.layer b ∷ [] → result ≡ true }
    {
        if records.len() != 1 {
            return false;
        }
        let none = pair_record(self.layer, b, self.level, None);
        is_same(&records[0], &none)
    }

    /// The id of the segment that a record of the block says.
    fn id_said(&self, r: &Record, b: Block) -> Option<u32>
        requires { IsBlock self.now.level b }
        ensures some { IfSome result (λ id. r.now ≡ pair_of self.now.level self.now.layer b id) }
        ensures none { result ≡ None → (id : ℕ) → r.now ≡ pair_of self.now.level self.now.layer b id → ⊥ }
    {
        let pair = pair_record(self.layer, b, self.level, Some(r.key.item));
        if is_same(r, &pair) {
            return Some(r.key.item);
        }
        None
    }

    /// The ids that the records of a block say, one each.
    fn all_ids(&self, alloc: Global, records: &[Record], b: Block) -> Result<Vec<u32>, Stop>
        requires { IsBlock self.now.level b }
        ensures ids { IfOk result (λ ids. records.now ≡ map (pair_of self.now.level self.now.layer b) ids.items) }
        ensures zero { IfErr result (NamesPage 1) }
        ensures sound { IfErr result (λ e. (ids : List ℕ) → records.now ≡ map (pair_of self.now.level self.now.layer b) ids → IsNotDamage e) }
        ensures no_fault { IsErrOf result Device → ⊥ }
    {
        let mut ids = match Vec::with_capacity(alloc, records.len()) {
            Err(_) => return Err(Stop::Memory),
            Ok(ids) => ids,
        };
        for r in records {
            let Some(id) = self.id_said(r, b) else {
                return Err(DAMAGED);
            };
            if ids.push(id).is_err() {
                return Err(Stop::Memory);
            }
        }
        Ok(ids)
    }
}

ghost use Rattle.std.specs.Prelude.{◌≡◌, ℕ, ◌+◌, ◌*◌, ◌<◌, ◌≤◌, true, IfOk, IfErr, IfSome, OnOk, List, Option, Some, None, [], slice_index_or, vec_len};
ghost use Rattle.std.specs.Borrow.{sem};
ghost use Rattle.std.specs.Io.BufRead.{Rests};
ghost use Rattle.std.specs.Ordering.{is_le};
ghost use Rattle.quilt_record.specs.declared.record.Record.{Record};
ghost use Rattle.quilt_record.specs.Records.{key_cmp};
ghost use Rattle.quilt_store.specs.Calls.{OnlyReads};
ghost use Rattle.quilt_store.specs.Stops.{IsNotDamage};
ghost use Rattle.quilt_world.specs.Tale.{Goes};
ghost use Rattle.quilt_btree.specs.Damage.{NamesBad};
ghost use Rattle.quilt_btree.specs.Lists.{value_at_key, floor_of, range_of};
ghost use Rattle.quilt_btree.specs.Searches.{AreOf};
ghost use Rattle.quilt_btree.specs.Spots.{IsSpot, IsSpotIf, IsAtSpot, IsAtKey, LeadsFrom, LooksFrom, RangesFrom, FitsRange, StopsAtBad};
ghost use Rattle.quilt_btree.specs.Stops.{NamesPage};
ghost use Rattle.quilt_btree.specs.Trees.{IsRooted, IsTree};
ghost use Rattle.quilt_btree.specs.declared.tree.Tree.{Tree as AnyTree};

use crate::balance::is_under;
use crate::pages::stop_of;
use crate::search::{floor_in, value_in};
use crate::span::{add_leaf, key_up_to};
use crate::step::leaf_at;
use crate::tree::Tree;
use quilt_node::rec_in;
use quilt_record::{Key, Record};
use quilt_store::PageStore;
use quilt_types::Stop;
use std::alloc::Global;

/// Where a look-up was last: the page of a leaf of a tree, and the keys that lead to it, from `low` on and below `high`. A look-up
/// for one of these keys looks at this page alone. It is good as long as the tree stays as it is; an edit gives it up.
#[derive(Clone, Copy)]
pub struct Spot {
    pub page: u32,
    pub low: Key,
    pub high: Option<Key>,
}

impl Spot {
    /// The same for all keys from the first of its leaf on, whose bytes these are.
    fn widened(&self, bytes: &[u8; 4096]) -> Spot
        ensures page { result.page ≡ self.now.page }
        ensures high { result.high ≡ self.now.high }
        ensures low { is_le (key_cmp result.low self.now.low) ≡ true }
        ensures good { (told : Option (List (List ℕ))) (t : AnyTree) → 1 ≤ t.height → AreOf told self.now.page bytes.now
            → IsSpot told t self.now → IsSpot told t result }
    {
        let first = rec_in(bytes, 0).key;
        let low = if first < self.low { first } else { self.low };
        Spot {
            page: self.page,
            low,
            high: self.high,
        }
    }
}

impl Tree {
    /// The value of the record with this key: none exactly where no record has it. It looks at one page where the key is one of the
    /// spot's, and else puts the spot to the leaf to which the key leads. It reads at most 3 pages.
    pub fn get_from<S: PageStore>(
        &self,
        store: &mut S,
        spot: &mut Option<Spot>,
        k: &Key,
    ) -> Result<Option<[u8; 16]>, Stop>
        requires rooted { IsRooted (S.size store.old) self.now }
        requires spot { IsSpotIf (S.told store.old) self.now spot.old }
        ensures value { IfOk result (λ v. (rs : List Record) → IsTree (S.told store.old) self.now rs → v ≡ value_at_key k.now rs) }
        ensures spot { OnOk result (IsSpotIf (S.told store.old) self.now spot.new) }
        ensures sound { IfErr result (λ e. (rs : List Record) → IsTree (S.told store.old) self.now rs → IsNotDamage e) }
        ensures names { IfErr result (NamesPage (S.size store.old)) }
        ensures bad { IfErr result (NamesBad (S.told store.old) self.now.height self.now.root) }
        ensures left { OnlyReads S.PageStore store.old store.new result }
        ensures reads { Goes (λ old new. new ≤ old + 3) (S.reads store.old) (S.reads store.new) }
        ensures from { LooksFrom (S.size store.old) self.now k.now spot.old spot.new (S.reads store.old) (S.reads store.new) result }
    {
        if self.height == 0 {
            return Ok(None);
        }
        match leaf_from(store, self, spot, k) {
            Err(e) => Err(e),
            Ok((bytes, found)) => {
                *spot = Some(found.widened(bytes));
                Ok(value_in(bytes, k))
            }
        }
    }

    /// The record with the greatest key that is at most `k`: none exactly where there is none. It looks at one page where the record
    /// is in the spot's leaf. Elsewhere it puts the spot to the leaf to which the key leads, which takes at most 3 pages, and 6 more
    /// where all keys of that leaf are greater.
    pub fn floor_from<S: PageStore>(
        &self,
        store: &mut S,
        spot: &mut Option<Spot>,
        k: &Key,
    ) -> Result<Option<Record>, Stop>
        requires rooted { IsRooted (S.size store.old) self.now }
        requires spot { IsSpotIf (S.told store.old) self.now spot.old }
        ensures floor { IfOk result (λ r. (rs : List Record) → IsTree (S.told store.old) self.now rs → r ≡ floor_of k.now rs) }
        ensures spot { OnOk result (IsSpotIf (S.told store.old) self.now spot.new) }
        ensures sound { IfErr result (λ e. (rs : List Record) → IsTree (S.told store.old) self.now rs → IsNotDamage e) }
        ensures names { IfErr result (NamesPage (S.size store.old)) }
        ensures bad { IfErr result (NamesBad (S.told store.old) self.now.height self.now.root) }
        ensures left { OnlyReads S.PageStore store.old store.new result }
        ensures reads { Goes (λ old new. new ≤ old + 9) (S.reads store.old) (S.reads store.new) }
    {
        if self.height == 0 {
            return Ok(None);
        }
        match self.floor_here(store, spot, k)? {
            Some(r) => Ok(Some(r)),
            None => self.floor(store, k),
        }
    }

    /// The same where the record is in the leaf to which the key leads, and else none. It reads at most 3 pages.
    fn floor_here<S: PageStore>(
        &self,
        store: &mut S,
        spot: &mut Option<Spot>,
        k: &Key,
    ) -> Result<Option<Record>, Stop>
        requires rooted { IsRooted (S.size store.old) self.now }
        requires some { 1 ≤ self.now.height }
        requires spot { IsSpotIf (S.told store.old) self.now spot.old }
        ensures floor { IfOk result (λ o. IfSome o (λ r. (rs : List Record) → IsTree (S.told store.old) self.now rs → Some r ≡ floor_of k.now rs)) }
        ensures spot { OnOk result (IsSpotIf (S.told store.old) self.now spot.new) }
        ensures sound { IfErr result (λ e. (rs : List Record) → IsTree (S.told store.old) self.now rs → IsNotDamage e) }
        ensures names { IfErr result (NamesPage (S.size store.old)) }
        ensures bad { IfErr result (NamesBad (S.told store.old) self.now.height self.now.root) }
        ensures left { OnlyReads S.PageStore store.old store.new result }
        ensures reads { Goes (λ old new. new ≤ old + 3) (S.reads store.old) (S.reads store.new) }
    {
        match leaf_from(store, self, spot, k) {
            Err(e) => Err(e),
            Ok((bytes, found)) => {
                *spot = Some(found.widened(bytes));
                Ok(floor_in(bytes, k))
            }
        }
    }

    /// The first `most` records with keys from `low` to `high`, both included. The first leaf is the spot's where `low` is one of its
    /// keys, and else the spot is put to it. It reads at most 6 pages, and 3 more for each record of the answer. Page 0 is said to be
    /// damaged where a leaf holds none of the keys for which it is read, so that its keys or those of a page above are wrong.
    pub fn range_from<S: PageStore>(
        &self,
        alloc: Global,
        store: &mut S,
        spot: &mut Option<Spot>,
        low: &Key,
        high: &Key,
        most: u32,
    ) -> Result<Vec<Record>, Stop>
        requires rooted { IsRooted (S.size store.old) self.now }
        requires spot { IsSpotIf (S.told store.old) self.now spot.old }
        ensures range { IfOk result (λ records. (rs : List Record) → IsTree (S.told store.old) self.now rs
            → records.items ≡ range_of low.now high.now most rs) }
        ensures spot { OnOk result (IsSpotIf (S.told store.old) self.now spot.new) }
        ensures sound { IfErr result (λ e. (rs : List Record) → IsTree (S.told store.old) self.now rs → IsNotDamage e) }
        ensures stops { StopsAtBad (S.told store.old) (S.size store.old) self.now result }
        ensures left { OnlyReads S.PageStore store.old store.new result }
        ensures fits { IfOk result (λ records. FitsRange low.now high.now most (vec_len records) records.items) }
        ensures reads { IfOk result (λ records. Goes (λ old new. new ≤ old + 6 + 3 * vec_len records) (S.reads store.old) (S.reads store.new)) }
        ensures from { RangesFrom (S.size store.old) self.now low.now high.now spot.old spot.new (S.reads store.old) (S.reads store.new) result }
    {
        let mut records = Vec::new(alloc);
        if self.height == 0 {
            return Ok(records);
        }
        let (bytes, found) = match leaf_from(store, self, spot, low) {
            Err(e) => return Err(e),
            Ok(leaf) => leaf,
        };
        if add_leaf(&mut records, bytes, low, high, most).is_err() {
            return Err(Stop::Memory);
        }
        *spot = Some(found.widened(bytes));
        if records.len() == most as usize {
            return Ok(records);
        }
        match key_up_to(found.high, high) {
            None => Ok(records),
            Some(next) => {
                self.add_rest(store, &mut records, &next, high, most)?;
                Ok(records)
            }
        }
    }

    /// The leaf to which a key leads: the spot's where the key is one of the spot's, which reads nothing, and else at most 2 pages.
    fn spot_for<S: PageStore>(
        &self,
        store: &mut S,
        spot: &Option<Spot>,
        k: &Key,
    ) -> Result<Spot, Stop>
        requires rooted { IsRooted (S.size store.old) self.now }
        requires some { 1 ≤ self.now.height }
        requires spot { IsSpotIf (S.told store.old) self.now spot.now }
        ensures leads { LeadsFrom (S.told store.old) (S.size store.old) self.now k.now result }
        ensures here { IsAtSpot (S.size store.old) spot.now k.now → IfOk result (λ s. spot.now ≡ Some s)
            × Goes (λ old new. new ≤ old) (S.reads store.old) (S.reads store.new) }
        ensures sound { IfErr result (λ e. (rs : List Record) → IsTree (S.told store.old) self.now rs → IsNotDamage e) }
        ensures names { IfErr result (NamesPage (S.size store.old)) }
        ensures bad { IfErr result (NamesBad (S.told store.old) self.now.height self.now.root) }
        ensures left { OnlyReads S.PageStore store.old store.new result }
        ensures reads { Goes (λ old new. new ≤ old + 2) (S.reads store.old) (S.reads store.new) }
    {
        match at_spot(spot, store.pages(), k) {
            Some(here) => return Ok(here),
            None => {}
        }
        let found = leaf_at(store, self.root, self.height, k, &None)?;
        Ok(Spot {
            page: found.page,
            low: *k,
            high: found.high,
        })
    }
}

/// The leaf to which a key leads, where it lies, and the spot at it. It reads at most 3 pages, and one where the key is one of the
/// spot's.
fn leaf_from<'a, S: PageStore>(
    store: &'a mut S,
    tree: &Tree,
    spot: &Option<Spot>,
    k: &Key,
) -> Result<(&'a [u8; 4096], Spot), Stop>
    requires rooted { IsRooted (S.size store.old) tree.now }
    requires some { 1 ≤ tree.now.height }
    requires spot { IsSpotIf (S.told store.old) tree.now spot.now }
    ensures bytes { IfOk result (λ leaf. IfSome (S.told store.old) (λ pages. leaf.0.now ≡ slice_index_or pages leaf.1.page [])) }
    ensures spot { IfOk result (λ leaf. IsSpot (S.told store.old) tree.now leaf.1) }
    ensures key { IfOk result (λ leaf. IsAtKey (S.size store.old) k.now leaf.1) }
    ensures here { IsAtSpot (S.size store.old) spot.now k.now → IfOk result (λ leaf. spot.now ≡ Some leaf.1) }
    ensures sound { IfErr result (λ e. (rs : List Record) → IsTree (S.told store.old) tree.now rs → IsNotDamage e) }
    ensures names { IfErr result (NamesPage (S.size store.old)) }
    ensures bad { IfErr result (NamesBad (S.told store.old) tree.now.height tree.now.root) }
    ensures* left { sem 𝓛 (Rests S.row store.entry (λ new. OnlyReads S.PageStore store.old new result
        × Goes (λ old new. new ≤ old + 3) (S.reads store.old) (S.reads new)
        × (IsAtSpot (S.size store.old) spot.now k.now → Goes (λ old new. new ≤ old + 1) (S.reads store.old) (S.reads new)))) }
{
    match tree.spot_for(store, spot, k) {
        Err(e) => Err(e),
        Ok(found) => match store.page(found.page) {
            Err(e) => Err(stop_of(e)),
            Ok(bytes) => Ok((bytes, found)),
        },
    }
}

/// The spot where the key is one of its keys, and its page one of a store of so many.
fn at_spot(spot: &Option<Spot>, pages: u32, k: &Key) -> Option<Spot>
    ensures here { IfSome result (λ s. (spot.now ≡ Some s) × IsAtKey pages k.now s) }
    ensures none { result ≡ None → IsAtSpot pages spot.now k.now → ⊥ }
{
    match spot {
        None => None,
        Some(s) => {
            if 1 <= s.page && s.page < pages && s.low <= *k && is_under(k, &s.high) {
                Some(*s)
            } else {
                None
            }
        }
    }
}

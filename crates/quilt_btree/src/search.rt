ghost use Rattle.std.specs.Prelude.{◌≡◌, ◌≢◌, ℕ, ◌+◌, ◌-◌, ◌*◌, ◌<◌, ◌≤◌, IfOk, IfErr, IfSome, OnOk, MatchOption, IsTrue, List, Some, None, length};
ghost use Rattle.std.specs.Prelude.{slice_index, ◌==◌};
ghost use Rattle.std.specs.List.{last_or, list_any};
ghost use Rattle.quilt_record.specs.declared.record.Record.{Record};
ghost use Rattle.quilt_node.specs.Pages.{Inner, leaf_of, inner_of};
ghost use Rattle.quilt_store.specs.Calls.{OnlyReads};
ghost use Rattle.quilt_store.specs.Store.{Touches};
ghost use Rattle.quilt_world.specs.Tale.{Goes};
ghost use Rattle.quilt_btree.specs.Damage.{HasChild, NamesBad};
ghost use Rattle.quilt_btree.specs.Lists.{value_at_key, floor_of};
ghost use Rattle.quilt_store.specs.Stops.{IsNotDamage};
ghost use Rattle.quilt_btree.specs.Stops.{NamesPage};
ghost use Rattle.quilt_btree.specs.Trees.{SpellsSubtree};
ghost use Rattle.quilt_btree.specs.Floors.{child_place, last_pages, floor_pages, TouchesInTurn, ReadsNone, FindsFloor, ReadsForFloor};
ghost use Rattle.quilt_node.specs.Nodes.{IsPlace};
ghost use Rattle.quilt_btree.specs.Searches.{IsFork, IsPath, IsHigh, AreOf, IsLeafFor};

use crate::lent::{floor_at, fork_at, last_at, last_child_at};
use crate::pages::stop_of;
use quilt_node::{child_count_in, child_in, find_in, place_in, rec_in, records_in};
use quilt_record::{Key, Record};
use quilt_store::PageStore;
use quilt_types::Stop;

/// The child under which a key belongs, and its place.
#[derive(Clone, Copy, Debug, PartialEq, Eq)]
pub struct Path {
    pub place: usize,
    pub child: u32,
}

/// The child of an inner page under which a key belongs: none where its number in the bytes is no page of a store of so
/// many.
pub fn path_in(bytes: &[u8; 4096], pages: u32, k: &Key) -> Option<Path>
    ensures range { IfSome result (λ w. (w.place < 254) × (1 ≤ w.child) × (w.child < pages)) }
    ensures stands { IfSome result (λ w. HasChild pages bytes.now w.child) }
    ensures path { (inner : Inner) → inner_of pages bytes.now ≡ Some inner
        → MatchOption result ⊥ (λ w. (w.place ≡ child_place k.now inner) × IsPlace inner.keys k.now w.place × (w.child ≡ slice_index inner.children w.place)) }
{
    let place = place_in(bytes, k);
    let child = child_in(bytes, place);
    if child < 1 || pages <= child {
        return None;
    }
    Some(Path { place, child })
}

/// The child under which a key belongs, and the one before it.
#[derive(Clone, Copy, Debug, PartialEq, Eq)]
pub struct Fork {
    pub child: u32,
    pub prior: Option<u32>,
}

/// The child of an inner page under which a key belongs, and the one before it: none where a number in the bytes is
/// no page of a store of so many.
pub fn fork_in(bytes: &[u8; 4096], pages: u32, k: &Key) -> Option<Fork>
    ensures range { IfSome result (λ f. (1 ≤ f.child) × (f.child < pages) × IfSome f.prior (λ p. (1 ≤ p) × (p < pages))) }
    ensures stands { IfSome result (λ f. HasChild pages bytes.now f.child × IfSome f.prior (HasChild pages bytes.now)) }
    ensures fork { (inner : Inner) → inner_of pages bytes.now ≡ Some inner → MatchOption result ⊥ (λ f. IsFork k.now inner f.child f.prior) }
{
    let path = match path_in(bytes, pages, k) {
        None => return None,
        Some(path) => path,
    };
    let child = path.child;
    if path.place == 0 {
        return Some(Fork { child, prior: None });
    }
    let prior = child_in(bytes, path.place - 1);
    if prior < 1 || pages <= prior {
        return None;
    }
    Some(Fork {
        child,
        prior: Some(prior),
    })
}

/// The last child of an inner page: none where the bytes have none that is a page of a store of so many.
pub fn last_child_in(bytes: &[u8; 4096], pages: u32) -> Option<u32>
    ensures range { IfSome result (λ c. (1 ≤ c) × (c < pages)) }
    ensures stands { IfSome result (HasChild pages bytes.now) }
    ensures last { (inner : Inner) → inner_of pages bytes.now ≡ Some inner → result ≡ Some (slice_index inner.children (length inner.children - 1)) }
{
    let n = child_count_in(bytes);
    if n == 0 {
        return None;
    }
    let child = child_in(bytes, n - 1);
    if child < 1 || pages <= child {
        return None;
    }
    Some(child)
}

/// The last record of a leaf: none where the bytes have none.
pub fn last_in(bytes: &[u8; 4096]) -> Option<Record>
    ensures { (rs : List Record) → leaf_of bytes.now ≡ Some rs → result ≡ last_or None rs }
{
    let n = records_in(bytes);
    if n == 0 {
        return None;
    }
    Some(rec_in(bytes, n - 1))
}

/// The value of the record of a leaf with this key.
pub fn value_in(bytes: &[u8; 4096], k: &Key) -> Option<[u8; 16]>
    ensures { (rs : List Record) → leaf_of bytes.now ≡ Some rs → result ≡ value_at_key k.now rs }
{
    match find_in(bytes, k) {
        Ok(i) => Some(rec_in(bytes, i).value),
        Err(_) => None,
    }
}

/// The record of a leaf with the greatest key that is at most `k`.
pub fn floor_in(bytes: &[u8; 4096], k: &Key) -> Option<Record>
    ensures { (rs : List Record) → leaf_of bytes.now ≡ Some rs → result ≡ floor_of k.now rs }
{
    match find_in(bytes, k) {
        Ok(i) => Some(rec_in(bytes, i)),
        Err(i) => {
            if i == 0 {
                None
            } else {
                Some(rec_in(bytes, i - 1))
            }
        }
    }
}

/// Reads a page into the buffer.
pub fn read_into<S: PageStore>(store: &mut S, page: u32, bytes: &mut [u8; 4096]) -> Result<(), Stop>
    requires { (1 ≤ page) × (page < S.size store.old) }
    ensures bytes { OnOk result (AreOf (S.told store.old) page bytes.new) }
    ensures sound { IfErr result (λ e. IsNotDamage e) }
    ensures names { IfErr result (NamesPage (S.size store.old)) }
    ensures left { OnlyReads S.PageStore store.old store.new result }
    ensures held { OnOk result (Goes (Touches page) (S.held store.old) (S.held store.new)) }
    ensures reads { Goes (λ old new. new ≤ old + 1) (S.reads store.old) (S.reads store.new) }
    ensures held_is_free { IfSome (S.held store.old) (λ pages. IsTrue (list_any (λ p. p == page) pages)
        → Goes (λ old new. new ≤ old) (S.reads store.old) (S.reads store.new)) }
{
    match store.read(page, bytes) {
        Err(e) => Err(stop_of(e)),
        Ok(()) => Ok(()),
    }
}

/// Reads an inner page into the buffer, and answers its child under which a key belongs. Of the page nothing else is
/// looked into: it is said to be damaged where this child is no page of the store.
pub fn read_path<S: PageStore>(
    store: &mut S,
    page: u32,
    k: &Key,
    bytes: &mut [u8; 4096],
) -> Result<Path, Stop>
    requires { (1 ≤ page) × (page < S.size store.old) }
    ensures bytes { OnOk result (AreOf (S.told store.old) page bytes.new) }
    ensures stands { IfOk result (λ w. HasChild (S.size store.old) bytes.new w.child) }
    ensures path { IfOk result (λ w. (inner : Inner) → inner_of (S.size store.old) bytes.new ≡ Some inner
        → IsPath (S.told store.old) page k.now w.place w.child inner) }
    ensures range { IfOk result (λ w. w.place < 254) }
    ensures here { OnOk result ((height : ℕ) (rs : List Record) → 1 ≤ height → height ≢ 1 → SpellsSubtree (S.told store.old) page height rs
        → IsHigh (S.size store.old) bytes.new height) }
    ensures sound { IfErr result (λ e. (height : ℕ) (rs : List Record) → 1 ≤ height → height ≢ 1 → SpellsSubtree (S.told store.old) page height rs → IsNotDamage e) }
    ensures names { IfErr result (NamesPage (S.size store.old)) }
    ensures bad { IfErr result (λ e. (height : ℕ) → 1 ≤ height → height ≢ 1 → NamesBad (S.told store.old) height page e) }
    ensures left { OnlyReads S.PageStore store.old store.new result }
    ensures reads { Goes (λ old new. new ≤ old + 1) (S.reads store.old) (S.reads store.new) }
{
    read_into(store, page, bytes)?;
    match path_in(bytes, store.pages(), k) {
        None => Err(Stop::Damaged { page }),
        Some(path) => Ok(path),
    }
}

/// The page of the leaf to which a key leads in the subtree at a page. It looks at the pages above it where they lie.
pub fn leaf_page<S: PageStore>(store: &mut S, page: u32, height: u8, k: &Key) -> Result<u32, Stop>
    requires page { (1 ≤ page) × (page < S.size store.old) }
    requires height { 1 ≤ height }
    ensures range { IfOk result (λ leaf. (1 ≤ leaf) × (leaf < S.size store.old)) }
    ensures leads { IfOk result (λ leaf. (rs : List Record) → SpellsSubtree (S.told store.old) page height rs
        → (bytes : List ℕ) → AreOf (S.told store.old) leaf bytes → IsLeafFor k.now rs bytes) }
    ensures sound { IfErr result (λ e. (rs : List Record) → SpellsSubtree (S.told store.old) page height rs → IsNotDamage e) }
    ensures names { IfErr result (NamesPage (S.size store.old)) }
    ensures bad { IfErr result (NamesBad (S.told store.old) height page) }
    ensures left { OnlyReads S.PageStore store.old store.new result }
    ensures reads { Goes (λ old new. new + 1 ≤ old + height) (S.reads store.old) (S.reads store.new) }
{
    if height == 1 {
        return Ok(page);
    }
    let fork = fork_at(store, page, k)?;
    leaf_page(store, fork.child, height - 1, k)
}

/// The last record of the subtree at a page.
pub fn last_under<S: PageStore>(store: &mut S, page: u32, height: u8) -> Result<Record, Stop>
    requires page { (1 ≤ page) × (page < S.size store.old) }
    requires height { 1 ≤ height }
    ensures last { IfOk result (λ r. (rs : List Record) → SpellsSubtree (S.told store.old) page height rs → last_or None rs ≡ Some r) }
    ensures sound { IfErr result (λ e. (rs : List Record) → SpellsSubtree (S.told store.old) page height rs → IsNotDamage e) }
    ensures names { IfErr result (NamesPage (S.size store.old)) }
    ensures bad { IfErr result (NamesBad (S.told store.old) height page) }
    ensures left { OnlyReads S.PageStore store.old store.new result }
    ensures touched { OnOk result ((rs : List Record) → SpellsSubtree (S.told store.old) page height rs
        → TouchesInTurn (λ pages. last_pages pages height page) (S.told store.old) (S.held store.old) (S.held store.new)) }
    ensures again { (rs : List Record) → SpellsSubtree (S.told store.old) page height rs
        → ReadsNone (λ pages. last_pages pages height page) (S.told store.old) (S.held store.old) (S.reads store.old) (S.reads store.new) }
    ensures reads { Goes (λ old new. new ≤ old + height) (S.reads store.old) (S.reads store.new) }
{
    if height == 1 {
        return last_at(store, page);
    }
    let child = last_child_at(store, page)?;
    last_under(store, child, height - 1)
}

/// The record of the subtree at a page with the greatest key that is at most `k`.
pub fn floor_under<S: PageStore>(
    store: &mut S,
    page: u32,
    height: u8,
    k: &Key,
) -> Result<Option<Record>, Stop>
    requires page { (1 ≤ page) × (page < S.size store.old) }
    requires height { 1 ≤ height }
    ensures floor { FindsFloor (S.told store.old) page height k.now result }
    ensures sound { IfErr result (λ e. (rs : List Record) → SpellsSubtree (S.told store.old) page height rs → IsNotDamage e) }
    ensures names { IfErr result (NamesPage (S.size store.old)) }
    ensures bad { IfErr result (NamesBad (S.told store.old) height page) }
    ensures left { OnlyReads S.PageStore store.old store.new result }
    ensures touched { OnOk result ((rs : List Record) → SpellsSubtree (S.told store.old) page height rs
        → TouchesInTurn (λ pages. floor_pages pages k.now height page) (S.told store.old) (S.held store.old) (S.held store.new)) }
    ensures again { (rs : List Record) → SpellsSubtree (S.told store.old) page height rs
        → ReadsNone (λ pages. floor_pages pages k.now height page) (S.told store.old) (S.held store.old) (S.reads store.old) (S.reads store.new) }
    ensures reads { ReadsForFloor height (S.reads store.old) (S.reads store.new) result }
{
    if height == 1 {
        return floor_at(store, page, k);
    }
    let fork = fork_at(store, page, k)?;
    match floor_under(store, fork.child, height - 1, k)? {
        Some(r) => Ok(Some(r)),
        None => match fork.prior {
            None => Ok(None),
            Some(prior) => Ok(Some(last_under(store, prior, height - 1)?)),
        },
    }
}

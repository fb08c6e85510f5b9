ghost use Rattle.std.specs.Prelude.{◌≡◌, ◌≢◌, ◌⊎◌, ℕ, ◌+◌, ◌*◌, ◌<◌, ◌≤◌, Bool, true, List, [], ◌∷◌, ◌++◌, Some, None, IfOk, IfErr, OnOk, length, take, drop};
ghost use Rattle.std.specs.List.{insert, list_all, list_any};
ghost use Rattle.std.specs.Ordering.{is_lt};
ghost use Rattle.quilt_record.specs.Records.{key_cmp};
ghost use Rattle.quilt_record.specs.declared.record.Record.{Record};
ghost use Rattle.quilt_node.specs.Pages.{Inner, inner_of, is_ascending};
ghost use Rattle.quilt_node.specs.Nodes.{IsGap, are_pages};
ghost use Rattle.quilt_node.specs.Edits.{with_child};
ghost use Rattle.quilt_node.specs.Tree.{Bounds};
ghost use Rattle.quilt_store.specs.Store.{count_free};
ghost use Rattle.quilt_types.specs.declared.stop.Stop.TheVariants.{Damaged};
ghost use Rattle.quilt_btree.specs.Damage.{NamesBad};
ghost use Rattle.quilt_record.specs.Lists.{has_key};
ghost use Rattle.quilt_btree.specs.Outcomes.{was_there};
ghost use Rattle.quilt_store.specs.Stops.{IsNotDamage};
ghost use Rattle.quilt_btree.specs.Costs.{EditsWithin};
ghost use Rattle.quilt_btree.specs.Stops.{NamesPage};
ghost use Rattle.quilt_btree.specs.Trees.{SpellsSubtree};
ghost use Rattle.quilt_btree.specs.Edits.{CanInsert, DidInsert};
ghost use Rattle.quilt_btree.specs.Inserts.{IsPending, DidPut, AreFew, LeavesInserted, LeavesPut};

use crate::balance::precedes;
use crate::outcomes::Inserted;
use crate::search::{read_into, read_path};
use crate::split::write_split;
use crate::writes::write_page;
use quilt_node::{InnerPage, LeafPage, MOST_CHILDREN, MOST_RECORDS, is_inner, is_leaf};
use quilt_record::{Key, Record};
use quilt_store::PageStore;
use quilt_types::Stop;

/// Puts a record into the leaf at a page, which is read once and written once. It is read into a buffer of its own: a page that a call answers would be
/// cleared first.
pub fn insert_leaf<S: PageStore>(store: &mut S, page: u32, r: &Record) -> Result<Inserted, Stop>
    requires { (1 ≤ page) × (page < S.size store.old) }
    ensures inserted { IfOk result (λ o. (is_root : Bool) (b : Bounds) (rs : List Record) (used : List ℕ)
        → CanInsert (S.told store.old) (S.free store.old) (S.size store.old) page 1 is_root b r.now.key rs used
        → DidInsert r.now (S.told store.old) (S.told store.new) (S.free store.old) (S.free store.new) page 1 is_root b rs used o) }
    ensures sound { IfErr result (λ e. (is_root : Bool) (b : Bounds) (rs : List Record) (used : List ℕ)
        → CanInsert (S.told store.old) (S.free store.old) (S.size store.old) page 1 is_root b r.now.key rs used → IsNotDamage e) }
    ensures finds { IfOk result (λ o. (height : ℕ) (rs : List Record) → height ≡ 1 → SpellsSubtree (S.told store.old) page height rs
        → was_there o ≡ list_any (has_key r.now.key) rs) }
    ensures leaves { LeavesInserted S.PageStore 1 store.old store.new result }
    ensures names { IfErr result (NamesPage (S.size store.old)) }
    ensures bad { IfErr result (λ e. e ≢ Damaged 0 → NamesBad (S.told store.old) 1 page e) }
    ensures left { EditsWithin S.PageStore 2 1 store.old store.new result }
{
    let mut bytes = [0; 4096];
    read_into(store, page, &mut bytes)?;
    if !is_leaf(&bytes) {
        return Err(Stop::Damaged { page });
    }
    let mut leaf = LeafPage::from_bytes(bytes);
    match leaf.find(&r.key) {
        Ok(_) => Ok(Inserted::There),
        Err(i) => put_record(store, page, &mut leaf, i, r),
    }
}

/// Puts a record into a leaf at a place, and writes it to its page.
pub fn put_record<S: PageStore>(
    store: &mut S,
    page: u32,
    leaf: &mut LeafPage,
    i: usize,
    r: &Record,
) -> Result<Inserted, Stop>
    requires page { (1 ≤ page) × (page < S.size store.old) }
    requires place { IsGap r.now.key leaf.old i }
    ensures put { IfOk result (λ o. (is_root : Bool) (b : Bounds) (rs : List Record) (used : List ℕ) → leaf.old ≡ rs
        → CanInsert (S.told store.old) (S.free store.old) (S.size store.old) page 1 is_root b r.now.key rs used
        → DidInsert r.now (S.told store.old) (S.told store.new) (S.free store.old) (S.free store.new) page 1 is_root b rs used o) }
    ensures sound { IfErr result (λ e. (is_root : Bool) (b : Bounds) (rs : List Record) (used : List ℕ)
        → CanInsert (S.told store.old) (S.free store.old) (S.size store.old) page 1 is_root b r.now.key rs used → IsNotDamage e) }
    ensures leaves { LeavesPut S.PageStore store.old store.new result }
    ensures names { IfErr result (NamesPage 1) }
    ensures left { EditsWithin S.PageStore 2 0 store.old store.new result }
{
    if leaf.len() < MOST_RECORDS {
        leaf.insert(i, r);
        write_page(store, page, leaf.bytes())?;
        return Ok(Inserted::Done);
    }
    let right = leaf.insert_split(i, r);
    let new = write_split(store, page, leaf.bytes(), right.bytes())?;
    Ok(Inserted::Split {
        key: right.rec(0).key,
        right: new,
    })
}

/// Whether the keys before place `i` are below `k`.
fn is_over(inner: &InnerPage, i: usize, k: &Key) -> bool
    requires { i < length inner.now.children }
    ensures { result ≡ list_all (λ l. is_lt (key_cmp l k.now)) (take i inner.now.keys) }
{
    let _ = inner.len();
    i == 0 || precedes(&inner.key(i - 1), k)
}

/// Whether the keys from place `i` on are above `k`.
fn is_under(inner: &InnerPage, i: usize, k: &Key) -> bool
    requires { i < length inner.now.children }
    ensures { result ≡ list_all (λ l. is_lt (key_cmp k.now l)) (drop i inner.now.keys) }
{
    i == inner.len() - 1 || precedes(k, &inner.key(i))
}

/// Whether the keys ascend with another one put in at place `i`.
fn fits(inner: &InnerPage, i: usize, k: &Key) -> bool
    requires { i < length inner.now.children }
    ensures { result ≡ is_ascending (insert inner.now.keys i k.now) }
{
    let _ = inner.len();
    is_over(inner, i, k) && is_under(inner, i, k)
}

/// Puts key `i` and child `i + 1` into a full inner page, which is split, and writes both halves. It stands by itself so that the page on the right is
/// cleared only here.
#[inline(never)]
fn split_child<S: PageStore>(
    store: &mut S,
    page: u32,
    inner: &mut InnerPage,
    i: usize,
    key: &Key,
    child: u32,
) -> Result<Inserted, Stop>
    requires page { (1 ≤ page) × (page < S.size store.old) }
    requires children { are_pages (S.size store.old) inner.old.children ≡ true }
    requires place { (i < length inner.old.children) × (length inner.old.children ≡ 254) }
    requires child { 1 ≤ child }
    requires order { is_ascending (insert inner.old.keys i key.now) ≡ true }
    ensures put { IfOk result (λ o. (is_root : Bool) (b : Bounds) (all : List Record) (under : List ℕ)
        → IsPending (S.told store.old) (S.free store.old) page is_root b (with_child inner.old i key.now child) all under
        → DidPut (S.told store.old) (S.told store.new) (S.free store.old) (S.free store.new) page inner.old.height is_root b (under ++ page ∷ []) all o) }
    ensures sound { IfErr result (λ e. (is_root : Bool) (b : Bounds) (all : List Record) (under : List ℕ)
        → IsPending (S.told store.old) (S.free store.old) page is_root b (with_child inner.old i key.now child) all under
        → 0 < count_free (S.free store.old) (S.size store.old) → IsNotDamage e) }
    ensures leaves { LeavesPut S.PageStore store.old store.new result }
    ensures names { IfErr result (NamesPage 1) }
    ensures left { EditsWithin S.PageStore 2 0 store.old store.new result }
{
    let (separator, right) = inner.insert_split(i, key, child);
    let new = write_split(store, page, inner.bytes(), right.bytes())?;
    Ok(Inserted::Split {
        key: separator,
        right: new,
    })
}

/// Puts key `i` and child `i + 1` into an inner page, and writes it to its page. One at height 3, where the root stands, is not
/// split: page 0 is said to be damaged then, before anything is written.
pub fn put_child<S: PageStore>(
    store: &mut S,
    page: u32,
    inner: &mut InnerPage,
    i: usize,
    key: &Key,
    child: u32,
) -> Result<Inserted, Stop>
    requires page { (1 ≤ page) × (page < S.size store.old) }
    requires children { are_pages (S.size store.old) inner.old.children ≡ true }
    requires place { i < length inner.old.children }
    requires child { 1 ≤ child }
    ensures put { IfOk result (λ o. (is_root : Bool) (b : Bounds) (all : List Record) (under : List ℕ)
        → IsPending (S.told store.old) (S.free store.old) page is_root b (with_child inner.old i key.now child) all under
        → DidPut (S.told store.old) (S.told store.new) (S.free store.old) (S.free store.new) page inner.old.height is_root b (under ++ page ∷ []) all o) }
    ensures sound { IfErr result (λ e. (is_root : Bool) (b : Bounds) (all : List Record) (under : List ℕ)
        → IsPending (S.told store.old) (S.free store.old) page is_root b (with_child inner.old i key.now child) all under
        → 0 < count_free (S.free store.old) (S.size store.old) → (inner.old.height ≡ 3 → length inner.old.children < 254) → IsNotDamage e) }
    ensures leaves { LeavesPut S.PageStore store.old store.new result }
    ensures names { IfErr result (NamesPage 1) }
    ensures left { EditsWithin S.PageStore 2 0 store.old store.new result }
    ensures less { inner.old.height ≡ 3 → S.changed store.new ≤ S.changed store.old + 1 }
{
    if !fits(inner, i, key) {
        return Err(Stop::Damaged { page: 0 });
    }
    if inner.len() < MOST_CHILDREN {
        inner.insert(i, key, child);
        write_page(store, page, inner.bytes())?;
        return Ok(Inserted::Done);
    }
    if inner.height() == 3 {
        return Err(Stop::Damaged { page: 0 });
    }
    split_child(store, page, inner, i, key, child)
}

/// Puts key `i` and child `i + 1` into the inner page of this height that was read at a page, and writes it there. The page is said to be
/// damaged where the bytes are no inner page, and page 0 where they are one of another height. It stands by itself so that the page is copied only where
/// a child was split.
#[inline(never)]
pub fn put_in_page<S: PageStore>(
    store: &mut S,
    page: u32,
    height: u8,
    bytes: &[u8; 4096],
    i: usize,
    key: &Key,
    child: u32,
) -> Result<Inserted, Stop>
    requires page { (1 ≤ page) × (page < S.size store.old) }
    requires place { (inner : Inner) → inner_of (S.size store.old) bytes.now ≡ Some inner → i < length inner.children }
    requires child { 1 ≤ child }
    ensures put { IfOk result (λ o. (inner : Inner) → inner_of (S.size store.old) bytes.now ≡ Some inner → (is_root : Bool) (b : Bounds) (all : List Record) (under : List ℕ)
        → IsPending (S.told store.old) (S.free store.old) page is_root b (with_child inner i key.now child) all under
        → DidPut (S.told store.old) (S.told store.new) (S.free store.old) (S.free store.new) page inner.height is_root b (under ++ page ∷ []) all o) }
    ensures sound { IfErr result (λ e. (inner : Inner) → inner_of (S.size store.old) bytes.now ≡ Some inner → inner.height ≡ height
        → (is_root : Bool) (b : Bounds) (all : List Record) (under : List ℕ)
        → IsPending (S.told store.old) (S.free store.old) page is_root b (with_child inner i key.now child) all under
        → 0 < count_free (S.free store.old) (S.size store.old) → (inner.height ≡ 3 → length inner.children < 254) → IsNotDamage e) }
    ensures leaves { LeavesPut S.PageStore store.old store.new result }
    ensures fault { IfErr result (λ e. (q : ℕ) → e ≡ Damaged q → (q ≡ 0) ⊎ ((q ≡ page) × (inner_of (S.size store.old) bytes.now ≡ None))) }
    ensures left { EditsWithin S.PageStore 2 0 store.old store.new result }
    ensures less { height ≡ 3 → S.changed store.new ≤ S.changed store.old + 1 }
{
    let pages = store.pages();
    if !is_inner(bytes, pages) {
        return Err(Stop::Damaged { page });
    }
    if bytes[1] != height {
        return Err(Stop::Damaged { page: 0 });
    }
    let mut inner = InnerPage::from_bytes(*bytes, pages);
    put_child(store, page, &mut inner, i, key, child)
}

/// Puts a record into the subtree at a page.
pub fn insert_under<S: PageStore>(
    store: &mut S,
    page: u32,
    height: u8,
    r: &Record,
) -> Result<Inserted, Stop>
    requires page { (1 ≤ page) × (page < S.size store.old) }
    requires height { 1 ≤ height }
    ensures inserted { IfOk result (λ o. (is_root : Bool) (b : Bounds) (rs : List Record) (used : List ℕ)
        → CanInsert (S.told store.old) (S.free store.old) (S.size store.old) page height is_root b r.now.key rs used
        → DidInsert r.now (S.told store.old) (S.told store.new) (S.free store.old) (S.free store.new) page height is_root b rs used o) }
    ensures sound { IfErr result (λ e. (is_root : Bool) (b : Bounds) (rs : List Record) (used : List ℕ)
        → CanInsert (S.told store.old) (S.free store.old) (S.size store.old) page height is_root b r.now.key rs used → AreFew rs → IsNotDamage e) }
    ensures finds { IfOk result (λ o. (rs : List Record) → SpellsSubtree (S.told store.old) page height rs → was_there o ≡ list_any (has_key r.now.key) rs) }
    ensures leaves { LeavesInserted S.PageStore height store.old store.new result }
    ensures names { IfErr result (NamesPage (S.size store.old)) }
    ensures bad { IfErr result (λ e. e ≢ Damaged 0 → NamesBad (S.told store.old) height page e) }
    ensures left { EditsWithin S.PageStore (2 * height) height store.old store.new result }
    ensures less { 3 ≤ height → S.changed store.new + 1 ≤ S.changed store.old + 2 * height }
{
    if height == 1 {
        return insert_leaf(store, page, r);
    }
    let mut bytes = [0; 4096];
    let path = read_path(store, page, &r.key, &mut bytes)?;
    match insert_under(store, path.child, height - 1, r)? {
        Inserted::There => Ok(Inserted::There),
        Inserted::Done => Ok(Inserted::Done),
        Inserted::Split { key, right } => {
            put_in_page(store, page, height, &bytes, path.place, &key, right)
        }
    }
}

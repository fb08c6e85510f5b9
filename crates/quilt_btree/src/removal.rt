ghost use Rattle.std.specs.Prelude.{◌≡◌, ◌≢◌, ◌⊎◌, ℕ, suc, ◌+◌, ◌-◌, ◌*◌, ◌<◌, ◌≤◌, Bool, true, false, IfOk, IfErr, OnOk, List, length, slice_set};
ghost use Rattle.std.specs.List.{list_any};
ghost use Rattle.quilt_record.specs.declared.record.Record.{Record};
ghost use Rattle.quilt_node.specs.Pages.{is_ascending};
ghost use Rattle.quilt_node.specs.Nodes.{are_pages};
ghost use Rattle.quilt_node.specs.Edits.{with_key};
ghost use Rattle.quilt_node.specs.Tree.{Bounds};
ghost use Rattle.quilt_btree.specs.declared.outcomes.Removed.TheVariants.{Missing};
ghost use Rattle.quilt_btree.specs.Edits.{CanEdit, DidLeave, DidRemove, HasPageIn};
ghost use Rattle.quilt_record.specs.Lists.{has_key};
ghost use Rattle.quilt_world.specs.Tale.{Goes};
ghost use Rattle.quilt_types.specs.declared.stop.Stop.TheVariants.{Damaged};
ghost use Rattle.quilt_btree.specs.Damage.{NamesBad, NamesBeside, OthersStay};
ghost use Rattle.quilt_btree.specs.Rebalancing.{HasUnderfull, HasDropped, WritesInner, LeavesRebalanced, LeavesRemoved};
ghost use Rattle.quilt_btree.specs.Outcomes.{was_found};
ghost use Rattle.quilt_store.specs.Stops.{IsNotDamage};
ghost use Rattle.quilt_btree.specs.Costs.{EditsWithin, IsUntouched};
ghost use Rattle.quilt_btree.specs.Stops.{NamesPage};
ghost use Rattle.quilt_btree.specs.Trees.{SpellsSubtree};

use crate::balance::{key_fits, rebalance_pages};
use crate::outcomes::{Rebalanced, Removed};
use crate::pages::{inner_at_fault, inner_high, read_leaf};
use crate::search::read_path;
use crate::writes::write_page;
use quilt_node::{InnerPage, LEAST_CHILDREN, LEAST_RECORDS};
use quilt_record::Key;
use quilt_store::PageStore;
use quilt_types::Stop;

/// Takes the record of a key out of the leaf at a page, which is read once and written once. The last record of all is not
/// taken out: the leaf is said to be emptied.
fn remove_in_leaf<S: PageStore>(store: &mut S, page: u32, k: &Key) -> Result<Removed, Stop>
    requires { (1 ≤ page) × (page < S.size store.old) }
    ensures removed { IfOk result (λ o. (height : ℕ) (is_root : Bool) (b : Bounds) (rs : List Record) (used : List ℕ) → height ≡ 1
        → CanEdit (S.told store.old) (S.free store.old) page height is_root b rs used
        → DidRemove k.now (S.told store.old) (S.told store.new) (S.free store.old) (S.free store.new) page height is_root b rs used o) }
    ensures sound { IfErr result (λ e. (height : ℕ) (is_root : Bool) (b : Bounds) (rs : List Record) (used : List ℕ) → height ≡ 1
        → CanEdit (S.told store.old) (S.free store.old) page height is_root b rs used → IsNotDamage e) }
    ensures finds { IfOk result (λ o. (height : ℕ) (rs : List Record) → height ≡ 1 → SpellsSubtree (S.told store.old) page height rs
        → was_found o ≡ list_any (has_key k.now) rs) }
    ensures same { IfOk result (λ o. o ≡ Missing → IsUntouched S.PageStore store.old store.new) }
    ensures child { IfOk result (λ o. HasPageIn (S.size store.old) o) }
    ensures others { OnOk result (Goes (OthersStay page) (S.told store.old) (S.told store.new)) }
    ensures names { IfErr result (NamesPage (S.size store.old)) }
    ensures bad { IfErr result (λ e. e ≢ Damaged 0 → NamesBad (S.told store.old) 1 page e) }
    ensures left { EditsWithin S.PageStore 1 1 store.old store.new result }
{
    let mut leaf = read_leaf(store, page, page)?;
    match leaf.find(k) {
        Err(_) => Ok(Removed::Missing),
        Ok(_) if leaf.len() == 1 => Ok(Removed::Emptied),
        Ok(i) => {
            leaf.remove(i);
            let left = leaf.len();
            write_page(store, page, leaf.bytes())?;
            Ok(if left < LEAST_RECORDS {
                Removed::Underfull
            } else {
                Removed::Done
            })
        }
    }
}

/// The first of two neighbouring children of `n`, of which `i` is one.
fn pair_at(i: usize, n: usize) -> usize
    requires { (i < n) × (2 ≤ n) }
    ensures both { result + 1 < n }
    ensures one { (result ≡ i) ⊎ (result + 1 ≡ i) }
{
    if i + 1 < n { i } else { i - 1 }
}

/// The one of two neighbouring children that is not `child`, which was edited; 0 where both are.
fn other_of(left: u32, right: u32, child: u32) -> u32
    ensures { result ≢ 0 → ((result ≡ left) ⊎ (result ≡ right)) × (result ≢ child) }
{
    if left != child {
        left
    } else if right != child {
        right
    } else {
        0
    }
}

/// Writes an inner page without key `j` and the child behind it, unless it has two children alone.
fn drop_child<S: PageStore>(
    store: &mut S,
    page: u32,
    inner: &mut InnerPage,
    j: usize,
) -> Result<Removed, Stop>
    requires page { (1 ≤ page) × (page < S.size store.old) }
    requires children { are_pages (S.size store.old) inner.old.children ≡ true }
    requires place { j < length inner.old.keys }
    ensures dropped { IfOk result (λ o. HasDropped page inner.old j (S.told store.old) (S.told store.new) o) }
    ensures child { IfOk result (λ o. HasPageIn (S.size store.old) o) }
    ensures some { IfOk result (λ o. o ≡ Missing → ⊥) }
    ensures sound { IfErr result (λ e. S.free store.old page ≡ false → IsNotDamage e) }
    ensures free { S.free store.new ≡ S.free store.old }
    ensures names { IfErr result (NamesPage 1) }
    ensures left { EditsWithin S.PageStore 1 0 store.old store.new result }
{
    if inner.len() == 2 {
        return Ok(Removed::Only {
            child: inner.child(0),
        });
    }
    inner.remove(j);
    let left = inner.len();
    write_page(store, page, inner.bytes())?;
    Ok(if left < LEAST_CHILDREN {
        Removed::Underfull
    } else {
        Removed::Done
    })
}

/// Writes an inner page with another key `j`.
fn renew_key<S: PageStore>(
    store: &mut S,
    page: u32,
    inner: &mut InnerPage,
    j: usize,
    key: &Key,
) -> Result<(), Stop>
    requires page { (1 ≤ page) × (page < S.size store.old) }
    requires children { are_pages (S.size store.old) inner.old.children ≡ true }
    requires place { j < length inner.old.keys }
    ensures renewed { OnOk result (WritesInner page (with_key inner.old j key.now) (S.told store.old) (S.told store.new)) }
    ensures order { OnOk result (is_ascending (slice_set inner.old.keys j key.now) ≡ true) }
    ensures sound { IfErr result (λ e. S.free store.old page ≡ false → is_ascending (slice_set inner.old.keys j key.now) ≡ true → IsNotDamage e) }
    ensures free { S.free store.new ≡ S.free store.old }
    ensures names { IfErr result (NamesPage 1) }
    ensures left { EditsWithin S.PageStore 1 0 store.old store.new result }
{
    if !key_fits(inner, j, key) {
        return Err(Stop::Damaged { page: 0 });
    }
    inner.set_key(j, key);
    write_page(store, page, inner.bytes())
}

/// Rebalances child `i` of an inner page, which was edited, with a neighbour, and writes the page where it has two children
/// or more then. A neighbour that is no leaf is said to be damaged, unless it is the same page.
fn rebalance_child<S: PageStore>(
    store: &mut S,
    page: u32,
    height: u8,
    inner: &mut InnerPage,
    i: usize,
) -> Result<Removed, Stop>
    requires page { (1 ≤ page) × (page < S.size store.old) }
    requires height { 2 ≤ height }
    requires children { are_pages (S.size store.old) inner.old.children ≡ true }
    requires place { i < length inner.old.children }
    ensures leaves { IfOk result (λ o. (is_root : Bool) (b : Bounds) (rs : List Record) (used : List ℕ)
        → HasUnderfull (S.told store.old) (S.free store.old) page height inner.old i is_root b rs used
        → DidLeave (S.told store.old) (S.told store.new) (S.free store.old) (S.free store.new) page height is_root b used rs o) }
    ensures sound { IfErr result (λ e. (is_root : Bool) (b : Bounds) (rs : List Record) (used : List ℕ)
        → HasUnderfull (S.told store.old) (S.free store.old) page height inner.old i is_root b rs used → IsNotDamage e) }
    ensures remains { LeavesRebalanced S.PageStore 3 store.old store.new result }
    ensures names { IfErr result (NamesPage (S.size store.old)) }
    ensures bad { IfErr result (NamesBeside (S.told store.old) height inner.old i) }
    ensures left { EditsWithin S.PageStore 3 2 store.old store.new result }
{
    let j = pair_at(i, inner.len());
    let left = inner.child(j);
    let right = inner.child(j + 1);
    let key = inner.key(j);
    let spare = other_of(left, right, inner.child(i));
    match rebalance_pages(store, height - 1, left, &key, right, spare)? {
        Rebalanced::Joined => drop_child(store, page, inner, j),
        Rebalanced::Redistributed { key } => {
            renew_key(store, page, inner, j, &key)?;
            Ok(Removed::Done)
        }
    }
}

/// Takes the record of a key out of the subtree at a page.
pub fn remove_under<S: PageStore>(
    store: &mut S,
    page: u32,
    height: u8,
    k: &Key,
) -> Result<Removed, Stop>
    requires page { (1 ≤ page) × (page < S.size store.old) }
    requires height { 1 ≤ height }
    ensures removed { IfOk result (λ o. (is_root : Bool) (b : Bounds) (rs : List Record) (used : List ℕ)
        → CanEdit (S.told store.old) (S.free store.old) page height is_root b rs used
        → DidRemove k.now (S.told store.old) (S.told store.new) (S.free store.old) (S.free store.new) page height is_root b rs used o) }
    ensures sound { IfErr result (λ e. (is_root : Bool) (b : Bounds) (rs : List Record) (used : List ℕ)
        → CanEdit (S.told store.old) (S.free store.old) page height is_root b rs used → IsNotDamage e) }
    ensures finds { IfOk result (λ o. (rs : List Record) → SpellsSubtree (S.told store.old) page height rs → was_found o ≡ list_any (has_key k.now) rs) }
    ensures remains { LeavesRemoved S.PageStore (2 * height) store.old store.new result }
    ensures others { OnOk result (height ≡ 1 → Goes (OthersStay page) (S.told store.old) (S.told store.new)) }
    ensures names { IfErr result (NamesPage (S.size store.old)) }
    ensures bad { IfErr result (λ e. e ≢ Damaged 0 → NamesBad (S.told store.old) height page e) }
    ensures left { EditsWithin S.PageStore (2 * height) (3 * height - 2) store.old store.new result }
{
    if height == 1 {
        return remove_in_leaf(store, page, k);
    }
    let mut bytes = [0; 4096];
    let path = read_path(store, page, k, &mut bytes)?;
    let child = path.child;
    match remove_under(store, child, height - 1, k)? {
        Removed::Missing => Ok(Removed::Missing),
        Removed::Done => Ok(Removed::Done),
        Removed::Underfull => match inner_high(&bytes, store.pages(), height) {
            None => Err(Stop::Damaged {
                page: inner_at_fault(&bytes, store.pages(), page),
            }),
            Some(mut inner) => rebalance_child(store, page, height, &mut inner, path.place),
        },
        Removed::Emptied => Err(Stop::Damaged { page: 0 }),
        Removed::Only { .. } => Err(Stop::Damaged { page: 0 }),
    }
}

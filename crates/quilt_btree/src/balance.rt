ghost use Rattle.std.specs.Prelude.{◌≡◌, ◌⊎◌, ℕ, ◌+◌, ◌-◌, ◌<◌, ◌≤◌, ◌++◌, ◌∷◌, Bool, true, IfOk, IfErr, List, length, slice_set};
ghost use Rattle.std.specs.Ordering.{is_lt};
ghost use Rattle.quilt_record.specs.Records.{key_cmp};
ghost use Rattle.quilt_record.specs.declared.record.Record.{Record};
ghost use Rattle.quilt_node.specs.Pages.{is_ascending};
ghost use Rattle.quilt_node.specs.Nodes.{keys_of};
ghost use Rattle.quilt_node.specs.Tree.{Bounds, is_below};
ghost use Rattle.quilt_store.specs.Stops.{IsNotDamage};
ghost use Rattle.quilt_btree.specs.Costs.{EditsWithin};
ghost use Rattle.quilt_btree.specs.Stops.{NamesPage};
ghost use Rattle.quilt_btree.specs.Damage.{NamesSpare};
ghost use Rattle.quilt_btree.specs.Rebalancing.{CanRebalance, DidRebalance};
ghost use Rattle.quilt_btree.specs.declared.outcomes.Rebalanced.TheVariants.{Joined};

use crate::outcomes::Rebalanced;
use crate::pages::{read_inner, read_leaf};
use crate::writes::{write_and_give, write_both};
use quilt_node::{InnerPage, LEAST_CHILDREN, LEAST_RECORDS, LeafPage, MOST_CHILDREN, MOST_RECORDS};
use quilt_record::Key;
use quilt_store::PageStore;
use quilt_types::Stop;

/// Whether the first key is below the second.
pub fn precedes(a: &Key, b: &Key) -> bool
    ensures { result ≡ is_lt (key_cmp a.now b.now) }
{
    a < b
}

/// Whether a key is below the one that parts a leaf from the next.
pub fn is_under(k: &Key, high: &Option<Key>) -> bool
    ensures { result ≡ is_below high.now k.now }
{
    match high {
        None => true,
        Some(high) => k < high,
    }
}

/// Whether the keys of two leaves ascend, one behind the other.
fn leaves_ascend(left: &LeafPage, right: &LeafPage) -> bool
    ensures { result ≡ is_ascending (keys_of (left.now ++ right.now)) }
{
    let _ = right.len();
    let last = left.rec(left.len() - 1);
    let first = right.rec(0);
    precedes(&last.key, &first.key)
}

/// Whether the keys of two inner pages ascend, one behind the other with `key` between.
fn inners_ascend(left: &InnerPage, key: &Key, right: &InnerPage) -> bool
    ensures { result ≡ is_ascending (left.now.keys ++ key.now ∷ right.now.keys) }
{
    let _ = right.len();
    let last = left.key(left.len() - 2);
    let first = right.key(0);
    precedes(&last, key) && precedes(key, &first)
}

/// Whether the keys of an inner page ascend with `key` in place of key `i`.
pub fn key_fits(inner: &InnerPage, i: usize, key: &Key) -> bool
    requires { i < length inner.now.keys }
    ensures { result ≡ is_ascending (slice_set inner.now.keys i key.now) }
{
    let n = inner.len();
    if 0 < i && !precedes(&inner.key(i - 1), key) {
        return false;
    }
    if i + 2 < n {
        precedes(key, &inner.key(i + 1))
    } else {
        true
    }
}

/// Moves a record to the one of two leaves that has under 72. They have more than 144 together.
fn share_records(left: &mut LeafPage, right: &mut LeafPage)
    requires many { 144 < length left.old + length right.old }
    requires order { is_ascending (keys_of (left.old ++ right.old)) ≡ true }
    ensures records { left.new ++ right.new ≡ left.old ++ right.old }
    ensures enough { 71 ≤ length left.old → 71 ≤ length right.old → (72 ≤ length left.new) × (72 ≤ length right.new) }
{
    if left.len() < LEAST_RECORDS {
        left.from_right(right);
    } else if right.len() < LEAST_RECORDS {
        right.from_left(left);
    }
}

/// Moves a child to the one of two inner pages that has under 127, and answers the key that parts them then. They have
/// more than 254 together, and `key` parts them before.
fn share_children(left: &mut InnerPage, key: &Key, right: &mut InnerPage) -> Key
    requires many { 254 < length left.old.children + length right.old.children }
    requires height { left.old.height ≡ right.old.height }
    requires order { is_ascending (left.old.keys ++ key.now ∷ right.old.keys) ≡ true }
    ensures children { left.new.children ++ right.new.children ≡ left.old.children ++ right.old.children }
    ensures keys { left.new.keys ++ result ∷ right.new.keys ≡ left.old.keys ++ key.now ∷ right.old.keys }
    ensures heights { (left.new.height ≡ left.old.height) × (right.new.height ≡ left.old.height) }
    ensures enough { 126 ≤ length left.old.children → 126 ≤ length right.old.children → (127 ≤ length left.new.children) × (127 ≤ length right.new.children) }
{
    if left.len() < LEAST_CHILDREN {
        left.from_right(key, right)
    } else if right.len() < LEAST_CHILDREN {
        right.from_left(key, left)
    } else {
        *key
    }
}

/// The page that is named where a page is bad: the page itself where it is `spare`, which was only read, and else 0.
fn named_of(page: u32, spare: u32) -> u32
    ensures most { result ≤ page }
    ensures named { (result ≡ 0) ⊎ ((result ≡ page) × (page ≡ spare)) }
{
    if page == spare { page } else { 0 }
}

/// Joins two neighbouring leaves, or moves a record, so that none has under 72. One that is no leaf is said to be damaged
/// where it is `spare`, which was only read, and page 0 in place of one that the call has written.
fn rebalance_leaves<S: PageStore>(
    store: &mut S,
    left: u32,
    key: &Key,
    right: u32,
    spare: u32,
) -> Result<Rebalanced, Stop>
    requires left { (1 ≤ left) × (left < S.size store.old) }
    requires right { (1 ≤ right) × (right < S.size store.old) }
    ensures rebalanced { IfOk result (λ o. (height : ℕ) (b : Bounds) (rs : List Record) (used : List ℕ) → height ≡ 1
        → CanRebalance (S.told store.old) (S.free store.old) height left key.now right b rs used
        → DidRebalance (S.told store.old) (S.told store.new) (S.free store.old) (S.free store.new) height left right b rs used o) }
    ensures sound { IfErr result (λ e. (height : ℕ) (b : Bounds) (rs : List Record) (used : List ℕ) → height ≡ 1
        → CanRebalance (S.told store.old) (S.free store.old) height left key.now right b rs used → IsNotDamage e) }
    ensures names { IfErr result (NamesPage (S.size store.old)) }
    ensures bad { IfErr result (λ e. (height : ℕ) → height ≡ 1 → NamesSpare (S.told store.old) height spare e) }
    ensures left { EditsWithin S.PageStore 2 2 store.old store.new result }
    ensures joined { IfOk result (λ o. o ≡ Joined → S.changed store.new ≤ S.changed store.old + 1) }
{
    let mut first = read_leaf(store, left, named_of(left, spare))?;
    let mut rest = read_leaf(store, right, named_of(right, spare))?;
    if !leaves_ascend(&first, &rest) {
        return Err(Stop::Damaged { page: 0 });
    }
    if first.len() + rest.len() <= MOST_RECORDS {
        first.join(&rest);
        write_and_give(store, left, first.bytes(), right)?;
        return Ok(Rebalanced::Joined);
    }
    share_records(&mut first, &mut rest);
    let _ = rest.len();
    let separator = rest.rec(0).key;
    write_both(store, left, first.bytes(), right, rest.bytes())?;
    Ok(Rebalanced::Redistributed { key: separator })
}

/// Joins two neighbouring inner pages, or moves a child, so that none has under 127.
fn rebalance_inners<S: PageStore>(
    store: &mut S,
    height: u8,
    left: u32,
    key: &Key,
    right: u32,
) -> Result<Rebalanced, Stop>
    requires height { 2 ≤ height }
    requires left { (1 ≤ left) × (left < S.size store.old) }
    requires right { (1 ≤ right) × (right < S.size store.old) }
    ensures rebalanced { IfOk result (λ o. (b : Bounds) (rs : List Record) (used : List ℕ)
        → CanRebalance (S.told store.old) (S.free store.old) height left key.now right b rs used
        → DidRebalance (S.told store.old) (S.told store.new) (S.free store.old) (S.free store.new) height left right b rs used o) }
    ensures sound { IfErr result (λ e. (b : Bounds) (rs : List Record) (used : List ℕ)
        → CanRebalance (S.told store.old) (S.free store.old) height left key.now right b rs used → IsNotDamage e) }
    ensures names { IfErr result (NamesPage 1) }
    ensures left { EditsWithin S.PageStore 2 2 store.old store.new result }
    ensures joined { IfOk result (λ o. o ≡ Joined → S.changed store.new ≤ S.changed store.old + 1) }
{
    let mut first = read_inner(store, left, height)?;
    let mut rest = read_inner(store, right, height)?;
    if !inners_ascend(&first, key, &rest) {
        return Err(Stop::Damaged { page: 0 });
    }
    if first.len() + rest.len() <= MOST_CHILDREN {
        first.join(key, &rest);
        write_and_give(store, left, first.bytes(), right)?;
        return Ok(Rebalanced::Joined);
    }
    let separator = share_children(&mut first, key, &mut rest);
    write_both(store, left, first.bytes(), right, rest.bytes())?;
    Ok(Rebalanced::Redistributed { key: separator })
}

/// Joins two neighbouring pages of this height, or moves a record or a child, so that none has too few. A leaf that is
/// none is said to be damaged where it is `spare`, which was only read, and page 0 in place of any other page.
pub fn rebalance_pages<S: PageStore>(
    store: &mut S,
    height: u8,
    left: u32,
    key: &Key,
    right: u32,
    spare: u32,
) -> Result<Rebalanced, Stop>
    requires height { 1 ≤ height }
    requires left { (1 ≤ left) × (left < S.size store.old) }
    requires right { (1 ≤ right) × (right < S.size store.old) }
    ensures rebalanced { IfOk result (λ o. (b : Bounds) (rs : List Record) (used : List ℕ)
        → CanRebalance (S.told store.old) (S.free store.old) height left key.now right b rs used
        → DidRebalance (S.told store.old) (S.told store.new) (S.free store.old) (S.free store.new) height left right b rs used o) }
    ensures sound { IfErr result (λ e. (b : Bounds) (rs : List Record) (used : List ℕ)
        → CanRebalance (S.told store.old) (S.free store.old) height left key.now right b rs used → IsNotDamage e) }
    ensures names { IfErr result (NamesPage (S.size store.old)) }
    ensures bad { IfErr result (NamesSpare (S.told store.old) height spare) }
    ensures left { EditsWithin S.PageStore 2 2 store.old store.new result }
    ensures joined { IfOk result (λ o. o ≡ Joined → S.changed store.new ≤ S.changed store.old + 1) }
{
    if height == 1 {
        rebalance_leaves(store, left, key, right, spare)
    } else {
        rebalance_inners(store, height, left, key, right)
    }
}

ghost use Rattle.std.specs.Prelude.{◌≡◌, ℕ, zero, suc, ◌+◌, ◌<◌, ◌≤◌, false, true, List, [], ◌∷◌, length, Some, OnOk, OnErr, IfErr, slice_get, slice_index_or};
ghost use Rattle.std.specs.Prelude.{◌==◌};
ghost use Rattle.std.specs.List.{list_any};
ghost use Rattle.std.specs.Option.{option_or};
ghost use Rattle.quilt_node.specs.Nodes.{are_pages, page_records};
ghost use Rattle.quilt_node.specs.Tree.{Bounds, Walk, Whole, Damaged, bounded, each_child, walk};
ghost use Rattle.quilt_store.specs.Calls.{OnlyReads};
ghost use Rattle.quilt_world.specs.Tale.{Goes};
ghost use Rattle.quilt_btree.specs.Stops.{NamesPage};
ghost use Rattle.quilt_audit.specs.Bits.{Marks};
ghost use Rattle.quilt_audit.specs.Surveys.{OnDamaged};
ghost use Rattle.quilt_audit.specs.Checking.{TakesRecords};
ghost use Rattle.quilt_audit.specs.Walking.{Found, SpentSome};

use crate::checker::Checker;
use crate::node::{read_inner, read_leaf};
use crate::progress::Surveying;
use quilt_node::{InnerPage, rec_in, records_in};
use quilt_record::Key;
use quilt_store::PageStore;
use quilt_types::{Stop, is_listed, list_page};
use std::alloc::AllocError;

/// Hands the records of the leaf that the bytes are to the checker.
fn feed(checker: &mut Checker, bytes: &[u8; 4096]) -> Result<(), AllocError>
    ensures { OnOk result (TakesRecords checker.old (page_records bytes.now) checker.new) }
{
    for i in 0..records_in(bytes) {
        checker.push(&rec_in(bytes, i))?;
    }
    Ok(())
}

/// The bound below which the keys under child `i` stay.
fn bound_behind(inner: &InnerPage, i: usize, high: &Option<Key>) -> Option<Key>
    requires { i < length inner.now.children }
    ensures { result ≡ option_or (slice_get inner.now.keys i) high.now }
{
    if i < inner.len() - 1 {
        Some(inner.key(i))
    } else {
        *high
    }
}

/// Visits the page of a leaf that was not visited before, which the buffer then has.
fn survey_leaf<S: PageStore>(
    store: &mut S,
    state: &mut Surveying,
    page: u32,
    is_root: bool,
    low: &Option<Key>,
    high: &Option<Key>,
    bytes: &mut [u8; 4096],
) -> Result<(), Stop>
    requires page { (1 ≤ page) × (page < S.size store.old) }
    ensures found { OnOk result ((visited : List ℕ) → Marks state.old.used visited → list_any (λ v. v == page) visited ≡ false
        → Found (S.size store.old) (S.told store.old) (λ pages. walk pages 1 is_root (page, record { low = low.now; high = high.now }) visited)
        visited state.old state.new (S.reads store.old) (S.reads store.new)) }
    ensures damaged { IfErr result
        (OnDamaged (λ p. (pages : List (List ℕ)) (visited : List ℕ) → S.told store.old ≡ Some pages → list_any (λ v. v == page) visited ≡ false
        → walk pages 1 is_root (page, record { low = low.now; high = high.now }) visited ≡ Damaged p)) }
    ensures spent { OnErr result ((visited : List ℕ) → list_any (λ v. v == page) visited ≡ false
        → SpentSome (S.size store.old) visited (S.reads store.old) (S.reads store.new)) }
    ensures names { IfErr result (NamesPage (S.size store.old)) }
    ensures left { OnlyReads S.PageStore store.old store.new result }
{
    read_leaf(store, page, is_root, low, high, bytes)?;
    list_page(&mut state.used, page);
    match feed(&mut state.checker, bytes) {
        Err(_) => Err(Stop::Memory),
        Ok(()) => Ok(()),
    }
}

/// Visits a page of the tree at a height, and all below it: a page before its children, and these from left to right.
/// It reads each page once, leaves into the buffer, and stops at the first that is damaged.
#[cycle(walking)]
pub fn survey_page<S: PageStore>(
    store: &mut S,
    state: &mut Surveying,
    page: u32,
    height: u8,
    is_root: bool,
    low: &Option<Key>,
    high: &Option<Key>,
    bytes: &mut [u8; 4096],
) -> Result<(), Stop>
    requires page { (1 ≤ page) × (page < S.size store.old) }
    requires height { 1 ≤ height }
    ensures found { OnOk result ((visited : List ℕ) → Marks state.old.used visited
        → Found (S.size store.old) (S.told store.old) (λ pages. walk pages height is_root (page, record { low = low.now; high = high.now }) visited)
        visited state.old state.new (S.reads store.old) (S.reads store.new)) }
    ensures damaged { IfErr result
        (OnDamaged (λ p. (pages : List (List ℕ)) (visited : List ℕ) → S.told store.old ≡ Some pages → Marks state.old.used visited
        → walk pages height is_root (page, record { low = low.now; high = high.now }) visited ≡ Damaged p)) }
    ensures spent { OnErr result ((visited : List ℕ) → Marks state.old.used visited
        → SpentSome (S.size store.old) visited (S.reads store.old) (S.reads store.new)) }
    ensures names { IfErr result (NamesPage (S.size store.old)) }
    ensures left { OnlyReads S.PageStore store.old store.new result }
{
    if is_listed(&state.used, page) {
        return Err(Stop::Damaged { page });
    }
    if height == 1 {
        return survey_leaf(store, state, page, is_root, low, high, bytes);
    }
    match read_inner(store, page, height, is_root, low, high) {
        Err(e) => Err(e),
        Ok(inner) => {
            list_page(&mut state.used, page);
            survey_children(store, state, &inner, height - 1, low, high, bytes)
        }
    }
}

/// Visits the children of an inner page, at a height, from left to right.
#[cycle(walking)]
fn survey_children<S: PageStore>(
    store: &mut S,
    state: &mut Surveying,
    inner: &InnerPage,
    height: u8,
    low: &Option<Key>,
    high: &Option<Key>,
    bytes: &mut [u8; 4096],
) -> Result<(), Stop>
    requires pages { are_pages (S.size store.old) inner.now.children ≡ true }
    requires height { 1 ≤ height }
    ensures found { OnOk result ((visited : List ℕ) → Marks state.old.used visited
        → Found (S.size store.old) (S.told store.old)
        (λ pages. each_child (walk pages height false) (bounded inner.now.children inner.now.keys (record { low = low.now; high = high.now }))
        (Whole [] visited)) visited state.old state.new (S.reads store.old) (S.reads store.new)) }
    ensures damaged { IfErr result
        (OnDamaged (λ p. (pages : List (List ℕ)) (visited : List ℕ) → S.told store.old ≡ Some pages → Marks state.old.used visited
        → each_child (walk pages height false) (bounded inner.now.children inner.now.keys (record { low = low.now; high = high.now }))
        (Whole [] visited) ≡ Damaged p)) }
    ensures spent { OnErr result ((visited : List ℕ) → Marks state.old.used visited
        → SpentSome (S.size store.old) visited (S.reads store.old) (S.reads store.new)) }
    ensures names { IfErr result (NamesPage (S.size store.old)) }
    ensures left { OnlyReads S.PageStore store.old store.new result }
{
    let mut from = *low;
    for i in 0..inner.len() {
        let to = bound_behind(inner, i, high);
        let page = inner.child(i);
        if let Err(e) = survey_page(store, state, page, height, false, &from, &to, bytes) {
            return Err(e);
        }
        from = to;
    }
    Ok(())
}

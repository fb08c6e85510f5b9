ghost use Rattle.std.specs.Prelude.{◌≡◌, ℕ, ◌+◌, ◌<◌, ◌≤◌, ◌&&◌, ◌||◌, nat_le, true, false, List, [], ◌∷◌, length, Some, is_some, IfOk};
ghost use Rattle.std.specs.Prelude.{IfErr, IfSome, IfNone, OnOk, slice_index_or};
ghost use Rattle.quilt_node.specs.Nodes.{are_pages, keys_of, page_records};
ghost use Rattle.quilt_node.specs.Pages as spec;
ghost use Rattle.quilt_node.specs.Tree.{Bounds, Walk, Whole, Damaged, are_within, bounded, each_child, leaf_walk, inner_walk, is_above as is_above_of};
ghost use Rattle.quilt_node.specs.Tree.{is_below as is_below_of};
ghost use Rattle.quilt_store.specs.Calls.{OnlyReads};
ghost use Rattle.quilt_world.specs.Tale.{Goes};
ghost use Rattle.quilt_btree.specs.Stops.{NamesPage};
ghost use Rattle.quilt_audit.specs.Surveys.{OnDamaged};

use quilt_btree::stop_of;
use quilt_node::{InnerPage, inner_of, is_leaf, rec_in, records_in};
use quilt_record::Key;
use quilt_store::PageStore;
use quilt_types::Stop;

/// Whether the key is from the bound on, where there is one.
fn is_above(low: &Option<Key>, k: &Key) -> bool
    ensures { result ≡ is_above_of low.now k.now }
{
    match low {
        None => true,
        Some(low) => low <= k,
    }
}

/// Whether the key is below the bound, where there is one.
fn is_below(high: &Option<Key>, k: &Key) -> bool
    ensures { result ≡ is_below_of high.now k.now }
{
    match high {
        None => true,
        Some(high) => k < high,
    }
}

/// Whether the key is within the bounds.
fn is_within(k: &Key, low: &Option<Key>, high: &Option<Key>) -> bool
    ensures { result ≡ (is_above_of low.now k.now && is_below_of high.now k.now) }
{
    is_above(low, k) && is_below(high, k)
}

/// Whether each key of the leaf that the bytes are is within the bounds. As they ascend, the first and the last tell.
fn leaf_is_within(bytes: &[u8; 4096], low: &Option<Key>, high: &Option<Key>) -> bool
    requires { is_some (spec.leaf_of bytes.now) ≡ true }
    ensures { result ≡ are_within (record { low = low.now; high = high.now }) (keys_of (page_records bytes.now)) }
{
    let n = records_in(bytes);
    let first = rec_in(bytes, 0);
    let last = rec_in(bytes, n - 1);
    is_above(low, &first.key) && is_below(high, &last.key)
}

/// Whether each key of the inner page is within the bounds.
fn inner_is_within(inner: &InnerPage, low: &Option<Key>, high: &Option<Key>) -> bool
    ensures { result ≡ are_within (record { low = low.now; high = high.now }) inner.now.keys }
{
    for i in 0..inner.len() - 1 {
        let k = inner.key(i);
        if !is_within(&k, low, high) {
            return false;
        }
    }
    true
}

/// Reads the leaf at a page into the buffer, where it is well formed, has its minimum of records and keeps its bounds.
pub fn read_leaf<S: PageStore>(
    store: &mut S,
    page: u32,
    is_root: bool,
    low: &Option<Key>,
    high: &Option<Key>,
    bytes: &mut [u8; 4096],
) -> Result<(), Stop>
    requires { (1 ≤ page) × (page < S.size store.old) }
    ensures leaf { OnOk result ((pages : List (List ℕ)) (visited : List ℕ) → S.told store.old ≡ Some pages
        → leaf_walk is_root (record { low = low.now; high = high.now }) page visited (spec.leaf_of (slice_index_or pages page []))
        ≡ Whole (page_records bytes.new) (page ∷ visited)) }
    ensures damaged { IfErr result
        (OnDamaged (λ p. (pages : List (List ℕ)) (visited : List ℕ) → S.told store.old ≡ Some pages
        → leaf_walk is_root (record { low = low.now; high = high.now }) page visited (spec.leaf_of (slice_index_or pages page [])) ≡ Damaged p)) }
    ensures names { IfErr result (NamesPage (S.size store.old)) }
    ensures left { OnlyReads S.PageStore store.old store.new result }
    ensures reads { Goes (λ old new. new ≤ old + 1) (S.reads store.old) (S.reads store.new) }
{
    match store.read(page, bytes) {
        Err(e) => Err(stop_of(e)),
        Ok(()) => {
            if !is_leaf_of_tree(bytes, is_root, low, high) {
                return Err(Stop::Damaged { page });
            }
            Ok(())
        }
    }
}

/// Whether the leaf that the bytes are has its minimum of records, which the root need not have.
fn has_its_minimum(bytes: &[u8; 4096], is_root: bool) -> bool
    ensures { result ≡ (is_root || nat_le 72 (length (page_records bytes.now))) }
{
    is_root || 72 <= records_in(bytes)
}

/// Whether the bytes are a leaf that has its minimum of records and keeps its bounds.
fn is_leaf_of_tree(bytes: &[u8; 4096], is_root: bool, low: &Option<Key>, high: &Option<Key>) -> bool
    ensures yes { result ≡ true → (page : ℕ) (visited : List ℕ)
        → leaf_walk is_root (record { low = low.now; high = high.now }) page visited (spec.leaf_of bytes.now)
        ≡ Whole (page_records bytes.now) (page ∷ visited) }
    ensures no { result ≡ false → (page : ℕ) (visited : List ℕ)
        → leaf_walk is_root (record { low = low.now; high = high.now }) page visited (spec.leaf_of bytes.now) ≡ Damaged page }
{
    if !is_leaf(bytes) {
        return false;
    }
    has_its_minimum(bytes, is_root) && leaf_is_within(bytes, low, high)
}

/// The inner page at a page of the store, where it is well formed, stands at its height, has its minimum of children and
/// keeps its bounds.
pub fn read_inner<S: PageStore>(
    store: &mut S,
    page: u32,
    height: u8,
    is_root: bool,
    low: &Option<Key>,
    high: &Option<Key>,
) -> Result<InnerPage, Stop>
    requires { (1 ≤ page) × (page < S.size store.old) }
    ensures inner { IfOk result (λ inner. (pages : List (List ℕ)) (visited : List ℕ) (visit : ℕ × Bounds → List ℕ → Walk)
        → S.told store.old ≡ Some pages
        → inner_walk visit height is_root (record { low = low.now; high = high.now }) page visited
        (spec.inner_of (length pages) (slice_index_or pages page []))
        ≡ each_child visit (bounded inner.children inner.keys (record { low = low.now; high = high.now })) (Whole [] (page ∷ visited))) }
    ensures children { IfOk result (λ inner. are_pages (S.size store.old) inner.children ≡ true) }
    ensures damaged { IfErr result
        (OnDamaged (λ p. (pages : List (List ℕ)) (visited : List ℕ) (visit : ℕ × Bounds → List ℕ → Walk) → S.told store.old ≡ Some pages
        → inner_walk visit height is_root (record { low = low.now; high = high.now }) page visited
        (spec.inner_of (length pages) (slice_index_or pages page [])) ≡ Damaged p)) }
    ensures names { IfErr result (NamesPage (S.size store.old)) }
    ensures left { OnlyReads S.PageStore store.old store.new result }
    ensures reads { Goes (λ old new. new ≤ old + 1) (S.reads store.old) (S.reads store.new) }
{
    let mut bytes = [0; 4096];
    match store.read(page, &mut bytes) {
        Err(e) => Err(stop_of(e)),
        Ok(()) => match inner_in(&bytes, store.pages(), height, is_root, low, high) {
            None => Err(Stop::Damaged { page }),
            Some(inner) => Ok(inner),
        },
    }
}

/// The inner page that the bytes are in a file of `pages` home pages, where it stands at its height, has its minimum of
/// children and keeps its bounds.
fn inner_in(
    bytes: &[u8; 4096],
    pages: u32,
    height: u8,
    is_root: bool,
    low: &Option<Key>,
    high: &Option<Key>,
) -> Option<InnerPage>
    ensures some { IfSome result (λ inner. (page : ℕ) (visited : List ℕ) (visit : ℕ × Bounds → List ℕ → Walk)
        → inner_walk visit height is_root (record { low = low.now; high = high.now }) page visited (spec.inner_of pages bytes.now)
        ≡ each_child visit (bounded inner.children inner.keys (record { low = low.now; high = high.now })) (Whole [] (page ∷ visited))) }
    ensures children { IfSome result (λ inner. are_pages pages inner.children ≡ true) }
    ensures none { IfNone result ((page : ℕ) (visited : List ℕ) (visit : ℕ × Bounds → List ℕ → Walk)
        → inner_walk visit height is_root (record { low = low.now; high = high.now }) page visited (spec.inner_of pages bytes.now) ≡ Damaged page) }
{
    let inner = inner_of(bytes, pages)?;
    if inner.height() == height
        && (is_root || 127 <= inner.len())
        && inner_is_within(&inner, low, high)
    {
        return Some(inner);
    }
    None
}

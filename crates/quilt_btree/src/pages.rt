ghost use Rattle.std.specs.Prelude.{◌≡◌, ◌⊎◌, ℕ, ◌+◌, ◌<◌, ◌≤◌, true, IfOk, IfErr, OnOk, IfSome, IsTrue, List, [], Some, None, length, slice_index_or};
ghost use Rattle.std.specs.Prelude.{◌==◌, if◌then◌else◌};
ghost use Rattle.std.specs.List.{list_any};
ghost use Rattle.quilt_record.specs.declared.record.Record.{Record};
ghost use Rattle.quilt_node.specs.Pages as spec;
ghost use Rattle.quilt_node.specs.Nodes.{are_pages};
ghost use Rattle.quilt_store.specs.Calls.{OnlyReads};
ghost use Rattle.quilt_store.specs.Store.{Touches};
ghost use Rattle.quilt_world.specs.Tale.{Goes};
ghost use Rattle.quilt_btree.specs.Damage.{NamesBad};
ghost use Rattle.quilt_btree.specs.Looks.{LooksAt};
ghost use Rattle.quilt_btree.specs.Searches.{IsHigh};
ghost use Rattle.quilt_store.specs.Stops.{IsNotDamage};
ghost use Rattle.quilt_btree.specs.Stops.{store_stop, unnamed, NamesPage};
ghost use Rattle.quilt_btree.specs.Trees.{ReadsLeaf, ReadsInner, SpellsSubtree};

use quilt_node::{InnerPage, LeafPage, is_inner, is_leaf};
use quilt_store::{PageStore, StoreErr};
use quilt_types::Stop;

/// The store's reason as the tree's.
pub fn stop_of(e: StoreErr) -> Stop
    ensures is { result ≡ store_stop e }
    ensures names { (size : ℕ) → NamesPage size result }
{
    match e {
        StoreErr::Device => Stop::Device,
        StoreErr::Memory => Stop::Memory,
    }
}

/// The reason why a run stops behind so many of its items: once the call has written, it names page 0 in place of a page.
pub fn stop_behind(e: Stop, done: usize) -> Stop
    ensures { result ≡ (if done == 0 then e else unnamed e) }
{
    match e {
        Stop::Damaged { .. } if done != 0 => Stop::Damaged { page: 0 },
        _ => e,
    }
}

/// The leaf at a page. Where it is none, `named` is said to be damaged: the page itself, or 0 where the call has written
/// before.
#[inline(always)]
pub fn read_leaf<S: PageStore>(store: &mut S, page: u32, named: u32) -> Result<LeafPage, Stop>
    requires page { (1 ≤ page) × (page < S.size store.old) }
    requires named { named ≤ page }
    ensures leaf { IfOk result (λ leaf. ReadsLeaf (S.told store.old) page leaf) }
    ensures sound { IfErr result (λ e. (height : ℕ) (rs : List Record) → height ≡ 1 → SpellsSubtree (S.told store.old) page height rs → IsNotDamage e) }
    ensures names { IfErr result (NamesPage (named + 1)) }
    ensures bad { IfErr result (λ e. named ≡ page → NamesBad (S.told store.old) 1 page e) }
    ensures left { OnlyReads S.PageStore store.old store.new result }
    ensures held { OnOk result (Goes (Touches page) (S.held store.old) (S.held store.new)) }
    ensures reads { Goes (λ old new. new ≤ old + 1) (S.reads store.old) (S.reads store.new) }
    ensures held_is_free { IfSome (S.held store.old) (λ pages. IsTrue (list_any (λ p. p == page) pages)
        → Goes (λ old new. new ≤ old) (S.reads store.old) (S.reads store.new)) }
{
    match store.page(page) {
        Err(e) => Err(stop_of(e)),
        Ok(bytes) => {
            if !is_leaf(bytes) {
                return Err(Stop::Damaged { page: named });
            }
            Ok(LeafPage::from_bytes(*bytes))
        }
    }
}

/// The inner page of this height that the bytes are in a store of so many pages: none where they are not well formed, or
/// are of another height.
pub fn inner_high(bytes: &[u8; 4096], pages: u32, height: u8) -> Option<InnerPage>
    ensures inner { IfSome result (λ inner. spec.inner_of pages bytes.now ≡ Some inner) }
    ensures height { IfSome result (λ inner. inner.height ≡ height) }
    ensures children { IfSome result (λ inner. are_pages pages inner.children ≡ true) }
    ensures none { result ≡ None → IsHigh pages bytes.now height → ⊥ }
{
    if !is_inner(bytes, pages) {
        return None;
    }
    if bytes[1] != height {
        return None;
    }
    Some(InnerPage::from_bytes(*bytes, pages))
}

/// The page that is at fault where its bytes are no inner page of its height in a store of so many pages: the page itself
/// where they are no inner page, and else 0, since then the page above may be wrong as well.
pub fn inner_at_fault(bytes: &[u8; 4096], pages: u32, page: u32) -> u32
    ensures at_most { result ≤ page }
    ensures fault { (result ≡ 0) ⊎ ((result ≡ page) × (spec.inner_of pages bytes.now ≡ None)) }
{
    if is_inner(bytes, pages) { 0 } else { page }
}

/// The inner page of this height at a page beside one that was written. Where it is none, page 0 is said to be damaged.
pub fn read_inner<S: PageStore>(store: &mut S, page: u32, height: u8) -> Result<InnerPage, Stop>
    requires page { (1 ≤ page) × (page < S.size store.old) }
    requires height { 2 ≤ height }
    ensures inner { IfOk result (λ inner. ReadsInner (S.told store.old) page inner) }
    ensures height { IfOk result (λ inner. inner.height ≡ height) }
    ensures children { IfOk result (λ inner. are_pages (S.size store.old) inner.children ≡ true) }
    ensures sound { IfErr result (λ e. (rs : List Record) → SpellsSubtree (S.told store.old) page height rs → IsNotDamage e) }
    ensures names { IfErr result (NamesPage 1) }
    ensures looks { LooksAt S.PageStore page store.old store.new result }
{
    let mut bytes = [0; 4096];
    match store.read(page, &mut bytes) {
        Err(e) => Err(stop_of(e)),
        Ok(()) => {
            if let Some(inner) = inner_high(&bytes, store.pages(), height) {
                Ok(inner)
            } else {
                Err(Stop::Damaged { page: 0 })
            }
        }
    }
}

ghost use Rattle.std.specs.Borrow.{sem};
ghost use Rattle.std.specs.Io.BufRead.{Rests};
ghost use Rattle.std.specs.Prelude.{◌≡◌, ℕ, ◌+◌, ◌-◌, ◌*◌, ◌<◌, ◌≤◌, true, IfOk, IfErr, IfSome, MatchOption, List, Some, None};
ghost use Rattle.quilt_types.specs.declared.stop.Stop.TheVariants.{Damaged};
ghost use Rattle.quilt_record.specs.declared.record.Record.{Record};
ghost use Rattle.quilt_node.specs.Pages.{Inner, inner_of, leaf_of};
ghost use Rattle.quilt_node.specs.Tree.{is_below};
ghost use Rattle.quilt_store.specs.Calls.{OnlyReads};
ghost use Rattle.quilt_world.specs.Tale.{Goes};
ghost use Rattle.quilt_btree.specs.Arrivals.{Arrives, IsInRange};
ghost use Rattle.quilt_btree.specs.Damage.{HasChild, NamesBad};
ghost use Rattle.quilt_btree.specs.Searches.{AreOf, IsStepDown};
ghost use Rattle.quilt_store.specs.Stops.{IsNotDamage};
ghost use Rattle.quilt_btree.specs.Stops.{NamesPage};
ghost use Rattle.quilt_btree.specs.Trees.{IsRooted, IsTree, SpellsSubtree};

use crate::balance::precedes;
use crate::lent::step_at;
use crate::pages::stop_of;
use crate::search::path_in;
use crate::tree::Tree;
use quilt_node::{child_count_in, separator_in};
use quilt_record::Key;
use quilt_store::PageStore;
use quilt_types::Stop;

/// The leaf to which a key leads: its page, and the bound below which its keys stay.
#[derive(Clone, Copy, Debug, PartialEq, Eq)]
pub struct Found {
    pub page: u32,
    pub high: Option<Key>,
}

/// The child under which a key belongs, and the bound below which its keys stay.
#[derive(Clone, Copy, Debug, PartialEq, Eq)]
pub struct Step {
    pub child: u32,
    pub high: Option<Key>,
}

/// The child of an inner page under which a key belongs, whose own keys stay below `high`: none where its number in the
/// bytes is no page of a store of so many, or where the key behind it is not above this one.
pub fn step_in(bytes: &[u8; 4096], pages: u32, k: &Key, high: &Option<Key>) -> Option<Step>
    ensures range { IfSome result (λ s. (1 ≤ s.child) × (s.child < pages)) }
    ensures stands { IfSome result (λ s. HasChild pages bytes.now s.child) }
    ensures above { IfSome result (λ s. is_below high.now k.now ≡ true → is_below s.high k.now ≡ true) }
    ensures step { (inner : Inner) → inner_of pages bytes.now ≡ Some inner → MatchOption result ⊥ (λ s. IsStepDown k.now inner high.now s.child s.high) }
{
    let path = match path_in(bytes, pages, k) {
        None => return None,
        Some(path) => path,
    };
    let child = path.child;
    if child_count_in(bytes) <= path.place + 1 {
        return Some(Step { child, high: *high });
    }
    let next = separator_in(bytes, path.place);
    if !precedes(k, &next) {
        return None;
    }
    Some(Step {
        child,
        high: Some(next),
    })
}

/// The leaf to which a key leads in the subtree at a page, whose keys stay below `high`. The pages above it are looked at
/// where they lie; the leaf itself is not.
pub fn leaf_at<S: PageStore>(
    store: &mut S,
    page: u32,
    height: u8,
    k: &Key,
    high: &Option<Key>,
) -> Result<Found, Stop>
    requires page { (1 ≤ page) × (page < S.size store.old) }
    requires height { 1 ≤ height }
    ensures arrives { IfOk result (λ found. (bytes : List ℕ) → AreOf (S.told store.old) found.page bytes
        → Arrives (S.told store.old) page height k.now high.now bytes found.high) }
    ensures range { IsInRange (S.size store.old) k.now high.now result }
    ensures spoilt { IfOk result (λ found. (bytes : List ℕ) → AreOf (S.told store.old) found.page bytes
        → leaf_of bytes ≡ None → NamesBad (S.told store.old) height page (Damaged found.page)) }
    ensures sound { IfErr result (λ e. (rs : List Record) → SpellsSubtree (S.told store.old) page height rs → IsNotDamage e) }
    ensures names { IfErr result (NamesPage (S.size store.old)) }
    ensures bad { IfErr result (NamesBad (S.told store.old) height page) }
    ensures left { OnlyReads S.PageStore store.old store.new result }
    ensures reads { Goes (λ old new. new + 1 ≤ old + height) (S.reads store.old) (S.reads store.new) }
{
    if height == 1 {
        return Ok(Found { page, high: *high });
    }
    let step = step_at(store, page, k, high)?;
    leaf_at(store, step.child, height - 1, k, &step.high)
}

/// The leaf to which a key leads in a tree, where it lies, and the bound below which its keys stay. It reads at most 3 pages.
pub fn leaf_for<'a, S: PageStore>(
    store: &'a mut S,
    tree: &Tree,
    k: &Key,
) -> Result<(&'a [u8; 4096], Option<Key>), Stop>
    requires rooted { IsRooted (S.size store.old) tree.now }
    requires some { 1 ≤ tree.now.height }
    ensures arrives { IfOk result (λ leaf. Arrives (S.told store.old) tree.now.root tree.now.height k.now None leaf.0.now leaf.1) }
    ensures sound { IfErr result (λ e. (rs : List Record) → IsTree (S.told store.old) tree.now rs → IsNotDamage e) }
    ensures names { IfErr result (NamesPage (S.size store.old)) }
    ensures bad { IfErr result (NamesBad (S.told store.old) tree.now.height tree.now.root) }
    ensures* left { sem 𝓛 (Rests S.row store.entry (λ new. OnlyReads S.PageStore store.old new result
        × Goes (λ old new. new ≤ old + 3) (S.reads store.old) (S.reads new))) }
{
    match leaf_at(store, tree.root, tree.height, k, &None) {
        Err(e) => Err(e),
        Ok(found) => match store.page(found.page) {
            Err(e) => Err(stop_of(e)),
            Ok(bytes) => Ok((bytes, found.high)),
        },
    }
}

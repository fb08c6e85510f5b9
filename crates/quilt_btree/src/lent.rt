ghost use Rattle.std.specs.Prelude.{◌≡◌, ◌≢◌, ℕ, ◌<◌, ◌≤◌, true, IfOk, IfErr, IfSome, List};
ghost use Rattle.quilt_record.specs.declared.record.Record.{Record};
ghost use Rattle.quilt_node.specs.Tree.{is_below};
ghost use Rattle.quilt_store.specs.Stops.{IsNotDamage};
ghost use Rattle.quilt_btree.specs.Damage.{NamesBad};
ghost use Rattle.quilt_btree.specs.Looks.{LooksAt, ShowsFork, ShowsStep, ShowsLast, ShowsFloor, ShowsEnd};
ghost use Rattle.quilt_btree.specs.Stops.{NamesPage};
ghost use Rattle.quilt_btree.specs.Trees.{SpellsSubtree};

use crate::pages::stop_of;
use crate::search::{Fork, floor_in, fork_in, last_child_in, last_in};
use crate::step::{Step, step_in};
use quilt_record::{Key, Record};
use quilt_store::PageStore;
use quilt_types::Stop;

/// The child under which a key belongs, and the one before it, of the inner page at a page. The page is looked at where
/// it lies, and nothing else of it is looked into: it is said to be damaged where one of these is no page of the store.
pub fn fork_at<S: PageStore>(store: &mut S, page: u32, k: &Key) -> Result<Fork, Stop>
    requires { (1 ≤ page) × (page < S.size store.old) }
    ensures range { IfOk result (λ f. (1 ≤ f.child) × (f.child < S.size store.old) × IfSome f.prior (λ p. (1 ≤ p) × (p < S.size store.old))) }
    ensures shows { IfOk result (λ f. ShowsFork (S.told store.old) page (S.size store.old) k.now f.child f.prior) }
    ensures sound { IfErr result (λ e. (height : ℕ) (rs : List Record) → 1 ≤ height → height ≢ 1 → SpellsSubtree (S.told store.old) page height rs → IsNotDamage e) }
    ensures names { IfErr result (NamesPage (S.size store.old)) }
    ensures bad { IfErr result (λ e. (height : ℕ) → 1 ≤ height → height ≢ 1 → NamesBad (S.told store.old) height page e) }
    ensures looks { LooksAt S.PageStore page store.old store.new result }
{
    let pages = store.pages();
    match store.page(page) {
        Err(e) => Err(stop_of(e)),
        Ok(bytes) => match fork_in(bytes, pages, k) {
            None => Err(Stop::Damaged { page }),
            Some(fork) => Ok(fork),
        },
    }
}

/// The child under which a key belongs, whose own keys stay below `high`, of the inner page at a page, looked at where it
/// lies: the page is said to be damaged where this is no page of the store, or the key behind it not above this one.
pub fn step_at<S: PageStore>(
    store: &mut S,
    page: u32,
    k: &Key,
    high: &Option<Key>,
) -> Result<Step, Stop>
    requires { (1 ≤ page) × (page < S.size store.old) }
    ensures range { IfOk result (λ s. (1 ≤ s.child) × (s.child < S.size store.old)) }
    ensures above { IfOk result (λ s. is_below high.now k.now ≡ true → is_below s.high k.now ≡ true) }
    ensures shows { IfOk result (λ s. ShowsStep (S.told store.old) page (S.size store.old) k.now high.now s.child s.high) }
    ensures sound { IfErr result (λ e. (height : ℕ) (rs : List Record) → 1 ≤ height → height ≢ 1 → SpellsSubtree (S.told store.old) page height rs → IsNotDamage e) }
    ensures names { IfErr result (NamesPage (S.size store.old)) }
    ensures bad { IfErr result (λ e. (height : ℕ) → 1 ≤ height → height ≢ 1 → NamesBad (S.told store.old) height page e) }
    ensures looks { LooksAt S.PageStore page store.old store.new result }
{
    let pages = store.pages();
    match store.page(page) {
        Err(e) => Err(stop_of(e)),
        Ok(bytes) => match step_in(bytes, pages, k, high) {
            None => Err(Stop::Damaged { page }),
            Some(step) => Ok(step),
        },
    }
}

/// The last child of the inner page at a page, looked at where it lies: the page is said to be damaged where that is no
/// page of the store.
pub fn last_child_at<S: PageStore>(store: &mut S, page: u32) -> Result<u32, Stop>
    requires { (1 ≤ page) × (page < S.size store.old) }
    ensures range { IfOk result (λ c. (1 ≤ c) × (c < S.size store.old)) }
    ensures shows { IfOk result (ShowsLast (S.told store.old) page (S.size store.old)) }
    ensures sound { IfErr result (λ e. (height : ℕ) (rs : List Record) → 1 ≤ height → height ≢ 1 → SpellsSubtree (S.told store.old) page height rs → IsNotDamage e) }
    ensures names { IfErr result (NamesPage (S.size store.old)) }
    ensures bad { IfErr result (λ e. (height : ℕ) → 1 ≤ height → height ≢ 1 → NamesBad (S.told store.old) height page e) }
    ensures looks { LooksAt S.PageStore page store.old store.new result }
{
    let pages = store.pages();
    match store.page(page) {
        Err(e) => Err(stop_of(e)),
        Ok(bytes) => match last_child_in(bytes, pages) {
            None => Err(Stop::Damaged { page }),
            Some(child) => Ok(child),
        },
    }
}

/// The last record of the leaf at a page, looked at where it lies: the page is said to be damaged where it has none.
pub fn last_at<S: PageStore>(store: &mut S, page: u32) -> Result<Record, Stop>
    requires { (1 ≤ page) × (page < S.size store.old) }
    ensures shows { IfOk result (ShowsEnd (S.told store.old) page) }
    ensures sound { IfErr result (λ e. (height : ℕ) (rs : List Record) → height ≡ 1 → SpellsSubtree (S.told store.old) page height rs → IsNotDamage e) }
    ensures names { IfErr result (NamesPage (S.size store.old)) }
    ensures bad { IfErr result (λ e. (height : ℕ) → height ≡ 1 → NamesBad (S.told store.old) height page e) }
    ensures looks { LooksAt S.PageStore page store.old store.new result }
{
    match store.page(page) {
        Err(e) => Err(stop_of(e)),
        Ok(bytes) => match last_in(bytes) {
            None => Err(Stop::Damaged { page }),
            Some(r) => Ok(r),
        },
    }
}

/// The record with the greatest key that is at most `k` of the leaf at a page, looked at where it lies.
pub fn floor_at<S: PageStore>(store: &mut S, page: u32, k: &Key) -> Result<Option<Record>, Stop>
    requires { (1 ≤ page) × (page < S.size store.old) }
    ensures shows { IfOk result (ShowsFloor (S.told store.old) page k.now) }
    ensures sound { IfErr result (λ e. IsNotDamage e) }
    ensures looks { LooksAt S.PageStore page store.old store.new result }
{
    match store.page(page) {
        Err(e) => Err(stop_of(e)),
        Ok(bytes) => Ok(floor_in(bytes, k)),
    }
}

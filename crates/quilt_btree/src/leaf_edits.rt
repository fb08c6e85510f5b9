ghost use Rattle.std.specs.Prelude.{◌≡◌, ◌≢◌, ℕ, ◌<◌, ◌≤◌, true, IfOk, IfErr, List, take, length};
ghost use Rattle.std.specs.List.{list_all};
ghost use Rattle.quilt_record.specs.declared.record.Record.{Record};
ghost use Rattle.quilt_types.specs.declared.stop.Stop.TheVariants.{Damaged};
ghost use Rattle.quilt_node.specs.Pages.{is_ascending};
ghost use Rattle.quilt_node.specs.Tree.{Bounds, is_above};
ghost use Rattle.quilt_btree.specs.Batches.{edit_keys, Fails, DidEdit, TakesFirst};
ghost use Rattle.quilt_btree.specs.Edits.{CanEdit};
ghost use Rattle.quilt_btree.specs.Damage.{NamesBad};
ghost use Rattle.quilt_btree.specs.Costs.{EditsWithinOnOk};
ghost use Rattle.quilt_btree.specs.Stops.{NamesPage};

use crate::edit::{Edit, edit_some, least_records};
use crate::lent::step_at;
use crate::pages::stop_of;
use quilt_node::is_leaf;
use quilt_record::Key;
use quilt_store::PageStore;
use quilt_types::Stop;

/// Makes the first edits of a run, whose keys ascend, in the leaf at a page: the most that are below `high` and leave it
/// a leaf of the tree. The leaf is looked at once, and changed where it lies; where the answer, their number, is 0, it stays as
/// it is. Where one is not due, or the page is free, page 0 is said to be damaged.
fn edit_leaf<S: PageStore>(
    store: &mut S,
    page: u32,
    is_root: bool,
    high: &Option<Key>,
    run: &[Edit],
) -> Result<usize, Stop>
    requires page { (1 ≤ page) × (page < S.size store.old) }
    ensures number { IfOk result (λ n. n ≤ length run.now) }
    ensures edited { IfOk result (λ n. 1 ≤ n → (b : Bounds) (rs : List Record) (used : List ℕ) → b.high ≡ high.now
        → list_all (is_above b.low) (edit_keys run.now) ≡ true → CanEdit (S.told store.old) (S.free store.old) page 1 is_root b rs used
        → DidEdit (take n run.now) (S.told store.old) (S.told store.new) (S.free store.old) (S.free store.new) page 1 is_root b rs used) }
    ensures stays { IfOk result (λ n. n ≡ 0 → (S.told store.new ≡ S.told store.old) × (S.free store.new ≡ S.free store.old)) }
    ensures fails { IfErr result (λ e. (b : Bounds) (rs : List Record) (used : List ℕ) → b.high ≡ high.now
        → CanEdit (S.told store.old) (S.free store.old) page 1 is_root b rs used → (q : ℕ) → e ≡ Damaged q → (q ≡ 0) × Fails run.now b.high rs) }
    ensures names { IfErr result (NamesPage (S.size store.old)) }
    ensures bad { IfErr result (λ e. e ≢ Damaged 0 → NamesBad (S.told store.old) 1 page e) }
    ensures left { EditsWithinOnOk S.PageStore 1 1 store.old store.new result }
{
    if store.is_free(page) {
        return Err(Stop::Damaged { page: 0 });
    }
    match store.edit(page) {
        Err(e) => Err(stop_of(e)),
        Ok(bytes) => {
            if !is_leaf(bytes) {
                return Err(Stop::Damaged { page });
            }
            match edit_some(bytes, least_records(is_root), high, run) {
                None => Err(Stop::Damaged { page: 0 }),
                Some(n) => Ok(n),
            }
        }
    }
}

/// Makes the first edits of a run, whose keys ascend, in the one leaf under a page to which the first key leads. The
/// answer is their number, or 0 where that leaf has to be split or rebalanced for the first. Where one is not due page 0
/// is said to be damaged.
pub fn edit_under<S: PageStore>(
    store: &mut S,
    page: u32,
    height: u8,
    is_root: bool,
    high: &Option<Key>,
    run: &[Edit],
) -> Result<usize, Stop>
    requires page { (1 ≤ page) × (page < S.size store.old) }
    requires height { 1 ≤ height }
    requires some { 1 ≤ length run.now }
    requires order { is_ascending (edit_keys run.now) ≡ true }
    ensures takes { TakesFirst S.PageStore run.now store.old store.new result }
    ensures edited { IfOk result (λ n. 1 ≤ n → (b : Bounds) (rs : List Record) (used : List ℕ) → b.high ≡ high.now
        → list_all (is_above b.low) (edit_keys run.now) ≡ true → CanEdit (S.told store.old) (S.free store.old) page height is_root b rs used
        → DidEdit (take n run.now) (S.told store.old) (S.told store.new) (S.free store.old) (S.free store.new) page height is_root b rs used) }
    ensures fails { IfErr result (λ e. (b : Bounds) (rs : List Record) (used : List ℕ) → b.high ≡ high.now
        → CanEdit (S.told store.old) (S.free store.old) page height is_root b rs used → (q : ℕ) → e ≡ Damaged q → (q ≡ 0) × Fails run.now b.high rs) }
    ensures names { IfErr result (NamesPage (S.size store.old)) }
    ensures bad { IfErr result (λ e. e ≢ Damaged 0 → NamesBad (S.told store.old) height page e) }
    ensures left { EditsWithinOnOk S.PageStore 1 height store.old store.new result }
{
    if height == 1 {
        return edit_leaf(store, page, is_root, high, run);
    }
    let step = step_at(store, page, run[0].key(), high)?;
    edit_under(store, step.child, height - 1, false, &step.high, run)
}

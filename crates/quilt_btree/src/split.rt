ghost use Rattle.std.specs.Prelude.{◌≡◌, ℕ, ◌+◌, ◌<◌, ◌≤◌, true, false, IfOk, IfErr, OnOk, slice_set};
ghost use Rattle.quilt_store.specs.Store.{FreesOnly, count_free};
ghost use Rattle.quilt_world.specs.Tale.{Goes};
ghost use Rattle.quilt_store.specs.Stops.{HasStopCause, IsNotDamage};
ghost use Rattle.quilt_btree.specs.Costs.{EditsWithin};
ghost use Rattle.quilt_btree.specs.Stops.{NamesPage};

use crate::writes::write_page;
use quilt_store::PageStore;
use quilt_types::Stop;

/// Writes a page of the tree, and the page that was split off it to a free page, which is the answer.
pub fn write_split<S: PageStore>(
    store: &mut S,
    page: u32,
    left: &[u8; 4096],
    right: &[u8; 4096],
) -> Result<u32, Stop>
    requires { (1 ≤ page) × (page < S.size store.old) }
    ensures told { IfOk result (λ new. Goes (λ old now. now ≡ slice_set (slice_set old page left.now) new right.now) (S.told store.old) (S.told store.new)) }
    ensures page { IfOk result (λ new. (1 ≤ new) × (new < S.size store.old)) }
    ensures free { IfOk result (λ new. S.free store.old new ≡ true) }
    ensures taken { IfOk result (λ new. FreesOnly new false (S.free store.old) (S.free store.new)) }
    ensures room { OnOk result (count_free (S.free store.old) (S.size store.old) ≤ count_free (S.free store.new) (S.size store.old) + 1) }
    ensures sound { IfErr result (λ e. S.free store.old page ≡ false → 0 < count_free (S.free store.old) (S.size store.old) → IsNotDamage e) }
    ensures names { IfErr result (NamesPage 1) }
    ensures left { EditsWithin S.PageStore 2 0 store.old store.new result }
{
    if store.is_free(page) || store.free_pages() == 0 {
        return Err(Stop::Damaged { page: 0 });
    }
    let new = store.take_page();
    write_page(store, page, left)?;
    write_page(store, new, right)?;
    Ok(new)
}

/// Writes a new page of the tree to a free page, which is the answer.
pub fn write_new<S: PageStore>(store: &mut S, bytes: &[u8; 4096]) -> Result<u32, Stop>
    ensures told { IfOk result (λ new. Goes (λ old now. now ≡ slice_set old new bytes.now) (S.told store.old) (S.told store.new)) }
    ensures page { IfOk result (λ new. (1 ≤ new) × (new < S.size store.old)) }
    ensures free { IfOk result (λ new. S.free store.old new ≡ true) }
    ensures taken { IfOk result (λ new. FreesOnly new false (S.free store.old) (S.free store.new)) }
    ensures sound { IfErr result (λ e. 0 < count_free (S.free store.old) (S.size store.old) → IsNotDamage e) }
    ensures names { IfErr result (NamesPage 1) }
    ensures left { EditsWithin S.PageStore 1 0 store.old store.new result }
{
    if store.free_pages() == 0 {
        return Err(Stop::Damaged { page: 0 });
    }
    let new = store.take_page();
    write_page(store, new, bytes)?;
    Ok(new)
}

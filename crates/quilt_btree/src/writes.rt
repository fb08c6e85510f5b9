ghost use Rattle.std.specs.Prelude.{◌≡◌, ℕ, ◌+◌, ◌<◌, ◌≤◌, true, false, OnOk, IfErr, slice_set};
ghost use Rattle.quilt_store.specs.Store.{FreesOnly};
ghost use Rattle.quilt_world.specs.Tale.{Goes};
ghost use Rattle.quilt_store.specs.Stops.{HasStopCause, IsNotDamage};
ghost use Rattle.quilt_btree.specs.Costs.{EditsWithin};
ghost use Rattle.quilt_btree.specs.Stops.{NamesPage};
ghost use Rattle.quilt_btree.specs.Rebalancing.{HasGiven};

use crate::pages::stop_of;
use quilt_store::PageStore;
use quilt_types::Stop;

/// Writes a page of the tree. Where the page is free, page 0 is said to be damaged.
pub fn write_page<S: PageStore>(store: &mut S, page: u32, bytes: &[u8; 4096]) -> Result<(), Stop>
    requires { (1 ≤ page) × (page < S.size store.old) }
    ensures told { OnOk result (Goes (λ old new. new ≡ slice_set old page bytes.now) (S.told store.old) (S.told store.new)) }
    ensures taken { OnOk result (S.free store.old page ≡ false) }
    ensures sound { IfErr result (λ e. S.free store.old page ≡ false → IsNotDamage e) }
    ensures free { S.free store.new ≡ S.free store.old }
    ensures names { IfErr result (NamesPage 1) }
    ensures left { EditsWithin S.PageStore 1 0 store.old store.new result }
{
    if store.is_free(page) {
        return Err(Stop::Damaged { page: 0 });
    }
    match store.write(page, bytes) {
        Err(e) => Err(stop_of(e)),
        Ok(()) => Ok(()),
    }
}

/// Writes the page on the left, and gives the one on the right back.
pub fn write_and_give<S: PageStore>(
    store: &mut S,
    left: u32,
    bytes: &[u8; 4096],
    right: u32,
) -> Result<(), Stop>
    requires left { (1 ≤ left) × (left < S.size store.old) }
    requires right { (1 ≤ right) × (right < S.size store.old) }
    ensures told { OnOk result (Goes (λ old new. HasGiven right (slice_set old left bytes.now) new) (S.told store.old) (S.told store.new)) }
    ensures free { OnOk result (FreesOnly right true (S.free store.old) (S.free store.new)) }
    ensures taken { OnOk result (S.free store.old right ≡ false) }
    ensures sound { IfErr result (λ e. S.free store.old left ≡ false → S.free store.old right ≡ false → IsNotDamage e) }
    ensures names { IfErr result (NamesPage 1) }
    ensures left { EditsWithin S.PageStore 1 0 store.old store.new result }
{
    if store.is_free(right) {
        return Err(Stop::Damaged { page: 0 });
    }
    write_page(store, left, bytes)?;
    store.give_page(right);
    Ok(())
}

/// Writes two pages.
pub fn write_both<S: PageStore>(
    store: &mut S,
    left: u32,
    bytes: &[u8; 4096],
    right: u32,
    others: &[u8; 4096],
) -> Result<(), Stop>
    requires left { (1 ≤ left) × (left < S.size store.old) }
    requires right { (1 ≤ right) × (right < S.size store.old) }
    ensures told { OnOk result (Goes (λ old new. new ≡ slice_set (slice_set old left bytes.now) right others.now) (S.told store.old) (S.told store.new)) }
    ensures sound { IfErr result (λ e. S.free store.old left ≡ false → S.free store.old right ≡ false → IsNotDamage e) }
    ensures free { S.free store.new ≡ S.free store.old }
    ensures names { IfErr result (NamesPage 1) }
    ensures left { EditsWithin S.PageStore 2 0 store.old store.new result }
{
    write_page(store, left, bytes)?;
    write_page(store, right, others)
}

/// Gives a page of the tree back. Where the page is free, page 0 is said to be damaged.
pub fn give_back<S: PageStore>(store: &mut S, page: u32) -> Result<(), Stop>
    requires { (1 ≤ page) × (page < S.size store.old) }
    ensures told { OnOk result (Goes (HasGiven page) (S.told store.old) (S.told store.new)) }
    ensures free { OnOk result (FreesOnly page true (S.free store.old) (S.free store.new)) }
    ensures taken { OnOk result (S.free store.old page ≡ false) }
    ensures sound { IfErr result (λ e. S.free store.old page ≡ false → IsNotDamage e) }
    ensures names { IfErr result (NamesPage 1) }
    ensures left { EditsWithin S.PageStore 0 0 store.old store.new result }
{
    if store.is_free(page) {
        return Err(Stop::Damaged { page: 0 });
    }
    store.give_page(page);
    Ok(())
}

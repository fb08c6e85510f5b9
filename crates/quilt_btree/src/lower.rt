ghost use Rattle.std.specs.Prelude.{◌≡◌, ℕ, ◌+◌, ◌*◌, ◌<◌, ◌≤◌, true, IfOk, IfErr, List, Some, None, drop, length, take};
ghost use Rattle.std.specs.List.{list_all};
ghost use Rattle.std.specs.Ordering.{is_le, is_lt};
ghost use Rattle.quilt_record.specs.declared.record.Record.{Record};
ghost use Rattle.quilt_record.specs.Records.{key_cmp};
ghost use Rattle.quilt_node.specs.Pages.{leaf_of};
ghost use Rattle.quilt_node.specs.Nodes.{page_records};
ghost use Rattle.quilt_store.specs.Calls.{OnlyReads};
ghost use Rattle.quilt_world.specs.Tale.{Goes};
ghost use Rattle.quilt_store.specs.Stops.{IsNotDamage};
ghost use Rattle.quilt_btree.specs.Damage.{NamesBad};
ghost use Rattle.quilt_btree.specs.Lists.{IsLower};
ghost use Rattle.quilt_btree.specs.Looks.{LooksAt, ShowsLower};
ghost use Rattle.quilt_btree.specs.Stops.{NamesPage};
ghost use Rattle.quilt_btree.specs.Trees.{SpellsSubtree};

use crate::lent::fork_at;
use crate::pages::stop_of;
use crate::search::last_under;
use quilt_node::{find_in, rec_in, records_in};
use quilt_record::{Key, Record};
use quilt_store::PageStore;
use quilt_types::Stop;

/// The number of records of a leaf whose keys are below `k`; some place of it for any bytes.
pub fn place_from(bytes: &[u8; 4096], k: &Key) -> usize
    ensures range { result ≤ length (page_records bytes.now) }
    ensures most { result ≤ 144 }
    ensures lower { leaf_of bytes.now ≡ Some (page_records bytes.now) → list_all (λ r. is_lt (key_cmp r.key k.now)) (take result (page_records bytes.now)) ≡ true }
    ensures higher { leaf_of bytes.now ≡ Some (page_records bytes.now) → list_all (λ r. is_le (key_cmp k.now r.key)) (drop result (page_records bytes.now)) ≡ true }
{
    let n = records_in(bytes);
    match find_in(bytes, k) {
        Ok(i) => if i < n { i } else { n },
        Err(i) => if i < n { i } else { n },
    }
}

/// The record of a leaf with the greatest key below `k`.
fn lower_in(bytes: &[u8; 4096], k: &Key) -> Option<Record>
    ensures { (rs : List Record) → leaf_of bytes.now ≡ Some rs → IsLower k.now rs result }
{
    let n = place_from(bytes, k);
    if n == 0 {
        return None;
    }
    Some(rec_in(bytes, n - 1))
}

/// The record with the greatest key below `k` of the leaf at a page, looked at where it lies.
fn lower_at<S: PageStore>(store: &mut S, page: u32, k: &Key) -> Result<Option<Record>, Stop>
    requires { (1 ≤ page) × (page < S.size store.old) }
    ensures shows { IfOk result (ShowsLower (S.told store.old) page k.now) }
    ensures sound { IfErr result (λ e. IsNotDamage e) }
    ensures looks { LooksAt S.PageStore page store.old store.new result }
{
    match store.page(page) {
        Err(e) => Err(stop_of(e)),
        Ok(bytes) => Ok(lower_in(bytes, k)),
    }
}

/// The record of the subtree at a page with the greatest key below `k`.
pub fn lower_under<S: PageStore>(
    store: &mut S,
    page: u32,
    height: u8,
    k: &Key,
) -> Result<Option<Record>, Stop>
    requires page { (1 ≤ page) × (page < S.size store.old) }
    requires height { 1 ≤ height }
    ensures lower { IfOk result (λ r. (rs : List Record) → SpellsSubtree (S.told store.old) page height rs → IsLower k.now rs r) }
    ensures sound { IfErr result (λ e. (rs : List Record) → SpellsSubtree (S.told store.old) page height rs → IsNotDamage e) }
    ensures names { IfErr result (NamesPage (S.size store.old)) }
    ensures bad { IfErr result (NamesBad (S.told store.old) height page) }
    ensures left { OnlyReads S.PageStore store.old store.new result }
    ensures reads { Goes (λ old new. new + 1 ≤ old + 2 * height) (S.reads store.old) (S.reads store.new) }
    ensures straight { IfOk result (λ r. r ≡ None → Goes (λ old new. new ≤ old + height) (S.reads store.old) (S.reads store.new)) }
{
    if height == 1 {
        return lower_at(store, page, k);
    }
    let fork = fork_at(store, page, k)?;
    match lower_under(store, fork.child, height - 1, k)? {
        Some(r) => Ok(Some(r)),
        None => match fork.prior {
            None => Ok(None),
            Some(prior) => Ok(Some(last_under(store, prior, height - 1)?)),
        },
    }
}

ghost use Rattle.std.specs.Prelude.{◌≡◌, ◌≢◌, ℕ, ◌+◌, ◌*◌, ◌<◌, ◌≤◌, true, false, List, [], IfOk, IfErr, IfSome, None, OnOk, length};
ghost use Rattle.quilt_types.specs.Facts.{quota};
ghost use Rattle.quilt_types.specs.declared.stop.Stop.TheVariants.{Device};
ghost use Rattle.quilt_record.specs.declared.record.Record.{Record as AnyRecord};
ghost use Rattle.quilt_node.specs.Pages.{is_ascending};
ghost use Rattle.quilt_node.specs.Nodes.{keys_of};
ghost use Rattle.quilt_btree.specs.Edits.{IsWhole};
ghost use Rattle.quilt_btree.specs.Runs.{put_all, has_any, without_all, has_each};
ghost use Rattle.quilt_batch.specs.Merges.{IsMergePart};
ghost use Rattle.quilt_btree.specs.Batches.{are_due, edit_all, more, fewer, removed as keys_that_go, records_put as records_that_come};
ghost use Rattle.quilt_world.specs.Tale.{Goes};
ghost use Rattle.quilt_store.specs.Stops.{HasStopCause, IsNotDamage};
ghost use Rattle.quilt_edition.specs.Books.{world_of, pages_of, last_of, work_of, published_free, GoesOn};
ghost use Rattle.quilt_map.specs.Asking.{reads_in};
ghost use Rattle.quilt_map.specs.Sessions.{told_of, free_of, changed_of, tree_in};
ghost use Rattle.quilt_map.specs.Editing.{SameButTree};

use crate::change::DAMAGED;
use quilt_batch::{Part, first_edits};
use quilt_btree::{Batch, Tree};
use quilt_edition::Book;
use quilt_record::Record;
use quilt_store::PageStore;
use quilt_types::Stop;
use quilt_world::Disk;
use std::alloc::Global;

/// How many edits are made at a time. Their list takes 64 kB, memory that the list before gave back. One list of the 390,000 edits of a
/// raster would take 12.5 MB, which the system hands out page by page.
const EDITS: usize = 2048;

/// Takes the records of one list out of the tree of the work, and puts those of another in, each in the order of keys. Where the tree
/// has no room for both, those that go are taken out first. It reads at most 10 pages for each record that goes and 6 for each that
/// comes. Records in another order are damage of page 0.
pub(crate) fn edit_records<W: Disk>(
    alloc: Global,
    book: &mut Book<W>,
    removed: &[Record],
    added: &[Record],
) -> Result<(), Stop>
    requires room { (work_of book.old).records + length added.now ≤ quota (pages_of book.old) + length removed.now }
    ensures edited { OnOk result ((rs : List AnyRecord) → IsWhole (told_of book.old) (free_of book.old) (pages_of book.old) (tree_in (work_of book.old)) rs →
        IsWhole (told_of book.new) (free_of book.new) (pages_of book.old) (tree_in (work_of book.new)) (put_all added.now (without_all (keys_of removed.now) rs))) }
    ensures head { OnOk result (SameButTree (work_of book.old) (work_of book.new)) }
    ensures count { OnOk result ((work_of book.new).records + length removed.now ≡ (work_of book.old).records + length added.now) }
    ensures sound { IfErr result (λ e. (rs : List AnyRecord)
        → IsWhole (told_of book.old) (free_of book.old) (pages_of book.old) (tree_in (work_of book.old)) rs →
        is_ascending (keys_of removed.now) ≡ true → is_ascending (keys_of added.now) ≡ true →
        has_each (keys_of removed.now) rs ≡ true → has_any added.now (without_all (keys_of removed.now) rs) ≡ false → IsNotDamage e) }
    ensures goes_on { GoesOn book.old book.new }
    ensures used { published_free book.new ≡ published_free book.old }
    ensures changed { changed_of book.new ≤ changed_of book.old + 7 * length removed.now + 6 * length added.now }
    ensures reads { OnOk result (Goes (λ old new. new ≤ old + (10 * length removed.now + 6 * length added.now)) (reads_in book.old) (reads_in book.new)) }
    ensures cause { HasStopCause (W.faults (world_of book.old)) (W.faults (world_of book.new)) result }
{
    let quota = 64 * (book.pages() - 8);
    if fits(book.head().records, added.len(), quota) {
        return edit_merged(alloc, book, removed, added);
    }
    edit_merged(alloc, book, removed, &[])?;
    edit_merged(alloc, book, &[], added)
}

/// Takes records out of the tree of the work and puts others in, in one walk, where the tree has room for these beside those that go.
/// The walk goes by parts, so that no list of all edits is made.
fn edit_merged<W: Disk>(
    alloc: Global,
    book: &mut Book<W>,
    removed: &[Record],
    added: &[Record],
) -> Result<(), Stop>
    requires room { (work_of book.old).records + length added.now ≤ quota (pages_of book.old) }
    ensures edited { OnOk result ((rs : List AnyRecord) → IsWhole (told_of book.old) (free_of book.old) (pages_of book.old) (tree_in (work_of book.old)) rs →
        IsWhole (told_of book.new) (free_of book.new) (pages_of book.old) (tree_in (work_of book.new)) (put_all added.now (without_all (keys_of removed.now) rs))) }
    ensures head { OnOk result (SameButTree (work_of book.old) (work_of book.new)) }
    ensures count { OnOk result ((work_of book.new).records + length removed.now ≡ (work_of book.old).records + length added.now) }
    ensures sound { IfErr result (λ e. (rs : List AnyRecord)
        → IsWhole (told_of book.old) (free_of book.old) (pages_of book.old) (tree_in (work_of book.old)) rs →
        is_ascending (keys_of removed.now) ≡ true → is_ascending (keys_of added.now) ≡ true →
        has_each (keys_of removed.now) rs ≡ true → has_any added.now (without_all (keys_of removed.now) rs) ≡ false → IsNotDamage e) }
    ensures goes_on { GoesOn book.old book.new }
    ensures used { published_free book.new ≡ published_free book.old }
    ensures changed { changed_of book.new ≤ changed_of book.old + 7 * length removed.now + 6 * length added.now }
    ensures reads { OnOk result (Goes (λ old new. new ≤ old + (10 * length removed.now + 6 * length added.now)) (reads_in book.old) (reads_in book.new)) }
    ensures cause { HasStopCause (W.faults (world_of book.old)) (W.faults (world_of book.new)) result }
{
    let mut goes = removed;
    let mut comes = added;
    while let Some(part) = next_edits(alloc, goes, comes)? {
        apply(book, &part.batch)?;
        goes = part.goes;
        comes = part.comes;
    }
    Ok(())
}

/// The first edits of a merge, and what is left of both lists: none where nothing is left before.
fn next_edits<'a>(
    alloc: Global,
    goes: &'a [Record],
    comes: &'a [Record],
) -> Result<Option<Part<'a>>, Stop>
    ensures part { IfOk result (λ o. IfSome o (λ p. IsMergePart goes.now comes.now p.batch p.goes.now p.comes.now)) }
    ensures fewer { IfOk result (λ o. IfSome o (λ p. length p.goes.now + length p.comes.now < length goes.now + length comes.now)) }
    ensures none { IfOk result (λ o. o ≡ None → (goes.now ≡ []) × (comes.now ≡ [])) }
    ensures sound { IfErr result (λ e. is_ascending (keys_of goes.now) ≡ true → is_ascending (keys_of comes.now) ≡ true → IsNotDamage e) }
    ensures device { IfErr result (λ e. e ≢ Device) }
{
    let left = goes.len() + comes.len();
    if left == 0 {
        return Ok(None);
    }
    match first_edits(alloc, goes, comes, EDITS) {
        Err(_) => Err(Stop::Memory),
        Ok(None) => Err(DAMAGED),
        Ok(Some(part)) => Ok(Some(part)),
    }
}

/// Whether a tree has room for so many records more before others go.
fn fits(records: u32, added: usize, quota: u32) -> bool
    ensures { result ≡ true → records + added ≤ quota }
{
    u128::from(records) + (added as u128) <= u128::from(quota)
}

/// Makes a batch of edits in the tree of the work.
fn apply<W: Disk>(book: &mut Book<W>, batch: &Batch) -> Result<(), Stop>
    requires { (work_of book.old).records + more batch.now ≤ quota (pages_of book.old) }
    ensures edited { OnOk result ((rs : List AnyRecord) → IsWhole (told_of book.old) (free_of book.old) (pages_of book.old) (tree_in (work_of book.old)) rs →
        (are_due batch.now rs ≡ true)
        × IsWhole (told_of book.new) (free_of book.new) (pages_of book.old) (tree_in (work_of book.new)) (edit_all batch.now rs)) }
    ensures head { OnOk result (SameButTree (work_of book.old) (work_of book.new)) }
    ensures count { OnOk result ((work_of book.new).records + fewer batch.now ≡ (work_of book.old).records + more batch.now) }
    ensures sound { IfErr result (λ e. (rs : List AnyRecord)
        → IsWhole (told_of book.old) (free_of book.old) (pages_of book.old) (tree_in (work_of book.old)) rs → are_due batch.now rs ≡ true → IsNotDamage e) }
    ensures goes_on { GoesOn book.old book.new }
    ensures used { published_free book.new ≡ published_free book.old }
    ensures changed { changed_of book.new ≤ changed_of book.old + 7 * length (keys_that_go batch.now) + 6 * length (records_that_come batch.now) }
    ensures reads { OnOk result (Goes (λ old new. new ≤ old + (10 * length (keys_that_go batch.now) + 6 * length (records_that_come batch.now)))
        (reads_in book.old) (reads_in book.new)) }
    ensures cause { HasStopCause (W.faults (world_of book.old)) (W.faults (world_of book.new)) result }
{
    let head = book.head();
    let mut tree = Tree {
        root: head.root,
        height: head.height,
        records: head.records,
    };
    tree.apply(book, batch)?;
    book.set_tree(tree.root, tree.height, tree.records);
    Ok(())
}

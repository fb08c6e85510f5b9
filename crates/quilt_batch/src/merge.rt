ghost use Rattle.std.specs.Prelude.{◌≡◌, ◌≤◌, ◌+◌, ◌++◌, ◌⊎◌, true, IfOk, IfSome, MatchOption, None, [], ◌∷◌, drop, length};
ghost use Rattle.std.specs.Ordering.{is_lt};
ghost use Rattle.quilt_record.specs.Records.{key_cmp};
ghost use Rattle.quilt_node.specs.Nodes.{keys_of};
ghost use Rattle.quilt_node.specs.Pages.{is_ascending};
ghost use Rattle.quilt_btree.specs.Batches.{key_of, edit_keys};
ghost use Rattle.quilt_batch.specs.Merges.{IsFirstEdit, IsMerge, IsMergePart, goes_of, comes_of};

use quilt_btree::{Batch, Edit};
use quilt_record::{Key, Record};
use std::alloc::{AllocError, Global};
use std::cmp::Ordering;

/// The first edits of a merge, and what they leave of its two lists.
#[derive(Drop)]
pub struct Part<'a> {
    /// The edits.
    pub batch: Batch,
    /// The records that are still to go.
    pub goes: &'a [Record],
    /// The records that are still to come.
    pub comes: &'a [Record],
}

/// The edits by which some records go and others come, merged by their keys. A key that is in both lists is one edit, by
/// which a record takes the place of another. There are none where one of the lists is not in the order of its keys.
pub fn merged(
    alloc: Global,
    removed: &[Record],
    added: &[Record],
) -> Result<Option<Batch>, AllocError>
    ensures merge { IfOk result (λ o. IfSome o (λ batch. IsMerge removed.now added.now batch)) }
    ensures none { IfOk result (λ o. o ≡ None → is_ascending (keys_of removed.now) ≡ true → is_ascending (keys_of added.now) ≡ true → ⊥) }
{
    let most = removed.len() + added.len();
    match first_edits(alloc, removed, added, most) {
        Err(e) => Err(e),
        Ok(None) => Ok(None),
        Ok(Some(part)) => Ok(Some(part.batch)),
    }
}

/// The first edits of the merge, so many where there are no fewer, and what is left of both lists. There are none where the
/// records up to there, or the first behind them, are not in the order of their keys.
pub fn first_edits<'a>(
    alloc: Global,
    removed: &'a [Record],
    added: &'a [Record],
    most: usize,
) -> Result<Option<Part<'a>>, AllocError>
    ensures part { IfOk result (λ o. IfSome o (λ p. IsMergePart removed.now added.now p.batch p.goes.now p.comes.now)) }
    ensures many { IfOk result (λ o. IfSome o (λ p. ((p.goes.now ≡ []) × (p.comes.now ≡ [])) ⊎ (length p.batch ≡ most))) }
    ensures most { IfOk result (λ o. IfSome o (λ p. length p.batch ≤ most)) }
    ensures none { IfOk result (λ o. o ≡ None → is_ascending (keys_of removed.now) ≡ true → is_ascending (keys_of added.now) ≡ true → ⊥) }
{
    let mut batch = Batch::new(alloc);
    let mut goes = removed;
    let mut comes = added;
    while let Some(edit) = first_edit(goes, comes) {
        if batch.edits().len() == most {
            let is_past = follows(&batch, &edit);
            if !is_past {
                return Ok(None);
            }
            return Ok(Some(Part { batch, goes, comes }));
        }
        let is_in = batch.push(edit)?;
        if !is_in {
            return Ok(None);
        }
        goes = behind(goes, going(&edit));
        comes = behind(comes, coming(&edit));
    }
    Ok(Some(Part { batch, goes, comes }))
}

/// Whether the key of an edit is above those of a batch.
fn follows(batch: &Batch, edit: &Edit) -> bool
    ensures { result ≡ is_ascending (edit_keys batch.now ++ key_of edit.now ∷ []) }
{
    let edits = batch.edits();
    let n = edits.len();
    n == 0 || precedes(edits[n - 1].key(), edit.key())
}

/// Whether the first key is below the second.
fn precedes(a: &Key, b: &Key) -> bool
    ensures { result ≡ is_lt (key_cmp a.now b.now) }
{
    a < b
}

/// The edit of the least key of two lists: none where both are empty.
fn first_edit(goes: &[Record], comes: &[Record]) -> Option<Edit>
    ensures { MatchOption result ((goes.now ≡ []) × (comes.now ≡ [])) (λ e. IsFirstEdit e goes.now comes.now) }
{
    match (goes, comes) {
        ([r, ..], [a, ..]) => Some(match r.key.cmp(&a.key) {
            Ordering::Less => Edit::Remove { key: r.key },
            Ordering::Equal => Edit::Replace { record: *a },
            Ordering::Greater => Edit::Put { record: *a },
        }),
        ([r, ..], []) => Some(Edit::Remove { key: r.key }),
        ([], [a, ..]) => Some(Edit::Put { record: *a }),
        ([], []) => None,
    }
}

/// The records behind the first `n`, or none where there are no more.
fn behind(records: &[Record], n: usize) -> &[Record]
    ensures { result.now ≡ drop n records.now }
{
    match records.get(n..) {
        Some(rest) => rest,
        None => &[],
    }
}

/// How many records go by an edit: 0 or 1.
fn going(e: &Edit) -> usize
    ensures { result ≡ goes_of e.now }
{
    match e {
        Edit::Put { .. } => 0,
        Edit::Remove { .. } => 1,
        Edit::Replace { .. } => 1,
    }
}

/// How many records come by an edit: 0 or 1.
fn coming(e: &Edit) -> usize
    ensures { result ≡ comes_of e.now }
{
    match e {
        Edit::Put { .. } => 1,
        Edit::Remove { .. } => 0,
        Edit::Replace { .. } => 1,
    }
}

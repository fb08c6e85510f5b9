ghost use Rattle.std.specs.Prelude.{◌≡◌, ◌≢◌, ℕ, ◌+◌, ◌*◌, ◌<◌, ◌≤◌, Bool, true, List, [], ◌∷◌, Some, IfOk, IfErr, OnOk, length, slice_get, take};
ghost use Rattle.std.specs.List.{list_all};
ghost use Rattle.std.specs.Option.{option_or};
ghost use Rattle.quilt_record.specs.declared.record.Record.{Record};
ghost use Rattle.quilt_node.specs.Pages.{Inner, inner_of, is_ascending, leaf_of};
ghost use Rattle.quilt_node.specs.Tree.{Bounds, is_below};
ghost use Rattle.quilt_btree.specs.declared.edit.Edit.TheVariants as edits;
ghost use Rattle.quilt_btree.specs.Batches.{edit_all, edit_keys};
ghost use Rattle.quilt_btree.specs.Costs.{EditsWithin};
ghost use Rattle.quilt_btree.specs.Damage.{NamesBad};
ghost use Rattle.quilt_btree.specs.Edits.{CanInsert};
ghost use Rattle.quilt_btree.specs.Inserts.{AreFew};
ghost use Rattle.quilt_btree.specs.Placing.{DidPlace, LeavesPlaced, PutsFirst, puts_one};
ghost use Rattle.quilt_store.specs.Stops.{IsNotDamage};
ghost use Rattle.quilt_btree.specs.Stops.{NamesPage};
ghost use Rattle.quilt_types.specs.declared.stop.Stop.TheVariants.{Damaged};

use crate::balance::is_under;
use crate::edit::Edit;
use crate::insertion::{put_in_page, put_record};
use crate::outcomes::{Inserted, Placed};
use crate::search::{read_into, read_path};
use crate::split::write_new;
use quilt_node::{LEAST_RECORDS, LeafPage, MOST_RECORDS, child_count_in, is_leaf, separator_in};
use quilt_record::{Key, Record};
use quilt_store::PageStore;
use quilt_types::Stop;

/// How many of the first edits of a run put a record in whose key is below `high`, up to 143, so that they fill a leaf with one that comes before them.
fn coming(high: &Option<Key>, run: &[Edit]) -> usize
    ensures puts { PutsFirst run.now result }
    ensures most { result ≤ 143 }
    ensures under { list_all (is_below high.now) (edit_keys (take result run.now)) ≡ true }
{
    for n in 0..run.len() {
        if n == MOST_RECORDS - 1
            || !is_under(run[n].key(), high)
            || !matches!(run[n], Edit::Put { .. })
        {
            return n;
        }
    }
    run.len()
}

/// The leaf of a record and of those that a run puts in behind it, whose keys ascend.
fn leaf_with(r: &Record, run: &[Edit]) -> LeafPage
    requires room { length run.now ≤ 143 }
    requires puts { list_all puts_one run.now ≡ true }
    requires order { is_ascending (r.now.key ∷ edit_keys run.now) ≡ true }
    ensures { result ≡ edit_all (edits.Put r.now ∷ run.now) [] }
{
    let mut leaf = LeafPage::one(r);
    for e in run {
        if let Edit::Put { record } = e {
            let end = leaf.len();
            leaf.insert(end, record);
        }
    }
    leaf
}

/// The bound below which the keys of the child at a place stay, of an inner page whose own stay below `high`.
fn high_behind(bytes: &[u8; 4096], place: usize, high: &Option<Key>) -> Option<Key>
    requires { place < 254 }
    ensures { (pages : ℕ) (inner : Inner) → inner_of pages bytes.now ≡ Some inner → place < length inner.children
        → result ≡ option_or (slice_get inner.keys place) high.now }
{
    if child_count_in(bytes) <= place + 1 {
        *high
    } else {
        Some(separator_in(bytes, place))
    }
}

/// Puts a record into the leaf at a page, whose keys stay below `high`, which is read once. Where the leaf is full and the record comes behind all of its own,
/// and so many of those that a run has behind it come there too that they make a leaf, they become a new one to the right, and the leaf stays as it is.
fn place_in_leaf<S: PageStore>(
    store: &mut S,
    page: u32,
    r: &Record,
    high: &Option<Key>,
    behind: &[Edit],
) -> Result<Placed, Stop>
    requires page { (1 ≤ page) × (page < S.size store.old) }
    requires order { is_ascending (r.now.key ∷ edit_keys behind.now) ≡ true }
    ensures placed { IfOk result (λ o. (is_root : Bool) (b : Bounds) (rs : List Record) (used : List ℕ) → b.high ≡ high.now
        → CanInsert (S.told store.old) (S.free store.old) (S.size store.old) page 1 is_root b r.now.key rs used
        → DidPlace (edits.Put r.now ∷ take o.more behind.now) (S.told store.old) (S.told store.new) (S.free store.old) (S.free store.new) page 1 is_root b rs used o.outcome) }
    ensures sound { IfErr result (λ e. (is_root : Bool) (b : Bounds) (rs : List Record) (used : List ℕ)
        → CanInsert (S.told store.old) (S.free store.old) (S.size store.old) page 1 is_root b r.now.key rs used → IsNotDamage e) }
    ensures puts { IfOk result (λ o. PutsFirst behind.now o.more) }
    ensures leaves { LeavesPlaced S.PageStore 1 store.old store.new result }
    ensures names { IfErr result (NamesPage (S.size store.old)) }
    ensures bad { IfErr result (λ e. e ≢ Damaged 0 → NamesBad (S.told store.old) 1 page e) }
    ensures left { EditsWithin S.PageStore 2 1 store.old store.new result }
{
    let mut bytes = [0; 4096];
    read_into(store, page, &mut bytes)?;
    if !is_leaf(&bytes) {
        return Err(Stop::Damaged { page });
    }
    let mut leaf = LeafPage::from_bytes(bytes);
    match leaf.find(&r.key) {
        Ok(_) => Ok(Placed {
            outcome: Inserted::There,
            more: 0,
        }),
        Err(i) => {
            let more = if i == MOST_RECORDS {
                coming(high, behind)
            } else {
                0
            };
            if more + 1 < LEAST_RECORDS {
                let outcome = put_record(store, page, &mut leaf, i, r)?;
                return Ok(Placed { outcome, more: 0 });
            }
            let new = leaf_with(r, &behind[..more]);
            let right = write_new(store, new.bytes())?;
            Ok(Placed {
                outcome: Inserted::Split { key: r.key, right },
                more,
            })
        }
    }
}

/// Puts a record, and perhaps those that a run has behind it, into the subtree at a page, whose keys stay below `high`. The answer tells how many of the run came.
pub fn place_under<S: PageStore>(
    store: &mut S,
    page: u32,
    height: u8,
    r: &Record,
    high: &Option<Key>,
    behind: &[Edit],
) -> Result<Placed, Stop>
    requires page { (1 ≤ page) × (page < S.size store.old) }
    requires height { 1 ≤ height }
    requires order { is_ascending (r.now.key ∷ edit_keys behind.now) ≡ true }
    ensures placed { IfOk result (λ o. (is_root : Bool) (b : Bounds) (rs : List Record) (used : List ℕ) → b.high ≡ high.now
        → CanInsert (S.told store.old) (S.free store.old) (S.size store.old) page height is_root b r.now.key rs used
        → DidPlace (edits.Put r.now ∷ take o.more behind.now) (S.told store.old) (S.told store.new) (S.free store.old) (S.free store.new) page height is_root b rs used o.outcome) }
    ensures sound { IfErr result (λ e. (is_root : Bool) (b : Bounds) (rs : List Record) (used : List ℕ) → b.high ≡ high.now
        → CanInsert (S.told store.old) (S.free store.old) (S.size store.old) page height is_root b r.now.key rs used → AreFew rs → IsNotDamage e) }
    ensures puts { IfOk result (λ o. PutsFirst behind.now o.more) }
    ensures leaves { LeavesPlaced S.PageStore height store.old store.new result }
    ensures names { IfErr result (NamesPage (S.size store.old)) }
    ensures bad { IfErr result (λ e. e ≢ Damaged 0 → NamesBad (S.told store.old) height page e) }
    ensures left { EditsWithin S.PageStore (2 * height) height store.old store.new result }
    ensures less { 3 ≤ height → S.changed store.new + 1 ≤ S.changed store.old + 2 * height }
{
    if height == 1 {
        return place_in_leaf(store, page, r, high, behind);
    }
    let mut bytes = [0; 4096];
    let path = read_path(store, page, &r.key, &mut bytes)?;
    let next = high_behind(&bytes, path.place, high);
    let placed = place_under(store, path.child, height - 1, r, &next, behind)?;
    match placed.outcome {
        Inserted::There => Ok(placed),
        Inserted::Done => Ok(placed),
        Inserted::Split { key, right } => {
            let outcome = put_in_page(store, page, height, &bytes, path.place, &key, right)?;
            Ok(Placed {
                outcome,
                more: placed.more,
            })
        }
    }
}

ghost use Rattle.std.specs.Prelude.{◌≡◌, ◌≤◌, if◌then◌else◌, true, false, IfSome, List, Some, None, take, length};
ghost use Rattle.std.specs.List.{list_all};
ghost use Rattle.quilt_record.specs.declared.record.Record.{Record};
ghost use Rattle.quilt_node.specs.Nodes.{page_records};
ghost use Rattle.quilt_node.specs.Pages.{leaf_of};
ghost use Rattle.quilt_node.specs.Tree.{is_below};
ghost use Rattle.quilt_btree.specs.Batches.{key_of, edit_keys, is_due, edited, edit_all, are_due, size_behind, size_after, HasRoom, HasRoomFor, EditsLeaf, Fails};

use crate::balance::is_under;
use quilt_node::{
    LEAST_RECORDS, MOST_RECORDS, find_in, insert_in, records_in, remove_in, replace_in,
};
use quilt_record::{Key, Record};

/// One edit of a tree: the record of a key goes, a record comes whose key is not there, or a record comes in the place
/// of the one that has its key.
#[derive(Clone, Copy, Debug, PartialEq, Eq)]
pub enum Edit {
    Remove { key: Key },
    Put { record: Record },
    Replace { record: Record },
}

impl Edit {
    /// The key that the edit concerns.
    pub fn key(&self) -> &Key
        ensures { result.now ≡ key_of self.now }
    {
        match self {
            Edit::Remove { key } => key,
            Edit::Put { record } => &record.key,
            Edit::Replace { record } => &record.key,
        }
    }
}

/// The least number of records of a leaf.
pub fn least_records(is_root: bool) -> usize
    ensures { result ≡ (if is_root then 1 else 72) }
{
    if is_root { 1 } else { LEAST_RECORDS }
}

/// The number of records of a leaf of `n` behind the edit: none where it would be no leaf.
fn count_behind(n: usize, e: &Edit) -> Option<usize>
    requires { n ≤ 144 }
    ensures room { IfSome result (λ m. HasRoom e.now n) }
    ensures size { IfSome result (λ m. m ≡ size_behind e.now n) }
    ensures most { IfSome result (λ m. m ≤ 144) }
    ensures none { result ≡ None → HasRoom e.now n → ⊥ }
{
    match e {
        Edit::Remove { .. } => if n <= 1 { None } else { Some(n - 1) },
        Edit::Put { .. } => if n == MOST_RECORDS { None } else { Some(n + 1) },
        Edit::Replace { .. } => Some(n),
    }
}

/// How many of the first edits of a run can be made in a leaf of `n` records and leave it with `least`: the most that are
/// below `high`, where each is due.
fn planned(n: usize, least: usize, high: &Option<Key>, run: &[Edit]) -> usize
    requires { n ≤ 144 }
    ensures number { result ≤ length run.now }
    ensures under { list_all (is_below high.now) (edit_keys (take result run.now)) ≡ true }
    ensures room { HasRoomFor (take result run.now) n }
    ensures enough { 1 ≤ result → least ≤ size_after (take result run.now) n }
{
    let mut count = n;
    let mut best = 0;
    for i in 0..run.len() {
        if !is_under(run[i].key(), high) {
            return best;
        }
        match count_behind(count, &run[i]) {
            None => return best,
            Some(m) => count = m,
        }
        if least <= count {
            best = i + 1;
        }
    }
    best
}

/// Makes an edit in a page that is a leaf: false where it is not due. Of any bytes it makes some others.
fn make(bytes: &mut [u8; 4096], e: &Edit) -> bool
    requires { HasRoom e.now (length (page_records bytes.old)) }
    ensures due { (rs : List Record) → leaf_of bytes.old ≡ Some rs → result ≡ is_due e.now rs }
    ensures made { (rs : List Record) → leaf_of bytes.old ≡ Some rs → result ≡ true → leaf_of bytes.new ≡ Some (edited e.now rs) }
{
    match e {
        Edit::Remove { key } => match find_in(bytes, key) {
            Err(_) => false,
            Ok(place) => {
                remove_in(bytes, place);
                true
            }
        },
        Edit::Put { record } => match find_in(bytes, &record.key) {
            Ok(_) => false,
            Err(place) => {
                insert_in(bytes, place, record);
                true
            }
        },
        Edit::Replace { record } => match find_in(bytes, &record.key) {
            Err(_) => false,
            Ok(place) => {
                replace_in(bytes, place, record);
                true
            }
        },
    }
}

/// Makes the edits of a run in a page that is a leaf and has room for them: false where one is not due. Of any bytes it
/// makes some others.
fn edit_in(bytes: &mut [u8; 4096], run: &[Edit]) -> bool
    ensures made { (rs : List Record) → leaf_of bytes.old ≡ Some rs → HasRoomFor run.now (length rs) → result ≡ true
        → (leaf_of bytes.new ≡ Some (edit_all run.now rs)) × (are_due run.now rs ≡ true) }
    ensures fails { (rs : List Record) → leaf_of bytes.old ≡ Some rs → HasRoomFor run.now (length rs) → result ≡ false → are_due run.now rs ≡ false }
{
    for i in 0..run.len() {
        match count_behind(records_in(bytes), &run[i]) {
            None => return false,
            Some(_) => {
                if !make(bytes, &run[i]) {
                    return false;
                }
            }
        }
    }
    true
}

/// Makes the first edits of a run in a page that is a leaf: the most that are below `high` and leave it with `least` records.
/// The answer is their number, and none where one of them is not due. Of any bytes it makes some others.
pub fn edit_some(
    bytes: &mut [u8; 4096],
    least: usize,
    high: &Option<Key>,
    run: &[Edit],
) -> Option<usize>
    ensures number { IfSome result (λ n. n ≤ length run.now) }
    ensures under { IfSome result (λ n. list_all (is_below high.now) (edit_keys (take n run.now)) ≡ true) }
    ensures made { IfSome result (λ n. (rs : List Record) → leaf_of bytes.old ≡ Some rs → EditsLeaf least run.now n rs bytes.new) }
    ensures same { IfSome result (λ n. n ≡ 0 → bytes.new ≡ bytes.old) }
    ensures fails { result ≡ None → (rs : List Record) → leaf_of bytes.old ≡ Some rs → Fails run.now high.now rs }
{
    let n = planned(records_in(bytes), least, high, run);
    if n == 0 {
        return Some(0);
    }
    if edit_in(bytes, &run[..n]) {
        Some(n)
    } else {
        None
    }
}

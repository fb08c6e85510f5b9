ghost use Rattle.std.specs.Prelude.{◌≡◌, ℕ, true, Contains, IfOk, IfErr, IsErrOf, IsPermutation};
ghost use Rattle.std.specs.List.Sorted.{IsSortedByKey};
ghost use Rattle.std.specs.Ordering.{is_lt};
ghost use Rattle.quilt_types.specs.declared.stop.Stop.TheVariants.{Device, Damaged};
ghost use Rattle.quilt_record.specs.declared.record.Record.{Record as AnyRecord};
ghost use Rattle.quilt_record.specs.Records.{key_cmp};
ghost use Rattle.quilt_node.specs.Pages.{is_ascending};
ghost use Rattle.quilt_node.specs.Nodes.{keys_of};
ghost use Rattle.quilt_edits.specs.Edits.{EditsAscend, CanBeEdits};

use quilt_record::{Edits, Record, RecordList};
use quilt_types::Stop;

/// What is answered where records cannot be edits.
const DAMAGED: Stop = Stop::Damaged { page: 0 };

/// The records that go and those that come, each in the order of their keys. Records of a damaged store, of which two of a list
/// have one key or one is in both lists, are refused as damage of page 0. It takes no memory.
pub fn edits_of(mut remove: Vec<Record>, mut add: Vec<Record>) -> Result<Edits, Stop>
    ensures remove { IfOk result (λ e. IsPermutation remove.items e.remove) }
    ensures add { IfOk result (λ e. IsPermutation add.items e.add) }
    ensures order { IfOk result EditsAscend }
    ensures memory { IfErr result (λ e. CanBeEdits remove.items add.items → e ≡ Stop.Memory) }
    ensures zero { IfErr result (λ e. (page : ℕ) → e ≡ Damaged page → page ≡ 0) }
    ensures no_fault { IsErrOf result Device → ⊥ }
{
    sort(&mut remove);
    sort(&mut add);
    if !is_in_order(&remove) {
        return Err(DAMAGED);
    }
    if !is_in_order(&add) {
        return Err(DAMAGED);
    }
    if !are_apart(&remove, &add) {
        return Err(DAMAGED);
    }
    Ok(Edits {
        remove: RecordList::of(remove),
        add: RecordList::of(add),
    })
}

/// Puts the records in the order of their keys.
fn sort(records: &mut Vec<Record>)
    ensures permutation { IsPermutation records.old.items records.new.items }
    ensures sorted { IsSortedByKey (λ r. r.key) key_cmp records.new.items }
{
    records.sort_unstable_by_key(|r| r.key);
}

/// Whether the keys of the records ascend.
fn is_in_order(records: &[Record]) -> bool
    ensures yes { result ≡ true → is_ascending (keys_of records.now) ≡ true }
    ensures no { is_ascending (keys_of records.now) ≡ true → result ≡ true }
{
    for i in 1..records.len() {
        if !is_before(&records[i - 1], &records[i]) {
            return false;
        }
    }
    true
}

/// Whether no record is in both lists, whose keys ascend.
fn are_apart(a: &[Record], b: &[Record]) -> bool
    requires first { is_ascending (keys_of a.now) ≡ true }
    requires second { is_ascending (keys_of b.now) ≡ true }
    ensures yes { result ≡ true → (r : AnyRecord) → Contains a.now r → Contains b.now r → ⊥ }
    ensures no { ((r : AnyRecord) → Contains a.now r → Contains b.now r → ⊥) → result ≡ true }
{
    let mut i = 0;
    let mut j = 0;
    while i < a.len() && j < b.len() {
        if is_same(&a[i], &b[j]) {
            return false;
        }
        if is_before(&a[i], &b[j]) {
            i += 1;
        } else {
            j += 1;
        }
    }
    true
}

/// Whether the first record's key is less than the second's.
fn is_before(a: &Record, b: &Record) -> bool
    ensures { result ≡ is_lt (key_cmp a.now.key b.now.key) }
{
    a.key < b.key
}

/// Whether two records are the same.
fn is_same(a: &Record, b: &Record) -> bool
    ensures yes { result ≡ true → a.now ≡ b.now }
    ensures no { a.now ≡ b.now → result ≡ true }
{
    a == b
}

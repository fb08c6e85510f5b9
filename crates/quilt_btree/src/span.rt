ghost use Rattle.std.specs.Prelude.{◌≡◌, ◌⊎◌, ◌-◌, ◌<◌, ◌≤◌, ◌&&◌, ◌++◌, IfOk, IfErr, OnOk, MatchOption, List, Some, None, true, false, drop, filter, length, take, vec_len};
ghost use Rattle.std.specs.List.{list_all};
ghost use Rattle.std.specs.Ordering.{is_le, is_lt};
ghost use Rattle.quilt_record.specs.Records.{key_cmp};
ghost use Rattle.quilt_record.specs.declared.key.Key.{Key};
ghost use Rattle.quilt_record.specs.declared.record.Record.{Record};
ghost use Rattle.quilt_node.specs.Pages.{leaf_of};
ghost use Rattle.quilt_node.specs.Nodes.{page_records};
ghost use Rattle.quilt_store.specs.Stops.{IsNotDamage};
ghost use Rattle.quilt_btree.specs.Lists.{is_from_to};
ghost use Rattle.quilt_btree.specs.Looks.{LooksAt, AddsFrom, IsSpoilt};

use crate::pages::stop_of;
use quilt_node::{find_in, is_leaf, rec_in, records_in};
use quilt_record::{Key, Record};
use quilt_store::PageStore;
use quilt_types::Stop;
use std::alloc::AllocError;

/// Whether the key is one of those from `low` to `high`.
pub fn is_within(k: &Key, low: &Key, high: &Key) -> bool
    ensures { result ≡ (is_le (key_cmp low.now k.now) && is_le (key_cmp k.now high.now)) }
{
    low <= k && k <= high
}

/// The number of records of a leaf whose keys are below `k`; some number for any bytes.
fn count_below(bytes: &[u8; 4096], k: &Key) -> usize
    ensures { (rs : List Record) → leaf_of bytes.now ≡ Some rs → list_all (λ r. is_lt (key_cmp r.key k.now)) (take result rs) ≡ true }
{
    match find_in(bytes, k) {
        Ok(i) => i,
        Err(i) => i,
    }
}

/// The number of records of a leaf whose keys are at most `k`; some number of its records for any bytes.
fn count_up_to(bytes: &[u8; 4096], k: &Key) -> usize
    ensures range { (result ≤ 144) × (result ≤ length (page_records bytes.now)) }
    ensures above { (rs : List Record) → leaf_of bytes.now ≡ Some rs → list_all (λ r. is_lt (key_cmp k.now r.key)) (drop result rs) ≡ true }
{
    let n = records_in(bytes);
    match find_in(bytes, k) {
        Ok(i) if i < n => i + 1,
        Err(i) if i < n => i,
        _ => n,
    }
}

/// Adds those records of the places from `first` up to `last` of a page whose keys are from `low` to `high`, until the
/// list has `most`.
fn add_span(
    records: &mut Vec<Record>,
    bytes: &[u8; 4096],
    first: usize,
    last: usize,
    low: &Key,
    high: &Key,
    most: u32,
) -> Result<(), AllocError>
    requires room { vec_len records.old ≤ most }
    requires last { (last ≤ 144) × (last ≤ length (page_records bytes.now)) }
    ensures { OnOk result (records.new.items
        ≡ take most (records.old.items ++ filter (is_from_to low.now high.now) (take (last - first) (drop first (page_records bytes.now))))) }
{
    for i in first..last {
        let r = rec_in(bytes, i);
        if records.len() == most as usize {
            return Ok(());
        }
        if is_within(&r.key, low, high) {
            records.push(r)?;
        }
    }
    Ok(())
}

/// Adds the records of a leaf with keys from `low` to `high`, until the list has `most`. It looks for the first and the
/// last of them, and reads no others; of any bytes it adds some records with such keys.
pub fn add_leaf(
    records: &mut Vec<Record>,
    bytes: &[u8; 4096],
    low: &Key,
    high: &Key,
    most: u32,
) -> Result<(), AllocError>
    requires { vec_len records.old ≤ most }
    ensures { OnOk result ((some : List Record) × (records.new.items ≡ take most (records.old.items ++ filter (is_from_to low.now high.now) some))
        × ((rs : List Record) → leaf_of bytes.now ≡ Some rs → filter (is_from_to low.now high.now) some ≡ filter (is_from_to low.now high.now) rs)) }
{
    let first = count_below(bytes, low);
    let last = count_up_to(bytes, high);
    add_span(records, bytes, first, last, low, high, most)
}

/// Adds the records of the leaf at a page with keys from `low` to `high`, until the list has `most`. The leaf is looked at
/// where it lies. The answer is the number of records of the list.
pub fn add_at<S: PageStore>(
    store: &mut S,
    page: u32,
    records: &mut Vec<Record>,
    low: &Key,
    high: &Key,
    most: u32,
) -> Result<usize, Stop>
    requires page { (1 ≤ page) × (page < S.size store.old) }
    requires room { vec_len records.old ≤ most }
    ensures number { IfOk result (λ n. n ≡ vec_len records.new) }
    ensures adds { OnOk result (AddsFrom (S.told store.old) page low.now high.now most records.old.items records.new.items) }
    ensures sound { IfErr result (λ e. IsNotDamage e) }
    ensures looks { LooksAt S.PageStore page store.old store.new result }
{
    match store.page(page) {
        Err(e) => Err(stop_of(e)),
        Ok(bytes) => {
            if add_leaf(records, bytes, low, high, most).is_err() {
                return Err(Stop::Memory);
            }
            Ok(records.len())
        }
    }
}

/// The page that is at fault where a range that goes on behind the leaf at a page finds no record in it, as
/// `page_at_fault` has it of the leaf's bytes.
pub fn fault_at<S: PageStore>(store: &mut S, page: u32) -> Result<u32, Stop>
    requires { (1 ≤ page) × (page < S.size store.old) }
    ensures at_most { IfOk result (λ q. q ≤ page) }
    ensures fault { IfOk result (λ q. (q ≡ 0) ⊎ ((q ≡ page) × IsSpoilt (S.told store.old) page)) }
    ensures sound { IfErr result (λ e. IsNotDamage e) }
    ensures looks { LooksAt S.PageStore page store.old store.new result }
{
    match store.page(page) {
        Err(e) => Err(stop_of(e)),
        Ok(bytes) => Ok(page_at_fault(bytes, page)),
    }
}

/// The page that is at fault where a range that goes on behind it finds no record in it: the page itself where its bytes
/// are no leaf, and else 0, since then the keys above it may be wrong as well as its own.
fn page_at_fault(bytes: &[u8; 4096], page: u32) -> u32
    ensures at_most { result ≤ page }
    ensures fault { (result ≡ 0) ⊎ ((result ≡ page) × (leaf_of bytes.now ≡ None)) }
{
    if is_leaf(bytes) { 0 } else { page }
}

/// The key, where it is at most `last`.
pub fn key_up_to(key: Option<Key>, last: &Key) -> Option<Key>
    ensures { MatchOption result ((k : Key) → key ≡ Some k → is_le (key_cmp k last.now) ≡ false) (λ k. (key ≡ Some k) × (is_le (key_cmp k last.now) ≡ true)) }
{
    match key {
        None => None,
        Some(k) => { if k <= *last { Some(k) } else { None } }
    }
}

ghost use Rattle.std.specs.Prelude.{◌≡◌, ◌+◌, ◌-◌, ◌<◌, ◌≤◌, [], ◌∷◌, ◌++◌, true, Some, is_some, take, drop, length, slice_get, MatchResult, IfErr, count_by};
ghost use Rattle.std.specs.Prelude.{replicate};
ghost use Rattle.std.specs.List.{insert, remove};
ghost use Rattle.std.specs.Ordering.{is_lt};
ghost use Rattle.std.specs.Str.{bytes_eq};
ghost use Rattle.quilt_record.specs.Records.{key_cmp};
ghost use Rattle.quilt_node.specs.Pages as spec;
ghost use Rattle.quilt_node.specs.Pages.{leaf_bytes, is_ascending, short_at};
ghost use Rattle.quilt_node.specs.Nodes.{IsLeaf, IsFound, IsGap, keys_of, leaf_head};

use crate::bytes::{clear, count_in, is_clear, put_over, record_in, record_piece, set_count};
use crate::edits::{insert_in, remove_in};
use crate::keys::{find_key, keys_ascend};
use crate::sizes::{LEAST_RECORDS, MOST_RECORDS};
use quilt_record::{Key, Record};
use std::marker::Model;

/// A leaf page, seen as the list of its 1 to 144 records, whose keys ascend. It is kept as the bytes of the page.
#[derive(Drop)]
pub struct LeafPage {
    bytes: [u8; 4096],
}

impl Model for LeafPage {
    ghost use Rattle.std.specs.Prelude.{List};
    ghost use Rattle.quilt_record.specs.declared.record.Record.{Record};
    ghost use Rattle.quilt_node.specs.Pages.{read_leaf};
    ghost use Rattle.quilt_node.specs.Nodes.{IsLeafPage};

    ghost Value = { List Record };

    ghost view = { λ p. read_leaf p.bytes };

    ghost invariant = { λ p. IsLeafPage p.bytes (read_leaf p.bytes) };
}

/// The page of a leaf with `n` records, whose bytes are these.
fn leaf_page(n: u16, rows: &[u8]) -> [u8; 4096]
    requires { length rows.now ≤ 4032 }
    ensures { result ≡ leaf_head n ++ (rows.now ++ replicate (4032 - length rows.now) 0) }
{
    let [high, low] = n.to_be_bytes();
    let mut page = [0; 4096];
    put_over(&mut page, 0, &[1, 1, high, low]);
    put_over(&mut page, 64, rows);
    page
}

/// Whether the first 64 bytes are those of a leaf page with the count that stands there.
fn has_leaf_head(bytes: &[u8; 4096]) -> bool
    ensures { result ≡ bytes_eq (take 64 bytes.now) (leaf_head (short_at bytes.now 2)) }
{
    if bytes[0] != 1 || bytes[1] != 1 {
        return false;
    }
    is_clear(bytes, 4, 64)
}

/// Whether the bytes are a leaf page that is well formed.
pub fn is_leaf(bytes: &[u8; 4096]) -> bool
    ensures { result ≡ is_some (spec.leaf_of bytes.now) }
{
    let n = count_in(bytes) as usize;
    if n < 1 || MOST_RECORDS < n {
        return false;
    }
    if !has_leaf_head(bytes) {
        return false;
    }
    if !is_clear(bytes, 64 + 28 * n, 4096) {
        return false;
    }
    keys_ascend(bytes, 64, 28, n)
}

/// The leaf page that the bytes are; none where they are not well formed.
pub fn leaf_of(bytes: &[u8; 4096]) -> Option<LeafPage>
    ensures { result ≡ spec.leaf_of bytes.now }
{
    if !is_leaf(bytes) {
        return None;
    }
    Some(LeafPage::from_bytes(*bytes))
}

impl LeafPage {
    /// The page that the bytes are, where they are well formed. They are copied less often than by `leaf_of`.
    pub fn from_bytes(bytes: [u8; 4096]) -> LeafPage
        requires { is_some (spec.leaf_of bytes) ≡ true }
        ensures { spec.leaf_of bytes ≡ Some result }
    {
        LeafPage { bytes }
    }

    /// The page with this one record.
    pub fn one(r: &Record) -> LeafPage
        ensures { result ≡ r.now ∷ [] }
    {
        LeafPage {
            bytes: leaf_page(1, &record_piece(r)),
        }
    }

    /// The page's bytes.
    pub fn bytes(&self) -> &[u8; 4096]
        ensures leaf { spec.leaf_of result.now ≡ Some self.now }
        ensures written { result.now ≡ leaf_bytes self.now }
        ensures is { IsLeaf self.now }
    {
        &self.bytes
    }

    /// The number of records, from 1 to 144.
    pub fn len(&self) -> usize
        ensures length { result ≡ length self.now }
        ensures range { (1 ≤ result) × (result ≤ 144) }
        ensures is { IsLeaf self.now }
    {
        count_in(&self.bytes) as usize
    }

    /// The record at place `i`.
    pub fn rec(&self, i: usize) -> Record
        requires { i < length self.now }
        ensures { slice_get self.now i ≡ Some result }
    {
        record_in(&self.bytes, 64 + 28 * i)
    }

    /// The place of the record with this key, or else the number of records with smaller keys. It compares about
    /// eight keys.
    pub fn find(&self, k: &Key) -> Result<usize, usize>
        ensures place { MatchResult result (λ i. IsFound k.now self.now i) (λ i. IsGap k.now self.now i) }
        ensures number { IfErr result (λ i. i ≡ count_by (λ r. is_lt (key_cmp r.key k.now)) self.now) }
    {
        find_key(&self.bytes, 64, 28, self.len(), k)
    }

    /// Puts a record in at place `i`.
    pub fn insert(&mut self, i: usize, r: &Record)
        requires room { length self.old < 144 }
        requires place { i ≤ length self.old }
        requires order { is_ascending (keys_of (insert self.old i r.now)) ≡ true }
        ensures { self.new ≡ insert self.old i r.now }
    {
        insert_in(&mut self.bytes, i, r);
    }

    /// Keeps the first `n` records. The others are the answer.
    fn split_off(&mut self, n: usize) -> LeafPage
        requires { (1 ≤ n) × (n < length self.old) }
        ensures left { self.new ≡ take n self.old }
        ensures right { result ≡ drop n self.old }
    {
        let all = self.len();
        let right = LeafPage {
            bytes: leaf_page((all - n) as u16, &self.bytes[64 + 28 * n..64 + 28 * all]),
        };
        clear(&mut self.bytes, 64 + 28 * n, 64 + 28 * all);
        set_count(&mut self.bytes, n as u16);
        right
    }

    /// Puts a record in at place `i` of a full page: the first 72 records stay, and the other 73 are the answer.
    pub fn insert_split(&mut self, i: usize, r: &Record) -> LeafPage
        requires full { length self.old ≡ 144 }
        requires place { i ≤ length self.old }
        requires order { is_ascending (keys_of (insert self.old i r.now)) ≡ true }
        ensures left { self.new ≡ take 72 (insert self.old i r.now) }
        ensures right { result ≡ drop 72 (insert self.old i r.now) }
    {
        if i < LEAST_RECORDS {
            let right = self.split_off(LEAST_RECORDS - 1);
            self.insert(i, r);
            right
        } else {
            let mut right = self.split_off(LEAST_RECORDS);
            right.insert(i - LEAST_RECORDS, r);
            right
        }
    }

    /// Takes out the record at place `i`.
    pub fn remove(&mut self, i: usize)
        requires left { 1 < length self.old }
        requires place { i < length self.old }
        ensures { self.new ≡ remove self.old i }
    {
        remove_in(&mut self.bytes, i);
    }

    /// Takes over all records of the page to the right, whose bytes stay as they are.
    pub fn join(&mut self, right: &LeafPage)
        requires room { length self.old + length right.now ≤ 144 }
        requires order { is_ascending (keys_of (self.old ++ right.now)) ≡ true }
        ensures { self.new ≡ self.old ++ right.now }
    {
        let n = self.len();
        let more = right.len();
        put_over(
            &mut self.bytes,
            64 + 28 * n,
            &right.bytes[64..64 + 28 * more],
        );
        set_count(&mut self.bytes, (n + more) as u16);
    }

    /// Moves the first record of the page to the right here.
    pub fn from_right(&mut self, right: &mut LeafPage)
        requires room { length self.old < 144 }
        requires lender { 72 < length right.old }
        requires order { is_ascending (keys_of (self.old ++ right.old)) ≡ true }
        ensures here { self.new ≡ self.old ++ take 1 right.old }
        ensures there { right.new ≡ drop 1 right.old }
    {
        let first = right.rec(0);
        self.insert(self.len(), &first);
        right.remove(0);
    }

    /// Moves the last record of the page to the left here.
    pub fn from_left(&mut self, left: &mut LeafPage)
        requires room { length self.old < 144 }
        requires lender { 72 < length left.old }
        requires order { is_ascending (keys_of (left.old ++ self.old)) ≡ true }
        ensures here { self.new ≡ drop (length left.old - 1) left.old ++ self.old }
        ensures there { left.new ≡ take (length left.old - 1) left.old }
    {
        let i = left.len() - 1;
        let last = left.rec(i);
        self.insert(0, &last);
        left.remove(i);
    }
}

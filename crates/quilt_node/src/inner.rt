ghost use Rattle.std.specs.Prelude.{◌≡◌, ℕ, ◌+◌, ◌-◌, ◌<◌, ◌≤◌, [], ◌∷◌, ◌++◌, true, Some, IfSome, is_some, length, slice_get, slice_index, slice_set, take};
ghost use Rattle.std.specs.Prelude.{count_by, replicate};
ghost use Rattle.std.specs.List.{insert, remove};
ghost use Rattle.std.specs.Ordering.{is_le};
ghost use Rattle.std.specs.Str.{bytes_eq};
ghost use Rattle.quilt_record.specs.Records.{key_cmp};
ghost use Rattle.quilt_node.specs.Pages as spec;
ghost use Rattle.quilt_node.specs.Pages.{inner_bytes, is_ascending, short_at};
ghost use Rattle.quilt_node.specs.Nodes.{IsInner, IsPlace, are_pages, inner_head};
ghost use Rattle.quilt_node.specs.KeysIn.{children_in};
ghost use Rattle.quilt_node.specs.Edits.{with_key, with_child, without_child, first_children, children_from, joined};

use crate::bytes::{
    clear, count_in, is_clear, key_in, put_in, put_over, set_count, take_out, word_in,
};
use crate::keys::{find_key, keys_ascend};
use crate::sizes::{LEAST_CHILDREN, MOST_CHILDREN};
use quilt_record::{Key, key_bytes};
use std::marker::Model;

/// An inner page, seen as its height, its 2 to 254 children and the keys between them, which ascend. Its length is
/// the number of its children. It is kept as the bytes of the page.
#[derive(Drop)]
pub struct InnerPage {
    bytes: [u8; 4096],
}

impl Model for InnerPage {
    ghost use Rattle.quilt_node.specs.Pages.{Inner, read_inner};
    ghost use Rattle.quilt_node.specs.Nodes.{IsInnerPage};

    ghost Value = { Inner };

    ghost view = { λ p. read_inner p.bytes };

    ghost invariant = { λ p. IsInnerPage p.bytes (read_inner p.bytes) };
}

/// Whether the `n` children are pages from 1 on of a file of `pages` home pages.
fn children_are_pages(bytes: &[u8; 4096], n: usize, pages: u32) -> bool
    requires { n ≤ 254 }
    ensures { result ≡ are_pages pages (children_in bytes.now n) }
{
    let mut all = true;
    for i in 0..n {
        let child = word_in(bytes, 8 + 4 * i);
        all &= (1 <= child) & (child < pages);
    }
    all
}

/// The page of an inner node with `n` children of these bytes, and no keys yet.
fn page_of_children(height: u8, n: u16, children: &[u8]) -> [u8; 4096]
    requires { length children.now ≤ 1016 }
    ensures { result ≡ inner_head height n ++ ((children.now ++ replicate (1016 - length children.now) 0) ++ replicate 3072 0) }
{
    let [high, low] = n.to_be_bytes();
    let mut page = [0; 4096];
    put_over(&mut page, 0, &[2, height, high, low]);
    put_over(&mut page, 8, children);
    page
}

/// Whether the first 8 bytes are those of an inner page with the height and the count that stand there.
fn has_inner_head(bytes: &[u8; 4096]) -> bool
    ensures { result ≡ bytes_eq (take 8 bytes.now) (inner_head (slice_index bytes.now 1) (short_at bytes.now 2)) }
{
    if bytes[0] != 2 {
        return false;
    }
    is_clear(bytes, 4, 8)
}

/// Whether the bytes are an inner page that is well formed in a file of `pages` home pages.
pub fn is_inner(bytes: &[u8; 4096], pages: u32) -> bool
    ensures { result ≡ is_some (spec.inner_of pages bytes.now) }
{
    let n = count_in(bytes) as usize;
    let height = bytes[1];
    if height < 2 || 3 < height || n < 2 || MOST_CHILDREN < n {
        return false;
    }
    if !has_inner_head(bytes) {
        return false;
    }
    if !is_clear(bytes, 8 + 4 * n, 1024) {
        return false;
    }
    if !is_clear(bytes, 1024 + 12 * (n - 1), 4096) {
        return false;
    }
    if !children_are_pages(bytes, n, pages) {
        return false;
    }
    keys_ascend(bytes, 1024, 12, n - 1)
}

/// The inner page that the bytes are in a file of `pages` home pages; none where they are not well formed.
pub fn inner_of(bytes: &[u8; 4096], pages: u32) -> Option<InnerPage>
    ensures inner { result ≡ spec.inner_of pages bytes.now }
    ensures children { IfSome result (λ p. are_pages pages p.children ≡ true) }
{
    if !is_inner(bytes, pages) {
        return None;
    }
    Some(InnerPage::from_bytes(*bytes, pages))
}

impl InnerPage {
    /// The page that the bytes are in a file of `pages` home pages, where they are well formed. They are copied less
    /// often than by `inner_of`.
    pub fn from_bytes(bytes: [u8; 4096], pages: u32) -> InnerPage
        requires { is_some (spec.inner_of pages bytes) ≡ true }
        ensures inner { spec.inner_of pages bytes ≡ Some result }
        ensures children { are_pages pages result.children ≡ true }
    {
        InnerPage { bytes }
    }

    /// The page of height 2 or 3 with these two children and the key between them.
    pub fn pair(height: u8, left: u32, key: &Key, right: u32) -> InnerPage
        requires height { (2 ≤ height) × (height ≤ 3) }
        requires children { (1 ≤ left) × (1 ≤ right) }
        ensures { result ≡ record { height = height; children = left ∷ right ∷ []; keys = key.now ∷ [] } }
    {
        let l = left.to_be_bytes();
        let r = right.to_be_bytes();
        let children = [l[0], l[1], l[2], l[3], r[0], r[1], r[2], r[3]];
        let mut page = page_of_children(height, 2, &children);
        put_over(&mut page, 1024, &key_bytes(key));
        InnerPage { bytes: page }
    }

    /// The page's bytes.
    pub fn bytes(&self) -> &[u8; 4096]
        ensures inner { (pages : ℕ) → are_pages pages self.now.children ≡ true → spec.inner_of pages result.now ≡ Some self.now }
        ensures written { result.now ≡ inner_bytes self.now.height self.now.children self.now.keys }
        ensures is { IsInner self.now }
    {
        &self.bytes
    }

    /// The page's height, 2 or 3.
    pub fn height(&self) -> u8
        ensures { result ≡ self.now.height }
    {
        self.bytes[1]
    }

    /// The number of children, from 2 to 254.
    pub fn len(&self) -> usize
        ensures length { result ≡ length self.now.children }
        ensures range { (2 ≤ result) × (result ≤ 254) }
        ensures keys { result ≡ length self.now.keys + 1 }
        ensures is { IsInner self.now }
    {
        count_in(&self.bytes) as usize
    }

    /// The page number of child `i`.
    pub fn child(&self, i: usize) -> u32
        requires { i < length self.now.children }
        ensures child { result ≡ slice_index self.now.children i }
        ensures above { 1 ≤ result }
        ensures is { IsInner self.now }
    {
        word_in(&self.bytes, 8 + 4 * i)
    }

    /// Key `i`, which stands between the children `i` and `i + 1`.
    pub fn key(&self, i: usize) -> Key
        requires { i < length self.now.keys }
        ensures { slice_get self.now.keys i ≡ Some result }
    {
        key_in(&self.bytes, 1024 + 12 * i)
    }

    /// The number of keys that are at most `k`, which is the place of the child under which `k` belongs. It compares
    /// about eight keys.
    pub fn place(&self, k: &Key) -> usize
        ensures place { IsPlace self.now.keys k.now result }
        ensures number { result ≡ count_by (λ l. is_le (key_cmp l k.now)) self.now.keys }
    {
        match find_key(&self.bytes, 1024, 12, self.len() - 1, k) {
            Ok(i) => i + 1,
            Err(i) => i,
        }
    }

    /// Replaces key `i`.
    pub fn set_key(&mut self, i: usize, k: &Key)
        requires place { i < length self.old.keys }
        requires order { is_ascending (slice_set self.old.keys i k.now) ≡ true }
        ensures { self.new ≡ with_key self.old i k.now }
    {
        put_over(&mut self.bytes, 1024 + 12 * i, &key_bytes(k));
    }

    /// Puts a key in at place `i` of the keys, and a child at place `j` of the children.
    fn put_both(&mut self, i: usize, k: &Key, j: usize, child: u32)
        requires room { length self.old.children < 254 }
        requires place { (i < length self.old.children) × (j ≤ length self.old.children) }
        requires child { 1 ≤ child }
        requires order { is_ascending (insert self.old.keys i k.now) ≡ true }
        ensures { self.new ≡ record { height = self.old.height; children = insert self.old.children j child; keys = insert self.old.keys i k.now } }
    {
        let n = self.len();
        put_in(&mut self.bytes, 8 + 4 * j, 8 + 4 * n, &child.to_be_bytes());
        put_in(
            &mut self.bytes,
            1024 + 12 * i,
            1024 + 12 * (n - 1),
            &key_bytes(k),
        );
        set_count(&mut self.bytes, (n + 1) as u16);
    }

    /// Takes key `i` out, and child `j`.
    fn take_both(&mut self, i: usize, j: usize)
        requires left { 2 < length self.old.children }
        requires place { (i < length self.old.keys) × (j < length self.old.children) }
        ensures { self.new ≡ record { height = self.old.height; children = remove self.old.children j; keys = remove self.old.keys i } }
    {
        let n = self.len();
        take_out(&mut self.bytes, 8 + 4 * j, 4, 8 + 4 * n);
        take_out(&mut self.bytes, 1024 + 12 * i, 12, 1024 + 12 * (n - 1));
        set_count(&mut self.bytes, (n - 1) as u16);
    }

    /// Keeps the first `n` children. The others are the answer, beside the key that parts the two.
    fn split_off(&mut self, n: usize) -> (Key, InnerPage)
        requires { (2 ≤ n) × (n + 2 ≤ length self.old.children) }
        ensures left { self.new ≡ first_children n self.old }
        ensures right { result.1 ≡ children_from n self.old }
        ensures key { slice_get self.old.keys (n - 1) ≡ Some result.0 }
        ensures is { IsInner self.old }
    {
        let all = self.len();
        let height = self.height();
        let key = self.key(n - 1);
        let mut page = page_of_children(
            height,
            (all - n) as u16,
            &self.bytes[8 + 4 * n..8 + 4 * all],
        );
        put_over(
            &mut page,
            1024,
            &self.bytes[1024 + 12 * n..1024 + 12 * (all - 1)],
        );
        let right = InnerPage { bytes: page };
        clear(&mut self.bytes, 8 + 4 * n, 8 + 4 * all);
        clear(&mut self.bytes, 1024 + 12 * (n - 1), 1024 + 12 * (all - 1));
        set_count(&mut self.bytes, n as u16);
        (key, right)
    }

    /// Puts key `i` in, and behind it child `i + 1`.
    pub fn insert(&mut self, i: usize, k: &Key, child: u32)
        requires room { length self.old.children < 254 }
        requires place { i < length self.old.children }
        requires child { 1 ≤ child }
        requires order { is_ascending (insert self.old.keys i k.now) ≡ true }
        ensures { self.new ≡ with_child self.old i k.now child }
    {
        self.put_both(i, k, i + 1, child);
    }

    /// Puts key `i` and child `i + 1` into a full page: the first 127 children stay, the other 128 go right, and the
    /// key between them is answered beside the right page.
    pub fn insert_split(&mut self, i: usize, k: &Key, child: u32) -> (Key, InnerPage)
        requires full { length self.old.children ≡ 254 }
        requires place { i < length self.old.children }
        requires child { 1 ≤ child }
        requires order { is_ascending (insert self.old.keys i k.now) ≡ true }
        ensures left { self.new ≡ first_children 127 (with_child self.old i k.now child) }
        ensures right { result.1 ≡ children_from 127 (with_child self.old i k.now child) }
        ensures key { slice_get (insert self.old.keys i k.now) 126 ≡ Some result.0 }
    {
        if i < 126 {
            let (key, right) = self.split_off(126);
            self.insert(i, k, child);
            (key, right)
        } else if i == 126 {
            let (key, mut right) = self.split_off(LEAST_CHILDREN);
            right.put_both(0, &key, 0, child);
            (*k, right)
        } else {
            let (key, mut right) = self.split_off(LEAST_CHILDREN);
            right.insert(i - LEAST_CHILDREN, k, child);
            (key, right)
        }
    }

    /// Takes out key `i`, and behind it child `i + 1`.
    pub fn remove(&mut self, i: usize)
        requires left { 2 < length self.old.children }
        requires place { i < length self.old.keys }
        ensures { self.new ≡ without_child self.old i }
    {
        let _ = &self.bytes;
        self.take_both(i, i + 1);
    }

    /// Takes over all children of the page to the right, whose bytes stay as they are, with `k` between.
    pub fn join(&mut self, k: &Key, right: &InnerPage)
        requires height { self.old.height ≡ right.now.height }
        requires room { length self.old.children + length right.now.children ≤ 254 }
        requires order { is_ascending (self.old.keys ++ k.now ∷ right.now.keys) ≡ true }
        ensures { self.new ≡ joined self.old k.now right.now }
    {
        let n = self.len();
        let more = right.len();
        put_over(&mut self.bytes, 8 + 4 * n, &right.bytes[8..8 + 4 * more]);
        put_over(&mut self.bytes, 1024 + 12 * (n - 1), &key_bytes(k));
        put_over(
            &mut self.bytes,
            1024 + 12 * n,
            &right.bytes[1024..1024 + 12 * (more - 1)],
        );
        set_count(&mut self.bytes, (n + more) as u16);
    }

    /// Moves the first child of the page to the right here, where `k` parts the two, and answers the key that parts
    /// them now.
    pub fn from_right(&mut self, k: &Key, right: &mut InnerPage) -> Key
        requires height { self.old.height ≡ right.old.height }
        requires room { length self.old.children < 254 }
        requires lender { 127 < length right.old.children }
        requires order { is_ascending (self.old.keys ++ k.now ∷ right.old.keys) ≡ true }
        ensures here { self.new ≡ joined self.old k.now (first_children 1 right.old) }
        ensures there { right.new ≡ children_from 1 right.old }
        ensures key { slice_get right.old.keys 0 ≡ Some result }
    {
        let n = self.len();
        let child = right.child(0);
        let key = right.key(0);
        self.put_both(n - 1, k, n, child);
        right.take_both(0, 0);
        key
    }

    /// Moves the last child of the page to the left here, where `k` parts the two, and answers the key that parts
    /// them now.
    pub fn from_left(&mut self, k: &Key, left: &mut InnerPage) -> Key
        requires height { left.old.height ≡ self.old.height }
        requires room { length self.old.children < 254 }
        requires lender { 127 < length left.old.children }
        requires order { is_ascending (left.old.keys ++ k.now ∷ self.old.keys) ≡ true }
        ensures here { self.new ≡ joined (children_from (length left.old.children - 1) left.old) k.now self.old }
        ensures there { left.new ≡ first_children (length left.old.children - 1) left.old }
        ensures key { slice_get left.old.keys (length left.old.keys - 1) ≡ Some result }
    {
        let last = left.len() - 1;
        let child = left.child(last);
        let key = left.key(last - 1);
        let _ = &self.bytes;
        self.put_both(0, k, 0, child);
        left.take_both(last - 1, last);
        key
    }
}

ghost use Rattle.std.specs.Prelude.{◌≡◌, ◌+◌, ◌-◌, ◌*◌, ◌≤◌, ◌<◌, map, replicate};
ghost use Rattle.std.specs.List.{range_with_len};

use crate::bytes;
use crate::bytes::{laid, lay, swap};
use quilt_node::{
    Head, InnerPage, LeafPage, child_count_in, child_in, find_in, header_bytes, header_of,
    inner_of, is_inner, is_leaf, leaf_of, place_in, rec_in, records_in,
};
use quilt_record::{Key, Record};

const CATALOG: Key = Key {
    layer: 0,
    part: 0,
    code: 0,
    depth: 0,
    item: 1,
};

const BLOCK: Key = Key {
    layer: 1,
    part: 1,
    code: 25,
    depth: 3,
    item: 0,
};

const HEAD: Head = Head {
    format: 1,
    edition: 258,
    level: 3,
    root: 17,
    height: 1,
    records: 2,
};

/// The bytes of that header.
static HEADER: [u8; 25] = *b"QHDR\0\0\0\x01\0\0\x01\x02\x03\x01\0\0\0\0\0\x11\0\0\0\x02\0";

/// Numbers of a format, how many pages a file has, and the format that its header is then read with, if it is read.
static FORMATS: [([u8; 2], u32, Option<u8>); 6] = [
    ([0, 1], 18, Some(1)),
    ([0, 1], 17, None),
    ([0, 2], 18, Some(2)),
    ([0, 3], 18, None),
    ([0, 0], 18, None),
    ([1, 1], 18, None),
];

/// Whether the page is read as the header with another format, or as none.
fn reads_head(page: &[u8; 4096], pages: u32, format: Option<u8>) -> bool {
    match (header_of(page, pages), format) {
        (Some(head), Some(format)) => head == Head { format, ..HEAD },
        (None, None) => true,
        _ => false,
    }
}

/// Whether the page is the header's, and is read as the table says with other numbers of the format.
fn is_header(page: &[u8; 4096]) -> bool {
    let mut other = *page;
    for (number, pages, format) in &FORMATS {
        lay(&mut other, 6, number);
        if !reads_head(&other, *pages, *format) {
            return false;
        }
    }
    page.starts_with(&HEADER)
}

#[test]
fn header_byte_by_byte(rt: HostRuntime) {
    let page = header_bytes(&HEAD);
    assert!(rt; is_header(&page));
}

/// A record of the catalog, and one of a block.
const NAME: Record = Record {
    key: CATALOG,
    value: *b"a\0\0\0\0\0\0\0\0\0\0\0\x01\0\0\0",
};

const COLOUR: Record = Record {
    key: BLOCK,
    value: *b"\x07\0\0\0\0\0\0\0\0\0\0\0\0\0\0\0",
};

/// The bytes of the leaf of these two that are not zero: those of its head, and of each key and value.
static LEAF: [(usize, u8); 11] = [
    (0, 1),
    (1, 1),
    (3, 2),
    (75, 1),
    (76, b'a'),
    (88, 1),
    (93, 1),
    (94, 1),
    (98, 25),
    (99, 3),
    (104, 7),
];

/// The leaf of these two.
fn two_records() -> LeafPage {
    let mut leaf = LeafPage::one(&NAME);
    leaf.insert(1, &COLOUR);
    leaf
}

/// Whether a leaf has these bytes.
fn is_spelled(leaf: &LeafPage, page: &[u8; 4096]) -> bool {
    leaf.bytes() == page
}

/// Where a key is in a leaf, or where it would be put.
fn place_of(leaf: &LeafPage, k: &Key) -> Result<usize, usize> {
    leaf.find(k)
}

/// The record at a place of a leaf.
fn record_at(leaf: &LeafPage, i: usize) -> Option<Record> {
    if i < leaf.len() {
        Some(leaf.rec(i))
    } else {
        None
    }
}

/// Takes a record out of a leaf, in which another one has to stay.
fn takes_out(leaf: &mut LeafPage, i: usize) -> bool {
    let n = leaf.len();
    if 1 < n && i < n {
        leaf.remove(i);
        true
    } else {
        false
    }
}

/// Whether the bytes are read as a leaf.
fn reads_leaf(page: &[u8; 4096]) -> bool {
    leaf_of(page).is_some()
}

#[test]
fn leaf_byte_by_byte(rt: HostRuntime) {
    let mut leaf = two_records();
    assert!(rt; is_spelled(&leaf, &laid(&LEAF)));
    assert!(rt; place_of(&leaf, &BLOCK) == Ok(1));
    assert!(rt; record_at(&leaf, 1) == Some(COLOUR));
    assert!(rt; takes_out(&mut leaf, 0));
    assert!(rt; place_of(&leaf, &CATALOG) == Err(0));
}

#[test]
fn leaf_is_read(rt: HostRuntime) {
    let mut page = laid(&LEAF);
    assert!(rt; reads_leaf(&page));
    swap(&mut page, 4095, 1);
    assert!(rt; !reads_leaf(&page));
}

/// The bytes of an inner page.
fn inner_bytes(inner: &InnerPage) -> [u8; 4096] {
    *inner.bytes()
}

/// The last child of an inner page that has three, and the key before it.
fn third_of(inner: &InnerPage) -> Option<(u32, Key)> {
    if inner.len() == 3 {
        Some((inner.child(2), inner.key(1)))
    } else {
        None
    }
}

/// The place of the child under which a key belongs.
fn under(inner: &InnerPage, k: &Key) -> usize {
    inner.place(k)
}

/// Whether the bytes are read as an inner page of a file of so many pages.
fn reads_inner(page: &[u8; 4096], pages: u32) -> bool {
    inner_of(page, pages).is_some()
}

/// The inner page of the children 5, 7 and 6.
fn three_children() -> InnerPage {
    let mut inner = InnerPage::pair(2, 5, &CATALOG, 6);
    inner.insert(1, &BLOCK, 7);
    inner
}

#[test]
fn inner_page_with_two_children(rt: HostRuntime) {
    let inner = three_children();
    assert!(rt; third_of(&inner) == Some((7, BLOCK)));
    assert!(rt; under(&inner, &BLOCK) == 2);
    let mut page = inner_bytes(&inner);
    assert!(rt; reads_inner(&page, 8));
    assert!(rt; !reads_inner(&page, 7));
    swap(&mut page, 1, 4);
    assert!(rt; !reads_inner(&page, 8));
}

/// The key of a segment.
fn key(item: u32) -> Key
    ensures { result ≡ record { layer = 1; part = 4; code = 0; depth = 0; item = item } }
{
    Key {
        layer: 1,
        part: 4,
        code: 0,
        depth: 0,
        item,
    }
}

/// A record with this key.
fn row(item: u32) -> Record
    ensures { result ≡ record { key = record { layer = 1; part = 4; code = 0; depth = 0; item = item }; value = replicate 16 7 } }
{
    Record {
        key: key(item),
        value: [7; 16],
    }
}

/// The leaf of the `n` records whose items are twice the numbers from `first` on.
fn leaf_from(first: u32, n: u32) -> LeafPage
    requires few { (1 ≤ n) × (n ≤ 144) }
    requires low { first ≤ 1000 }
    ensures { result ≡ map (λ i. record { key = record { layer = 1; part = 4; code = 0; depth = 0; item = 2 * i }; value = replicate 16 7 })
        (range_with_len first n) }
{
    let mut leaf = LeafPage::one(&row(2 * first));
    for i in 1..n {
        leaf.insert(i as usize, &row(2 * (first + i)));
    }
    leaf
}

/// The bytes of that leaf.
fn leaf_spelled(first: u32, n: u8) -> [u8; 4096] {
    bytes::leaf(first.wrapping_mul(2), 2, n)
}

/// Whether a leaf has those bytes.
fn spells_leaf(leaf: &LeafPage, first: u32, n: u8) -> bool {
    is_spelled(leaf, &leaf_spelled(first, n))
}

/// The inner page of the `n` children behind the page `first`, with twice the number of each child but the last as the
/// item of the key behind it.
fn inner_from(first: u32, n: u32) -> InnerPage
    requires few { (2 ≤ n) × (n ≤ 254) }
    requires low { first ≤ 1000 }
    ensures { result ≡ record {
      height = 2;
      children = range_with_len (first + 1) n;
      keys = map (λ i. record { layer = 1; part = 4; code = 0; depth = 0; item = 2 * i }) (range_with_len (first + 1) (n - 1));
    } }
{
    let mut inner = InnerPage::pair(2, first + 1, &key(2 * (first + 1)), first + 2);
    for i in 2..n {
        inner.insert((i - 1) as usize, &key(2 * (first + i)), first + i + 1);
    }
    inner
}

/// The bytes of that inner page.
fn inner_spelled(first: u32, n: u8) -> [u8; 4096] {
    bytes::inner(2, first.wrapping_add(1), n, first.wrapping_mul(2), 2)
}

/// Whether an inner page has those bytes.
fn spells_inner(inner: &InnerPage, first: u32, n: u8) -> bool {
    *inner.bytes() == inner_spelled(first, n)
}

#[test]
fn a_full_leaf_is_split(rt: HostRuntime) {
    let mut low = leaf_from(1, 144);
    let high = low.insert_split(0, &row(0));
    assert!(rt; spells_leaf(&low, 0, 72));
    assert!(rt; spells_leaf(&high, 72, 73));
    let mut low = leaf_from(0, 144);
    let high = low.insert_split(144, &row(288));
    assert!(rt; spells_leaf(&low, 0, 72));
    assert!(rt; spells_leaf(&high, 72, 73));
}

#[test]
fn a_record_goes_from_a_leaf(rt: HostRuntime) {
    let mut leaf = leaf_from(0, 3);
    leaf.remove(2);
    assert!(rt; spells_leaf(&leaf, 0, 2));
    leaf.remove(0);
    assert!(rt; spells_leaf(&leaf, 1, 1));
}

#[test]
fn leaves_are_joined(rt: HostRuntime) {
    let mut leaf = leaf_from(0, 71);
    let right = leaf_from(71, 72);
    leaf.join(&right);
    assert!(rt; spells_leaf(&leaf, 0, 143));
    assert!(rt; spells_leaf(&right, 71, 72));
}

#[test]
fn leaves_lend_a_record(rt: HostRuntime) {
    let mut leaf = leaf_from(0, 71);
    let mut right = leaf_from(71, 73);
    leaf.from_right(&mut right);
    assert!(rt; spells_leaf(&leaf, 0, 72));
    assert!(rt; spells_leaf(&right, 72, 72));
    let mut left = leaf_from(0, 73);
    let mut leaf = leaf_from(73, 71);
    leaf.from_left(&mut left);
    assert!(rt; spells_leaf(&left, 0, 72));
    assert!(rt; spells_leaf(&leaf, 72, 72));
}

#[test]
fn children_come_and_go(rt: HostRuntime) {
    let mut inner = InnerPage::pair(2, 1, &key(4), 3);
    inner.insert(0, &key(2), 2);
    assert!(rt; spells_inner(&inner, 0, 3));
    inner.remove(1);
    assert!(rt; spells_inner(&inner, 0, 2));
    inner.set_key(0, &key(3));
    let mut page = inner_spelled(0, 2);
    swap(&mut page, 1035, 3);
    assert!(rt; inner_bytes(&inner) == page);
}

#[test]
fn a_full_inner_page_is_split(rt: HostRuntime) {
    let mut inner = inner_from(0, 254);
    let (separator, right) = inner.insert_split(253, &key(508), 255);
    assert!(rt; separator == key(254));
    assert!(rt; spells_inner(&inner, 0, 127));
    assert!(rt; spells_inner(&right, 127, 128));
}

#[test]
fn a_full_inner_page_is_split_at_its_start(rt: HostRuntime) {
    let mut inner = inner_from(1, 254);
    let (separator, right) = inner.insert_split(0, &key(2), 1);
    assert!(rt; separator == key(254));
    let mut page = inner_spelled(0, 127);
    swap(&mut page, 11, 2);
    swap(&mut page, 15, 1);
    assert!(rt; inner_bytes(&inner) == page);
    assert!(rt; spells_inner(&right, 127, 128));
}

#[test]
fn a_full_inner_page_is_split_at_its_middle(rt: HostRuntime) {
    let mut inner = inner_from(0, 254);
    let (separator, right) = inner.insert_split(126, &key(253), 255);
    assert!(rt; separator == key(253));
    assert!(rt; spells_inner(&inner, 0, 127));
    let mut page = inner_spelled(126, 128);
    swap(&mut page, 11, 255);
    assert!(rt; inner_bytes(&right) == page);
}

#[test]
fn inner_pages_are_joined(rt: HostRuntime) {
    let mut inner = inner_from(0, 127);
    let right = inner_from(127, 127);
    inner.join(&key(254), &right);
    assert!(rt; spells_inner(&inner, 0, 254));
    assert!(rt; spells_inner(&right, 127, 127));
}

#[test]
fn inner_pages_lend_a_child(rt: HostRuntime) {
    let mut inner = inner_from(0, 126);
    let mut right = inner_from(126, 128);
    let separator = inner.from_right(&key(252), &mut right);
    assert!(rt; separator == key(254));
    assert!(rt; spells_inner(&inner, 0, 127));
    assert!(rt; spells_inner(&right, 127, 127));
    let mut left = inner_from(0, 128);
    let mut inner = inner_from(128, 126);
    let separator = inner.from_left(&key(256), &mut left);
    assert!(rt; separator == key(254));
    assert!(rt; spells_inner(&left, 0, 127));
    assert!(rt; spells_inner(&inner, 127, 127));
}

const ABOVE_ALL: Key = Key {
    layer: u16::MAX,
    part: u8::MAX,
    code: u32::MAX,
    depth: u8::MAX,
    item: u32::MAX,
};

/// A key of which the item alone is not zero.
fn item_key(item: u32) -> Key {
    Key {
        layer: 0,
        part: 0,
        code: 0,
        depth: 0,
        item,
    }
}

/// Whether the keys with these items are, or would be put, at these places of a leaf.
fn finds(page: &[u8; 4096], places: &[(u32, Result<usize, usize>)]) -> bool {
    for (item, place) in places {
        if find_in(page, &item_key(*item)) != *place {
            return false;
        }
    }
    true
}

/// Whether the keys with these items belong under these children of an inner page.
fn places(page: &[u8; 4096], children: &[(u32, usize)]) -> bool {
    for (item, child) in children {
        if place_in(page, &item_key(*item)) != *child {
            return false;
        }
    }
    true
}

/// The number of records of a leaf.
fn count(page: &[u8; 4096]) -> usize {
    records_in(page)
}

/// The key of a record of a leaf.
fn key_at(page: &[u8; 4096], i: usize) -> Option<Key> {
    if i < 144 {
        Some(rec_in(page, i).key)
    } else {
        None
    }
}

/// A child of an inner page.
fn child_at(page: &[u8; 4096], i: usize) -> Option<u32> {
    if i < 254 {
        Some(child_in(page, i))
    } else {
        None
    }
}

/// A leaf by its bytes that are not zero, the number of its records, and keys by their items with the places at which they are, or
/// would be put.
type Leaf = (
    &'static [(usize, u8)],
    usize,
    &'static [(u32, Result<usize, usize>)],
);

static LEAVES: [Leaf; 4] = [
    // A leaf of three records.
    (
        &[(0, 1), (1, 1), (3, 3), (75, 5), (103, 7), (131, 9)],
        3,
        &[
            (4, Err(0)),
            (5, Ok(0)),
            (7, Ok(1)),
            (8, Err(2)),
            (10, Err(3)),
        ],
    ),
    // Keys out of order.
    (
        &[(0, 1), (1, 1), (3, 3), (75, 9), (103, 5), (131, 7)],
        3,
        &[(5, Ok(1)), (9, Err(3)), (4, Err(0))],
    ),
    // A count beyond a leaf is cut.
    (&[(0, 1), (1, 1), (3, 145)], 144, &[(1, Err(144))]),
    (&[(0, 1), (1, 1)], 0, &[(0, Err(0))]),
];

#[test]
fn leaves_are_searched(rt: HostRuntime) {
    for (bytes, records, places) in &LEAVES {
        let page = laid(bytes);
        assert!(rt; count(&page) == *records);
        assert!(rt; finds(&page, places));
    }
}

#[test]
fn keys_of_a_leaf_are_read(rt: HostRuntime) {
    let page = laid(LEAVES[0].0);
    assert!(rt; key_at(&page, 2) == Some(item_key(9)));
    assert!(rt; key_at(&page, 143) == Some(item_key(0)));
}

#[test]
fn a_leaf_of_ones_is_searched(rt: HostRuntime) {
    let page = [0xff; 4096];
    assert!(rt; count(&page) == 144);
    assert!(rt; finds(&page, &[(1, Err(0))]));
    assert!(rt; find_in(&page, &ABOVE_ALL) == Ok(72));
    assert!(rt; key_at(&page, 143) == Some(ABOVE_ALL));
}

#[test]
fn an_inner_page_of_ones_is_searched(rt: HostRuntime) {
    let page = [0xff; 4096];
    assert!(rt; child_count_in(&page) == 254);
    assert!(rt; places(&page, &[(1, 0)]));
    assert!(rt; place_in(&page, &ABOVE_ALL) < 254);
    assert!(rt; child_at(&page, 253) == Some(u32::MAX));
}

/// The bytes of the children 4, 5 and 6 and of the keys 5 and 9, and the head of an inner page but for the count.
static INNER: [(usize, u8); 7] = [
    (0, 2),
    (1, 2),
    (11, 4),
    (15, 5),
    (19, 6),
    (1035, 5),
    (1047, 9),
];

#[test]
fn an_inner_page_is_searched(rt: HostRuntime) {
    let mut page = laid(&INNER);
    swap(&mut page, 3, 3);
    assert!(rt; child_count_in(&page) == 3);
    assert!(rt; places(&page, &[(4, 0), (5, 1), (9, 2)]));
    assert!(rt; child_at(&page, 2) == Some(6));
    swap(&mut page, 3, 1);
    assert!(rt; places(&page, &[(9, 0)]));
}

/// Places of a leaf of 143 records with other bytes, and whether it is a leaf then.
static LEAF_BYTES: [(usize, u8, bool); 12] = [
    (0, 2, false),
    (2, 1, false),
    (3, 0, false),
    (3, 144, false),
    (3, 145, false),
    (4, 1, false),
    (63, 1, false),
    (64 + 28 * 143, 1, false),
    (4095, 1, false),
    // The second key becomes the first, and then less than it.
    (64 + 28 + 11, 0, false),
    (64 + 28 + 2, 3, false),
    (64 + 28 + 11, 3, true),
];

#[test]
fn a_leaf_is_refused_by_one_byte(rt: HostRuntime) {
    let mut page = leaf_spelled(0, 143);
    assert!(rt; is_leaf(&page));
    for (at, byte, is) in &LEAF_BYTES {
        let old = swap(&mut page, *at, *byte);
        assert!(rt; is_leaf(&page) == *is, "{byte} at {at}");
        swap(&mut page, *at, old);
    }
    assert!(rt; !is_leaf(&[0xff; 4096]));
}

/// Places of an inner page of 253 children with other bytes, and whether it is an inner page of a file of 1,000 pages then.
static INNER_BYTES: [(usize, u8, bool); 11] = [
    (0, 1, false),
    (1, 1, false),
    (2, 1, false),
    (3, 255, false),
    (7, 1, false),
    (11, 0, false),
    (1020, 1, false),
    (1023, 1, false),
    (1024 + 12 * 252, 1, false),
    (1024 + 12 + 11, 2, false),
    (1, 3, true),
];

#[test]
fn an_inner_page_is_refused_by_one_byte(rt: HostRuntime) {
    let mut page = inner_spelled(0, 253);
    assert!(rt; is_inner(&page, 254));
    assert!(rt; !is_inner(&page, 253));
    for (at, byte, is) in &INNER_BYTES {
        let old = swap(&mut page, *at, *byte);
        assert!(rt; is_inner(&page, 1000) == *is, "{byte} at {at}");
        swap(&mut page, *at, old);
    }
    assert!(rt; !is_inner(&[0xff; 4096], u32::MAX));
}

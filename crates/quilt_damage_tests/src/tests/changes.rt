use super::drawing::Draw;
use super::writing::{Tree, put, short_bytes, write_leaf};
use quilt_plain_pages::{Page, byte, offset, record, short, word};
use quilt_record::Record;
use std::alloc::{AllocError, Global};

/// What is changed in a map.
#[derive(Clone, Copy, Debug, PartialEq, Eq)]
pub enum Change {
    Nothing,
    /// One of its records, before they are written as a tree.
    Spelling,
    /// One byte of a page.
    Byte,
    /// One record of a leaf, or a part of an inner page.
    Record,
    /// A leaf as a whole, or a part of an inner page, or a page that is another's copy.
    Page,
}

/// One change of a drawn kind: nothing or the spelling in one of four maps, one byte, one record or one page in each other.
pub fn drawn_change(draw: &mut Draw) -> Change {
    match draw.below(8) {
        0 => Change::Nothing,
        1 => Change::Spelling,
        2..=3 => Change::Byte,
        4..=5 => Change::Record,
        _ => Change::Page,
    }
}

/// Changes one part of the record: a byte of its value, or a number of its key.
fn change_part(draw: &mut Draw, r: &mut Record) {
    let by = draw.bit();
    match draw.below(5) {
        0 => r.key.item = r.key.item.wrapping_add(u32::from(by)),
        1 => r.key.code ^= u32::from(by),
        2 => r.key.depth ^= by,
        3 => r.key.part ^= by,
        _ => {
            if let Some(b) = r.value.get_mut(draw.place(16)) {
                *b ^= by;
            }
        }
    }
}

/// Changes one record, drops one, or adds one behind another with its value; their keys may then not ascend.
pub fn change_spelling(draw: &mut Draw, records: &mut Vec<Record>) -> Result<(), AllocError> {
    let at = draw.place(records.len());
    let kind = draw.below(4);
    if at >= records.len() {
        return Ok(());
    }
    match kind {
        0 => {
            let _gone = records.remove(at);
        }
        1 => {
            let mut twice = records[at];
            twice.key.item = twice.key.item.wrapping_add(1);
            records.insert(at + 1, twice)?;
        }
        _ => change_part(draw, &mut records[at]),
    }
    Ok(())
}

/// A place in a page: one of its head, of the first of its children or its keys, or any.
fn drawn_place(draw: &mut Draw) -> usize {
    match draw.below(5) {
        0 => draw.place(8),
        1 => draw.place(64),
        2 => offset(8, draw.place(64), 4),
        3 => offset(1024, draw.place(1000), 1),
        _ => draw.place(4096),
    }
}

/// Changes one bit of the byte at a place, where it is one of the page.
fn change_bit(draw: &mut Draw, page: &mut Page, at: usize) {
    let by = draw.bit();
    if let Some(b) = page.get_mut(at) {
        *b ^= by;
    }
}

/// The first records of a leaf page.
fn first_records(alloc: Global, page: &Page, count: usize) -> Result<Vec<Record>, AllocError> {
    let mut records = Vec::new(alloc);
    for i in 0..count {
        records.push(record(page, offset(64, i, 28)))?;
    }
    Ok(records)
}

/// One record goes, one comes twice, or two change places.
fn reorder(draw: &mut Draw, records: &mut Vec<Record>) -> Result<(), AllocError> {
    let i = draw.place(records.len());
    let j = draw.place(records.len());
    if i >= records.len() || j >= records.len() {
        return Ok(());
    }
    match draw.below(3) {
        0 => {
            let _gone = records.remove(i);
        }
        1 => {
            if records.len() < 144 {
                records.insert(i, records[i])?;
            }
        }
        _ => records.swap(i, j),
    }
    Ok(())
}

/// Changes one record of a leaf: a byte of its key or of all of it, or it goes, or comes twice, or changes its place.
fn change_record(alloc: Global, draw: &mut Draw, page: &mut Page) -> Result<(), AllocError> {
    let count = usize::from(short(page, 2));
    let at = offset(64, draw.place(count), 28);
    match draw.below(4) {
        0 => {
            let i = draw.place(12);
            change_bit(draw, page, at.wrapping_add(i));
        }
        1 => {
            let i = draw.place(28);
            change_bit(draw, page, at.wrapping_add(i));
        }
        _ => {
            let mut records = first_records(alloc, page, count)?;
            reorder(draw, &mut records)?;
            write_leaf(page, &records);
        }
    }
    Ok(())
}

/// Changes the item of one of the keys of an inner page by one. A key that was the least under its child is then out of its bounds,
/// as is one that was the greatest before its child.
fn change_key(draw: &mut Draw, page: &mut Page, count: usize) {
    let at = offset(1032, draw.place(count.saturating_sub(1)), 12);
    let by = if draw.below(2) == 0 { 1 } else { u32::MAX };
    let item = word(page, at).wrapping_add(by);
    put(page, at, &item.to_be_bytes());
}

/// Writes zeros from a place of a page up to another.
fn clear(page: &mut Page, from: usize, to: usize) {
    for at in from..to {
        put(page, at, &[0]);
    }
}

/// Takes the last children of an inner page away, so that 126 or 127 are left, or one fewer than there were.
fn cut_inner(draw: &mut Draw, page: &mut Page, count: usize) {
    let left = draw
        .place(2)
        .saturating_add(126)
        .min(count.saturating_sub(1));
    put(page, 2, &short_bytes(left));
    clear(page, offset(8, left, 4), 1024);
    clear(page, offset(1012, left, 12), 4096);
}

/// Changes one child of an inner page, or lets two change places.
fn change_child(draw: &mut Draw, page: &mut Page, count: usize, other: u32) {
    let i = offset(8, draw.place(count), 4);
    let j = offset(8, draw.place(count), 4);
    let at_i = word(page, i);
    let at_j = word(page, j);
    match draw.below(5) {
        0 => {
            put(page, i, &at_j.to_be_bytes());
            put(page, j, &at_i.to_be_bytes());
        }
        1..=2 => put(page, i, &at_j.to_be_bytes()),
        3 => put(page, i, &draw.below(1000).to_be_bytes()),
        _ => put(page, i, &other.to_be_bytes()),
    }
}

/// Changes an inner page: its height, a key, the number of its children, or one of these.
fn change_inner(draw: &mut Draw, page: &mut Page, other: u32) {
    let count = usize::from(short(page, 2));
    match draw.below(8) {
        0 => put(page, 1, &[5_u8.wrapping_sub(byte(page, 1))]),
        1..=3 => change_key(draw, page, count),
        4..=5 => cut_inner(draw, page, count),
        _ => change_child(draw, page, count, other),
    }
}

/// How many records of a leaf are left when the last of them are taken away: often 71 or 72.
fn drawn_cut(draw: &mut Draw, count: usize) -> usize {
    let left = if draw.below(2) == 0 {
        draw.place(2).saturating_add(71)
    } else {
        draw.place(count).saturating_add(1)
    };
    left.min(count)
}

/// Changes a leaf page: it is empty, or ends behind its first records.
fn change_leaf(alloc: Global, draw: &mut Draw, page: &mut Page) -> Result<(), AllocError> {
    if draw.below(3) == 0 {
        *page = [0; 4096];
        return Ok(());
    }
    let left = drawn_cut(draw, usize::from(short(page, 2)));
    let records = first_records(alloc, page, left)?;
    write_leaf(page, &records);
    Ok(())
}

/// Changes one page of a tree in one way.
fn change_page(
    alloc: Global,
    draw: &mut Draw,
    page: &mut Page,
    other: u32,
    change: Change,
) -> Result<(), AllocError> {
    let is_inner = byte(page, 0) == 2;
    match change {
        Change::Nothing | Change::Spelling => Ok(()),
        Change::Byte => {
            let at = drawn_place(draw);
            change_bit(draw, page, at);
            Ok(())
        }
        _ if is_inner => {
            change_inner(draw, page, other);
            Ok(())
        }
        Change::Record => change_record(alloc, draw, page),
        Change::Page => change_leaf(alloc, draw, page),
    }
}

/// Copies a page to the place of another.
fn copy_page(pages: &mut [Page], from: u32, to: u32) {
    let (i, j) = (from as usize, to as usize);
    if i < pages.len() && j < pages.len() {
        pages[j] = pages[i];
    }
}

/// One of the tree's pages: the root in one of four draws, else often one of the four that were written last. In a tree of height 3
/// these are the root and the other inner pages.
fn drawn_page(draw: &mut Draw, tree: &Tree) -> u32 {
    let all = tree.used.len();
    let kind = draw.below(8);
    if kind < 2 {
        return tree.root;
    }
    let few = if tree.height == 3 { 7 } else { 4 };
    let last = draw.place(if kind < few { 4 } else { all });
    let at = all.saturating_sub(last).saturating_sub(1);
    tree.used.get(at).copied().unwrap_or(tree.root)
}

/// Changes one byte, one record or one page of the tree.
pub fn change_tree(
    alloc: Global,
    draw: &mut Draw,
    tree: &mut Tree,
    change: Change,
) -> Result<(), AllocError> {
    let number = drawn_page(draw, tree);
    let other = drawn_page(draw, tree);
    if change == Change::Page && draw.below(4) == 0 {
        copy_page(&mut tree.pages, other, number);
        return Ok(());
    }
    match tree.pages.get_mut(number as usize) {
        None => Ok(()),
        Some(page) => change_page(alloc, draw, page, other, change),
    }
}

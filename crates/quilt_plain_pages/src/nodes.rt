use crate::bytes::{Page, byte, is_zero, key, offset, record, short, word};
use quilt_record::{Key, Record};
use std::alloc::{AllocError, Global};

/// An inner page: its height, the pages of its children, and the keys between these.
#[derive(Drop)]
pub struct Inner {
    pub height: u8,
    pub children: Vec<u32>,
    pub keys: Vec<Key>,
}

/// Whether the keys ascend strictly.
fn ascend(keys: &[Key]) -> bool {
    keys.iter().zip(keys.iter().skip(1)).all(|(a, b)| a < b)
}

/// The keys of the records.
pub fn keys_of(alloc: Global, records: &[Record]) -> Result<Vec<Key>, AllocError> {
    records.iter().map(|r| r.key).collect(alloc)
}

/// Whether all but the records of a page is that of a leaf with so many.
fn is_leaf_frame(page: &Page, many: usize) -> bool {
    byte(page, 0) == 1
        && byte(page, 1) == 1
        && 1 <= many
        && many <= 144
        && is_zero(page, 4, 64)
        && is_zero(page, offset(64, many, 28), 4096)
}

/// The first records that stand in a leaf page.
fn records_in(alloc: Global, page: &Page, many: usize) -> Result<Vec<Record>, AllocError> {
    let mut records = Vec::new(alloc);
    for i in 0..many {
        records.push(record(page, offset(64, i, 28)))?;
    }
    Ok(records)
}

/// The records of a leaf page, if it is well formed.
pub fn leaf_of(alloc: Global, page: &Page) -> Result<Option<Vec<Record>>, AllocError> {
    let many = usize::from(short(page, 2));
    if !is_leaf_frame(page, many) {
        return Ok(None);
    }
    let records = records_in(alloc, page, many)?;
    let keys = keys_of(alloc, &records)?;
    if ascend(&keys) {
        Ok(Some(records))
    } else {
        Ok(None)
    }
}

/// Whether all but the children and the keys of a page is that of an inner page with so many children.
fn is_inner_frame(page: &Page, many: usize) -> bool {
    byte(page, 0) == 2
        && 2 <= byte(page, 1)
        && byte(page, 1) <= 3
        && 2 <= many
        && many <= 254
        && is_zero(page, 4, 8)
        && is_zero(page, offset(8, many, 4), 1024)
        && is_zero(page, offset(1012, many, 12), 4096)
}

/// The first children that stand in an inner page.
fn children_in(alloc: Global, page: &Page, many: usize) -> Result<Vec<u32>, AllocError> {
    let mut children = Vec::new(alloc);
    for i in 0..many {
        children.push(word(page, offset(8, i, 4)))?;
    }
    Ok(children)
}

/// The keys between the first children that stand in an inner page.
fn keys_in(alloc: Global, page: &Page, many: usize) -> Result<Vec<Key>, AllocError> {
    let mut keys = Vec::new(alloc);
    for i in 1..many {
        keys.push(key(page, offset(1012, i, 12)))?;
    }
    Ok(keys)
}

/// What an inner page in a file of so many home pages says, if it is well formed.
pub fn inner_of(alloc: Global, page: &Page, pages: usize) -> Result<Option<Inner>, AllocError> {
    let many = usize::from(short(page, 2));
    if !is_inner_frame(page, many) {
        return Ok(None);
    }
    let children = children_in(alloc, page, many)?;
    let keys = keys_in(alloc, page, many)?;
    let are_pages = children.iter().all(|c| 1 <= *c && (*c as usize) < pages);
    if !are_pages || !ascend(&keys) {
        return Ok(None);
    }
    Ok(Some(Inner {
        height: byte(page, 1),
        children,
        keys,
    }))
}

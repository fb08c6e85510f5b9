use super::drawing::{Draw, shuffled};
use quilt_plain_pages::{Page, offset};
use quilt_record::{Key, Record, key_bytes};
use std::alloc::{AllocError, Global};
use std::test::Fail;

/// A tree that is written into the pages of a file: all pages, those of the tree, its root and its height.
#[derive(Drop)]
pub struct Tree {
    pub pages: Vec<Page>,
    pub used: Vec<u32>,
    pub root: u32,
    pub height: u8,
}

/// A page that was written, and the least key and the greatest key under it.
#[derive(Clone, Copy)]
struct Branch {
    page: u32,
    least: Key,
    greatest: Key,
}

/// What stands in a page that is no page of the tree.
const FREE: Page = [165; 4096];

/// Puts bytes into a page from a place on, as far as the page goes.
pub fn put(page: &mut Page, from: usize, bytes: &[u8]) {
    for (i, b) in bytes.iter().enumerate() {
        if let Some(byte) = page.get_mut(from.wrapping_add(i)) {
            *byte = *b;
        }
    }
}

/// The number as two bytes.
pub fn short_bytes(n: usize) -> [u8; 2] {
    u16::try_from(n).unwrap_or(0).to_be_bytes()
}

/// Writes a leaf page.
pub fn write_leaf(page: &mut Page, records: &[Record]) {
    *page = [0; 4096];
    put(page, 0, &[1, 1]);
    put(page, 2, &short_bytes(records.len()));
    for (i, r) in records.iter().enumerate() {
        put(page, offset(64, i, 28), &key_bytes(&r.key));
        put(page, offset(76, i, 28), &r.value);
    }
}

/// One of the keys that part two branches.
fn parting(draw: &mut Draw, a: &Branch, b: &Branch) -> Key {
    let item = a.greatest.item.wrapping_add(1);
    if item == 0 || draw.below(2) > 0 {
        return b.least;
    }
    Key { item, ..a.greatest }
}

/// Writes the keys between the children of an inner page.
fn put_keys(draw: &mut Draw, page: &mut Page, children: &[Branch]) {
    for (i, (a, b)) in children.iter().zip(children.iter().skip(1)).enumerate() {
        let key = parting(draw, a, b);
        put(page, offset(1024, i, 12), &key_bytes(&key));
    }
}

/// Writes an inner page with these children.
fn write_inner(draw: &mut Draw, page: &mut Page, height: u8, children: &[Branch]) {
    *page = [0; 4096];
    put(page, 0, &[2, height]);
    put(page, 2, &short_bytes(children.len()));
    for (i, c) in children.iter().enumerate() {
        put(page, offset(8, i, 4), &c.page.to_be_bytes());
    }
    put_keys(draw, page, children);
}

/// Where the next page ends that begins at a place of so many: each page holds from `least` up to twice as many.
fn next_end(draw: &mut Draw, begin: usize, all: usize, least: usize) -> usize {
    let left = all.saturating_sub(begin);
    if left <= least.saturating_mul(2) {
        return all;
    }
    let count = least.saturating_add(draw.place(least));
    begin.saturating_add(count.min(left.saturating_sub(least)))
}

/// A file in which a tree is being written, and the pages that are free, in the order in which they are taken.
#[derive(Drop)]
struct Writer {
    pages: Vec<Page>,
    used: Vec<u32>,
    free: Vec<u32>,
}

impl Writer {
    /// A file of so many pages, all free but the first.
    fn new(alloc: Global, draw: &mut Draw, pages: u32) -> Result<Writer, AllocError> {
        let mut all = Vec::new(alloc);
        for _ in 0..pages {
            all.push(FREE)?;
        }
        Ok(Writer {
            pages: all,
            used: Vec::new(alloc),
            free: shuffled(alloc, draw, pages)?,
        })
    }

    /// Takes the next page that is free.
    fn taken(&mut self) -> Result<u32, Fail> {
        let Some(page) = self.free.pop() else {
            return Err(Fail::from("no page is free"));
        };
        self.used.push(page)?;
        Ok(page)
    }

    /// Writes records to one leaf.
    fn leaf(&mut self, records: &[Record]) -> Result<Option<Branch>, Fail> {
        let (Some(first), Some(last)) = (records.first(), records.last()) else {
            return Ok(None);
        };
        let page = self.taken()?;
        if let Some(bytes) = self.pages.get_mut(page as usize) {
            write_leaf(bytes, records);
        }
        Ok(Some(Branch {
            page,
            least: first.key,
            greatest: last.key,
        }))
    }

    /// Writes records to leaves of drawn sizes.
    fn leaves(
        &mut self,
        alloc: Global,
        draw: &mut Draw,
        records: &[Record],
    ) -> Result<Vec<Branch>, Fail> {
        let mut branches = Vec::new(alloc);
        let mut begin = 0_usize;
        for _ in records {
            let end = next_end(draw, begin, records.len(), 72);
            if let Some(branch) = self.leaf(records.get(begin..end).unwrap_or(&[]))? {
                branches.push(branch)?;
            }
            begin = end;
        }
        Ok(branches)
    }

    /// Writes an inner page over branches.
    fn inner(
        &mut self,
        draw: &mut Draw,
        height: u8,
        below: &[Branch],
    ) -> Result<Option<Branch>, Fail> {
        let (Some(first), Some(last)) = (below.first(), below.last()) else {
            return Ok(None);
        };
        let page = self.taken()?;
        if let Some(bytes) = self.pages.get_mut(page as usize) {
            write_inner(draw, bytes, height, below);
        }
        Ok(Some(Branch {
            page,
            least: first.least,
            greatest: last.greatest,
        }))
    }

    /// Writes inner pages of drawn sizes over the branches.
    fn inners(
        &mut self,
        alloc: Global,
        draw: &mut Draw,
        height: u8,
        below: &[Branch],
    ) -> Result<Vec<Branch>, Fail> {
        let mut branches = Vec::new(alloc);
        let mut begin = 0_usize;
        for _ in below {
            let end = next_end(draw, begin, below.len(), 127);
            if let Some(branch) = self.inner(draw, height, below.get(begin..end).unwrap_or(&[]))? {
                branches.push(branch)?;
            }
            begin = end;
        }
        Ok(branches)
    }
}

/// Writes records whose keys ascend as a tree into a file of so many pages.
pub fn write_tree(
    alloc: Global,
    draw: &mut Draw,
    records: &[Record],
    pages: u32,
) -> Result<Tree, Fail> {
    let mut writer = Writer::new(alloc, draw, pages)?;
    let mut branches = writer.leaves(alloc, draw, records)?;
    let mut height = 1;
    for next in 2..4_u8 {
        if branches.len() > 1 {
            branches = writer.inners(alloc, draw, next, &branches)?;
            height = next;
        }
    }
    let Some(top) = branches.first() else {
        return Err(Fail::from("no record"));
    };
    let root = top.page;
    let Writer { pages, used, .. } = writer;
    Ok(Tree {
        pages,
        used,
        root,
        height,
    })
}

//! Trees with one page spoilt, and what each call answers over them.
use crate::bytes::{inner, leaf, swap};
use crate::grown::Grown;
use quilt_btree::{Edit, Tree};
use quilt_plain_pages::put_page;
use quilt_record::{Key, Record};
use quilt_store::{MemStore, PageStore};
use quilt_types::Stop;
use std::alloc::Global;
use std::process::Abort;
use std::test::Fail;

/// How a page is spoilt.
#[derive(Clone, Copy)]
pub enum Spoil {
    /// It has another byte at a place.
    Byte(usize, u8),
    /// It is a leaf of its first record alone.
    First,
    /// All its bytes are 255.
    Ones,
    /// It is a leaf with the records of the first one.
    Leaf,
    /// It is an inner page of height 2.
    Inner,
}

/// A tree with one page spoilt.
#[derive(Drop)]
pub struct Spoilt(Grown);

fn key(item: u32) -> Key {
    Key {
        layer: 1,
        part: 4,
        code: 0,
        depth: 0,
        item,
    }
}

fn record(item: u32) -> Record {
    Record {
        key: key(item),
        value: [7; 16],
    }
}

/// The edit by which the record of an item comes.
fn addition(item: u32) -> Edit {
    Edit::Put {
        record: record(item),
    }
}

/// The edit by which the record of an item goes.
fn removal(item: u32) -> Edit {
    Edit::Remove { key: key(item) }
}

/// Spoils the bytes of a page.
fn change(bytes: &mut [u8; 4096], how: Spoil) {
    match how {
        Spoil::Byte(at, byte) => {
            swap(bytes, at, byte);
        }
        Spoil::First => {
            swap(bytes, 3, 1);
            bytes[92..].fill(0);
        }
        Spoil::Ones => bytes.fill(255),
        Spoil::Leaf => *bytes = leaf(0, 4, 72),
        Spoil::Inner => *bytes = inner(2, 2, 3, 0, 576),
    }
}

/// Spoils a page of the tree in the store.
fn spoil_page(store: &mut MemStore, page: u32, how: Spoil) -> Option<()> {
    if page == 0 || page >= store.pages() || store.is_free(page) {
        return None;
    }
    let mut bytes = [0; 4096];
    store.read(page, &mut bytes).ok()?;
    change(&mut bytes, how);
    store.write(page, &bytes).ok()
}

/// Puts `count` leaves of `n` records into the store, whose first records are 576 from each other.
fn put_leaves(store: &mut MemStore, count: u32, n: u8) -> Option<()> {
    let mut first = 0;
    for _ in 0..count {
        put_page(store, &leaf(first, 4, n))?;
        first = first.wrapping_add(576);
    }
    Some(())
}

/// Puts the pages of a tree of height 2 into the store: the root is page 1, and the pages 2 to 4 are leaves of `n` records.
fn put_two_levels(store: &mut MemStore, n: u8) -> Option<()> {
    put_page(store, &inner(2, 2, 3, 0, 576))?;
    put_leaves(store, 3, n)
}

/// Puts the pages of a tree of height 3 into the store: the root is page 1, the pages 2 and 3 have 127 children each, and the pages
/// from 4 on are leaves of 72 records.
fn put_three_levels(store: &mut MemStore) -> Option<()> {
    put_page(store, &inner(3, 2, 2, 0, 73152))?;
    put_page(store, &inner(2, 4, 127, 0, 576))?;
    put_page(store, &inner(2, 131, 127, 73152, 576))?;
    put_leaves(store, 254, 72)
}

impl Spoilt {
    /// A tree of height 2 in 16 pages, whose leaves have `n` records.
    pub fn of_two_levels(alloc: Global, n: u8, page: u32, how: Spoil) -> Result<Spoilt, Fail> {
        let mut store = MemStore::new(alloc, 16)?;
        put_two_levels(&mut store, n).ok_or("pages of a tree")?;
        spoil_page(&mut store, page, how).ok_or("a page of the tree")?;
        let tree = Tree {
            root: 1,
            height: 2,
            records: 3 * u32::from(n),
        };
        Ok(Spoilt(Grown { store, tree }))
    }

    /// A tree of height 3 in 300 pages.
    pub fn of_three_levels(alloc: Global, page: u32, how: Spoil) -> Result<Spoilt, Fail> {
        let mut store = MemStore::new(alloc, 300)?;
        put_three_levels(&mut store).ok_or("pages of a tree")?;
        spoil_page(&mut store, page, how).ok_or("a page of the tree")?;
        let tree = Tree {
            root: 1,
            height: 3,
            records: 18288,
        };
        Ok(Spoilt(Grown { store, tree }))
    }

    /// Why a range from an item to another stops.
    pub fn range(&mut self, alloc: Global, low: u32, high: u32) -> Option<Stop> {
        self.0.range(alloc, &key(low), &key(high), u32::MAX).err()
    }

    /// Why the insertion of two items stops.
    fn insert_two(&mut self, alloc: Global, first: u32, last: u32) -> Option<Stop> {
        self.0
            .apply(alloc, &[addition(first), addition(last)])
            .err()
    }

    /// Why the removal of two items stops.
    fn remove_two(&mut self, alloc: Global, first: u32, last: u32) -> Option<Stop> {
        self.0.apply(alloc, &[removal(first), removal(last)]).err()
    }

    /// Why a call stops at an item that the tree would have, or inserts one behind it: `get`, `floor`, `range`, `insert`,
    /// `remove`, and `apply` of two that come and of two that go.
    pub fn stops(&mut self, alloc: Global, call: usize, n: u32) -> Option<Stop> {
        match call {
            0 => self.0.get(&key(n)).err(),
            1 => self.0.floor(&key(n)).err(),
            2 => self.range(alloc, n, n.wrapping_add(8)),
            3 => self.0.insert(&record(n.wrapping_add(1))).err(),
            4 => self.0.remove(&key(n)).err(),
            5 => self.insert_two(alloc, n.wrapping_add(1), n.wrapping_add(2)),
            _ => self.remove_two(alloc, n, n.wrapping_add(4)),
        }
    }

    /// Inserts an item, finds it, and removes it.
    pub fn edits(&mut self, rt: &impl Abort, n: u32) -> Result<(), Fail> {
        let k = key(n);
        assert!(rt; self.0.insert(&record(n))?);
        assert!(rt; self.0.get(&k)? == Some([7; 16]));
        assert!(rt; self.0.remove(&k)?);
        assert!(rt; self.0.get(&k)?.is_none());
        Ok(())
    }

    /// Inserts two items, finds the last, and removes both.
    pub fn runs(
        &mut self,
        rt: &impl Abort,
        alloc: Global,
        first: u32,
        last: u32,
    ) -> Result<(), Fail> {
        self.0.apply(alloc, &[addition(first), addition(last)])?;
        assert!(rt; self.0.floor(&key(last))? == Some(record(last)));
        self.0.apply(alloc, &[removal(first), removal(last)])?;
        Ok(())
    }
}

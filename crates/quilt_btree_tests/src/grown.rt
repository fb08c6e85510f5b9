//! A tree over a store in memory. Each call stops with a fault of a device where it may not be made.
ghost use Rattle.std.specs.Prelude.{◌+◌, ◌*◌, ◌-◌, ◌≤◌, IfSome};
ghost use Rattle.quilt_types.specs.Facts.{quota};
ghost use Rattle.quilt_btree.specs.Trees.{IsRooted};

use quilt_btree::{Batch, Cursor, Edit, Tree};
use quilt_record::{Key, Record};
use quilt_store::{MemStore, PageStore};
use quilt_types::Stop;
use std::alloc::Global;

/// A tree and the store that it is in.
#[derive(Drop)]
pub struct Grown {
    pub store: MemStore,
    pub tree: Tree,
}

/// The edits of a run as a batch: none where their keys do not ascend, or no memory is left.
fn batch_of(alloc: Global, run: &[Edit]) -> Option<Batch> {
    let mut batch = Batch::new(alloc);
    for edit in run {
        if !batch.push(*edit).ok()? {
            return None;
        }
    }
    Some(batch)
}

impl Grown {
    /// How many records may be put into the tree, where its numbers are those of one.
    fn room(&self) -> Option<u32>
        ensures rooted { IfSome result (λ n. IsRooted (⟦<MemStore as PageStore>⟧.size self.now.store) self.now.tree) }
        ensures room { IfSome result (λ n. self.now.tree.records + n ≤ quota (⟦<MemStore as PageStore>⟧.size self.now.store)) }
    {
        let pages = self.store.pages();
        if pages < 16 || 30000 < pages {
            return None;
        }
        let most = 64 * (pages - 8);
        let Tree {
            root,
            height,
            records,
        } = self.tree;
        if most < records || 3 < height {
            return None;
        }
        if height == 0 && (root != 0 || records != 0) {
            return None;
        }
        if height > 0 && (root == 0 || pages <= root || records == 0) {
            return None;
        }
        Some(most - records)
    }

    /// Whether the tree has as many records as it may have.
    pub fn is_full(&self) -> bool {
        self.room() == Some(0)
    }

    /// How many pages are free.
    pub fn free_pages(&self) -> u32 {
        self.store.free_pages()
    }

    /// The value of a key.
    pub fn get(&mut self, k: &Key) -> Result<Option<[u8; 16]>, Stop> {
        if self.room().is_none() {
            return Err(Stop::Device);
        }
        self.tree.get(&mut self.store, k)
    }

    /// The record of the greatest key up to this one.
    pub fn floor(&mut self, k: &Key) -> Result<Option<Record>, Stop> {
        if self.room().is_none() {
            return Err(Stop::Device);
        }
        self.tree.floor(&mut self.store, k)
    }

    /// The records from a key to another, this many at most.
    pub fn range(
        &mut self,
        alloc: Global,
        low: &Key,
        high: &Key,
        most: u32,
    ) -> Result<Vec<Record>, Stop> {
        if self.room().is_none() {
            return Err(Stop::Device);
        }
        self.tree.range(alloc, &mut self.store, low, high, most)
    }

    /// Whether a record was put in.
    pub fn insert(&mut self, r: &Record) -> Result<bool, Stop> {
        match self.room() {
            None | Some(0) => Err(Stop::Device),
            Some(_) => self.tree.insert(&mut self.store, r),
        }
    }

    /// Whether the record of a key was taken out.
    pub fn remove(&mut self, k: &Key) -> Result<bool, Stop> {
        if self.room().is_none() {
            return Err(Stop::Device);
        }
        self.tree.remove(&mut self.store, k)
    }

    /// Makes the edits of a run, whose keys have to ascend.
    pub fn apply(&mut self, alloc: Global, run: &[Edit]) -> Result<(), Stop> {
        let batch = batch_of(alloc, run).ok_or(Stop::Device)?;
        match self.room() {
            Some(room) if batch.records_added() <= room as usize => {
                self.tree.apply(&mut self.store, &batch)
            }
            _ => Err(Stop::Device),
        }
    }

    /// How many pages have other bytes behind a run of edits.
    pub fn pages_changed_by(&mut self, alloc: Global, run: &[Edit]) -> Result<u32, Stop> {
        let before = self.copy_pages(alloc).ok_or(Stop::Memory)?;
        self.apply(alloc, run)?;
        let after = self.copy_pages(alloc).ok_or(Stop::Memory)?;
        let changed = before.iter().zip(&after).filter(|(a, b)| a != b).count();
        Ok((changed & 0xffff) as u32)
    }

    /// A page, as it is.
    fn copy_page(&mut self, page: u32) -> Option<[u8; 4096]> {
        if page == 0 || page >= self.store.pages() {
            return None;
        }
        let mut bytes = [0; 4096];
        self.store.read(page, &mut bytes).ok()?;
        Some(bytes)
    }

    /// All pages, as they are.
    fn copy_pages(&mut self, alloc: Global) -> Option<Vec<[u8; 4096]>> {
        let mut all = Vec::new(alloc);
        for page in 1..self.store.pages() {
            all.push(self.copy_page(page)?).ok()?;
        }
        Some(all)
    }

    /// The place behind all records whose keys are below this one.
    pub fn seek(&mut self, k: &Key) -> Result<Cursor, Stop> {
        if self.room().is_none() || self.tree.height == 0 {
            return Err(Stop::Device);
        }
        self.tree.seek(&mut self.store, k)
    }

    /// The next record of a cursor.
    pub fn next(&mut self, c: &mut Cursor) -> Result<Option<Record>, Stop> {
        if self.room().is_none() || self.tree.height == 0 {
            return Err(Stop::Device);
        }
        self.tree.next(&mut self.store, c)
    }

    /// The record before a cursor.
    pub fn previous(&mut self, c: &mut Cursor) -> Result<Option<Record>, Stop> {
        if self.room().is_none() || self.tree.height == 0 {
            return Err(Stop::Device);
        }
        self.tree.previous(&mut self.store, c)
    }
}

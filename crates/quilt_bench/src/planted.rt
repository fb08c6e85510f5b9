ghost use Rattle.std.specs.Prelude.{◌≡◌, ◌≤◌, true};
ghost use Rattle.quilt_types.specs.Plane.{is_window};
ghost use Rattle.quilt_btree.specs.Trees.{IsRooted};

use quilt_audit::audit;
use quilt_btree::{Batch, Cursor, Tree};
use quilt_node::{Head, is_inner, is_leaf};
use quilt_record::{Key, Record};
use quilt_region::plan_rect;
use quilt_store::{MemStore, PageStore};
use quilt_types::{Colour, Stop, Window};
use std::alloc::{AllocError, Global};

/// A tree over a store in memory.
#[derive(Drop)]
pub struct Planted {
    store: MemStore,
    tree: Tree,
    pages: u32,
    ghost least: { 16 ≤ pages },
    ghost most: { pages ≤ 30000 },
    ghost size: { ⟦<MemStore as PageStore>⟧.size store ≡ pages },
    ghost rooted: { IsRooted pages tree },
}

impl Planted {
    /// An empty tree over a store with room for so many records, up to 30000 pages.
    pub fn new(alloc: Global, records: u32) -> Result<Planted, AllocError> {
        let pages = (records / 64 + 16).min(30_000);
        Ok(Planted {
            store: MemStore::new(alloc, pages)?,
            tree: Tree {
                root: 0,
                height: 0,
                records: 0,
            },
            pages,
        })
    }

    /// The tree once a batch of edits is made in it: damage of page 0 where it has no room.
    pub fn changed(self, batch: &Batch) -> Result<Planted, Stop> {
        let Planted {
            mut store,
            mut tree,
            pages,
        } = self;
        let room = (64 * (pages - 8) - tree.records) as usize;
        if room < batch.records_added() {
            return Err(Stop::Damaged { page: 0 });
        }
        tree.apply(&mut store, batch)?;
        Ok(Planted { store, tree, pages })
    }

    /// The number of records.
    pub fn len(&self) -> u32 {
        self.tree.records
    }

    /// The value of the record with this key.
    pub fn get(&mut self, k: &Key) -> Result<Option<[u8; 16]>, Stop> {
        self.tree.get(&mut self.store, k)
    }

    /// The record with the greatest key that is at most this one.
    pub fn floor(&mut self, k: &Key) -> Result<Option<Record>, Stop> {
        self.tree.floor(&mut self.store, k)
    }

    /// A sum of the codes of all records, by a cursor that begins at this key.
    pub fn walk(&mut self, first: &Key) -> Result<u64, Stop> {
        if self.tree.height == 0 {
            return Ok(0);
        }
        let mut cursor = self.tree.seek(&mut self.store, first)?;
        let mut sum = 0_u64;
        for _ in 0..self.tree.records {
            if let Some(r) = self.next(&mut cursor)? {
                sum = sum.wrapping_add(u64::from(r.key.code));
            }
        }
        Ok(sum)
    }

    /// The next record of a cursor.
    fn next(&mut self, cursor: &mut Cursor) -> Result<Option<Record>, Stop> {
        if self.tree.height == 0 {
            return Ok(None);
        }
        self.tree.next(&mut self.store, cursor)
    }

    /// How many records go and come when the pixels of a window of region layer 1 get a colour.
    pub fn rect(&mut self, alloc: Global, level: u8, w: Window, c: Colour) -> Result<u64, Stop>
        requires level { (1 ≤ level) × (level ≤ 12) }
        requires window { is_window level w ≡ true }
    {
        let edits = plan_rect(alloc, &mut self.store, &self.tree, 1, level, w, c)?;
        let gone = edits.remove.records().len() as u64;
        let come = edits.add.records().len() as u64;
        Ok(gone.wrapping_add(come))
    }

    /// How many layers the map of this level has that the tree spells.
    pub fn audit(&mut self, alloc: Global, level: u8) -> Result<u64, Stop>
        requires { (1 ≤ level) × (level ≤ 12) }
    {
        let head = Head {
            format: 2,
            edition: 1,
            level,
            root: self.tree.root,
            height: self.tree.height,
            records: self.tree.records,
        };
        let survey = audit(alloc, &mut self.store, &head, self.pages)?;
        Ok(survey.catalog.entries().len() as u64)
    }

    /// How many pages are well formed, of those in use.
    pub fn well_formed(&mut self) -> u64 {
        let mut bytes = [0; 4096];
        let mut count = 0_u64;
        for page in 1..self.pages {
            count = count.wrapping_add(u64::from(self.is_well_formed(page, &mut bytes)));
        }
        count
    }

    /// Whether the page is in use and well formed. It is read into the buffer.
    fn is_well_formed(&mut self, page: u32, bytes: &mut [u8; 4096]) -> bool {
        if page == 0 || self.pages <= page || self.store.is_free(page) {
            return false;
        }
        self.store.read(page, bytes).is_ok() && (is_leaf(bytes) || is_inner(bytes, self.pages))
    }
}

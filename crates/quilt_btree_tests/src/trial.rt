use crate::grown::Grown;
use quilt_btree::{Edit, Tree};
use quilt_node::{InnerPage, inner_of};
use quilt_record::{Key, Record};
use quilt_store::{MemStore, PageStore};
use quilt_types::Stop;
use std::alloc::{AllocError, Global};
use std::collections::BTreeMap;
use std::process::Abort;
use std::test::Fail;

/// A tree over a store in memory, and the ordered map that it is compared with.
#[derive(Drop)]
pub struct Trial {
    pub grown: Grown,
    expected: BTreeMap<u32, u8>,
    pages: u32,
}

/// The next of pseudo-random numbers by a linear congruence, and its upper bits below the bound.
pub fn draw(seed: &mut u64, bound: u32) -> u32 {
    *seed = seed
        .wrapping_mul(6364136223846793005)
        .wrapping_add(1442695040888963407);
    ((*seed >> 33) as u32).checked_rem(bound).unwrap_or(0)
}

/// The key with this code.
fn key(n: u32) -> Key {
    Key {
        layer: 1,
        part: 1,
        code: n,
        depth: 3,
        item: 0,
    }
}

/// The record of the key with this code, with a value of one byte.
fn record(n: u32, value: u8) -> Record {
    Record {
        key: key(n),
        value: [value; 16],
    }
}

/// The inner page at a page.
fn inner_at(store: &mut MemStore, page: u32) -> Option<InnerPage> {
    let pages = store.pages();
    if page == 0 || page >= pages {
        return None;
    }
    let mut bytes = [0; 4096];
    store.read(page, &mut bytes).ok()?;
    inner_of(&bytes, pages)
}

/// How many children an inner page has.
fn children(inner: &InnerPage) -> usize {
    inner.len()
}

/// The page of a child of an inner page.
fn child(inner: &InnerPage, i: usize) -> Option<u32> {
    if i < inner.len() {
        Some(inner.child(i))
    } else {
        None
    }
}

/// How many pages the tree uses, by its inner pages.
fn count_pages(store: &mut MemStore, tree: &Tree) -> Option<usize> {
    if tree.height <= 1 {
        return Some(usize::from(tree.height));
    }
    let root = inner_at(store, tree.root)?;
    let mut count = children(&root).wrapping_add(1);
    if tree.height == 2 {
        return Some(count);
    }
    for i in 0..children(&root) {
        let page = inner_at(store, child(&root, i)?)?;
        count = count.wrapping_add(children(&page));
    }
    Some(count)
}

/// The first of some numbers, how far they are from each other, and how many they are.
pub type Numbers = (u32, u32, u32);

/// The edits by which the records of these numbers come, all with one value.
pub fn puts_of(alloc: Global, numbers: Numbers, value: u8) -> Result<Vec<Edit>, AllocError> {
    let (mut n, step, count) = numbers;
    let mut run = Vec::new(alloc);
    for _ in 0..count {
        let record = record(n, value);
        run.push(Edit::Put { record })?;
        n = n.wrapping_add(step);
    }
    Ok(run)
}

/// The edits by which the records of these numbers go.
fn removals_of(alloc: Global, numbers: Numbers) -> Result<Vec<Edit>, AllocError> {
    let (mut n, step, count) = numbers;
    let mut run = Vec::new(alloc);
    for _ in 0..count {
        run.push(Edit::Remove { key: key(n) })?;
        n = n.wrapping_add(step);
    }
    Ok(run)
}

/// What is done with a tree and the map beside it, or has to hold then.
#[derive(Clone, Copy)]
pub enum Step {
    /// The records of these numbers come at once, with this value.
    Come(Numbers, u8),
    /// They go at once.
    Go(Numbers),
    /// All records go at once.
    AllGo,
    /// These can not come at once: one of them is there.
    Clash(Numbers),
    /// These can not go at once: one of them is missing.
    Lack(Numbers),
    /// The tree and the map have the same records, and the same of this number and before it.
    Same(u32),
    /// The tree has this height and so many records.
    Has(u8, u32),
    /// At least and at most so many pages are free.
    Free(u32, u32),
}

impl Trial {
    /// An empty tree over this many pages.
    pub fn new(alloc: Global, pages: u32) -> Result<Trial, Fail> {
        if pages < 16 || 30000 < pages {
            return Err(Fail::from("16 to 30,000 pages"));
        }
        let store = MemStore::new(alloc, pages)?;
        let tree = Tree {
            root: 0,
            height: 0,
            records: 0,
        };
        Ok(Trial {
            grown: Grown { store, tree },
            expected: BTreeMap::new(alloc),
            pages,
        })
    }

    /// Puts a record into both, unless the tree is at its quota, and compares the answers.
    pub fn insert(&mut self, rt: &impl Abort, n: u32, value: u8) -> Result<(), Fail> {
        if !self.grown.is_full() {
            let is_new = self.grown.insert(&record(n, value))?;
            assert!(rt; is_new == !self.expected.contains_key(&n));
            if is_new {
                self.expected.insert(n, value)?;
            }
        }
        self.compare(rt)
    }

    /// Takes the record of a key out of both, and compares the answers.
    pub fn remove(&mut self, rt: &impl Abort, n: u32) -> Result<(), Fail> {
        let is_out = self.grown.remove(&key(n))?;
        assert!(rt; is_out == self.expected.remove(&n).is_some());
        self.compare(rt)
    }

    /// Whether the tree has this height and so many records.
    pub fn has(&self, height: u8, records: u32) -> bool {
        self.grown.tree.height == height && self.grown.tree.records == records
    }

    /// Whether at least and at most so many pages are free.
    pub fn has_free(&self, low: u32, high: u32) -> bool {
        let free = self.grown.free_pages();
        low <= free && free <= high
    }

    /// Whether the edits of a run are refused, since one of them is not due.
    fn refuses(&mut self, alloc: Global, run: &[Edit]) -> bool {
        self.grown.apply(alloc, run) == Err(Stop::Damaged { page: 0 })
    }

    /// Makes the edits of a step, or tells whether what has to hold does.
    pub fn does(&mut self, rt: &impl Abort, alloc: Global, step: Step) -> Result<bool, Fail> {
        match step {
            Step::Come(numbers, value) => {
                self.apply(rt, alloc, &puts_of(alloc, numbers, value)?)?;
            }
            Step::Go(numbers) => self.apply(rt, alloc, &removals_of(alloc, numbers)?)?,
            Step::AllGo => self.apply(rt, alloc, &self.removals(alloc)?)?,
            Step::Same(n) => self.compare_all(rt, alloc, n)?,
            Step::Clash(numbers) => {
                return Ok(self.refuses(alloc, &puts_of(alloc, numbers, 0)?));
            }
            Step::Lack(numbers) => return Ok(self.refuses(alloc, &removals_of(alloc, numbers)?)),
            Step::Has(height, records) => return Ok(self.has(height, records)),
            Step::Free(low, high) => return Ok(self.has_free(low, high)),
        }
        Ok(true)
    }

    /// Makes the edits of a run on the map.
    fn expects(&mut self, run: &[Edit]) -> Result<(), AllocError> {
        for edit in run {
            match edit {
                Edit::Remove { key } => {
                    let _ = self.expected.remove(&key.code);
                }
                Edit::Put { record } | Edit::Replace { record } => {
                    self.expected.insert(record.key.code, record.value[0])?;
                }
            }
        }
        Ok(())
    }

    /// Makes the edits of a run on both at once.
    pub fn apply(&mut self, rt: &impl Abort, alloc: Global, run: &[Edit]) -> Result<(), Fail> {
        self.expects(run)?;
        self.grown.apply(alloc, run)?;
        self.compare(rt)
    }

    /// A drawn run of edits of the numbers below `most`, about one in `gap`: each is due, and of the numbers that are there
    /// about half go and half have another value.
    pub fn drawn_run(
        &self,
        alloc: Global,
        seed: &mut u64,
        most: u32,
        gap: u32,
    ) -> Result<Vec<Edit>, Fail> {
        let mut run = Vec::new(alloc);
        for n in 0..most {
            if draw(seed, gap) != 0 {
                continue;
            }
            let value = (draw(seed, 250) & 255) as u8;
            run.push(if !self.expected.contains_key(&n) {
                Edit::Put {
                    record: record(n, value),
                }
            } else if draw(seed, 2) == 0 {
                Edit::Remove { key: key(n) }
            } else {
                Edit::Replace {
                    record: record(n, value),
                }
            })?;
        }
        Ok(run)
    }

    /// How many pages another value of a number's record changes.
    pub fn pages_of_replacement(&mut self, alloc: Global, n: u32, value: u8) -> Result<u32, Stop> {
        let record = record(n, value);
        self.grown
            .pages_changed_by(alloc, &[Edit::Replace { record }])
    }

    /// The edits that take all records out.
    pub fn removals(&self, alloc: Global) -> Result<Vec<Edit>, Fail> {
        let mut run = Vec::new(alloc);
        for (n, _) in self.expected.iter() {
            run.push(Edit::Remove { key: key(*n) })?;
        }
        Ok(run)
    }

    /// Goes over the records from a number on by a cursor, and back to the one before them, beside those of the map.
    pub fn compare_from(&mut self, rt: &impl Abort, n: u32) -> Result<(), Fail> {
        let mut cursor = self.grown.seek(&key(n))?;
        for (m, value) in self.expected.range(n..) {
            let next = self.grown.next(&mut cursor)?;
            assert!(rt; next == Some(record(*m, *value)));
        }
        let end = self.grown.next(&mut cursor)?;
        assert!(rt; end.is_none());
        for (m, value) in self.expected.range(n..).rev() {
            let previous = self.grown.previous(&mut cursor)?;
            assert!(rt; previous == Some(record(*m, *value)));
        }
        let before = self.expected.range(..n).next_back();
        let lower = before.map(|(m, value)| record(*m, *value));
        assert!(rt; self.grown.previous(&mut cursor)? == lower);
        Ok(())
    }

    /// Compares all records, in the order of their keys, and what a key has and the one before it.
    pub fn compare_all(&mut self, rt: &impl Abort, alloc: Global, n: u32) -> Result<(), Fail> {
        let found = self.grown.range(alloc, &key(0), &key(u32::MAX), u32::MAX)?;
        assert!(rt; found.len() == self.expected.len());
        let is_same = found
            .iter()
            .zip(self.expected.iter())
            .all(|(r, (n, value))| *r == record(*n, *value));
        assert!(rt; is_same);
        let value = self.grown.get(&key(n))?;
        assert!(rt; value == self.expected.get(&n).map(|v| [*v; 16]));
        let floor = self.grown.floor(&key(n))?;
        let below = found.iter().filter(|r| r.key <= key(n)).last();
        assert!(rt; floor.as_ref() == below);
        Ok(())
    }

    /// Compares the count of records and of free pages.
    fn compare(&mut self, rt: &impl Abort) -> Result<(), Fail> {
        let Grown { store, tree } = &mut self.grown;
        assert!(rt; tree.records as usize == self.expected.len());
        let used = count_pages(store, tree).ok_or("an inner page")?;
        assert!(rt; store.pages() == self.pages);
        let free = store.free_pages() as usize;
        assert!(rt; used.wrapping_add(free).wrapping_add(1) == self.pages as usize);
        Ok(())
    }
}

ghost use Rattle.std.specs.Prelude.{◌≡◌, ◌≤◌, ◌<◌, true};
ghost use Rattle.quilt_types.specs.Layers.{is_in_square as is_seg_in_square};
ghost use Rattle.quilt_btree.specs.Trees.{IsRooted};

use crate::plain::Plain;
use quilt_btree::Tree;
use quilt_lines::{block_counts, first_record, plan_add, plan_remove, scan, segment};
use quilt_record::{Edits, Key, Record, read_pair, read_segment};
use quilt_store::{MemStore, PageStore};
use quilt_types::Seg;
use std::alloc::Global;
use std::process::Abort;
use std::test::Fail;

/// The number of the layer that is tried.
const LAYER: u8 = 1;

/// A line layer in a tree over a store in memory, and the sets that it is compared with.
#[derive(Drop)]
pub struct Trial {
    pub store: MemStore,
    pub tree: Tree,
    pub plain: Plain,
    level: u8,
    t: u8,
    ghost level_fits: { (1 ≤ level) × (level ≤ 12) },
    ghost t_fits: { (1 ≤ t) × (t ≤ 32) },
    ghost size: { ⟦<MemStore as PageStore>⟧.size store ≡ 256 },
    ghost rooted: { IsRooted 256 tree },
}

/// Whether both ends of the segment are pixels of the level.
fn is_in_square(s: Seg, level: u8) -> bool
    requires { level ≤ 12 }
    ensures { result ≡ is_seg_in_square level s }
{
    let side = 1_u16 << level;
    (s.x1 < side && s.y1 < side) && (s.x2 < side && s.y2 < side)
}

/// The key of a record of the layer at an end of its records.
fn key_at(part: u8, code: u32) -> Key {
    Key {
        layer: u16::from(LAYER),
        part,
        code,
        depth: 0,
        item: code,
    }
}

impl Trial {
    /// A layer of no segments.
    pub fn new(rt: &impl Abort, alloc: Global, level: u8, t: u8) -> Result<Trial, Fail>
        requires level { (1 ≤ level) × (level ≤ 12) }
        requires threshold { (1 ≤ t) × (t ≤ 32) }
    {
        let trial = Trial {
            store: MemStore::new(alloc, 256)?,
            tree: Tree {
                root: 0,
                height: 0,
                records: 0,
            },
            plain: Plain::new(alloc, 1 << level)?,
            level,
            t,
        };
        trial.put(rt, &first_record(LAYER, level, t))
    }

    /// Puts a record into the tree, which is not there.
    fn put(self, rt: &impl Abort, r: &Record) -> Result<Trial, Fail> {
        let mut trial = self;
        assert!(rt; trial.tree.records < 64 * 248);
        let Trial {
            mut store,
            mut tree,
            plain,
            level,
            t,
        } = trial;
        let is_new = tree.insert(&mut store, r)?;
        assert!(rt; is_new);
        Ok(Trial {
            store,
            tree,
            plain,
            level,
            t,
        })
    }

    /// Takes a record out of the tree, which is there.
    fn take(self, rt: &impl Abort, r: &Record) -> Result<Trial, Fail> {
        let Trial {
            mut store,
            mut tree,
            plain,
            level,
            t,
        } = self;
        let value = tree.get(&mut store, &r.key)?;
        assert!(rt; value == Some(r.value));
        let is_out = tree.remove(&mut store, &r.key)?;
        assert!(rt; is_out);
        Ok(Trial {
            store,
            tree,
            plain,
            level,
            t,
        })
    }

    /// Edits the tree: a record that comes may have the key of one that goes.
    fn edit(self, rt: &impl Abort, edits: &Edits) -> Result<Trial, Fail> {
        let mut trial = self;
        for r in edits.remove.records() {
            trial = trial.take(rt, r)?;
        }
        for r in edits.add.records() {
            trial = trial.put(rt, r)?;
        }
        Ok(trial)
    }

    /// Adds a segment to both, unless the id is there.
    pub fn add(self, rt: &impl Abort, alloc: Global, id: u32, s: Seg) -> Result<Trial, Fail> {
        let Trial {
            mut store,
            tree,
            mut plain,
            level,
            t,
        } = self;
        assert!(rt; is_in_square(s, level));
        let plan = plan_add(alloc, &mut store, &tree, LAYER, level, t, id, s)?;
        assert!(rt; plan.is_none() == plain.segs.contains_key(&id));
        if plan.is_some() {
            plain.add(alloc, t, id, s)?;
        }
        let trial = Trial {
            store,
            tree,
            plain,
            level,
            t,
        };
        match plan {
            None => Ok(trial),
            Some(edits) => trial.edit(rt, &edits),
        }
    }

    /// Takes a segment out of both, if its id is there.
    pub fn remove(self, rt: &impl Abort, alloc: Global, id: u32) -> Result<Trial, Fail> {
        let Trial {
            mut store,
            tree,
            mut plain,
            level,
            t,
        } = self;
        let plan = plan_remove(alloc, &mut store, &tree, LAYER, level, t, id)?;
        assert!(rt; plan.is_some() == plain.segs.contains_key(&id));
        plain.remove(t, level, id)?;
        let trial = Trial {
            store,
            tree,
            plain,
            level,
            t,
        };
        match plan {
            None => Ok(trial),
            Some(edits) => {
                assert!(rt; edits.add.records().len() < edits.remove.records().len());
                trial.edit(rt, &edits)
            }
        }
    }

    /// Compares the segment of an id.
    pub fn look(&mut self, rt: &impl Abort, id: u32) -> Result<(), Fail> {
        let found = segment(&mut self.store, &self.tree, LAYER, self.level, id)?;
        assert!(rt; found == self.plain.segs.get(&id).copied());
        Ok(())
    }

    /// Compares the segments, the numbers of blocks, and all records of the layer, block by block.
    pub fn compare(self, rt: &impl Abort, alloc: Global) -> Result<Trial, Fail> {
        let Trial {
            mut store,
            tree,
            plain,
            level,
            t,
        } = self;
        let all = scan(alloc, &mut store, &tree, LAYER, level)?;
        assert!(rt; all.items().len() == plain.segs.len());
        for (id, s) in all.items() {
            assert!(rt; plain.segs.get(id) == Some(s));
        }
        let counts = block_counts(&mut store, &tree, LAYER, level)?;
        assert!(rt; counts == plain.counts());
        let low = key_at(0, 0);
        let high = key_at(u8::MAX, u32::MAX);
        let found = tree.range(alloc, &mut store, &low, &high, u32::MAX)?;
        assert!(rt; found.len() == plain.records());
        for r in &found {
            assert!(rt; is_said(&plain, level, r));
        }
        Ok(Trial {
            store,
            tree,
            plain,
            level,
            t,
        })
    }
}

/// Whether what the record says is so.
fn is_said(plain: &Plain, level: u8, r: &Record) -> bool
    requires { (1 ≤ level) × (level ≤ 12) }
{
    if let Some((b, id)) = read_pair(r, level) {
        return plain.is_met(b, id);
    }
    match read_segment(r) {
        None => false,
        Some((id, s)) => plain.segs.get(&id) == Some(&s),
    }
}

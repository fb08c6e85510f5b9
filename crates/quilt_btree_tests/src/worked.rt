//! The least trees: what their calls answer, and how many pages they leave free.
use crate::grown::Grown;
use quilt_btree::{Tree, most_pages};
use quilt_record::{Key, Record};
use quilt_store::MemStore;
use quilt_types::Stop;
use std::alloc::{AllocError, Global};
use std::process::Abort;
use std::test::Fail;

/// An empty tree over 16 pages.
fn empty(alloc: Global) -> Result<Grown, AllocError> {
    let store = MemStore::new(alloc, 16)?;
    let tree = Tree {
        root: 0,
        height: 0,
        records: 0,
    };
    Ok(Grown { store, tree })
}

/// The record of a segment.
fn record_of(item: u32) -> Record {
    Record {
        key: Key {
            layer: 1,
            part: 4,
            code: 0,
            depth: 0,
            item,
        },
        value: [0; 16],
    }
}

/// The tree of the records of the 145 items from 0 on.
fn tree_of_145(rt: &impl Abort, alloc: Global) -> Result<Grown, Fail> {
    let mut grown = empty(alloc)?;
    for item in 0..145_u32 {
        assert!(rt; grown.insert(&record_of(item))?);
    }
    Ok(grown)
}

/// What is done with a tree of 145 records and answered, or what it has then.
#[derive(Clone, Copy)]
enum Step {
    /// The record of an item comes: whether it was put in.
    Insert(u32, bool),
    /// The record of an item goes: whether it was taken out.
    Remove(u32, bool),
    /// The height, the number of records and that of free pages.
    Has(u8, u32, u32),
}

/// A full leaf is split: a record that is there changes nothing.
static SPLIT: [Step; 3] = [
    Step::Has(2, 145, 12),
    Step::Insert(7, false),
    Step::Has(2, 145, 12),
];

/// Two leaves are joined.
static JOINED: [Step; 8] = [
    Step::Remove(145, false),
    Step::Has(2, 145, 12),
    Step::Remove(100, true),
    Step::Has(2, 144, 12),
    Step::Remove(7, true),
    Step::Has(1, 143, 14),
    Step::Remove(7, false),
    Step::Has(1, 143, 14),
];

/// Whether a step is answered as it says.
fn is_answered(grown: &mut Grown, step: Step) -> Result<bool, Stop> {
    match step {
        Step::Insert(item, is_new) => Ok(grown.insert(&record_of(item))? == is_new),
        Step::Remove(item, is_out) => Ok(grown.remove(&record_of(item).key)? == is_out),
        Step::Has(height, records, free) => {
            let tree = grown.tree;
            Ok(tree.height == height && tree.records == records && grown.free_pages() == free)
        }
    }
}

/// Does the steps with the tree of 145 records.
fn plays(rt: &impl Abort, alloc: Global, steps: &[Step]) -> Result<(), Fail> {
    let mut grown = tree_of_145(rt, alloc)?;
    for step in steps {
        assert!(rt; is_answered(&mut grown, *step)?);
    }
    Ok(())
}

#[test]
fn a_full_leaf_is_split(rt: HostRuntime) -> Result<(), Fail> {
    assert!(rt; most_pages(145) == 3);
    plays(&rt, rt.alloc(), &SPLIT)
}

#[test]
fn two_leaves_are_joined(rt: HostRuntime) -> Result<(), Fail> {
    plays(&rt, rt.alloc(), &JOINED)
}

#[test]
fn an_empty_tree_has_no_records(rt: HostRuntime) -> Result<(), Fail> {
    let mut grown = empty(rt.alloc())?;
    let k = record_of(25).key;
    assert!(rt; grown.get(&k)?.is_none());
    assert!(rt; grown.floor(&k)?.is_none());
    assert!(rt; grown.range(rt.alloc(), &k, &k, 4)?.is_empty());
    Ok(())
}

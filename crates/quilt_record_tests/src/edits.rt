use quilt_edits::edits_of;
use quilt_record::{Edits, Key, Record};
use quilt_types::Stop;
use std::alloc::{AllocError, Global};
use std::test::Fail;

/// A record of the first layer with this code and this first byte.
fn record(code: u32, first: u8) -> Record {
    let key = Key {
        layer: 1,
        part: 2,
        code,
        depth: 0,
        item: 0,
    };
    let mut value = [0; 16];
    value[0] = first;
    Record { key, value }
}

/// The records of these codes and first bytes.
fn records(alloc: Global, all: &[(u32, u8)]) -> Result<Vec<Record>, AllocError> {
    let mut list = Vec::new(alloc);
    for (code, first) in all {
        list.push(record(*code, *first))?;
    }
    Ok(list)
}

/// Whether the records are those of these codes and first bytes.
fn are_records(found: &[Record], all: &[(u32, u8)]) -> bool {
    found.len() == all.len()
        && found
            .iter()
            .zip(all)
            .all(|(r, (code, first))| *r == record(*code, *first))
}

/// The edits by which these records are removed and added, or why they cannot be edits.
fn edits(
    alloc: Global,
    remove: &[(u32, u8)],
    add: &[(u32, u8)],
) -> Result<Result<Edits, Stop>, AllocError> {
    let remove = records(alloc, remove)?;
    Ok(edits_of(remove, records(alloc, add)?))
}

#[test]
fn both_lists_are_put_in_order(rt: HostRuntime) -> Result<(), Fail> {
    let edits = edits(rt.alloc(), &[(7, 0), (2, 0), (5, 0)], &[(5, 1), (1, 0)])??;
    assert!(rt; are_records(edits.remove.records(), &[(2, 0), (5, 0), (7, 0)]));
    assert!(rt; are_records(edits.add.records(), &[(1, 0), (5, 1)]));
    Ok(())
}

/// Records that cannot be removed and others that cannot be added, since a key comes twice or a record goes and comes.
static REFUSED: [(&[(u32, u8)], &[(u32, u8)]); 3] = [
    (&[(3, 0), (4, 0), (3, 1)], &[]),
    (&[], &[(3, 0), (3, 0)]),
    (&[(3, 0), (4, 0)], &[(5, 0), (4, 0)]),
];

/// Whether these records are refused as damaged.
fn is_refused(alloc: Global, remove: &[(u32, u8)], add: &[(u32, u8)]) -> Result<bool, AllocError> {
    Ok(edits(alloc, remove, add)?.err() == Some(Stop::Damaged { page: 0 }))
}

#[test]
fn records_that_cannot_be_edits(rt: HostRuntime) -> Result<(), Fail> {
    for (i, (remove, add)) in REFUSED.iter().enumerate() {
        assert!(rt; is_refused(rt.alloc(), remove, add)?, "row {i}");
    }
    Ok(())
}

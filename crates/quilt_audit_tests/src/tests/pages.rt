use super::planted::{BLANK, Said, leaf_page, spell_no_map, stored, surveyed};
use quilt_audit::audit;
use quilt_node::{Head, InnerPage};
use quilt_plain_pages::{Page, entry};
use quilt_record::{Key, Record};
use quilt_types::Stop;
use std::alloc::{AllocError, Global};
use std::test::Fail;

#[test]
fn records_that_are_no_catalog(rt: HostRuntime) -> Result<(), Fail> {
    let twice = [entry(1, b'a', 1, 0), entry(2, b'a', 1, 0)];
    let nought = [entry(0, b'a', 1, 0)];
    let points = [entry(1, b'a', 2, 0)];
    let lines = [entry(1, b'a', 3, 0)];
    let alone = [entry(1, b'a', 1, 0)];
    let lists: [&[Record]; 5] = [&twice, &nought, &points, &lines, &alone];
    spell_no_map(&rt, rt.alloc(), 1, &lists)
}

/// What an audit finds of an edition without a tree: how many layers there are, and which of the first eight pages are used.
fn without_tree(alloc: Global) -> Result<(usize, u8), Fail> {
    let mut store = stored(alloc, &BLANK, &BLANK)?;
    let empty = Head {
        format: 1,
        edition: 1,
        level: 1,
        root: 0,
        height: 0,
        records: 0,
    };
    match audit(alloc, &mut store, &empty, 16) {
        Ok(survey) => Ok((survey.catalog.entries().len(), survey.used[0])),
        Err(_) => Err(Fail::from("a map")),
    }
}

#[test]
fn no_tree(rt: HostRuntime) -> Result<(), Fail> {
    assert_eq!(rt; without_tree(rt.alloc())?, (0, 0));
    Ok(())
}

/// The page that an audit names of a file with these as the pages 1 and 2, whose tree has this height and so many records.
fn named(
    alloc: Global,
    one: &Page,
    two: &Page,
    height: u8,
    records: u32,
) -> Result<Option<Stop>, Fail> {
    let said = Said {
        format: 1,
        level: 1,
        height,
        records,
    };
    Ok(surveyed(alloc, one, two, said)?.err())
}

/// A leaf of 72 layers under one name, from the number 0 on.
fn leaf_of_72(alloc: Global) -> Result<Page, AllocError> {
    let mut records = Vec::new(alloc);
    for number in 0..72 {
        records.push(entry(number, b'a', 1, 0))?;
    }
    Ok(leaf_page(&records))
}

/// An inner page with page 2 twice.
fn twice(k: &Key) -> Page {
    *InnerPage::pair(2, 2, k, 2).bytes()
}

#[test]
fn damaged_pages(rt: HostRuntime) -> Result<(), Fail> {
    let root = Some(Stop::Damaged { page: 1 });
    assert_eq!(rt; named(rt.alloc(), &BLANK, &BLANK, 1, 1)?, root);
    let inner = twice(&entry(0, b'a', 1, 0).key);
    let two = leaf_of_72(rt.alloc())?;
    let leaf = Some(Stop::Damaged { page: 2 });
    assert_eq!(rt; named(rt.alloc(), &inner, &two, 2, 144)?, leaf);
    Ok(())
}

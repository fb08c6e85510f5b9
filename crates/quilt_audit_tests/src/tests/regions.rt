use super::planted::{NO_MAP, map_of, refusal_of, spell_maps, spell_no_map};
use quilt_audit::Survey;
use quilt_plain_pages::entry;
use quilt_record::{Entry, Key, Record};
use quilt_types::Kind;
use std::alloc::Global;
use std::test::Fail;

/// The record of a block of side 1 of the layer 1, with a colour of these bytes.
fn pixel(code: u32, low: u8, high: u8) -> Record {
    Record {
        key: Key {
            layer: 1,
            part: 1,
            code,
            depth: 1,
            item: 0,
        },
        value: [low, high, 0, 0, 0, 0, 0, 0, 0, 0, 0, 0, 0, 0, 0, 0],
    }
}

/// Whether the layer is a region under this name and this number.
fn is_region(layer: &Entry, name: &str, number: u8) -> bool {
    layer.name.text() == name && layer.number == number && layer.kind == Kind::Region
}

/// Whether the map has the root's page alone, and one region.
fn has_one_region(survey: &Survey) -> bool {
    match survey.catalog.entries() {
        [one] => survey.used[0] == 2 && survey.used[1] == 0 && is_region(one, "a", 1),
        _ => false,
    }
}

/// Whether the map of these records is such a map.
fn are_one_region(alloc: Global, records: &[Record]) -> Result<bool, Fail> {
    let survey = map_of(alloc, records, 1)?;
    Ok(has_one_region(&survey))
}

#[test]
fn a_region_of_four_pixels(rt: HostRuntime) -> Result<(), Fail> {
    let records = [
        entry(1, b'a', 1, 0),
        pixel(0, 0, 0),
        pixel(1, 0, 0),
        pixel(2, 0, 0),
        pixel(3, 1, 0),
    ];
    assert!(rt; are_one_region(rt.alloc(), &records)?);
    assert_eq!(rt; refusal_of(rt.alloc(), &records, 1, 4)?, NO_MAP);
    assert_eq!(rt; refusal_of(rt.alloc(), &records, 1, 6)?, NO_MAP);
    Ok(())
}

#[test]
fn blocks_that_are_no_layer(rt: HostRuntime) -> Result<(), Fail> {
    let a = entry(1, b'a', 1, 0);
    let same = [
        a,
        pixel(0, 0, 0),
        pixel(1, 0, 0),
        pixel(2, 0, 0),
        pixel(3, 0, 0),
    ];
    let gap = [a, pixel(0, 0, 0), pixel(1, 0, 0), pixel(3, 1, 0)];
    let short = [a, pixel(0, 0, 0), pixel(1, 0, 0), pixel(2, 1, 0)];
    let wide = [
        a,
        pixel(0, 0, 0),
        pixel(1, 0, 0),
        pixel(2, 0, 0),
        pixel(3, 0, 1),
    ];
    let lists: [&[Record]; 4] = [&same, &gap, &short, &wide];
    spell_no_map(&rt, rt.alloc(), 1, &lists)?;
    spell_maps(&rt, rt.alloc(), 2, &[&wide])
}

use super::planted::{NO_MAP, map_of, refusal_of, spell_maps, spell_no_map};
use quilt_plain_pages::entry;
use quilt_record::{Entry, Key, Record};
use quilt_types::Kind;
use std::alloc::Global;
use std::test::Fail;

/// The record of the catalog for lines, with a threshold.
pub fn lines(threshold: u8) -> Record {
    entry(1, b'l', 3, threshold)
}

/// The record of a block of the layer 1 that the segment meets. Blocks of side 1 have the depth 1.
pub fn met(code: u32, depth: u8, id: u32) -> Record {
    let mut r = bare(code, depth);
    r.key.item = id;
    r.value[0] = 1;
    r
}

/// The record of a block that no segment meets.
pub fn bare(code: u32, depth: u8) -> Record {
    Record {
        key: Key {
            layer: 1,
            part: 3,
            code,
            depth,
            item: 0,
        },
        value: [0; 16],
    }
}

/// The record of a segment from one pixel to another.
fn segment(id: u32, x1: u8, y1: u8, x2: u8, y2: u8) -> Record {
    Record {
        key: Key {
            layer: 1,
            part: 4,
            code: 0,
            depth: 0,
            item: id,
        },
        value: [0, x1, 0, y1, 0, x2, 0, y2, 0, 0, 0, 0, 0, 0, 0, 0],
    }
}

/// The kind of the layer of a catalog that has one.
fn only_kind(entries: &[Entry]) -> Option<Kind> {
    match entries {
        [one] => Some(one.kind),
        _ => None,
    }
}

/// Whether a map of these records in format 1 has one layer, of this kind.
pub fn has_kind(alloc: Global, records: &[Record], kind: Kind) -> Result<bool, Fail> {
    let survey = map_of(alloc, records, 1)?;
    Ok(only_kind(survey.catalog.entries()) == Some(kind))
}

#[test]
fn layers_without_segments(rt: HostRuntime) -> Result<(), Fail> {
    let four = [lines(4), bare(0, 1), bare(1, 1), bare(2, 1), bare(3, 1)];
    assert!(rt; has_kind(rt.alloc(), &four, Kind::Lines { threshold: 4 })?);
    assert_eq!(rt; refusal_of(rt.alloc(), &four, 1, 4)?, NO_MAP);
    spell_maps(&rt, rt.alloc(), 2, &[&[lines(4), bare(0, 0)]])?;
    spell_no_map(&rt, rt.alloc(), 1, &[&[lines(4)]])
}

#[test]
fn thresholds(rt: HostRuntime) -> Result<(), Fail> {
    for threshold in [1, 32] {
        spell_maps(&rt, rt.alloc(), 1, &[&[lines(threshold), bare(0, 0)]])?;
    }
    for threshold in [0, 33, 255] {
        spell_no_map(&rt, rt.alloc(), 1, &[&[lines(threshold), bare(0, 0)]])?;
    }
    Ok(())
}

#[test]
fn blocks_and_segments(rt: HostRuntime) -> Result<(), Fail> {
    let (s, t) = (segment(0, 0, 0, 0, 0), segment(9, 1, 1, 1, 1));
    // The pixel (1, 1) stands on a corner of all four closed squares, and (0, 0) in the first alone.
    let both = [
        lines(1),
        met(0, 1, 0),
        met(0, 1, 9),
        met(1, 1, 9),
        met(2, 1, 9),
        met(3, 1, 9),
        s,
        t,
    ];
    let one = [lines(1), met(0, 0, 0), met(0, 0, 9), s, t];
    let first = [
        lines(1),
        met(0, 1, 0),
        bare(1, 1),
        bare(2, 1),
        bare(3, 1),
        s,
    ];
    spell_maps(&rt, rt.alloc(), 1, &[&both, &one, &first])
}

#[test]
fn pairs_that_are_no_layer(rt: HostRuntime) -> Result<(), Fail> {
    let (s, t) = (segment(0, 0, 0, 0, 0), segment(9, 1, 1, 1, 1));
    let missed = [lines(1), met(0, 0, 0), s, t];
    let other = [lines(1), met(0, 0, 0), met(0, 0, 8), s, t];
    let unmet = [
        lines(1),
        met(0, 1, 0),
        met(1, 1, 0),
        bare(2, 1),
        bare(3, 1),
        s,
    ];
    let none = [lines(1), bare(0, 0), met(0, 0, 9), t];
    let nought = [lines(1), bare(0, 0), s];
    let without = [lines(1), met(0, 0, 0)];
    let lists: [&[Record]; 6] = [&missed, &other, &unmet, &none, &nought, &without];
    spell_no_map(&rt, rt.alloc(), 1, &lists)
}

#[test]
fn blocks_that_are_no_line_layer(rt: HostRuntime) -> Result<(), Fail> {
    let gap = [lines(1), bare(0, 1), bare(1, 1), bare(3, 1)];
    let short = [lines(1), bare(0, 1), bare(1, 1), bare(2, 1)];
    let twice = [lines(1), bare(0, 0), bare(0, 1)];
    let outside = [lines(1), met(0, 0, 0), segment(0, 0, 0, 2, 0)];
    let alone = [lines(1), segment(0, 0, 0, 1, 0)];
    let lists: [&[Record]; 5] = [&gap, &short, &twice, &outside, &alone];
    spell_no_map(&rt, rt.alloc(), 1, &lists)
}

/// The same record of another layer.
fn of_layer(layer: u16, mut r: Record) -> Record {
    r.key.layer = layer;
    r
}

#[test]
fn layers_behind_each_other(rt: HostRuntime) -> Result<(), Fail> {
    let second = entry(2, b'm', 3, 2);
    let s = segment(7, 0, 1, 1, 0);
    let both = [lines(1), second, met(0, 0, 7), s, of_layer(2, bare(0, 0))];
    spell_maps(&rt, rt.alloc(), 2, &[&both])?;
    let lent = [lines(1), second, met(0, 0, 7), s, of_layer(2, met(0, 0, 7))];
    spell_no_map(&rt, rt.alloc(), 2, &[&lent])
}

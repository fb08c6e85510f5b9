use super::lines::has_kind;
use super::planted::{NO_MAP, refusal, refusal_of, spell_maps, spell_no_map};
use quilt_plain_pages::entry;
use quilt_record::{Key, Record};
use quilt_types::{Kind, Stop};
use std::test::Fail;

/// The key of a record of a block of the layer 1, whose blocks of side 1 have the depth 1.
fn key(code: u32, depth: u8, item: u32) -> Key {
    Key {
        layer: 1,
        part: 2,
        code,
        depth,
        item,
    }
}

/// The record of a point at a pixel of a block.
fn held(code: u32, depth: u8, item: u32, x: u8, y: u8) -> Record {
    Record {
        key: key(code, depth, item),
        value: [1, 0, x, 0, y, 0, 0, 0, 7, 0, 0, 0, 0, 0, 0, 0],
    }
}

/// The record of a block without points.
fn bare(code: u32, depth: u8) -> Record {
    Record {
        key: key(code, depth, 0),
        value: [0; 16],
    }
}

/// The record of the catalog for points, with the byte beside the kind.
fn points(bucket: u8) -> Record {
    entry(1, b'p', 2, bucket)
}

#[test]
fn layers_of_one_block(rt: HostRuntime) -> Result<(), Fail> {
    let none = [points(0), bare(0, 0)];
    assert!(rt; has_kind(rt.alloc(), &none, Kind::Points { bucket: 1 })?);
    let one = [points(0), held(0, 0, 0, 1, 0)];
    spell_maps(&rt, rt.alloc(), 1, &[&one])?;
    let two = [points(2), held(0, 0, 1, 0, 0), held(0, 0, 4, 1, 1)];
    spell_maps(&rt, rt.alloc(), 2, &[&none, &two])
}

#[test]
fn layers_of_four_blocks(rt: HostRuntime) -> Result<(), Fail> {
    let one = [
        points(0),
        held(0, 1, 0, 0, 0),
        bare(1, 1),
        bare(2, 1),
        held(3, 1, 0, 1, 1),
    ];
    spell_maps(&rt, rt.alloc(), 1, &[&one])?;
    assert_eq!(rt; refusal_of(rt.alloc(), &one, 1, 4)?, NO_MAP);
    let two = [
        points(2),
        held(0, 1, 1, 0, 0),
        held(1, 1, 2, 1, 0),
        bare(2, 1),
        held(3, 1, 4, 1, 1),
    ];
    spell_maps(&rt, rt.alloc(), 2, &[&two])
}

#[test]
fn capacities_that_are_none(rt: HostRuntime) -> Result<(), Fail> {
    for bucket in [1, 17, 255] {
        spell_no_map(&rt, rt.alloc(), 2, &[&[points(bucket), bare(0, 0)]])?;
    }
    spell_no_map(&rt, rt.alloc(), 1, &[&[points(2), bare(0, 0)]])?;
    spell_no_map(&rt, rt.alloc(), 2, &[&[entry(1, b'l', 3, 0), bare(0, 0)]])
}

#[test]
fn blocks_that_are_no_point_layer(rt: HostRuntime) -> Result<(), Fail> {
    let outside = [
        points(0),
        held(0, 1, 0, 1, 0),
        bare(1, 1),
        bare(2, 1),
        held(3, 1, 0, 1, 1),
    ];
    let needless = [
        points(0),
        held(0, 1, 0, 0, 0),
        bare(1, 1),
        bare(2, 1),
        bare(3, 1),
    ];
    let gap = [
        points(0),
        held(0, 1, 0, 0, 0),
        bare(1, 1),
        held(3, 1, 0, 1, 1),
    ];
    let short = [
        points(0),
        held(0, 1, 0, 0, 0),
        held(1, 1, 0, 1, 0),
        bare(2, 1),
    ];
    let lists: [&[Record]; 4] = [&outside, &needless, &gap, &short];
    spell_no_map(&rt, rt.alloc(), 1, &lists)?;
    let just_enough = [
        points(3),
        held(0, 1, 1, 0, 0),
        held(1, 1, 2, 1, 0),
        bare(2, 1),
        held(3, 1, 4, 1, 1),
    ];
    spell_no_map(&rt, rt.alloc(), 2, &[&just_enough])
}

#[test]
fn points_that_are_no_layer(rt: HostRuntime) -> Result<(), Fail> {
    let many = [
        points(2),
        held(0, 0, 1, 0, 0),
        held(0, 0, 2, 1, 0),
        held(0, 0, 4, 1, 1),
    ];
    let both = [points(2), bare(0, 0), held(0, 0, 1, 0, 0)];
    let nought = [points(2), held(0, 0, 0, 0, 0)];
    let numbered = [points(0), held(0, 0, 1, 0, 0)];
    let lists: [&[Record]; 4] = [&many, &both, &nought, &numbered];
    spell_no_map(&rt, rt.alloc(), 2, &lists)?;
    let twice = [points(2), held(0, 0, 1, 0, 0), held(0, 0, 1, 0, 0)];
    let root = Some(Stop::Damaged { page: 1 });
    assert_eq!(rt; refusal(rt.alloc(), &twice, 2, 1)?, root);
    Ok(())
}

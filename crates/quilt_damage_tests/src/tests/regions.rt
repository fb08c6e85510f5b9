use super::drawing::Draw;
use super::layers::{drawn_quarters, drawn_region};
use super::tally::Tally;
use super::trial::{Chart, drawn_level, try_chart};
use quilt_plain_pages::{RegionLayer, entry};
use quilt_record::Record;
use std::alloc::{AllocError, Global};
use std::test::Fail;

/// The records of one layer, which in one of eight draws may have blocks that are not the largest of one colour.
fn drawn_layer(
    alloc: Global,
    draw: &mut Draw,
    layer: RegionLayer,
) -> Result<Vec<Record>, AllocError> {
    if draw.below(8) == 0 {
        drawn_quarters(alloc, draw, layer)
    } else {
        drawn_region(alloc, draw, layer)
    }
}

/// The records of the catalog of so many layers, under their numbers from 1 on.
fn catalog(alloc: Global, count: u8) -> Result<Vec<Record>, AllocError> {
    let mut records = Vec::new(alloc);
    for i in 0..count {
        let number = u32::from(i).wrapping_add(1);
        records.push(entry(number, b'a'.wrapping_add(i), 1, 0))?;
    }
    Ok(records)
}

/// A map of one region layer, or of two where its level is below 8.
fn drawn_chart(alloc: Global, draw: &mut Draw, round: u32) -> Result<Chart, AllocError> {
    let level = drawn_level(draw, round);
    let format = draw.between(1, 2);
    let count = if level == 8 { 1 } else { draw.between(1, 2) };
    let mut records = catalog(alloc, count)?;
    for i in 0..count {
        let layer = RegionLayer {
            number: u16::from(i).wrapping_add(1),
            level,
            format,
        };
        let own = drawn_layer(alloc, draw, layer)?;
        records.extend_from_slice(&own)?;
    }
    Ok(Chart {
        format,
        level,
        records,
    })
}

#[test]
fn damaged_region_maps(rt: HostRuntime) -> Result<(), Fail> {
    let alloc = rt.alloc();
    let mut draw = Draw(1984);
    let mut tally = Tally::new();
    for round in 0..600_u32 {
        let chart = drawn_chart(alloc, &mut draw, round)?;
        try_chart(&rt, alloc, &mut draw, chart, &mut tally)?;
    }
    assert!(rt; tally.is_varied(), "{tally:?}");
    Ok(())
}

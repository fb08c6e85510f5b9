use super::drawing::Draw;
use super::layers::drawn_points;
use super::tally::Tally;
use super::trial::{Chart, drawn_level, try_chart};
use quilt_plain_pages::{PointLayer, entry};
use std::alloc::{AllocError, Global};
use std::test::Fail;

/// How many points a block may hold, and of how many pixels one has a point. At level 8 there are many blocks.
fn drawn_density(draw: &mut Draw, level: u8) -> (u8, u32) {
    if level == 8 {
        (1, 3)
    } else {
        (draw.between(1, 5), u32::from(draw.between(1, 5)))
    }
}

/// The number beside the layer's kind in the catalog: the capacity where it is not 1, and in one of eight draws another.
fn drawn_beside(draw: &mut Draw, bucket: u8) -> u8 {
    let stated = if draw.below(8) == 0 {
        draw.between(1, 17)
    } else {
        bucket
    };
    if stated == 1 { 0 } else { stated }
}

/// A map of one point layer.
fn drawn_chart(alloc: Global, draw: &mut Draw, round: u32) -> Result<Chart, AllocError> {
    let level = drawn_level(draw, round);
    let (bucket, one_in) = drawn_density(draw, level);
    let beside = drawn_beside(draw, bucket);
    let mut records = Vec::new(alloc);
    records.push(entry(7, b'p', 2, beside))?;
    let layer = PointLayer {
        number: 7,
        level,
        bucket,
    };
    let own = drawn_points(alloc, draw, layer, one_in)?;
    records.extend_from_slice(&own)?;
    Ok(Chart {
        format: 2,
        level,
        records,
    })
}

#[test]
fn damaged_point_maps(rt: HostRuntime) -> Result<(), Fail> {
    let alloc = rt.alloc();
    let mut draw = Draw(1990);
    let mut tally = Tally::new();
    for round in 0..600_u32 {
        let chart = drawn_chart(alloc, &mut draw, round)?;
        try_chart(&rt, alloc, &mut draw, chart, &mut tally)?;
    }
    assert!(rt; tally.is_varied(), "{tally:?}");
    Ok(())
}

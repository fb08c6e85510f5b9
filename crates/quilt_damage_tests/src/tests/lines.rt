use super::drawing::Draw;
use super::layers::drawn_lines;
use super::tally::Tally;
use super::trial::{Chart, drawn_level, try_chart};
use quilt_plain_pages::{LineLayer, entry};
use std::alloc::{AllocError, Global};
use std::test::Fail;

/// A map of one line layer.
fn drawn_chart(alloc: Global, draw: &mut Draw, round: u32) -> Result<Chart, AllocError> {
    let level = drawn_level(draw, round);
    let mut records = Vec::new(alloc);
    records.push(entry(255, b'l', 3, draw.between(1, 32)))?;
    let layer = LineLayer { number: 255, level };
    let own = drawn_lines(alloc, draw, layer)?;
    records.extend_from_slice(&own)?;
    Ok(Chart {
        format: draw.between(1, 2),
        level,
        records,
    })
}

#[test]
fn damaged_line_maps(rt: HostRuntime) -> Result<(), Fail> {
    let alloc = rt.alloc();
    let mut draw = Draw(1986);
    let mut tally = Tally::new();
    for round in 0..600_u32 {
        let chart = drawn_chart(alloc, &mut draw, round)?;
        try_chart(&rt, alloc, &mut draw, chart, &mut tally)?;
    }
    assert!(rt; tally.is_varied(), "{tally:?}");
    Ok(())
}

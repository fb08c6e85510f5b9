use super::drawing::{Draw, Tally, answered, changed, rise};
use quilt_plain_pages::{PointLayer, blank, entry};
use quilt_record::Record;
use std::alloc::{AllocError, Global};
use std::test::Fail;

/// Labels of points at drawn pixels of a square of this level, each at the code of its pixel.
fn drawn(alloc: Global, draw: &mut Draw, level: u8) -> Result<Vec<Option<u32>>, AllocError> {
    let mut labels = blank(alloc, level, None)?;
    let one_in = 1 + draw.below(6);
    for label in &mut labels {
        if draw.below(one_in) == 0 {
            *label = Some(draw.below(200));
        }
    }
    Ok(labels)
}

/// Drops the last record, changes a drawn one, or leaves all as they are, in turn.
fn disturb(draw: &mut Draw, round: u32, records: &mut Vec<Record>) {
    if round % 6 == 5 {
        let _last = records.pop();
    } else if round % 3 > 0 {
        changed(draw, records.as_mut_slice());
    }
}

/// The record of the catalog for points, with the byte beside the kind.
fn entry_of(bucket: u8) -> Record {
    entry(1, b'p', 2, if bucket == 1 { 0 } else { bucket })
}

/// The records of a drawn layer, disturbed.
fn drawn_records(
    alloc: Global,
    draw: &mut Draw,
    round: u32,
    layer: PointLayer,
) -> Result<Vec<Record>, AllocError> {
    let labels = drawn(alloc, draw, layer.level)?;
    let mut records = layer.records(alloc, &labels)?;
    disturb(draw, round, &mut records);
    Ok(records)
}

/// Whether an audit answers of these records what it has to.
fn is_answered(
    alloc: Global,
    layer: PointLayer,
    records: &[Record],
    tally: &mut Tally,
) -> Result<bool, Fail> {
    let is_layer = layer.is_spelled(alloc, records)?;
    let wanted = tally.wanted(rise(records), is_layer);
    Ok(answered(alloc, entry_of(layer.bucket), records, layer.level)? == wanted)
}

/// Draws a layer and disturbs it, and tells whether an audit answers of it what it has to.
fn agrees(alloc: Global, draw: &mut Draw, round: u32, tally: &mut Tally) -> Result<bool, Fail> {
    let (level, bucket) = (draw.of_four(3), draw.of_four(4));
    let layer = PointLayer {
        number: 1,
        level,
        bucket,
    };
    let records = drawn_records(alloc, draw, round, layer)?;
    is_answered(alloc, layer, &records, tally)
}

#[test]
fn drawn_point_layers(rt: HostRuntime) -> Result<(), Fail> {
    let mut draw = Draw(1990);
    let mut tally = Tally::new();
    for round in 0..600_u32 {
        assert!(rt;
            agrees(rt.alloc(), &mut draw, round, &mut tally)?,
            "round {round}"
        );
    }
    assert!(rt; tally.taken >= 200);
    assert!(rt; tally.refused >= 250);
    Ok(())
}

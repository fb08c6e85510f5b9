use super::drawing::{Draw, Tally, answered, changed, rise};
use super::lines::{bare, lines, met};
use quilt_plain_pages::{Line, LineLayer, Span, size};
use quilt_record::Record;
use std::alloc::{AllocError, Global};
use std::test::Fail;

/// The greatest exponent, at most this one, of a block that begins at the code.
fn exponent_at(code: u32, most: u8) -> u8 {
    for (k, mask) in [(3, 63), (2, 15), (1, 3)] {
        if k <= most && code & mask == 0 {
            return k;
        }
    }
    0
}

/// Blocks of drawn sizes that cover the square of the level.
fn drawn_blocks(alloc: Global, draw: &mut Draw, level: u8) -> Result<Vec<Span>, AllocError> {
    let mut blocks = Vec::new(alloc);
    let mut next = 0;
    for code in 0..size(level) {
        if code == next {
            let k = exponent_at(code, level.min(draw.below(4) as u8));
            blocks.push(Span { code, k })?;
            next = code.wrapping_add(size(k));
        }
    }
    Ok(blocks)
}

/// A drawn coordinate of a square of this side, of 8 at most.
fn coordinate(draw: &mut Draw, side: u32) -> u16 {
    let drawn = draw.below(8).checked_rem(side).unwrap_or(0);
    u16::try_from(drawn).unwrap_or(0)
}

/// The ends of a segment between drawn pixels of a square of this side.
fn drawn_ends(draw: &mut Draw, side: u32) -> [u16; 4] {
    let mut ends = [0; 4];
    for end in &mut ends {
        *end = coordinate(draw, side);
    }
    ends
}

/// Segments under rising ids between drawn pixels of the square of the level.
fn drawn_lines(alloc: Global, draw: &mut Draw, level: u8) -> Result<Vec<Line>, AllocError> {
    let mut lines = Vec::new(alloc);
    let most = if level == 3 { 3 } else { 6 };
    let mut id = draw.below(3);
    for _ in 0..draw.below(most) {
        let ends = drawn_ends(draw, 1 << (level % 4));
        lines.push(Line { id, ends })?;
        id = id.wrapping_add(1 + draw.below(3));
    }
    Ok(lines)
}

/// A drawn record of a block with a segment, or in one of three draws with none.
fn drawn_pair(draw: &mut Draw) -> Record {
    let (code, depth) = (draw.below(64), draw.below(4) as u8);
    let id = draw.below(8);
    if draw.below(3) == 0 {
        bare(code, depth)
    } else {
        met(code, depth, id)
    }
}

/// Takes the record at a place out, or the last one where none is there.
fn drop_one(records: &mut Vec<Record>, at: usize) {
    if at < records.len() {
        let _gone = records.remove(at);
    } else {
        let _last = records.pop();
    }
}

/// Adds a record behind those whose keys are no greater.
fn add_one(records: &mut Vec<Record>, more: Record) -> Result<(), AllocError> {
    let place = records.iter().filter(|r| r.key <= more.key).count();
    if place <= records.len() {
        records.insert(place, more)?;
    }
    Ok(())
}

/// Changes one record, drops one, or adds one at its place; or changes nothing.
fn disturb(draw: &mut Draw, records: &mut Vec<Record>) -> Result<(), AllocError> {
    let at = draw.below(144) as usize;
    match draw.below(5) {
        0 => {}
        1 | 2 => changed(draw, records.as_mut_slice()),
        3 => drop_one(records, at),
        _ => add_one(records, drawn_pair(draw))?,
    }
    Ok(())
}

/// The records of a drawn layer.
fn drawn_records(
    alloc: Global,
    draw: &mut Draw,
    layer: LineLayer,
) -> Result<Vec<Record>, AllocError> {
    let blocks = drawn_blocks(alloc, draw, layer.level)?;
    let lines = drawn_lines(alloc, draw, layer.level)?;
    layer.records(alloc, &blocks, &lines)
}

/// Whether an audit answers of these records what it has to.
fn is_answered(
    alloc: Global,
    draw: &mut Draw,
    layer: LineLayer,
    records: &[Record],
    tally: &mut Tally,
) -> Result<bool, Fail> {
    let is_layer = layer.is_spelled(alloc, records)?;
    let wanted = tally.wanted(rise(records), is_layer);
    let first = lines((1 + draw.below(32)) as u8);
    Ok(answered(alloc, first, records, layer.level)? == wanted)
}

/// Draws a layer and disturbs it, and tells whether an audit answers of it what it has to.
fn agrees(alloc: Global, draw: &mut Draw, tally: &mut Tally) -> Result<bool, Fail> {
    let level = draw.of_four(3);
    let layer = LineLayer { number: 1, level };
    let mut records = drawn_records(alloc, draw, layer)?;
    disturb(draw, &mut records)?;
    is_answered(alloc, draw, layer, &records, tally)
}

#[test]
fn drawn_line_layers(rt: HostRuntime) -> Result<(), Fail> {
    let mut draw = Draw(1986);
    let mut tally = Tally::new();
    for round in 0..400_u32 {
        assert!(rt; agrees(rt.alloc(), &mut draw, &mut tally)?, "round {round}");
    }
    assert!(rt; tally.taken >= 60);
    assert!(rt; tally.refused >= 200);
    Ok(())
}

use super::drawing::Draw;
use quilt_plain_pages::{Line, LineLayer, PointLayer, RegionLayer, Span, blank, paint, size};
use quilt_record::Record;
use std::alloc::{AllocError, Global};

/// The greatest exponent, at most this one, of a block that begins at the code.
fn exponent_at(code: u32, most: u8) -> u8 {
    let mut found = 0;
    for k in 0..=most {
        if code.checked_rem(size(k)) == Some(0) {
            found = k;
        }
    }
    found
}

/// The greatest exponent of the next block. At level 8 blocks have one pixel or four, so that there are many.
fn drawn_exponent(draw: &mut Draw, level: u8) -> u8 {
    if level == 8 {
        u8::from(draw.below(8) > 2)
    } else {
        draw.between(0, 3).min(level)
    }
}

/// Blocks of drawn sizes that cover the square of the level.
fn drawn_spans(alloc: Global, draw: &mut Draw, level: u8) -> Result<Vec<Span>, AllocError> {
    let mut spans = Vec::new(alloc);
    let mut next = 0;
    for code in 0..size(level) {
        if code == next {
            let k = exponent_at(code, drawn_exponent(draw, level));
            spans.push(Span { code, k })?;
            next = code.saturating_add(size(k));
        }
    }
    Ok(spans)
}

/// One of so many colours, which in format 2 do not all fit one byte.
fn drawn_colour(draw: &mut Draw, count: u8, format: u8) -> u16 {
    let colour = u16::from(draw.between(1, count));
    if format == 2 {
        colour.wrapping_mul(100)
    } else {
        colour
    }
}

/// The records of a region layer of drawn blocks in six colours.
pub fn drawn_region(
    alloc: Global,
    draw: &mut Draw,
    layer: RegionLayer,
) -> Result<Vec<Record>, AllocError> {
    let spans = drawn_spans(alloc, draw, layer.level)?;
    let mut cells = blank(alloc, layer.level, None)?;
    for b in &spans {
        let colour = drawn_colour(draw, 6, layer.format);
        let _is_free = paint(&mut cells, *b, colour);
    }
    layer.records(alloc, &cells)
}

/// Records of drawn blocks in two colours, of which four may be the quarters of a block of one colour: then they are no region layer.
pub fn drawn_quarters(
    alloc: Global,
    draw: &mut Draw,
    layer: RegionLayer,
) -> Result<Vec<Record>, AllocError> {
    let mut records = Vec::new(alloc);
    for b in &drawn_spans(alloc, draw, layer.level)? {
        records.push(layer.record(*b, drawn_colour(draw, 2, layer.format)))?;
    }
    Ok(records)
}

/// The records of a point layer of drawn points, of which one in so many pixels has one.
pub fn drawn_points(
    alloc: Global,
    draw: &mut Draw,
    layer: PointLayer,
    one_in: u32,
) -> Result<Vec<Record>, AllocError> {
    let mut labels = blank(alloc, layer.level, None)?;
    for label in &mut labels {
        if draw.below(one_in) == 0 {
            *label = Some(draw.below(1 << 20));
        }
    }
    layer.records(alloc, &labels)
}

/// A coordinate of the square.
fn coordinate(draw: &mut Draw, level: u8) -> u16 {
    let side = 1_u32.wrapping_shl(u32::from(level));
    u16::try_from(draw.below(side)).unwrap_or(0)
}

/// A segment between two pixels.
fn drawn_line(draw: &mut Draw, level: u8, id: u32) -> Line {
    let x1 = coordinate(draw, level);
    let y1 = coordinate(draw, level);
    let x2 = coordinate(draw, level);
    let y2 = coordinate(draw, level);
    Line {
        id,
        ends: [x1, y1, x2, y2],
    }
}

/// The records of a line layer of drawn blocks, with up to three segments under rising ids.
pub fn drawn_lines(
    alloc: Global,
    draw: &mut Draw,
    layer: LineLayer,
) -> Result<Vec<Record>, AllocError> {
    let spans = drawn_spans(alloc, draw, layer.level)?;
    let mut lines = Vec::new(alloc);
    let mut id = draw.below(3);
    for _ in 0..draw.below(4) {
        lines.push(drawn_line(draw, layer.level, id))?;
        id = id.wrapping_add(1).wrapping_add(draw.below(3));
    }
    layer.records(alloc, &spans, &lines)
}

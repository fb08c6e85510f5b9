use crate::blocks::{Span, blank, paint, place_of, span_of};
use quilt_record::{Key, Record};
use std::alloc::{AllocError, Global};
use std::cmp::Ordering;

/// A line layer: its number, and the map's level.
#[derive(Clone, Copy)]
pub struct LineLayer {
    pub number: u16,
    pub level: u8,
}

/// A segment with its id and its two ends: x1, y1, x2, y2.
#[derive(Clone, Copy, PartialEq, Eq)]
pub struct Line {
    pub id: u32,
    pub ends: [u16; 4],
}

/// The corners of a block's closed square.
#[derive(Clone, Copy)]
struct Square {
    left: i64,
    top: i64,
    right: i64,
    under: i64,
}

/// The closed square of a block.
fn square_of(b: Span) -> Square {
    let (x, y) = place_of(b.code);
    let side = 1_i64.wrapping_shl(u32::from(b.k));
    let (left, top) = (i64::from(x), i64::from(y));
    Square {
        left,
        top,
        right: left.wrapping_add(side),
        under: top.wrapping_add(side),
    }
}

/// On which side of the segment's line a corner lies: the sign of a cross product.
fn turn(ends: &[i64; 4], x: i64, y: i64) -> Ordering {
    let [x1, y1, x2, y2] = *ends;
    let one = (x2.wrapping_sub(x1)).wrapping_mul(y.wrapping_sub(y1));
    let other = (y2.wrapping_sub(y1)).wrapping_mul(x.wrapping_sub(x1));
    one.cmp(&other)
}

/// Whether the range between two numbers, in either order, and another range have a number in both.
fn overlap(a: i64, b: i64, from: i64, to: i64) -> bool {
    from <= a.max(b) && a.min(b) <= to
}

/// Whether a segment meets the closed square: their boxes meet, and not all corners lie strictly on one side of its line.
fn is_met(s: &Line, b: Square) -> bool {
    let ends = s.ends.map(i64::from);
    if !overlap(ends[0], ends[2], b.left, b.right) || !overlap(ends[1], ends[3], b.top, b.under) {
        return false;
    }
    let turns = [
        turn(&ends, b.left, b.top),
        turn(&ends, b.right, b.top),
        turn(&ends, b.left, b.under),
        turn(&ends, b.right, b.under),
    ];
    let is_left = turns.iter().all(|t| *t == Ordering::Less);
    !is_left && !turns.iter().all(|t| *t == Ordering::Greater)
}

/// The segment of the record.
fn line_of(r: &Record) -> Line {
    let [a, b, c, d, e, f, g, h, ..] = r.value;
    Line {
        id: r.key.item,
        ends: [
            u16::from_be_bytes([a, b]),
            u16::from_be_bytes([c, d]),
            u16::from_be_bytes([e, f]),
            u16::from_be_bytes([g, h]),
        ],
    }
}

/// The value of the record of a segment.
fn value_of(s: &Line) -> [u8; 16] {
    let [x1, y1, x2, y2] = s.ends;
    let [a, b] = x1.to_be_bytes();
    let [c, d] = y1.to_be_bytes();
    let [e, f] = x2.to_be_bytes();
    let [g, h] = y2.to_be_bytes();
    [a, b, c, d, e, f, g, h, 0, 0, 0, 0, 0, 0, 0, 0]
}

impl LineLayer {
    /// The record of a block, with the id of a segment that meets it or with none.
    fn pair(&self, b: Span, id: Option<u32>) -> Record {
        let first = u8::from(id.is_some());
        Record {
            key: Key {
                layer: self.number,
                part: 3,
                code: b.code,
                depth: self.level.saturating_sub(b.k),
                item: id.unwrap_or(0),
            },
            value: [first, 0, 0, 0, 0, 0, 0, 0, 0, 0, 0, 0, 0, 0, 0, 0],
        }
    }

    /// The record of a segment.
    fn segment(&self, s: &Line) -> Record {
        Record {
            key: Key {
                layer: self.number,
                part: 4,
                code: 0,
                depth: 0,
                item: s.id,
            },
            value: value_of(s),
        }
    }

    /// Adds the records of one block.
    fn add_block(
        &self,
        records: &mut Vec<Record>,
        b: Span,
        lines: &[Line],
    ) -> Result<(), AllocError> {
        let before = records.len();
        let square = square_of(b);
        for s in lines {
            if is_met(s, square) {
                records.push(self.pair(b, Some(s.id)))?;
            }
        }
        if records.len() == before {
            records.push(self.pair(b, None))?;
        }
        Ok(())
    }

    /// The records of the layer with these blocks and segments: each block with the segments that meet its closed square, and the
    /// segments.
    pub fn records(
        &self,
        alloc: Global,
        blocks: &[Span],
        lines: &[Line],
    ) -> Result<Vec<Record>, AllocError> {
        let mut records = Vec::new(alloc);
        for b in blocks {
            self.add_block(&mut records, *b, lines)?;
        }
        for s in lines {
            records.push(self.segment(s))?;
        }
        Ok(records)
    }

    /// Whether each pixel of the square lies in one of the blocks alone.
    fn are_cover(&self, alloc: Global, blocks: &[Span]) -> Result<bool, AllocError> {
        let mut cells = blank(alloc, self.level, None)?;
        for b in blocks {
            if !paint(&mut cells, *b, 0) {
                return Ok(false);
            }
        }
        Ok(cells.iter().all(|c| c.is_some()))
    }

    /// The blocks of the records that are not those of segments, if each is of one in the square.
    fn blocks_of(
        &self,
        alloc: Global,
        records: &[Record],
    ) -> Result<Option<Vec<Span>>, AllocError> {
        let mut blocks: Vec<Span> = Vec::new(alloc);
        for r in records.iter().filter(|r| r.key.part != 4) {
            let Some(b) = span_of(&r.key, 3, self.level) else {
                return Ok(None);
            };
            if blocks.last() != Some(&b) {
                blocks.push(b)?;
            }
        }
        Ok(Some(blocks))
    }

    /// Whether the records are those of such a layer: their own blocks cover the square, the segments lie in it, and they are those
    /// that these blocks and segments ask for.
    pub fn is_spelled(&self, alloc: Global, records: &[Record]) -> Result<bool, AllocError> {
        let Some(blocks) = self.blocks_of(alloc, records)? else {
            return Ok(false);
        };
        if !self.are_cover(alloc, &blocks)? {
            return Ok(false);
        }
        let lines = lines_of(alloc, records)?;
        let side = 1_u16.wrapping_shl(u32::from(self.level));
        let are_inside = lines.iter().all(|s| s.ends.iter().all(|c| *c < side));
        let wanted = self.records(alloc, &blocks, &lines)?;
        Ok(are_inside && records == wanted.as_slice())
    }
}

/// The segments of the records that are those of segments.
fn lines_of(alloc: Global, records: &[Record]) -> Result<Vec<Line>, AllocError> {
    records
        .iter()
        .filter(|r| r.key.part == 4)
        .map(line_of)
        .collect(alloc)
}

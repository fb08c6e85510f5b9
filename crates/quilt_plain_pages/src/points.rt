use crate::blocks::{Span, blank, code_of, place_of, size};
use quilt_record::{Key, Record};
use std::alloc::{AllocError, Global};

/// A point layer: its number, the map's level, and how many points a block may hold.
#[derive(Clone, Copy)]
pub struct PointLayer {
    pub number: u16,
    pub level: u8,
    pub bucket: u8,
}

/// How many points have codes below each, up to the number of pixels.
fn counts_of(alloc: Global, labels: &[Option<u32>]) -> Result<Vec<u32>, AllocError> {
    let mut counts = Vec::new(alloc);
    let mut count = 0_u32;
    counts.push(count)?;
    for label in labels {
        count = count.wrapping_add(u32::from(label.is_some()));
        counts.push(count)?;
    }
    Ok(counts)
}

/// The value of a record that says a point at the pixel of a code.
fn value_of(code: u32, label: u32) -> [u8; 16] {
    let (x, y) = place_of(code);
    let [x1, x0] = x.to_be_bytes();
    let [y1, y0] = y.to_be_bytes();
    let [a, b, c, d] = label.to_be_bytes();
    [1, x1, x0, y1, y0, a, b, c, d, 0, 0, 0, 0, 0, 0, 0]
}

/// The code and the label of the point that the record says.
fn point_of(r: &Record) -> (Option<u32>, u32) {
    let [_, x1, x0, y1, y0, a, b, c, d, ..] = r.value;
    let x = u16::from_be_bytes([x1, x0]);
    let y = u16::from_be_bytes([y1, y0]);
    (code_of(x, y), u32::from_be_bytes([a, b, c, d]))
}

impl PointLayer {
    /// The largest block that begins at the code and holds no more points than a block may.
    fn block_from(&self, counts: &[u32], code: u32) -> Span {
        let before = counts.get(code as usize).copied().unwrap_or(0);
        for k in (0..=self.level).rev() {
            let end = code.saturating_add(size(k));
            let behind = counts.get(end as usize).copied().unwrap_or(before);
            if code.checked_rem(size(k)) == Some(0)
                && behind.wrapping_sub(before) <= u32::from(self.bucket)
            {
                return Span { code, k };
            }
        }
        Span { code, k: 0 }
    }

    /// The record of a block, under an item.
    fn record(&self, b: Span, item: u32, value: [u8; 16]) -> Record {
        Record {
            key: Key {
                layer: self.number,
                part: 2,
                code: b.code,
                depth: self.level.saturating_sub(b.k),
                item,
            },
            value,
        }
    }

    /// The item of a point at the code.
    fn item_of(&self, code: u32) -> u32 {
        if self.bucket == 1 {
            0
        } else {
            code.wrapping_add(1)
        }
    }

    /// Adds the records of one block.
    fn add_block(
        &self,
        records: &mut Vec<Record>,
        labels: &[Option<u32>],
        b: Span,
    ) -> Result<(), AllocError> {
        let before = records.len();
        for code in b.code..b.code.saturating_add(size(b.k)) {
            if let Some(Some(label)) = labels.get(code as usize) {
                records.push(self.record(b, self.item_of(code), value_of(code, *label)))?;
            }
        }
        if records.len() == before {
            records.push(self.record(b, 0, [0; 16]))?;
        }
        Ok(())
    }

    /// The records of the layer with these labels of points, each at the code of its pixel: the blocks are those that hold no more
    /// than a block may, and are the whole square or have a parent that holds more.
    pub fn records(
        &self,
        alloc: Global,
        labels: &[Option<u32>],
    ) -> Result<Vec<Record>, AllocError> {
        let counts = counts_of(alloc, labels)?;
        let mut records = Vec::new(alloc);
        let mut next = 0;
        for code in 0..size(self.level) {
            if code == next {
                let b = self.block_from(&counts, code);
                self.add_block(&mut records, labels, b)?;
                next = code.saturating_add(size(b.k));
            }
        }
        Ok(records)
    }

    /// The labels of the points of which the records tell, if each lies in the square.
    fn labels_of(
        &self,
        alloc: Global,
        records: &[Record],
    ) -> Result<Option<Vec<Option<u32>>>, AllocError> {
        let mut labels = blank(alloc, self.level, None)?;
        for r in records {
            if r.value[0] != 0 && !set_label(&mut labels, r) {
                return Ok(None);
            }
        }
        Ok(Some(labels))
    }

    /// Whether the records are those of such a layer: those of the points of which they tell.
    pub fn is_spelled(&self, alloc: Global, records: &[Record]) -> Result<bool, AllocError> {
        let Some(labels) = self.labels_of(alloc, records)? else {
            return Ok(false);
        };
        let wanted = self.records(alloc, &labels)?;
        Ok(records == wanted.as_slice())
    }
}

/// Writes the label of the record's point at its code, and tells whether it lies in the square.
fn set_label(labels: &mut [Option<u32>], r: &Record) -> bool {
    let (Some(code), label) = point_of(r) else {
        return false;
    };
    match labels.get_mut(code as usize) {
        None => false,
        Some(at) => {
            *at = Some(label);
            true
        }
    }
}

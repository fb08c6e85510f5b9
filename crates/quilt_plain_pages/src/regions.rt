use crate::blocks::{Span, blank, paint, size, span_of};
use quilt_record::{Key, Record};
use std::alloc::{AllocError, Global};

/// A region layer: its number, and the map's level and format.
#[derive(Clone, Copy)]
pub struct RegionLayer {
    pub number: u16,
    pub level: u8,
    pub format: u8,
}

/// Whether all pixels of the block have one colour.
fn is_uniform(cells: &[Option<u16>], b: Span) -> bool {
    let first = cells.get(b.code as usize);
    (b.code..b.code.saturating_add(size(b.k))).all(|code| cells.get(code as usize) == first)
}

/// The block of twice the side that holds the block.
fn parent(b: Span) -> Span {
    let k = b.k.saturating_add(1);
    let behind = b.code.checked_rem(size(k)).unwrap_or(0);
    Span {
        code: b.code.wrapping_sub(behind),
        k,
    }
}

impl RegionLayer {
    /// The block and the colour of the record, if it is one of such a layer.
    fn block_of(&self, r: &Record) -> Option<(Span, u16)> {
        let [low, high, ..] = r.value;
        let is_rest = r.value.iter().skip(2).all(|c| *c == 0);
        if (self.format == 1 && high != 0) || r.key.item != 0 || !is_rest {
            return None;
        }
        let b = span_of(&r.key, 1, self.level)?;
        Some((b, u16::from_le_bytes([low, high])))
    }

    /// The colours of the pixels, if the records are those of blocks of which no two have a pixel in both.
    fn cells_of(
        &self,
        alloc: Global,
        records: &[Record],
    ) -> Result<Option<Vec<Option<u16>>>, AllocError> {
        let mut cells = blank(alloc, self.level, None)?;
        for r in records {
            match self.block_of(r) {
                Some((b, colour)) if paint(&mut cells, b, colour) => {}
                _ => return Ok(None),
            }
        }
        Ok(Some(cells))
    }

    /// Whether the record is that of a block that is the whole square or has a parent of two colours.
    fn is_maximal(&self, r: &Record, cells: &[Option<u16>]) -> bool {
        match span_of(&r.key, 1, self.level) {
            None => false,
            Some(b) => b.k == self.level || !is_uniform(cells, parent(b)),
        }
    }

    /// Whether the records are those of such a layer: each pixel lies in one block, and each block is the whole square or its parent
    /// has two colours.
    pub fn is_spelled(&self, alloc: Global, records: &[Record]) -> Result<bool, AllocError> {
        let Some(cells) = self.cells_of(alloc, records)? else {
            return Ok(false);
        };
        let are_maximal = records.iter().all(|r| self.is_maximal(r, &cells));
        Ok(are_maximal && cells.iter().all(|c| c.is_some()))
    }

    /// The largest block of one colour that begins at the code.
    fn block_from(&self, cells: &[Option<u16>], code: u32) -> Span {
        for k in (0..=self.level).rev() {
            let b = Span { code, k };
            if code.checked_rem(size(k)) == Some(0) && is_uniform(cells, b) {
                return b;
            }
        }
        Span { code, k: 0 }
    }

    /// The record of a block of the colour.
    pub fn record(&self, b: Span, colour: u16) -> Record {
        let [low, high] = colour.to_le_bytes();
        Record {
            key: Key {
                layer: self.number,
                part: 1,
                code: b.code,
                depth: self.level.saturating_sub(b.k),
                item: 0,
            },
            value: [low, high, 0, 0, 0, 0, 0, 0, 0, 0, 0, 0, 0, 0, 0, 0],
        }
    }

    /// The records of the layer with these colours, of which each pixel has one.
    pub fn records(&self, alloc: Global, cells: &[Option<u16>]) -> Result<Vec<Record>, AllocError> {
        let mut records = Vec::new(alloc);
        let mut next = 0;
        for code in 0..size(self.level) {
            if code == next {
                let b = self.block_from(cells, code);
                let colour = cells.get(code as usize).copied().flatten().unwrap_or(0);
                records.push(self.record(b, colour))?;
                next = code.saturating_add(size(b.k));
            }
        }
        Ok(records)
    }
}

use crate::lines::LineLayer;
use crate::points::PointLayer;
use crate::regions::RegionLayer;
use quilt_record::{Key, Record};
use std::alloc::{AllocError, Global};

/// Whether the byte may stand in a name behind its first letter.
fn is_of_name(c: u8) -> bool {
    c.is_ascii_lowercase() || c.is_ascii_digit() || c == b'_'
}

/// Whether the first twelve bytes are a name: a letter, up to eleven letters, digits and underscores, and zeros behind them.
fn has_name(value: &[u8; 16]) -> bool {
    let long = value.iter().take(12).take_while(|c| **c != 0).count();
    value[0].is_ascii_lowercase()
        && value.iter().take(long).all(|c| is_of_name(*c))
        && value.iter().take(12).skip(long).all(|c| *c == 0)
}

/// Whether two records have one name.
fn have_one_name(a: &Record, b: &Record) -> bool {
    a.value
        .iter()
        .take(12)
        .zip(b.value.iter())
        .all(|(c, d)| c == d)
}

/// Whether a kind of layer may have this number beside it in the format: a threshold, or a capacity that is not 1.
fn fits(kind: u8, beside: u8, format: u8) -> bool {
    match kind {
        1 => beside == 0,
        2 => beside == 0 || (format == 2 && 2 <= beside && beside <= 16),
        3 => 1 <= beside && beside <= 32,
        _ => false,
    }
}

/// The record of the catalog for the layer of this number, whose name is one letter, with its kind and the number beside that.
pub fn entry(number: u32, letter: u8, kind: u8, beside: u8) -> Record {
    Record {
        key: Key {
            layer: 0,
            part: 0,
            code: 0,
            depth: 0,
            item: number,
        },
        value: [letter, 0, 0, 0, 0, 0, 0, 0, 0, 0, 0, 0, kind, beside, 0, 0],
    }
}

/// Whether the record is one of a layer of the catalog in the format.
fn is_entry(r: &Record, format: u8) -> bool {
    let is_key = r.key.part == 0 && r.key.code == 0 && r.key.depth == 0;
    let is_number = 1 <= r.key.item && r.key.item <= 255;
    let is_rest = r.value[14] == 0 && r.value[15] == 0;
    is_key && is_number && is_rest && fits(r.value[12], r.value[13], format) && has_name(&r.value)
}

/// Whether the records are those of a catalog, in which each name stands once.
fn is_catalog(entries: &[Record], format: u8) -> bool {
    entries.iter().enumerate().all(|(i, r)| {
        is_entry(r, format) && !entries.iter().take(i).any(|e| have_one_name(e, r))
    })
}

/// The records whose keys are those of one layer.
fn part_of(alloc: Global, records: &[Record], layer: u16) -> Result<Vec<Record>, AllocError> {
    records
        .iter()
        .filter(|r| r.key.layer == layer)
        .copied()
        .collect(alloc)
}

/// Whether the records are those of the layer that the entry of the catalog says.
fn is_layer(
    alloc: Global,
    entry: &Record,
    records: &[Record],
    level: u8,
    format: u8,
) -> Result<bool, AllocError> {
    let number = u16::try_from(entry.key.item).unwrap_or(0);
    match entry.value[12] {
        1 => RegionLayer {
            number,
            level,
            format,
        }
        .is_spelled(alloc, records),
        2 => PointLayer {
            number,
            level,
            bucket: entry.value[13].max(1),
        }
        .is_spelled(alloc, records),
        _ => LineLayer { number, level }.is_spelled(alloc, records),
    }
}

/// Whether records whose keys ascend spell a map of the level in the format.
pub fn is_map(
    alloc: Global,
    records: &[Record],
    level: u8,
    format: u8,
) -> Result<bool, AllocError> {
    let catalog = part_of(alloc, records, 0)?;
    if !is_catalog(&catalog, format) {
        return Ok(false);
    }
    let mut count = catalog.len();
    for entry in &catalog {
        let number = u16::try_from(entry.key.item).unwrap_or(0);
        let own = part_of(alloc, records, number)?;
        if !is_layer(alloc, entry, &own, level, format)? {
            return Ok(false);
        }
        count = count.wrapping_add(own.len());
    }
    Ok(count == records.len())
}

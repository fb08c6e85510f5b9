ghost use Rattle.std.specs.Prelude.{◌<◌, ◌≤◌};

use super::planted::{NO_MAP, refusal};
use quilt_record::{Key, Record};
use quilt_types::Stop;
use std::alloc::{AllocError, Global};
use std::test::Fail;

/// Numbers that are drawn one after another.
#[derive(Drop)]
pub struct Draw(pub u32);

impl Draw {
    /// The next number, below this one.
    pub fn below(&mut self, most: u32) -> u32
        requires { 1 ≤ most }
        ensures { result < most }
    {
        self.0 = self.0.wrapping_mul(1664525).wrapping_add(1013904223);
        (self.0 >> 8) % most
    }

    /// The next number, from 1 up to one of four or fewer.
    pub fn of_four(&mut self, most: u32) -> u8
        requires { (1 ≤ most) × (most ≤ 4) }
    {
        (1 + self.below(most)) as u8
    }
}

/// How many of the drawn lists of records were maps, and how many were not.
#[derive(Drop)]
pub struct Tally {
    pub taken: u32,
    pub refused: u32,
}

impl Tally {
    /// No list yet.
    pub fn new() -> Tally {
        Tally {
            taken: 0,
            refused: 0,
        }
    }

    /// Counts a list whose keys rise or do not, and whose records are those of a layer or are not: what an audit has to answer.
    pub fn wanted(&mut self, rises: bool, is_layer: bool) -> Option<Stop> {
        if rises && is_layer {
            self.taken = self.taken.saturating_add(1);
            return None;
        }
        self.refused = self.refused.saturating_add(1);
        if rises {
            NO_MAP
        } else {
            Some(Stop::Damaged { page: 1 })
        }
    }
}

/// Whether the keys rise.
pub fn rise(records: &[Record]) -> bool {
    let mut last = Key {
        layer: 0,
        part: 0,
        code: 0,
        depth: 0,
        item: 0,
    };
    for r in records {
        if r.key <= last {
            return false;
        }
        last = r.key;
    }
    true
}

/// Changes one part of a record by 1 or 2.
fn change(r: &mut Record, part: u32, by: u8) {
    match part {
        0..16 => r.value[part as usize] ^= by,
        16 | 17 => r.key.item = r.key.item.wrapping_add(u32::from(by)),
        18 | 19 => r.key.code ^= u32::from(by),
        20 => r.key.depth ^= by,
        _ => r.key.part ^= by,
    }
}

/// One record, drawn, with one part of it changed by a drawn number.
pub fn changed(draw: &mut Draw, records: &mut [Record]) {
    let by = draw.of_four(2);
    let part = draw.below(22);
    if !records.is_empty() {
        let at = draw.below(64) as usize % records.len();
        change(&mut records[at], part, by);
    }
}

/// What an audit answers of a tree of one leaf with the records behind this one of the catalog.
pub fn answered(
    alloc: Global,
    first: Record,
    records: &[Record],
    level: u8,
) -> Result<Option<Stop>, Fail> {
    refusal(alloc, &behind(alloc, first, records)?, 2, level)
}

/// The records behind this one.
fn behind(alloc: Global, first: Record, records: &[Record]) -> Result<Vec<Record>, AllocError> {
    let mut all = Vec::new(alloc);
    all.push(first)?;
    all.extend_from_slice(records)?;
    Ok(all)
}

ghost use Rattle.std.specs.Prelude.{◌≤◌};

use crate::algebra::{bounded, listed, moved, shown, united};
use crate::drawing::{CATALOG, drawn_map, drawn_pixel, key_of, key_with, record_of};
use crate::planted::Planted;
use quilt_batch::merged;
use quilt_btree::{Batch, Edit};
use quilt_plain::Dice;
use quilt_record::Record;
use quilt_region::{plan_new, plan_replace};
use quilt_types::{Colour, Stop};
use std::alloc::Global;

/// How long a run is.
const RUN: usize = 1000;

/// What can be measured.
pub const WORDS: [&str; 14] = [
    "fill",
    "drain",
    "get",
    "floor",
    "walk",
    "rect",
    "replace",
    "audit",
    "form",
    "leaves",
    "render",
    "union",
    "shift",
    "perimeter",
];

/// How large the tree or the map is, and how often a call is made.
#[derive(Clone, Copy)]
pub struct Sizes {
    pub records: u32,
    pub level: u32,
    pub calls: u32,
}

/// A sum of what the calls of this word answer.
pub fn measured(alloc: Global, word: &str, sizes: Sizes) -> anyhow::Result<u64> {
    let Sizes { records, calls, .. } = sizes;
    let level = sizes.level.clamp(1, 12) as u8;
    match word {
        "fill" => Ok(u64::from(filled(alloc, records, calls)?.len())),
        "drain" => drained(alloc, records, calls),
        "get" => got(alloc, records, calls),
        "floor" => floored(alloc, records, calls),
        "walk" => walked(alloc, records, calls),
        "rect" => painted(alloc, level, calls),
        "replace" => replaced(alloc, level, calls),
        "audit" => audited(alloc, level, calls),
        "form" => formed(alloc, level, calls),
        "leaves" => Ok(listed(alloc, level, calls)?),
        "render" => Ok(shown(alloc, level, calls)?),
        "union" => Ok(united(alloc, level, calls)?),
        "shift" => Ok(moved(alloc, level, calls)?),
        _ => Ok(bounded(alloc, level, calls)?),
    }
}

/// A tree of records in ascending order, put in by runs. Where no call is asked for, the runs are only made.
fn filled(alloc: Global, records: u32, calls: u32) -> anyhow::Result<Planted> {
    let mut planted = Planted::new(alloc, records)?;
    let mut batch = Batch::new(alloc);
    for number in 0..records {
        let _ = batch.push(Edit::Put {
            record: record_of(number),
        })?;
        if batch.edits().len() == RUN || number + 1 == records {
            if calls > 0 {
                planted = planted.changed(&batch)?;
            }
            batch = Batch::new(alloc);
        }
    }
    Ok(planted)
}

/// Takes all records of such a tree out by runs. Where no call is asked for, the runs are only made.
fn drained(alloc: Global, records: u32, calls: u32) -> anyhow::Result<u64> {
    let mut planted = filled(alloc, records, 1)?;
    let mut batch = Batch::new(alloc);
    for number in 0..records {
        let _ = batch.push(Edit::Remove {
            key: key_of(number),
        })?;
        if batch.edits().len() == RUN || number + 1 == records {
            if calls > 0 {
                planted = planted.changed(&batch)?;
            }
            batch = Batch::new(alloc);
        }
    }
    Ok(u64::from(planted.len()))
}

/// Gets drawn keys, of which half are there.
fn got(alloc: Global, records: u32, calls: u32) -> anyhow::Result<u64> {
    let mut planted = filled(alloc, records, 1)?;
    let mut dice = Dice::new(7);
    let mut sum = 0_u64;
    for _ in 0..calls {
        let k = key_with(dice.below(records.saturating_mul(2)));
        if let Some(value) = planted.get(&k)? {
            sum = sum.wrapping_add(u64::from(value[0]));
        }
    }
    Ok(sum)
}

/// Seeks the records at or before drawn keys.
fn floored(alloc: Global, records: u32, calls: u32) -> anyhow::Result<u64> {
    let mut planted = filled(alloc, records, 1)?;
    let mut dice = Dice::new(7);
    let mut sum = 0_u64;
    for _ in 0..calls {
        let k = key_with(dice.below(records.saturating_mul(2)));
        if let Some(r) = planted.floor(&k)? {
            sum = sum.wrapping_add(u64::from(r.key.code));
        }
    }
    Ok(sum)
}

/// Goes over all records by a cursor.
fn walked(alloc: Global, records: u32, calls: u32) -> anyhow::Result<u64> {
    let mut planted = filled(alloc, records, 1)?;
    let mut sum = 0_u64;
    for _ in 0..calls {
        sum = sum.wrapping_add(planted.walk(&key_of(0))?);
    }
    Ok(sum)
}

/// The tree with some records more, which are in the order of their keys.
fn with_records(alloc: Global, planted: Planted, records: &[Record]) -> anyhow::Result<Planted> {
    let batch = merged(alloc, &[], records)?.ok_or(Stop::Damaged { page: 0 })?;
    Ok(planted.changed(&batch)?)
}

/// A drawn map of one region layer in a tree.
fn mapped(alloc: Global, level: u8) -> anyhow::Result<Planted>
    requires least { 1 ≤ level }
    requires most { level ≤ 12 }
{
    let list = drawn_map(alloc, level, 1)?;
    let plan = plan_new(alloc, 1, &list)?;
    let records = plan.add.records();
    let mut planted = Planted::new(alloc, u32::try_from(records.len())?)?;
    planted = with_records(alloc, planted, &[CATALOG])?;
    for run in records.chunks(RUN) {
        planted = with_records(alloc, planted, run)?;
    }
    Ok(planted)
}

/// Plans the painting of drawn pixels.
fn painted(alloc: Global, level: u8, calls: u32) -> anyhow::Result<u64>
    requires { (1 ≤ level) × (level ≤ 12) }
{
    let mut planted = mapped(alloc, level)?;
    let mut dice = Dice::new(7);
    let mut sum = 0_u64;
    for _ in 0..calls {
        let pixel = drawn_pixel(&mut dice, level);
        let edits = planted.rect(alloc, level, pixel, Colour(2000))?;
        sum = sum.wrapping_add(edits);
    }
    Ok(sum)
}

/// Plans the change of a drawn map to another, which has few leaves in common with it.
fn replaced(alloc: Global, level: u8, calls: u32) -> anyhow::Result<u64>
    requires { (1 ≤ level) × (level ≤ 12) }
{
    let old = drawn_map(alloc, level, 1)?;
    let new = drawn_map(alloc, level, 2)?;
    let mut sum = 0_u64;
    for _ in 0..calls {
        let edits = plan_replace(alloc, 1, &old, &new)?;
        sum = sum.wrapping_add(edits.remove.records().len() as u64);
    }
    Ok(sum)
}

/// Audits a map.
fn audited(alloc: Global, level: u8, calls: u32) -> anyhow::Result<u64>
    requires { (1 ≤ level) × (level ≤ 12) }
{
    let mut planted = mapped(alloc, level)?;
    let mut sum = u64::from(planted.len());
    for _ in 0..calls {
        sum = sum.wrapping_add(planted.audit(alloc, level)?);
    }
    Ok(sum)
}

/// Reads the pages of a map, and checks their form.
fn formed(alloc: Global, level: u8, calls: u32) -> anyhow::Result<u64>
    requires { (1 ≤ level) × (level ≤ 12) }
{
    let mut planted = mapped(alloc, level)?;
    let mut sum = 0_u64;
    for _ in 0..calls {
        sum = sum.wrapping_add(planted.well_formed());
    }
    Ok(sum)
}

use super::changes::{Change, change_spelling, change_tree, drawn_change};
use super::drawing::Draw;
use super::judging::{Claim, judge};
use super::tally::Tally;
use super::writing::write_tree;
use quilt_record::Record;
use std::alloc::Global;
use std::process::Abort;
use std::test::Fail;

/// A drawn map: its format, its level, and its records in the order of their keys.
#[derive(Drop)]
pub struct Chart {
    pub format: u8,
    pub level: u8,
    pub records: Vec<Record>,
}

/// The height of most trees of the round: one in ten is 3, and of the others one in three is 1.
fn height_of(round: u32) -> u8 {
    match (round % 10, round % 3) {
        (0, _) => 3,
        (_, 1) => 1,
        _ => 2,
    }
}

/// A level whose layers make trees of such a height, as drawn here. A tree of height 3 has at least 255 leaves.
pub fn drawn_level(draw: &mut Draw, round: u32) -> u8 {
    match height_of(round) {
        1 => draw.between(1, 3),
        2 => draw.between(5, 6),
        _ => 8,
    }
}

/// How many pages a file of such a level has.
fn pages_for(level: u8) -> u32 {
    match level {
        1..=3 => 16,
        4..=7 => 160,
        _ => 1000,
    }
}

/// How many records the header says: now and then one more or one fewer than there are.
fn claimed(draw: &mut Draw, records: usize) -> u32 {
    let count = u32::try_from(records).unwrap_or(0);
    match draw.below(24) {
        0 => count.saturating_sub(1).max(1),
        1 => count.saturating_add(1),
        _ => count,
    }
}

/// Writes a map as a tree with a drawn change, and compares an audit with a plain reading.
pub fn try_chart(
    rt: &impl Abort,
    alloc: Global,
    draw: &mut Draw,
    mut chart: Chart,
    tally: &mut Tally,
) -> Result<(), Fail> {
    let change = drawn_change(draw);
    if change == Change::Spelling {
        change_spelling(draw, &mut chart.records)?;
    }
    let mut tree = write_tree(alloc, draw, &chart.records, pages_for(chart.level))?;
    change_tree(alloc, draw, &mut tree, change)?;
    let claim = Claim {
        format: chart.format,
        level: chart.level,
        records: claimed(draw, chart.records.len()),
    };
    judge(rt, alloc, &tree, claim, tally)
}

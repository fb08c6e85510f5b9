use crate::edition::wanted_edition;
use crate::files::map_file;
use crate::steps::{Outcome, Trial, Work, left, opened, plain_trial};
use crate::wanted::Wanted;
use quilt_desk::Desk;
use std::alloc::Global;
use std::test::Fail;

/// What a publish of so many pages has to come to: a stop leaves the last edition until the gate is written, the next one once it is
/// synced, and one of the two between. The log has a write of each slot, of the directory and of the gate, of each home page
/// and of the gate again, and four syncs.
fn wanted(count: u32) -> Wanted {
    let pages = count as usize;
    Wanted {
        outcome: Outcome::Published(7),
        events: Some(2 * pages + 9),
        old: wanted_edition(6, 0, 1),
        new: wanted_edition(7, count, 2),
        first: pages + 4,
        last: pages + 5,
        is_torn: false,
    }
}

/// Whether a publish of so many pages over a pool tells the next edition, and each stop by these choices leaves what it has to.
fn is_published(alloc: Global, pool: u32, count: u32, choices: &[u8]) -> Result<bool, Fail> {
    let trial = Trial {
        pool,
        ..plain_trial(Work::First(count))
    };
    wanted(count).is_met(alloc, map_file(alloc)?, trial, choices)
}

/// Whether that is so over a pool that holds eight pages, and over one that holds all.
fn is_published_over_both(alloc: Global, count: u32, choices: &[u8]) -> Result<bool, Fail> {
    Ok(is_published(alloc, 8, count, choices)? && is_published(alloc, 4096, count, choices)?)
}

// After each publish the file tells the next edition, whether the pool holds all changed pages or not.
#[test]
fn each_publish_tells_the_next_edition(rt: HostRuntime) -> Result<(), Fail> {
    for count in 1..41_u32 {
        assert!(rt;
            is_published_over_both(rt.alloc(), count, &[])?,
            "{count} pages"
        );
    }
    Ok(())
}

/// All choices of what a stop leaves.
static CHOICES: [u8; 7] = [0, 1, 2, 3, 4, 5, 6];

// Publishes of 1 to 40 pages.
#[test]
fn each_stop_leaves_old_or_new(rt: HostRuntime) -> Result<(), Fail> {
    for count in 1..41_u32 {
        assert!(rt;
            is_published_over_both(rt.alloc(), count, &CHOICES)?,
            "{count} pages"
        );
    }
    Ok(())
}

/// What opening a file with an open gate has to come to: it is carried home with a write of each home page and of the gate, and
/// two syncs, and a stop leaves the next edition wherever it comes.
fn wanted_again(count: u32) -> Wanted {
    let wanted = wanted(count);
    Wanted {
        outcome: Outcome::Read(wanted.new),
        events: Some(count as usize + 4),
        first: 0,
        last: 0,
        ..wanted
    }
}

/// Whether opening the file that a stop leaves comes to that.
fn is_carried_home(
    alloc: Global,
    desk: &Desk,
    count: u32,
    events: usize,
    choice: u8,
) -> Result<bool, Fail> {
    let file = left(desk, events, choice)?;
    wanted_again(count).is_met(alloc, file, plain_trial(Work::Read), &[choice])
}

/// The choices of a stop that is followed by another one.
static FIRST_CHOICES: [u8; 4] = [0, 1, 2, 4];

/// Whether that is so after a stop at this event by each choice.
fn is_always_carried_home(
    alloc: Global,
    desk: &Desk,
    count: u32,
    events: usize,
) -> Result<bool, Fail> {
    for choice in &FIRST_CHOICES {
        if !is_carried_home(alloc, desk, count, events, *choice)? {
            return Ok(false);
        }
    }
    Ok(true)
}

/// Whether that is so after a stop at each event while the gate is open.
fn leaves_new(alloc: Global, desk: &Desk, count: u32) -> Result<bool, Fail> {
    let pages = count as usize;
    for events in pages + 5..2 * pages + 8 {
        if !is_always_carried_home(alloc, desk, count, events)? {
            return Ok(false);
        }
    }
    Ok(true)
}

/// Whether that is so in a publish of so many pages.
fn leaves_new_twice(alloc: Global, count: u32) -> Result<bool, Fail> {
    let (_, desk) = opened(alloc, map_file(alloc)?, plain_trial(Work::First(count)))?;
    leaves_new(alloc, &desk, count)
}

/// How many pages are published.
static COUNTS: [u32; 4] = [1, 9, 20, 40];

// A stop while an open gate is carried home leaves the next edition too.
#[test]
fn each_second_stop_leaves_new(rt: HostRuntime) -> Result<(), Fail> {
    for count in &COUNTS {
        assert!(rt; leaves_new_twice(rt.alloc(), *count)?, "{count} pages");
    }
    Ok(())
}

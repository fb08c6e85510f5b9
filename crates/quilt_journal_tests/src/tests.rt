use crate::calls::{events_of, is_torn, pages_of, torn_writes};
use crate::files::{foreign_file, map_file};
use crate::steps::{Outcome, Work, left, opened, reopened};
use quilt_desk::{Desk, choices};
use std::alloc::Global;
use std::process::Abort;
use std::test::Fail;

const OLD: [u8; 16] = [0, 1, 2, 3, 4, 5, 6, 7, 8, 9, 10, 11, 12, 13, 14, 15];

const NEW: [u8; 16] = [9, 1, 2, 3, 4, 9, 6, 7, 8, 9, 10, 11, 12, 13, 14, 9];

// A publish of three pages writes each to its slot, the directory, the gate, each to its home, and the gate.
const WRITES: u32 = 9;

/// What a stop may leave: the old pages after fewer events than `last`, and the new ones after `first` events or more.
#[derive(Clone, Copy)]
struct Wanted {
    first: usize,
    last: usize,
}

impl Wanted {
    /// Whether a stop after so many events may leave this.
    fn allows(self, events: usize, found: &Outcome) -> bool {
        events < self.last && *found == Outcome::Read(OLD)
            || self.first <= events && *found == Outcome::Read(NEW)
    }

    /// Whether a stop after each event leaves what it has to, by the choice of this number.
    fn is_left(self, alloc: Global, desk: &Desk, choice: u8) -> Result<bool, Fail> {
        for events in 0..=events_of(desk) {
            let found = reopened(alloc, left(desk, events, choice)?)?;
            if !self.allows(events, &found) {
                return Ok(false);
            }
        }
        Ok(true)
    }
}

/// How many writes of a desk with a file of 35 pages leave their page torn where it is stopped right behind them.
fn torn_by(desk: &Desk) -> Result<u32, Fail> {
    Ok(torn_writes(desk, &choices::<35>(2))?)
}

/// What a publish of three pages of a new map file comes to where the call of this number fails, and the desk as that leaves it.
fn published(alloc: Global, failing: u64) -> Result<(Outcome, Desk), Fail> {
    opened(alloc, map_file(alloc)?, failing, Work::Publish)
}

/// A stop at each event of a whole publish leaves the old pages or the new ones, first the old ones and at last the new ones.
fn stops(rt: &impl Abort, alloc: Global, desk: &Desk) -> Result<(), Fail> {
    let wanted = Wanted { first: 1, last: 13 };
    assert!(rt; pages_of(desk) == 35 && events_of(desk) == 13);
    assert!(rt; torn_by(desk)? == WRITES);
    for k in 0..23_u8 {
        assert!(rt; wanted.is_left(alloc, desk, k)?, "choice {k}");
    }
    Ok(())
}

// At each event of a publish a stop leaves the old pages or the new ones, and at last the new ones.
#[test]
fn each_stop_leaves_old_or_new(rt: HostRuntime) -> Result<(), Fail> {
    let (outcome, desk) = published(rt.alloc(), 0)?;
    assert!(rt; outcome == Outcome::Published);
    stops(&rt, rt.alloc(), &desk)
}

/// Whether a desk has carried the three pages home and closed the gate, and a stop at each event of that leaves the new pages.
fn is_carried_home(alloc: Global, desk: &Desk, choice: u8) -> Result<bool, Fail> {
    let wanted = Wanted { first: 0, last: 0 };
    Ok(pages_of(desk) == 35 && torn_by(desk)? == 4 && wanted.is_left(alloc, desk, choice)?)
}

/// Whether that is so of a desk that opens what a stop after eight events leaves.
fn carries_home(alloc: Global, desk: &Desk, choice: u8) -> Result<bool, Fail> {
    let file = left(desk, 8, choice)?;
    let (outcome, again) = opened(alloc, file, 0, Work::Read)?;
    Ok(outcome == Outcome::Read(NEW) && is_carried_home(alloc, &again, choice)?)
}

/// A stop of a whole publish while the gate is open, and a second one.
fn stops_twice(rt: &impl Abort, alloc: Global, desk: &Desk) -> Result<(), Fail> {
    assert!(rt; pages_of(desk) == 35 && events_of(desk) == 13);
    for k in 0..5_u8 {
        assert!(rt; carries_home(alloc, desk, k)?, "choice {k}");
    }
    Ok(())
}

// A stop while an open gate is carried home leaves the new pages too.
#[test]
fn second_stop_leaves_new(rt: HostRuntime) -> Result<(), Fail> {
    let (outcome, desk) = published(rt.alloc(), 0)?;
    assert!(rt; outcome == Outcome::Published);
    stops_twice(&rt, rt.alloc(), &desk)
}

/// Whether a stop at each event of a publish with a fault leaves the old pages or the new ones.
fn is_either(alloc: Global, desk: &Desk) -> Result<bool, Fail> {
    let wanted = Wanted {
        first: 0,
        last: usize::MAX,
    };
    Ok(pages_of(desk) == 35 && wanted.is_left(alloc, desk, 2)?)
}

/// Whether a publish whose call of this number fails is stopped and leaves the old pages or the new ones, and whether it leaves a
/// page torn.
fn leaves_either(alloc: Global, failing: u64) -> Result<(bool, bool), Fail> {
    let (outcome, desk) = published(alloc, failing)?;
    let is_stopped = outcome == Outcome::Stopped;
    Ok((is_stopped && is_either(alloc, &desk)?, is_torn(&desk)))
}

// A call that fails leaves the old pages or the new ones, also where it is a write, which tears its page.
#[test]
fn each_fault_leaves_old_or_new(rt: HostRuntime) -> Result<(), Fail> {
    let mut torn = 0_u32;
    for failing in 2..20_u64 {
        let (is_either, is_torn) = leaves_either(rt.alloc(), failing)?;
        assert!(rt; is_either, "call {failing}");
        torn = torn.saturating_add(u32::from(is_torn));
    }
    assert!(rt; torn == WRITES);
    Ok(())
}

/// Whether opening a file with this gate and this first byte of its directory comes to what it should.
fn reads_gate(alloc: Global, gate: u8, listed: u8) -> Result<bool, Fail> {
    let mut want = OLD;
    if gate == 1 && listed == 1 {
        want[0] = 77;
    }
    Ok(reopened(alloc, foreign_file(alloc, gate, listed)?)? == Outcome::Read(want))
}

// A gate is open only where its first byte is 1; bits beyond the home pages mean nothing.
#[test]
fn reads_foreign_gates(rt: HostRuntime) -> Result<(), Fail> {
    for (gate, listed) in [(7, 1), (0, 1), (1, 0), (1, 1)] {
        assert!(rt;
            reads_gate(rt.alloc(), gate, listed)?,
            "gate {gate}, bits {listed}"
        );
    }
    Ok(())
}

use crate::edition::wanted_edition;
use crate::files::map_file;
use crate::steps::{Outcome, Trial, Work, plain_trial};
use crate::wanted::Wanted;
use quilt_types::Stop;
use std::alloc::Global;
use std::test::Fail;

/// What a publish of 12 pages whose call of this number fails has to come to: it leaves the last edition before the write of the gate,
/// which is the call 20, and the next one behind the sync of the gate, which is the call 21.
fn wanted(failing: u64) -> Wanted {
    Wanted {
        outcome: if failing < 42 {
            Outcome::Stopped(Stop::Device)
        } else {
            Outcome::Published(7)
        },
        events: None,
        old: wanted_edition(6, 0, 1),
        new: wanted_edition(7, 12, 2),
        first: if failing < 21 { usize::MAX } else { 16 },
        last: if failing < 22 { usize::MAX } else { 17 },
        is_torn: failing == 20,
    }
}

/// Whether a publish over a pool of eight pages comes to that.
fn is_old_or_new(alloc: Global, failing: u64) -> Result<bool, Fail> {
    let trial = Trial {
        failing,
        ..plain_trial(Work::First(12))
    };
    wanted(failing).is_met(alloc, map_file(alloc)?, trial, &[0, 1, 2, 4])
}

// Of the calls the first opens the file and the next three read its label, its gate and its header. Thirteen slots, the
// directory and the gate are written with two syncs, which ends with the call 21. Thirteen home pages are written, of which
// nine lie in memory, the pool's eight and the header, and the slots of the other four are read; a write and two syncs close
// the gate. Whichever fails, a stop leaves the last edition up to the write of the gate, and the next one after its sync.
#[test]
fn each_failing_call_leaves_old_or_new(rt: HostRuntime) -> Result<(), Fail> {
    for failing in 2..43_u64 {
        assert!(rt; is_old_or_new(rt.alloc(), failing)?, "call {failing}");
    }
    Ok(())
}

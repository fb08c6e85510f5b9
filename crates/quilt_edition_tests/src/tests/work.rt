use crate::edition::wanted_edition;
use crate::files::map_file;
use crate::steps::{Outcome, Work, plain_trial};
use crate::wanted::Wanted;
use std::alloc::Global;
use std::test::Fail;

/// Whether a page that is given after so many pages were written is not published.
fn is_not_published(alloc: Global, count: u32) -> Result<bool, Fail> {
    let mut wanted = Wanted {
        outcome: Outcome::Published(7),
        events: None,
        old: wanted_edition(6, 0, 1),
        new: wanted_edition(7, count, 2),
        first: 0,
        last: 0,
        is_torn: false,
    };
    wanted.new.versions[8] = 1;
    wanted.is_met(
        alloc,
        map_file(alloc)?,
        plain_trial(Work::Given(count)),
        &[],
    )
}

// A given page is not published, dirty in the pool or in its slot.
#[test]
fn a_given_page_is_not_published(rt: HostRuntime) -> Result<(), Fail> {
    assert!(rt; is_not_published(rt.alloc(), 4)?);
    assert!(rt; is_not_published(rt.alloc(), 20)?);
    Ok(())
}

// A page that leaves the pool twice before a publish is published as it was written last; a stop leaves it as it was published
// before, or so. The log has two writes of each slot.
#[test]
fn a_page_leaves_the_pool_twice(rt: HostRuntime) -> Result<(), Fail> {
    let wanted = Wanted {
        outcome: Outcome::Published(7),
        events: Some(69),
        old: wanted_edition(6, 0, 1),
        new: wanted_edition(7, 20, 3),
        first: 44,
        last: 45,
        is_torn: false,
    };
    let trial = plain_trial(Work::Twice);
    assert!(rt; wanted.is_met(rt.alloc(), map_file(rt.alloc())?, trial, &[0, 1, 2, 3])?);
    Ok(())
}

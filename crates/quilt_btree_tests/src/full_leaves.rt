//! How full leaves come out that a batch fills in the order of its keys.
use crate::trial::{Step, Trial};
use std::alloc::Global;
use std::process::Abort;
use std::test::Fail;

/// Runs of records, each with keys above those before it, and how many pages the tree has behind them.
struct Filling {
    runs: [u32; 3],
    pages: u32,
}

/// A leaf takes 144 records and has 72 at least, so the 145th record makes a new leaf only where 71 more come with it, and else parts the full one.
const FILLINGS: [Filling; 8] = [
    Filling {
        runs: [144, 0, 0],
        pages: 1,
    },
    Filling {
        runs: [288, 0, 0],
        pages: 3,
    },
    Filling {
        runs: [1440, 0, 0],
        pages: 11,
    },
    Filling {
        runs: [144, 72, 72],
        pages: 3,
    },
    Filling {
        runs: [144, 71, 73],
        pages: 4,
    },
    Filling {
        runs: [100, 116, 72],
        pages: 3,
    },
    Filling {
        runs: [145, 143, 0],
        pages: 4,
    },
    Filling {
        runs: [20000, 20000, 0],
        pages: 281,
    },
];

/// Fills an empty tree over this many pages by runs, and tells how many it uses.
fn filled(rt: &impl Abort, alloc: Global, pages: u32, runs: &[u32]) -> Result<u32, Fail> {
    let mut trial = Trial::new(alloc, pages)?;
    let mut first = 0_u32;
    for count in runs {
        trial.does(rt, alloc, Step::Come((first, 1, *count), 1))?;
        first = first.wrapping_add(*count);
        trial.compare_all(rt, alloc, first)?;
    }
    Ok(pages.wrapping_sub(trial.grown.free_pages()).wrapping_sub(1))
}

#[test]
fn leaves_filled_in_order_are_full(rt: HostRuntime) -> Result<(), Fail> {
    for filling in &FILLINGS {
        assert_eq!(rt;
            filled(&rt, rt.alloc(), 1200, &filling.runs)?,
            filling.pages
        );
    }
    Ok(())
}

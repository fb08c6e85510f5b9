use crate::trial::{Step, Trial, draw, puts_of};
use std::alloc::Global;
use std::process::Abort;
use std::test::Fail;

#[test]
fn leaves_split_and_join(rt: HostRuntime) -> Result<(), Fail> {
    let mut trial = Trial::new(rt.alloc(), 16)?;
    for n in 0..145_u32 {
        trial.insert(&rt, n, 1)?;
    }
    assert!(rt; trial.has(2, 145) && trial.has_free(12, 12));
    trial.insert(&rt, 7, 2)?;
    assert!(rt; trial.has(2, 145));
    trial.remove(&rt, 70)?;
    trial.remove(&rt, 3)?;
    assert!(rt; trial.has(1, 143) && trial.has_free(14, 14));
    Ok(())
}

/// Takes the records of two numbers out of a tree of the numbers below 145.
fn remove_two(rt: &impl Abort, alloc: Global, first: u32, second: u32) -> Result<(), Fail> {
    let mut trial = Trial::new(alloc, 16)?;
    trial.apply(rt, alloc, &puts_of(alloc, (0, 1, 145), 1)?)?;
    trial.remove(rt, first)?;
    trial.remove(rt, second)?;
    assert!(rt; trial.has(1, 143) && trial.has_free(14, 14));
    Ok(())
}

#[test]
fn any_two_of_145_records_are_removed(rt: HostRuntime) -> Result<(), Fail> {
    for first in 0..145_u32 {
        for second in 0..first {
            remove_two(&rt, rt.alloc(), first, second)?;
        }
    }
    Ok(())
}

/// Inserts the numbers below 512, which are as many as 16 pages may hold, `step` from each other, and one more. Then all go at once.
fn fill_to_quota(rt: &impl Abort, alloc: Global, step: u32) -> Result<(), Fail> {
    let mut trial = Trial::new(alloc, 16)?;
    let mut n = 0_u32;
    for _ in 0..512_u32 {
        trial.insert(rt, n % 512, 3)?;
        n = n.wrapping_add(step);
    }
    assert!(rt; trial.grown.tree.records == 512);
    trial.insert(rt, 600, 3)?;
    assert!(rt; trial.grown.tree.records == 512);
    plays(rt, alloc, &mut trial, "a tree at its quota", &FROM_QUOTA)
}

/// How a tree of 512 records in 16 pages is taken down.
static FROM_QUOTA: [Step; 5] = [
    Step::Free(6, 15),
    Step::Same(300),
    Step::Go((0, 1, 512)),
    Step::Has(0, 0),
    Step::Free(15, 15),
];

#[test]
fn a_tree_reaches_its_quota(rt: HostRuntime) -> Result<(), Fail> {
    for step in [1, 511, 77] {
        fill_to_quota(&rt, rt.alloc(), step)?;
    }
    Ok(())
}

/// Runs of edits that are made at once, by their names: how many pages the store has, and what is done and has to hold.
static RUNS: [(&str, u32, &[Step]); 6] = [
    (
        "runs come before records of the leaf to which they lead",
        64,
        &[
            Step::Come((5000, 1, 144), 1),
            Step::Come((1000, 1, 1440), 2),
            Step::Same(3000),
            Step::Come((3000, 1, 1440), 3),
            Step::Same(5001),
            Step::Go((1000, 1, 1440)),
            Step::Same(3000),
        ],
    ),
    (
        "a run goes over three leaves",
        32,
        &[
            Step::Come((0, 4, 300), 1),
            Step::Has(2, 300),
            Step::Come((102, 8, 80), 2),
            Step::Same(502),
            Step::Go((102, 16, 40)),
            Step::Same(502),
            Step::Go((0, 4, 300)),
            Step::Same(502),
            Step::Has(1, 40),
        ],
    ),
    (
        "a run splits a leaf twice",
        32,
        &[
            Step::Come((0, 1000, 144), 1),
            Step::Has(1, 144),
            Step::Come((70001, 1, 220), 2),
            Step::Has(2, 364),
            Step::Free(0, 27),
            Step::Same(70100),
            Step::Go((70001, 1, 220)),
        ],
    ),
    (
        "a run meets a key that is there",
        32,
        &[Step::Come((200, 1, 100), 1), Step::Clash((101, 1, 100))],
    ),
    (
        "a run misses its last key",
        32,
        &[Step::Come((200, 1, 300), 1), Step::Lack((301, 1, 200))],
    ),
    (
        "a batch empties a tree",
        64,
        &[
            Step::Come((0, 3, 700), 1),
            Step::Has(2, 700),
            Step::AllGo,
            Step::Has(0, 0),
            Step::Free(63, 63),
        ],
    ),
];

/// Does each step.
fn plays(
    rt: &impl Abort,
    alloc: Global,
    trial: &mut Trial,
    name: &str,
    steps: &[Step],
) -> Result<(), Fail> {
    for step in steps {
        let holds = trial.does(rt, alloc, *step)?;
        assert!(rt; holds, "{name}");
    }
    Ok(())
}

#[test]
fn runs_are_made_at_once(rt: HostRuntime) -> Result<(), Fail> {
    for (name, pages, steps) in &RUNS {
        let mut trial = Trial::new(rt.alloc(), *pages)?;
        plays(&rt, rt.alloc(), &mut trial, name, steps)?;
    }
    Ok(())
}

/// Edits in mixed order, more insertions than removals at first, and fewer later.
#[test]
fn mixed_edits(rt: HostRuntime) -> Result<(), Fail> {
    let mut trial = Trial::new(rt.alloc(), 64)?;
    let mut seed = 7_u64;
    for step in 0..9000_u32 {
        let n = draw(&mut seed, 4000);
        if draw(&mut seed, 9000) > step {
            trial.insert(&rt, n, (step % 251) as u8)?;
        } else {
            trial.remove(&rt, n)?;
        }
        if step % 300 == 0 {
            trial.compare_all(&rt, rt.alloc(), n)?;
        }
    }
    Ok(())
}

/// A tree of height 3 is built with ascending keys and taken down in another order.
#[test]
fn up_to_height_three_and_down(rt: HostRuntime) -> Result<(), Fail> {
    let mut trial = Trial::new(rt.alloc(), 600)?;
    for n in 0..20011_u32 {
        trial.insert(&rt, n, (n % 251) as u8)?;
    }
    assert!(rt; trial.has(3, 20011));
    trial.compare_all(&rt, rt.alloc(), 10000)?;
    let mut n = 0_u32;
    for step in 0..20011_u32 {
        n = n.wrapping_add(7919) % 20011;
        trial.remove(&rt, n)?;
        if step % 2000 == 0 {
            trial.compare_all(&rt, rt.alloc(), n)?;
        }
    }
    assert!(rt; trial.has(0, 0) && trial.has_free(599, 599));
    Ok(())
}

/// Batches of drawn edits, dense and thin ones in turn, over trees of height 1 to 3.
#[test]
fn batches_beside_an_ordered_map(rt: HostRuntime) -> Result<(), Fail> {
    let mut trial = Trial::new(rt.alloc(), 1200)?;
    let mut seed = 11_u64;
    for step in 0..60_u32 {
        let most = if step % 10 == 9 { 50000 } else { 900 };
        let gap = if step % 3 == 0 { 2 } else { 40 };
        let run = trial.drawn_run(rt.alloc(), &mut seed, most, gap)?;
        trial.apply(&rt, rt.alloc(), &run)?;
        trial.compare_all(&rt, rt.alloc(), draw(&mut seed, most))?;
    }
    assert!(rt; trial.grown.tree.height == 3);
    Ok(())
}

/// Another value in the place of one changes one page, whether its leaf has the fewest records or the most.
#[test]
fn a_replacement_changes_one_page(rt: HostRuntime) -> Result<(), Fail> {
    let mut trial = Trial::new(rt.alloc(), 64)?;
    trial.does(&rt, rt.alloc(), Step::Come((0, 2, 600), 1))?;
    for n in 0..600_u32 {
        let pages = trial.pages_of_replacement(rt.alloc(), 2 * n, 2)?;
        assert!(rt; pages == 1);
    }
    Ok(())
}

#[test]
fn a_cursor_goes_over_all_records(rt: HostRuntime) -> Result<(), Fail> {
    let mut trial = Trial::new(rt.alloc(), 600)?;
    trial.does(&rt, rt.alloc(), Step::Come((0, 2, 37000), 1))?;
    assert!(rt; trial.has(3, 37000));
    let mut seed = 5_u64;
    trial.compare_from(&rt, 0)?;
    trial.compare_from(&rt, 74000)?;
    for _ in 0..20 {
        let n = draw(&mut seed, 75000);
        trial.compare_from(&rt, n)?;
    }
    Ok(())
}

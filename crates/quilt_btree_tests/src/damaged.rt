use crate::spoilt::{Spoil, Spoilt};
use quilt_types::Stop;
use std::alloc::Global;
use std::process::Abort;
use std::test::Fail;

/// No page is named.
const NONE: u32 = u32::MAX;

/// A call stops for another reason.
const OTHER: u32 = u32::MAX - 1;

/// The page that a call names as damaged.
fn named(stop: Option<Stop>) -> u32 {
    match stop {
        None => NONE,
        Some(Stop::Damaged { page }) => page,
        Some(_) => OTHER,
    }
}

/// Which of the seven calls of `Spoilt::stops` name a page.
#[derive(Clone, Copy)]
enum Calls {
    /// Each call.
    All,
    /// Those that edit. The others answer something.
    Edits,
    /// The removals: they have to look at the page above the leaf, and at the one beside it.
    Removals,
    /// The insertions, which split a leaf.
    Splits,
}

impl Calls {
    /// Whether the call is one of these.
    fn has(self, call: usize) -> bool {
        match self {
            Calls::All => true,
            Calls::Edits => call > 2,
            Calls::Removals => call == 4 || call == 6,
            Calls::Splits => call == 3 || call == 5,
        }
    }
}

/// A page that is spoilt, in which way, an item, and the page that these calls at the item name. The others name none.
type Row = (u32, Spoil, u32, Calls, u32);

/// Trees of height 2 whose leaves have 72 records. What two pages have wrong together names page 0.
static TWO_LEVELS: [Row; 20] = [
    // A child that is no page is named by its parent.
    (1, Spoil::Byte(15, 0), 656, Calls::All, 1),
    (1, Spoil::Byte(15, 16), 656, Calls::All, 1),
    (1, Spoil::Byte(15, 255), 656, Calls::All, 1),
    // A root that is no inner page is named.
    (1, Spoil::Byte(2, 255), 656, Calls::All, 1),
    (1, Spoil::Ones, 656, Calls::All, 1),
    (1, Spoil::Leaf, 656, Calls::All, 1),
    // A root with a byte behind its keys is named by what writes it.
    (1, Spoil::Byte(4095, 1), 656, Calls::Removals, 1),
    // A page that is no leaf is named by edits.
    (3, Spoil::Byte(354, 0), 656, Calls::Edits, 3),
    (3, Spoil::Byte(2, 255), 656, Calls::Edits, 3),
    (3, Spoil::Byte(4095, 1), 656, Calls::Edits, 3),
    (3, Spoil::Ones, 656, Calls::Edits, 3),
    (3, Spoil::Inner, 656, Calls::Edits, 3),
    // It is named by removals beside it.
    (3, Spoil::Byte(354, 0), 80, Calls::Removals, 3),
    (3, Spoil::Byte(2, 255), 80, Calls::Removals, 3),
    (3, Spoil::Byte(4095, 1), 80, Calls::Removals, 3),
    (3, Spoil::Ones, 80, Calls::Removals, 3),
    (3, Spoil::Inner, 80, Calls::Removals, 3),
    // A leaf of one record, one out of its bounds and one that is listed twice stop removals.
    (3, Spoil::First, 576, Calls::Removals, 0),
    (3, Spoil::Byte(2062, 5), 656, Calls::Removals, 0),
    (1, Spoil::Byte(15, 2), 80, Calls::Removals, 0),
];

/// A tree of height 2 whose leaves are full: a root with a byte behind its keys is named by what writes it.
static FULL: [Row; 1] = [(1, Spoil::Byte(4095, 1), 656, Calls::Splits, 1)];

/// Trees of height 3.
static THREE_LEVELS: [Row; 13] = [
    // A page below the root that is no inner page is named.
    (3, Spoil::Byte(23, 0), 74960, Calls::All, 3),
    (3, Spoil::Byte(22, 2), 74960, Calls::All, 3),
    (3, Spoil::Byte(2, 255), 74960, Calls::All, 3),
    (3, Spoil::Ones, 74960, Calls::All, 3),
    (3, Spoil::Leaf, 74960, Calls::All, 3),
    (3, Spoil::Byte(4095, 1), 74960, Calls::Removals, 3),
    // A leaf of one record, one out of its bounds and one that is listed twice stop removals.
    (134, Spoil::First, 74880, Calls::Removals, 0),
    (134, Spoil::Byte(2062, 53), 74960, Calls::Removals, 0),
    (3, Spoil::Byte(23, 133), 74384, Calls::Removals, 0),
    // A page that is no leaf is named by edits.
    (134, Spoil::Byte(354, 0), 74960, Calls::Edits, 134),
    (134, Spoil::Byte(4095, 1), 74960, Calls::Edits, 134),
    (134, Spoil::Ones, 74960, Calls::Edits, 134),
    (134, Spoil::Inner, 74960, Calls::Edits, 134),
];

/// A tree of height 2 with leaves of `n` records, or of height 3 where that is 0, with one page spoilt.
fn spoilt(alloc: Global, n: u8, page: u32, how: Spoil) -> Result<Spoilt, Fail> {
    if n == 0 {
        Spoilt::of_three_levels(alloc, page, how)
    } else {
        Spoilt::of_two_levels(alloc, n, page, how)
    }
}

/// Tries each call of a row, over a tree of its own: which page it names.
fn tries(rt: &impl Abort, alloc: Global, n: u8, row: &Row) -> Result<(), Fail> {
    let (page, how, item, calls, wanted) = *row;
    for call in 0..7_usize {
        let mut tree = spoilt(alloc, n, page, how)?;
        let expected = if calls.has(call) { wanted } else { NONE };
        let found = named(tree.stops(alloc, call, item));
        assert!(rt;
            found == expected,
            "page {page}, item {item}, call {call}: {found}"
        );
    }
    Ok(())
}

/// Tries each call of each of the rows.
fn try_all(rt: &impl Abort, alloc: Global, n: u8, rows: &[Row]) -> Result<(), Fail> {
    for row in rows {
        tries(rt, alloc, n, row)?;
    }
    Ok(())
}

#[test]
fn calls_name_the_page_that_is_spoilt(rt: HostRuntime) -> Result<(), Fail> {
    try_all(&rt, rt.alloc(), 72, &TWO_LEVELS)?;
    try_all(&rt, rt.alloc(), 144, &FULL)?;
    try_all(&rt, rt.alloc(), 0, &THREE_LEVELS)
}

/// Pages that are spoilt in trees of height 2 with leaves of 72 records, in which way, and an item that is not under them.
static BESIDE: [(u32, Spoil, u32); 12] = [
    (1, Spoil::Byte(15, 0), 81),
    (1, Spoil::Byte(15, 16), 81),
    (1, Spoil::Byte(15, 255), 81),
    (1, Spoil::Byte(4095, 1), 81),
    (1, Spoil::Byte(15, 2), 1233),
    (3, Spoil::Byte(354, 0), 81),
    (3, Spoil::Byte(2, 255), 81),
    (3, Spoil::Byte(4095, 1), 81),
    (3, Spoil::Ones, 81),
    (3, Spoil::Inner, 81),
    (3, Spoil::First, 81),
    (3, Spoil::Byte(2062, 5), 81),
];

/// The ways in which a leaf of a tree of height 3 is spoilt.
static LEAVES: [Spoil; 4] = [
    Spoil::Byte(354, 0),
    Spoil::Byte(4095, 1),
    Spoil::Ones,
    Spoil::Inner,
];

/// Makes edits at an item of a tree of height 2, and of two items at once.
fn edits_beside(rt: &impl Abort, alloc: Global, row: &(u32, Spoil, u32)) -> Result<(), Fail> {
    let (page, how, item) = *row;
    Spoilt::of_two_levels(alloc, 72, page, how)?.edits(rt, item)?;
    Spoilt::of_two_levels(alloc, 72, page, how)?.runs(rt, alloc, item, item.wrapping_add(1))
}

#[test]
fn edits_beside_a_page_that_is_spoilt_are_made(rt: HostRuntime) -> Result<(), Fail> {
    for row in &BESIDE {
        edits_beside(&rt, rt.alloc(), row)?;
    }
    for how in &LEAVES {
        Spoilt::of_three_levels(rt.alloc(), 134, *how)?.edits(&rt, 81)?;
    }
    Ok(())
}

/// How often the edits at an item of a tree of height 2 name the page that is spoilt. They name no other but page 0.
fn count_by_edits(
    rt: &impl Abort,
    alloc: Global,
    n: u8,
    spoilt: (u32, Spoil),
    item: u32,
) -> Result<u32, Fail> {
    let mut count = 0_u32;
    for call in 3..7_usize {
        let mut tree = Spoilt::of_two_levels(alloc, n, spoilt.0, spoilt.1)?;
        let page = named(tree.stops(alloc, call, item));
        assert!(rt; page == NONE || page == 0 || page == spoilt.0);
        if page == spoilt.0 {
            count = count.wrapping_add(1);
        }
    }
    Ok(count)
}

/// How often the edits of a tree of height 2 with one page spoilt name it.
fn count_at_items(
    rt: &impl Abort,
    alloc: Global,
    n: u8,
    spoilt: (u32, Spoil),
) -> Result<u32, Fail> {
    let mut count = 0_u32;
    for item in [0, 80, 284, 576, 656, 860, 1152, 1232, 1436] {
        count = count.wrapping_add(count_by_edits(rt, alloc, n, spoilt, item)?);
    }
    Ok(count)
}

/// How often the edits of trees of height 2 with one page spoilt in this way name it.
fn count_at_pages(rt: &impl Abort, alloc: Global, how: Spoil) -> Result<u32, Fail> {
    let mut count = 0_u32;
    for page in 1..5_u32 {
        count = count.wrapping_add(count_at_items(rt, alloc, 72, (page, how))?);
        count = count.wrapping_add(count_at_items(rt, alloc, 144, (page, how))?);
    }
    Ok(count)
}

/// Ways in which a page is spoilt, and whether some edit names it then.
static COUNTED: [(Spoil, bool); 8] = [
    (Spoil::Byte(2, 255), true),
    (Spoil::Byte(354, 0), true),
    (Spoil::Byte(4095, 1), true),
    (Spoil::Ones, true),
    (Spoil::Inner, true),
    (Spoil::Byte(2062, 5), false),
    (Spoil::First, false),
    (Spoil::Leaf, false),
];

#[test]
fn edits_name_the_page_that_is_spoilt_or_page_0(rt: HostRuntime) -> Result<(), Fail> {
    for (how, names) in &COUNTED {
        let count = count_at_pages(&rt, rt.alloc(), *how)?;
        assert!(rt; count > 0 || !*names);
    }
    Ok(())
}

#[test]
fn a_range_names_a_leaf_that_adds_nothing_where_it_is_none(rt: HostRuntime) -> Result<(), Fail> {
    let mut ones = Spoilt::of_two_levels(rt.alloc(), 72, 3, Spoil::Ones)?;
    assert!(rt; named(ones.range(rt.alloc(), 80, 1300)) == 3);
    let mut twice = Spoilt::of_two_levels(rt.alloc(), 72, 1, Spoil::Byte(15, 2))?;
    assert!(rt; named(twice.range(rt.alloc(), 80, 1300)) == 0);
    Ok(())
}

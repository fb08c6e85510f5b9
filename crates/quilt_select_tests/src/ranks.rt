use crate::asking::{nearest_of, new_store, ranks_of};
use crate::drawing::{SIDES, between, small_layer};
use quilt_clip::Frac;
use quilt_near::Even;
use quilt_store::MemStore;
use quilt_types::Pixel;
use std::alloc::Global;
use std::test::Fail;

/// Four segments of the square of level 3, over blocks of one side.
fn four(alloc: Global, side: u16) -> Result<Even, Fail> {
    let segs = [
        (3, between((0, 2), (3, 2))),
        (5, between((0, 0), (3, 0))),
        (7, between((4, 4), (7, 7))),
        (9, between((7, 7), (7, 7))),
    ];
    small_layer(alloc, side, &segs)
}

/// An id with both parts of its distance.
type Rank = (u32, u64, u64);

/// The id of a segment with both parts of its distance.
fn rank_of(found: &(u32, Frac)) -> Rank {
    (found.0, found.1.num(), found.1.den())
}

/// Whether these are the ids and the distances of the list.
fn has_ranks(list: &[(u32, Frac)], ranks: &[Rank]) -> bool {
    let are_same = list
        .iter()
        .zip(ranks.iter())
        .all(|(found, rank)| rank_of(found) == *rank);
    are_same && list.len() == ranks.len()
}

/// Whether the first k have these ids and distances.
fn are_first(alloc: Global, layer: &Even, p: Pixel, k: u32, ranks: &[Rank]) -> Result<bool, Fail> {
    let mut store = new_store(alloc)?;
    let list = ranks_of(alloc, layer, &mut store, p, k)?;
    Ok(has_ranks(list.items(), ranks))
}

/// Whether the first k of the four segments over blocks of one side have these ids and distances.
fn are_first_of_four(
    alloc: Global,
    side: u16,
    p: Pixel,
    k: u32,
    ranks: &[Rank],
) -> Result<bool, Fail> {
    let layer = four(alloc, side)?;
    are_first(alloc, &layer, p, k, ranks)
}

/// How many segments are asked for at a pixel, and which come.
type Case = (Pixel, u32, &'static [Rank]);

/// Whether just these come, over blocks of each side.
fn are_first_everywhere(alloc: Global, case: &Case) -> Result<bool, Fail> {
    let (p, k, ranks) = *case;
    let mut are_first = true;
    for side in &SIDES {
        are_first = are_first && are_first_of_four(alloc, *side, p, k, ranks)?;
    }
    Ok(are_first)
}

/// One or both of two segments at one distance.
static TIES: [Case; 2] = [
    (Pixel { x: 1, y: 1 }, 1, &[(3, 1, 1)]),
    (Pixel { x: 1, y: 1 }, 2, &[(3, 1, 1), (5, 1, 1)]),
];

#[test]
fn equal_distances_go_by_id(rt: HostRuntime) -> Result<(), Fail> {
    for case in &TIES {
        assert!(rt; are_first_everywhere(rt.alloc(), case)?, "{case:?}");
    }
    Ok(())
}

/// Fewer segments than there are, as many, and more.
static COUNTS: [Case; 3] = [
    (Pixel { x: 6, y: 7 }, 3, &[(7, 1, 2), (9, 1, 1), (3, 34, 1)]),
    (
        Pixel { x: 6, y: 7 },
        4,
        &[(7, 1, 2), (9, 1, 1), (3, 34, 1), (5, 58, 1)],
    ),
    (
        Pixel { x: 6, y: 7 },
        9,
        &[(7, 1, 2), (9, 1, 1), (3, 34, 1), (5, 58, 1)],
    ),
];

#[test]
fn all_come_where_there_are_no_more_than_k(rt: HostRuntime) -> Result<(), Fail> {
    for case in &COUNTS {
        assert!(rt; are_first_everywhere(rt.alloc(), case)?, "{case:?}");
    }
    Ok(())
}

/// Whether the first one is one segment, the nearest.
fn is_nearest_first(
    alloc: Global,
    layer: &Even,
    store: &mut MemStore,
    p: Pixel,
) -> Result<bool, Fail> {
    let list = ranks_of(alloc, layer, store, p, 1)?;
    match list.items() {
        [one] => Ok(nearest_of(alloc, layer, store, p)? == Some(*one)),
        _ => Ok(false),
    }
}

/// The first pixel of a layer of level 3 at which that is not so, if there is one.
fn first_other(alloc: Global, layer: &Even, store: &mut MemStore) -> Result<Option<Pixel>, Fail> {
    for place in 0..64_u16 {
        let p = Pixel {
            x: place / 8,
            y: place % 8,
        };
        if !is_nearest_first(alloc, layer, store, p)? {
            return Ok(Some(p));
        }
    }
    Ok(None)
}

/// The same of the four segments over blocks of one side.
fn first_other_of_four(alloc: Global, side: u16) -> Result<Option<Pixel>, Fail> {
    let mut store = new_store(alloc)?;
    let layer = four(alloc, side)?;
    first_other(alloc, &layer, &mut store)
}

#[test]
fn the_first_is_the_nearest(rt: HostRuntime) -> Result<(), Fail> {
    for side in &SIDES {
        let other = first_other_of_four(rt.alloc(), *side)?;
        assert!(rt; other.is_none(), "side {side}: {other:?}");
    }
    Ok(())
}

/// Whether a layer without segments has no first k, over blocks of one side.
fn has_no_first(alloc: Global, side: u16, k: u32) -> Result<bool, Fail> {
    let none = small_layer(alloc, side, &[])?;
    are_first(alloc, &none, Pixel { x: 6, y: 7 }, k, &[])
}

#[test]
fn an_empty_layer_has_no_first(rt: HostRuntime) -> Result<(), Fail> {
    for (side, k) in &[(1, 1), (1, 3), (8, 1), (8, 3)] {
        assert!(rt;
            has_no_first(rt.alloc(), *side, *k)?,
            "side {side}, first {k}"
        );
    }
    Ok(())
}

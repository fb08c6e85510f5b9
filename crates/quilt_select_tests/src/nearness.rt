use crate::asking::{nearest_of, new_store};
use crate::drawing::{SIDES, between, small_layer};
use quilt_near::sqdist;
use quilt_types::{Pixel, Seg};
use std::alloc::Global;
use std::test::Fail;

/// The parts of the squared distance of a pixel from a segment, or none where a coordinate is above 8191.
fn distance_of(p: Pixel, s: Seg) -> Option<(u64, u64)> {
    if p.x >= 8192 || p.y >= 8192 {
        return None;
    }
    if s.x1 >= 8192 || s.y1 >= 8192 || s.x2 >= 8192 || s.y2 >= 8192 {
        return None;
    }
    let far = sqdist(p, s);
    Some((far.num(), far.den()))
}

/// A pixel, both ends of a segment, and the parts of their squared distance.
type Case = ((u16, u16), (u16, u16), (u16, u16), (u64, u64));

/// Distances to ends and to feet.
static CASES: [Case; 9] = [
    ((2, 0), (0, 0), (3, 1), (2, 5)),
    ((1, 1), (0, 0), (3, 0), (1, 1)),
    ((1, 1), (0, 2), (3, 2), (1, 1)),
    ((100, 230), (0, 100), (511, 100), (16900, 1)),
    ((0, 0), (3, 4), (6, 8), (25, 1)),
    ((9, 8), (0, 0), (6, 4), (25, 1)),
    ((4, 3), (0, 0), (4, 0), (9, 1)),
    ((2, 1), (5, 5), (5, 5), (25, 1)),
    (
        (0, 8191),
        (0, 0),
        (8191, 8190),
        (4501401006735361, 134168581),
    ),
];

/// Whether the distance is so.
fn is_measured(case: &Case) -> bool {
    let ((x, y), first, last, far) = *case;
    distance_of(Pixel { x, y }, between(first, last)) == Some(far)
}

#[test]
fn measures_to_ends_and_feet(rt: HostRuntime) {
    for case in &CASES {
        assert!(rt; is_measured(case), "{case:?}");
    }
}

/// The id and the distance of the nearest of these segments, over blocks of one side.
fn nearest_in(
    alloc: Global,
    side: u16,
    segs: &[(u32, Seg)],
    p: Pixel,
) -> Result<Option<(u32, (u64, u64))>, Fail> {
    let mut store = new_store(alloc)?;
    let layer = small_layer(alloc, side, segs)?;
    let found = nearest_of(alloc, &layer, &mut store, p)?;
    Ok(found.map(|(id, far)| (id, (far.num(), far.den()))))
}

/// Whether ties over blocks of one side go to the least id, a segment in a far block is found, and none where there is none.
fn are_nearest(alloc: Global, side: u16) -> Result<bool, Fail> {
    let segs = [
        (3, between((0, 2), (3, 2))),
        (5, between((0, 0), (3, 0))),
        (9, between((7, 7), (7, 7))),
    ];
    let tie = nearest_in(alloc, side, &segs, Pixel { x: 1, y: 1 })?;
    let beside = nearest_in(alloc, side, &segs, Pixel { x: 6, y: 7 })?;
    let none = nearest_in(alloc, side, &[], Pixel { x: 6, y: 7 })?;
    Ok(tie == Some((3, (1, 1))) && beside == Some((9, (1, 1))) && none.is_none())
}

#[test]
fn ties_go_to_the_least_id_and_far_blocks_wait(rt: HostRuntime) -> Result<(), Fail> {
    for side in &SIDES {
        assert!(rt; are_nearest(rt.alloc(), *side)?, "side {side}");
    }
    Ok(())
}

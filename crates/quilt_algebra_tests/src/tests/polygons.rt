use crate::comparing::{add_corner, area_of, count_of, has_pixels, has_side, region_in};
use quilt_blocks::LeafList;
use quilt_poly::region_within;
use quilt_types::{Colour, Corner, RingList};
use std::alloc::Global;

/// A ring by x and y of its corners.
type Ring = &'static [(u16, u16)];

/// Adds a ring with these corners.
fn add_ring(rings: &mut RingList, corners: &[(u16, u16)]) -> Option<()> {
    rings.begin_ring().ok()?;
    for (x, y) in corners {
        add_corner(rings, Corner { x: *x, y: *y })?;
    }
    Some(())
}

/// The rings with these corners.
fn rings_of(alloc: Global, rings: &[Ring]) -> Option<RingList> {
    let mut list = RingList::new(alloc);
    for corners in rings {
        add_ring(&mut list, corners)?;
    }
    Some(list)
}

/// The half of the square above its second diagonal.
const HALF: Ring = &[(0, 0), (8, 0), (0, 8)];

/// The whole square, and a smaller one in its middle.
const SQUARES: &[Ring] = &[
    &[(0, 0), (8, 0), (8, 8), (0, 8)],
    &[(2, 2), (6, 2), (6, 6), (2, 6)],
];

/// Rings at level 3 and the colour inside, how many pixels have some colours, some pixels, and the number and side of the
/// leaves where all have the same side.
struct Polygon {
    rings: &'static [Ring],
    colour: u16,
    areas: &'static [(u16, u64)],
    pixels: &'static [(u16, u16, u16)],
    leaves: Option<(usize, u16)>,
}

static POLYGONS: [Polygon; 4] = [
    // Half of the square.
    Polygon {
        rings: &[HALF],
        colour: 261,
        areas: &[(261, 28), (0, 36)],
        pixels: &[(3, 4, 0)],
        leaves: None,
    },
    // A square with a hole.
    Polygon {
        rings: SQUARES,
        colour: 1,
        areas: &[(1, 48)],
        pixels: &[],
        leaves: Some((16, 2)),
    },
    // A ring that crosses itself: both halves are inside. A middle that lies on an edge counts as right of it.
    Polygon {
        rings: &[&[(0, 0), (8, 8), (8, 0), (0, 8)]],
        colour: 4,
        areas: &[(4, 32)],
        pixels: &[(3, 3, 0), (4, 3, 4)],
        leaves: None,
    },
    // No rings.
    Polygon {
        rings: &[],
        colour: 7,
        areas: &[(0, 64)],
        pixels: &[],
        leaves: Some((1, 8)),
    },
];

/// Whether so many pixels have each of these colours.
fn has_areas(list: &LeafList, areas: &[(u16, u64)]) -> bool {
    for (c, area) in areas {
        if area_of(list, *c) != *area {
            return false;
        }
    }
    true
}

/// Whether the leaves of the rings are as they should.
fn is_filled(alloc: Global, polygon: &Polygon) -> Option<bool> {
    let rings = rings_of(alloc, polygon.rings)?;
    let list = region_in(alloc, &rings, polygon.colour, 3)?;
    let has_leaves = match polygon.leaves {
        Some((count, side)) => count_of(&list) == count && has_side(&list, side),
        None => true,
    };
    Some(has_leaves && has_areas(&list, polygon.areas) && has_pixels(&list, polygon.pixels))
}

#[test]
fn polygons_by_hand(rt: HostRuntime) {
    for polygon in &POLYGONS {
        assert!(rt; is_filled(rt.alloc(), polygon) == Some(true));
    }
}

/// Rings at level 3, the colour inside and the most leaves, and how many there are where they are not more.
static WITHIN: [(&[Ring], u16, u32, Option<usize>); 4] = [
    // A square with a hole has 16 leaves: 15 are too few, and 16 are enough.
    (SQUARES, 1, 15, None),
    (SQUARES, 1, 16, Some(16)),
    // Without a colour all of it is one leaf, whatever the rings are.
    (&[HALF], 0, 1, Some(1)),
    (&[HALF], 0, 0, None),
];

/// How many leaves the rings have at level 3, where they are not more than the most.
fn count_within(alloc: Global, rings: &[Ring], c: u16, most: u32) -> Option<Option<usize>> {
    let rings = rings_of(alloc, rings)?;
    match &region_within(alloc, &rings, Colour(c), 3, most).ok()? {
        Some(list) => Some(Some(count_of(list))),
        None => Some(None),
    }
}

#[test]
fn no_more_leaves_than_the_most(rt: HostRuntime) {
    for (rings, c, most, count) in &WITHIN {
        assert!(rt; count_within(rt.alloc(), rings, *c, *most) == Some(*count));
    }
}

use crate::comparing::{
    area_of, buffer_of, histogram_of, is_map, is_shown, list_of, list_of_two, overlay_of,
    perimeter_of,
};
use quilt_blocks::LeafList;
use quilt_overlay::{Op, recolour};
use quilt_types::{Colour, Window};
use std::alloc::Global;
use std::test::Fail;

/// The colours of a map of level 1.
type Small = [u16; 4];

/// The window of all its pixels.
const ALL: Window = Window {
    x: 0,
    y: 0,
    w: 2,
    h: 2,
};

/// Whether a map of level 1 was made, and has these colours and these rows.
fn is_small(alloc: Global, made: Option<LeafList>, colours: &Small, rows: &[u8]) -> bool {
    match made {
        Some(list) => is_map(alloc, &list, 1, colours) && is_shown(alloc, &list, ALL, 2, rows),
        None => false,
    }
}

/// A map, and two that are laid over it. The last colours of these differ in the high byte alone.
const FIRST: Small = [1, 258, 0, 0];

const SECOND: Small = [256, 0, 3, 65284];

const THIRD: Small = [256, 0, 3, 4];

/// One of these and a way to lay it over the first, and the colours and rows of what comes of it.
static OVERLAYS: [(Small, Op, Small, &[u8]); 6] = [
    (
        SECOND,
        Op::Union,
        [1, 258, 3, 65284],
        b"00010102\n0003ff04\n",
    ),
    (SECOND, Op::Inter, [1, 0, 0, 0], b"00010000\n00000000\n"),
    (SECOND, Op::Diff, [0, 258, 0, 0], b"00000102\n00000000\n"),
    (THIRD, Op::Union, [1, 258, 3, 4], b"00010102\n00030004\n"),
    (THIRD, Op::Inter, [1, 0, 0, 0], b"00010000\n00000000\n"),
    (THIRD, Op::Diff, [0, 258, 0, 0], b"00000102\n00000000\n"),
];

#[test]
fn two_small_maps(rt: HostRuntime) {
    for (other, op, colours, rows) in &OVERLAYS {
        let made = overlay_of(rt.alloc(), *op, 1, (&FIRST, other));
        assert!(rt; is_small(rt.alloc(), made, colours, rows));
    }
}

/// Pairs of an old and a new colour, of which the first that fits counts.
static PAIRS: [(Colour, Colour); 3] = [
    (Colour(1), Colour(265)),
    (Colour(265), Colour(1)),
    (Colour(1), Colour(5)),
];

/// Maps, and the colours and rows that each has by these pairs.
static RECOLOURED: [(Small, Small, &[u8]); 2] = [
    (FIRST, [265, 258, 0, 0], b"01090102\n00000000\n"),
    ([1, 257, 0, 0], [265, 257, 0, 0], b"01090101\n00000000\n"),
];

/// The map of these colours with others by the pairs.
fn recoloured(alloc: Global, colours: &Small) -> Option<LeafList> {
    recolour(alloc, &list_of(alloc, 1, colours)?, &PAIRS).ok()
}

#[test]
fn colours_at_once(rt: HostRuntime) {
    for (old, colours, rows) in &RECOLOURED {
        let made = recoloured(rt.alloc(), old);
        assert!(rt; is_small(rt.alloc(), made, colours, rows));
    }
}

/// The colour of the corner and of all other pixels of a map of level 3, a distance, and how many pixels lie within it. The
/// high byte of 2304 is 9, and the low one 0.
static AROUND: [(u16, u16, u16, u64); 3] = [(2304, 0, 1, 4), (2304, 0, 8, 64), (0, 0, 3, 0)];

/// How many pixels lie within the distance of such a map.
fn area_around(alloc: Global, corner: u16, other: u16, r: u16) -> Option<u64> {
    let list = list_of_two(alloc, 3, corner, other)?;
    Some(area_of(&buffer_of(alloc, &list, r)?, 1))
}

#[test]
fn around_one_pixel(rt: HostRuntime) {
    for (corner, other, r, area) in &AROUND {
        assert!(rt; area_around(rt.alloc(), *corner, *other, *r) == Some(*area));
    }
}

/// The colour of the corner and of all other pixels of a map of level 3, a colour, and how many edges it has.
static PERIMETERS: [(u16, u16, u16, u64); 6] = [
    (2304, 0, 2304, 4),
    (2313, 2313, 2313, 32),
    (2313, 2313, 1, 0),
    (256, 0, 256, 4),
    (256, 256, 256, 32),
    (256, 256, 1, 0),
];

/// How many edges a colour of such a map has.
fn perimeter_in(alloc: Global, corner: u16, other: u16, c: u16) -> Option<u64> {
    Some(perimeter_of(&list_of_two(alloc, 3, corner, other)?, c))
}

#[test]
fn perimeters(rt: HostRuntime) {
    for (corner, other, c, perimeter) in &PERIMETERS {
        assert!(rt; perimeter_in(rt.alloc(), *corner, *other, *c) == Some(*perimeter));
    }
}

/// A map of level 2 with colour 512 at the pixel (1, 1) and 0 elsewhere.
static DOTTED: [u16; 16] = [0, 0, 0, 0, 0, 512, 0, 0, 0, 0, 0, 0, 0, 0, 0, 0];

/// Four leaves of one pixel and three of two by two.
static SIZES: [u32; 13] = [4, 3, 0, 0, 0, 0, 0, 0, 0, 0, 0, 0, 0];

/// Whether its areas and sizes are as they should.
fn is_measured(map: &LeafList) -> bool {
    area_of(map, 512) == 1 && area_of(map, 0) == 15 && histogram_of(map) == SIZES
}

#[test]
fn areas_and_sizes(rt: HostRuntime) -> Result<(), Fail> {
    let map = list_of(rt.alloc(), 2, &DOTTED).ok_or("no map")?;
    assert!(rt; is_measured(&map));
    Ok(())
}

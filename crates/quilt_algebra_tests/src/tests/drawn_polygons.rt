//! Drawn rings beside a plain count of the edges to the right of each pixel.

use crate::comparing::{add_corner, colour_in, region_in};
use quilt_blocks::LeafList;
use quilt_plain::Dice;
use quilt_types::{Corner, RingList};
use std::alloc::Global;

/// A corner of a pixel of the square, on one of its sides once in four times.
fn drawn_corner(dice: &mut Dice, side: u16) -> Corner {
    let most = u32::from(side);
    let x = dice.below(most.saturating_add(1)) as u16;
    let y = dice.below(most.saturating_add(1)) as u16;
    match dice.below(8) {
        0 => Corner { x: 0, y },
        1 => Corner { x, y: side },
        _ => Corner { x, y },
    }
}

/// The next corner of a ring: the same one, one in the same row or column, or any.
fn next_corner(dice: &mut Dice, side: u16, last: Corner) -> Corner {
    let any = drawn_corner(dice, side);
    match dice.below(6) {
        0 => last,
        1 => Corner {
            x: any.x,
            y: last.y,
        },
        2 => Corner {
            x: last.x,
            y: any.y,
        },
        _ => any,
    }
}

/// A ring of one to eight corners, in whatever order they come, so that most rings of four and more cross themselves.
fn add_drawn_ring(dice: &mut Dice, side: u16, rings: &mut RingList) -> Option<()> {
    rings.begin_ring().ok()?;
    let mut corner = drawn_corner(dice, side);
    let corners = dice.below(8).saturating_add(1);
    for _ in 0..corners {
        add_corner(rings, corner)?;
        corner = next_corner(dice, side, corner);
    }
    Some(())
}

/// One to five rings.
fn drawn_rings(alloc: Global, dice: &mut Dice, side: u16) -> Option<RingList> {
    let mut rings = RingList::new(alloc);
    let count = dice.below(5).saturating_add(1);
    for _ in 0..count {
        add_drawn_ring(dice, side, &mut rings)?;
    }
    Some(rings)
}

/// A coordinate of a corner, doubled so that the middle of a pixel has whole coordinates.
fn doubled(n: u16) -> i64 {
    i64::from(n).wrapping_mul(2)
}

/// Whether the line to the right from the middle of the pixel crosses the edge between two corners.
fn is_crossed(x: u16, y: u16, a: Corner, b: Corner) -> bool {
    let (top, bottom) = if a.y <= b.y { (a, b) } else { (b, a) };
    let (x, y) = (doubled(x).wrapping_add(1), doubled(y).wrapping_add(1));
    let (left, up) = (doubled(top.x), doubled(top.y));
    let (right, down) = (doubled(bottom.x), doubled(bottom.y));
    let to_the_middle = x.wrapping_sub(left).wrapping_mul(down.wrapping_sub(up));
    let to_the_edge = right.wrapping_sub(left).wrapping_mul(y.wrapping_sub(up));
    up < y && y < down && to_the_middle < to_the_edge
}

/// How many edges of the ring, with that from its last corner to its first, are crossed.
fn crossed(x: u16, y: u16, ring: &[Corner]) -> u32 {
    let Some(last) = ring.last() else {
        return 0;
    };
    let mut count = 0_u32;
    let mut before = *last;
    for corner in ring {
        count = count.wrapping_add(u32::from(is_crossed(x, y, before, *corner)));
        before = *corner;
    }
    count
}

/// Whether an odd number of edges of all rings is crossed.
fn is_inside(x: u16, y: u16, rings: &RingList) -> bool {
    let mut count = 0_u32;
    for i in 0..rings.len() {
        count = count.wrapping_add(crossed(x, y, rings.corners(i)));
    }
    count % 2 == 1
}

/// How many pixels of a square of this side are inside of the rings, where each pixel of the list has its colour.
fn count_inside(list: &LeafList, rings: &RingList, side: u16) -> Option<u32> {
    let mut inside = 0_u32;
    for y in 0..side {
        for x in 0..side {
            let is_inside = is_inside(x, y, rings);
            if colour_in(list, x, y) != Some(if is_inside { 513 } else { 0 }) {
                return None;
            }
            inside = inside.wrapping_add(u32::from(is_inside));
        }
    }
    Some(inside)
}

/// Draws a polygon in colour 513 and compares each pixel: how many are inside.
fn try_one(alloc: Global, dice: &mut Dice, level: u8) -> Option<u32> {
    let side = 1_u16.wrapping_shl(u32::from(level));
    let rings = drawn_rings(alloc, dice, side)?;
    count_inside(&region_in(alloc, &rings, 513, level)?, &rings, side)
}

/// Tries so many polygons of a level: how many pixels are inside of all of them.
fn try_all(alloc: Global, dice: &mut Dice, level: u8, count: u8) -> Option<u32> {
    let mut inside = 0_u32;
    for _ in 0..count {
        inside = inside.wrapping_add(try_one(alloc, dice, level)?);
    }
    Some(inside)
}

/// 200 drawn polygons, forty of each level from 1 to 5.
#[test]
fn drawn_polygons(rt: HostRuntime) {
    let mut dice = Dice::new(18);
    let mut inside = 0_u32;
    for level in 1..6_u8 {
        let found = try_all(rt.alloc(), &mut dice, level, 40);
        assert!(rt; found.is_some());
        inside = inside.wrapping_add(found.unwrap_or(0));
    }
    assert!(rt; 1000 < inside);
}

/// Four polygons of level 8, whose rows stand in several words.
#[test]
fn drawn_polygons_of_several_words(rt: HostRuntime) {
    let inside = try_all(rt.alloc(), &mut Dice::new(81), 8, 4);
    assert!(rt; 0 < inside.unwrap_or(0));
}

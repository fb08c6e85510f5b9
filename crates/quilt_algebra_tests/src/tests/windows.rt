use crate::comparing::{
    area_of, colour_in, count_of, is_map, is_shown, list_of_two, shift_of, window_of,
};
use quilt_blocks::LeafList;
use quilt_plain::map_of;
use quilt_types::{Colour, Window};
use std::alloc::Global;

/// A map of level 4 of squares of four pixels, each of one of four colours by chance.
fn scattered(alloc: Global, seed: u32) -> Option<LeafList> {
    let mut colours = Vec::new(alloc);
    let mut state = seed;
    for code in 0..256_u32 {
        if code % 4 == 0 {
            state = state.wrapping_mul(1664525).wrapping_add(1013904223);
        }
        colours.push(Colour((state >> 30) as u16 * 256)).ok()?;
    }
    map_of(alloc, 4, &colours).ok()
}

/// The window of the four pixels in the middle of level 2, and that of all.
const MIDDLE: Window = Window {
    x: 1,
    y: 1,
    w: 2,
    h: 2,
};

const ALL: Window = Window {
    x: 0,
    y: 0,
    w: 4,
    h: 4,
};

/// What the middle of a map of colour 261 alone is, with 0 around it, and how that of a map of colour 1285 is shown.
static CUT: [u16; 16] = [0, 0, 0, 0, 0, 261, 261, 0, 0, 261, 261, 0, 0, 0, 0, 0];

static CUT_ROWS: &[u8] = b"00000000\n00050500\n00050500\n00000000\n";

/// The middle of a map of level 2 of one colour.
fn middle_of(alloc: Global, c: u16) -> Option<LeafList> {
    window_of(alloc, &list_of_two(alloc, 2, c, c)?, MIDDLE)
}

/// Whether the middles of these maps are as they should.
fn are_cut(alloc: Global) -> Option<bool> {
    Some(
        is_map(alloc, &middle_of(alloc, 261)?, 2, &CUT)
            && is_shown(alloc, &middle_of(alloc, 1285)?, ALL, 1, CUT_ROWS),
    )
}

#[test]
fn a_window_of_a_full_map(rt: HostRuntime) {
    assert!(rt; are_cut(rt.alloc()) == Some(true));
}

/// The window of two pixels in the upper right corner of level 3.
const CORNER: Window = Window {
    x: 6,
    y: 0,
    w: 2,
    h: 1,
};

/// Whether a map of level 3 of one colour has background behind it as it goes one to the left, where these are the rows of the
/// corner, and nothing else as it goes out of the square.
fn leaves_background(alloc: Global, c: u16, rows: &[u8]) -> Option<bool> {
    let full = list_of_two(alloc, 3, c, c)?;
    let left = shift_of(alloc, &full, -1, 0)?;
    let gone = shift_of(alloc, &full, 8, 0)?;
    Some(
        colour_in(&left, 6, 0) == Some(c)
            && colour_in(&left, 7, 0) == Some(0)
            && is_shown(alloc, &left, CORNER, 1, rows)
            && count_of(&gone) == 1
            && area_of(&gone, 0) == 64
            && colour_in(&gone, 3, 3) == Some(0),
    )
}

#[test]
fn shifts_of_a_full_map(rt: HostRuntime) {
    assert!(rt; leaves_background(rt.alloc(), 1024, b"0000\n") == Some(true));
    assert!(rt; leaves_background(rt.alloc(), 1028, b"0400\n") == Some(true));
}

/// The colour that a pixel of a map of level 4 has behind a shift by 3 and -5.
fn shifted(a: &LeafList, x: u16, y: u16) -> Option<u16> {
    if x < 3 || y >= 11 {
        Some(0)
    } else {
        colour_in(a, x.wrapping_sub(3), y.wrapping_add(5))
    }
}

/// Whether the second of two maps of level 4 is the first, shifted so.
fn is_shifted(a: &LeafList, b: &LeafList) -> bool {
    for y in 0..16_u16 {
        for x in 0..16_u16 {
            let c = colour_in(b, x, y);
            if c.is_none() || c != shifted(a, x, y) {
                return false;
            }
        }
    }
    true
}

/// Whether a scattered map is shifted so.
fn shifts_scattered(alloc: Global) -> Option<bool> {
    let a = scattered(alloc, 7)?;
    let b = shift_of(alloc, &a, 3, -5)?;
    Some(is_shifted(&a, &b))
}

#[test]
fn a_shift_of_a_scattered_map(rt: HostRuntime) {
    assert!(rt; shifts_scattered(rt.alloc()) == Some(true));
}

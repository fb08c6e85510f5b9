//! Calls of the map algebra without contracts: each gives none where its conditions do not hold or memory is lacking, and
//! promises nothing, so that the tests need no facts and are proved in short time.
use quilt_blocks::{Cursor, Leaf, LeafList};
use quilt_buffer::buffer;
use quilt_measure::{area, histogram, perimeter};
use quilt_overlay::{Op, overlay};
use quilt_plain::is_window;
use quilt_poly::region_of;
use quilt_raster::{leaves_of, render};
use quilt_types::{Colour, Corner, Pixel, RingList, Text, Window};
use quilt_window::{shift, window};
use std::alloc::{AllocError, Global};

/// The leaves of a square of these bytes, row by row, two for each colour.
pub fn list_of_bytes(alloc: Global, level: u8, bytes: &[u8]) -> Option<LeafList> {
    if level == 0 || level > 12 {
        return None;
    }
    let side = 1_usize << level;
    if bytes.len() != 2 * (side * side) {
        return None;
    }
    leaves_of(alloc, bytes, level).ok()
}

/// The leaves of the colours of a square, row by row.
pub fn list_of(alloc: Global, level: u8, colours: &[u16]) -> Option<LeafList> {
    let mut bytes = Vec::new(alloc);
    for c in colours {
        bytes.extend_from_slice(&c.to_be_bytes()).ok()?;
    }
    list_of_bytes(alloc, level, &bytes)
}

/// The map of this colour in the upper left corner and one other everywhere else.
pub fn list_of_two(alloc: Global, level: u8, corner: u16, other: u16) -> Option<LeafList> {
    let mut colours = Vec::new(alloc);
    colours.push(corner).ok()?;
    for _ in 1..1_u32 << (2 * level.min(12)) {
        colours.push(other).ok()?;
    }
    list_of(alloc, level, &colours)
}

/// The map cut to the window.
pub fn window_of(alloc: Global, a: &LeafList, w: Window) -> Option<LeafList> {
    let level = a.level();
    if level > 12 || !is_window(level, w) {
        return None;
    }
    window(alloc, a, w).ok()
}

/// The map moved in x and in y.
pub fn shift_of(alloc: Global, a: &LeafList, dx: i32, dy: i32) -> Option<LeafList> {
    shift(alloc, a, dx, dy).ok()
}

/// The pixels within the distance of the map.
pub fn buffer_of(alloc: Global, a: &LeafList, r: u16) -> Option<LeafList> {
    buffer(alloc, a, r).ok()
}

/// The pixels inside of the rings.
pub fn region_in(alloc: Global, rings: &RingList, c: u16, level: u8) -> Option<LeafList> {
    if level == 0 || level > 12 {
        return None;
    }
    region_of(alloc, rings, Colour(c), level).ok()
}

/// Adds a corner to the last ring.
pub fn add_corner(rings: &mut RingList, corner: Corner) -> Option<()> {
    if rings.len() == 0 {
        return None;
    }
    rings.push(corner).ok()
}

/// How many pixels have the colour.
pub fn area_of(a: &LeafList, c: u16) -> u64 {
    area(a, Colour(c))
}

/// How many edges the colour has.
pub fn perimeter_of(a: &LeafList, c: u16) -> u64 {
    perimeter(a, Colour(c))
}

/// How many leaves each side has.
pub fn histogram_of(a: &LeafList) -> [u32; 13] {
    histogram(a)
}

/// How many leaves there are.
pub fn count_of(a: &LeafList) -> usize {
    a.len()
}

/// The colour of a pixel, or None outside of the square.
pub fn colour_in(a: &LeafList, x: u16, y: u16) -> Option<u16> {
    let level = a.level();
    prove!(level <= 12);
    let side = 1_u16 << level;
    if x >= side || y >= side {
        return None;
    }
    Some(a.colour_at(Pixel { x, y }).0)
}

/// Whether each of these pixels, by its x and y, has its colour.
pub fn has_pixels(a: &LeafList, pixels: &[(u16, u16, u16)]) -> bool {
    for (x, y, c) in pixels {
        if colour_in(a, *x, *y) != Some(*c) {
            return false;
        }
    }
    true
}

/// A leaf by its x, y and side, and its colour.
pub type Square = (u16, u16, u16, u16);

/// Whether this is the leaf.
fn is_square(leaf: Option<Leaf>, wanted: &Square) -> bool {
    match leaf {
        Some(Leaf { block, colour }) => (block.x, block.y, block.side, colour.0) == *wanted,
        None => false,
    }
}

/// Whether these are all leaves, in the order of their codes.
pub fn has_leaves(a: &LeafList, wanted: &[Square]) -> bool {
    let mut leaves = Cursor::new(a);
    for square in wanted {
        if !is_square(leaves.next(), square) {
            return false;
        }
    }
    leaves.next().is_none()
}

/// Whether all leaves have this side.
pub fn has_side(a: &LeafList, side: u16) -> bool {
    let mut leaves = Cursor::new(a);
    for _ in 0..a.len() {
        match leaves.next() {
            Some(leaf) => if leaf.block.side != side {
                return false;
            }
            None => return false,
        }
    }
    true
}

/// The rows of the window.
pub fn rows_of(alloc: Global, list: &LeafList, w: Window, format: u8) -> Option<Text> {
    let level = list.level();
    if level > 12 {
        return None;
    }
    let side = 1_u32 << level;
    if w.x as u32 + w.w as u32 > side || w.y as u32 + w.h as u32 > side {
        return None;
    }
    render(alloc, list, w, format).ok()
}

/// Whether the rows of the window are this text.
pub fn is_shown(alloc: Global, list: &LeafList, w: Window, format: u8, text: &[u8]) -> bool {
    match rows_of(alloc, list, w, format) {
        Some(rows) => rows.bytes() == text,
        None => false,
    }
}

/// Whether the pixels have these colours, row by row.
fn has_colours(list: &LeafList, level: u8, colours: &[u16]) -> bool {
    let side = 1_u16 << level.min(12);
    let mut rest = colours.iter();
    for y in 0..side {
        for x in 0..side {
            if colour_in(list, x, y) != rest.next().copied() {
                return false;
            }
        }
    }
    list.level() == level && rest.next().is_none()
}

/// Whether two lists have the same leaves, one by one.
fn have_same_leaves(list: &LeafList, wanted: &LeafList) -> bool {
    let mut leaves = Cursor::new(list);
    let mut others = Cursor::new(wanted);
    for _ in 0..list.len() {
        if leaves.next() != others.next() {
            return false;
        }
    }
    list.len() == wanted.len()
}

/// Whether the list is that of these colours' maximal blocks: pixel by pixel, and leaf by leaf.
pub fn is_map(alloc: Global, list: &LeafList, level: u8, colours: &[u16]) -> bool {
    match list_of(alloc, level, colours) {
        Some(wanted) => has_colours(list, level, colours) && have_same_leaves(list, &wanted),
        None => false,
    }
}

/// Whether a map was made, and is that of the colours that were computed.
pub fn is_same(
    alloc: Global,
    level: u8,
    made: Option<LeafList>,
    computed: Result<Vec<u16>, AllocError>,
) -> bool {
    match (made, computed) {
        (Some(list), Ok(colours)) => is_map(alloc, &list, level, &colours),
        _ => false,
    }
}

/// One map laid over another, each by its colours.
pub fn overlay_of(alloc: Global, op: Op, level: u8, maps: (&[u16], &[u16])) -> Option<LeafList> {
    let a = list_of(alloc, level, maps.0)?;
    let b = list_of(alloc, level, maps.1)?;
    if a.level() != b.level() {
        return None;
    }
    overlay(alloc, op, &a, &b).ok()
}

use crate::comparing::{buffer_of, colour_in, count_of, has_pixels};
use quilt_blocks::LeafList;
use quilt_plain::map_of;
use quilt_types::Colour;
use std::alloc::Global;
use std::test::Fail;

/// A map of this level with colour 256 at one pixel, the one with this code, and 0 elsewhere.
fn dotted(alloc: Global, level: u8, dot: usize) -> Option<LeafList> {
    let mut colours = Vec::new(alloc);
    colours.resize(dot, Colour(0)).ok()?;
    colours.push(Colour(256)).ok()?;
    if level == 0 || level > 12 {
        return None;
    }
    map_of(alloc, level, &colours).ok()
}

/// What lies within a distance of the one pixel of such a map.
fn around(alloc: Global, level: u8, dot: usize, r: u16) -> Option<LeafList> {
    buffer_of(alloc, &dotted(alloc, level, dot)?, r)
}

/// What lies within a distance of the one pixel of a map of level 3: whether that is one leaf, and some pixels.
struct Buffer {
    dot: usize,
    r: u16,
    is_one: bool,
    pixels: &'static [(u16, u16, u16)],
}

/// The distances around a corner, and around nothing, since level 3 has no pixel 64.
static BUFFERS: [Buffer; 3] = [
    Buffer {
        dot: 0,
        r: 1,
        is_one: false,
        pixels: &[(1, 1, 1), (2, 0, 0), (1, 2, 0)],
    },
    Buffer {
        dot: 0,
        r: 8,
        is_one: true,
        pixels: &[(7, 7, 1)],
    },
    Buffer {
        dot: 64,
        r: 3,
        is_one: true,
        pixels: &[(0, 0, 0)],
    },
];

/// Whether the buffer is made so.
fn is_made(alloc: Global, wanted: &Buffer) -> Option<bool> {
    let b = around(alloc, 3, wanted.dot, wanted.r)?;
    Some((count_of(&b) == 1) == wanted.is_one && has_pixels(&b, wanted.pixels))
}

#[test]
fn around_a_corner_and_nothing(rt: HostRuntime) {
    for wanted in &BUFFERS {
        assert!(rt; is_made(rt.alloc(), wanted) == Some(true));
    }
}

/// Whether a list of level 4 has colour 1 at the pixels up to two from (3, 5), and 0 elsewhere.
fn is_around_a_pixel(b: &LeafList) -> bool {
    for y in 0..16_u16 {
        for x in 0..16_u16 {
            let is_near = x.abs_diff(3) <= 2 && y.abs_diff(5) <= 2;
            if colour_in(b, x, y) != Some(u16::from(is_near)) {
                return false;
            }
        }
    }
    true
}

#[test]
fn around_a_pixel(rt: HostRuntime) -> Result<(), Fail> {
    // The pixel with code 39 is that at (3, 5).
    let b = around(rt.alloc(), 4, 39, 2).ok_or("no buffer")?;
    assert!(rt; is_around_a_pixel(&b));
    Ok(())
}

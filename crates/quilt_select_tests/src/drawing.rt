ghost use Rattle.std.specs.Prelude.{◌≤◌};

use quilt_near::{Even, SegList};
use quilt_plain::{are_in_square, drawn_coordinate, drawn_seg, next_state};
use quilt_types::{Pixel, Seg, Window};
use std::alloc::{AllocError, Global};
use std::test::Fail;

/// Segments of the square of the level, under ids that rise by three.
fn drawn_segs(alloc: Global, level: u8, seed: u64) -> Result<SegList, AllocError>
    requires { level ≤ 8 }
{
    let mut list = SegList::new(alloc);
    let mut state = next_state(seed);
    for i in 0..(state >> 60) as u32 {
        state = next_state(state);
        list.push(3 * i, drawn_seg(state, level))?;
    }
    Ok(list)
}

/// A power of 2 up to 256.
fn drawn_side(state: u64) -> u16 {
    (1_u16 << (state % 9)).max(1)
}

/// The segments over blocks of this side, or none where the level, the side or a segment does not fit.
fn layer_of(level: u8, side: u16, segs: SegList) -> Option<Even> {
    if level == 0 || level > 12 || side == 0 {
        return None;
    }
    if are_in_square(level, segs.items()) {
        Some(Even { level, side, segs })
    } else {
        None
    }
}

/// Up to 15 drawn segments over blocks of a drawn side. The level is 8 at most.
pub fn drawn_layer(alloc: Global, level: u8, seed: u64) -> Result<Even, Fail> {
    if level > 8 {
        return Err(Fail::from("a level"));
    }
    let segs = drawn_segs(alloc, level, seed)?;
    let side = drawn_side(next_state(next_state(seed)));
    let layer = layer_of(level, side, segs).ok_or("a layer")?;
    Ok(layer)
}

/// The sides of blocks over which the same segments are tried.
pub static SIDES: [u16; 4] = [1, 2, 4, 8];

/// These segments of the square of level 3, over blocks of one side.
pub fn small_layer(alloc: Global, side: u16, segs: &[(u32, Seg)]) -> Result<Even, Fail> {
    let mut list = SegList::new(alloc);
    for (id, s) in segs {
        list.push(*id, *s)?;
    }
    let layer = layer_of(3, side, list).ok_or("a layer")?;
    Ok(layer)
}

/// The segment from one pixel to another.
pub fn between(first: (u16, u16), last: (u16, u16)) -> Seg {
    Seg {
        x1: first.0,
        y1: first.1,
        x2: last.0,
        y2: last.1,
    }
}

/// A pixel of the level.
pub fn drawn_pixel(state: u64, level: u8) -> Pixel
    requires { level ≤ 8 }
{
    Pixel {
        x: drawn_coordinate(state, 0, level).min(8191),
        y: drawn_coordinate(state, 1, level).min(8191),
    }
}

/// A window of the square of the level.
pub fn drawn_window(state: u64, level: u8) -> Window
    requires { level ≤ 8 }
{
    let (x1, x2) = (
        drawn_coordinate(state, 0, level),
        drawn_coordinate(state, 2, level),
    );
    let (y1, y2) = (
        drawn_coordinate(state, 1, level),
        drawn_coordinate(state, 3, level),
    );
    Window {
        x: x1.min(x2),
        y: y1.min(y2),
        w: x1.abs_diff(x2).saturating_add(1),
        h: y1.abs_diff(y2).saturating_add(1),
    }
}

/// The colours of the square of the level, two bytes each: mostly background.
pub fn drawn_colours(alloc: Global, level: u8, seed: u64) -> Result<Vec<u8>, AllocError>
    requires { level ≤ 8 }
{
    let mut bytes = Vec::new(alloc);
    let mut state = seed;
    for _ in 0..1_u32 << (2 * level) {
        state = next_state(state);
        bytes.extend_from_slice(&[0, if state >> 60 == 0 { 7 } else { 0 }])?;
    }
    Ok(bytes)
}

use quilt_overlay::Op;
use quilt_types::{Colour, Window};
use std::alloc::{AllocError, Global};

/// The colour of the pixel (x, y) of a square of this side, and 0 where it lies outside.
pub fn at(colours: &[u16], side: u32, x: u32, y: u32) -> u16 {
    if side <= x || side <= y {
        return 0;
    }
    colours
        .get(y.wrapping_mul(side).wrapping_add(x) as usize)
        .copied()
        .unwrap_or(0)
}

/// What the operation makes of two squares.
pub fn plain_overlay(alloc: Global, op: Op, a: &[u16], b: &[u16]) -> Result<Vec<u16>, AllocError> {
    let mut colours = Vec::new(alloc);
    for (&p, &q) in a.iter().zip(b) {
        let colour = match op {
            Op::Union => if p != 0 { p } else { q },
            Op::Inter => if q != 0 { p } else { 0 },
            Op::Diff => if q == 0 { p } else { 0 },
        };
        colours.push(colour)?;
    }
    Ok(colours)
}

/// The square with the new colour of the first pair that fits each of its colours.
pub fn plain_recolour(
    alloc: Global,
    a: &[u16],
    pairs: &[(Colour, Colour)],
) -> Result<Vec<u16>, AllocError> {
    let mut colours = Vec::new(alloc);
    for &c in a {
        let new = pairs.iter().find(|pair| pair.0.0 == c);
        colours.push(new.map_or(c, |pair| pair.1.0))?;
    }
    Ok(colours)
}

/// The square inside the window, and 0 elsewhere.
pub fn plain_window(
    alloc: Global,
    a: &[u16],
    side: u32,
    window: Window,
) -> Result<Vec<u16>, AllocError> {
    let Window {
        x: left,
        y: top,
        w,
        h,
    } = window;
    let columns = u32::from(left)..u32::from(left) + u32::from(w);
    let rows = u32::from(top)..u32::from(top) + u32::from(h);
    let mut colours = Vec::new(alloc);
    for y in 0..side {
        for x in 0..side {
            let inside = columns.contains(&x) && rows.contains(&y);
            colours.push(if inside { at(a, side, x, y) } else { 0 })?;
        }
    }
    Ok(colours)
}

/// The square in which the pixel (x, y) has the colour of (x - dx, y - dy), and 0 where that lies outside.
pub fn plain_shift(
    alloc: Global,
    a: &[u16],
    side: u32,
    dx: i32,
    dy: i32,
) -> Result<Vec<u16>, AllocError> {
    let mut colours = Vec::new(alloc);
    for y in 0..side {
        for x in 0..side {
            let from_x = u32::try_from(i64::from(x) - i64::from(dx));
            let from_y = u32::try_from(i64::from(y) - i64::from(dy));
            colours.push(match (from_x, from_y) {
                (Ok(u), Ok(v)) => at(a, side, u, v),
                _ => 0,
            })?;
        }
    }
    Ok(colours)
}

/// The square that is 1 where a coloured pixel is within r, and 0 elsewhere.
pub fn plain_buffer(alloc: Global, a: &[u16], side: u32, r: u32) -> Result<Vec<u16>, AllocError> {
    let mut colours = Vec::new(alloc);
    for y in 0..side {
        for x in 0..side {
            colours.push(u16::from(has_near(a, side, x, y, r)))?;
        }
    }
    Ok(colours)
}

/// Whether the greater of the distances in x and in y of some coloured pixel is at most r.
fn has_near(a: &[u16], side: u32, x: u32, y: u32, r: u32) -> bool {
    (0..side).any(|v| {
        (0..side).any(|u| at(a, side, u, v) != 0 && u.abs_diff(x).max(v.abs_diff(y)) <= r)
    })
}

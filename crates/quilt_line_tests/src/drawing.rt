use quilt_types::Seg;
use std::collections::BTreeMap;

/// The next of pseudo-random numbers by a linear congruence, and its upper bits below the bound.
pub fn draw(seed: &mut u64, bound: u32) -> u32 {
    *seed = seed
        .wrapping_mul(6364136223846793005)
        .wrapping_add(1442695040888963407);
    ((*seed >> 33) as u32).checked_rem(bound).unwrap_or(0)
}

/// A drawn coordinate of a pixel of a square with this side.
pub fn coordinate(seed: &mut u64, side: u16) -> u16 {
    u16::try_from(draw(seed, u32::from(side))).unwrap_or(0)
}

/// A segment of a square with this side: of one pixel, along a border of the square, of its quarters or of theirs, along its
/// diagonal, from one of its corners, or any other.
fn placed_seg(seed: &mut u64, side: u16) -> Seg {
    let kind = draw(seed, 10);
    let x1 = coordinate(seed, side);
    let y1 = coordinate(seed, side);
    let x2 = coordinate(seed, side);
    let y2 = coordinate(seed, side);
    let last = side.wrapping_sub(1);
    let half = side / 2;
    let (x1, y1, x2, y2) = match kind {
        0 => (x1, y1, x1, y1),
        1 => (x1, 0, x2, 0),
        2 => (last, y1, last, y2),
        3 => (x1, half, x2, half),
        4 => (x1, x1, x2, x2),
        5 => (last, last, x2, y2),
        6 => (half / 2, y1, half / 2, y2),
        _ => (x1, y1, x2, y2),
    };
    Seg { x1, y1, x2, y2 }
}

/// A drawn segment: often one that touches a segment that is there at its end, lies along it, or is the same or its reverse.
pub fn drawn_seg(seed: &mut u64, side: u16, segs: &BTreeMap<u32, Seg>) -> Seg {
    let new = placed_seg(seed, side);
    let count = u32::try_from(segs.len()).unwrap_or(0);
    let place = draw(seed, count) as usize;
    let Some(old) = segs.values().nth(place).copied() else {
        return new;
    };
    let Seg { x1, y1, x2, y2 } = old;
    match draw(seed, 12) {
        0 => old,
        1 => Seg {
            x1: x2,
            y1: y2,
            x2: x1,
            y2: y1,
        },
        2 => Seg {
            x1: x2,
            y1: y2,
            ..new
        },
        3 => Seg {
            x2: x1,
            y2: y1,
            ..new
        },
        4 => Seg {
            x2: (x1 / 2).wrapping_add(x2 / 2),
            y2: (y1 / 2).wrapping_add(y2 / 2),
            ..old
        },
        _ => new,
    }
}

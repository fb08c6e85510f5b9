use crate::algebra::at;

/// How many pixels have the colour.
pub fn plain_area(a: &[u16], c: u16) -> u64 {
    let mut count = 0_u64;
    for &d in a {
        if d == c {
            count = count.wrapping_add(1);
        }
    }
    count
}

/// How many edges of pixels of the colour have another colour or the outside behind them.
pub fn plain_perimeter(a: &[u16], side: u32, c: u16) -> u64 {
    let mut count = 0_u64;
    for y in 0..side {
        for x in 0..side {
            if at(a, side, x, y) == c {
                count = count.wrapping_add(edges(a, side, x, y));
            }
        }
    }
    count
}

/// How many of the four pixels that share an edge with this one are outside or have another colour.
fn edges(a: &[u16], side: u32, x: u32, y: u32) -> u64 {
    let colour = at(a, side, x, y);
    let mut count = 0_u64;
    for (u, v) in [
        (x.wrapping_sub(1), y),
        (x.wrapping_add(1), y),
        (x, y.wrapping_sub(1)),
        (x, y.wrapping_add(1)),
    ] {
        let outside = side <= u || side <= v;
        if outside || at(a, side, u, v) != colour {
            count = count.wrapping_add(1);
        }
    }
    count
}

/// How many maximal blocks have the side 2 ^ k, by a search of all blocks.
pub fn plain_histogram(a: &[u16], side: u32) -> [u32; 13] {
    let mut counts = [0; 13];
    for k in 0..13_usize {
        let size = 1_u32 << k;
        if size <= side {
            counts[k] = maximal_blocks(a, side, size);
        }
    }
    counts
}

/// How many blocks of this size are maximal.
fn maximal_blocks(a: &[u16], side: u32, size: u32) -> u32 {
    let mut count = 0_u32;
    for y in 0..side {
        for x in 0..side {
            let is_corner = x.checked_rem(size) == Some(0) && y.checked_rem(size) == Some(0);
            if is_corner && is_maximal(a, side, x, y, size) {
                count = count.wrapping_add(1);
            }
        }
    }
    count
}

/// Whether the block is of one colour, and is the whole square or lies in no block of twice its side that is.
fn is_maximal(a: &[u16], side: u32, x: u32, y: u32, size: u32) -> bool {
    let twice = size.wrapping_mul(2);
    let left = x.wrapping_sub(x.checked_rem(twice).unwrap_or(0));
    let top = y.wrapping_sub(y.checked_rem(twice).unwrap_or(0));
    is_uniform(a, side, x, y, size) && (size == side || !is_uniform(a, side, left, top, twice))
}

/// Whether all pixels from (x, y) on, as many in a row as rows, have the colour of the first.
fn is_uniform(a: &[u16], side: u32, x: u32, y: u32, size: u32) -> bool {
    let first = at(a, side, x, y);
    (0..size).all(|dy| {
        (0..size).all(|dx| at(a, side, x.wrapping_add(dx), y.wrapping_add(dy)) == first)
    })
}

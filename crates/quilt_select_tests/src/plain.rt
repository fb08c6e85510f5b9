use quilt_clip::{Frac, clip, meets};
use quilt_near::SegList;
use quilt_types::{Block, Pixel, Seg, Window};
use std::alloc::{AllocError, Global};
use std::cmp::Ordering;

/// A squared distance as a numerator and a denominator, with an id.
type Far = (u64, u64, u32);

/// The squared distance of the pixel from the segment.
fn far_of(p: Pixel, id: u32, s: Seg) -> Far {
    let way = |from: u16, to: u16| i64::from(to).wrapping_sub(i64::from(from));
    let square = |x: i64, y: i64| x.wrapping_mul(x).wrapping_add(y.wrapping_mul(y));
    let (bx, by) = (way(s.x1, s.x2), way(s.y1, s.y2));
    let (px, py) = (way(s.x1, p.x), way(s.y1, p.y));
    let along = px.wrapping_mul(bx).wrapping_add(py.wrapping_mul(by));
    let length = square(bx, by);
    let aside = bx.wrapping_mul(py).wrapping_sub(by.wrapping_mul(px));
    let (num, den) = if along <= 0 {
        (square(px, py), 1)
    } else if along >= length {
        (square(way(s.x2, p.x), way(s.y2, p.y)), 1)
    } else {
        (aside.wrapping_mul(aside), length)
    };
    (num.unsigned_abs(), den.unsigned_abs(), id)
}

/// By distance and then id.
fn by_rank(a: &Far, b: &Far) -> Ordering {
    let left = u128::from(a.0) * u128::from(b.1);
    let right = u128::from(b.0) * u128::from(a.1);
    left.cmp(&right).then(a.2.cmp(&b.2))
}

/// All segments by distance and then id.
fn sorted(alloc: Global, segs: &SegList, p: Pixel) -> Result<Vec<Far>, AllocError> {
    let mut all = Vec::new(alloc);
    for (id, s) in segs.items() {
        all.push(far_of(p, *id, *s))?;
    }
    all.sort_by(|a, b| by_rank(a, b))?;
    Ok(all)
}

/// An id with its distance as a fraction.
fn rank_of(far: &Far) -> (u32, Frac) {
    (far.2, Frac::of(far.0, far.1.max(1)))
}

/// All segments by distance and then id, each with its distance.
pub fn plain_ranks(
    alloc: Global,
    segs: &SegList,
    p: Pixel,
) -> Result<Vec<(u32, Frac)>, AllocError> {
    let all = sorted(alloc, segs, p)?;
    let mut ranks = Vec::new(alloc);
    for far in &all {
        ranks.push(rank_of(far))?;
    }
    Ok(ranks)
}

/// The segments that meet the window.
pub fn plain_cross(alloc: Global, segs: &SegList, w: Window) -> Result<SegList, AllocError> {
    let mut list = SegList::new(alloc);
    for (id, s) in segs.items() {
        if clip(*s, w).is_some() {
            list.push(*id, *s)?;
        }
    }
    Ok(list)
}

/// The parts of the segments in the window.
pub fn plain_clips(
    alloc: Global,
    segs: &SegList,
    w: Window,
) -> Result<Vec<(u32, Frac, Frac)>, AllocError> {
    let mut list = Vec::new(alloc);
    for (id, s) in segs.items() {
        if let Some((first, last)) = clip(*s, w) {
            list.push((*id, first, last))?;
        }
    }
    Ok(list)
}

/// The squares of the pixels that are not background, of colours in rows of `1 << level` pixels, two bytes each.
pub fn coloured(alloc: Global, level: u8, bytes: &[u8]) -> Result<Vec<Block>, AllocError> {
    let mut squares = Vec::new(alloc);
    let (mut x, mut y) = (0_u16, 0_u16);
    for (place, byte) in bytes.iter().enumerate() {
        if place % 2 == 1 {
            if *byte != 0 {
                squares.push(Block { x, y, side: 1 })?;
            }
            x = x.wrapping_add(1);
            if x >> level.min(15) == 1 {
                x = 0;
                y = y.wrapping_add(1);
            }
        }
    }
    Ok(squares)
}

/// Whether the segment meets one of the squares.
fn meets_one(s: Seg, squares: &[Block]) -> bool {
    for square in squares {
        if meets(s, *square) {
            return true;
        }
    }
    false
}

/// The segments that meet one of the squares.
pub fn plain_over(alloc: Global, segs: &SegList, squares: &[Block]) -> Result<SegList, AllocError> {
    let mut list = SegList::new(alloc);
    for (id, s) in segs.items() {
        if meets_one(*s, squares) {
            list.push(*id, *s)?;
        }
    }
    Ok(list)
}

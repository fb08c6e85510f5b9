use crate::algebra::at;
use quilt_types::{Pixel, Seg, Window};
use std::alloc::{AllocError, Global};
use std::collections::BTreeMap;

/// Segments under their ids, in the order of these. Their ends lie in a square of at most 4096 by 4096 pixels.
#[derive(Drop)]
pub struct PlainSegments {
    segs: BTreeMap<u32, Seg>,
}

/// The ends of a segment, as numbers that can be subtracted.
fn ends(s: Seg) -> [i64; 4] {
    [s.x1, s.y1, s.x2, s.y2].map(i64::from)
}

/// Twice the area of the triangle of the segment and the point: over 0 where the point lies on one side of the segment's line, and below 0
/// on the other.
fn turn(s: Seg, x: i64, y: i64) -> i64 {
    let [x1, y1, x2, y2] = ends(s);
    let across = x2.wrapping_sub(x1).wrapping_mul(y.wrapping_sub(y1));
    across.wrapping_sub(y2.wrapping_sub(y1).wrapping_mul(x.wrapping_sub(x1)))
}

/// Whether the points lie all on one side of the segment's line, and none on it.
fn lie_beside(s: Seg, points: &[(i64, i64)]) -> bool {
    points.iter().all(|(x, y)| turn(s, *x, *y) > 0)
        || points.iter().all(|(x, y)| turn(s, *x, *y) < 0)
}

/// Whether the intervals between two numbers each have a number in common.
fn overlap(a: i64, b: i64, c: i64, d: i64) -> bool {
    a.min(b) <= c.max(d) && c.min(d) <= a.max(b)
}

/// Whether the segment meets the closed rectangle: the boxes round them meet, and the corners are not all on one side of the segment.
pub fn plain_meets(s: Seg, w: Window) -> bool {
    let [x1, y1, x2, y2] = ends(s);
    let (left, top) = (i64::from(w.x), i64::from(w.y));
    let right = left.wrapping_add(i64::from(w.w));
    let bottom = top.wrapping_add(i64::from(w.h));
    let corners = [(left, top), (right, top), (left, bottom), (right, bottom)];
    overlap(x1, x2, left, right) && overlap(y1, y2, top, bottom) && !lie_beside(s, &corners)
}

/// Whether the segments share a point: the boxes round them meet, and neither has both ends on one side of the other.
pub fn plain_shares(s: Seg, r: Seg) -> bool {
    let [x1, y1, x2, y2] = ends(s);
    let [u1, v1, u2, v2] = ends(r);
    overlap(x1, x2, u1, u2)
        && overlap(y1, y2, v1, v2)
        && !lie_beside(s, &[(u1, v1), (u2, v2)])
        && !lie_beside(r, &[(x1, y1), (x2, y2)])
}

/// A fraction that is not below 0.
#[derive(Clone, Copy, Debug, PartialEq, Eq)]
pub struct Fraction {
    pub over: u128,
    pub under: u128,
}

/// The number of the lowest terms by which both can be divided.
fn common_divisor(a: u128, b: u128) -> u128 {
    let (mut a, mut b) = (a, b);
    for _ in 0..200_u32 {
        match a.checked_rem(b) {
            Some(rest) => (a, b) = (b, rest),
            None => return a,
        }
    }
    a
}

/// The squared length of the way between two points.
fn square(x: i64, y: i64) -> u128 {
    let (x, y) = (u128::from(x.unsigned_abs()), u128::from(y.unsigned_abs()));
    x.wrapping_mul(x).wrapping_add(y.wrapping_mul(y))
}

/// The squared distance from the pixel's number to the segment, in lowest terms.
pub fn plain_distance(s: Seg, p: Pixel) -> Fraction {
    let [x1, y1, x2, y2] = ends(s);
    let (x, y) = (i64::from(p.x), i64::from(p.y));
    let (along, down) = (x2.wrapping_sub(x1), y2.wrapping_sub(y1));
    let (dx, dy) = (x.wrapping_sub(x1), y.wrapping_sub(y1));
    let d = dx.wrapping_mul(along).wrapping_add(dy.wrapping_mul(down));
    let q = along
        .wrapping_mul(along)
        .wrapping_add(down.wrapping_mul(down));
    let (over, under) = if d <= 0 {
        (square(dx, dy), 1)
    } else if d >= q {
        (square(x.wrapping_sub(x2), y.wrapping_sub(y2)), 1)
    } else {
        (square(turn(s, x, y), 0), u128::from(q.unsigned_abs()))
    };
    let divisor = common_divisor(over, under);
    Fraction {
        over: over.checked_div(divisor).unwrap_or(over),
        under: under.checked_div(divisor).unwrap_or(under),
    }
}

/// Whether the first fraction is below the second.
fn is_below(a: Fraction, b: Fraction) -> bool {
    a.over.wrapping_mul(b.under) < b.over.wrapping_mul(a.under)
}

impl PlainSegments {
    pub fn new(alloc: Global) -> PlainSegments {
        PlainSegments {
            segs: BTreeMap::new(alloc),
        }
    }

    pub fn is_empty(&self) -> bool {
        self.segs.is_empty()
    }

    pub fn has(&self, id: u32) -> bool {
        self.segs.contains_key(&id)
    }

    /// Adds a segment, in the place of that of its id.
    pub fn add(&mut self, id: u32, s: Seg) -> Result<(), AllocError> {
        self.segs.insert(id, s)?;
        Ok(())
    }

    /// Removes the segment of the id, if there is one.
    pub fn remove(&mut self, id: u32) {
        let _ = self.segs.remove(&id);
    }

    /// The segments that meet the closed window, by id.
    pub fn crossing(&self, alloc: Global, w: Window) -> Result<Vec<(u32, Seg)>, AllocError> {
        let mut found = Vec::new(alloc);
        for (id, s) in &self.segs {
            if plain_meets(*s, w) {
                found.push((*id, *s))?;
            }
        }
        Ok(found)
    }

    /// The ids of the segments that meet the closed square of a coloured pixel, in order.
    pub fn over(&self, alloc: Global, colours: &[u16], side: u32) -> Result<Vec<u32>, AllocError> {
        let mut found = Vec::new(alloc);
        for (id, s) in &self.segs {
            if is_over(*s, colours, side) {
                found.push(*id)?;
            }
        }
        Ok(found)
    }

    /// The pairs of ids of a segment of these and one of the others that share a point, in order.
    pub fn crossings(
        &self,
        alloc: Global,
        others: &PlainSegments,
    ) -> Result<Vec<(u32, u32)>, AllocError> {
        let mut found = Vec::new(alloc);
        for (id, s) in &self.segs {
            for (other, r) in &others.segs {
                if plain_shares(*s, *r) {
                    found.push((*id, *other))?;
                }
            }
        }
        Ok(found)
    }

    /// The so many segments of least distance to the pixel, by distance and then id, or all where there are fewer.
    pub fn ranked(
        &self,
        alloc: Global,
        p: Pixel,
        count: u32,
    ) -> Result<Vec<(u32, Fraction)>, AllocError> {
        let mut found: Vec<(u32, Fraction)> = Vec::new(alloc);
        for _ in 0..count {
            match self.next_of(p, &found) {
                Some(next) => found.push(next)?,
                None => return Ok(found),
            }
        }
        Ok(found)
    }

    /// The segment of least distance, of these the one of least id, that is not found yet.
    fn next_of(&self, p: Pixel, found: &[(u32, Fraction)]) -> Option<(u32, Fraction)> {
        let mut best: Option<(u32, Fraction)> = None;
        for (id, s) in &self.segs {
            let far = plain_distance(*s, p);
            let is_new = !found.iter().any(|pair| pair.0 == *id);
            let is_better = best.is_none_or(|pair| is_below(far, pair.1));
            if is_new && is_better {
                best = Some((*id, far));
            }
        }
        best
    }

    /// The same segments.
    pub fn copy(&self, alloc: Global) -> Result<PlainSegments, AllocError> {
        let mut segments = PlainSegments::new(alloc);
        for (id, s) in &self.segs {
            segments.add(*id, *s)?;
        }
        Ok(segments)
    }
}

/// Whether the segment meets the closed square of a coloured pixel.
fn is_over(s: Seg, colours: &[u16], side: u32) -> bool {
    (0..side).any(|y| {
        (0..side).any(|x| {
            let square = Window {
                x: u16::try_from(x).unwrap_or(0),
                y: u16::try_from(y).unwrap_or(0),
                w: 1,
                h: 1,
            };
            at(colours, side, x, y) != 0 && plain_meets(s, square)
        })
    })
}

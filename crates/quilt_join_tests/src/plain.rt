use quilt_types::Seg;
use std::alloc::{AllocError, Global};

/// The cross product of the segment and the way from its first end to the point: twice the area of their triangle.
fn area(s: Seg, x: u16, y: u16) -> i64 {
    let way = |from: u16, to: u16| i64::from(to) - i64::from(from);
    let across = way(s.x1, s.x2).wrapping_mul(way(s.y1, y));
    across.wrapping_sub(way(s.y1, s.y2).wrapping_mul(way(s.x1, x)))
}

/// Whether the point lies on the segment: on its line, and between its ends.
fn is_on(s: Seg, x: u16, y: u16) -> bool {
    area(s, x, y) == 0
        && s.x1.min(s.x2) <= x
        && x <= s.x1.max(s.x2)
        && s.y1.min(s.y2) <= y
        && y <= s.y1.max(s.y2)
}

/// Whether the ends of the second segment lie on different sides of the first one's line.
fn cuts(s: Seg, r: Seg) -> bool {
    let first = area(s, r.x1, r.y1).signum();
    let last = area(s, r.x2, r.y2).signum();
    first != 0 && last != 0 && first != last
}

/// Whether the segments share a point: an end of one lies on the other, or each cuts the other's line.
pub fn share(s: Seg, r: Seg) -> bool {
    is_on(s, r.x1, r.y1)
        || is_on(s, r.x2, r.y2)
        || is_on(r, s.x1, s.y1)
        || is_on(r, s.x2, s.y2)
        || (cuts(s, r) && cuts(r, s))
}

/// All pairs of ids whose segments share a point, by the first id and then the second.
pub fn all_pairs(
    alloc: Global,
    a: &[(u32, Seg)],
    b: &[(u32, Seg)],
) -> Result<Vec<(u32, u32)>, AllocError> {
    let mut pairs = Vec::new(alloc);
    for (i, s) in a {
        for (j, r) in b {
            if share(*s, *r) {
                pairs.push((*i, *j))?;
            }
        }
    }
    Ok(pairs)
}

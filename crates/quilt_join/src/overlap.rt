ghost use Rattle.std.specs.Prelude.{◌≡◌, ◌↔◌, IsTrue};
ghost use Rattle.quilt_types.specs.Crossings.{overlap as overlap_of, shares as shares_of, Share};
ghost use Rattle.quilt_join.specs.Sides.{left_products, right_products, is_turned as is_turned_of, parts as parts_of};

use quilt_types::Seg;

/// Whether the stretch from `a` to `b` and that from `c` to `d` have a number in common.
fn overlap(a: u16, b: u16, c: u16, d: u16) -> bool
    ensures { result ≡ overlap_of a b c d }
{
    a.min(b) <= c.max(d) && c.min(d) <= a.max(b)
}

/// What the cross product of the segment and the way from its first end to the point adds, and what it takes away. Its sign
/// tells on which side of the segment's line the point lies.
fn products(s: Seg, x: u16, y: u16) -> (u64, u64)
    ensures { result ≡ (left_products s x y, right_products s x y) }
{
    let product = |a: u16, b: u16| u64::from(a) * u64::from(b);
    let left = product(s.x2, y) + product(s.x1, s.y2) + product(x, s.y1);
    let right = product(s.x2, s.y1) + product(s.x1, y) + product(x, s.y2);
    (left, right)
}

/// Whether the first cross product is 0 or less and the second 0 or more.
fn is_turned(first: (u64, u64), second: (u64, u64)) -> bool
    ensures { result ≡ is_turned_of first second }
{
    first.0 <= first.1 && second.1 <= second.0
}

/// Whether the ends of the second segment do not both lie on the same side of the first one's line.
fn parts(s: Seg, r: Seg) -> bool
    ensures { result ≡ parts_of s r }
{
    let first = products(s, r.x1, r.y1);
    let second = products(s, r.x2, r.y2);
    is_turned(first, second) || is_turned(second, first)
}

/// Whether the segments share a point, an end or a point between: their bounding boxes do, and the ends of each do not both
/// lie on the same side of the other's line.
pub fn shares(s: Seg, r: Seg) -> bool
    ensures value { result ≡ shares_of s r }
    ensures point { IsTrue result ↔ Share s r }
{
    overlap(s.x1, s.x2, r.x1, r.x2) && overlap(s.y1, s.y2, r.y1, r.y2) && parts(s, r) && parts(r, s)
}

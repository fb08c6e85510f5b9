ghost use Rattle.std.specs.Prelude.{◌≡◌, ◌<◌, ◌^◌, true, false, None, All, map, IfOk, IfSome, IsPermutation};
ghost use Rattle.std.specs.List.Sorted.{IsSortedByKey};
ghost use Rattle.std.specs.Ordering.{nat_cmp};
ghost use Rattle.quilt_types.specs.Plane.{is_pixel};
ghost use Rattle.quilt_loc.specs.Codes.{Rises};
ghost use Rattle.quilt_spell.specs.Apart.{Apart};
ghost use Rattle.quilt_points.specs.Coding.{by_code, coded as with_code, decoded, IsStepwise, HasFall};

use quilt_loc::{code_of, pixel_of};
use quilt_types::Point;
use std::alloc::{AllocError, Global};

/// A point by the code of its pixel, which says where it is. It takes 8 bytes, which are sorted faster than more.
#[derive(Clone, Copy)]
pub(crate) struct Coded {
    pub code: u32,
    pub label: u32,
}

/// The points in the order of their codes: None exactly where two of them share a pixel.
pub(crate) fn in_order(alloc: Global, points: &[Point]) -> Result<Option<Vec<Point>>, AllocError>
    requires { All (λ p. is_pixel 12 p.at ≡ true) points.now }
    ensures same { IfOk result (λ o. IfSome o (λ v. IsPermutation points.now v.items)) }
    ensures order { IfOk result (λ o. IfSome o (λ v. Rises by_code v.items)) }
    ensures labels { IfOk result (λ o. IfSome o (λ v. All (λ p. p.label < 2 ^ 32) points.now)) }
    ensures none { IfOk result (λ o. o ≡ None → Apart (map (λ p. p.at) points.now) → ⊥) }
{
    let mut coded = all_coded(alloc, points)?;
    sort(&mut coded);
    if !are_apart(&coded) {
        return Ok(None);
    }
    let points = points_in(alloc, &coded)?;
    Ok(Some(points))
}

/// The points by their codes.
fn all_coded(alloc: Global, points: &[Point]) -> Result<Vec<Coded>, AllocError>
    requires { All (λ p. is_pixel 12 p.at ≡ true) points.now }
    ensures coded { IfOk result (λ v. v.items ≡ map with_code points.now) }
    ensures labels { IfOk result (λ v. All (λ p. p.label < 2 ^ 32) points.now) }
{
    let mut coded = Vec::with_capacity(alloc, points.len())?;
    for p in points {
        coded.push(one_coded(*p))?;
    }
    Ok(coded)
}

/// A point by its code.
fn one_coded(p: Point) -> Coded
    requires { is_pixel 12 p.at ≡ true }
    ensures coded { result ≡ with_code p }
    ensures label { p.label < 2 ^ 32 }
{
    Coded {
        code: code_of(p.at),
        label: p.label,
    }
}

/// Puts the points in the order of their codes.
fn sort(coded: &mut Vec<Coded>)
    ensures permutation { IsPermutation coded.old.items coded.new.items }
    ensures sorted { IsSortedByKey (λ c. c.code) nat_cmp coded.new.items }
{
    coded.sort_unstable_by_key(|c| c.code);
}

/// Whether each code is less than the next.
fn are_apart(coded: &[Coded]) -> bool
    ensures yes { result ≡ true → IsStepwise coded.now }
    ensures no { result ≡ false → HasFall coded.now }
{
    for i in 1..coded.len() {
        if coded[i].code <= coded[i - 1].code {
            return false;
        }
    }
    true
}

/// The points made anew of their codes.
fn points_in(alloc: Global, coded: &[Coded]) -> Result<Vec<Point>, AllocError>
    requires { All (λ c. c.code < 4 ^ 12) coded.now }
    ensures { IfOk result (λ v. v.items ≡ map decoded coded.now) }
{
    let mut points = Vec::with_capacity(alloc, coded.len())?;
    for c in coded {
        points.push(one_point(*c))?;
    }
    Ok(points)
}

/// The point that has the code.
fn one_point(c: Coded) -> Point
    requires { c.code < 4 ^ 12 }
    ensures { result ≡ decoded c }
{
    Point {
        at: pixel_of(c.code),
        label: c.label,
    }
}

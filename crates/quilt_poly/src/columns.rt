ghost use Rattle.std.specs.Prelude.{◌≡◌, ℕ, ◌+◌, ◌*◌, ◌^◌, ◌<◌, ◌≤◌};
ghost use Rattle.quilt_poly.specs.Edges.{edge_of};
ghost use Rattle.quilt_poly.specs.Crossings.{IsCrossing};

use crate::edges::RingEdge;

/// A number of whole pixels, and the rest in parts of a pixel.
#[derive(Clone, Copy, Debug)]
pub(crate) struct Columns {
    pub column: usize,
    pub rest: usize,
}

/// The product of a coordinate and a doubled one.
fn times(a: usize, b: usize) -> usize
    requires a { a < 65536 }
    requires b { b < 131072 }
    ensures value { result ≡ a * b }
    ensures small { result < 8589934592 }
{
    a * b
}

/// So many parts of a pixel as whole pixels, of which each has so many parts.
fn columns_of(parts: usize, width: usize) -> Columns
    requires { 0 < width }
    ensures value { result.column * width + result.rest ≡ parts }
    ensures small { result.rest < width }
{
    Columns {
        column: parts / width,
        rest: parts % width,
    }
}

/// How many parts half a pixel has for an edge: one for each row of it.
fn half_of(e: RingEdge) -> usize
    requires { e.top.y < e.bottom.y }
    ensures value { e.top.y + result ≡ e.bottom.y }
    ensures few { e.bottom.y < 65536 }
{
    usize::from(e.bottom.y - e.top.y)
}

/// How many parts a pixel has for an edge.
pub(crate) fn parts_of(e: RingEdge) -> usize
    requires { e.top.y < e.bottom.y }
    ensures value { e.bottom.y * 2 ≡ e.top.y * 2 + result }
    ensures few { e.bottom.y < 65536 }
{
    2 * half_of(e)
}

/// How far an edge leads to a side from row to row.
pub(crate) fn slope_of(e: RingEdge) -> Columns
    requires { e.top.y < e.bottom.y }
    ensures right { e.top.x ≤ e.bottom.x → (h : ℕ) → e.top.y + h ≡ e.bottom.y → result.column * (2 * h) + result.rest + 2 * e.top.x ≡ 2 * e.bottom.x }
    ensures left { e.bottom.x ≤ e.top.x → (h : ℕ) → e.top.y + h ≡ e.bottom.y → result.column * (2 * h) + result.rest + 2 * e.bottom.x ≡ 2 * e.top.x }
    ensures small { (h : ℕ) → e.top.y + h ≡ e.bottom.y → result.rest < 2 * h }
    ensures few { result.column < 131072 }
    ensures ends { (e.top.x < 65536) × (e.bottom.x < 65536) }
{
    columns_of(2 * usize::from(e.top.x.abs_diff(e.bottom.x)), parts_of(e))
}

/// Where an edge crosses a row of pixels: how many of them, from column 0 on, have their middles left of it.
pub(crate) fn crossing_at(e: RingEdge, y: usize) -> Columns
    requires below { e.top.y ≤ y }
    requires above { y < e.bottom.y }
    ensures { IsCrossing (edge_of e) (y + 1) result.column result.rest }
{
    let (top, bottom) = (usize::from(e.top.y), usize::from(e.bottom.y));
    let from_top = times(usize::from(e.top.x), 2 * (bottom - y) - 1);
    let from_bottom = times(usize::from(e.bottom.x), 2 * (y - top) + 1);
    columns_of(from_top + from_bottom + half_of(e) - 1, parts_of(e))
}

/// The sum of two lengths, of which a pixel has so many parts.
pub(crate) fn moved(at: Columns, by: Columns, width: usize) -> Columns
    requires width { width < 1048576 }
    requires few { at.column < 1099511627776 }
    requires step { by.column < 131072 }
    requires rest { at.rest < width }
    requires part { by.rest < width }
    ensures value { result.column * width + result.rest ≡ at.column * width + at.rest + (by.column * width + by.rest) }
    ensures small { result.rest < width }
{
    let (column, rest) = (at.column + by.column, at.rest + by.rest);
    if rest < width {
        Columns { column, rest }
    } else {
        Columns {
            column: column + 1,
            rest: rest - width,
        }
    }
}

ghost use Rattle.std.specs.Prelude.{◌≡◌, ℕ, ◌+◌, ◌*◌, ◌%◌, ◌<◌, ◌≤◌, min, length, replicate, count_by};
ghost use Rattle.quilt_types.specs.declared.plane.Pixel.{Pixel as PixelValue};
ghost use Rattle.quilt_poly.specs.Edges.{crosses as crosses_of};
ghost use Rattle.quilt_poly.specs.Bits.{strips, ones_right, IsMarked, HasParities};

use crate::bits::{mark_row, settle};
use crate::columns::{crossing_at, moved, parts_of, slope_of};
use crate::edges::RingEdge;

/// The row after the last one that an edge has in the square.
fn end_row(side: usize, e: RingEdge) -> usize
    ensures { result ≡ min side e.bottom.y }
{
    side.min(usize::from(e.bottom.y))
}

/// Marks the pixels left of an edge that leads to the right, row by row from its upper end.
fn mark_down(words: &mut [u64], side: usize, e: RingEdge)
    requires side { side ≤ 4096 }
    requires room { length words.old ≡ strips side * side }
    requires order { e.top.y < e.bottom.y }
    requires inside { e.top.y < side }
    requires right { e.top.x ≤ e.bottom.x }
    ensures { IsMarked side (λ p. crosses_of p e) words.old words.new }
{
    let top = usize::from(e.top.y);
    let end = end_row(side, e);
    let (parts, slope) = (parts_of(e), slope_of(e));
    let mut at = crossing_at(e, top);
    for y in top..end {
        mark_row(words, side, y, at.column);
        at = moved(at, slope, parts);
    }
}

/// Marks the pixels left of an edge that leads to the left, row by row from its lower end or from the last row.
fn mark_up(words: &mut [u64], side: usize, e: RingEdge)
    requires side { side ≤ 4096 }
    requires room { length words.old ≡ strips side * side }
    requires order { e.top.y < e.bottom.y }
    requires inside { e.top.y < side }
    requires left { e.bottom.x ≤ e.top.x }
    ensures { IsMarked side (λ p. crosses_of p e) words.old words.new }
{
    let top = usize::from(e.top.y);
    let end = end_row(side, e);
    let (parts, slope) = (parts_of(e), slope_of(e));
    let mut at = crossing_at(e, end - 1);
    for y in (top..end).rev() {
        mark_row(words, side, y, at.column);
        at = moved(at, slope, parts);
    }
}

/// Marks the pixels left of an edge: those from which a line to the right crosses it.
fn mark_edge(words: &mut [u64], side: usize, e: RingEdge)
    requires side { side ≤ 4096 }
    requires room { length words.old ≡ strips side * side }
    ensures { IsMarked side (λ p. crosses_of p e) words.old words.new }
{
    if e.bottom.y <= e.top.y || side <= usize::from(e.top.y) {
        return;
    }
    if e.top.x <= e.bottom.x {
        mark_down(words, side, e);
    } else {
        mark_up(words, side, e);
    }
}

/// Marks the pixels left of each of the edges.
fn mark_edges(words: &mut [u64], side: usize, edges: &[RingEdge])
    requires side { side ≤ 4096 }
    requires room { length words.old ≡ strips side * side }
    ensures { (p : PixelValue) → p.x < side → p.y < side
        → ones_right words.new side p.y p.x % 2 ≡ (ones_right words.old side p.y p.x + count_by (crosses_of p) edges.now) % 2 }
{
    for e in edges {
        mark_edge(words, side, *e);
    }
}

/// Gives the bit 1 to the pixels from which a line to the right crosses an odd number of the edges. All bits are 0 before.
pub(crate) fn mark_inside(words: &mut [u64], side: usize, edges: &[RingEdge])
    requires side { side ≤ 4096 }
    requires room { length words.old ≡ strips side * side }
    requires clear { words.old ≡ replicate (length words.old) 0 }
    ensures { HasParities side (λ p. count_by (crosses_of p) edges.now) words.new }
{
    mark_edges(words, side, edges);
    settle(words, side);
}

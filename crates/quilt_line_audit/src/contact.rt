ghost use Rattle.std.specs.Prelude.{◌≡◌, ◌⊎◌, ◌<◌, ◌≤◌, filter, true, IfOk};
ghost use Rattle.quilt_types.specs.Plane.{IsBlock};
ghost use Rattle.quilt_types.specs.Segments.{square as square_of, meets as segment_meets};

use quilt_clip::meets;
use quilt_types::{Block, Seg};
use std::alloc::{AllocError, Global};

/// The segments that meet the block.
pub fn meeting(
    alloc: Global,
    segs: &[(u32, Seg)],
    block: Block,
) -> Result<Vec<(u32, Seg)>, AllocError>
    requires { IsBlock 12 block }
    ensures { IfOk result (λ near. near.items ≡ filter (λ e. segment_meets e.1 (square_of block)) segs.now) }
{
    let mut near = Vec::with_capacity(alloc, segs.len())?;
    for (id, s) in segs {
        if is_met(*s, block) {
            near.push((*id, *s))?;
        }
    }
    Ok(near)
}

/// Whether the segment meets the block's closed square. Its ends tell that mostly: where one lies in the square, and where both lie
/// beyond one of its sides.
#[inline(always)]
pub fn is_met(s: Seg, block: Block) -> bool
    requires { IsBlock 12 block }
    ensures { result ≡ segment_meets s (square_of block) }
{
    let right = block.x + block.side;
    let under = block.y + block.side;
    if is_between(s.x1, block.x, right) && is_between(s.y1, block.y, under) {
        return true;
    }
    if are_beyond(s.x1, s.x2, block.x, right) || are_beyond(s.y1, s.y2, block.y, under) {
        return false;
    }
    if is_between(s.x2, block.x, right) && is_between(s.y2, block.y, under) {
        return true;
    }
    meets_by_a_part(s, block)
}

/// The same, asked exactly. It is kept out of the loops over segments, of which few are asked so.
#[inline(never)]
fn meets_by_a_part(s: Seg, block: Block) -> bool
    ensures { result ≡ segment_meets s (square_of block) }
{
    meets(s, block)
}

/// Whether the number is one of those from the low to the high one.
fn is_between(a: u16, low: u16, high: u16) -> bool
    ensures { result ≡ true → (low ≤ a) × (a ≤ high) }
{
    low <= a && a <= high
}

/// Whether both numbers are under the low one, or both over the high one.
fn are_beyond(a: u16, b: u16, low: u16, high: u16) -> bool
    ensures { result ≡ true → ((a < low) × (b < low)) ⊎ ((high < a) × (high < b)) }
{
    (a < low && b < low) || (high < a && high < b)
}

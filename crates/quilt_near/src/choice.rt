ghost use Rattle.std.specs.Prelude.{◌≡◌, ◌+◌, ◌*◌, ◌<◌, ◌≤◌, true, fold, ◌++◌, map, OnOk, All};
ghost use Rattle.std.specs.List.Sorted.{IsPermutation};
ghost use Rattle.quilt_types.specs.Plane.{IsBlock, quarters_of};
ghost use Rattle.quilt_types.specs.Segments.{gap as gap_of, block_distance as block_distance_of};
ghost use Rattle.quilt_near.specs.Choices.{better as better_of, better_seg, is_farther as is_past_of, placed_at};

use crate::distance::square_distance;
use crate::queue::Queue;
use crate::quotient::Quotient;
use quilt_loc::quarters;
use quilt_types::{Block, Pixel, Seg};
use std::alloc::AllocError;
use std::cmp::Ordering;

/// How far a number is from those from `low` to `high`.
fn gap(a: u16, low: u16, high: u16) -> u64
    requires a { a < 8192 }
    requires low { low < 8192 }
    ensures value { result ≡ gap_of a low high }
    ensures small { result < 8192 }
{
    if a < low {
        u64::from(low - a)
    } else if high < a {
        u64::from(a - high)
    } else {
        0
    }
}

/// The least squared distance of the pixel to a point of the block's closed square.
pub fn block_distance(p: Pixel, b: Block) -> u64
    requires x { p.x < 8192 }
    requires y { p.y < 8192 }
    requires valid { IsBlock 12 b }
    ensures { result ≡ block_distance_of p b }
{
    let dx = gap(p.x, b.x, b.x + b.side);
    let dy = gap(p.y, b.y, b.y + b.side);
    dx * dx + dy * dy
}

/// Whether a whole distance is greater than that of the best so far.
pub fn is_past(best: &Option<(u32, Quotient)>, distance: u64) -> bool
    ensures { result ≡ is_past_of best.now distance }
{
    match best {
        None => false,
        Some((_, far)) => far.is_below(distance),
    }
}

/// The first of the best so far and another, by distance and then id.
fn better(best: Option<(u32, Quotient)>, id: u32, far: Quotient) -> Option<(u32, Quotient)>
    ensures { result ≡ better_of best (id, far) }
{
    match best {
        None => Some((id, far)),
        Some((other, least)) => match far.cmp(&least) {
            Ordering::Less => Some((id, far)),
            Ordering::Greater => Some((other, least)),
            Ordering::Equal => if id <= other {
                Some((id, far))
            } else {
                Some((other, least))
            },
        },
    }
}

/// The first of the best so far and the segments of a list.
pub fn best_of(
    list: &[(u32, Seg)],
    p: Pixel,
    best: Option<(u32, Quotient)>,
) -> Option<(u32, Quotient)>
    requires x { p.x < 8192 }
    requires y { p.y < 8192 }
    requires ends { All (λ e. (e.1.x1 < 8192) × (e.1.y1 < 8192) × (e.1.x2 < 8192) × (e.1.y2 < 8192)) list.now }
    ensures { result ≡ fold (better_seg p) best list.now }
{
    let mut best = best;
    for (id, s) in list {
        best = better(best, *id, square_distance(p, *s));
    }
    best
}

/// Puts the quarters of a block into the queue.
pub fn push_quarters(queue: &mut Queue, p: Pixel, b: Block) -> Result<(), AllocError>
    requires x { p.x < 8192 }
    requires y { p.y < 8192 }
    requires valid { IsBlock 12 b }
    requires wide { 1 < b.side }
    ensures { OnOk result (IsPermutation (map (placed_at p) (quarters_of b) ++ queue.old) queue.new) }
{
    let [first, right, under, last] = quarters(b);
    queue.push(block_distance(p, last), last)?;
    queue.push(block_distance(p, under), under)?;
    queue.push(block_distance(p, right), right)?;
    queue.push(block_distance(p, first), first)?;
    Ok(())
}

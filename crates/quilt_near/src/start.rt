ghost use Rattle.std.specs.Prelude.{◌≡◌, ◌<◌, ◌≤◌, [], ◌∷◌, IfOk};
ghost use Rattle.std.specs.List.Sorted.{IsPermutation};
ghost use Rattle.quilt_types.specs.Plane.{whole};
ghost use Rattle.quilt_near.specs.Choices.{placed_at};

use crate::blocks::SegBlocks;
use crate::choice::block_distance;
use crate::queue::Queue;
use quilt_loc::whole_square;
use quilt_store::PageStore;
use quilt_types::Pixel;
use std::alloc::{AllocError, Global};

/// The queue of a search by distance at its beginning: the whole square waits alone.
pub fn first_queue<S: PageStore, B: SegBlocks<S>>(
    alloc: Global,
    blocks: &B,
    p: Pixel,
) -> Result<Queue, AllocError>
    requires x { p.x < 8192 }
    requires y { p.y < 8192 }
    ensures first { IfOk result (λ queue. IsPermutation (placed_at p (whole (B.level_of blocks.now)) ∷ []) queue) }
    ensures level { B.level_of blocks.now ≤ 12 }
{
    let whole = whole_square(blocks.level());
    let mut queue = Queue::new(alloc)?;
    queue.push(block_distance(p, whole), whole)?;
    Ok(queue)
}

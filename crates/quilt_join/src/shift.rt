ghost use Rattle.std.specs.Prelude.{◌≡◌, ◌⊎◌, ◌≤◌, ◌<◌, ◌+◌, ◌^◌, ℕ, true, false, MatchOption};
ghost use Rattle.quilt_join.specs.Costs.{touched, bucket_cost, room};

use crate::buckets::columns_of;
use crate::span::Span;
use quilt_types::Seg;

/// How many blocks there may be for each segment, together with those that the boxes round the segments touch.
const SHARE: usize = 8;

/// How many blocks there may be for the segments of two lists.
#[tactic(auto, unfolding(crate::specs::Costs::room))]
fn room_for(a: &[(u32, Seg)], b: &[(u32, Seg)]) -> usize
    ensures { result ≡ room a.now b.now }
{
    a.len().saturating_add(b.len()).saturating_mul(SHARE)
}

/// What is left of a number of blocks after those that the boxes round the segments touch. None where they are more.
fn room_after(room: usize, list: &[(u32, Seg)], shift: u32) -> Option<usize>
    requires { shift ≤ 12 }
    ensures { MatchOption result (room < touched (2 ^ shift) list.now) (λ left. left + touched (2 ^ shift) list.now ≡ room) }
{
    let mut left = room;
    for (_, s) in list {
        let count = Span::of(*s, shift).count();
        if left < count {
            return None;
        }
        left -= count;
    }
    Some(left)
}

/// Whether the blocks of side `1 << shift` of the square, and those that the boxes round the segments touch, are so many.
#[tactic(auto, unfolding(crate::specs::Costs::bucket_cost))]
fn are_within(room: usize, level: u32, shift: u32, a: &[(u32, Seg)], b: &[(u32, Seg)]) -> bool
    requires most { level ≤ 12 }
    requires shift { shift ≤ level }
    ensures yes { result ≡ true → bucket_cost level shift a.now b.now ≤ room }
    ensures no { result ≡ false → room < bucket_cost level shift a.now b.now }
{
    let columns = columns_of(level, shift);
    let blocks = columns * columns;
    if room < blocks {
        return false;
    }
    let Some(left) = room_after(room - blocks, a, shift) else {
        return false;
    };
    room_after(left, b, shift).is_some()
}

/// The base-2 logarithm of the side of the blocks by which the pairs of two lists are found: the least side whose blocks, with
/// those that the boxes round the segments touch, are no more than eight for each segment. The whole square is one block where
/// no side is.
pub(crate) fn shift_for(level: u32, a: &[(u32, Seg)], b: &[(u32, Seg)]) -> u32
    requires { level ≤ 12 }
    ensures most { result ≤ level }
    ensures bound { (result ≡ level) ⊎ (bucket_cost level result a.now b.now ≤ room a.now b.now) }
    ensures least { (shift : ℕ) → shift < result → room a.now b.now < bucket_cost level shift a.now b.now }
{
    let room = room_for(a, b);
    for shift in 0..level {
        if are_within(room, level, shift, a, b) {
            return shift;
        }
    }
    level
}

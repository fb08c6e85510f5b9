ghost use Rattle.std.specs.Prelude.{◌≡◌, ◌≤◌, true, map, All};
ghost use Rattle.std.specs.Bool.{OnTrue};
ghost use Rattle.std.specs.List.Sorted.{IsStrictlyIncreasing};
ghost use Rattle.quilt_types.specs.Layers.{is_in_square};

use quilt_near::SegList;
use quilt_plain::{are_in_square, drawn_seg, next_state};
use quilt_types::Seg;
use std::alloc::{AllocError, Global};

/// Whether the ids of a list rise and the ends of its segments are pixels of the level.
pub fn is_layer(level: u8, list: &[(u32, Seg)]) -> bool
    requires { level ≤ 12 }
    ensures ids { OnTrue result (IsStrictlyIncreasing (map (λ e. e.0) list.now)) }
    ensures ends { OnTrue result (All (λ e. is_in_square level e.1 ≡ true) list.now) }
{
    ids_rise(list) && are_in_square(level, list)
}

/// Whether the ids of a list rise.
fn ids_rise(list: &[(u32, Seg)]) -> bool
    ensures { OnTrue result (IsStrictlyIncreasing (map (λ e. e.0) list.now)) }
{
    for place in 1..list.len() {
        if list[place - 1].0 >= list[place].0 {
            return false;
        }
    }
    true
}

/// Segments of the square of the level, under ids that rise by three.
pub fn drawn_segs(alloc: Global, level: u8, count: u32, seed: u64) -> Result<SegList, AllocError>
    requires level { level ≤ 8 }
    requires count { count ≤ 1000 }
{
    let mut list = SegList::new(alloc);
    let mut state = seed;
    for i in 0..count {
        state = next_state(state);
        list.push(3 * i, drawn_seg(state, level))?;
    }
    Ok(list)
}

/// So many segments that are all the point (0, 0).
pub fn points_at_zero(alloc: Global, count: u32) -> Result<SegList, AllocError> {
    let mut list = SegList::new(alloc);
    let zero = Seg {
        x1: 0,
        y1: 0,
        x2: 0,
        y2: 0,
    };
    for id in 0..count {
        list.push(id, zero)?;
    }
    Ok(list)
}

ghost use Rattle.std.specs.Prelude.{◌≤◌};

use crate::asking::{clips_of, cross_of, nearest_of, new_store, over_of, ranks_of};
use crate::drawing::{
    SIDES, between, drawn_colours, drawn_layer, drawn_pixel, drawn_window, small_layer,
};
use crate::plain::{coloured, plain_clips, plain_cross, plain_over, plain_ranks};
use quilt_blocks::LeafList;
use quilt_clip::Frac;
use quilt_near::{Even, SegList};
use quilt_plain::next_state;
use quilt_raster::leaves_of;
use quilt_store::MemStore;
use quilt_types::{Pixel, Seg, Window};
use std::alloc::{AllocError, Global};
use std::test::Fail;

/// How many layers are drawn of each of the levels 1 to 6.
const LAYERS: u64 = 334;

/// Whether the first k segments are the first ones of all.
fn is_front(
    alloc: Global,
    layer: &Even,
    store: &mut MemStore,
    p: Pixel,
    k: u32,
    all: &[(u32, Frac)],
) -> Result<bool, Fail> {
    let list = ranks_of(alloc, layer, store, p, k)?;
    let first = all.len().min(k as usize);
    Ok(list.items() == &all[..first])
}

/// Whether the first 1, 3, 10 and 1000 segments, and the nearest, are the first ones of all.
fn are_fronts(
    alloc: Global,
    layer: &Even,
    store: &mut MemStore,
    p: Pixel,
    all: &[(u32, Frac)],
) -> Result<bool, Fail> {
    let mut are_fronts = nearest_of(alloc, layer, store, p)? == all.first().copied();
    for k in [1, 3, 10, 1000_u32] {
        are_fronts = are_fronts && is_front(alloc, layer, store, p, k, all)?;
    }
    Ok(are_fronts)
}

/// Whether the segments by rank, and the nearest, are those of all segments sorted plainly.
fn are_ranked(alloc: Global, layer: &Even, store: &mut MemStore, p: Pixel) -> Result<bool, Fail> {
    let all = plain_ranks(alloc, &layer.segs, p)?;
    are_fronts(alloc, layer, store, p, &all)
}

/// Whether the segments that meet the window are those of a plain filter.
fn are_met(alloc: Global, layer: &Even, store: &mut MemStore, w: Window) -> Result<bool, Fail> {
    let wanted = plain_cross(alloc, &layer.segs, w)?;
    let found = cross_of(alloc, layer, store, w)?;
    Ok(found.items() == wanted.items())
}

/// Whether the parts of the segments in the window are those of a plain filter.
fn are_clipped(alloc: Global, layer: &Even, store: &mut MemStore, w: Window) -> Result<bool, Fail> {
    let parts = plain_clips(alloc, &layer.segs, w)?;
    let clips = clips_of(alloc, layer, store, w)?;
    Ok(clips.items() == parts.as_slice())
}

/// The region of these colours at a level from 1 to 6.
fn region_of(alloc: Global, level: u8, bytes: &[u8]) -> Result<LeafList, Fail> {
    if level == 0 || level > 6 {
        return Err(Fail::from("a level"));
    }
    let side = 1_usize << level;
    if bytes.len() != 2 * (side * side) {
        return Err(Fail::from("a region"));
    }
    let region = leaves_of(alloc, bytes, level)?;
    Ok(region)
}

/// The segments that meet one of the coloured pixels.
fn wanted_over(alloc: Global, layer: &Even, bytes: &[u8]) -> Result<SegList, AllocError> {
    let squares = coloured(alloc, layer.level, bytes)?;
    plain_over(alloc, &layer.segs, &squares)
}

/// The segments that are found to meet the region of these colours.
fn found_over(
    alloc: Global,
    layer: &Even,
    store: &mut MemStore,
    bytes: &[u8],
) -> Result<SegList, Fail> {
    let region = region_of(alloc, layer.level, bytes)?;
    over_of(alloc, layer, store, &region)
}

/// Whether the segments that meet the region of these colours are those of a plain filter.
fn are_over(alloc: Global, layer: &Even, store: &mut MemStore, bytes: &[u8]) -> Result<bool, Fail> {
    let wanted = wanted_over(alloc, layer, bytes)?;
    let found = found_over(alloc, layer, store, bytes)?;
    Ok(found.items() == wanted.items())
}

/// What is asked of a drawn layer.
#[derive(Clone, Copy)]
enum Question {
    /// The segments nearest to a drawn pixel.
    Ranks,
    /// Those that meet a drawn window, and their parts in it.
    Window,
    /// Those that meet a drawn region.
    Region,
}

/// Whether a layer of the level answers as a plain computation does.
fn answers(
    alloc: Global,
    layer: &Even,
    store: &mut MemStore,
    question: Question,
    level: u8,
    state: u64,
) -> Result<bool, Fail>
    requires { level ≤ 8 }
{
    match question {
        Question::Ranks => are_ranked(alloc, layer, store, drawn_pixel(state, level)),
        Question::Window => {
            let w = drawn_window(state, level);
            Ok(are_met(alloc, layer, store, w)? && are_clipped(alloc, layer, store, w)?)
        }
        Question::Region => {
            let bytes = drawn_colours(alloc, level, state)?;
            are_over(alloc, layer, store, &bytes)
        }
    }
}

/// Whether the layer that is drawn by this seed answers so.
fn drawn_answers(
    alloc: Global,
    store: &mut MemStore,
    question: Question,
    level: u8,
    seed: u64,
) -> Result<bool, Fail>
    requires { level ≤ 8 }
{
    let layer = drawn_layer(alloc, level, seed)?;
    let state = next_state(next_state(next_state(seed)));
    answers(alloc, &layer, store, question, level, state)
}

/// The first seed of a layer of the level that answers otherwise, if there is one.
fn first_other(alloc: Global, question: Question, level: u8) -> Result<Option<u64>, Fail>
    requires { level ≤ 8 }
{
    let mut store = new_store(alloc)?;
    for seed in 0..LAYERS {
        if !drawn_answers(alloc, &mut store, question, level, seed)? {
            return Ok(Some(seed));
        }
    }
    Ok(None)
}

#[test]
fn pixels_rank_as_all_segments_sorted(rt: HostRuntime) -> Result<(), Fail> {
    for level in 1..7_u8 {
        let other = first_other(rt.alloc(), Question::Ranks, level)?;
        assert!(rt; other.is_none(), "at {level}, {other:?}");
    }
    Ok(())
}

#[test]
fn windows_select_and_clip_as_a_plain_filter_does(rt: HostRuntime) -> Result<(), Fail> {
    for level in 1..7_u8 {
        let other = first_other(rt.alloc(), Question::Window, level)?;
        assert!(rt; other.is_none(), "at {level}, {other:?}");
    }
    Ok(())
}

#[test]
fn regions_select_as_a_plain_filter_does(rt: HostRuntime) -> Result<(), Fail> {
    for level in 1..7_u8 {
        let other = first_other(rt.alloc(), Question::Region, level)?;
        assert!(rt; other.is_none(), "at {level}, {other:?}");
    }
    Ok(())
}

/// A part of a segment: its id and both fractions.
type Part = (u32, (u64, u64), (u64, u64));

/// The only one of these parts, if there is just one.
fn only(parts: &[(u32, Frac, Frac)]) -> Option<Part> {
    match parts {
        [(id, first, last)] => { Some((*id, (first.num(), first.den()), (last.num(), last.den()))) }
        _ => None,
    }
}

/// The only part in a window of these segments over blocks of one side, if there is just one.
fn only_part(
    alloc: Global,
    side: u16,
    segs: &[(u32, Seg)],
    w: Window,
) -> Result<Option<Part>, Fail> {
    let mut store = new_store(alloc)?;
    let layer = small_layer(alloc, side, segs)?;
    let found = clips_of(alloc, &layer, &mut store, w)?;
    Ok(only(found.items()))
}

#[test]
fn a_window_is_closed_and_its_corner_is_enough(rt: HostRuntime) -> Result<(), Fail> {
    let w = Window {
        x: 2,
        y: 2,
        w: 2,
        h: 2,
    };
    let segs = [(7, between((4, 4), (4, 4))), (9, between((0, 5), (7, 5)))];
    for side in &SIDES {
        let part = only_part(rt.alloc(), *side, &segs, w)?;
        assert!(rt; part == Some((7, (0, 1), (1, 1))), "side {side}: {part:?}");
    }
    Ok(())
}

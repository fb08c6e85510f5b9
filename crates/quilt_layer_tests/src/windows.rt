use crate::drawing::{below, small_window};
use crate::layer::Layer;
use crate::plain_points::is_inside;
use quilt_blocks::LeafList;
use quilt_types::{Colour, Pixel, Stop, Window};
use std::alloc::Global;

/// The colour of a pixel over which these windows were painted one after another: that of the last one that has it.
fn plain(painted: &[(Window, Colour)], p: Pixel) -> Colour {
    let mut colour = Colour(0);
    for (w, c) in painted {
        if is_inside(*w, p) {
            colour = *c;
        }
    }
    colour
}

/// The colour of a pixel, if it is one of the list's square.
fn colour_in(list: &LeafList, p: Pixel) -> Option<Colour> {
    let side = 1_u16 << list.level();
    if p.x < side && p.y < side {
        Some(list.colour_at(p))
    } else {
        None
    }
}

/// Whether the pixels of the window have the plain colours in the list.
fn agrees(list: &LeafList, painted: &[(Window, Colour)], w: Window) -> bool {
    for dy in 0..w.h {
        for dx in 0..w.w {
            let at = Pixel {
                x: w.x.wrapping_add(dx),
                y: w.y.wrapping_add(dy),
            };
            if colour_in(list, at) != Some(plain(painted, at)) {
                return false;
            }
        }
    }
    true
}

/// Eight drawn windows of a square of this many pixels a side, and their colours.
fn drawn(alloc: Global, state: &mut u32, side: u16) -> Option<Vec<(Window, Colour)>> {
    let mut windows = Vec::new(alloc);
    for _ in 0..8 {
        let w = small_window(state, side);
        windows.push((w, Colour(below(state, 4)))).ok()?;
    }
    Some(windows)
}

/// Paints windows one after another.
fn paint(alloc: Global, layer: &mut Layer, windows: &[(Window, Colour)]) -> Result<(), Stop> {
    for (w, c) in windows {
        let plan = layer.plan_rect(alloc, *w, *c)?;
        layer.edit(alloc, &plan)?;
    }
    Ok(())
}

/// Whether 16 drawn windows of the layer have the plain colours.
fn reads_windows(
    alloc: Global,
    layer: &mut Layer,
    painted: &[(Window, Colour)],
    state: &mut u32,
    side: u16,
) -> Result<bool, Stop> {
    for _ in 0..16 {
        let w = small_window(state, side);
        if !agrees(&layer.leaves_in(alloc, w)?, painted, w) {
            return Ok(false);
        }
    }
    Ok(true)
}

/// Whether drawn windows of a drawn layer of this level have the plain colours.
fn tries_layer(alloc: Global, state: &mut u32, level: u8) -> Result<bool, Stop> {
    let side = 1_u16.wrapping_shl(u32::from(level));
    let painted = drawn(alloc, state, side).ok_or(Stop::Memory)?;
    let mut layer = Layer::of_region(alloc, level)?;
    paint(alloc, &mut layer, &painted)?;
    reads_windows(alloc, &mut layer, &painted, state, side)
}

/// Windows of drawn layers have the plain colours of their pixels, at each level.
#[test]
fn windows_at_each_level(rt: HostRuntime) {
    let mut state = 1;
    for level in 1..13_u8 {
        for _ in 0..4 {
            assert!(rt;
                tries_layer(rt.alloc(), &mut state, level) == Ok(true),
                "level {level}"
            );
        }
    }
}

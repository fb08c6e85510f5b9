use crate::comparing::{buffer_of, is_same, list_of, shift_of, window_of};
use quilt_plain::{Dice, drawn, drawn_distance, plain_buffer, plain_shift, plain_window};
use quilt_types::Window;
use std::alloc::Global;

/// A place of a row and how many places there are from it on, one at least.
fn drawn_row(dice: &mut Dice, side: u16) -> (u16, u16) {
    let from = dice.below(u32::from(side)) as u16;
    let length = dice.below(u32::from(side.saturating_sub(from))) as u16;
    (from, length.saturating_add(1))
}

/// A drawn window of a square of this side.
fn drawn_window(dice: &mut Dice, side: u16) -> Window {
    let (x, w) = drawn_row(dice, side);
    let (y, h) = drawn_row(dice, side);
    Window { x, y, w, h }
}

/// Whether the map of these colours, cut to a window, is as it should.
fn is_cut(alloc: Global, level: u8, colours: &[u16], w: Window) -> Option<bool> {
    let side = 1_u32 << level.min(12);
    let made = window_of(alloc, &list_of(alloc, level, colours)?, w);
    Some(is_same(alloc, level, made, plain_window(alloc, colours, side, w)))
}

/// Whether the map of these colours, moved in x and in y, is as it should.
fn is_moved(alloc: Global, level: u8, colours: &[u16], dx: i32, dy: i32) -> Option<bool> {
    let side = 1_u32 << level.min(12);
    let made = shift_of(alloc, &list_of(alloc, level, colours)?, dx, dy);
    Some(is_same(
        alloc,
        level,
        made,
        plain_shift(alloc, colours, side, dx, dy),
    ))
}

/// Whether the pixels within a distance of the map of these colours are as they should.
fn is_buffered(alloc: Global, level: u8, colours: &[u16], r: u16) -> Option<bool> {
    let side = 1_u32 << level.min(12);
    let made = buffer_of(alloc, &list_of(alloc, level, colours)?, r);
    Some(is_same(
        alloc,
        level,
        made,
        plain_buffer(alloc, colours, side, u32::from(r)),
    ))
}

/// Cuts a drawn map to a window.
fn cuts(alloc: Global, dice: &mut Dice, level: u8) -> Option<bool> {
    let side = 1_u16 << level.min(12);
    let colours = drawn(alloc, dice, u32::from(side)).ok()?;
    is_cut(alloc, level, &colours, drawn_window(dice, side))
}

/// 200 maps of levels 1 to 5, each cut to a window.
#[test]
fn windows_of_drawn_maps(rt: HostRuntime) {
    let mut dice = Dice::new(3);
    for turn in 0..200_u8 {
        assert!(rt; cuts(rt.alloc(), &mut dice, turn % 5 + 1) == Some(true));
    }
}

/// Moves a drawn map in x and in y.
fn moves(alloc: Global, dice: &mut Dice, level: u8) -> Option<bool> {
    let side = 1_u32 << level.min(12);
    let colours = drawn(alloc, dice, side).ok()?;
    let dx = drawn_distance(dice, side);
    let dy = drawn_distance(dice, side);
    is_moved(alloc, level, &colours, dx, dy)
}

/// 200 maps of levels 1 to 5, each moved in x and in y.
#[test]
fn shifts_of_drawn_maps(rt: HostRuntime) {
    let mut dice = Dice::new(4);
    for turn in 0..200_u8 {
        assert!(rt; moves(rt.alloc(), &mut dice, turn % 5 + 1) == Some(true));
    }
}

/// Moves a drawn map of level 7 in x and in y, and cuts it to a window.
fn moves_and_cuts(alloc: Global, dice: &mut Dice) -> Option<bool> {
    let colours = drawn(alloc, dice, 128).ok()?;
    let dx = drawn_distance(dice, 128);
    let dy = drawn_distance(dice, 128);
    let w = drawn_window(dice, 128);
    Some(is_moved(alloc, 7, &colours, dx, dy)? && is_cut(alloc, 7, &colours, w)?)
}

/// 20 maps of level 7, which has sixteen blocks of 32 pixels in a row, each moved in x and in y and cut to a window.
#[test]
fn moves_of_large_maps(rt: HostRuntime) {
    let mut dice = Dice::new(6);
    for _ in 0..20_u8 {
        assert!(rt; moves_and_cuts(rt.alloc(), &mut dice) == Some(true));
    }
}

/// A distance up to one more than the side, or the greatest one.
fn drawn_radius(dice: &mut Dice, side: u16) -> u16 {
    let few = dice.below(4);
    match dice.below(10) {
        0 => u16::MAX,
        1..5 => few as u16,
        _ => dice.below(u32::from(side.saturating_add(2))) as u16,
    }
}

/// Takes the pixels within a distance of a drawn map.
fn buffers(alloc: Global, dice: &mut Dice, level: u8) -> Option<bool> {
    let side = 1_u16 << level.min(12);
    let colours = drawn(alloc, dice, u32::from(side)).ok()?;
    is_buffered(alloc, level, &colours, drawn_radius(dice, side))
}

/// 200 maps of levels 1 to 5, each with the pixels within a distance up to one more than the side, or the greatest one.
#[test]
fn buffers_of_drawn_maps(rt: HostRuntime) {
    let mut dice = Dice::new(5);
    for turn in 0..200_u8 {
        assert!(rt; buffers(rt.alloc(), &mut dice, turn % 5 + 1) == Some(true));
    }
}

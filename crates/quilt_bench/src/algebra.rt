ghost use Rattle.std.specs.Prelude.{◌≡◌, ◌+◌, ◌*◌, ◌≤◌, length, true, IfOk};
ghost use Rattle.quilt_types.specs.Plane.{side as side_of};

use quilt_blocks::LeafList;
use quilt_measure::perimeter;
use quilt_overlay::{Op, overlay};
use quilt_plain::Dice;
use quilt_raster::{leaves_of, render};
use quilt_types::{Colour, Window};
use quilt_window::shift;
use std::alloc::{AllocError, Global};

/// The colour of every third rectangle of a drawn raster.
const MEASURED: Colour = Colour(1);

/// The colours of a drawn map, row by row, with two bytes for each pixel: rectangles of three colours over colour 0, each up
/// to an eighth of the square wide and high, one for each 4096 pixels.
pub fn drawn_raster(alloc: Global, level: u8, seed: u64) -> Result<Vec<u8>, AllocError>
    requires { level ≤ 12 }
    ensures { IfOk result (λ bytes. length bytes.items ≡ 2 * (side_of level * side_of level)) }
{
    let side = 1_usize << level;
    let mut bytes = vec![in alloc; 0_u8; 2 * (side * side)]?;
    paint_rectangles(&mut bytes, side, seed);
    Ok(bytes)
}

/// Paints drawn rectangles.
fn paint_rectangles(bytes: &mut [u8], side: usize, seed: u64)
    requires { side ≤ 4096 }
{
    let mut dice = Dice::new(seed);
    for number in 0..side * side / 4096 {
        let left = dice.below(side as u32) as usize;
        let top = dice.below(side as u32) as usize;
        let right = (left + dice.below(side as u32 / 8) as usize + 1).min(side);
        let bottom = (top + dice.below(side as u32 / 8) as usize + 1).min(side);
        for y in top..bottom {
            paint_row(
                bytes,
                side * y + left,
                side * y + right,
                (number % 3) as u8 + 1,
            );
        }
    }
}

/// Gives the pixels from one place up to another a colour below 256.
fn paint_row(bytes: &mut [u8], from: usize, to: usize, colour: u8) {
    for place in from..to {
        if let Some(low) = bytes.get_mut(place.wrapping_mul(2).wrapping_add(1)) {
            *low = colour;
        }
    }
}

/// Reads the leaves of a drawn raster.
pub fn listed(alloc: Global, level: u8, calls: u32) -> Result<u64, AllocError>
    requires { (1 ≤ level) × (level ≤ 12) }
{
    let raster = drawn_raster(alloc, level, 1)?;
    let mut sum = 0_u64;
    for _ in 0..calls {
        let list = leaves_of(alloc, &raster, level)?;
        sum = sum.wrapping_add(list.len() as u64);
    }
    Ok(sum)
}

/// Shows a drawn map whole, with two digits for each pixel.
pub fn shown(alloc: Global, level: u8, calls: u32) -> Result<u64, AllocError>
    requires { (1 ≤ level) × (level ≤ 12) }
{
    let list = drawn_list(alloc, level, 1)?;
    let whole = Window {
        x: 0,
        y: 0,
        w: 1 << level,
        h: 1 << level,
    };
    let mut sum = 0_u64;
    for _ in 0..calls {
        let text = render(alloc, &list, whole, 1)?;
        sum = sum.wrapping_add(text.bytes().len() as u64);
    }
    Ok(sum)
}

/// Overlays two drawn maps.
pub fn united(alloc: Global, level: u8, calls: u32) -> Result<u64, AllocError>
    requires { (1 ≤ level) × (level ≤ 12) }
{
    let one = drawn_list(alloc, level, 1)?;
    let other = drawn_list(alloc, level, 2)?;
    let mut sum = 0_u64;
    for _ in 0..calls {
        let list = overlay(alloc, Op::Union, &one, &other)?;
        sum = sum.wrapping_add(list.len() as u64);
    }
    Ok(sum)
}

/// Moves a drawn map by 3 and 5 pixels.
pub fn moved(alloc: Global, level: u8, calls: u32) -> Result<u64, AllocError>
    requires { (1 ≤ level) × (level ≤ 12) }
{
    let list = drawn_list(alloc, level, 1)?;
    let mut sum = 0_u64;
    for _ in 0..calls {
        sum = sum.wrapping_add(shift(alloc, &list, 3, 5)?.len() as u64);
    }
    Ok(sum)
}

/// Measures the perimeter of a colour of a drawn map.
pub fn bounded(alloc: Global, level: u8, calls: u32) -> Result<u64, AllocError>
    requires { (1 ≤ level) × (level ≤ 12) }
{
    let list = drawn_list(alloc, level, 1)?;
    let mut sum = 0_u64;
    for _ in 0..calls {
        sum = sum.wrapping_add(perimeter(&list, MEASURED));
    }
    Ok(sum)
}

/// The leaves of a drawn map.
fn drawn_list(alloc: Global, level: u8, seed: u64) -> Result<LeafList, AllocError>
    requires { (1 ≤ level) × (level ≤ 12) }
    ensures { IfOk result (λ list. list.level ≡ level) }
{
    let raster = drawn_raster(alloc, level, seed)?;
    leaves_of(alloc, &raster, level)
}

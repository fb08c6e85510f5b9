ghost use Rattle.std.specs.Prelude.{◌≡◌, ℕ, ◌+◌, ◌*◌, ◌<◌, ◌≤◌, [], ◌∷◌, ◌++◌, length, map, flat_map, slice_index, OnOk, IfOk};
ghost use Rattle.quilt_types.specs.Plane.{side, below};
ghost use Rattle.quilt_types.specs.Layers.{IsGrid};
ghost use Rattle.quilt_raster.specs.Showing.{digit_of_colour, colour_digits, window_row, written_in, shown};

use crate::paint::paint_window;
use quilt_blocks::LeafList;
use quilt_types::{Colour, Text, Window};
use std::alloc::{AllocError, Global};

/// How many rows of a window stand in cells at once.
const ROWS: u16 = 32;

/// The colours of a window of the square in lower-case hexadecimal digits, a line for each row. The format is 1 or 2: a
/// colour has two digits in format 1, those of its low byte, and four in format 2. It paints up to 32 rows of the window
/// into cells, leaf by leaf, and writes them, and then the next.
pub fn render(alloc: Global, list: &LeafList, w: Window, format: u8) -> Result<Text, AllocError>
    requires in_x { w.x + w.w ≤ side list.now.level }
    requires in_y { w.y + w.h ≤ side list.now.level }
    ensures shown { IfOk result (λ text. text ≡ flat_map (λ line. line ++ 10 ∷ []) (shown format list.now.level list.now.grid w)) }

    // A grid of the format is shown as it is.
    ensures rows { IsGrid format list.now.level list.now.grid
        → IfOk result (λ text. text ≡ flat_map (λ line. line ++ 10 ∷ []) (map (window_row format list.now.level list.now.grid w) (below w.h))) }
{
    let level = list.level();
    prove!(level <= 12);
    let mut cells = vec![in alloc; 0_u16; usize::from(w.w) * usize::from(w.h.min(ROWS))]?;
    let mut text = Text::new(alloc);
    push_window(&mut text, &mut cells, list, w, format)?;
    Ok(text)
}

/// Adds a line for each row of a window. The cells have room for all of its rows or 32 of them, and may hold anything.
fn push_window(
    text: &mut Text,
    cells: &mut [u16],
    list: &LeafList,
    w: Window,
    format: u8,
) -> Result<(), AllocError>
    requires in_x { w.x + w.w ≤ side list.now.level }
    requires in_y { w.y + w.h ≤ side list.now.level }
    requires rows { w.y + w.h < 65536 }
    requires room { (h : ℕ) → h ≤ w.h → h ≤ 32 → w.w * h ≤ length cells.old }
    ensures { OnOk result (text.new ≡ text.old
        ++ flat_map (λ dy. window_row format list.now.level (map (written_in format) list.now.grid) w dy ++ 10 ∷ []) (below w.h)) }
{
    let mut done = 0;
    while done < w.h {
        let strip = strip_from(w, done);
        paint_window(cells, list, strip);
        push_rows(text, cells, strip, format)?;
        done += strip.h;
    }
    Ok(())
}

/// The window's rows from this one on, up to the next multiple of 32 of the square's rows.
fn strip_from(w: Window, dy: u16) -> Window
    requires inside { dy < w.h }
    requires room { w.y + w.h < 65536 }
    ensures x { result.x ≡ w.x }
    ensures y { result.y ≡ w.y + dy }
    ensures wide { result.w ≡ w.w }
    ensures some { 0 < result.h }
    ensures few { result.h ≤ 32 }
    ensures inside { dy + result.h ≤ w.h }
{
    let y = w.y + dy;
    let rows = ROWS - y % ROWS;
    Window {
        x: w.x,
        y,
        w: w.w,
        h: rows.min(w.h - dy),
    }
}

/// Adds a line for each row of a window, whose colours stand in the first cells.
fn push_rows(text: &mut Text, cells: &[u16], w: Window, format: u8) -> Result<(), AllocError>
    requires { w.w * w.h ≤ length cells.now }
    ensures { OnOk result (text.new ≡ text.old ++ flat_map (λ dy.
        flat_map (λ dx. colour_digits format (written_in format (slice_index cells.now (dy * w.w + dx)))) (below w.w) ++ 10 ∷ []) (below w.h)) }
{
    for dy in 0..w.h {
        push_row(text, cells, w, format, dy)?;
        text.push(b"\n")?;
    }
    Ok(())
}

/// Adds the digits of one row of the window, whose colours are these.
fn push_row(
    text: &mut Text,
    cells: &[u16],
    w: Window,
    format: u8,
    dy: u16,
) -> Result<(), AllocError>
    requires room { w.w * w.h ≤ length cells.now }
    requires inside { dy < w.h }
    ensures { OnOk result (text.new ≡ text.old ++ flat_map (λ dx. colour_digits format (written_in format (slice_index cells.now (dy * w.w + dx)))) (below w.w)) }
{
    let first = usize::from(dy) * usize::from(w.w);
    for dx in 0..usize::from(w.w) {
        push_colour(text, Colour(cells[first + dx]), format)?;
    }
    Ok(())
}

/// Adds the digits of a colour.
fn push_colour(text: &mut Text, colour: Colour, format: u8) -> Result<(), AllocError>
    ensures { OnOk result (text.new ≡ text.old ++ colour_digits format (written_in format colour.0)) }
{
    let Colour(c) = colour;
    if format == 1 {
        let low = c % 256;
        text.push(&[digit_of(low / 16), digit_of(low % 16)])
    } else {
        text.push(&[
            digit_of(c / 4096),
            digit_of(c / 256 % 16),
            digit_of(c / 16 % 16),
            digit_of(c % 16),
        ])
    }
}

/// The lower-case hexadecimal digit of a number below 16.
fn digit_of(d: u16) -> u8
    requires { d < 16 }
    ensures { result ≡ digit_of_colour d }
{
    let d = d as u8;
    if d < 10 { b'0' + d } else { b'a' + (d - 10) }
}

//! The lines that are drawn.
ghost use Rattle.std.specs.Prelude.{◌≡◌, true, ℕ, ◌<◌, ◌≤◌, ◌^◌, [], ◌∷◌, ◌++◌, IfOk, OnOk, codes, decimal, map};
ghost use Rattle.quilt_lang.specs.Trials.{rect_line, numbered_line, pixel_line, small_line, segment_command, drawn_line, draw};
ghost use Rattle.quilt_trial.specs.Drawing.{IsDrawn, IsTextLine, command_text, has_no_newline};

use crate::generator::Generator;
use quilt_types::Text;
use std::alloc::{AllocError, Global};

/// A line that is drawn for a square of this side, of at most 2^63 pixels. An Err leaves the generator somewhere.
pub fn draw_line(alloc: Global, side: u64, generator: &mut Generator) -> Result<Text, AllocError>
    requires some { 0 < side }
    requires few { side ≤ 2 ^ 63 }
    ensures line { IfOk result IsTextLine }
    ensures is { IfOk result (λ text. IsDrawn text generator.new.state (draw 10 generator.old.state (drawn_line side))) }
{
    match generator.draw(10) {
        0 => draw_rect(alloc, b"ta", side, generator),
        1 => draw_rect(alloc, b"tb", side, generator),
        2 => draw_numbered(alloc, b"set", b"ta", 4, side, generator),
        3 => draw_numbered(alloc, b"put", b"tp", 1000, side, generator),
        4 => draw_pixel(alloc, b"del", b"tp", side, generator),
        5 => draw_seg(alloc, side, generator),
        6 => draw_small(alloc, b"unline", b"tl", 1000, generator),
        7 => draw_pixel(alloc, b"at", b"ta", side, generator),
        8 => draw_pixel(alloc, b"nearest", b"tl", side, generator),
        _ => draw_small(alloc, b"area", b"ta", 4, generator),
    }
}

/// A rectangle that lies in the square, and one of four colours.
fn draw_rect(
    alloc: Global,
    layer: &[u8],
    side: u64,
    generator: &mut Generator,
) -> Result<Text, AllocError>
    requires some { 0 < side }
    requires few { side ≤ 2 ^ 63 }
    ensures line { IfOk result (λ text. has_no_newline layer.now ≡ true → IsTextLine text) }
    ensures is { IfOk result (λ text. IsDrawn text generator.new.state (rect_line layer.now side generator.old.state)) }
{
    let x = generator.draw(side);
    let y = generator.draw(side);
    let w = 1 + generator.draw(side - x);
    let h = 1 + generator.draw(side - y);
    let c = generator.draw(4);
    command_line(alloc, b"rect", layer, &[x, y, w, h, c])
}

/// A pixel, and a number below m.
fn draw_numbered(
    alloc: Global,
    word: &[u8],
    layer: &[u8],
    m: u64,
    side: u64,
    generator: &mut Generator,
) -> Result<Text, AllocError>
    requires number { 0 < m }
    requires some { 0 < side }
    ensures line { IfOk result (λ text. has_no_newline word.now ≡ true → has_no_newline layer.now ≡ true → IsTextLine text) }
    ensures is { IfOk result (λ text. IsDrawn text generator.new.state (numbered_line word.now layer.now m side generator.old.state)) }
{
    let x = generator.draw(side);
    let y = generator.draw(side);
    let k = generator.draw(m);
    command_line(alloc, word, layer, &[x, y, k])
}

/// A pixel.
fn draw_pixel(
    alloc: Global,
    word: &[u8],
    layer: &[u8],
    side: u64,
    generator: &mut Generator,
) -> Result<Text, AllocError>
    requires { 0 < side }
    ensures line { IfOk result (λ text. has_no_newline word.now ≡ true → has_no_newline layer.now ≡ true → IsTextLine text) }
    ensures is { IfOk result (λ text. IsDrawn text generator.new.state (pixel_line word.now layer.now side generator.old.state)) }
{
    let x = generator.draw(side);
    let y = generator.draw(side);
    command_line(alloc, word, layer, &[x, y])
}

/// A number below m.
fn draw_small(
    alloc: Global,
    word: &[u8],
    layer: &[u8],
    m: u64,
    generator: &mut Generator,
) -> Result<Text, AllocError>
    requires { 0 < m }
    ensures line { IfOk result (λ text. has_no_newline word.now ≡ true → has_no_newline layer.now ≡ true → IsTextLine text) }
    ensures is { IfOk result (λ text. IsDrawn text generator.new.state (small_line word.now layer.now m generator.old.state)) }
{
    let k = generator.draw(m);
    command_line(alloc, word, layer, &[k])
}

/// A segment and its number.
fn draw_seg(alloc: Global, side: u64, generator: &mut Generator) -> Result<Text, AllocError>
    requires { 0 < side }
    ensures line { IfOk result IsTextLine }
    ensures is { IfOk result (λ text. IsDrawn text generator.new.state (segment_command side generator.old.state)) }
{
    let id = generator.draw(1000);
    let x1 = generator.draw(side);
    let y1 = generator.draw(side);
    let x2 = generator.draw(side);
    let y2 = generator.draw(side);
    command_line(alloc, b"line", b"tl", &[id, x1, y1, x2, y2])
}

/// The line of a command: its word, a layer and numbers, and a space between each two.
pub fn command_line(
    alloc: Global,
    word: &[u8],
    layer: &[u8],
    numbers: &[u64],
) -> Result<Text, AllocError>
    ensures line { IfOk result (λ text. has_no_newline word.now ≡ true → has_no_newline layer.now ≡ true → IsTextLine text) }
    ensures is { IfOk result (λ text. text ≡ command_text word.now layer.now numbers.now) }
{
    let mut text = Text::new(alloc);
    text.push(word)?;
    text.push(b" ")?;
    text.push(layer)?;
    for number in numbers {
        push_number(alloc, &mut text, *number)?;
    }
    text.push(b"\n")?;
    Ok(text)
}

/// Adds a space and a number.
fn push_number(alloc: Global, text: &mut Text, number: u64) -> Result<(), AllocError>
    ensures is { OnOk result (text.new ≡ text.old ++ 32 ∷ decimal number) }
    ensures plain { OnOk result (has_no_newline text.old ≡ true → has_no_newline text.new ≡ true) }
{
    let word = format!(in alloc; " {number}")?;
    text.push(word.as_bytes())?;
    Ok(())
}

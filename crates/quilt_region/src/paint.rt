ghost use Rattle.std.specs.Prelude.{◌≡◌, ℕ, ◌+◌, ◌<◌, ◌≤◌, true, IfOk, OnOk, IfSome, IsNone, length};
ghost use Rattle.quilt_types.specs.declared.plane.Pixel.{Pixel as PixelValue};
ghost use Rattle.quilt_types.specs.Plane.{is_window, Holds, IsBlock};
ghost use Rattle.quilt_types.specs.Algebra.{painted};
ghost use Rattle.quilt_loc.specs.Codes.{code_from, code_to};
ghost use Rattle.quilt_region.specs.Painting.{colour_over, HasColours};

use quilt_blocks::{Cursor, LeafList, Maker};
use quilt_loc::quarters;
use quilt_types::{Block, Colour, Window};
use std::alloc::{AllocError, Global};

/// The leaves of the map in which the pixels of a window have one colour. Its work grows with the leaves and with the edge
/// of the window.
pub fn paint(alloc: Global, a: &LeafList, w: Window, c: Colour) -> Result<LeafList, AllocError>
    requires { is_window a.now.level w ≡ true }
    ensures { IfOk result (λ list. list ≡ record { level = a.now.level; grid = painted a.now.level a.now.grid w c.0 }) }
{
    let mut maker = Maker::new(alloc, a.level());
    let mut leaves = Cursor::new(a);
    while let Some(leaf) = leaves.next() {
        put_block(&mut maker, leaf.block, leaf.colour, w, c)?;
    }
    Ok(maker.finish())
}

/// Puts a block of one colour down, and the window's colour on what it has of the window.
fn put_block(
    maker: &mut Maker,
    b: Block,
    old: Colour,
    w: Window,
    c: Colour,
) -> Result<(), AllocError>
    requires most { maker.old.level ≤ 12 }
    requires valid { IsBlock maker.old.level b }
    requires window { is_window maker.old.level w ≡ true }
    requires next { code_from b ≡ length maker.old.colours }
    ensures level { OnOk result (maker.new.level ≡ maker.old.level) }
    ensures end { OnOk result (length maker.new.colours ≡ code_to b) }
    ensures colours { OnOk result ((f : PixelValue → ℕ) → ((p : PixelValue) → Holds b p → f p ≡ colour_over w c.0 old.0 p)
        → HasColours maker.old.level f maker.old.colours → HasColours maker.old.level f maker.new.colours) }
{
    if let Some(colour) = one_colour(b, old, w, c) {
        return maker.push(b, colour);
    }
    for q in quarters(b) {
        put_block(maker, q, old, w, c)?;
    }
    Ok(())
}

/// The one colour that a block of one colour has once the window is painted: None where the window has some of its pixels
/// and not all, which never is at one pixel.
fn one_colour(b: Block, old: Colour, w: Window, c: Colour) -> Option<Colour>
    requires width { b.x + b.side ≤ 4096 }
    requires height { b.y + b.side ≤ 4096 }
    requires window_width { w.x + w.w ≤ 4096 }
    requires window_height { w.y + w.h ≤ 4096 }
    ensures some { IfSome result (λ d. (p : PixelValue) → Holds b p → colour_over w c.0 old.0 p ≡ d.0) }
    ensures none { IsNone result → 1 < b.side }
{
    let right = w.x + w.w;
    let bottom = w.y + w.h;
    if b.x + b.side <= w.x || right <= b.x || b.y + b.side <= w.y || bottom <= b.y {
        return Some(old);
    }
    if w.x <= b.x && b.x + b.side <= right && w.y <= b.y && b.y + b.side <= bottom {
        return Some(c);
    }
    if old == c {
        return Some(c);
    }
    None
}

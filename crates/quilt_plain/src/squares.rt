ghost use Rattle.std.specs.Prelude.{◌≡◌, ◌≤◌, true, All};
ghost use Rattle.std.specs.Bool.{OnTrue};
ghost use Rattle.quilt_types.specs.Layers.{is_in_square as is_in_square_of};
ghost use Rattle.quilt_types.specs.Plane.{is_window as is_window_of};

use quilt_types::{Seg, Window};

/// Whether the window lies in the square of the level and has a pixel.
pub fn is_window(level: u8, w: Window) -> bool
    requires { level ≤ 12 }
    ensures { result ≡ is_window_of level w }
{
    let side = 1_u32 << level;
    0 < w.w && 0 < w.h && w.x as u32 + w.w as u32 <= side && w.y as u32 + w.h as u32 <= side
}

/// Whether the ends of the segment are pixels of the level.
pub fn is_in_square(level: u8, s: Seg) -> bool
    requires { level ≤ 12 }
    ensures { result ≡ is_in_square_of level s }
{
    let side = 1_u16 << level;
    s.x1 < side && s.y1 < side && s.x2 < side && s.y2 < side
}

/// Whether the ends of the segments are pixels of the level.
pub fn are_in_square(level: u8, list: &[(u32, Seg)]) -> bool
    requires { level ≤ 12 }
    ensures { OnTrue result (All (λ e. is_in_square_of level e.1 ≡ true) list.now) }
{
    for (_, s) in list {
        if !is_in_square(level, *s) {
            return false;
        }
    }
    true
}

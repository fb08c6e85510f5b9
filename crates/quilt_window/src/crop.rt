ghost use Rattle.std.specs.Prelude.{◌≡◌, true, IfOk};
ghost use Rattle.quilt_types.specs.Plane.{is_window};
ghost use Rattle.quilt_types.specs.Algebra.{cut_to};

use crate::copy::copy;
use crate::span::Span;
use quilt_blocks::LeafList;
use quilt_types::Window;
use std::alloc::{AllocError, Global};

/// The leaves of the map that is the same in a window of its square, and 0 elsewhere. Its work grows with the window's
/// edges and the leaves in it, not with the pixels (Samet 1990; Shaffer, Samet and Nelson 1990).
pub fn window(alloc: Global, a: &LeafList, w: Window) -> Result<LeafList, AllocError>
    requires { is_window a.now.level w ≡ true }
    ensures { IfOk result (λ list. list ≡ record { level = a.now.level; grid = cut_to a.now.level a.now.grid w }) }
{
    let across = Span {
        from: w.x,
        to: w.x,
        length: w.w,
    };
    let down = Span {
        from: w.y,
        to: w.y,
        length: w.h,
    };
    copy(alloc, a, across, down)
}

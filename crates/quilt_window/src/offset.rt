ghost use Rattle.std.specs.Prelude.{◌≡◌, IfOk};
ghost use Rattle.quilt_types.specs.Algebra.{shifted};

use crate::copy::copy;
use crate::span::Span;
use quilt_blocks::LeafList;
use std::alloc::{AllocError, Global};

/// The leaves of the map that is moved by dx pixels to the right and dy down, to the left and up where they are below 0.
/// What leaves the square is lost, and what no pixel moves to is 0. Its work grows with the edges of the leaves before
/// and after, not with the pixels (Samet 1990).
pub fn shift(alloc: Global, a: &LeafList, dx: i32, dy: i32) -> Result<LeafList, AllocError>
    ensures { IfOk result (λ list. list ≡ record { level = a.now.level; grid = shifted a.now.level a.now.grid dx dy }) }
{
    let level = a.level();
    copy(alloc, a, Span::moved(level, dx), Span::moved(level, dy))
}

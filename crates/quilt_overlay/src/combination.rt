ghost use Rattle.std.specs.Prelude.{◌≡◌, ◌≤◌, ◌⊎◌, ◌↔◌, IfOk, IfSome, IsTrue};
ghost use Rattle.quilt_types.specs.Plane.{IsBlock};
ghost use Rattle.quilt_loc.specs.Codes.{code_from, code_to};
ghost use Rattle.quilt_overlay.specs.Combining.{overlaid};
ghost use Rattle.quilt_overlay.specs.Fronts.{IsPassed, StandsAtCode};

use crate::Op;
use quilt_blocks::{Cursor, Leaf, LeafList, Maker};
use quilt_types::Block;
use std::alloc::{AllocError, Global};

/// The leaves of what two maps of equal levels make, in a walk over both lists in the order of their codes. Its work grows
/// with the leaves of the two together, not with the pixels (Samet 1990; Shaffer, Samet and Nelson 1990).
pub fn overlay(alloc: Global, op: Op, a: &LeafList, b: &LeafList) -> Result<LeafList, AllocError>
    requires { a.now.level ≡ b.now.level }
    ensures { IfOk result (λ list. list ≡ record { level = a.now.level; grid = overlaid op a.now.level a.now.grid b.now.grid }) }
{
    let mut maker = Maker::new(alloc, a.level());
    let mut firsts = Cursor::new(a);
    let mut seconds = Cursor::new(b);
    let mut first = firsts.next();
    let mut second = seconds.next();
    while let Some((p, q)) = first.zip(second) {
        let block = smaller_of(p.block, q.block);
        maker.push(block, op.combine(p.colour, q.colour))?;
        first = leaf_after(&mut firsts, p, block);
        second = leaf_after(&mut seconds, q, block);
    }
    Ok(maker.finish())
}

/// The last leaf of the walk while it goes on behind the block that was passed, or else the next one.
fn leaf_after(walk: &mut Cursor<'_>, last: Leaf, passed: Block) -> Option<Leaf>
    requires last { IsPassed walk.old (code_to passed) last }
    requires block { IsBlock walk.old.level passed }
    ensures front { StandsAtCode walk.old.level walk.old.grid (code_to passed) result walk.new }
    ensures start { code_to last.block ≡ code_to passed → IfSome result (λ l. code_from l.block ≡ code_to passed) }
{
    if end_together(last.block, passed) {
        walk.next()
    } else {
        Some(last)
    }
}

/// Whether the two blocks end at one code: they have one lower right corner.
fn end_together(a: Block, b: Block) -> bool
    requires first { IsBlock 12 a }
    requires second { IsBlock 12 b }
    ensures { IsTrue result ↔ (code_to a ≡ code_to b) }
{
    a.x + a.side == b.x + b.side && a.y + a.side == b.y + b.side
}

/// One of the two blocks: the second where both have one side.
fn smaller_of(a: Block, b: Block) -> Block
    ensures one { (result ≡ a) ⊎ (result ≡ b) }
    ensures first { result.side ≤ a.side }
    ensures second { result.side ≤ b.side }
{
    if a.side < b.side { a } else { b }
}

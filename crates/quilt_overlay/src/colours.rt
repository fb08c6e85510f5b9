ghost use Rattle.std.specs.Prelude.{◌≡◌, IfOk};
ghost use Rattle.quilt_types.specs.Algebra.{recoloured, recoloured_by};
ghost use Rattle.quilt_overlay.specs.Combining.{numbers_of};

use quilt_blocks::{Cursor, LeafList, Maker};
use quilt_types::Colour;
use std::alloc::{AllocError, Global};

/// The leaves of the map in which each pixel has the new colour of the first pair whose old one it has, or keeps its own:
/// all at once, so that no pair sees what another one made. Its work grows with the leaves times the pairs.
pub fn recolour(
    alloc: Global,
    a: &LeafList,
    pairs: &[(Colour, Colour)],
) -> Result<LeafList, AllocError>
    ensures { IfOk result (λ list. list ≡ record { level = a.now.level; grid = recoloured a.now.level a.now.grid (numbers_of pairs.now) }) }
{
    let mut maker = Maker::new(alloc, a.level());
    let mut leaves = Cursor::new(a);
    while let Some(leaf) = leaves.next() {
        maker.push(leaf.block, new_colour(pairs, leaf.colour))?;
    }
    Ok(maker.finish())
}

/// What the first pair that fits makes of the colour.
fn new_colour(pairs: &[(Colour, Colour)], c: Colour) -> Colour
    ensures { result.0 ≡ recoloured_by (numbers_of pairs.now) c.0 }
{
    for &(old, new) in pairs {
        if old == c {
            return new;
        }
    }
    c
}

ghost use Rattle.std.specs.Prelude.{◌≡◌, ◌≤◌, IfOk};

use quilt_blocks::{LeafList, Maker};
use quilt_loc::pixel_of;
use quilt_types::{Block, Colour, Pixel};
use std::alloc::{AllocError, Global};

/// The map of a level from 1 to 12 whose pixels have these colours, in the order of their codes. Where the list ends early, the others have colour 0.
pub fn map_of(alloc: Global, level: u8, colours: &[Colour]) -> Result<LeafList, AllocError>
    requires least { 1 ≤ level }
    requires most { level ≤ 12 }
    ensures { IfOk result (λ list. list.level ≡ level) }
{
    let mut maker = Maker::new(alloc, level);
    for code in 0..1_u32 << (2 * level) {
        let Pixel { x, y } = pixel_of(code);
        let colour = colours.get(code as usize).copied().unwrap_or(Colour(0));
        maker.push(Block { x, y, side: 1 }, colour)?;
    }
    Ok(maker.finish())
}

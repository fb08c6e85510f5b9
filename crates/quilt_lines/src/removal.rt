ghost use Rattle.std.specs.Prelude.{◌≤◌};

use quilt_types::Seg;

/// The segment of an id that goes from the line layer with a number, from 1 to 255, of a map of a level, from 1 to 12, and the
/// layer's splitting threshold.
#[derive(Clone, Copy)]
pub(crate) struct Removal {
    pub layer: u8,
    pub level: u8,
    pub threshold: u8,
    pub id: u32,
    pub segment: Seg,
    ghost has_layer: { (1 ≤ layer) × (layer ≤ 255) },
    ghost has_level: { (1 ≤ level) × (level ≤ 12) },
}

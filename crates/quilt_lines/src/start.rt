ghost use Rattle.std.specs.Prelude.{◌≤◌};
ghost use Rattle.quilt_lines.specs.Plans.{IsLineBeginning};

use quilt_loc::whole_square;
use quilt_record::{Record, pair_record};

/// The record that comes, beside that of the catalog, when a line layer of no segments does: that of the whole square, its one
/// block. The layer has this number, from 1 to 255, in a map of this level, from 1 to 12, and a splitting threshold from 1 to 32.
pub fn first_record(layer: u8, level: u8, t: u8) -> Record
    requires layer { 1 ≤ layer }
    requires level { (1 ≤ level) × (level ≤ 12) }
    requires threshold { (1 ≤ t) × (t ≤ 32) }
    ensures { IsLineBeginning level layer t result }
{
    pair_record(layer, whole_square(level), level, None)
}

ghost use Rattle.std.specs.Prelude.{◌≤◌};
ghost use Rattle.quilt_points.specs.Plans.{IsBeginning};

use quilt_loc::whole_square;
use quilt_record::{Record, point_record};

/// The record that comes, beside that of the catalog, when a point layer of no points does: that of the whole square, its one
/// block. The layer has this number, from 1 to 255, in a map of this level, from 1 to 12, and at most `bucket` points in a
/// block.
pub fn first_record(layer: u8, level: u8, bucket: u8) -> Record
    requires layer { 1 ≤ layer }
    requires level { (1 ≤ level) × (level ≤ 12) }
    ensures { IsBeginning level layer bucket result }
{
    point_record(layer, whole_square(level), level, bucket, None)
}

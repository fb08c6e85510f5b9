ghost use Rattle.std.specs.Prelude.{◌≡◌, [], ◌∷◌, ◌++◌, OnOk, OnErr};

use crate::Point;
use std::alloc::{AllocError, Global};
use std::marker::Model;

/// A list of points.
#[derive(Drop)]
pub struct PointList {
    points: Vec<Point>,
}

impl Model for PointList {
    ghost use Rattle.std.specs.Prelude.{List};
    ghost use Rattle.quilt_types.specs.declared.plane.Point.{Point};

    ghost Value = { List Point };

    ghost view = { λ n. n.points.items };
}

impl PointList {
    /// No points. It takes no memory, and keeps the allocator.
    pub fn new(alloc: Global) -> PointList
        ensures { result ≡ [] }
    {
        PointList {
            points: Vec::new(alloc),
        }
    }

    /// Adds a point at the end, or changes nothing where no memory is left.
    pub fn push(&mut self, p: Point) -> Result<(), AllocError>
        ensures ok { OnOk result (self.new ≡ self.old ++ p ∷ []) }
        ensures err { OnErr result (self.new ≡ self.old) }
    {
        self.points.push(p)?;
        Ok(())
    }

    /// The points.
    pub fn items(&self) -> &[Point]
        ensures { result.now ≡ self.now }
    {
        &self.points
    }
}

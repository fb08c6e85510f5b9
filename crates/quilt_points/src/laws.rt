ghost use Rattle.quilt_points.specs.Laws.{PointsLaw};

/// A tree whose records spell a map has each of the map's point layers.
pub fn points_laws()
    ensures layers { PointsLaw }
{}

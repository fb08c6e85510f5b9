ghost use Rattle.quilt_lines.specs.Laws.{LinesLaw};

/// A tree whose records spell a map has each of the map's line layers.
pub fn lines_laws()
    ensures layers { LinesLaw }
{}

ghost use Rattle.quilt_region.specs.Laws.{NumberLaw, DropLaw, CopyLaw, ReadLaw, ChangeLaw, FreshLaw, FitsLaw};

/// What a range over a layer of any kind, together with its record of the catalog, gives for a command that takes the
/// layer out or copies it.
pub fn layer_laws()
    ensures number { NumberLaw }
    ensures drops { DropLaw }
    ensures copies { CopyLaw }
{}

/// A tree whose records spell a map has its region layers, and the plans of regions lead from one layer of a map to
/// another.
pub fn region_laws()
    ensures reads { ReadLaw }
    ensures changes { ChangeLaw }
    ensures fresh { FreshLaw }
    ensures fits { FitsLaw }
{}

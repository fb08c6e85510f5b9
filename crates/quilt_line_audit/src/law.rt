ghost use Rattle.quilt_line_audit.specs.Runs.{WholeLaw, ShortLaw};

/// What a run says of the records that it was given: where its pairs are those of blocks that the whole square is cut into, the
/// records are those of a line layer, and else no line layer has them and no others.
pub fn line_run_law()
    ensures whole { WholeLaw }
    ensures short { ShortLaw }
{}

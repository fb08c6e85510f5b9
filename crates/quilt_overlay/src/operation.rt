ghost use Rattle.std.specs.Prelude.{◌≡◌};
ghost use Rattle.quilt_overlay.specs.Combining.{combined};

use quilt_types::Colour;

/// What two maps make of their colours at each pixel: the first where it is not 0 and else the second; the first where
/// the second is not 0; or the first where the second is 0.
#[derive(Clone, Copy, Debug, PartialEq, Eq)]
pub enum Op {
    Union,
    Inter,
    Diff,
}

impl Op {
    /// The colour that two colours of one pixel make.
    pub(crate) fn combine(self, a: Colour, b: Colour) -> Colour
        ensures { result.0 ≡ combined self a.0 b.0 }
    {
        let background = Colour(0);
        match self {
            Op::Union if a == background => b,
            Op::Union => a,
            Op::Inter if b == background => background,
            Op::Inter => a,
            Op::Diff if b == background => a,
            Op::Diff => background,
        }
    }
}

ghost use Rattle.std.specs.Prelude.{ℕ, IfSome, List, Option};
ghost use Rattle.quilt_btree.specs.declared.tree.Tree.{Tree as AnyTree};
ghost use Rattle.quilt_btree.specs.Spots.{IsSpotIf};
ghost use Rattle.quilt_lines.specs.Marks.{IsMark};

use quilt_btree::Spot;
use quilt_near::Mark;

/// The spot of the tree where a question has looked.
pub(crate) fn spot_of(mark: &Option<Mark>) -> Option<Spot>
    ensures { (told : Option (List (List ℕ))) (t : AnyTree) → IfSome mark.now (IsMark told t) → IsSpotIf told t result }
{
    match mark {
        None => None,
        Some(m) => Some(Spot {
            page: m.page,
            low: m.low,
            high: m.high,
        }),
    }
}

/// The mark of a spot of the tree.
pub(crate) fn mark_of(spot: &Option<Spot>) -> Option<Mark>
    ensures { (told : Option (List (List ℕ))) (t : AnyTree) → IsSpotIf told t spot.now → IfSome result (IsMark told t) }
{
    match spot {
        None => None,
        Some(s) => Some(Mark {
            page: s.page,
            low: s.low,
            high: s.high,
        }),
    }
}

//! The local laws of point layers: which records go and come at a put and at a del.
#![tactic(auto)]

ghost use Rattle.quilt_point_laws.specs.Laws.{PutLaw, DelLaw, DelCountLaw, BeginLaw};

/// A put changes the block around its pixel, a del the last block up from there that holds few without the point, and makes no
/// more records. A layer of no points has one block.
pub fn point_laws()
    ensures put { PutLaw }
    ensures del { DelLaw }
    ensures fewer { DelCountLaw }
    ensures begin { BeginLaw }
{}

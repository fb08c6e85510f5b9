ghost use Rattle.std.specs.Prelude.{◌≡◌, ◌≢◌, ◌+◌, ◌<◌, ◌≤◌, true, Option, Some, None, List, ℕ, IfOk, IfErr, IfSome, OnOk};
ghost use Rattle.quilt_types.specs.declared.stop.Stop.TheVariants.{Damaged};
ghost use Rattle.quilt_types.specs.Plane.{side, in_block, IsBlock};
ghost use Rattle.quilt_types.specs.Layers.{PointMap};
ghost use Rattle.quilt_store.specs.Calls.{OnlyReads};
ghost use Rattle.quilt_store.specs.Stops.{IsNotDamage};
ghost use Rattle.quilt_world.specs.Tale.{Goes};
ghost use Rattle.quilt_btree.specs.Damage.{NamesBad};
ghost use Rattle.quilt_btree.specs.Fingers.{IsFinger};
ghost use Rattle.quilt_btree.specs.Stops.{NamesPage};
ghost use Rattle.quilt_btree.specs.Trees.{IsRooted, IsTree};
ghost use Rattle.quilt_record.specs.declared.record.Record.{Record as AnyRecord};
ghost use Rattle.quilt_btree.specs.declared.tree.Tree.{Tree as AnyTree};
ghost use Rattle.quilt_points.specs.Layers.{HasPoints};
ghost use Rattle.quilt_points.specs.Searches.{IsSeen, IsSearch};

use crate::layer::PointLayer;
use crate::lookup::{block_said, key_behind};
use quilt_btree::{Finger, Spot, Tree};
use quilt_loc::covers;
use quilt_store::PageStore;
use quilt_types::{Block, Pixel, Point, Stop};

/// Where a search for the blocks of a point layer stands: its finger in the tree, the spot where it read all records of a block, and
/// the block that it found last, with the point that the last record of this block says, if it says one.
#[derive(Clone, Copy)]
pub(crate) struct Search {
    finger: Option<Finger>,
    pub spot: Option<Spot>,
    last: Option<(Block, Option<Point>)>,
}

impl Search {
    /// A search that has found nothing yet.
    pub(crate) fn new() -> Search
        ensures { (told : Option (List (List ℕ))) (t : AnyTree) (n capacity number : ℕ) → IsSearch told t n capacity number result }
    {
        Search {
            finger: None,
            spot: None,
            last: None,
        }
    }
}

/// The block of the layer that holds a pixel, and the point that the last of its records says, if it says one. It reads
/// nothing where the block is the one that was found last, or its record is in the finger's leaf, and at most 9 pages
/// elsewhere.
pub(crate) fn block_near<S: PageStore>(
    store: &mut S,
    tree: &Tree,
    layer: PointLayer,
    search: &mut Search,
    at: Pixel,
) -> Result<(Block, Option<Point>), Stop>
    requires rooted { IsRooted (S.size store.old) tree.now }
    requires search { IsSearch (S.told store.old) tree.now layer.level layer.bucket layer.number search.old }
    requires in_x { at.x < side layer.level }
    requires in_y { at.y < side layer.level }
    ensures seen { IfOk result (λ v. IsSeen (S.told store.old) tree.now layer.level layer.bucket layer.number v.0 v.1) }
    ensures holds { IfOk result (λ v. in_block v.0 at ≡ true) }
    ensures search { OnOk result (IsSearch (S.told store.old) tree.now layer.level layer.bucket layer.number search.new) }
    ensures sound { IfErr result (λ e. (points : PointMap) → HasPoints (S.told store.old) tree.now layer.number layer.level layer.bucket points → IsNotDamage e) }
    ensures zero { IfErr result (λ e. (rs : List AnyRecord) → IsTree (S.told store.old) tree.now rs → NamesPage 1 e) }
    ensures bad { IfErr result (λ e. e ≢ Damaged 0 → NamesBad (S.told store.old) tree.now.height tree.now.root e) }
    ensures left { OnlyReads S.PageStore store.old store.new result }
    ensures reads { Goes (λ old new. new ≤ old + 9) (S.reads store.old) (S.reads store.new) }
{
    match search.last {
        Some((b, held)) if covers(b, at) => return Ok((b, held)),
        _ => {}
    }
    let found = block_anew(store, tree, layer, &mut search.finger, at)?;
    search.last = Some(found);
    Ok(found)
}

/// The same, by its record in the tree.
fn block_anew<S: PageStore>(
    store: &mut S,
    tree: &Tree,
    layer: PointLayer,
    finger: &mut Option<Finger>,
    at: Pixel,
) -> Result<(Block, Option<Point>), Stop>
    requires rooted { IsRooted (S.size store.old) tree.now }
    requires finger { IsFinger (S.told store.old) tree.now finger.old }
    requires in_x { at.x < side layer.level }
    requires in_y { at.y < side layer.level }
    ensures seen { IfOk result (λ v. IsSeen (S.told store.old) tree.now layer.level layer.bucket layer.number v.0 v.1) }
    ensures holds { IfOk result (λ v. in_block v.0 at ≡ true) }
    ensures finger { OnOk result (IsFinger (S.told store.old) tree.now finger.new) }
    ensures sound { IfErr result (λ e. (points : PointMap) → HasPoints (S.told store.old) tree.now layer.number layer.level layer.bucket points → IsNotDamage e) }
    ensures zero { IfErr result (λ e. (rs : List AnyRecord) → IsTree (S.told store.old) tree.now rs → NamesPage 1 e) }
    ensures bad { IfErr result (λ e. e ≢ Damaged 0 → NamesBad (S.told store.old) tree.now.height tree.now.root e) }
    ensures left { OnlyReads S.PageStore store.old store.new result }
    ensures reads { Goes (λ old new. new ≤ old + 9) (S.reads store.old) (S.reads store.new) }
{
    let k = key_behind(layer, at);
    let found = tree.floor_near(store, finger, &k)?;
    block_said(found, layer, at)
}

ghost use Rattle.std.specs.Prelude.{◌≡◌, ◌≢◌, ℕ, ◌+◌, ◌*◌, ◌<◌, ◌≤◌, ◌++◌, true, false, None, Some, All, Contains, List, IfOk, IfErr, IfSome, OnOk, length};
ghost use Rattle.std.specs.FinMap as finmap;
ghost use Rattle.quilt_types.specs.declared.plane.Pixel.{Pixel as AnyPixel};
ghost use Rattle.quilt_types.specs.declared.plane.Point.{Point as AnyPoint};
ghost use Rattle.quilt_types.specs.declared.stop.Stop.TheVariants.{Damaged};
ghost use Rattle.quilt_types.specs.Plane.{side, is_pixel, parent_of, quarters_of, IsBlock};
ghost use Rattle.quilt_types.specs.Layers.{PointMap};
ghost use Rattle.quilt_types.specs.Quadtrees.{point_blocks, holds_few};
ghost use Rattle.quilt_record.specs.declared.record.Record.{Record as AnyRecord};
ghost use Rattle.quilt_point_laws.specs.Laws.{AreIn};
ghost use Rattle.quilt_store.specs.Calls.{OnlyReads};
ghost use Rattle.quilt_world.specs.Tale.{Goes};
ghost use Rattle.quilt_store.specs.Stops.{IsNotDamage};
ghost use Rattle.quilt_btree.specs.Damage.{NamesBad};
ghost use Rattle.quilt_btree.specs.Spots.{IsSpotIf};
ghost use Rattle.quilt_btree.specs.Stops.{NamesPage};
ghost use Rattle.quilt_btree.specs.Trees.{IsRooted, IsTree};
ghost use Rattle.quilt_points.specs.Layers.{HasPoints, point_entries};
ghost use Rattle.quilt_points.specs.Climbing.{IsOnWay};

use crate::layer::PointLayer;
use crate::leaf::{Leaf, is_same, points_of};
use quilt_btree::{Spot, Tree};
use quilt_loc::{parent, quarters};
use quilt_store::PageStore;
use quilt_types::{Block, Point, Stop};
use std::alloc::Global;

/// The last block up from one that holds few of the points without one that goes, with these points. It reads at most
/// 18 pages for each level, and 9 for each level and each point that a block may hold.
pub(crate) fn topmost<S: PageStore>(
    alloc: Global,
    store: &mut S,
    tree: &Tree,
    layer: PointLayer,
    leaf: Leaf,
) -> Result<Leaf, Stop>
    requires rooted { IsRooted (S.size store.old) tree.now }
    requires block { IsBlock layer.level leaf.block }
    requires pixels { All (λ p. is_pixel layer.level p.at ≡ true) leaf.points.items }
    ensures top { IfOk result (λ top. (points : PointMap) (p : AnyPixel) (label : ℕ)
        → HasPoints (S.told store.old) tree.now layer.number layer.level layer.bucket points → finmap.get points p ≡ Some label
        → IsOnWay layer.level layer.bucket points p leaf.block leaf.points.items → IsOnWay layer.level layer.bucket points p top.block top.points.items) }
    ensures last { IfOk result (λ top. (points : PointMap) (p : AnyPixel) (label : ℕ)
        → HasPoints (S.told store.old) tree.now layer.number layer.level layer.bucket points → finmap.get points p ≡ Some label
        → IsOnWay layer.level layer.bucket points p leaf.block leaf.points.items
        → Contains (point_blocks layer.level layer.bucket (finmap.remove points p)) top.block) }
    ensures block { IfOk result (λ top. IsBlock layer.level top.block) }
    ensures pixels { IfOk result (λ top. All (λ p. is_pixel layer.level p.at ≡ true) top.points.items) }
    ensures sound { IfErr result (λ e. (points : PointMap) → HasPoints (S.told store.old) tree.now layer.number layer.level layer.bucket points → IsNotDamage e) }
    ensures zero { IfErr result (λ e. (rs : List AnyRecord) → IsTree (S.told store.old) tree.now rs → NamesPage 1 e) }
    ensures bad { IfErr result (λ e. e ≢ Damaged 0 → NamesBad (S.told store.old) tree.now.height tree.now.root e) }
    ensures left { OnlyReads S.PageStore store.old store.new result }
    ensures reads { IfOk result (λ _. Goes (λ old new. new ≤ old + (18 + 9 * layer.bucket) * layer.level) (S.reads store.old) (S.reads store.new)) }
{
    let mut top = leaf;
    while let Some(up) = merged(alloc, store, tree, layer, &top)? {
        top = up;
    }
    Ok(top)
}

/// The block of twice the side with its points but one that goes, where it holds few of these.
fn merged<S: PageStore>(
    alloc: Global,
    store: &mut S,
    tree: &Tree,
    layer: PointLayer,
    leaf: &Leaf,
) -> Result<Option<Leaf>, Stop>
    requires rooted { IsRooted (S.size store.old) tree.now }
    requires block { IsBlock layer.level leaf.now.block }
    requires pixels { All (λ p. is_pixel layer.level p.at ≡ true) leaf.now.points.items }
    ensures up { IfOk result
        (λ o. IfSome o (λ up. (points : PointMap) (p : AnyPixel) (label : ℕ)
        → HasPoints (S.told store.old) tree.now layer.number layer.level layer.bucket points → finmap.get points p ≡ Some label
        → IsOnWay layer.level layer.bucket points p leaf.now.block leaf.now.points.items
        → IsOnWay layer.level layer.bucket points p up.block up.points.items)) }
    ensures last { IfOk result (λ o. o ≡ None → (points : PointMap) (p : AnyPixel) (label : ℕ)
        → HasPoints (S.told store.old) tree.now layer.number layer.level layer.bucket points → finmap.get points p ≡ Some label
        → IsOnWay layer.level layer.bucket points p leaf.now.block leaf.now.points.items
        → Contains (point_blocks layer.level layer.bucket (finmap.remove points p)) leaf.now.block) }
    ensures block { IfOk result (λ o. IfSome o (λ up. IsBlock layer.level up.block)) }
    ensures twice { IfOk result (λ o. IfSome o (λ up. up.block.side ≡ 2 * leaf.now.block.side)) }
    ensures wider { IfOk result (λ o. IfSome o (λ up. leaf.now.block.side < up.block.side)) }
    ensures pixels { IfOk result (λ o. IfSome o (λ up. All (λ p. is_pixel layer.level p.at ≡ true) up.points.items)) }
    ensures sound { IfErr result (λ e. (points : PointMap) → HasPoints (S.told store.old) tree.now layer.number layer.level layer.bucket points → IsNotDamage e) }
    ensures zero { IfErr result (λ e. (rs : List AnyRecord) → IsTree (S.told store.old) tree.now rs → NamesPage 1 e) }
    ensures bad { IfErr result (λ e. e ≢ Damaged 0 → NamesBad (S.told store.old) tree.now.height tree.now.root e) }
    ensures left { OnlyReads S.PageStore store.old store.new result }
    ensures reads { IfOk result (λ _. Goes (λ old new. new ≤ old + (18 + 9 * layer.bucket)) (S.reads store.old) (S.reads store.new)) }
    ensures top { leaf.now.block.side ≡ side layer.level → Goes (λ old new. new ≤ old) (S.reads store.old) (S.reads store.new) }
{
    let Some(block) = parent(leaf.block, layer.level) else {
        return Ok(None);
    };
    let Some(points) = joined(alloc, store, tree, layer, block, leaf)? else {
        return Ok(None);
    };
    if !are_few(&points, layer.bucket) {
        return Ok(None);
    }
    Ok(Some(Leaf { block, points }))
}

/// Whether these are so many points at most.
fn are_few(points: &[Point], bucket: u8) -> bool
    ensures yes { result ≡ true → length points.now ≤ bucket }
    ensures no { result ≡ false → bucket < length points.now }
{
    points.len() <= usize::from(bucket)
}

/// The points of a block's quarters together, of which one is known: None where another of them is none of the layer's blocks.
fn joined<S: PageStore>(
    alloc: Global,
    store: &mut S,
    tree: &Tree,
    layer: PointLayer,
    up: Block,
    leaf: &Leaf,
) -> Result<Option<Vec<Point>>, Stop>
    requires rooted { IsRooted (S.size store.old) tree.now }
    requires block { IsBlock layer.level leaf.now.block }
    requires inner { leaf.now.block.side < side layer.level }
    requires parent { up ≡ parent_of leaf.now.block }
    requires pixels { All (λ p. is_pixel layer.level p.at ≡ true) leaf.now.points.items }
    ensures all { IfOk result
        (λ o. IfSome o (λ v. (points : PointMap) (p : AnyPixel) (label : ℕ)
        → HasPoints (S.told store.old) tree.now layer.number layer.level layer.bucket points → finmap.get points p ≡ Some label
        → IsOnWay layer.level layer.bucket points p leaf.now.block leaf.now.points.items → AreIn (finmap.remove points p) up (point_entries v.items))) }
    ensures none { IfOk result (λ o. o ≡ None → (points : PointMap) (p : AnyPixel) (label : ℕ)
        → HasPoints (S.told store.old) tree.now layer.number layer.level layer.bucket points → finmap.get points p ≡ Some label
        → IsOnWay layer.level layer.bucket points p leaf.now.block leaf.now.points.items → holds_few layer.bucket (finmap.remove points p) up ≡ false) }
    ensures pixels { IfOk result (λ o. IfSome o (λ v. All (λ p. is_pixel layer.level p.at ≡ true) v.items)) }
    ensures sound { IfErr result (λ e. (points : PointMap) → HasPoints (S.told store.old) tree.now layer.number layer.level layer.bucket points → IsNotDamage e) }
    ensures zero { IfErr result (λ e. (rs : List AnyRecord) → IsTree (S.told store.old) tree.now rs → NamesPage 1 e) }
    ensures bad { IfErr result (λ e. e ≢ Damaged 0 → NamesBad (S.told store.old) tree.now.height tree.now.root e) }
    ensures left { OnlyReads S.PageStore store.old store.new result }
    ensures reads { IfOk result (λ _. Goes (λ old new. new ≤ old + (18 + 9 * layer.bucket)) (S.reads store.old) (S.reads store.new)) }
{
    let mut all = Vec::new(alloc);
    let mut spot = None;
    for q in quarters(up) {
        if !add_quarter(alloc, store, tree, layer, &mut spot, &mut all, q, leaf)? {
            return Ok(None);
        }
    }
    Ok(Some(all))
}

/// Adds the points of a block, which are known if it is the one of the leaf, and answers whether it is one of the layer's.
fn add_quarter<S: PageStore>(
    alloc: Global,
    store: &mut S,
    tree: &Tree,
    layer: PointLayer,
    spot: &mut Option<Spot>,
    all: &mut Vec<Point>,
    q: Block,
    leaf: &Leaf,
) -> Result<bool, Stop>
    requires rooted { IsRooted (S.size store.old) tree.now }
    requires block { IsBlock layer.level q }
    requires spot { IsSpotIf (S.told store.old) tree.now spot.old }
    requires pixels { All (λ p. is_pixel layer.level p.at ≡ true) leaf.now.points.items }
    requires all { All (λ p. is_pixel layer.level p.at ≡ true) all.old.items }
    ensures spot { OnOk result (IsSpotIf (S.told store.old) tree.now spot.new) }
    ensures leaf { IfOk result (λ yes. q ≡ leaf.now.block → (yes ≡ true) × (all.new.items ≡ all.old.items ++ leaf.now.points.items)) }
    ensures added { IfOk result (λ yes. q ≢ leaf.now.block → yes ≡ true → (here : List AnyPoint) × (all.new.items ≡ all.old.items ++ here)
        × ((points : PointMap) → HasPoints (S.told store.old) tree.now layer.number layer.level layer.bucket points → AreIn points q (point_entries here))) }
    ensures other { IfOk result (λ yes. yes ≡ false → (q ≢ leaf.now.block)
        × ((points : PointMap) → HasPoints (S.told store.old) tree.now layer.number layer.level layer.bucket points
        → Contains (point_blocks layer.level layer.bucket points) q → ⊥)) }
    ensures pixels { OnOk result (All (λ p. is_pixel layer.level p.at ≡ true) all.new.items) }
    ensures sound { IfErr result (λ e. (points : PointMap) → HasPoints (S.told store.old) tree.now layer.number layer.level layer.bucket points → IsNotDamage e) }
    ensures zero { IfErr result (λ e. (rs : List AnyRecord) → IsTree (S.told store.old) tree.now rs → NamesPage 1 e) }
    ensures bad { IfErr result (λ e. e ≢ Damaged 0 → NamesBad (S.told store.old) tree.now.height tree.now.root e) }
    ensures left { OnlyReads S.PageStore store.old store.new result }
    ensures reads { IfOk result (λ _. Goes (λ old new. new ≤ old + (6 + 3 * layer.bucket)) (S.reads store.old) (S.reads store.new)) }
    ensures known { q ≡ leaf.now.block → Goes (λ old new. new ≤ old) (S.reads store.old) (S.reads store.new) }
{
    if is_same(q, leaf.block) {
        return add_all(all, &leaf.points);
    }
    match points_of(alloc, store, tree, layer, spot, q)? {
        None => Ok(false),
        Some(here) => add_all(all, &here),
    }
}

/// Adds points, and answers true.
fn add_all(all: &mut Vec<Point>, here: &[Point]) -> Result<bool, Stop>
    ensures added { IfOk result (λ yes. (yes ≡ true) × (all.new.items ≡ all.old.items ++ here.now)) }
    ensures memory { IfErr result (λ e. e ≡ Stop.Memory) }
{
    match all.extend_from_slice(here) {
        Ok(()) => Ok(true),
        Err(_) => Err(Stop::Memory),
    }
}

ghost use Rattle.std.specs.Prelude.{◌≡◌, ◌≢◌, ◌+◌, ◌*◌, ◌<◌, ◌≤◌, ◌↔◌, ◌^◌, ℕ, true, [], ◌∷◌, map, filter, not, All, Contains, Some, None, IfOk, IfErr, IfSome, IsNone};
ghost use Rattle.std.specs.Prelude.{List, IsSome, IsErrOf};
ghost use Rattle.std.specs.FinMap as finmap;
ghost use Rattle.quilt_types.specs.declared.plane.Point.{Point as AnyPoint};
ghost use Rattle.quilt_types.specs.declared.stop.Stop.TheVariants.{Device, Damaged};
ghost use Rattle.quilt_types.specs.Plane.{side, is_pixel, in_block, IsBlock};
ghost use Rattle.quilt_types.specs.Layers.{PointMap, IsPointMap};
ghost use Rattle.quilt_types.specs.Facts.{same_pixel};
ghost use Rattle.quilt_types.specs.Quadtrees.{point_blocks};
ghost use Rattle.quilt_record.specs.declared.record.Record.{Record as AnyRecord};
ghost use Rattle.quilt_store.specs.Calls.{OnlyReads};
ghost use Rattle.quilt_world.specs.Tale.{Goes};
ghost use Rattle.quilt_store.specs.Stops.{IsNotDamage};
ghost use Rattle.quilt_btree.specs.Damage.{NamesBad};
ghost use Rattle.quilt_btree.specs.Stops.{NamesPage};
ghost use Rattle.quilt_btree.specs.Trees.{IsRooted, IsTree};
ghost use Rattle.quilt_points.specs.Layers.{HasPoints, point_entries, block_record};
ghost use Rattle.quilt_points.specs.Reads.{IsHeld};
ghost use Rattle.quilt_points.specs.Climbing.{IsOnWay};
ghost use Rattle.quilt_point_laws.specs.Growing.{gone_of, come_of};
ghost use Rattle.quilt_edits.specs.Edits.{EditsAscend};
ghost use Rattle.quilt_points.specs.Plans.{IsPointPlan};

use crate::climb::topmost;
use crate::delta::{Delta, add_delta};
use crate::layer::PointLayer;
use crate::leaf::{Leaf, leaf_around};
use quilt_btree::Tree;
use quilt_edits::edits_of;
use quilt_record::Edits;
use quilt_store::PageStore;
use quilt_types::{Block, Pixel, Point, Stop};
use std::alloc::{AllocError, Global};

/// The records that go and those that come, each in the order of their keys, when a point comes to a pixel of the point layer
/// with this number, from 1 to 255, of a map of this level, from 1 to 12, whose blocks hold at most `bucket` points, from 1
/// to 16: None exactly where a point is there. It reads the block that holds the pixel: at most 12 pages, and 3 for each point
/// that a block may hold; at most 6 pages at a bucket of 1.
pub fn plan_put<S: PageStore>(
    alloc: Global,
    store: &mut S,
    tree: &Tree,
    layer: u8,
    level: u8,
    bucket: u8,
    at: Pixel,
    label: u32,
) -> Result<Option<Edits>, Stop>
    requires rooted { IsRooted (S.size store.old) tree.now }
    requires layer { 1 ≤ layer }
    requires level { (1 ≤ level) × (level ≤ 12) }
    requires bucket { (1 ≤ bucket) × (bucket ≤ 16) }
    requires in_x { at.x < side level }
    requires in_y { at.y < side level }
    ensures plan { IfOk result (λ o. IfSome o (λ edits. (points : PointMap) → HasPoints (S.told store.old) tree.now layer level bucket points
        → IsPointPlan level layer bucket points (finmap.insert points at label) edits)) }
    ensures none { IfOk result (λ o. (points : PointMap) → HasPoints (S.told store.old) tree.now layer level bucket points
        → IsNone o ↔ IsSome (finmap.get points at)) }
    ensures order { IfOk result (λ o. IfSome o EditsAscend) }
    ensures sound { IfErr result (λ e. (points : PointMap) → HasPoints (S.told store.old) tree.now layer level bucket points → IsNotDamage e) }
    ensures zero { IfErr result (λ e. (rs : List AnyRecord) → IsTree (S.told store.old) tree.now rs → NamesPage 1 e) }
    ensures bad { IfErr result (λ e. e ≢ Damaged 0 → NamesBad (S.told store.old) tree.now.height tree.now.root e) }
    ensures left { OnlyReads S.PageStore store.old store.new result }
    ensures reads { IfOk result (λ _. Goes (λ old new. new ≤ old + (12 + 3 * bucket)) (S.reads store.old) (S.reads store.new)) }
    ensures single { bucket ≡ 1 → Goes (λ old new. new ≤ old + 6) (S.reads store.old) (S.reads store.new) }
{
    let layer = PointLayer {
        number: layer,
        level,
        bucket,
    };
    let leaf = leaf_around(alloc, store, tree, layer, at)?;
    put_into(alloc, layer, leaf.block, &leaf.points, Point { at, label })
}

/// The records that go and those that come, each in the order of their keys, when the point at a pixel goes from the point
/// layer with this number, from 1 to 255, of a map of this level, from 1 to 12, whose blocks hold at most `bucket` points,
/// from 1 to 16: None exactly where no point is there. It reads the block that holds the pixel and those beside the way up:
/// at most 12 pages, and 18 for each level, and for each point that a block may hold 3, and 9 for each level.
pub fn plan_del<S: PageStore>(
    alloc: Global,
    store: &mut S,
    tree: &Tree,
    layer: u8,
    level: u8,
    bucket: u8,
    at: Pixel,
) -> Result<Option<Edits>, Stop>
    requires rooted { IsRooted (S.size store.old) tree.now }
    requires layer { 1 ≤ layer }
    requires level { (1 ≤ level) × (level ≤ 12) }
    requires bucket { (1 ≤ bucket) × (bucket ≤ 16) }
    requires in_x { at.x < side level }
    requires in_y { at.y < side level }
    ensures plan { IfOk result (λ o. IfSome o (λ edits. (points : PointMap) → HasPoints (S.told store.old) tree.now layer level bucket points
        → IsPointPlan level layer bucket points (finmap.remove points at) edits)) }
    ensures none { IfOk result (λ o. (points : PointMap) → HasPoints (S.told store.old) tree.now layer level bucket points
        → IsNone o ↔ IsNone (finmap.get points at)) }
    ensures order { IfOk result (λ o. IfSome o EditsAscend) }
    ensures sound { IfErr result (λ e. (points : PointMap) → HasPoints (S.told store.old) tree.now layer level bucket points → IsNotDamage e) }
    ensures zero { IfErr result (λ e. (rs : List AnyRecord) → IsTree (S.told store.old) tree.now rs → NamesPage 1 e) }
    ensures bad { IfErr result (λ e. e ≢ Damaged 0 → NamesBad (S.told store.old) tree.now.height tree.now.root e) }
    ensures left { OnlyReads S.PageStore store.old store.new result }
    ensures reads { IfOk result (λ _. Goes (λ old new. new ≤ old + (12 + 3 * bucket + (18 + 9 * bucket) * level)) (S.reads store.old) (S.reads store.new)) }
{
    let layer = PointLayer {
        number: layer,
        level,
        bucket,
    };
    let leaf = leaf_around(alloc, store, tree, layer, at)?;
    let Some(p) = point_at(&leaf.points, at) else {
        return Ok(None);
    };
    let edits = take_from(alloc, store, tree, layer, leaf, p)?;
    Ok(Some(edits))
}

/// What changes when one of its points goes from a block.
fn take_from<S: PageStore>(
    alloc: Global,
    store: &mut S,
    tree: &Tree,
    layer: PointLayer,
    leaf: Leaf,
    p: Point,
) -> Result<Edits, Stop>
    requires rooted { IsRooted (S.size store.old) tree.now }
    requires block { IsBlock layer.level leaf.block }
    requires pixels { All (λ q. is_pixel layer.level q.at ≡ true) leaf.points.items }
    requires pixel { is_pixel layer.level p.at ≡ true }
    ensures plan { IfOk result (λ edits. (points : PointMap) → HasPoints (S.told store.old) tree.now layer.number layer.level layer.bucket points
        → IsHeld layer.level layer.bucket points leaf.block leaf.points.items → in_block leaf.block p.at ≡ true
        → finmap.get points p.at ≡ Some p.label → IsPointPlan layer.level layer.number layer.bucket points (finmap.remove points p.at) edits) }
    ensures order { IfOk result EditsAscend }
    ensures sound { IfErr result (λ e. (points : PointMap) → HasPoints (S.told store.old) tree.now layer.number layer.level layer.bucket points
        → IsHeld layer.level layer.bucket points leaf.block leaf.points.items → in_block leaf.block p.at ≡ true
        → finmap.get points p.at ≡ Some p.label → IsNotDamage e) }
    ensures zero { IfErr result (λ e. (rs : List AnyRecord) → IsTree (S.told store.old) tree.now rs → NamesPage 1 e) }
    ensures bad { IfErr result (λ e. e ≢ Damaged 0 → NamesBad (S.told store.old) tree.now.height tree.now.root e) }
    ensures left { OnlyReads S.PageStore store.old store.new result }
    ensures reads { IfOk result (λ _. Goes (λ old new. new ≤ old + (18 + 9 * layer.bucket) * layer.level) (S.reads store.old) (S.reads store.new)) }
{
    let points = match others(alloc, &leaf.points, p.at) {
        Err(_) => return Err(Stop::Memory),
        Ok(points) => points,
    };
    let rest = Leaf {
        block: leaf.block,
        points,
    };
    let top = topmost(alloc, store, tree, layer, rest)?;
    take_out(alloc, layer, top.block, &top.points, p)
}

/// What changes when a point goes, in the last block up that holds few of the others.
fn take_out(
    alloc: Global,
    layer: PointLayer,
    b: Block,
    held: &[Point],
    p: Point,
) -> Result<Edits, Stop>
    requires block { IsBlock layer.level b }
    requires held { All (λ q. is_pixel layer.level q.at ≡ true) held.now }
    requires pixel { is_pixel layer.level p.at ≡ true }
    ensures plan { IfOk result (λ edits. (points : PointMap) → IsPointMap 2 layer.level layer.bucket points → finmap.get points p.at ≡ Some p.label
        → IsOnWay layer.level layer.bucket points p.at b held.now → Contains (point_blocks layer.level layer.bucket (finmap.remove points p.at)) b
        → IsPointPlan layer.level layer.number layer.bucket points (finmap.remove points p.at) edits) }
    ensures order { IfOk result EditsAscend }
    ensures sound { IfErr result (λ e. (points : PointMap) → IsPointMap 2 layer.level layer.bucket points → finmap.get points p.at ≡ Some p.label
        → IsOnWay layer.level layer.bucket points p.at b held.now → Contains (point_blocks layer.level layer.bucket (finmap.remove points p.at)) b
        → IsNotDamage e) }
    ensures zero { IfErr result (NamesPage 1) }
    ensures no_fault { IsErrOf result Device → ⊥ }
{
    match delta_of(alloc, layer, b, held, p) {
        Err(_) => Err(Stop::Memory),
        Ok(delta) => edits_of(delta.with, delta.without),
    }
}

/// The first of the points that is at the pixel.
fn point_at(points: &[Point], at: Pixel) -> Option<Point>
    ensures some { IfSome result (λ p. Contains points.now p × (p.at ≡ at)) }
    ensures none { result ≡ None → (p : AnyPoint) → Contains points.now p → p.at ≡ at → ⊥ }
{
    points.iter().find(|p| p.at == at).copied()
}

/// The points that are not at the pixel.
fn others(alloc: Global, points: &[Point], at: Pixel) -> Result<Vec<Point>, AllocError>
    ensures { IfOk result (λ v. v.items ≡ filter (λ p. not (same_pixel p.at at)) points.now) }
{
    points
        .iter()
        .filter(|p| !is_at(p, at))
        .copied()
        .collect(alloc)
}

/// Whether the point is at the pixel.
fn is_at(p: &Point, at: Pixel) -> bool
    ensures { result ≡ same_pixel p.now.at at }
{
    p.at == at
}

/// What changes when a point comes into the block that holds its pixel.
fn put_into(
    alloc: Global,
    layer: PointLayer,
    b: Block,
    held: &[Point],
    p: Point,
) -> Result<Option<Edits>, Stop>
    requires block { IsBlock layer.level b }
    requires held { All (λ q. is_pixel layer.level q.at ≡ true) held.now }
    requires pixel { is_pixel layer.level p.at ≡ true }
    requires label { p.label < 2 ^ 32 }
    ensures plan { IfOk result
        (λ o. IfSome o (λ edits. (points : PointMap) → IsPointMap 2 layer.level layer.bucket points
        → IsHeld layer.level layer.bucket points b held.now → in_block b p.at ≡ true
        → IsPointPlan layer.level layer.number layer.bucket points (finmap.insert points p.at p.label) edits)) }
    ensures none { IfOk result (λ o. (points : PointMap) → IsHeld layer.level layer.bucket points b held.now → in_block b p.at ≡ true
        → IsNone o ↔ IsSome (finmap.get points p.at)) }
    ensures order { IfOk result (λ o. IfSome o EditsAscend) }
    ensures sound { IfErr result (λ e. (points : PointMap) → IsPointMap 2 layer.level layer.bucket points
        → IsHeld layer.level layer.bucket points b held.now → in_block b p.at ≡ true → IsNotDamage e) }
    ensures zero { IfErr result (NamesPage 1) }
    ensures no_fault { IsErrOf result Device → ⊥ }
{
    if has_point(held, p.at) {
        return Ok(None);
    }
    let Ok(delta) = delta_of(alloc, layer, b, held, p) else {
        return Err(Stop::Memory);
    };
    let edits = edits_of(delta.without, delta.with)?;
    Ok(Some(edits))
}

/// The records of a block that change when one point comes into it.
fn delta_of(
    alloc: Global,
    layer: PointLayer,
    b: Block,
    held: &[Point],
    p: Point,
) -> Result<Delta, AllocError>
    requires block { IsBlock layer.level b }
    requires held { All (λ q. is_pixel layer.level q.at ≡ true) held.now }
    requires pixel { is_pixel layer.level p.at ≡ true }
    ensures without { IfOk result (λ delta. delta.without.items ≡ map (block_record layer.level layer.bucket layer.number)
        (gone_of layer.bucket b (point_entries held.now) (point_entries (p ∷ [])))) }
    ensures with { IfOk result (λ delta. (k : ℕ) → b.side ≡ 2 ^ k
        → delta.with.items ≡ map (block_record layer.level layer.bucket layer.number) (come_of layer.bucket k b (point_entries held.now) (point_entries (p ∷ [])))) }
{
    let mut delta = Delta {
        without: Vec::new(alloc),
        with: Vec::new(alloc),
    };
    add_delta(alloc, &mut delta, layer, b, held, &[p])?;
    Ok(delta)
}

/// Whether one of the points is at the pixel.
pub(crate) fn has_point(points: &[Point], at: Pixel) -> bool
    ensures yes { result ≡ true → (p : AnyPoint) × Contains points.now p × (p.at ≡ at) }
    ensures no { (p : AnyPoint) → Contains points.now p → p.at ≡ at → result ≡ true }
{
    points.iter().any(|p| p.at == at)
}

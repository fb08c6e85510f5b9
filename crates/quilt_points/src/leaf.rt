ghost use Rattle.std.specs.Prelude.{◌≡◌, ◌≢◌, ◌+◌, ◌*◌, ◌<◌, ◌≤◌, ◌++◌, true, All, Contains, List, Option, IfOk, IfErr, IfSome, IsErrOf, MatchOption, OnOk};
ghost use Rattle.std.specs.Option.{option_to_list};
ghost use Rattle.quilt_types.specs.declared.plane.Point.{Point as AnyPoint};
ghost use Rattle.quilt_types.specs.declared.stop.Stop.TheVariants.{Device, Damaged};
ghost use Rattle.quilt_types.specs.Plane.{side, is_pixel, in_block, IsBlock};
ghost use Rattle.quilt_types.specs.Layers.{PointMap, IsPointMap};
ghost use Rattle.quilt_types.specs.Quadtrees.{point_blocks};
ghost use Rattle.quilt_record.specs.declared.record.Record.{Record as AnyRecord};
ghost use Rattle.quilt_store.specs.Calls.{OnlyReads};
ghost use Rattle.quilt_world.specs.Tale.{Goes};
ghost use Rattle.quilt_store.specs.Stops.{IsNotDamage};
ghost use Rattle.quilt_btree.specs.Damage.{NamesBad};
ghost use Rattle.quilt_btree.specs.Spots.{IsSpotIf};
ghost use Rattle.quilt_btree.specs.Stops.{NamesPage};
ghost use Rattle.quilt_btree.specs.Trees.{IsRooted, IsTree};
ghost use Rattle.quilt_points.specs.Layers.{HasPoints};
ghost use Rattle.quilt_points.specs.Reads.{AreRecordsOf, IsHeld, IsRow};
ghost use Rattle.quilt_points.specs.Windows.{HasRow};

use crate::layer::PointLayer;
use crate::lookup::{DAMAGED, block_around, block_of};
use quilt_btree::{Spot, Tree};
use quilt_record::{Key, Record, point_record};
use quilt_store::PageStore;
use quilt_types::{Block, Pixel, Point, Stop};
use std::alloc::{AllocError, Global};

/// A block of a point layer with its points.
#[derive(Drop)]
pub(crate) struct Leaf {
    pub block: Block,
    pub points: Vec<Point>,
}

/// The points of a block, from the block's records: None exactly where it is none of the layer's blocks. The records may be in the leaf
/// of a spot, which is put to theirs. It reads at most 6 pages, and 3 for each point that a block may hold.
pub(crate) fn points_of<S: PageStore>(
    alloc: Global,
    store: &mut S,
    tree: &Tree,
    layer: PointLayer,
    spot: &mut Option<Spot>,
    b: Block,
) -> Result<Option<Vec<Point>>, Stop>
    requires rooted { IsRooted (S.size store.old) tree.now }
    requires block { IsBlock layer.level b }
    requires spot { IsSpotIf (S.told store.old) tree.now spot.old }
    ensures spot { OnOk result (IsSpotIf (S.told store.old) tree.now spot.new) }
    ensures read { IfOk result (λ o. (points : PointMap) → HasPoints (S.told store.old) tree.now layer.number layer.level layer.bucket points
        → MatchOption o (Contains (point_blocks layer.level layer.bucket points) b → ⊥) (λ v. IsHeld layer.level layer.bucket points b v.items)) }
    ensures row { IfOk result (λ o. IfSome o (λ v. (rs : List AnyRecord) → IsTree (S.told store.old) tree.now rs
        → HasRow layer.level layer.bucket layer.number rs b)) }
    ensures pixels { IfOk result (λ o. IfSome o (λ v. All (λ p. is_pixel layer.level p.at ≡ true) v.items)) }
    ensures sound { IfErr result (λ e. (points : PointMap) → HasPoints (S.told store.old) tree.now layer.number layer.level layer.bucket points → IsNotDamage e) }
    ensures zero { IfErr result (λ e. (rs : List AnyRecord) → IsTree (S.told store.old) tree.now rs → NamesPage 1 e) }
    ensures bad { IfErr result (λ e. e ≢ Damaged 0 → NamesBad (S.told store.old) tree.now.height tree.now.root e) }
    ensures left { OnlyReads S.PageStore store.old store.new result }
    ensures reads { IfOk result (λ _. Goes (λ old new. new ≤ old + (6 + 3 * layer.bucket)) (S.reads store.old) (S.reads store.new)) }
{
    let low = point_record(layer.number, b, layer.level, layer.bucket, None).key;
    let high = Key {
        item: u32::MAX,
        ..low
    };
    let records = tree.range_from(alloc, store, spot, &low, &high, u32::from(layer.bucket))?;
    points_said(alloc, &records, layer, b)
}

/// The points that the records of a block say: None where there are no records.
fn points_said(
    alloc: Global,
    records: &[Record],
    layer: PointLayer,
    b: Block,
) -> Result<Option<Vec<Point>>, Stop>
    ensures read { IfOk result (λ o. (points : PointMap) → IsPointMap 2 layer.level layer.bucket points
        → AreRecordsOf layer.level layer.bucket layer.number points b records.now
        → MatchOption o (Contains (point_blocks layer.level layer.bucket points) b → ⊥) (λ v. IsHeld layer.level layer.bucket points b v.items)) }
    ensures row { IfOk result (λ o. IfSome o (λ v. HasRow layer.level layer.bucket layer.number records.now b)) }
    ensures pixels { IfOk result (λ o. IfSome o (λ v. All (λ p. is_pixel layer.level p.at ≡ true) v.items)) }
    ensures sound { IfErr result (λ e. (points : PointMap) → IsPointMap 2 layer.level layer.bucket points
        → AreRecordsOf layer.level layer.bucket layer.number points b records.now → IsNotDamage e) }
    ensures zero { IfErr result (NamesPage 1) }
    ensures no_fault { IsErrOf result Device → ⊥ }
{
    if records.is_empty() {
        return Ok(None);
    }
    let mut points = Vec::new(alloc);
    for r in records {
        add_point(&mut points, r, layer, b)?;
    }
    Ok(Some(points))
}

/// Adds the point that the record of a block says, if it says one.
fn add_point(points: &mut Vec<Point>, r: &Record, layer: PointLayer, b: Block) -> Result<(), Stop>
    ensures added { OnOk result ((held : Option AnyPoint) × IsRow layer.level layer.bucket layer.number b held r.now
        × (points.new.items ≡ points.old.items ++ option_to_list held)) }
    ensures pixels { OnOk result (All (λ p. is_pixel layer.level p.at ≡ true) points.old.items → All (λ p. is_pixel layer.level p.at ≡ true) points.new.items) }
    ensures sound { IfErr result (λ e. (held : Option AnyPoint) → IsRow layer.level layer.bucket layer.number b held r.now → IsNotDamage e) }
    ensures zero { IfErr result (NamesPage 1) }
    ensures no_fault { IsErrOf result Device → ⊥ }
{
    let Some((block, held)) = block_of(r, layer) else {
        return Err(DAMAGED);
    };
    if !is_same(block, b) {
        return Err(DAMAGED);
    }
    let Some(p) = held else {
        return Ok(());
    };
    match points.push(p) {
        Ok(()) => Ok(()),
        Err(_) => Err(Stop::Memory),
    }
}

/// Whether two blocks are the same.
pub(crate) fn is_same(a: Block, b: Block) -> bool
    ensures yes { result ≡ true → a ≡ b }
    ensures no { a ≡ b → result ≡ true }
{
    a == b
}

/// The point alone, if there is one.
fn points_from(alloc: Global, held: Option<Point>) -> Result<Vec<Point>, AllocError>
    ensures { IfOk result (λ v. v.items ≡ option_to_list held) }
{
    let mut points = Vec::new(alloc);
    match held {
        None => {}
        Some(p) => points.push(p)?,
    }
    Ok(points)
}

/// The block of the layer that holds a pixel, with its points. It reads at most 12 pages, and 3 for each point that a block
/// may hold: where that is one, the record that is found says it, and it reads at most 6.
pub(crate) fn leaf_around<S: PageStore>(
    alloc: Global,
    store: &mut S,
    tree: &Tree,
    layer: PointLayer,
    at: Pixel,
) -> Result<Leaf, Stop>
    requires rooted { IsRooted (S.size store.old) tree.now }
    requires in_x { at.x < side layer.level }
    requires in_y { at.y < side layer.level }
    ensures read { IfOk result (λ leaf. (points : PointMap) → HasPoints (S.told store.old) tree.now layer.number layer.level layer.bucket points
        → IsHeld layer.level layer.bucket points leaf.block leaf.points.items) }
    ensures block { IfOk result (λ leaf. IsBlock layer.level leaf.block) }
    ensures holds { IfOk result (λ leaf. in_block leaf.block at ≡ true) }
    ensures pixels { IfOk result (λ leaf. All (λ p. is_pixel layer.level p.at ≡ true) leaf.points.items) }
    ensures sound { IfErr result (λ e. (points : PointMap) → HasPoints (S.told store.old) tree.now layer.number layer.level layer.bucket points → IsNotDamage e) }
    ensures zero { IfErr result (λ e. (rs : List AnyRecord) → IsTree (S.told store.old) tree.now rs → NamesPage 1 e) }
    ensures bad { IfErr result (λ e. e ≢ Damaged 0 → NamesBad (S.told store.old) tree.now.height tree.now.root e) }
    ensures left { OnlyReads S.PageStore store.old store.new result }
    ensures reads { IfOk result (λ _. Goes (λ old new. new ≤ old + (12 + 3 * layer.bucket)) (S.reads store.old) (S.reads store.new)) }
    ensures single { layer.bucket ≡ 1 → Goes (λ old new. new ≤ old + 6) (S.reads store.old) (S.reads store.new) }
{
    let (block, held) = block_around(store, tree, layer, at)?;
    if layer.bucket == 1 {
        return match points_from(alloc, held) {
            Err(_) => Err(Stop::Memory),
            Ok(points) => Ok(Leaf { block, points }),
        };
    }
    let mut spot = None;
    match points_of(alloc, store, tree, layer, &mut spot, block)? {
        None => Err(DAMAGED),
        Some(points) => Ok(Leaf { block, points }),
    }
}

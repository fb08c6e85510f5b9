ghost use Rattle.std.specs.Prelude.{◌≡◌, ◌≢◌, ◌+◌, ◌<◌, ◌≤◌, ◌==◌, true, ℕ, List, Option, Some, IfOk, IfErr, IfSome, IsErrOf, Contains, if◌then◌else◌};
ghost use Rattle.std.specs.FinMap as finmap;
ghost use Rattle.quilt_types.specs.declared.plane.Block.{Block as AnyBlock};
ghost use Rattle.quilt_types.specs.declared.plane.Point.{Point as AnyPoint};
ghost use Rattle.quilt_types.specs.declared.stop.Stop.TheVariants.{Device, Damaged};
ghost use Rattle.quilt_types.specs.Plane.{side, in_block, is_pixel, IsBlock};
ghost use Rattle.quilt_types.specs.Layers.{PointMap};
ghost use Rattle.quilt_types.specs.Quadtrees.{point_blocks};
ghost use Rattle.quilt_record.specs.declared.record.Record.{Record as AnyRecord};
ghost use Rattle.quilt_record.specs.Canonical.{IsRecordOf, point_fact};
ghost use Rattle.quilt_store.specs.Calls.{OnlyReads};
ghost use Rattle.quilt_world.specs.Tale.{Goes};
ghost use Rattle.quilt_store.specs.Stops.{IsNotDamage};
ghost use Rattle.quilt_btree.specs.Damage.{NamesBad};
ghost use Rattle.quilt_btree.specs.declared.tree.Tree.{Tree as AnyTree};
ghost use Rattle.quilt_btree.specs.Lists.{floor_of};
ghost use Rattle.quilt_btree.specs.Stops.{NamesPage};
ghost use Rattle.quilt_btree.specs.Trees.{IsRooted, IsTree};
ghost use Rattle.quilt_points.specs.Layers.{HasPoints, point_pixel_key};
ghost use Rattle.quilt_points.specs.Reads.{IsBlockRead, IsRow, IsBlockRow, IsLabelIn, IsLabelFound, label_at};

use crate::layer::PointLayer;
use quilt_btree::Tree;
use quilt_loc::{code_of, covers};
use quilt_record::{Key, Record, point_record, read_point};
use quilt_store::PageStore;
use quilt_types::{Block, Pixel, Point, Stop};

/// What is answered where records are none of a point layer.
pub const DAMAGED: Stop = Stop::Damaged { page: 0 };

/// The label of the point at a pixel of the point layer with this number, from 1 to 255, of a map of this level, from 1 to
/// 12, whose blocks hold at most `bucket` points, from 1 to 16: None exactly where no point is there.
/// Page 0 is said to be damaged where the last record up to the pixel is none of a block around it, or the one with the
/// point's key is none of a point. It reads at most 6
/// pages at a bucket of 1, and at most 9 at another.
pub fn find<S: PageStore>(
    store: &mut S,
    tree: &Tree,
    layer: u8,
    level: u8,
    bucket: u8,
    at: Pixel,
) -> Result<Option<u32>, Stop>
    requires rooted { IsRooted (S.size store.old) tree.now }
    requires layer { 1 ≤ layer }
    requires level { (1 ≤ level) × (level ≤ 12) }
    requires bucket { (1 ≤ bucket) × (bucket ≤ 16) }
    requires in_x { at.x < side level }
    requires in_y { at.y < side level }
    ensures label { IfOk result (λ label. (points : PointMap) → HasPoints (S.told store.old) tree.now layer level bucket points
        → label ≡ finmap.get points at) }
    ensures answered { IfOk result (λ label. (rs : List AnyRecord) → IsTree (S.told store.old) tree.now rs → IsLabelFound level bucket layer rs at label) }
    ensures sound { IfErr result (λ e. (points : PointMap) → HasPoints (S.told store.old) tree.now layer level bucket points → IsNotDamage e) }
    ensures zero { IfErr result (λ e. (rs : List AnyRecord) → IsTree (S.told store.old) tree.now rs → NamesPage 1 e) }
    ensures bad { IfErr result (λ e. e ≢ Damaged 0 → NamesBad (S.told store.old) tree.now.height tree.now.root e) }
    ensures left { OnlyReads S.PageStore store.old store.new result }
    ensures reads { Goes (λ old new. new ≤ old + (if bucket == 1 then 6 else 9)) (S.reads store.old) (S.reads store.new) }
{
    let layer = PointLayer {
        number: layer,
        level,
        bucket,
    };
    let (b, held) = block_around(store, tree, layer, at)?;
    if bucket == 1 {
        Ok(label_of(held, at))
    } else {
        label_in(store, tree, layer, b, at)
    }
}

/// The block of the layer that holds a pixel, and the point that the last of its records says, if it says one. It reads at
/// most 6 pages.
pub(crate) fn block_around<S: PageStore>(
    store: &mut S,
    tree: &Tree,
    layer: PointLayer,
    at: Pixel,
) -> Result<(Block, Option<Point>), Stop>
    requires rooted { IsRooted (S.size store.old) tree.now }
    requires in_x { at.x < side layer.level }
    requires in_y { at.y < side layer.level }
    ensures read { IfOk result (λ v. (points : PointMap) → HasPoints (S.told store.old) tree.now layer.number layer.level layer.bucket points
        → IsBlockRead layer.level layer.bucket points v.0 v.1) }
    ensures row { IfOk result (λ v. (rs : List AnyRecord) → IsTree (S.told store.old) tree.now rs
        → IsBlockRow layer.level layer.bucket layer.number rs at v.0 v.1) }
    ensures block { IfOk result (λ v. IsBlock layer.level v.0) }
    ensures holds { IfOk result (λ v. in_block v.0 at ≡ true) }
    ensures pixel { IfOk result (λ v. IfSome v.1 (λ p. is_pixel layer.level p.at ≡ true)) }
    ensures sound { IfErr result (λ e. (points : PointMap) → HasPoints (S.told store.old) tree.now layer.number layer.level layer.bucket points → IsNotDamage e) }
    ensures zero { IfErr result (λ e. (rs : List AnyRecord) → IsTree (S.told store.old) tree.now rs → NamesPage 1 e) }
    ensures bad { IfErr result (λ e. e ≢ Damaged 0 → NamesBad (S.told store.old) tree.now.height tree.now.root e) }
    ensures left { OnlyReads S.PageStore store.old store.new result }
    ensures reads { Goes (λ old new. new ≤ old + 6) (S.reads store.old) (S.reads store.new) }
{
    let k = key_behind(layer, at);
    let found = tree.floor(store, &k)?;
    block_said(found, layer, at)
}

/// The block and its point that a record says: that of the greatest key which is at most those of the blocks that begin
/// at the pixel.
pub(crate) fn block_said(
    found: Option<Record>,
    layer: PointLayer,
    at: Pixel,
) -> Result<(Block, Option<Point>), Stop>
    requires in_x { at.x < side layer.level }
    requires in_y { at.y < side layer.level }
    ensures read { IfOk result (λ v. (told : Option (List (List ℕ))) (t : AnyTree) (points : PointMap)
        → ((rs : List AnyRecord) → IsTree told t rs → found ≡ floor_of (point_pixel_key layer.number at) rs)
        → HasPoints told t layer.number layer.level layer.bucket points → IsBlockRead layer.level layer.bucket points v.0 v.1) }
    ensures row { IfOk result (λ v. (rs : List AnyRecord) → found ≡ floor_of (point_pixel_key layer.number at) rs
        → IsBlockRow layer.level layer.bucket layer.number rs at v.0 v.1) }
    ensures block { IfOk result (λ v. IsBlock layer.level v.0) }
    ensures holds { IfOk result (λ v. in_block v.0 at ≡ true) }
    ensures pixel { IfOk result (λ v. IfSome v.1 (λ p. is_pixel layer.level p.at ≡ true)) }
    ensures sound { IfErr result (λ e. (told : Option (List (List ℕ))) (t : AnyTree) (points : PointMap)
        → ((rs : List AnyRecord) → IsTree told t rs → found ≡ floor_of (point_pixel_key layer.number at) rs)
        → HasPoints told t layer.number layer.level layer.bucket points → IsNotDamage e) }
    ensures zero { IfErr result (NamesPage 1) }
    ensures no_fault { IsErrOf result Device → ⊥ }
{
    let Some(r) = found else {
        return Err(DAMAGED);
    };
    match block_of(&r, layer) {
        Some((b, held)) if covers(b, at) => Ok((b, held)),
        _ => Err(DAMAGED),
    }
}

/// The key behind those of all blocks that begin at the pixel or before it.
pub(crate) fn key_behind(layer: PointLayer, at: Pixel) -> Key
    requires in_x { at.x < side layer.level }
    requires in_y { at.y < side layer.level }
    ensures { result ≡ point_pixel_key layer.number at }
{
    Key {
        layer: u16::from(layer.number),
        part: 2,
        code: code_of(at),
        depth: u8::MAX,
        item: u32::MAX,
    }
}

/// The block of the layer and the point that the record says, if it is one of the layer.
pub(crate) fn block_of(r: &Record, layer: PointLayer) -> Option<(Block, Option<Point>)>
    ensures record { IfSome result (λ v. IsRecordOf layer.level layer.bucket r.now layer.number (point_fact v.0 v.1)) }
    ensures block { IfSome result (λ v. IsBlock layer.level v.0) }
    ensures pixel { IfSome result (λ v. IfSome v.1 (λ p. is_pixel layer.level p.at ≡ true)) }
    ensures one { (b : AnyBlock) (held : Option AnyPoint) → IsRecordOf layer.level layer.bucket r.now layer.number (point_fact b held)
        → result ≡ Some (b, held) }
{
    let Some((b, held)) = read_point(r, layer.level, layer.bucket) else {
        return None;
    };
    if r.key.layer != u16::from(layer.number) {
        return None;
    }
    Some((b, held))
}

/// The point of the layer that the record says, if it says one.
fn point_of(r: &Record, layer: PointLayer) -> Option<Point>
    ensures point { (b : AnyBlock) (p : AnyPoint) → IsRecordOf layer.level layer.bucket r.now layer.number (point_fact b (Some p)) → result ≡ Some p }
    ensures row { IfSome result (λ p. (b : AnyBlock) × IsRow layer.level layer.bucket layer.number b (Some p) r.now) }
{
    match block_of(r, layer) {
        Some((_, held)) => held,
        None => None,
    }
}

/// The label of the point, if it is at the pixel.
fn label_of(held: Option<Point>, at: Pixel) -> Option<u32>
    ensures { result ≡ label_at held at }
{
    match held {
        Some(p) if p.at == at => Some(p.label),
        _ => None,
    }
}

/// The label of the point at a pixel of the block, whose records have the pixel's code in their keys: those of a bucket over
/// 1. It reads at most 3 pages.
fn label_in<S: PageStore>(
    store: &mut S,
    tree: &Tree,
    layer: PointLayer,
    b: Block,
    at: Pixel,
) -> Result<Option<u32>, Stop>
    requires rooted { IsRooted (S.size store.old) tree.now }
    requires bucket { 1 < layer.bucket }
    requires block { IsBlock layer.level b }
    requires pixel { is_pixel layer.level at ≡ true }
    ensures label { IfOk result (λ label. (points : PointMap) → HasPoints (S.told store.old) tree.now layer.number layer.level layer.bucket points
        → Contains (point_blocks layer.level layer.bucket points) b → in_block b at ≡ true → label ≡ finmap.get points at) }
    ensures answered { IfOk result (λ label. (rs : List AnyRecord) → IsTree (S.told store.old) tree.now rs
        → IsLabelIn layer.level layer.bucket layer.number rs b at label) }
    ensures sound { IfErr result (λ e. (points : PointMap) → HasPoints (S.told store.old) tree.now layer.number layer.level layer.bucket points
        → Contains (point_blocks layer.level layer.bucket points) b → in_block b at ≡ true → IsNotDamage e) }
    ensures zero { IfErr result (λ e. (rs : List AnyRecord) → IsTree (S.told store.old) tree.now rs → NamesPage 1 e) }
    ensures bad { IfErr result (λ e. e ≢ Damaged 0 → NamesBad (S.told store.old) tree.now.height tree.now.root e) }
    ensures left { OnlyReads S.PageStore store.old store.new result }
    ensures reads { Goes (λ old new. new ≤ old + 3) (S.reads store.old) (S.reads store.new) }
{
    let like = point_record(
        layer.number,
        b,
        layer.level,
        layer.bucket,
        Some(Point { at, label: 0 }),
    );
    let key = like.key;
    let Some(value) = tree.get(store, &key)? else {
        return Ok(None);
    };
    match point_of(&Record { key, value }, layer) {
        Some(p) => Ok(Some(p.label)),
        None => Err(DAMAGED),
    }
}

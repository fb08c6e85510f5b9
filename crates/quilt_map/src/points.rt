ghost use Rattle.std.specs.Prelude.{◌≡◌, ◌==◌, ◌<◌, ◌≤◌, ◌+◌, ◌↔◌, true, ℕ, List, All, filter, count_by, slice_index, IfSome, IsNone, IsSome, IfOk, IfErr};
ghost use Rattle.std.specs.Prelude.{if◌then◌else◌};
ghost use Rattle.std.specs.FinMap as finmap;
ghost use Rattle.quilt_types.specs.Layers.{Map, Points, PointMap};
ghost use Rattle.quilt_types.specs.Plane.{side, is_pixel, is_window, in_window};
ghost use Rattle.quilt_types.specs.Quadtrees.{point_blocks};
ghost use Rattle.quilt_record.specs.Records.{Numbering};
ghost use Rattle.quilt_world.specs.Tale.{Goes};
ghost use Rattle.quilt_store.specs.Stops.{HasStopCause, IsNotDamage};
ghost use Rattle.quilt_edits.specs.Edits.{EditsAscend};
ghost use Rattle.quilt_points.specs.Layers.{point_entries};
ghost use Rattle.quilt_points.specs.Plans.{IsPointPlan, AreNew, points_with};
ghost use Rattle.quilt_spell.specs.Catalogued.{IsCatalogOf};
ghost use Rattle.quilt_edition.specs.Books.{world_of, last_of, work_of};
ghost use Rattle.quilt_replies.specs.Answers.{State};
ghost use Rattle.quilt_map.specs.Asking.{IsStill, reads_in};
ghost use Rattle.quilt_map.specs.Costs.{within_pages, layer_block_pages};
ghost use Rattle.quilt_map.specs.PointLayers.{IsPointsAt, IsNoPoints, HoldsPoints};

use crate::change::DAMAGED;
use crate::regions::{layer_under, tree_of};
use quilt_edition::Book;
use quilt_points::{block_counts, find, plan_del, plan_put, plan_scatter, within};
use quilt_record::{Edits, Entry};
use quilt_types::{Code, Kind, Name, Pixel, PointList, Stop, Window};
use quilt_world::Disk;
use std::alloc::Global;

/// A point layer: its number, and how many points a block holds at most.
#[derive(Clone, Copy)]
pub(crate) struct PointLayer {
    pub number: u8,
    pub bucket: u8,
}

/// Whether a layer may have this number and this many points in a block.
fn can_be(layer: PointLayer) -> bool
    ensures yes { result ≡ true → (1 ≤ layer.number) × ((1 ≤ layer.bucket) × (layer.bucket ≤ 16)) }
    ensures no { 1 ≤ layer.number → 1 ≤ layer.bucket → layer.bucket ≤ 16 → result ≡ true }
{
    1 <= layer.number && 1 <= layer.bucket && layer.bucket <= 16
}

/// The point layer with this name, or why there is none.
pub(crate) fn points_number(entries: &[Entry], name: &Name) -> Result<PointLayer, Code>
    ensures found { IfOk result (λ layer. (layers : Map) (numbers : Numbering) → IsCatalogOf layers numbers entries.now
        → IsPointsAt layers numbers name.now layer) }
    ensures refused { IfErr result (λ code. (s : State) (numbers : Numbering) → IsCatalogOf s.work numbers entries.now → IsNoPoints s name.now code) }
{
    match layer_under(entries, name) {
        None => Err(Code::Unknown),
        Some((number, Kind::Points { bucket })) => Ok(PointLayer { number, bucket }),
        Some(_) => Err(Code::Kind),
    }
}

/// The records that go and those that come when a point comes to a pixel of the work's point layer: None where one is there.
pub(crate) fn plan_point<W: Disk>(
    alloc: Global,
    book: &mut Book<W>,
    layer: PointLayer,
    at: Pixel,
    label: u32,
) -> Result<Option<Edits>, Stop>
    requires in_x { at.x < side (last_of book.old).level }
    requires in_y { at.y < side (last_of book.old).level }
    ensures plan { IfOk result
        (λ o. IfSome o (λ edits. (points : PointMap) → HoldsPoints book.old layer points
        → IsPointPlan (work_of book.old).level layer.number layer.bucket points (finmap.insert points at label) edits)) }
    ensures none { IfOk result (λ o. (points : PointMap) → HoldsPoints book.old layer points → IsNone o ↔ IsSome (finmap.get points at)) }
    ensures order { IfOk result (λ o. IfSome o EditsAscend) }
    ensures sound { IfErr result (λ e. (points : PointMap) → 1 ≤ layer.number → HoldsPoints book.old layer points → IsNotDamage e) }
    ensures still { IsStill book.old book.new }
    ensures cause { HasStopCause (W.faults (world_of book.old)) (W.faults (world_of book.new)) result }
{
    if !can_be(layer) {
        return Err(DAMAGED);
    }
    let head = book.head();
    plan_put(
        alloc,
        book,
        &tree_of(&head),
        layer.number,
        head.level,
        layer.bucket,
        at,
        label,
    )
}

/// The records that go and those that come when the point at a pixel goes from the work's point layer: None where none is
/// there.
pub(crate) fn plan_removal<W: Disk>(
    alloc: Global,
    book: &mut Book<W>,
    layer: PointLayer,
    at: Pixel,
) -> Result<Option<Edits>, Stop>
    requires in_x { at.x < side (last_of book.old).level }
    requires in_y { at.y < side (last_of book.old).level }
    ensures plan { IfOk result
        (λ o. IfSome o (λ edits. (points : PointMap) → HoldsPoints book.old layer points
        → IsPointPlan (work_of book.old).level layer.number layer.bucket points (finmap.remove points at) edits)) }
    ensures none { IfOk result (λ o. (points : PointMap) → HoldsPoints book.old layer points → IsNone o ↔ IsNone (finmap.get points at)) }
    ensures order { IfOk result (λ o. IfSome o EditsAscend) }
    ensures sound { IfErr result (λ e. (points : PointMap) → 1 ≤ layer.number → HoldsPoints book.old layer points → IsNotDamage e) }
    ensures still { IsStill book.old book.new }
    ensures cause { HasStopCause (W.faults (world_of book.old)) (W.faults (world_of book.new)) result }
{
    if !can_be(layer) {
        return Err(DAMAGED);
    }
    let head = book.head();
    plan_del(
        alloc,
        book,
        &tree_of(&head),
        layer.number,
        head.level,
        layer.bucket,
        at,
    )
}

/// The label of the point at a pixel of the work's point layer, if one is there. It reads at most 6 pages where a block holds
/// one point at most, and at most 9 else.
pub(crate) fn read_label<W: Disk>(
    book: &mut Book<W>,
    layer: PointLayer,
    at: Pixel,
) -> Result<Option<u32>, Stop>
    requires in_x { at.x < side (last_of book.old).level }
    requires in_y { at.y < side (last_of book.old).level }
    ensures label { IfOk result (λ label. (points : PointMap) → HoldsPoints book.old layer points → label ≡ finmap.get points at) }
    ensures sound { IfErr result (λ e. (points : PointMap) → 1 ≤ layer.number → HoldsPoints book.old layer points → IsNotDamage e) }
    ensures still { IsStill book.old book.new }
    ensures cause { HasStopCause (W.faults (world_of book.old)) (W.faults (world_of book.new)) result }
    ensures reads { Goes (λ old new. new ≤ old + (if layer.bucket == 1 then 6 else 9)) (reads_in book.old) (reads_in book.new) }
{
    if !can_be(layer) {
        return Err(DAMAGED);
    }
    let head = book.head();
    find(
        book,
        &tree_of(&head),
        layer.number,
        head.level,
        layer.bucket,
        at,
    )
}

/// The points in a window of the work's point layer, by y and then x.
pub(crate) fn read_points<W: Disk>(
    alloc: Global,
    book: &mut Book<W>,
    layer: PointLayer,
    w: Window,
) -> Result<PointList, Stop>
    requires window { is_window (work_of book.old).level w ≡ true }
    ensures points { IfOk result (λ list. (points : PointMap) → HoldsPoints book.old layer points
        → point_entries list ≡ filter (λ e. in_window w e.0) (finmap.entries points)) }
    ensures sound { IfErr result (λ e. (points : PointMap) → 1 ≤ layer.number → HoldsPoints book.old layer points → IsNotDamage e) }
    ensures still { IsStill book.old book.new }
    ensures cause { HasStopCause (W.faults (world_of book.old)) (W.faults (world_of book.new)) result }
    ensures reads { IfOk result (λ list. (points : PointMap) → HoldsPoints book.old layer points
        → Goes (λ old new. new ≤ old + within_pages (work_of book.old).level layer.bucket points w) (reads_in book.old) (reads_in book.new)) }
{
    if !can_be(layer) {
        return Err(DAMAGED);
    }
    let head = book.head();
    within(
        alloc,
        book,
        &tree_of(&head),
        layer.number,
        head.level,
        layer.bucket,
        w,
    )
}

/// The records that go and those that come when these points come at once into the work's point layer: None where two of them
/// share a pixel or a point is at one of their pixels.
pub(crate) fn plan_points<W: Disk>(
    alloc: Global,
    book: &mut Book<W>,
    layer: PointLayer,
    points: &PointList,
) -> Result<Option<Edits>, Stop>
    requires pixels { All (λ p. is_pixel (work_of book.old).level p.at ≡ true) points.now }
    ensures plan { IfOk result
        (λ o. IfSome o (λ edits. (held : PointMap) → HoldsPoints book.old layer held
        → IsPointPlan (work_of book.old).level layer.number layer.bucket held (points_with held points.now) edits)) }
    ensures none { IfOk result (λ o. (held : PointMap) → HoldsPoints book.old layer held → IsNone o ↔ (AreNew held points.now → ⊥)) }
    ensures order { IfOk result (λ o. IfSome o EditsAscend) }
    ensures sound { IfErr result (λ e. (held : PointMap) → 1 ≤ layer.number → HoldsPoints book.old layer held → IsNotDamage e) }
    ensures still { IsStill book.old book.new }
    ensures cause { HasStopCause (W.faults (world_of book.old)) (W.faults (world_of book.new)) result }
{
    if !can_be(layer) {
        return Err(DAMAGED);
    }
    let head = book.head();
    plan_scatter(
        alloc,
        book,
        &tree_of(&head),
        layer.number,
        head.level,
        layer.bucket,
        points,
    )
}

/// How many blocks of each side the work's point layer has: those of side 2 ^ k at place k.
pub(crate) fn point_counts<W: Disk>(
    book: &mut Book<W>,
    layer: PointLayer,
) -> Result<[u32; 13], Stop>
    ensures counts { IfOk result (λ counts. (points : PointMap) → HoldsPoints book.old layer points →
        (k : ℕ) → k ≤ 12 → slice_index counts k ≡ count_by (λ b. b.side == side k) (point_blocks (work_of book.old).level layer.bucket points)) }
    ensures sound { IfErr result (λ e. (points : PointMap) → 1 ≤ layer.number → HoldsPoints book.old layer points → IsNotDamage e) }
    ensures still { IsStill book.old book.new }
    ensures cause { HasStopCause (W.faults (world_of book.old)) (W.faults (world_of book.new)) result }
    ensures reads { IfOk result (λ counts. (points : PointMap) → HoldsPoints book.old layer points
        → Goes (λ old new. new ≤ old + layer_block_pages (work_of book.old).level (Points layer.bucket points)) (reads_in book.old) (reads_in book.new)) }
{
    if !can_be(layer) {
        return Err(DAMAGED);
    }
    let head = book.head();
    block_counts(
        book,
        &tree_of(&head),
        layer.number,
        head.level,
        layer.bucket,
    )
}

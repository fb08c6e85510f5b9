ghost use Rattle.std.specs.Prelude.{◌≡◌, ◌+◌, ◌++◌, ◌<◌, ◌≤◌, ◌^◌, ℕ, [], true, false, All, length, map, filter, take, slice_index_or, IfOk, OnOk};
ghost use Rattle.quilt_types.specs.declared.plane.Point.{Point as AnyPoint};
ghost use Rattle.quilt_types.specs.Plane.{is_pixel, in_block, IsBlock};
ghost use Rattle.quilt_types.specs.Facts.{HoldsPoint};
ghost use Rattle.quilt_point_laws.specs.Spreading.{held_facts};
ghost use Rattle.quilt_points.specs.Layers.{point_entries};
ghost use Rattle.quilt_points.specs.Coding.{AreInCodeOrder};
ghost use Rattle.quilt_points.specs.Scattering.{AddsRecords, AddsSpread};
ghost use Rattle.quilt_point_laws.specs.Growing.{gone_of, come_of};

use crate::layer::PointLayer;
use quilt_loc::{covers, quarters};
use quilt_record::{Record, point_record};
use quilt_types::{Block, Point};
use std::alloc::{AllocError, Global};

/// Among more points than these it is faster to halve the list than to look at one after the other.
const MANY_POINTS: usize = 16;

/// The records that a layer has only without some points, and those that it has only with them.
#[derive(Drop)]
pub(crate) struct Delta {
    pub without: Vec<Record>,
    pub with: Vec<Record>,
}

/// No records yet, with room for those that come with so many points. Drawn points with one in a block make 2.2 times as many
/// records, since blocks without a point have one too; room that is left over is not touched.
pub(crate) fn no_records(alloc: Global, points: usize) -> Result<Delta, AllocError>
    ensures without { IfOk result (λ delta. delta.without.items ≡ []) }
    ensures with { IfOk result (λ delta. delta.with.items ≡ []) }
{
    let with = Vec::with_capacity(alloc, points.saturating_mul(5) / 2)?;
    Ok(Delta {
        without: Vec::new(alloc),
        with,
    })
}

/// Adds the records of a block that change when points come into it: `held` are the points that it has without them. Where
/// more come than a block holds, they are in the order of their codes, and none of these is before the block's.
pub(crate) fn add_delta(
    alloc: Global,
    delta: &mut Delta,
    layer: PointLayer,
    b: Block,
    held: &[Point],
    news: &[Point],
) -> Result<(), AllocError>
    requires block { IsBlock layer.level b }
    requires held { All (λ p. is_pixel layer.level p.at ≡ true) held.now }
    requires news { All (λ p. is_pixel layer.level p.at ≡ true) news.now }
    requires order { layer.bucket < length news.now → AreInCodeOrder b news.now }
    ensures without { OnOk result (AddsRecords layer.level layer.number layer.bucket delta.old.without.items delta.new.without.items
        (gone_of layer.bucket b (point_entries held.now) (point_entries news.now))) }
    ensures with { OnOk result ((k : ℕ) → b.side ≡ 2 ^ k → AddsRecords layer.level layer.number layer.bucket delta.old.with.items delta.new.with.items
        (come_of layer.bucket k b (point_entries held.now) (point_entries news.now))) }
{
    let bucket = usize::from(layer.bucket);
    if held.len() <= bucket && news.len() <= bucket - held.len() {
        if held.is_empty() {
            add_held(&mut delta.without, layer, b, held)?;
        }
        return add_points(&mut delta.with, layer, b, news);
    }
    add_held(&mut delta.without, layer, b, held)?;
    spread_all(alloc, &mut delta.with, layer, b, held, news)
}

/// Adds the records of the blocks into which the points of a block are spread with those that come into it. They are too many
/// for one block. Where none was there, those that come are in the order of their codes, and none of these is before the block's.
fn spread_all(
    alloc: Global,
    records: &mut Vec<Record>,
    layer: PointLayer,
    b: Block,
    held: &[Point],
    news: &[Point],
) -> Result<(), AllocError>
    requires block { IsBlock layer.level b }
    requires held { All (λ p. is_pixel layer.level p.at ≡ true) held.now }
    requires news { All (λ p. is_pixel layer.level p.at ≡ true) news.now }
    requires many { layer.bucket < length held.now + length news.now }
    requires order { layer.bucket < length news.now → AreInCodeOrder b news.now }
    ensures { OnOk result (AddsSpread layer.level layer.number layer.bucket b (point_entries news.now ++ point_entries held.now) records.old.items records.new.items) }
{
    if held.is_empty() {
        return spread_in_order(records, layer, b, news);
    }
    let mut all = Vec::from_slice(alloc, news)?;
    all.extend_from_slice(held)?;
    spread(alloc, records, layer, b, &all)
}

/// Adds the records of a block with these points, or of the blocks into which they are spread where they are too many. The
/// points are in the order of their codes, and none of these is before the block's, so those of a quarter are a part of the list.
fn spread_in_order(
    records: &mut Vec<Record>,
    layer: PointLayer,
    b: Block,
    points: &[Point],
) -> Result<(), AllocError>
    requires block { IsBlock layer.level b }
    requires points { All (λ p. is_pixel layer.level p.at ≡ true) points.now }
    requires order { AreInCodeOrder b points.now }
    ensures { OnOk result (AddsSpread layer.level layer.number layer.bucket b (point_entries points.now) records.old.items records.new.items) }
{
    if points.len() <= usize::from(layer.bucket) || b.side <= 1 {
        return add_held(records, layer, b, points);
    }
    let mut done = 0;
    for q in quarters(b) {
        let rest = &points[done..];
        let count = count_in(rest, q);
        spread_in_order(records, layer, q, &rest[..count])?;
        done += count;
    }
    Ok(())
}

/// How many of the points, the first of them on, are in the block. They are in the order of their codes, and none of them is
/// before the block's.
pub(crate) fn count_in(points: &[Point], b: Block) -> usize
    requires block { IsBlock 12 b }
    requires points { All (λ p. is_pixel 12 p.at ≡ true) points.now }
    requires order { AreInCodeOrder b points.now }
    ensures most { result ≤ length points.now }
    ensures inside { All (λ p. in_block b p.at ≡ true) (take result points.now) }
    ensures behind { result < length points.now → (d : AnyPoint) → in_block b (slice_index_or points.now result d).at ≡ false }
{
    if points.len() > MANY_POINTS {
        return points.partition_point(|p| covers(b, p.at));
    }
    count_first(points, b)
}

/// How many of the points, the first of them on, are in the block, found by a look at each of these and at the next one.
fn count_first(points: &[Point], b: Block) -> usize
    requires { IsBlock 12 b }
    ensures most { result ≤ length points.now }
    ensures inside { All (λ p. in_block b p.at ≡ true) (take result points.now) }
    ensures behind { result < length points.now → (d : AnyPoint) → in_block b (slice_index_or points.now result d).at ≡ false }
{
    let mut count = 0;
    for p in points {
        if !covers(b, p.at) {
            return count;
        }
        count += 1;
    }
    count
}

/// Adds the records of a block with these points, or of the blocks into which they are spread where they are too many.
fn spread(
    alloc: Global,
    records: &mut Vec<Record>,
    layer: PointLayer,
    b: Block,
    points: &[Point],
) -> Result<(), AllocError>
    requires block { IsBlock layer.level b }
    requires points { All (λ p. is_pixel layer.level p.at ≡ true) points.now }
    ensures { OnOk result (AddsSpread layer.level layer.number layer.bucket b (point_entries points.now) records.old.items records.new.items) }
{
    if points.len() <= usize::from(layer.bucket) || b.side <= 1 {
        return add_held(records, layer, b, points);
    }
    for q in quarters(b) {
        let here = covered(alloc, points, q)?;
        spread(alloc, records, layer, q, &here)?;
    }
    Ok(())
}

/// The points in a block.
fn covered(alloc: Global, points: &[Point], b: Block) -> Result<Vec<Point>, AllocError>
    requires { IsBlock 12 b }
    ensures { IfOk result (λ v. v.items ≡ filter (λ p. in_block b p.at) points.now) }
{
    points
        .iter()
        .filter(|p| covers(b, p.at))
        .copied()
        .collect(alloc)
}

/// Adds the records of a block with these points: one that says that there is none, where there is none.
fn add_held(
    records: &mut Vec<Record>,
    layer: PointLayer,
    b: Block,
    points: &[Point],
) -> Result<(), AllocError>
    requires block { IsBlock layer.level b }
    requires points { All (λ p. is_pixel layer.level p.at ≡ true) points.now }
    ensures { OnOk result (AddsRecords layer.level layer.number layer.bucket records.old.items records.new.items (held_facts b (point_entries points.now))) }
{
    if points.is_empty() {
        records.push(point_record(layer.number, b, layer.level, layer.bucket, None))?;
        return Ok(());
    }
    add_points(records, layer, b, points)
}

/// Adds a record of the block for each point.
fn add_points(
    records: &mut Vec<Record>,
    layer: PointLayer,
    b: Block,
    points: &[Point],
) -> Result<(), AllocError>
    requires block { IsBlock layer.level b }
    requires points { All (λ p. is_pixel layer.level p.at ≡ true) points.now }
    ensures { OnOk result (AddsRecords layer.level layer.number layer.bucket records.old.items records.new.items
        (map (λ e. HoldsPoint b e.0 e.1) (point_entries points.now))) }
{
    for p in points {
        records.push(point_record(layer.number, b, layer.level, layer.bucket, Some(*p)))?;
    }
    Ok(())
}

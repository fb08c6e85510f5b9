ghost use Rattle.std.specs.Prelude.{◌≡◌, ◌≢◌, ◌+◌, ◌*◌, ◌<◌, ◌≤◌, ◌^◌, ◌↔◌, ℕ, true, false, [], All, Contains, Some, None, length, IfOk};
ghost use Rattle.std.specs.Prelude.{List, IfErr, IfSome, IsNone, IsSome, IsErrOf};
ghost use Rattle.std.specs.FinMap as finmap;
ghost use Rattle.quilt_types.specs.declared.plane.Point.{Point as AnyPoint};
ghost use Rattle.quilt_types.specs.declared.stop.Stop.TheVariants.{Device, Damaged};
ghost use Rattle.quilt_types.specs.Plane.{is_pixel};
ghost use Rattle.quilt_types.specs.Layers.{PointMap};
ghost use Rattle.quilt_loc.specs.Codes.{Rises};
ghost use Rattle.quilt_record.specs.declared.record.Record.{Record as AnyRecord};
ghost use Rattle.quilt_store.specs.Calls.{OnlyReads};
ghost use Rattle.quilt_world.specs.Tale.{Goes};
ghost use Rattle.quilt_store.specs.Stops.{IsNotDamage};
ghost use Rattle.quilt_btree.specs.Damage.{NamesBad};
ghost use Rattle.quilt_btree.specs.Stops.{NamesPage};
ghost use Rattle.quilt_btree.specs.Trees.{IsRooted, IsTree};
ghost use Rattle.quilt_edits.specs.Edits.{EditsAscend};
ghost use Rattle.quilt_points.specs.Layers.{HasPoints};
ghost use Rattle.quilt_points.specs.Coding.{by_code};
ghost use Rattle.quilt_points.specs.Plans.{IsPointPlan, AreNew, points_with};
ghost use Rattle.quilt_points.specs.Scattering.{IsTaken, IsGrown};

use crate::coded::in_order;
use crate::delta::{Delta, add_delta, count_in, no_records};
use crate::layer::PointLayer;
use crate::leaf::leaf_around;
use crate::plan::has_point;
use quilt_btree::Tree;
use quilt_edits::edits_of;
use quilt_record::Edits;
use quilt_store::PageStore;
use quilt_types::{Point, PointList, Stop};
use std::alloc::Global;

/// The records that go and those that come, each in the order of their keys, when these points come at once into the point
/// layer with this number, from 1 to 255, of a map of this level, from 1 to 12, whose blocks hold at most `bucket` points, from
/// 1 to 16: None exactly where two of them share a pixel or a point is at one of their pixels. Each block that gets points is
/// read and planned once: for each point at most 12 pages, and 3 for each point that a block may hold.
pub fn plan_scatter<S: PageStore>(
    alloc: Global,
    store: &mut S,
    tree: &Tree,
    layer: u8,
    level: u8,
    bucket: u8,
    points: &PointList,
) -> Result<Option<Edits>, Stop>
    requires rooted { IsRooted (S.size store.old) tree.now }
    requires layer { 1 ≤ layer }
    requires level { (1 ≤ level) × (level ≤ 12) }
    requires bucket { (1 ≤ bucket) × (bucket ≤ 16) }
    requires pixels { All (λ p. is_pixel level p.at ≡ true) points.now }
    ensures plan { IfOk result (λ o. IfSome o (λ edits. (old : PointMap) → HasPoints (S.told store.old) tree.now layer level bucket old
        → IsPointPlan level layer bucket old (points_with old points.now) edits)) }
    ensures none { IfOk result (λ o. (old : PointMap) → HasPoints (S.told store.old) tree.now layer level bucket old → IsNone o ↔ (AreNew old points.now → ⊥)) }
    ensures order { IfOk result (λ o. IfSome o EditsAscend) }
    ensures sound { IfErr result (λ e. (old : PointMap) → HasPoints (S.told store.old) tree.now layer level bucket old → IsNotDamage e) }
    ensures zero { IfErr result (λ e. (rs : List AnyRecord) → IsTree (S.told store.old) tree.now rs → NamesPage 1 e) }
    ensures bad { IfErr result (λ e. e ≢ Damaged 0 → NamesBad (S.told store.old) tree.now.height tree.now.root e) }
    ensures left { OnlyReads S.PageStore store.old store.new result }
    ensures reads { IfOk result (λ _. Goes (λ old new. new ≤ old + (12 + 3 * bucket) * length points.now) (S.reads store.old) (S.reads store.new)) }
{
    let place = PointLayer {
        number: layer,
        level,
        bucket,
    };
    let news = match in_order(alloc, points.items()) {
        Err(_) => return Err(Stop::Memory),
        Ok(None) => return Ok(None),
        Ok(Some(news)) => news,
    };
    let Some(delta) = grown(alloc, store, tree, place, &news)? else {
        return Ok(None);
    };
    let edits = edits_of(delta.without, delta.with)?;
    Ok(Some(edits))
}

/// The records that change when these points come, in the order of their codes: None where a point is at one of their pixels.
fn grown<S: PageStore>(
    alloc: Global,
    store: &mut S,
    tree: &Tree,
    layer: PointLayer,
    news: &[Point],
) -> Result<Option<Delta>, Stop>
    requires rooted { IsRooted (S.size store.old) tree.now }
    requires pixels { All (λ p. is_pixel layer.level p.at ≡ true) news.now }
    requires order { Rises by_code news.now }
    ensures grown { IfOk result
        (λ o. IfSome o (λ delta. (old : PointMap) → HasPoints (S.told store.old) tree.now layer.number layer.level layer.bucket old
        → IsGrown layer.level layer.number layer.bucket old news.now [] delta.without.items delta.with.items)) }
    ensures taken { IfOk result (λ o. o ≡ None → (old : PointMap) → HasPoints (S.told store.old) tree.now layer.number layer.level layer.bucket old
        → (p : AnyPoint) × Contains news.now p × IsSome (finmap.get old p.at)) }
    ensures sound { IfErr result (λ e. (old : PointMap) → HasPoints (S.told store.old) tree.now layer.number layer.level layer.bucket old → IsNotDamage e) }
    ensures zero { IfErr result (λ e. (rs : List AnyRecord) → IsTree (S.told store.old) tree.now rs → NamesPage 1 e) }
    ensures bad { IfErr result (λ e. e ≢ Damaged 0 → NamesBad (S.told store.old) tree.now.height tree.now.root e) }
    ensures left { OnlyReads S.PageStore store.old store.new result }
    ensures reads { IfOk result (λ _. Goes (λ old new. new ≤ old + (12 + 3 * layer.bucket) * length news.now) (S.reads store.old) (S.reads store.new)) }
{
    let mut delta = match no_records(alloc, news.len()) {
        Err(_) => return Err(Stop::Memory),
        Ok(delta) => delta,
    };
    let mut done = 0;
    while done < news.len() {
        let Some(count) = add_block(alloc, store, tree, layer, &news[done..], &mut delta)? else {
            return Ok(None);
        };
        done += count;
    }
    Ok(Some(delta))
}

/// Adds the records of the block around the first of the points that change when those of them in the block come, and answers
/// how many these are: None where a point is at one of their pixels.
fn add_block<S: PageStore>(
    alloc: Global,
    store: &mut S,
    tree: &Tree,
    layer: PointLayer,
    news: &[Point],
    delta: &mut Delta,
) -> Result<Option<usize>, Stop>
    requires rooted { IsRooted (S.size store.old) tree.now }
    requires some { 0 < length news.now }
    requires pixels { All (λ p. is_pixel layer.level p.at ≡ true) news.now }
    requires order { Rises by_code news.now }
    ensures count { IfOk result (λ o. IfSome o (λ count. (0 < count) × (count ≤ length news.now))) }
    ensures added { IfOk result
        (λ o. IfSome o (λ count. (old : PointMap) → HasPoints (S.told store.old) tree.now layer.number layer.level layer.bucket old
        → IsTaken layer.level layer.number layer.bucket old news.now count delta.old.without.items delta.new.without.items delta.old.with.items
        delta.new.with.items)) }
    ensures taken { IfOk result (λ o. o ≡ None → (old : PointMap) → HasPoints (S.told store.old) tree.now layer.number layer.level layer.bucket old
        → (p : AnyPoint) × Contains news.now p × IsSome (finmap.get old p.at)) }
    ensures sound { IfErr result (λ e. (old : PointMap) → HasPoints (S.told store.old) tree.now layer.number layer.level layer.bucket old → IsNotDamage e) }
    ensures zero { IfErr result (λ e. (rs : List AnyRecord) → IsTree (S.told store.old) tree.now rs → NamesPage 1 e) }
    ensures bad { IfErr result (λ e. e ≢ Damaged 0 → NamesBad (S.told store.old) tree.now.height tree.now.root e) }
    ensures left { OnlyReads S.PageStore store.old store.new result }
    ensures reads { IfOk result (λ _. Goes (λ old new. new ≤ old + (12 + 3 * layer.bucket)) (S.reads store.old) (S.reads store.new)) }
{
    let leaf = leaf_around(alloc, store, tree, layer, news[0].at)?;
    let count = count_in(news, leaf.block);
    let here = &news[..count];
    if has_common(&leaf.points, here) {
        return Ok(None);
    }
    match add_delta(alloc, delta, layer, leaf.block, &leaf.points, here) {
        Err(_) => Err(Stop::Memory),
        Ok(()) => Ok(Some(count)),
    }
}

/// Whether one of the points is at a pixel of one of the others.
fn has_common(held: &[Point], news: &[Point]) -> bool
    ensures yes { result ≡ true → (p : AnyPoint) × (q : AnyPoint) × Contains news.now p × Contains held.now q × (q.at ≡ p.at) }
    ensures no { result ≡ false → (p q : AnyPoint) → Contains news.now p → Contains held.now q → q.at ≡ p.at → ⊥ }
{
    for p in news {
        if has_point(held, p.at) {
            return true;
        }
    }
    false
}

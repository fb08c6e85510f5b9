ghost use Rattle.std.specs.Prelude.{◌≡◌, ◌≢◌, ℕ, ◌+◌, ◌*◌, ◌^◌, ◌&&◌, nat_lt, ◌<◌, ◌≤◌, ◌++◌, List, true, false, filter, Contains, IfOk, IfErr, IsErrOf, IsPermutation, IfSome, MatchOption, OnOk};
ghost use Rattle.std.specs.FinMap as finmap;
ghost use Rattle.std.specs.List.Sorted.{IsSortedByKey};
ghost use Rattle.std.specs.Option.{option_to_list};
ghost use Rattle.quilt_types.specs.declared.plane.Pixel.{Pixel as AnyPixel};
ghost use Rattle.quilt_types.specs.declared.plane.Point.{Point as AnyPoint};
ghost use Rattle.quilt_types.specs.declared.stop.Stop.TheVariants.{Device, Damaged};
ghost use Rattle.quilt_types.specs.Plane.{whole, side, is_window, is_pixel, in_window, in_block, pixel_cmp, IsBlock};
ghost use Rattle.quilt_types.specs.Layers.{PointMap};
ghost use Rattle.quilt_types.specs.Quadtrees.{point_blocks};
ghost use Rattle.quilt_record.specs.declared.record.Record.{Record as AnyRecord};
ghost use Rattle.quilt_store.specs.Calls.{OnlyReads};
ghost use Rattle.quilt_world.specs.Tale.{Goes};
ghost use Rattle.quilt_store.specs.Stops.{IsNotDamage};
ghost use Rattle.quilt_btree.specs.Stops.{NamesPage};
ghost use Rattle.quilt_btree.specs.Damage.{NamesBad};
ghost use Rattle.quilt_btree.specs.Trees.{IsRooted, IsTree};
ghost use Rattle.quilt_points.specs.Layers.{HasPoints, point_entries};
ghost use Rattle.quilt_points.specs.Reads.{ArePointsOf, IsHeld};
ghost use Rattle.quilt_points.specs.Searches.{IsSearch};
ghost use Rattle.quilt_points.specs.Windows.{IsVisited, IsCovered, HasRow, meets_window, visited};

use crate::layer::PointLayer;
use crate::leaf::{is_same, points_of};
use crate::lookup::DAMAGED;
use crate::search::{Search, block_near};
use quilt_btree::Tree;
use quilt_loc::{quarters, whole_square};
use quilt_store::PageStore;
use quilt_types::{Block, Pixel, Point, PointList, Stop, Window};
use std::alloc::{AllocError, Global};

/// The points in a window of the point layer with this number, from 1 to 255, of a map of this level, from 1 to 12, whose
/// blocks hold at most `bucket` points, from 1 to 16, by y and then x. Page 0 is said to be damaged where no
/// record is of a block around one of the window's pixels. It reads at most 6 pages, and 3 for
/// each point that a block may hold, for each quadrant that meets the window and lies in no larger block of the layer.
pub fn within<S: PageStore>(
    alloc: Global,
    store: &mut S,
    tree: &Tree,
    layer: u8,
    level: u8,
    bucket: u8,
    w: Window,
) -> Result<PointList, Stop>
    requires rooted { IsRooted (S.size store.old) tree.now }
    requires layer { 1 ≤ layer }
    requires level { (1 ≤ level) × (level ≤ 12) }
    requires bucket { (1 ≤ bucket) × (bucket ≤ 16) }
    requires window { is_window level w ≡ true }
    ensures points { IfOk result (λ list. (points : PointMap) → HasPoints (S.told store.old) tree.now layer level bucket points
        → point_entries list ≡ filter (λ e. in_window w e.0) (finmap.entries points)) }
    ensures covered { IfOk result (λ _. (rs : List AnyRecord) (p : AnyPixel) → IsTree (S.told store.old) tree.now rs → in_window w p ≡ true
        → is_pixel level p ≡ true → IsCovered level bucket layer rs p) }
    ensures sound { IfErr result (λ e. (points : PointMap) → HasPoints (S.told store.old) tree.now layer level bucket points → IsNotDamage e) }
    ensures zero { IfErr result (λ e. (rs : List AnyRecord) → IsTree (S.told store.old) tree.now rs → NamesPage 1 e) }
    ensures bad { IfErr result (λ e. e ≢ Damaged 0 → NamesBad (S.told store.old) tree.now.height tree.now.root e) }
    ensures left { OnlyReads S.PageStore store.old store.new result }
    ensures reads { IfOk result (λ _. (points : PointMap) → HasPoints (S.told store.old) tree.now layer level bucket points
        → Goes (λ old new. new ≤ old + (6 + 3 * bucket) * visited level bucket points w (whole level)) (S.reads store.old) (S.reads store.new)) }
{
    let layer = PointLayer {
        number: layer,
        level,
        bucket,
    };
    let whole = whole_square(level);
    let mut search = Search::new();
    let mut found = Vec::new(alloc);
    add_within(alloc, store, tree, layer, &mut search, whole, w, &mut found)?;
    match in_rows(alloc, found) {
        Ok(list) => Ok(list),
        Err(_) => Err(Stop::Memory),
    }
}

/// Adds the points of the layer that are in a window, from the blocks in one.
fn add_within<S: PageStore>(
    alloc: Global,
    store: &mut S,
    tree: &Tree,
    layer: PointLayer,
    search: &mut Search,
    b: Block,
    w: Window,
    found: &mut Vec<Point>,
) -> Result<(), Stop>
    requires rooted { IsRooted (S.size store.old) tree.now }
    requires search { IsSearch (S.told store.old) tree.now layer.level layer.bucket layer.number search.old }
    requires window { is_window layer.level w ≡ true }
    requires block { IsBlock layer.level b }
    ensures found { OnOk result ((points : PointMap) → HasPoints (S.told store.old) tree.now layer.number layer.level layer.bucket points
        → IsVisited layer.level layer.bucket points b → (here : List AnyPoint) × (found.new.items ≡ found.old.items ++ here)
        × ArePointsOf points (in_window w) b (point_entries here)) }
    ensures covered { OnOk result ((rs : List AnyRecord) (p : AnyPixel) → IsTree (S.told store.old) tree.now rs → in_window w p ≡ true
        → in_block b p ≡ true → IsCovered layer.level layer.bucket layer.number rs p) }
    ensures sound { IfErr result (λ e. (points : PointMap) → HasPoints (S.told store.old) tree.now layer.number layer.level layer.bucket points
        → IsVisited layer.level layer.bucket points b → IsNotDamage e) }
    ensures search { OnOk result (IsSearch (S.told store.old) tree.now layer.level layer.bucket layer.number search.new) }
    ensures zero { IfErr result (λ e. (rs : List AnyRecord) → IsTree (S.told store.old) tree.now rs → NamesPage 1 e) }
    ensures bad { IfErr result (λ e. e ≢ Damaged 0 → NamesBad (S.told store.old) tree.now.height tree.now.root e) }
    ensures left { OnlyReads S.PageStore store.old store.new result }
    ensures reads { OnOk result ((points : PointMap) (k : ℕ) → HasPoints (S.told store.old) tree.now layer.number layer.level layer.bucket points
        → IsVisited layer.level layer.bucket points b → b.side ≡ 2 ^ k
        → Goes (λ old new. new ≤ old + (6 + 3 * layer.bucket) * visited k layer.bucket points w b) (S.reads store.old) (S.reads store.new)) }
{
    if !meets(b, w) {
        return Ok(());
    }
    if visit(alloc, store, tree, layer, search, b, w, found)? {
        return Ok(());
    }
    if b.side <= 1 {
        return Err(DAMAGED);
    }
    for q in quarters(b) {
        add_within(alloc, store, tree, layer, search, q, w, found)?;
    }
    Ok(())
}

/// Adds those points of a block that meets the window which are in it, if this is one of the layer's blocks, and answers
/// whether it is. It reads at most 6 pages, and 3 for each point that a block may hold.
fn visit<S: PageStore>(
    alloc: Global,
    store: &mut S,
    tree: &Tree,
    layer: PointLayer,
    search: &mut Search,
    b: Block,
    w: Window,
    found: &mut Vec<Point>,
) -> Result<bool, Stop>
    requires rooted { IsRooted (S.size store.old) tree.now }
    requires search { IsSearch (S.told store.old) tree.now layer.level layer.bucket layer.number search.old }
    requires window { is_window layer.level w ≡ true }
    requires block { IsBlock layer.level b }
    requires meets { meets_window w b ≡ true }
    ensures found { IfOk result (λ yes. yes ≡ true → (points : PointMap) → HasPoints (S.told store.old) tree.now layer.number layer.level layer.bucket points
        → (here : List AnyPoint) × (found.new.items ≡ found.old.items ++ here) × ArePointsOf points (in_window w) b (point_entries here)) }
    ensures covered { IfOk result (λ yes. yes ≡ true → (rs : List AnyRecord) → IsTree (S.told store.old) tree.now rs
        → HasRow layer.level layer.bucket layer.number rs b) }
    ensures none { IfOk result (λ yes. yes ≡ false → (found.new.items ≡ found.old.items)
        × ((points : PointMap) → HasPoints (S.told store.old) tree.now layer.number layer.level layer.bucket points
        → Contains (point_blocks layer.level layer.bucket points) b → ⊥)) }
    ensures sound { IfErr result (λ e. (points : PointMap) → HasPoints (S.told store.old) tree.now layer.number layer.level layer.bucket points → IsNotDamage e) }
    ensures search { OnOk result (IsSearch (S.told store.old) tree.now layer.level layer.bucket layer.number search.new) }
    ensures zero { IfErr result (λ e. (rs : List AnyRecord) → IsTree (S.told store.old) tree.now rs → NamesPage 1 e) }
    ensures bad { IfErr result (λ e. e ≢ Damaged 0 → NamesBad (S.told store.old) tree.now.height tree.now.root e) }
    ensures left { OnlyReads S.PageStore store.old store.new result }
    ensures reads { IfOk result (λ _. Goes (λ old new. new ≤ old + (6 + 3 * layer.bucket)) (S.reads store.old) (S.reads store.new)) }
{
    if layer.bucket == 1 {
        let Some(held) = single_of(store, tree, layer, search, b, w)? else {
            return Ok(false);
        };
        add_said(found, held, w)?;
        return Ok(true);
    }
    let Some(points) = points_of(alloc, store, tree, layer, &mut search.spot, b)? else {
        return Ok(false);
    };
    add_inside(found, &points, w)?;
    Ok(true)
}

/// What a block that meets the window holds, in a layer whose blocks hold one point at most: None exactly where it is none of the
/// layer's blocks. The one record of a block says all, so that of the block around a pixel of both does. It reads at most 9 pages.
fn single_of<S: PageStore>(
    store: &mut S,
    tree: &Tree,
    layer: PointLayer,
    search: &mut Search,
    b: Block,
    w: Window,
) -> Result<Option<Option<Point>>, Stop>
    requires rooted { IsRooted (S.size store.old) tree.now }
    requires search { IsSearch (S.told store.old) tree.now layer.level layer.bucket layer.number search.old }
    requires bucket { layer.bucket ≡ 1 }
    requires block { IsBlock layer.level b }
    requires meets { meets_window w b ≡ true }
    ensures read { IfOk result (λ o. (points : PointMap) → HasPoints (S.told store.old) tree.now layer.number layer.level layer.bucket points
        → MatchOption o (Contains (point_blocks layer.level layer.bucket points) b → ⊥)
        (λ held. IsHeld layer.level layer.bucket points b (option_to_list held))) }
    ensures row { IfOk result (λ o. IfSome o (λ _. (rs : List AnyRecord) → IsTree (S.told store.old) tree.now rs
        → HasRow layer.level layer.bucket layer.number rs b)) }
    ensures search { OnOk result (IsSearch (S.told store.old) tree.now layer.level layer.bucket layer.number search.new) }
    ensures sound { IfErr result (λ e. (points : PointMap) → HasPoints (S.told store.old) tree.now layer.number layer.level layer.bucket points → IsNotDamage e) }
    ensures zero { IfErr result (λ e. (rs : List AnyRecord) → IsTree (S.told store.old) tree.now rs → NamesPage 1 e) }
    ensures bad { IfErr result (λ e. e ≢ Damaged 0 → NamesBad (S.told store.old) tree.now.height tree.now.root e) }
    ensures left { OnlyReads S.PageStore store.old store.new result }
    ensures reads { Goes (λ old new. new ≤ old + 9) (S.reads store.old) (S.reads store.new) }
{
    let at = first_in(layer, b, w);
    let (around, held) = block_near(store, tree, layer, search, at)?;
    if !is_same(around, b) {
        return Ok(None);
    }
    Ok(Some(held))
}

/// The pixel of the least coordinates that a block and a window have in common.
fn first_in(layer: PointLayer, b: Block, w: Window) -> Pixel
    requires block { IsBlock layer.level b }
    requires meets { meets_window w b ≡ true }
    ensures holds { in_block b result ≡ true }
    ensures in_x { result.x < side layer.level }
    ensures in_y { result.y < side layer.level }
{
    Pixel {
        x: if b.x < w.x { w.x } else { b.x },
        y: if b.y < w.y { w.y } else { b.y },
    }
}

/// Adds the point, if there is one and it is in the window.
fn add_said(found: &mut Vec<Point>, held: Option<Point>, w: Window) -> Result<(), Stop>
    ensures found { OnOk result (found.new.items ≡ found.old.items ++ filter (λ p. in_window w p.at) (option_to_list held)) }
    ensures memory { IfErr result (λ e. e ≡ Stop.Memory) }
{
    match held {
        Some(p) if is_inside(&p, w) => match found.push(p) {
            Ok(()) => Ok(()),
            Err(_) => Err(Stop::Memory),
        },
        _ => Ok(()),
    }
}

/// Whether a block and a window have a pixel in common.
fn meets(b: Block, w: Window) -> bool
    requires block { 1 ≤ b.side }
    requires window { (1 ≤ w.w) × (1 ≤ w.h) }
    ensures { result ≡ meets_window w b }
{
    overlap(b.x, b.side, w.x, w.w) && overlap(b.y, b.side, w.y, w.h)
}

/// Whether two stretches, each from its first number on and so long, have a number in common.
fn overlap(a: u16, length: u16, b: u16, other: u16) -> bool
    requires first { 1 ≤ length }
    requires second { 1 ≤ other }
    ensures { result ≡ (nat_lt b (a + length) && nat_lt a (b + other)) }
{
    if a <= b {
        b - a < length
    } else {
        a - b < other
    }
}

/// Adds those of the points that are in the window.
fn add_inside(found: &mut Vec<Point>, points: &[Point], w: Window) -> Result<(), Stop>
    ensures found { OnOk result (found.new.items ≡ found.old.items ++ filter (λ p. in_window w p.at) points.now) }
    ensures memory { IfErr result (λ e. e ≡ Stop.Memory) }
{
    for p in points {
        if is_inside(p, w) && found.push(*p).is_err() {
            return Err(Stop::Memory);
        }
    }
    Ok(())
}

/// Whether the point is in the window.
fn is_inside(p: &Point, w: Window) -> bool
    ensures { result ≡ in_window w p.now.at }
{
    w.x <= p.at.x && p.at.x - w.x < w.w && w.y <= p.at.y && p.at.y - w.y < w.h
}

/// The points by y and then x.
fn in_rows(alloc: Global, mut points: Vec<Point>) -> Result<PointList, AllocError>
    ensures permutation { IfOk result (λ list. IsPermutation points.items list) }
    ensures sorted { IfOk result (λ list. IsSortedByKey (λ p. p.at) pixel_cmp list) }
{
    sort(&mut points);
    list_of(alloc, &points)
}

/// Puts the points in the order of their pixels.
fn sort(points: &mut Vec<Point>)
    ensures permutation { IsPermutation points.old.items points.new.items }
    ensures sorted { IsSortedByKey (λ p. p.at) pixel_cmp points.new.items }
{
    points.sort_unstable_by_key(|p| p.at);
}

/// The points as a list.
fn list_of(alloc: Global, points: &[Point]) -> Result<PointList, AllocError>
    ensures { IfOk result (λ list. list ≡ points.now) }
{
    let mut list = PointList::new(alloc);
    for p in points {
        list.push(*p)?;
    }
    Ok(list)
}

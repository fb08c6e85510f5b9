ghost use Rattle.std.specs.Prelude.{◌≡◌, ℕ, ◌+◌, ◌<◌, ◌≤◌, true, fold, length, slice_get, All, IfOk, IfErr, OnOk};
ghost use Rattle.std.specs.FinMap as finmap;
ghost use Rattle.quilt_types.specs.Plane.{IsBlock};
ghost use Rattle.quilt_types.specs.Quadtrees.{is_reached, reach};
ghost use Rattle.quilt_types.specs.Ranking.{ranked as ranked_of};
ghost use Rattle.quilt_types.specs.Segments.{nearest as nearest_of};
ghost use Rattle.quilt_store.specs.Calls.{OnlyReads};
ghost use Rattle.quilt_world.specs.Tale.{Goes};
ghost use Rattle.quilt_near.specs.Budgets.{is_close};
ghost use Rattle.quilt_near.specs.Endings.{EndsLook, EndsSearch};
ghost use Rattle.quilt_near.specs.Lines.{Lines};
ghost use Rattle.quilt_near.specs.Knowing.{Knows};
ghost use Rattle.quilt_store.specs.Stops.{IsNotDamage};
ghost use Rattle.quilt_rank.specs.Firsts.{AreFirst};
ghost use Rattle.quilt_rank.specs.Ranks.{with_ranked, last_far};
ghost use Rattle.quilt_rank.specs.Opened.{AfterRanking, IsBlockRanked, IsSmallPart, GivesPart};

use crate::firsts::Firsts;
use crate::ranks::RankList;
use quilt_near::{Known, Part, Queue, SegBlocks, first_queue, push_quarters, square_distance};
use quilt_store::PageStore;
use quilt_types::{Block, Pixel, Seg, Stop};
use std::alloc::{AllocError, Global};

/// Puts the segments of a list to their places among the first k.
fn rank_all(ranks: &mut Firsts, list: &[(u32, Seg)], p: Pixel, k: usize) -> Result<(), AllocError>
    requires x { p.x < 8192 }
    requires y { p.y < 8192 }
    requires ends { All (λ e. (e.1.x1 < 8192) × (e.1.y1 < 8192) × (e.1.x2 < 8192) × (e.1.y2 < 8192)) list.now }
    ensures { OnOk result (ranks.new ≡ fold (with_ranked p k) ranks.old list.now) }
{
    for (id, s) in list {
        ranks.put(*id, square_distance(p, *s), k)?;
    }
    Ok(())
}

/// Puts the segments of a block to their places, or its quarters into the queue.
fn take_part(
    queue: &mut Queue,
    ranks: &mut Firsts,
    p: Pixel,
    k: usize,
    b: Block,
    part: Part,
) -> Result<(), AllocError>
    requires x { p.x < 8192 }
    requires y { p.y < 8192 }
    requires valid { IsBlock 12 b }
    requires small { IsSmallPart b part }
    ensures { OnOk result (AfterRanking p k b part queue.old queue.new ranks.old ranks.new) }
{
    match part {
        Part::Leaf(list) => rank_all(ranks, list.items(), p, k),
        Part::Split => push_quarters(queue, p, b),
    }
}

/// Opens a block: its segments are put to their places, or its quarters wait.
fn open<S: PageStore, B: SegBlocks<S>>(
    alloc: Global,
    blocks: &B,
    store: &mut S,
    queue: &mut Queue,
    ranks: &mut Firsts,
    known: &mut Known,
    p: Pixel,
    k: usize,
    b: Block,
) -> Result<(), Stop>
    requires x { p.x < 8192 }
    requires y { p.y < 8192 }
    requires low { B.level_of blocks.now ≤ 12 }
    requires block { IsBlock (B.level_of blocks.now) b }
    requires reached { (l : Lines) → B.shows blocks.now store.old l → is_reached l.cover b ≡ true }
    requires known { Knows (B.level_of blocks.now) (B.shows blocks.now store.old) (B.marked blocks.now store.old) known.old }
    ensures opened { OnOk result (IsBlockRanked (B.level_of blocks.now) p k b (B.shows blocks.now store.old) queue.old queue.new ranks.old ranks.new
        (S.reads store.old) (S.reads store.new)) }
    ensures known { OnOk result (Knows (B.level_of blocks.now) (B.shows blocks.now store.old) (B.marked blocks.now store.old) known.new) }
    ensures sound { IfErr result (λ e. (l : Lines) → B.shows blocks.now store.old l → IsNotDamage e) }
    ensures ended { IfErr result (EndsLook (B.looked blocks.now b) store.old store.new) }
    ensures named { IfErr result (B.named blocks.now store.old) }
    ensures looked { OnOk result (GivesPart (B.looked blocks.now b) store.old store.new) }
    ensures left { OnlyReads S.PageStore store.old store.new result }
{
    let part = blocks.part_known(alloc, store, known, b)?;
    match take_part(queue, ranks, p, k, b, part) {
        Err(_) => Err(Stop::Memory),
        Ok(()) => Ok(()),
    }
}

/// The first k segments by distance from the pixel and then id, with their distances: all where there are fewer. Where it
/// gives k it opens no block that is farther than the last, and none twice; it reads no segment twice. What ends a look at a block ends it, and is
/// answered as it is.
pub fn ranked<S: PageStore, B: SegBlocks<S>>(
    alloc: Global,
    blocks: &B,
    store: &mut S,
    p: Pixel,
    k: u32,
) -> Result<RankList, Stop>
    requires some { 1 ≤ k }
    requires x { p.x < 8192 }
    requires y { p.y < 8192 }
    ensures ranked { IfOk result (λ list. (l : Lines) → B.shows blocks.now store.old l → list ≡ ranked_of l.segs p k) }
    ensures firsts { IfOk result (λ list. (l : Lines) → B.shows blocks.now store.old l → AreFirst p k (finmap.entries l.segs) list) }
    ensures nearest { IfOk result (λ list. (l : Lines) → B.shows blocks.now store.old l → slice_get list 0 ≡ nearest_of l.segs p) }
    ensures reads { IfOk result (λ list. (l : Lines) → B.shows blocks.now store.old l → length list ≡ k
        → Goes (λ old new. new ≤ old + reach (B.level_of blocks.now) l.segs l.cover (is_close p (last_far list))) (S.reads store.old) (S.reads store.new)) }
    ensures sound { IfErr result (λ e. (l : Lines) → B.shows blocks.now store.old l → IsNotDamage e) }
    ensures ended { IfErr result (EndsSearch (B.looked blocks.now) store.old store.new) }
    ensures named { IfErr result (B.named blocks.now store.old) }
    ensures left { OnlyReads S.PageStore store.old store.new result }
{
    let mut queue = match first_queue(alloc, blocks, p) {
        Err(_) => return Err(Stop::Memory),
        Ok(queue) => queue,
    };
    let mut known = Known::new(alloc, p);
    let mut ranks = Firsts::new(alloc);
    while let Some((distance, block)) = queue.pop() {
        if ranks.is_past(k as usize, distance) {
            break;
        }
        open(
            alloc, blocks, store, &mut queue, &mut ranks, &mut known, p, k as usize, block,
        )?;
    }
    match ranks.listed(alloc) {
        Err(_) => Err(Stop::Memory),
        Ok(list) => Ok(list),
    }
}

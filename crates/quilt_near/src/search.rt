ghost use Rattle.std.specs.Prelude.{◌≡◌, ℕ, ◌+◌, ◌*◌, ◌<◌, ◌≤◌, true, [], IfOk, IfErr, OnOk, IfSome, MatchOption};
ghost use Rattle.std.specs.FinMap as finmap;
ghost use Rattle.quilt_types.specs.Plane.{IsBlock};
ghost use Rattle.quilt_types.specs.Quadtrees.{is_reached, reach};
ghost use Rattle.quilt_types.specs.Segments.{nearest as nearest_of};
ghost use Rattle.quilt_store.specs.Calls.{OnlyReads};
ghost use Rattle.quilt_world.specs.Tale.{Goes};
ghost use Rattle.quilt_near.specs.Budgets.{is_close};
ghost use Rattle.quilt_near.specs.Lines.{Lines};
ghost use Rattle.quilt_near.specs.Knowing.{Knows};
ghost use Rattle.quilt_store.specs.Stops.{IsNotDamage};
ghost use Rattle.quilt_near.specs.Nearest.{IsNearest};
ghost use Rattle.quilt_near.specs.Parts.{IsBlockOpened};
ghost use Rattle.quilt_near.specs.Endings.{EndsLook, EndsSearch};

use crate::blocks::SegBlocks;
use crate::choice::{best_of, is_past, push_quarters};
use crate::known::Known;
use crate::part::Part;
use crate::queue::Queue;
use crate::quotient::Quotient;
use crate::start::first_queue;
use quilt_clip::Frac;
use quilt_store::PageStore;
use quilt_types::{Block, Pixel, Stop};
use std::alloc::Global;

/// Opens a block: its segments are weighed against the best so far, or its quarters wait.
fn open<S: PageStore, B: SegBlocks<S>>(
    alloc: Global,
    blocks: &B,
    store: &mut S,
    queue: &mut Queue,
    known: &mut Known,
    best: Option<(u32, Quotient)>,
    p: Pixel,
    b: Block,
) -> Result<Option<(u32, Quotient)>, Stop>
    requires x { p.x < 8192 }
    requires y { p.y < 8192 }
    requires low { B.level_of blocks.now ≤ 12 }
    requires block { IsBlock (B.level_of blocks.now) b }
    requires reached { (l : Lines) → B.shows blocks.now store.old l → is_reached l.cover b ≡ true }
    requires known { Knows (B.level_of blocks.now) (B.shows blocks.now store.old) (B.marked blocks.now store.old) known.old }
    ensures opened { IfOk result
        (λ now. IsBlockOpened (B.level_of blocks.now) p b (B.shows blocks.now store.old) queue.old queue.new best now (S.reads store.old) (S.reads store.new)) }
    ensures known { OnOk result (Knows (B.level_of blocks.now) (B.shows blocks.now store.old) (B.marked blocks.now store.old) known.new) }
    ensures sound { IfErr result (λ e. (l : Lines) → B.shows blocks.now store.old l → IsNotDamage e) }
    ensures ended { IfErr result (EndsLook (B.looked blocks.now b) store.old store.new) }
    ensures named { IfErr result (B.named blocks.now store.old) }
    ensures left { OnlyReads S.PageStore store.old store.new result }
{
    match blocks.part_known(alloc, store, known, b)? {
        Part::Leaf(list) => Ok(best_of(list.items(), p, best)),
        Part::Split => match push_quarters(queue, p, b) {
            Err(_) => Err(Stop::Memory),
            Ok(()) => Ok(best),
        },
    }
}

/// The best with its distance in lowest terms.
fn reduced(best: Option<(u32, Quotient)>) -> Option<(u32, Frac)>
    ensures { result ≡ best }
{
    let (id, far) = best?;
    Some((id, far.reduced()))
}

/// The segment of least distance from the pixel, of equals the least id, with its distance, and None exactly where there
/// is no segment. It opens no block that is farther than its answer, and none twice, and reads
/// no segment twice. What ends a look at a block ends it, and
/// is answered as it is.
pub fn nearest<S: PageStore, B: SegBlocks<S>>(
    alloc: Global,
    blocks: &B,
    store: &mut S,
    p: Pixel,
) -> Result<Option<(u32, Frac)>, Stop>
    requires x { p.x < 8192 }
    requires y { p.y < 8192 }
    ensures nearest { IfOk result (λ answer. (l : Lines) → B.shows blocks.now store.old l → answer ≡ nearest_of l.segs p) }
    ensures least { IfOk result (λ answer. (l : Lines) → B.shows blocks.now store.old l
        → MatchOption answer (finmap.entries l.segs ≡ []) (IsNearest p (finmap.entries l.segs))) }
    ensures reads { IfOk result (λ answer. (l : Lines) → B.shows blocks.now store.old l
        → IfSome answer (λ a. Goes (λ old new. new ≤ old + reach (B.level_of blocks.now) l.segs l.cover (is_close p a.1)) (S.reads store.old)
        (S.reads store.new))) }
    ensures sound { IfErr result (λ e. (l : Lines) → B.shows blocks.now store.old l → IsNotDamage e) }
    ensures ended { IfErr result (EndsSearch (B.looked blocks.now) store.old store.new) }
    ensures named { IfErr result (B.named blocks.now store.old) }
    ensures left { OnlyReads S.PageStore store.old store.new result }
{
    let mut queue = match first_queue(alloc, blocks, p) {
        Err(_) => return Err(Stop::Memory),
        Ok(queue) => queue,
    };
    let mut known = Known::new(alloc, p);
    let mut best = None;
    while let Some((distance, block)) = queue.pop() {
        if is_past(&best, distance) {
            break;
        }
        best = open(alloc, blocks, store, &mut queue, &mut known, best, p, block)?;
    }
    Ok(reduced(best))
}

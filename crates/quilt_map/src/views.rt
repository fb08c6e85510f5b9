ghost use Rattle.std.specs.Prelude.{◌≡◌, ℕ, ◌+◌, ◌≤◌, true, Some, map, All, IfOk, IfErr, IsNone, IsSome, IfSome};
ghost use Rattle.std.specs.FinMap as finmap;
ghost use Rattle.std.specs.List.Sorted.{IsStrictlyIncreasing};
ghost use Rattle.quilt_types.specs.declared.stop.Stop.TheVariants as stops;
ghost use Rattle.quilt_types.specs.Layers.{SegMap, BlockSet, is_in_square};
ghost use Rattle.quilt_near.specs.Lines.{Lines};
ghost use Rattle.quilt_world.specs.Tale.{Goes};
ghost use Rattle.quilt_store.specs.Calls.{OnlyReads};
ghost use Rattle.quilt_store.specs.Stops.{HasStopCause, IsNotDamage};
ghost use Rattle.quilt_edition.specs.Books.{world_of, work_of};
ghost use Rattle.quilt_replies.specs.States.{Tells};
ghost use Rattle.quilt_map.specs.Asking.{IsStill, reads_in};
ghost use Rattle.quilt_map.specs.LineLayers.{HoldsLines};
ghost use Rattle.quilt_map.specs.Selecting.{layer_asked, is_place, AsksSome, HasFound, IsAnswered, pages_for_answer, selected, selected_over, crossed as crossed_of};
ghost use Rattle.quilt_map.specs.Selecting.{Shows};

use crate::change::DAMAGED;
use crate::lines::LineLayer;
use crate::queries::told;
use crate::regions::tree_of;
use quilt_blocks::LeafList;
use quilt_edition::Book;
use quilt_join::crossings;
use quilt_lines::{LineView, scan};
use quilt_near::{SegBlocks, SegList, nearest};
use quilt_rank::ranked;
use quilt_replies::{Reply, clips_text, ids_text, nearest_text, pairs_text, ranks_text, segs_text};
use quilt_select::{clipped, cross, over};
use quilt_store::PageStore;
use quilt_types::{Code, Seg, Stop};
use quilt_words::Command;
use quilt_world::Disk;
use std::alloc::Global;
use std::thread::Threads;

/// The work's line layer, block by block: None where no layer has its number.
fn view_of<W: Disk>(book: &Book<W>, layer: LineLayer) -> Option<LineView>
    ensures level { IfSome result (λ view. view.level ≡ (work_of book.now).level) }
    ensures shows { IfSome result (λ view. (segs : SegMap) (cover : BlockSet) → HoldsLines book.now layer segs cover →
        Shows book.now view (record { segs = segs; cover = cover })) }
    ensures none { IsNone result → layer.number ≡ 0 }
{
    if layer.number == 0 {
        return None;
    }
    let head = book.head();
    Some(LineView::new(&tree_of(&head), layer.number, head.level))
}

/// The reply to a command that asks for segments by a window or a pixel.
fn select<S: PageStore, B: SegBlocks<S>>(
    alloc: Global,
    blocks: &B,
    store: &mut S,
    command: &Command,
) -> Result<Reply, Stop>
    requires asks { IsSome (layer_asked command.now) }
    requires level { B.level_of blocks.now ≤ 12 }
    requires inside { is_place (B.level_of blocks.now) command.now ≡ true }
    requires some { AsksSome command.now }
    ensures reply { IfOk result (λ reply. (l : Lines) → B.shows blocks.now store.old l → Tells reply (selected command.now l.segs)) }
    ensures reads { IfOk result (λ reply. (l : Lines) → B.shows blocks.now store.old l → HasFound command.now l.segs → IsAnswered reply →
        Goes (λ old new. new ≤ old + pages_for_answer (B.level_of blocks.now) command.now l.segs l.cover) (S.reads store.old) (S.reads store.new)) }
    ensures sound { IfErr result (λ e. (l : Lines) → B.shows blocks.now store.old l → IsNotDamage e) }
    ensures left { OnlyReads S.PageStore store.old store.new result }
{
    match command {
        Command::Cross { w, .. } => {
            let list = cross(alloc, blocks, store, *w)?;
            told(segs_text(alloc, list.items()))
        }
        Command::Clip { w, .. } => {
            let clips = clipped(alloc, blocks, store, *w)?;
            told(clips_text(alloc, clips.items()))
        }
        Command::Nearest { at, .. } => match nearest(alloc, blocks, store, *at) {
            Err(e) => Err(e),
            Ok(None) => Ok(Reply::No(Code::Absent)),
            Ok(Some((id, far))) => told(nearest_text(alloc, id, far)),
        },
        Command::Rank { at, k, .. } => {
            let ranks = ranked(alloc, blocks, store, *at, *k)?;
            if ranks.items().is_empty() {
                return Ok(Reply::No(Code::Absent));
            }
            told(ranks_text(alloc, ranks.items()))
        }
        _ => unreachable!(),
    }
}

/// The reply to a command that asks for segments of the work's line layer by a window or a pixel.
pub(crate) fn select_in<W: Disk>(
    alloc: Global,
    book: &mut Book<W>,
    layer: LineLayer,
    command: &Command,
) -> Result<Reply, Stop>
    requires asks { IsSome (layer_asked command.now) }
    requires inside { is_place (work_of book.old).level command.now ≡ true }
    requires some { AsksSome command.now }
    ensures reply { IfOk result (λ reply. (segs : SegMap) (cover : BlockSet) → HoldsLines book.old layer segs cover → Tells reply (selected command.now segs)) }
    ensures reads { IfOk result (λ reply. (segs : SegMap) (cover : BlockSet) → HoldsLines book.old layer segs cover → HasFound command.now segs →
        IsAnswered reply →
        Goes (λ old new. new ≤ old + pages_for_answer (work_of book.old).level command.now segs cover) (reads_in book.old) (reads_in book.new)) }
    ensures sound { IfErr result (λ e. (segs : SegMap) (cover : BlockSet) → 1 ≤ layer.number → HoldsLines book.old layer segs cover → IsNotDamage e) }
    ensures still { IsStill book.old book.new }
    ensures cause { HasStopCause (W.faults (world_of book.old)) (W.faults (world_of book.new)) result }
{
    match view_of(book, layer) {
        None => Err(DAMAGED),
        Some(view) => select(alloc, &view, book, command),
    }
}

/// The reply that lists the ids of the segments of the work's line layer that meet the square of a coloured pixel.
pub(crate) fn select_over<W: Disk>(
    alloc: Global,
    book: &mut Book<W>,
    layer: LineLayer,
    list: &LeafList,
) -> Result<Reply, Stop>
    requires { list.now.level ≡ (work_of book.old).level }
    ensures reply { IfOk result (λ reply. (segs : SegMap) (cover : BlockSet) → HoldsLines book.old layer segs cover →
        Tells reply (selected_over list.now.level list.now.grid segs)) }
    ensures sound { IfErr result (λ e. (segs : SegMap) (cover : BlockSet) → 1 ≤ layer.number → HoldsLines book.old layer segs cover → IsNotDamage e) }
    ensures still { IsStill book.old book.new }
    ensures cause { HasStopCause (W.faults (world_of book.old)) (W.faults (world_of book.new)) result }
{
    match view_of(book, layer) {
        None => Err(DAMAGED),
        Some(view) => {
            let found = over(alloc, &view, book, list)?;
            told(ids_text(alloc, found.items()))
        }
    }
}

/// The segments of the work's line layer, by id.
pub(crate) fn read_segments<W: Disk>(
    alloc: Global,
    book: &mut Book<W>,
    layer: LineLayer,
) -> Result<SegList, Stop>
    ensures segments { IfOk result (λ list. (segs : SegMap) (cover : BlockSet) → HoldsLines book.old layer segs cover → list ≡ finmap.entries segs) }
    ensures inside { IfOk result (λ list. All (λ e. is_in_square (work_of book.old).level e.1 ≡ true) list) }
    ensures order { IfOk result (λ list. IsStrictlyIncreasing (map (λ e. e.0) list)) }
    ensures sound { IfErr result (λ e. (segs : SegMap) (cover : BlockSet) → 1 ≤ layer.number → HoldsLines book.old layer segs cover → IsNotDamage e) }
    ensures still { IsStill book.old book.new }
    ensures cause { HasStopCause (W.faults (world_of book.old)) (W.faults (world_of book.new)) result }
{
    if layer.number == 0 {
        return Err(DAMAGED);
    }
    let head = book.head();
    scan(alloc, book, &tree_of(&head), layer.number, head.level)
}

/// The reply that lists the pairs of a segment of the first list and one of the second that share a point, by their ids. Each list
/// has segments of the square of a level from 1 to 12, under ids that rise.
pub(crate) fn crossed<R: Threads + Sync>(
    rt: &R,
    alloc: Global,
    level: u8,
    a: &[(u32, Seg)],
    b: &[(u32, Seg)],
) -> Result<Reply, Stop>
    requires level { (1 ≤ level) × (level ≤ 12) }
    requires first_ids { IsStrictlyIncreasing (map (λ e. e.0) a.now) }
    requires second_ids { IsStrictlyIncreasing (map (λ e. e.0) b.now) }
    requires first_ends { All (λ e. is_in_square level e.1 ≡ true) a.now }
    requires second_ends { All (λ e. is_in_square level e.1 ≡ true) b.now }
    ensures reply { IfOk result (λ reply. (first second : SegMap) → finmap.entries first ≡ a.now → finmap.entries second ≡ b.now →
        Tells reply (crossed_of first second)) }
    ensures memory { IfErr result (λ stop. stop ≡ stops.Memory) }
{
    match crossings(rt, alloc, level, a, b) {
        Err(_) => Err(Stop::Memory),
        Ok(None) => Ok(Reply::No(Code::Many)),
        Ok(Some(pairs)) => told(pairs_text(alloc, pairs.items())),
    }
}

/// The reply that lists the pairs of a segment of a list and one of the work's line layer that share a point, by their ids. The list has
/// segments of the work's square, under ids that rise.
pub(crate) fn crossed_with<W: Disk, R: Threads + Sync>(
    rt: &R,
    alloc: Global,
    book: &mut Book<W>,
    a: &SegList,
    layer: LineLayer,
) -> Result<Reply, Stop>
    requires ids { IsStrictlyIncreasing (map (λ e. e.0) a.now) }
    requires ends { All (λ e. is_in_square (work_of book.old).level e.1 ≡ true) a.now }
    ensures reply { IfOk result (λ reply. (first second : SegMap) (cover : BlockSet) → finmap.entries first ≡ a.now → HoldsLines book.old layer second cover →
        Tells reply (crossed_of first second)) }
    ensures sound { IfErr result (λ e. (segs : SegMap) (cover : BlockSet) → 1 ≤ layer.number → HoldsLines book.old layer segs cover → IsNotDamage e) }
    ensures still { IsStill book.old book.new }
    ensures cause { HasStopCause (W.faults (world_of book.old)) (W.faults (world_of book.new)) result }
{
    let b = read_segments(alloc, book, layer)?;
    crossed(rt, alloc, book.head().level, a.items(), b.items())
}

ghost use Rattle.std.specs.Prelude.{◌≡◌, ◌==◌, ◌<◌, ◌≤◌, ◌+◌, ◌↔◌, true, ℕ, IfSome, IsNone, IsSome, IfOk, IfErr, Some, length, count_by, slice_index};
ghost use Rattle.std.specs.FinMap as finmap;
ghost use Rattle.quilt_types.specs.Sets as finset;
ghost use Rattle.quilt_types.specs.declared.plane.Seg.{Seg as AnySeg};
ghost use Rattle.quilt_types.specs.Layers.{Map, Lines, SegMap, BlockSet, is_in_square as is_seg_in_square};
ghost use Rattle.quilt_types.specs.Plane.{side};
ghost use Rattle.quilt_types.specs.Quadtrees.{after_add, after_remove};
ghost use Rattle.quilt_record.specs.Records.{Numbering};
ghost use Rattle.quilt_world.specs.Tale.{Goes};
ghost use Rattle.quilt_store.specs.Stops.{HasStopCause, IsNotDamage};
ghost use Rattle.quilt_edits.specs.Edits.{EditsAscend};
ghost use Rattle.quilt_lines.specs.Plans.{IsLinePlan};
ghost use Rattle.quilt_spell.specs.Catalogued.{IsCatalogOf};
ghost use Rattle.quilt_edition.specs.Books.{world_of, work_of};
ghost use Rattle.quilt_replies.specs.Answers.{State};
ghost use Rattle.quilt_map.specs.Asking.{IsStill, reads_in};
ghost use Rattle.quilt_map.specs.Costs.{layer_block_pages};
ghost use Rattle.quilt_map.specs.LineLayers.{IsLinesAt, IsNoLines, HoldsLines};

use crate::change::DAMAGED;
use crate::regions::{layer_under, tree_of};
use quilt_edition::Book;
use quilt_lines::{block_counts, plan_add, plan_remove};
use quilt_record::{Edits, Entry};
use quilt_types::{Code, Kind, Name, Seg, Stop};
use quilt_world::Disk;
use std::alloc::Global;

/// A line layer: its number and its splitting threshold.
#[derive(Clone, Copy)]
pub(crate) struct LineLayer {
    pub number: u8,
    pub threshold: u8,
}

/// Whether a layer may have this number and this splitting threshold.
pub(crate) fn can_be(layer: LineLayer) -> bool
    ensures yes { result ≡ true → (1 ≤ layer.number) × ((1 ≤ layer.threshold) × (layer.threshold ≤ 32)) }
    ensures no { 1 ≤ layer.number → 1 ≤ layer.threshold → layer.threshold ≤ 32 → result ≡ true }
{
    1 <= layer.number && 1 <= layer.threshold && layer.threshold <= 32
}

/// The line layer with this name, or why there is none.
pub(crate) fn line_number(entries: &[Entry], name: &Name) -> Result<LineLayer, Code>
    ensures found { IfOk result (λ layer. (layers : Map) (numbers : Numbering) → IsCatalogOf layers numbers entries.now →
        IsLinesAt layers numbers name.now layer) }
    ensures refused { IfErr result (λ code. (s : State) (numbers : Numbering) → IsCatalogOf s.work numbers entries.now → IsNoLines s name.now code) }
{
    match layer_under(entries, name) {
        None => Err(Code::Unknown),
        Some((number, Kind::Lines { threshold })) => Ok(LineLayer { number, threshold }),
        Some(_) => Err(Code::Kind),
    }
}

/// The records that go and those that come when a segment comes under an id to the work's line layer: None where the id is there.
/// Both ends are pixels of the square.
pub(crate) fn plan_addition<W: Disk>(
    alloc: Global,
    book: &mut Book<W>,
    layer: LineLayer,
    id: u32,
    s: Seg,
) -> Result<Option<Edits>, Stop>
    requires inside { is_seg_in_square (work_of book.old).level s ≡ true }
    ensures plan { IfOk result (λ o. IfSome o (λ edits. (segs : SegMap) (cover : BlockSet) → HoldsLines book.old layer segs cover →
        IsLinePlan (work_of book.old).level layer.number layer.threshold segs (finmap.insert segs id s) cover
        (after_add layer.threshold (finmap.insert segs id s) cover s) edits)) }
    ensures none { IfOk result (λ o. (segs : SegMap) (cover : BlockSet) → HoldsLines book.old layer segs cover → IsNone o ↔ IsSome (finmap.get segs id)) }
    ensures order { IfOk result (λ o. IfSome o EditsAscend) }
    ensures sound { IfErr result (λ e. (segs : SegMap) (cover : BlockSet) → 1 ≤ layer.number → HoldsLines book.old layer segs cover → IsNotDamage e) }
    ensures still { IsStill book.old book.new }
    ensures cause { HasStopCause (W.faults (world_of book.old)) (W.faults (world_of book.new)) result }
{
    if !can_be(layer) {
        return Err(DAMAGED);
    }
    let head = book.head();
    plan_add(
        alloc,
        book,
        &tree_of(&head),
        layer.number,
        head.level,
        layer.threshold,
        id,
        s,
    )
}

/// The records that go and those that come when the segment of an id goes from the work's line layer: None where the id is not
/// there. Fewer records come than go.
pub(crate) fn plan_removal<W: Disk>(
    alloc: Global,
    book: &mut Book<W>,
    layer: LineLayer,
    id: u32,
) -> Result<Option<Edits>, Stop>
    ensures plan { IfOk result (λ o. IfSome o (λ edits. (segs : SegMap) (cover : BlockSet) →
        HoldsLines book.old layer segs cover → (s : AnySeg) → finmap.get segs id ≡ Some s →
        IsLinePlan (work_of book.old).level layer.number layer.threshold segs (finmap.remove segs id) cover
        (after_remove (work_of book.old).level layer.threshold (finmap.remove segs id) cover s) edits)) }
    ensures none { IfOk result (λ o. (segs : SegMap) (cover : BlockSet) → HoldsLines book.old layer segs cover → IsNone o ↔ IsNone (finmap.get segs id)) }
    ensures fewer { IfOk result (λ o. IfSome o (λ edits. (segs : SegMap) (cover : BlockSet) →
        HoldsLines book.old layer segs cover → length edits.add < length edits.remove)) }
    ensures order { IfOk result (λ o. IfSome o EditsAscend) }
    ensures sound { IfErr result (λ e. (segs : SegMap) (cover : BlockSet) → 1 ≤ layer.number → HoldsLines book.old layer segs cover → IsNotDamage e) }
    ensures still { IsStill book.old book.new }
    ensures cause { HasStopCause (W.faults (world_of book.old)) (W.faults (world_of book.new)) result }
{
    if !can_be(layer) {
        return Err(DAMAGED);
    }
    let head = book.head();
    plan_remove(
        alloc,
        book,
        &tree_of(&head),
        layer.number,
        head.level,
        layer.threshold,
        id,
    )
}

/// How many blocks of each side the work's line layer has: those of side 2 ^ k at place k.
pub(crate) fn line_counts<W: Disk>(book: &mut Book<W>, layer: LineLayer) -> Result<[u32; 13], Stop>
    ensures counts { IfOk result (λ counts. (segs : SegMap) (cover : BlockSet) → HoldsLines book.old layer segs cover →
        (k : ℕ) → k ≤ 12 → slice_index counts k ≡ count_by (λ b. b.side == side k) (finset.items cover)) }
    ensures sound { IfErr result (λ e. (segs : SegMap) (cover : BlockSet) → 1 ≤ layer.number → HoldsLines book.old layer segs cover → IsNotDamage e) }
    ensures still { IsStill book.old book.new }
    ensures cause { HasStopCause (W.faults (world_of book.old)) (W.faults (world_of book.new)) result }
    ensures reads { IfOk result (λ counts. (segs : SegMap) (cover : BlockSet) → HoldsLines book.old layer segs cover →
        Goes (λ old new. new ≤ old + layer_block_pages (work_of book.old).level (Lines layer.threshold segs cover)) (reads_in book.old) (reads_in book.new)) }
{
    if !can_be(layer) {
        return Err(DAMAGED);
    }
    let head = book.head();
    block_counts(book, &tree_of(&head), layer.number, head.level)
}

ghost use Rattle.std.specs.Prelude.{◌≡◌, ◌==◌, true, ℕ, ◌+◌, ◌<◌, ◌≤◌, List, None, IsNone, IfSome, IfOk, IfErr, OnOk, slice_index, count_by};
ghost use Rattle.std.specs.FinMap as finmap;
ghost use Rattle.quilt_types.specs.Layers.{Map, Region, Grid, colour_at as colour_in};
ghost use Rattle.quilt_types.specs.Plane.{side, is_window};
ghost use Rattle.quilt_types.specs.Algebra.{painted};
ghost use Rattle.quilt_types.specs.Quadtrees.{leaves};
ghost use Rattle.quilt_record.specs.declared.record.Record.{Record as AnyRecord};
ghost use Rattle.quilt_record.specs.Records.{Numbering};
ghost use Rattle.quilt_world.specs.Tale.{Goes};
ghost use Rattle.quilt_btree.specs.Floors.{HoldsFirst, ReadsNone};
ghost use Rattle.quilt_store.specs.Stops.{HasStopCause, IsNotDamage};
ghost use Rattle.quilt_btree.specs.Trees.{IsTree};
ghost use Rattle.quilt_region.specs.Regions.{HasRegion};
ghost use Rattle.quilt_region.specs.Plans.{ReplacesGrid};
ghost use Rattle.quilt_region.specs.Covers.{AgreesIn, IsSideOver};
ghost use Rattle.quilt_spell.specs.Catalogued.{IsCatalogOf};
ghost use Rattle.quilt_edition.specs.Books.{world_of, last_of, work_of};
ghost use Rattle.quilt_replies.specs.Answers.{State};
ghost use Rattle.quilt_map.specs.Asking.{IsLayerUnder, IsRegionAt, IsRefusedFirst, IsStill, reads_in, pages_held};
ghost use Rattle.quilt_map.specs.Costs.{show_pages, layer_block_pages};
ghost use Rattle.quilt_map.specs.Sessions.{told_of, tree_in, pages_asked};

use crate::change::DAMAGED;
use crate::entries::index_of;
use quilt_blocks::LeafList;
use quilt_btree::Tree;
use quilt_edition::Book;
use quilt_node::Head;
use quilt_record::{Edits, Entry};
use quilt_region::{colour_at, leaf_counts, plan_rect, plan_replace, read_list, read_window};
use quilt_types::{Code, Colour, Kind, Name, Pixel, Stop, Window};
use quilt_world::Disk;
use std::alloc::Global;

/// The number and the kind of the layer with this name.
pub(crate) fn layer_under(entries: &[Entry], name: &Name) -> Option<(u8, Kind)>
    ensures none { IsNone result → (layers : Map) (numbers : Numbering) → IsCatalogOf layers numbers entries.now → finmap.get layers name.now ≡ None }
    ensures some { IfSome result (λ found. (layers : Map) (numbers : Numbering) → IsCatalogOf layers numbers entries.now
        → IsLayerUnder layers numbers name.now found.0 found.1) }
{
    let i = index_of(entries, name)?;
    Some((entries[i].number, entries[i].kind))
}

/// The number of the region layer with this name, or why there is none.
pub(crate) fn region_number(entries: &[Entry], name: &Name) -> Result<u8, Code>
    ensures found { IfOk result (λ number. (layers : Map) (numbers : Numbering) → IsCatalogOf layers numbers entries.now
        → IsRegionAt layers numbers name.now number) }
    ensures refused { IfErr result (λ code. (s : State) (numbers : Numbering) → IsCatalogOf s.work numbers entries.now → IsRefusedFirst s name.now code) }
{
    match layer_under(entries, name) {
        None => Err(Code::Unknown),
        Some((number, Kind::Region)) => Ok(number),
        Some(_) => Err(Code::Kind),
    }
}

/// The tree of a header.
pub(crate) fn tree_of(head: &Head) -> Tree
    ensures { result ≡ tree_in head.now }
{
    Tree {
        root: head.root,
        height: head.height,
        records: head.records,
    }
}

/// The leaves of the work's region layer with this number.
pub(crate) fn read_region<W: Disk>(
    alloc: Global,
    book: &mut Book<W>,
    number: u8,
) -> Result<LeafList, Stop>
    ensures list { IfOk result (λ list. (g : Grid) → HasRegion (told_of book.old) (tree_in (work_of book.old)) number (work_of book.old).level g
        → list ≡ record { level = (work_of book.old).level; grid = g }) }
    ensures level { IfOk result (λ list. list.level ≡ (work_of book.old).level) }
    ensures number { OnOk result (1 ≤ number) }
    ensures sound { IfErr result (λ e. (g : Grid) → 1 ≤ number
        → HasRegion (told_of book.old) (tree_in (work_of book.old)) number (work_of book.old).level g → IsNotDamage e) }
    ensures still { IsStill book.old book.new }
    ensures cause { HasStopCause (W.faults (world_of book.old)) (W.faults (world_of book.new)) result }
    ensures reads { IfOk result (λ list. (g : Grid) → HasRegion (told_of book.old) (tree_in (work_of book.old)) number (work_of book.old).level g
        → Goes (λ old new. new ≤ old + layer_block_pages (work_of book.old).level (Region g)) (reads_in book.old) (reads_in book.new)) }
{
    if number == 0 {
        return Err(DAMAGED);
    }
    let head = book.head();
    read_list(alloc, book, &tree_of(&head), number, head.level)
}

/// How many leaves of each side the work's region layer with this number has: those of side 2 ^ k at place k.
pub(crate) fn region_counts<W: Disk>(book: &mut Book<W>, number: u8) -> Result<[u32; 13], Stop>
    ensures counts { IfOk result (λ counts. (g : Grid) → HasRegion (told_of book.old) (tree_in (work_of book.old)) number (work_of book.old).level g
        → (k : ℕ) → k ≤ 12 → slice_index counts k ≡ count_by (λ e. e.0.side == side k) (leaves (work_of book.old).level g)) }
    ensures sound { IfErr result (λ e. (g : Grid) → 1 ≤ number
        → HasRegion (told_of book.old) (tree_in (work_of book.old)) number (work_of book.old).level g → IsNotDamage e) }
    ensures still { IsStill book.old book.new }
    ensures cause { HasStopCause (W.faults (world_of book.old)) (W.faults (world_of book.new)) result }
    ensures reads { IfOk result (λ counts. (g : Grid) → HasRegion (told_of book.old) (tree_in (work_of book.old)) number (work_of book.old).level g
        → Goes (λ old new. new ≤ old + layer_block_pages (work_of book.old).level (Region g)) (reads_in book.old) (reads_in book.new)) }
{
    if number == 0 {
        return Err(DAMAGED);
    }
    let head = book.head();
    leaf_counts(book, &tree_of(&head), number, head.level)
}

/// Leaves with the colours of the work's region layer with this number at the pixels of a window. It reads the blocks that
/// meet the window, of the least side that is no less than the window's.
pub(crate) fn read_part<W: Disk>(
    alloc: Global,
    book: &mut Book<W>,
    number: u8,
    w: Window,
) -> Result<LeafList, Stop>
    requires window { is_window (work_of book.old).level w ≡ true }
    ensures list { IfOk result (λ list. (g : Grid) → HasRegion (told_of book.old) (tree_in (work_of book.old)) number (work_of book.old).level g
        → AgreesIn (work_of book.old).level w g list.grid) }
    ensures level { IfOk result (λ list. list.level ≡ (work_of book.old).level) }
    ensures number { OnOk result (1 ≤ number) }
    ensures sound { IfErr result (λ e. (g : Grid) → 1 ≤ number
        → HasRegion (told_of book.old) (tree_in (work_of book.old)) number (work_of book.old).level g → IsNotDamage e) }
    ensures still { IsStill book.old book.new }
    ensures cause { HasStopCause (W.faults (world_of book.old)) (W.faults (world_of book.new)) result }
    ensures reads { IfOk result (λ list. (g : Grid) (s : ℕ) → HasRegion (told_of book.old) (tree_in (work_of book.old)) number (work_of book.old).level g
        → IsSideOver w s → Goes (λ old new. new ≤ old + show_pages (work_of book.old).level g s w) (reads_in book.old) (reads_in book.new)) }
{
    if number == 0 {
        return Err(DAMAGED);
    }
    let head = book.head();
    read_window(alloc, book, &tree_of(&head), number, head.level, w)
}

/// The colour of a pixel of the work's region layer with this number. It reads at most 6 pages.
pub(crate) fn read_colour<W: Disk>(
    book: &mut Book<W>,
    number: u8,
    at: Pixel,
) -> Result<Colour, Stop>
    requires in_x { at.x < side (last_of book.old).level }
    requires in_y { at.y < side (last_of book.old).level }
    ensures colour { IfOk result (λ c. (g : Grid) → HasRegion (told_of book.old) (tree_in (work_of book.old)) number (work_of book.old).level g
        → c.0 ≡ colour_in (work_of book.old).level g at) }
    ensures sound { IfErr result (λ e. (g : Grid) → 1 ≤ number
        → HasRegion (told_of book.old) (tree_in (work_of book.old)) number (work_of book.old).level g → IsNotDamage e) }
    ensures still { IsStill book.old book.new }
    ensures cause { HasStopCause (W.faults (world_of book.old)) (W.faults (world_of book.new)) result }
    ensures reads { Goes (λ old new. new ≤ old + 6) (reads_in book.old) (reads_in book.new) }

    // The pages that it reads are then among the first eight that are held, and where they were, none is read.
    ensures held { OnOk result ((rs : List AnyRecord) → IsTree (told_of book.old) (tree_in (work_of book.old)) rs
        → HoldsFirst (pages_asked number at (work_of book.old)) (told_of book.old) (pages_held book.old) (pages_held book.new)) }
    ensures again { (rs : List AnyRecord) → IsTree (told_of book.old) (tree_in (work_of book.old)) rs
        → ReadsNone (pages_asked number at (work_of book.old)) (told_of book.old) (pages_held book.old) (reads_in book.old) (reads_in book.new) }
{
    if number == 0 {
        return Err(DAMAGED);
    }
    let head = book.head();
    colour_at(book, &tree_of(&head), number, head.level, at)
}

/// The records that go and those that come when a window of the work's region layer with this number gets one colour.
pub(crate) fn plan_paint<W: Disk>(
    alloc: Global,
    book: &mut Book<W>,
    number: u8,
    w: Window,
    c: Colour,
) -> Result<Edits, Stop>
    requires window { is_window (work_of book.old).level w ≡ true }
    ensures plan { IfOk result (λ edits. (g : Grid) → HasRegion (told_of book.old) (tree_in (work_of book.old)) number (work_of book.old).level g →
        ReplacesGrid (work_of book.old).level number g (painted (work_of book.old).level g w c.0) edits) }
    ensures sound { IfErr result (λ e. (g : Grid) → 1 ≤ number
        → HasRegion (told_of book.old) (tree_in (work_of book.old)) number (work_of book.old).level g → IsNotDamage e) }
    ensures still { IsStill book.old book.new }
    ensures cause { HasStopCause (W.faults (world_of book.old)) (W.faults (world_of book.new)) result }
{
    if number == 0 {
        return Err(DAMAGED);
    }
    let head = book.head();
    plan_rect(alloc, book, &tree_of(&head), number, head.level, w, c)
}

/// The records that go and those that come when the work's region layer with this number gets the leaves of a list.
pub(crate) fn plan_redraw<W: Disk>(
    alloc: Global,
    book: &mut Book<W>,
    number: u8,
    new: &LeafList,
) -> Result<Edits, Stop>
    requires level { new.now.level ≡ (work_of book.old).level }
    ensures plan { IfOk result (λ edits. (g : Grid) → HasRegion (told_of book.old) (tree_in (work_of book.old)) number (work_of book.old).level g →
        ReplacesGrid (work_of book.old).level number g new.now.grid edits) }
    ensures sound { IfErr result (λ e. (g : Grid) → 1 ≤ number
        → HasRegion (told_of book.old) (tree_in (work_of book.old)) number (work_of book.old).level g → IsNotDamage e) }
    ensures still { IsStill book.old book.new }
    ensures cause { HasStopCause (W.faults (world_of book.old)) (W.faults (world_of book.new)) result }
{
    let old = read_region(alloc, book, number)?;
    match plan_replace(alloc, number, &old, new) {
        Err(_) => Err(Stop::Memory),
        Ok(edits) => Ok(edits),
    }
}

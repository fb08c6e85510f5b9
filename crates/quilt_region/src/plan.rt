ghost use Rattle.std.specs.Prelude.{◌≡◌, ◌≢◌, ℕ, ◌+◌, ◌*◌, ◌^◌, ◌≤◌, true, IfOk, IfErr, IsErrOf, List, length};
ghost use Rattle.quilt_types.specs.declared.plane.Block.{Block as AnyBlock};
ghost use Rattle.quilt_types.specs.declared.stop.Stop.TheVariants.{Device, Damaged};
ghost use Rattle.quilt_types.specs.Plane.{is_window, IsBlock};
ghost use Rattle.quilt_types.specs.Layers.{Grid, IsGrid};
ghost use Rattle.quilt_types.specs.Algebra.{painted};
ghost use Rattle.quilt_record.specs.declared.record.Record.{Record as AnyRecord};
ghost use Rattle.quilt_record.specs.declared.edits.Edits.{Edits as AnyEdits};
ghost use Rattle.quilt_store.specs.Calls.{OnlyReads};
ghost use Rattle.quilt_world.specs.Tale.{Goes};
ghost use Rattle.quilt_store.specs.Stops.{IsNotDamage};
ghost use Rattle.quilt_btree.specs.Damage.{NamesBad};
ghost use Rattle.quilt_btree.specs.Stops.{NamesPage};
ghost use Rattle.quilt_btree.specs.Trees.{IsRooted, IsTree};
ghost use Rattle.quilt_region.specs.Regions.{HasRegion, SpellsGrid};
ghost use Rattle.quilt_region.specs.Plans.{ReplacesGrid, IsEditedBy, PutsAllRecords};
ghost use Rattle.quilt_region.specs.Windows.{HoldsWindow, IsKnown, KnowsAround, leaves_within, records_within};

use crate::comparison::edits_between;
use crate::fill::fill;
use crate::known::Known;
use crate::lookup::{leaf_with, records_in};
use crate::neighbours::{block_up_to, block_with, other_colour};
use crate::paint::paint;
use crate::quarters::plan_apart;
use quilt_blocks::{Cursor, LeafList};
use quilt_btree::Tree;
use quilt_record::{Edits, Record, RecordList, region_record};
use quilt_store::PageStore;
use quilt_types::{Colour, Pixel, Stop, Window};
use std::alloc::{AllocError, Global};

/// The records that go and those that come when the pixels of a window of the region layer get one colour, each in the
/// order of their codes. It reads the leaf that holds the window, or else those within the smallest block that does, and
/// goes up from there while the quarters beside it are leaves of the new colour (Samet 1990). Where that block is much
/// larger than the window, it reads in each quarter the leaf or the smallest block that holds what the quarter has of the
/// window, if each of these has another colour beside it.
pub fn plan_rect<S: PageStore>(
    alloc: Global,
    store: &mut S,
    tree: &Tree,
    layer: u8,
    level: u8,
    w: Window,
    c: Colour,
) -> Result<Edits, Stop>
    requires rooted { IsRooted (S.size store.old) tree.now }
    requires layer { 1 ≤ layer }
    requires level { (1 ≤ level) × (level ≤ 12) }
    requires window { is_window level w ≡ true }
    ensures plan { IfOk result (λ edits. (g : Grid) → HasRegion (S.told store.old) tree.now layer level g
        → ReplacesGrid level layer g (painted level g w c.0) edits) }
    ensures sound { IfErr result (λ e. (g : Grid) → HasRegion (S.told store.old) tree.now layer level g → IsNotDamage e) }
    ensures zero { IfErr result (λ e. (rs : List AnyRecord) → IsTree (S.told store.old) tree.now rs → NamesPage 1 e) }
    ensures bad { IfErr result (λ e. e ≢ Damaged 0 → NamesBad (S.told store.old) tree.now.height tree.now.root e) }
    ensures left { OnlyReads S.PageStore store.old store.new result }

    // Of the leaves it reads no more than one and those that begin in any one block that has the whole window.
    ensures reads { IfOk result (λ edits. (g : Grid) (b : AnyBlock) → HasRegion (S.told store.old) tree.now layer level g → IsBlock level b
        → HoldsWindow b w → Goes (λ old new. new ≤ old + (15 + 24 * level + 3 * length (leaves_within level g b))) (S.reads store.old) (S.reads store.new)) }
    ensures pixel { w.w ≡ 1 → w.h ≡ 1
        → IfOk result (λ edits. (g : Grid) → HasRegion (S.told store.old) tree.now layer level g
        → Goes (λ old new. new ≤ old + (6 + 24 * level)) (S.reads store.old) (S.reads store.new)) }
{
    if is_one_pixel(w) {
        return plan_pixel(alloc, store, tree, layer, level, w, c);
    }
    match plan_apart(alloc, store, tree, layer, level, w, c)? {
        Some(edits) => Ok(edits),
        None => plan_together(alloc, store, tree, layer, level, w, c),
    }
}

/// Whether the window has one pixel alone.
fn is_one_pixel(w: Window) -> bool
    ensures yes { result ≡ true → (w.w ≡ 1) × (w.h ≡ 1) }
    ensures no { w.w ≡ 1 → w.h ≡ 1 → result ≡ true }
{
    w.w == 1 && w.h == 1
}

/// What `plan_rect` answers for a window of one pixel, whose leaf is all that is read beside what is around it.
fn plan_pixel<S: PageStore>(
    alloc: Global,
    store: &mut S,
    tree: &Tree,
    layer: u8,
    level: u8,
    w: Window,
    c: Colour,
) -> Result<Edits, Stop>
    requires rooted { IsRooted (S.size store.old) tree.now }
    requires layer { 1 ≤ layer }
    requires level { (1 ≤ level) × (level ≤ 12) }
    requires window { is_window level w ≡ true }
    requires wide { w.w ≡ 1 }
    requires high { w.h ≡ 1 }
    ensures plan { IfOk result (λ edits. (g : Grid) → HasRegion (S.told store.old) tree.now layer level g
        → ReplacesGrid level layer g (painted level g w c.0) edits) }
    ensures sound { IfErr result (λ e. (g : Grid) → HasRegion (S.told store.old) tree.now layer level g → IsNotDamage e) }
    ensures zero { IfErr result (λ e. (rs : List AnyRecord) → IsTree (S.told store.old) tree.now rs → NamesPage 1 e) }
    ensures bad { IfErr result (λ e. e ≢ Damaged 0 → NamesBad (S.told store.old) tree.now.height tree.now.root e) }
    ensures left { OnlyReads S.PageStore store.old store.new result }
    ensures reads { IfOk result (λ _. Goes (λ old new. new ≤ old + (6 + 24 * level)) (S.reads store.old) (S.reads store.new)) }
{
    let leaf = leaf_with(store, tree, layer, level, Pixel { x: w.x, y: w.y })?;
    let top = block_up_to(store, tree, layer, level, leaf.block, c)?;
    let known = Known {
        read: leaf.block,
        top,
        around: c,
        elsewhere: other_colour(c, leaf.colour),
    };
    let record = region_record(layer, leaf.block, level, leaf.colour);
    plan_known(alloc, &[record], layer, level, &known, w)
}

/// What `plan_rect` answers where the leaf that holds the window is read, or the smallest block that does.
fn plan_together<S: PageStore>(
    alloc: Global,
    store: &mut S,
    tree: &Tree,
    layer: u8,
    level: u8,
    w: Window,
    c: Colour,
) -> Result<Edits, Stop>
    requires rooted { IsRooted (S.size store.old) tree.now }
    requires layer { 1 ≤ layer }
    requires level { (1 ≤ level) × (level ≤ 12) }
    requires window { is_window level w ≡ true }
    ensures plan { IfOk result (λ edits. (g : Grid) → HasRegion (S.told store.old) tree.now layer level g
        → ReplacesGrid level layer g (painted level g w c.0) edits) }
    ensures sound { IfErr result (λ e. (g : Grid) → HasRegion (S.told store.old) tree.now layer level g → IsNotDamage e) }
    ensures zero { IfErr result (λ e. (rs : List AnyRecord) → IsTree (S.told store.old) tree.now rs → NamesPage 1 e) }
    ensures bad { IfErr result (λ e. e ≢ Damaged 0 → NamesBad (S.told store.old) tree.now.height tree.now.root e) }
    ensures left { OnlyReads S.PageStore store.old store.new result }

    // The levels up to that of the smallest block that has the whole window cost nothing.
    ensures reads { IfOk result (λ edits. (g : Grid) (b : AnyBlock) (j : ℕ) → HasRegion (S.told store.old) tree.now layer level g → IsBlock level b
        → HoldsWindow b w → ((a : AnyBlock) → IsBlock level a → HoldsWindow a w → 2 ^ j ≤ a.side)
        → Goes (λ old new. new + 24 * j ≤ old + (15 + 24 * level + 3 * length (leaves_within level g b))) (S.reads store.old) (S.reads store.new)) }
{
    let known = what_is_around(store, tree, layer, level, w, c)?;
    let records = records_in(alloc, store, tree, layer, level, known.read)?;
    plan_known(alloc, &records, layer, level, &known, w)
}

/// What is to be known of a layer where a window is painted. It reads at most 6 pages, and 24 more for each level.
fn what_is_around<S: PageStore>(
    store: &mut S,
    tree: &Tree,
    layer: u8,
    level: u8,
    w: Window,
    c: Colour,
) -> Result<Known, Stop>
    requires rooted { IsRooted (S.size store.old) tree.now }
    requires layer { 1 ≤ layer }
    requires level { (1 ≤ level) × (level ≤ 12) }
    requires window { is_window level w ≡ true }
    ensures blocks { IfOk result (IsKnown level) }
    ensures colour { IfOk result (λ k. k.around ≡ c) }
    ensures knows { IfOk result (λ k. (g : Grid) → HasRegion (S.told store.old) tree.now layer level g → KnowsAround level g w k) }
    ensures few { IfOk result (λ k. (g : Grid) (a : AnyBlock) → HasRegion (S.told store.old) tree.now layer level g → IsBlock level a
        → HoldsWindow a w → length (leaves_within level g k.read) ≤ 1 + length (leaves_within level g a)) }
    ensures sound { IfErr result (λ e. (g : Grid) → HasRegion (S.told store.old) tree.now layer level g → IsNotDamage e) }
    ensures zero { IfErr result (λ e. (rs : List AnyRecord) → IsTree (S.told store.old) tree.now rs → NamesPage 1 e) }
    ensures bad { IfErr result (λ e. e ≢ Damaged 0 → NamesBad (S.told store.old) tree.now.height tree.now.root e) }
    ensures left { OnlyReads S.PageStore store.old store.new result }
    ensures holds { IfOk result (λ k. HoldsWindow k.read w) }
    ensures reads { IfOk result (λ k. (j : ℕ) → k.read.side ≡ 2 ^ j
        → Goes (λ old new. new + 24 * j ≤ old + (6 + 24 * level)) (S.reads store.old) (S.reads store.new)) }
{
    let (read, first) = block_with(store, tree, layer, level, w)?;
    let top = block_up_to(store, tree, layer, level, read, c)?;
    Ok(Known {
        read,
        top,
        around: c,
        elsewhere: other_colour(c, first),
    })
}

/// The records that go and those that come, where this is known of a layer.
pub fn plan_known(
    alloc: Global,
    records: &[Record],
    layer: u8,
    level: u8,
    known: &Known,
    w: Window,
) -> Result<Edits, Stop>
    requires layer { 1 ≤ layer }
    requires level { (1 ≤ level) × (level ≤ 12) }
    requires window { is_window level w ≡ true }
    requires blocks { IsKnown level known.now }
    ensures plan { IfOk result (λ edits. (g : Grid) → records.now ≡ records_within level layer g known.now.read → KnowsAround level g w known.now
        → ReplacesGrid level layer g (painted level g w known.now.around.0) edits) }
    ensures sound { IfErr result (λ e. (g : Grid) → records.now ≡ records_within level layer g known.now.read → KnowsAround level g w known.now → IsNotDamage e) }
    ensures zero { IfErr result (NamesPage 1) }
    ensures no_fault { IsErrOf result Device → ⊥ }
{
    let old = fill(alloc, records, layer, level, known)?;
    match repaint(alloc, layer, &old, w, known.around) {
        Ok(edits) => Ok(edits),
        Err(_) => Err(Stop::Memory),
    }
}

/// The records that go and those that come when the pixels of a window get one colour.
fn repaint(
    alloc: Global,
    layer: u8,
    old: &LeafList,
    w: Window,
    c: Colour,
) -> Result<Edits, AllocError>
    requires layer { 1 ≤ layer }
    requires window { is_window old.now.level w ≡ true }
    ensures { IfOk result (λ edits. ReplacesGrid old.now.level layer old.now.grid (painted old.now.level old.now.grid w c.0) edits) }
{
    let new = paint(alloc, old, w, c)?;
    plan_replace(alloc, layer, old, &new)
}

/// The records of the leaves of a new region layer, in the order of their codes.
pub fn plan_new(alloc: Global, layer: u8, list: &LeafList) -> Result<Edits, AllocError>
    requires { 1 ≤ layer }
    ensures { IfOk result (λ edits. PutsAllRecords list.now.level layer list.now.grid edits) }
{
    let level = list.level();
    let mut add = RecordList::new(alloc);
    let mut leaves = Cursor::new(list);
    while let Some(leaf) = leaves.next() {
        add.push(&region_record(layer, leaf.block, level, leaf.colour))?;
    }
    Ok(Edits {
        remove: RecordList::new(alloc),
        add,
    })
}

/// The records that go and those that come when a region layer becomes another one of its level: those of the leaves that
/// only the old or only the new one has, in the order of their codes. It walks over both lists in step, so its work grows
/// with their leaves (Samet 1990; Shaffer, Samet and Nelson 1990).
pub fn plan_replace(
    alloc: Global,
    layer: u8,
    old: &LeafList,
    new: &LeafList,
) -> Result<Edits, AllocError>
    requires layer { 1 ≤ layer }
    requires level { old.now.level ≡ new.now.level }
    ensures plan { IfOk result (λ edits. ReplacesGrid old.now.level layer old.now.grid new.now.grid edits) }

    // Such edits turn records that spell the layer as the old grid into records that spell it as the new one.
    ensures law { (n number : ℕ) (g h : Grid) (edits : AnyEdits) (rs now : List AnyRecord) → n ≤ 12 → IsGrid 2 n h → ReplacesGrid n number g h edits
        → SpellsGrid rs number n g → IsEditedBy rs edits now → SpellsGrid now number n h }
{
    edits_between(alloc, layer, old, new)
}

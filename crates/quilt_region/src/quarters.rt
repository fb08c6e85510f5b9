ghost use Rattle.std.specs.Prelude.{◌≡◌, ◌≢◌, ℕ, ◌+◌, ◌*◌, ◌^◌, ◌<◌, ◌≤◌, true, false, ◌++◌, IfOk, IfErr, OnOk, IfSome, IsNone, List, length, take, flat_map};
ghost use Rattle.std.specs.Prelude.{Contains};
ghost use Rattle.std.specs.List.{sum_by};
ghost use Rattle.quilt_types.specs.declared.plane.Pixel.{Pixel as AnyPixel};
ghost use Rattle.quilt_types.specs.declared.plane.Block.{Block as AnyBlock};
ghost use Rattle.quilt_types.specs.declared.stop.Stop.TheVariants.{Damaged};
ghost use Rattle.quilt_types.specs.Plane.{quarters_of, is_window, Holds, IsBlock};
ghost use Rattle.quilt_types.specs.Layers.{Grid};
ghost use Rattle.quilt_types.specs.Algebra.{painted};
ghost use Rattle.quilt_record.specs.declared.record.Record.{Record as AnyRecord};
ghost use Rattle.quilt_store.specs.Calls.{OnlyReads};
ghost use Rattle.quilt_world.specs.Tale.{Goes};
ghost use Rattle.quilt_store.specs.Stops.{IsNotDamage};
ghost use Rattle.quilt_btree.specs.Damage.{NamesBad};
ghost use Rattle.quilt_btree.specs.Stops.{NamesPage};
ghost use Rattle.quilt_btree.specs.Trees.{IsRooted, IsTree};
ghost use Rattle.quilt_region.specs.Regions.{HasRegion};
ghost use Rattle.quilt_region.specs.Plans.{ReplacesGrid, records_without};
ghost use Rattle.quilt_region.specs.Quarters.{InWindow, IsCommonWindow, AreSeveral, records_without_in};
ghost use Rattle.quilt_region.specs.Windows.{HoldsWindow, IsKnown, KnowsAround, leaves_within};

use crate::known::Known;
use crate::lookup::records_in;
use crate::neighbours::{block_around, known_beside};
use crate::plan::plan_known;
use quilt_btree::Tree;
use quilt_edits::edits_of;
use quilt_loc::quarters;
use quilt_record::{Edits, Record};
use quilt_store::PageStore;
use quilt_types::{Block, Colour, Stop, Window};
use std::alloc::{AllocError, Global};

/// The least side of a block whose quarters are looked at one by one. What these looks read is less than what the bound of
/// a plan allows for the way up over so many levels.
const LARGE: u16 = 64;

/// The plan of a window each of whose parts, in the quarters of the smallest block that has it, is painted by itself: none
/// where this block is not much larger than the window, or where what is painted in a quarter may change leaves outside of
/// it. Where it gives none it reads at most 120 pages, and nothing at all where the block is small.
pub fn plan_apart<S: PageStore>(
    alloc: Global,
    store: &mut S,
    tree: &Tree,
    layer: u8,
    level: u8,
    w: Window,
    c: Colour,
) -> Result<Option<Edits>, Stop>
    requires rooted { IsRooted (S.size store.old) tree.now }
    requires layer { 1 ≤ layer }
    requires level { (1 ≤ level) × (level ≤ 12) }
    requires window { is_window level w ≡ true }
    ensures plan { IfOk result
        (λ o. IfSome o (λ edits. (g : Grid) → HasRegion (S.told store.old) tree.now layer level g → ReplacesGrid level layer g (painted level g w c.0) edits)) }
    ensures sound { IfErr result (λ e. (g : Grid) → HasRegion (S.told store.old) tree.now layer level g → IsNotDamage e) }
    ensures zero { IfErr result (λ e. (rs : List AnyRecord) → IsTree (S.told store.old) tree.now rs → NamesPage 1 e) }
    ensures bad { IfErr result (λ e. e ≢ Damaged 0 → NamesBad (S.told store.old) tree.now.height tree.now.root e) }
    ensures left { OnlyReads S.PageStore store.old store.new result }
    ensures large { IfOk result (λ o. IfSome o (λ edits. (a : AnyBlock) → IsBlock level a → HoldsWindow a w → 64 ≤ a.side)) }
    ensures reads { IfOk result
        (λ o. IfSome o (λ edits. (g : Grid) (a : AnyBlock) → HasRegion (S.told store.old) tree.now layer level g → IsBlock level a → HoldsWindow a w
        → Goes (λ old new. new ≤ old + (144 + 3 * length (leaves_within level g a))) (S.reads store.old) (S.reads store.new))) }
    ensures tried { IfOk result (λ o. IsNone o → (j : ℕ) × ((a : AnyBlock) → IsBlock level a → HoldsWindow a w → 2 ^ j ≤ a.side)
        × Goes (λ old new. new ≤ old + 24 * j) (S.reads store.old) (S.reads store.new)) }
{
    let b = block_around(w, level);
    if !is_large(b, w) {
        return Ok(None);
    }
    plan_in_block(alloc, store, tree, layer, level, w, c, b)
}

/// Whether a block is much larger than a window.
fn is_large(b: Block, w: Window) -> bool
    ensures { result ≡ true → 64 ≤ b.side }
{
    LARGE <= b.side && w.w <= b.side / 8 && w.h <= b.side / 8
}

/// The same for the quarters of this block. It reads at most 120 pages where it gives none, and else 144 and 3 for each
/// leaf that begins within the block.
fn plan_in_block<S: PageStore>(
    alloc: Global,
    store: &mut S,
    tree: &Tree,
    layer: u8,
    level: u8,
    w: Window,
    c: Colour,
    b: Block,
) -> Result<Option<Edits>, Stop>
    requires rooted { IsRooted (S.size store.old) tree.now }
    requires layer { 1 ≤ layer }
    requires level { (1 ≤ level) × (level ≤ 12) }
    requires window { is_window level w ≡ true }
    requires block { IsBlock level b }
    requires wide { 1 < b.side }
    requires holds { HoldsWindow b w }
    ensures plan { IfOk result
        (λ o. IfSome o (λ edits. (g : Grid) → HasRegion (S.told store.old) tree.now layer level g → ReplacesGrid level layer g (painted level g w c.0) edits)) }
    ensures sound { IfErr result (λ e. (g : Grid) → HasRegion (S.told store.old) tree.now layer level g → IsNotDamage e) }
    ensures zero { IfErr result (λ e. (rs : List AnyRecord) → IsTree (S.told store.old) tree.now rs → NamesPage 1 e) }
    ensures bad { IfErr result (λ e. e ≢ Damaged 0 → NamesBad (S.told store.old) tree.now.height tree.now.root e) }
    ensures left { OnlyReads S.PageStore store.old store.new result }
    ensures reads { IfOk result
        (λ o. IfSome o (λ edits. (g : Grid) → HasRegion (S.told store.old) tree.now layer level g
        → Goes (λ old new. new ≤ old + (144 + 3 * length (leaves_within level g b))) (S.reads store.old) (S.reads store.new))) }
    ensures tried { IfOk result (λ o. IsNone o → Goes (λ old new. new ≤ old + 120) (S.reads store.old) (S.reads store.new)) }
{
    let mut remove = Vec::new(alloc);
    let mut add = Vec::new(alloc);
    if !plan_quarters(
        alloc,
        store,
        tree,
        layer,
        level,
        w,
        c,
        b,
        4,
        &mut remove,
        &mut add,
    )? {
        return Ok(None);
    }
    let edits = edits_of(remove, add)?;
    Ok(Some(edits))
}

/// Adds the records that go and come in the first so many quarters of a block, or answers that what is painted in one of
/// them may change leaves outside of it. All quarters are looked at before the first is read.
fn plan_quarters<S: PageStore>(
    alloc: Global,
    store: &mut S,
    tree: &Tree,
    layer: u8,
    level: u8,
    w: Window,
    c: Colour,
    b: Block,
    count: usize,
    remove: &mut Vec<Record>,
    add: &mut Vec<Record>,
) -> Result<bool, Stop>
    requires rooted { IsRooted (S.size store.old) tree.now }
    requires layer { 1 ≤ layer }
    requires level { (1 ≤ level) × (level ≤ 12) }
    requires window { is_window level w ≡ true }
    requires block { IsBlock level b }
    requires wide { 1 < b.side }
    requires most { count ≤ 4 }
    ensures remove { IfOk result (λ t. t ≡ true → (g : Grid) → HasRegion (S.told store.old) tree.now layer level g
        → AreSeveral level g (painted level g w c.0) b
        → remove.new.items ≡ remove.old.items ++ flat_map (records_without_in level layer g (painted level g w c.0)) (take count (quarters_of b))) }
    ensures add { IfOk result (λ t. t ≡ true → (g : Grid) → HasRegion (S.told store.old) tree.now layer level g
        → AreSeveral level g (painted level g w c.0) b
        → add.new.items ≡ add.old.items ++ flat_map (records_without_in level layer (painted level g w c.0) g) (take count (quarters_of b))) }
    ensures several { IfOk result (λ t. t ≡ true → (g : Grid) (q : AnyBlock) (p : AnyPixel) → HasRegion (S.told store.old) tree.now layer level g
        → Contains (take count (quarters_of b)) q → Holds q p → InWindow w p → AreSeveral level g (painted level g w c.0) b) }
    ensures sound { IfErr result (λ e. (g : Grid) → HasRegion (S.told store.old) tree.now layer level g → IsNotDamage e) }
    ensures zero { IfErr result (λ e. (rs : List AnyRecord) → IsTree (S.told store.old) tree.now rs → NamesPage 1 e) }
    ensures bad { IfErr result (λ e. e ≢ Damaged 0 → NamesBad (S.told store.old) tree.now.height tree.now.root e) }
    ensures left { OnlyReads S.PageStore store.old store.new result }
    ensures reads { IfOk result (λ t. t ≡ true → (g : Grid) → HasRegion (S.told store.old) tree.now layer level g
        → Goes (λ old new. new ≤ old + (36 * count + 3 * sum_by (λ q. length (leaves_within level g q)) (take count (quarters_of b))))
        (S.reads store.old) (S.reads store.new)) }
    ensures tried { IfOk result (λ t. t ≡ false → Goes (λ old new. new ≤ old + 30 * count) (S.reads store.old) (S.reads store.new)) }
{
    if count == 0 {
        return Ok(true);
    }
    let q = quarters(b)[count - 1];
    let Some(v) = part_in(w, q) else {
        return plan_quarters(
            alloc,
            store,
            tree,
            layer,
            level,
            w,
            c,
            b,
            count - 1,
            remove,
            add,
        );
    };
    let Some(known) = known_beside(store, tree, layer, level, v, c, q.side)? else {
        return Ok(false);
    };
    if !plan_quarters(
        alloc,
        store,
        tree,
        layer,
        level,
        w,
        c,
        b,
        count - 1,
        remove,
        add,
    )? {
        return Ok(false);
    }
    plan_part(alloc, store, tree, layer, level, v, &known, remove, add)?;
    Ok(true)
}

/// Adds the records that go and come where a window is painted around which this is known. It reads at most 6 pages, and 3
/// more for each leaf that begins within the block that is to be read.
fn plan_part<S: PageStore>(
    alloc: Global,
    store: &mut S,
    tree: &Tree,
    layer: u8,
    level: u8,
    w: Window,
    known: &Known,
    remove: &mut Vec<Record>,
    add: &mut Vec<Record>,
) -> Result<(), Stop>
    requires rooted { IsRooted (S.size store.old) tree.now }
    requires layer { 1 ≤ layer }
    requires level { (1 ≤ level) × (level ≤ 12) }
    requires window { is_window level w ≡ true }
    requires blocks { IsKnown level known.now }
    ensures remove { OnOk result ((g : Grid) → HasRegion (S.told store.old) tree.now layer level g → KnowsAround level g w known.now
        → remove.new.items ≡ remove.old.items ++ records_without level layer g (painted level g w known.now.around.0)) }
    ensures add { OnOk result ((g : Grid) → HasRegion (S.told store.old) tree.now layer level g → KnowsAround level g w known.now
        → add.new.items ≡ add.old.items ++ records_without level layer (painted level g w known.now.around.0) g) }
    ensures sound { IfErr result (λ e. (g : Grid) → HasRegion (S.told store.old) tree.now layer level g → KnowsAround level g w known.now → IsNotDamage e) }
    ensures zero { IfErr result (λ e. (rs : List AnyRecord) → IsTree (S.told store.old) tree.now rs → NamesPage 1 e) }
    ensures bad { IfErr result (λ e. e ≢ Damaged 0 → NamesBad (S.told store.old) tree.now.height tree.now.root e) }
    ensures left { OnlyReads S.PageStore store.old store.new result }
    ensures reads { OnOk result ((g : Grid) → HasRegion (S.told store.old) tree.now layer level g
        → Goes (λ old new. new ≤ old + (6 + 3 * length (leaves_within level g known.now.read))) (S.reads store.old) (S.reads store.new)) }
{
    let records = records_in(alloc, store, tree, layer, level, known.read)?;
    let edits = plan_known(alloc, &records, layer, level, known, w)?;
    match add_edits(&edits, remove, add) {
        Err(_) => Err(Stop::Memory),
        Ok(()) => Ok(()),
    }
}

/// Adds the records of edits behind others.
fn add_edits(
    edits: &Edits,
    remove: &mut Vec<Record>,
    add: &mut Vec<Record>,
) -> Result<(), AllocError>
    ensures remove { OnOk result (remove.new.items ≡ remove.old.items ++ edits.now.remove) }
    ensures add { OnOk result (add.new.items ≡ add.old.items ++ edits.now.add) }
{
    remove.extend_from_slice(edits.remove.records())?;
    add.extend_from_slice(edits.add.records())
}

/// What a window has of a block: none where they have no pixel in common.
fn part_in(w: Window, b: Block) -> Option<Window>
    requires width { b.x + b.side ≤ 4096 }
    requires height { b.y + b.side ≤ 4096 }
    requires window_width { w.x + w.w ≤ 4096 }
    requires window_height { w.y + w.h ≤ 4096 }
    ensures some { IfSome result (IsCommonWindow w b) }
    ensures none { IsNone result → (p : AnyPixel) → Holds b p → InWindow w p → ⊥ }
{
    let x = if w.x < b.x { b.x } else { w.x };
    let y = if w.y < b.y { b.y } else { w.y };
    let right = if w.x + w.w < b.x + b.side {
        w.x + w.w
    } else {
        b.x + b.side
    };
    let bottom = if w.y + w.h < b.y + b.side {
        w.y + w.h
    } else {
        b.y + b.side
    };
    if right <= x || bottom <= y {
        return None;
    }
    Some(Window {
        x,
        y,
        w: right - x,
        h: bottom - y,
    })
}

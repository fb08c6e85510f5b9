ghost use Rattle.std.specs.Prelude.{◌≡◌, ℕ, ◌+◌, ◌<◌, ◌≤◌, true, ◌++◌, filter, fold, length, All, Some, IfOk, IfErr, OnOk};
ghost use Rattle.std.specs.Ordering.{nat_cmp};
ghost use Rattle.std.specs.BTreeMap.{IsOrdered};
ghost use Rattle.std.specs.FinMap as finmap;
ghost use Rattle.quilt_types.specs.Plane.{IsBlock, is_window};
ghost use Rattle.quilt_types.specs.Quadtrees.{is_reached, reach};
ghost use Rattle.quilt_store.specs.Calls.{OnlyReads};
ghost use Rattle.quilt_world.specs.Tale.{Goes};
ghost use Rattle.quilt_near.specs.Lines.{Lines};
ghost use Rattle.quilt_near.specs.Knowing.{Knows};
ghost use Rattle.quilt_store.specs.Stops.{IsNotDamage};
ghost use Rattle.quilt_select.specs.Shares.{shares_pixel as shares_of, holds_any, meets_any as meets_any_of};
ghost use Rattle.quilt_select.specs.Descents.{four, with_selected, AfterDescent, IsBlockVisited, IsWidePart};

use crate::stack::Stack;
use quilt_clip::crosses;
use quilt_loc::{quarters, whole_square};
use quilt_near::{Known, Part, SegBlocks, SegList};
use quilt_store::PageStore;
use quilt_types::{Block, Pixel, Seg, Stop, Window};
use std::alloc::{AllocError, Global};
use std::collections::BTreeMap;

/// Whether the block and the window have a pixel in common.
fn shares(b: Block, w: Window) -> bool
    ensures { result ≡ shares_of b w }
{
    (b.x as u32) < w.x as u32 + w.w as u32
        && (w.x as u32) < b.x as u32 + b.side as u32
        && (b.y as u32) < w.y as u32 + w.h as u32
        && (w.y as u32) < b.y as u32 + b.side as u32
}

/// The windows that have a pixel in common with the block.
fn sharing(alloc: Global, near: &[Window], b: Block) -> Result<Vec<Window>, AllocError>
    ensures { IfOk result (λ v. v.items ≡ filter (shares_of b) near.now) }
{
    let mut list = Vec::new(alloc);
    for w in near {
        if shares(b, *w) {
            list.push(*w)?;
        }
    }
    Ok(list)
}

/// Whether the segment meets the closed rectangle of one of the windows.
fn meets_any(s: Seg, near: &[Window]) -> bool
    ensures { result ≡ meets_any_of near.now s }
{
    for w in near {
        if crosses(s, *w) {
            return true;
        }
    }
    false
}

/// Puts those segments of a list that meet one of the windows among the found ones.
fn gather(
    found: &mut BTreeMap<u32, Seg>,
    list: &[(u32, Seg)],
    near: &[Window],
) -> Result<(), AllocError>
    ensures { OnOk result (found.new.entries ≡ fold (with_selected near.now) found.old.entries list.now) }
{
    for (id, s) in list {
        if meets_any(*s, near) {
            found.insert(*id, *s)?;
        }
    }
    Ok(())
}

/// Puts the quarters of a block on the stack, each with its windows.
fn push_quarters(
    alloc: Global,
    stack: &mut Stack,
    b: Block,
    near: &[Window],
) -> Result<(), AllocError>
    requires valid { IsBlock 12 b }
    requires wide { 1 < b.side }
    ensures { OnOk result (stack.new ≡ four b near.now ++ stack.old) }
{
    let [first, right, under, last] = quarters(b);
    stack.push(last, sharing(alloc, near, last)?)?;
    stack.push(under, sharing(alloc, near, under)?)?;
    stack.push(right, sharing(alloc, near, right)?)?;
    stack.push(first, sharing(alloc, near, first)?)?;
    Ok(())
}

/// Puts the segments of a block among the found ones, or its quarters on the stack.
fn take_part(
    alloc: Global,
    stack: &mut Stack,
    found: &mut BTreeMap<u32, Seg>,
    b: Block,
    near: &[Window],
    part: Part,
) -> Result<(), AllocError>
    requires some { 0 < length near.now }
    requires valid { IsBlock 12 b }
    requires wide { IsWidePart b part }
    ensures { OnOk result (AfterDescent b near.now (Some part) stack.old stack.new found.old.entries found.new.entries) }
{
    match part {
        Part::Leaf(list) => gather(found, list.items(), near),
        Part::Split => push_quarters(alloc, stack, b, near),
    }
}

/// Opens a block that came out: its segments are gathered, or its quarters wait. A block without windows stays shut.
fn open<S: PageStore, B: SegBlocks<S>>(
    alloc: Global,
    blocks: &B,
    store: &mut S,
    stack: &mut Stack,
    found: &mut BTreeMap<u32, Seg>,
    known: &mut Known,
    b: Block,
    near: &[Window],
) -> Result<(), Stop>
    requires low { B.level_of blocks.now ≤ 12 }
    requires block { IsBlock (B.level_of blocks.now) b }
    requires reached { (l : Lines) → B.shows blocks.now store.old l → is_reached l.cover b ≡ true }
    requires known { Knows (B.level_of blocks.now) (B.shows blocks.now store.old) (B.marked blocks.now store.old) known.old }
    ensures opened { OnOk result
        (IsBlockVisited b near.now (B.shows blocks.now store.old) stack.old stack.new found.old.entries found.new.entries (S.reads store.old) (S.reads store.new)) }
    ensures known { OnOk result (Knows (B.level_of blocks.now) (B.shows blocks.now store.old) (B.marked blocks.now store.old) known.new) }
    ensures sound { IfErr result (λ e. (l : Lines) → B.shows blocks.now store.old l → IsNotDamage e) }
    ensures named { IfErr result (B.named blocks.now store.old) }
    ensures left { OnlyReads S.PageStore store.old store.new result }
{
    if near.is_empty() {
        return Ok(());
    }
    let part = blocks.part_known(alloc, store, known, b)?;
    match take_part(alloc, stack, found, b, near, part) {
        Err(_) => Err(Stop::Memory),
        Ok(()) => Ok(()),
    }
}

/// The found segments as a list.
fn listed(alloc: Global, found: &BTreeMap<u32, Seg>) -> Result<SegList, AllocError>
    ensures list { IfOk result (λ list. list ≡ found.now.entries) }
    ensures ordered { IsOrdered nat_cmp found.now }
{
    let mut list = SegList::new(alloc);
    for (id, s) in found {
        list.push(*id, *s)?;
    }
    Ok(list)
}

/// The pixel at which the first window begins, where there is one.
fn first_pixel(windows: &[Window]) -> Pixel {
    match windows.first() {
        None => Pixel { x: 0, y: 0 },
        Some(w) => Pixel { x: w.x, y: w.y },
    }
}

/// The segments that meet the closed rectangle of one of the windows, by id. It opens no block without a pixel of a
/// window, and none twice, and reads no segment twice.
pub fn select<S: PageStore, B: SegBlocks<S>>(
    alloc: Global,
    blocks: &B,
    store: &mut S,
    windows: Vec<Window>,
) -> Result<SegList, Stop>
    requires { All (λ w. is_window (B.level_of blocks.now) w ≡ true) windows.items }
    ensures level { B.level_of blocks.now ≤ 12 }
    ensures selected { IfOk result (λ list. (l : Lines) → B.shows blocks.now store.old l
        → list ≡ filter (λ e. meets_any_of windows.items e.1) (finmap.entries l.segs)) }
    ensures reads { IfOk result (λ _. (l : Lines) → B.shows blocks.now store.old l
        → Goes (λ old new. new ≤ old + reach (B.level_of blocks.now) l.segs l.cover (holds_any windows.items)) (S.reads store.old) (S.reads store.new)) }
    ensures sound { IfErr result (λ e. (l : Lines) → B.shows blocks.now store.old l → IsNotDamage e) }
    ensures named { IfErr result (B.named blocks.now store.old) }
    ensures left { OnlyReads S.PageStore store.old store.new result }
{
    let mut known = Known::new(alloc, first_pixel(&windows));
    let mut stack = Stack::new(alloc);
    match stack.push(whole_square(blocks.level()), windows) {
        Err(_) => return Err(Stop::Memory),
        Ok(()) => {}
    }
    let mut found = BTreeMap::new(alloc);
    while let Some((block, near)) = stack.pop() {
        open(
            alloc, blocks, store, &mut stack, &mut found, &mut known, block, &near,
        )?;
    }
    match listed(alloc, &found) {
        Err(_) => Err(Stop::Memory),
        Ok(list) => Ok(list),
    }
}

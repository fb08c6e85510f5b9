ghost use Rattle.std.specs.Prelude.{◌≡◌, ◌+◌, ◌≤◌, true, filter, IfOk, IfErr};
ghost use Rattle.std.specs.FinMap as finmap;
ghost use Rattle.quilt_types.specs.Plane.{is_window};
ghost use Rattle.quilt_types.specs.Segments.{meets};
ghost use Rattle.quilt_types.specs.Quadtrees.{reach};
ghost use Rattle.quilt_store.specs.Calls.{OnlyReads};
ghost use Rattle.quilt_world.specs.Tale.{Goes};
ghost use Rattle.quilt_near.specs.Lines.{Lines};
ghost use Rattle.quilt_store.specs.Stops.{IsNotDamage};
ghost use Rattle.quilt_blocks.specs.Cutting.{leaves_by_code};
ghost use Rattle.quilt_select.specs.Clips.{clips_of as clips_of_list};
ghost use Rattle.quilt_select.specs.Regions.{is_over_grid, has_coloured, coloured_windows as coloured_windows_of};
ghost use Rattle.quilt_select.specs.Shares.{is_touching};

use crate::clips::{ClipList, clips_of};
use crate::descent::select;
use quilt_blocks::{Cursor, LeafList};
use quilt_near::{SegBlocks, SegList};
use quilt_store::PageStore;
use quilt_types::{Block, Colour, Stop, Window};
use std::alloc::{AllocError, Global};

/// The segments that meet the closed window, by id. The window lies in the square. It opens no block whose closed square
/// does not meet the window, and none twice.
pub fn cross<S: PageStore, B: SegBlocks<S>>(
    alloc: Global,
    blocks: &B,
    store: &mut S,
    w: Window,
) -> Result<SegList, Stop>
    requires { is_window (B.level_of blocks.now) w ≡ true }
    ensures cross { IfOk result (λ list. (l : Lines) → B.shows blocks.now store.old l → list ≡ filter (λ e. meets e.1 w) (finmap.entries l.segs)) }
    ensures reads { IfOk result (λ _. (l : Lines) → B.shows blocks.now store.old l
        → Goes (λ old new. new ≤ old + reach (B.level_of blocks.now) l.segs l.cover (is_touching w)) (S.reads store.old) (S.reads store.new)) }
    ensures sound { IfErr result (λ e. (l : Lines) → B.shows blocks.now store.old l → IsNotDamage e) }
    ensures named { IfErr result (B.named blocks.now store.old) }
    ensures left { OnlyReads S.PageStore store.old store.new result }
{
    let mut windows = Vec::new(alloc);
    match windows.push(w) {
        Err(_) => return Err(Stop::Memory),
        Ok(()) => {}
    }
    select(alloc, blocks, store, windows)
}

/// The part of each segment that lies in the closed window, by id, as the fractions of the segment at which it begins and
/// ends. The window lies in the square. It opens no block whose closed square does not meet the window, and none twice.
pub fn clipped<S: PageStore, B: SegBlocks<S>>(
    alloc: Global,
    blocks: &B,
    store: &mut S,
    w: Window,
) -> Result<ClipList, Stop>
    requires { is_window (B.level_of blocks.now) w ≡ true }
    ensures clipped { IfOk result (λ clips. (l : Lines) → B.shows blocks.now store.old l → clips ≡ clips_of_list w (finmap.entries l.segs)) }
    ensures reads { IfOk result (λ _. (l : Lines) → B.shows blocks.now store.old l
        → Goes (λ old new. new ≤ old + reach (B.level_of blocks.now) l.segs l.cover (is_touching w)) (S.reads store.old) (S.reads store.new)) }
    ensures sound { IfErr result (λ e. (l : Lines) → B.shows blocks.now store.old l → IsNotDamage e) }
    ensures named { IfErr result (B.named blocks.now store.old) }
    ensures left { OnlyReads S.PageStore store.old store.new result }
{
    let list = cross(alloc, blocks, store, w)?;
    match clips_of(alloc, list.items(), w) {
        Err(_) => Err(Stop::Memory),
        Ok(clips) => Ok(clips),
    }
}

/// The squares of the leaves whose colour is not 0.
fn coloured_windows(alloc: Global, list: &LeafList) -> Result<Vec<Window>, AllocError>
    ensures { IfOk result (λ v. v.items ≡ coloured_windows_of (leaves_by_code list.now.level list.now.grid)) }
{
    let mut windows = Vec::new(alloc);
    let mut leaves = Cursor::new(list);
    while let Some(leaf) = leaves.next() {
        if leaf.colour != Colour(0) {
            let Block { x, y, side } = leaf.block;
            windows.push(Window {
                x,
                y,
                w: side,
                h: side,
            })?;
        }
    }
    Ok(windows)
}

/// The segments that meet the closed unit square of a pixel of nonzero colour, by id. The list has the level of the
/// lines. It opens no block without such a pixel, and so none that lies in a background block of the list, and none twice.
pub fn over<S: PageStore, B: SegBlocks<S>>(
    alloc: Global,
    blocks: &B,
    store: &mut S,
    list: &LeafList,
) -> Result<SegList, Stop>
    requires { list.now.level ≡ B.level_of blocks.now }
    ensures over { IfOk result (λ found. (l : Lines) → B.shows blocks.now store.old l
        → found ≡ filter (λ e. is_over_grid list.now.level list.now.grid e.1) (finmap.entries l.segs)) }
    ensures reads { IfOk result (λ _. (l : Lines) → B.shows blocks.now store.old l
        → Goes (λ old new. new ≤ old + reach list.now.level l.segs l.cover (has_coloured list.now.level list.now.grid)) (S.reads store.old)
        (S.reads store.new)) }
    ensures sound { IfErr result (λ e. (l : Lines) → B.shows blocks.now store.old l → IsNotDamage e) }
    ensures named { IfErr result (B.named blocks.now store.old) }
    ensures left { OnlyReads S.PageStore store.old store.new result }
{
    match coloured_windows(alloc, list) {
        Err(_) => Err(Stop::Memory),
        Ok(windows) => select(alloc, blocks, store, windows),
    }
}

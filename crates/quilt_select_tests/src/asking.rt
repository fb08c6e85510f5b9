//! The questions on lines, asked of a layer in memory. Each fails where its conditions do not hold, and promises nothing, so
//! that the tests need no facts and are proved in short time.
use quilt_blocks::LeafList;
use quilt_clip::Frac;
use quilt_near::{Even, SegList, nearest};
use quilt_plain::is_window;
use quilt_rank::{RankList, ranked};
use quilt_select::{ClipList, clipped, cross, over};
use quilt_store::MemStore;
use quilt_types::{Pixel, Window};
use std::alloc::Global;
use std::test::Fail;

/// A store of 16 pages.
pub fn new_store(alloc: Global) -> Result<MemStore, Fail> {
    let store = MemStore::new(alloc, 16)?;
    Ok(store)
}

/// The nearest segment and its distance.
pub fn nearest_of(
    alloc: Global,
    layer: &Even,
    store: &mut MemStore,
    p: Pixel,
) -> Result<Option<(u32, Frac)>, Fail> {
    if p.x >= 8192 || p.y >= 8192 {
        return Err(Fail::from("a pixel"));
    }
    let found = nearest(alloc, layer, store, p)?;
    Ok(found)
}

/// The nearest k segments with their distances.
pub fn ranks_of(
    alloc: Global,
    layer: &Even,
    store: &mut MemStore,
    p: Pixel,
    k: u32,
) -> Result<RankList, Fail> {
    if p.x >= 8192 || p.y >= 8192 || k == 0 {
        return Err(Fail::from("a pixel or a number"));
    }
    let list = ranked(alloc, layer, store, p, k)?;
    Ok(list)
}

/// The segments that meet the window.
pub fn cross_of(
    alloc: Global,
    layer: &Even,
    store: &mut MemStore,
    w: Window,
) -> Result<SegList, Fail> {
    if layer.level > 12 || !is_window(layer.level, w) {
        return Err(Fail::from("a window"));
    }
    let list = cross(alloc, layer, store, w)?;
    Ok(list)
}

/// The parts of the segments in the window.
pub fn clips_of(
    alloc: Global,
    layer: &Even,
    store: &mut MemStore,
    w: Window,
) -> Result<ClipList, Fail> {
    if layer.level > 12 || !is_window(layer.level, w) {
        return Err(Fail::from("a window"));
    }
    let list = clipped(alloc, layer, store, w)?;
    Ok(list)
}

/// The segments that meet the region.
pub fn over_of(
    alloc: Global,
    layer: &Even,
    store: &mut MemStore,
    region: &LeafList,
) -> Result<SegList, Fail> {
    if region.level() != layer.level {
        return Err(Fail::from("a level"));
    }
    let list = over(alloc, layer, store, region)?;
    Ok(list)
}

ghost use Rattle.std.specs.Prelude.{◌≡◌, ◌≢◌, ℕ, ◌+◌, ◌*◌, ◌≤◌, true, IfOk, IfErr, OnOk, List, length};
ghost use Rattle.std.specs.List.{sum_by};
ghost use Rattle.quilt_types.specs.declared.plane.Pixel.{Pixel as AnyPixel};
ghost use Rattle.quilt_types.specs.declared.stop.Stop.TheVariants.{Damaged};
ghost use Rattle.quilt_types.specs.Plane.{is_window, side as side_of, Holds, IsBlock};
ghost use Rattle.quilt_types.specs.Layers.{Grid, colour_at};
ghost use Rattle.quilt_loc.specs.Codes.{code_from, code_to};
ghost use Rattle.quilt_record.specs.declared.record.Record.{Record};
ghost use Rattle.quilt_store.specs.Calls.{OnlyReads};
ghost use Rattle.quilt_world.specs.Tale.{Goes};
ghost use Rattle.quilt_store.specs.Stops.{IsNotDamage};
ghost use Rattle.quilt_btree.specs.Damage.{NamesBad};
ghost use Rattle.quilt_btree.specs.Stops.{NamesPage};
ghost use Rattle.quilt_btree.specs.Trees.{IsRooted, IsTree};
ghost use Rattle.quilt_region.specs.Painting.{HasColours};
ghost use Rattle.quilt_region.specs.Regions.{HasRegion};
ghost use Rattle.quilt_region.specs.Windows.{leaves_within};
ghost use Rattle.quilt_region.specs.Covers.{AgreesIn, IsSideOver, window_meets, cover_of, cover_colour, cost_in};

use crate::leaf_records::{put_one, put_records};
use crate::lookup::{leaf_with, records_in};
use quilt_blocks::{LeafList, Maker};
use quilt_btree::Tree;
use quilt_loc::{quarters, whole_square};
use quilt_store::PageStore;
use quilt_types::{Block, Colour, Pixel, Stop, Window};
use std::alloc::Global;

/// A list of leaves over the whole square which has the colours of the region layer with this number, from 1 to 255, at
/// the pixels of a window; the map's level is from 1 to 12. It reads the blocks that meet the window, of the least side
/// that is no less than the window's: at most four, each by one search for the leaf that holds its first pixel and one for
/// the leaves in it, which takes 6 pages and 3 more for each of them.
pub fn read_window<S: PageStore>(
    alloc: Global,
    store: &mut S,
    tree: &Tree,
    layer: u8,
    level: u8,
    w: Window,
) -> Result<LeafList, Stop>
    requires rooted { IsRooted (S.size store.old) tree.now }
    requires layer { 1 ≤ layer }
    requires level { (1 ≤ level) × (level ≤ 12) }
    requires window { is_window level w ≡ true }
    ensures list { IfOk result (λ l. (g : Grid) → HasRegion (S.told store.old) tree.now layer level g → AgreesIn level w g l.grid) }
    ensures level { IfOk result (λ l. l.level ≡ level) }
    ensures sound { IfErr result (λ e. (g : Grid) → HasRegion (S.told store.old) tree.now layer level g → IsNotDamage e) }
    ensures zero { IfErr result (λ e. (rs : List Record) → IsTree (S.told store.old) tree.now rs → NamesPage 1 e) }
    ensures bad { IfErr result (λ e. e ≢ Damaged 0 → NamesBad (S.told store.old) tree.now.height tree.now.root e) }
    ensures left { OnlyReads S.PageStore store.old store.new result }
    ensures reads { IfOk result (λ l. (g : Grid) (s : ℕ) → HasRegion (S.told store.old) tree.now layer level g → IsSideOver w s
        → Goes (λ old new. new ≤ old + sum_by (λ b. 12 + 3 * length (leaves_within level g b)) (cover_of s w)) (S.reads store.old) (S.reads store.new)) }
{
    let side = side_over(w);
    let mut maker = Maker::new(alloc, level);
    let whole = whole_square(level);
    put_window(alloc, store, tree, layer, level, w, side, whole, &mut maker)?;
    Ok(maker.finish())
}

/// The least power of two that is no less than either side of a window.
fn side_over(w: Window) -> u16
    requires wide { 1 ≤ w.w }
    requires width { w.w ≤ 4096 }
    requires height { w.h ≤ 4096 }
    ensures { IsSideOver w result }
{
    let mut side = 1;
    while side < w.w || side < w.h {
        side = 2 * side;
    }
    side
}

/// Puts a block down: the layer's colours in the blocks of this side that meet the window, and the background elsewhere.
fn put_window<S: PageStore>(
    alloc: Global,
    store: &mut S,
    tree: &Tree,
    layer: u8,
    level: u8,
    w: Window,
    side: u16,
    b: Block,
    maker: &mut Maker,
) -> Result<(), Stop>
    requires rooted { IsRooted (S.size store.old) tree.now }
    requires layer { 1 ≤ layer }
    requires level { (1 ≤ level) × (level ≤ 12) }
    requires window { is_window level w ≡ true }
    requires over { IsSideOver w side }
    requires same_level { maker.old.level ≡ level }
    requires block { IsBlock level b }
    requires wide { side ≤ b.side }
    requires next { length maker.old.colours ≡ code_from b }
    ensures level { OnOk result (maker.new.level ≡ level) }
    ensures end { OnOk result (length maker.new.colours ≡ code_to b) }
    ensures colours { OnOk result ((g : Grid) → HasRegion (S.told store.old) tree.now layer level g
        → HasColours level (cover_colour level g side w) maker.old.colours → HasColours level (cover_colour level g side w) maker.new.colours) }
    ensures sound { IfErr result (λ e. (g : Grid) → HasRegion (S.told store.old) tree.now layer level g → IsNotDamage e) }
    ensures zero { IfErr result (λ e. (rs : List Record) → IsTree (S.told store.old) tree.now rs → NamesPage 1 e) }
    ensures bad { IfErr result (λ e. e ≢ Damaged 0 → NamesBad (S.told store.old) tree.now.height tree.now.root e) }
    ensures left { OnlyReads S.PageStore store.old store.new result }
    ensures reads { OnOk result ((g : Grid) → HasRegion (S.told store.old) tree.now layer level g
        → Goes (λ old new. new ≤ old + cost_in level g (cover_of side w) b) (S.reads store.old) (S.reads store.new)) }
{
    if !meets(w, b) {
        return put_one(maker, b, Colour(0));
    }
    if b.side == side {
        return put_read(alloc, store, tree, layer, level, b, maker);
    }
    for q in quarters(b) {
        put_window(alloc, store, tree, layer, level, w, side, q, maker)?;
    }
    Ok(())
}

/// Puts a block down with the layer's colours: that of the leaf that holds the block, or those of the leaves in it. It
/// reads at most 12 pages, and 3 more for each leaf in it.
fn put_read<S: PageStore>(
    alloc: Global,
    store: &mut S,
    tree: &Tree,
    layer: u8,
    level: u8,
    b: Block,
    maker: &mut Maker,
) -> Result<(), Stop>
    requires rooted { IsRooted (S.size store.old) tree.now }
    requires layer { 1 ≤ layer }
    requires level { (1 ≤ level) × (level ≤ 12) }
    requires same_level { maker.old.level ≡ level }
    requires block { IsBlock level b }
    requires next { length maker.old.colours ≡ code_from b }
    ensures level { OnOk result (maker.new.level ≡ level) }
    ensures end { OnOk result (length maker.new.colours ≡ code_to b) }
    ensures colours { OnOk result ((g : Grid) (f : AnyPixel → ℕ) → HasRegion (S.told store.old) tree.now layer level g
        → ((p : AnyPixel) → Holds b p → f p ≡ colour_at level g p) → HasColours level f maker.old.colours → HasColours level f maker.new.colours) }
    ensures sound { IfErr result (λ e. (g : Grid) → HasRegion (S.told store.old) tree.now layer level g → IsNotDamage e) }
    ensures zero { IfErr result (λ e. (rs : List Record) → IsTree (S.told store.old) tree.now rs → NamesPage 1 e) }
    ensures bad { IfErr result (λ e. e ≢ Damaged 0 → NamesBad (S.told store.old) tree.now.height tree.now.root e) }
    ensures left { OnlyReads S.PageStore store.old store.new result }
    ensures reads { OnOk result ((g : Grid) → HasRegion (S.told store.old) tree.now layer level g
        → Goes (λ old new. new ≤ old + (12 + 3 * length (leaves_within level g b))) (S.reads store.old) (S.reads store.new)) }
{
    let leaf = leaf_with(store, tree, layer, level, Pixel { x: b.x, y: b.y })?;
    if b.side <= leaf.block.side {
        return put_one(maker, b, leaf.colour);
    }
    let records = records_in(alloc, store, tree, layer, level, b)?;
    put_records(maker, &records, layer, level, b)
}

/// Whether a window and a block have a pixel in common.
fn meets(w: Window, b: Block) -> bool
    requires width { b.x + b.side ≤ 4096 }
    requires height { b.y + b.side ≤ 4096 }
    requires window_width { w.x + w.w ≤ 4096 }
    requires window_height { w.y + w.h ≤ 4096 }
    ensures { result ≡ window_meets w b }
{
    b.x < w.x + w.w && w.x < b.x + b.side && b.y < w.y + w.h && w.y < b.y + b.side
}

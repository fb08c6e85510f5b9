ghost use Rattle.std.specs.Prelude.{◌≡◌, ◌≢◌, ℕ, true, Option, Some, ◌+◌, ◌*◌, ◌<◌, ◌≤◌, IfOk, IfErr, IsErrOf, OnOk, List, length};
ghost use Rattle.quilt_record.specs.declared.record.Record.{Record};
ghost use Rattle.quilt_types.specs.declared.stop.Stop.TheVariants.{Damaged, Device};
ghost use Rattle.quilt_types.specs.Plane.{side, in_block, IsBlock};
ghost use Rattle.quilt_types.specs.Layers.{Grid, colour_at as colour_in};
ghost use Rattle.quilt_store.specs.Calls.{OnlyReads};
ghost use Rattle.quilt_world.specs.Tale.{Goes};
ghost use Rattle.quilt_blocks.specs.Cutting.{leaves_by_code, leaf_pair};
ghost use Rattle.quilt_btree.specs.declared.tree.Tree.{Tree as AnyTree};
ghost use Rattle.quilt_btree.specs.Lists.{floor_of};
ghost use Rattle.quilt_btree.specs.Floors.{floor_pages, HoldsFirst, ReadsNone};
ghost use Rattle.quilt_btree.specs.Damage.{NamesBad};
ghost use Rattle.quilt_btree.specs.Stops.{NamesPage};
ghost use Rattle.quilt_store.specs.Stops.{IsNotDamage};
ghost use Rattle.quilt_btree.specs.Trees.{IsRooted, IsTree};
ghost use Rattle.quilt_region.specs.Answered.{IsColourFound};
ghost use Rattle.quilt_spell.specs.OfLayer.{leaf_record};
ghost use Rattle.quilt_region.specs.Regions.{HasRegion, pixel_key};
ghost use Rattle.quilt_region.specs.Windows.{IsLeafWith, records_within, leaves_within};

use crate::bounds::{first_key, last_key};
use crate::leaf_records::{DAMAGED, leaf_of, list_of};
use quilt_blocks::{Leaf, LeafList};
use quilt_btree::Tree;
use quilt_loc::{code_of, covers, end_of};
use quilt_record::{Key, Record as LeafRecord};
use quilt_store::PageStore;
use quilt_types::{Block, Colour, Pixel, Stop};
use std::alloc::Global;

/// The leaves of the region layer with this number, from 1 to 255, of a map of this level, from 1 to 12. It reads the
/// records of the layer once, and its memory and work grow with their number.
pub fn read_list<S: PageStore>(
    alloc: Global,
    store: &mut S,
    tree: &Tree,
    layer: u8,
    level: u8,
) -> Result<LeafList, Stop>
    requires rooted { IsRooted (S.size store.old) tree.now }
    requires layer { 1 ≤ layer }
    requires level { (1 ≤ level) × (level ≤ 12) }
    ensures list { IfOk result (λ l. (g : Grid) → HasRegion (S.told store.old) tree.now layer level g → l ≡ record { level = level; grid = g }) }
    ensures level { IfOk result (λ l. l.level ≡ level) }
    ensures sound { IfErr result (λ e. (g : Grid) → HasRegion (S.told store.old) tree.now layer level g → IsNotDamage e) }
    ensures zero { IfErr result (λ e. (rs : List Record) → IsTree (S.told store.old) tree.now rs → NamesPage 1 e) }
    ensures bad { IfErr result (λ e. e ≢ Damaged 0 → NamesBad (S.told store.old) tree.now.height tree.now.root e) }
    ensures left { OnlyReads S.PageStore store.old store.new result }
    ensures reads { IfOk result (λ l. (g : Grid) → HasRegion (S.told store.old) tree.now layer level g
        → Goes (λ old new. new ≤ old + 6 + 3 * length (leaves_by_code level g)) (S.reads store.old) (S.reads store.new)) }
{
    let first = first_key(layer);
    let last = last_key(layer);
    let records = tree.range(alloc, store, &first, &last, u32::MAX)?;
    list_of(alloc, &records, layer, level)
}

/// The colour of a pixel of the region layer with this number, from 1 to 255, of a map of this level, from 1 to 12. It
/// reads at most 6 pages, those of one search for a key, and none of them again where they are among the first eight
/// that the store holds. Page 0 is said to be damaged where the last record up to the pixel is no leaf around it.
pub fn colour_at<S: PageStore>(
    store: &mut S,
    tree: &Tree,
    layer: u8,
    level: u8,
    p: Pixel,
) -> Result<Colour, Stop>
    requires rooted { IsRooted (S.size store.old) tree.now }
    requires layer { 1 ≤ layer }
    requires level { (1 ≤ level) × (level ≤ 12) }
    requires in_x { p.x < side level }
    requires in_y { p.y < side level }
    ensures colour { IfOk result (λ c. (g : Grid) → HasRegion (S.told store.old) tree.now layer level g → c.0 ≡ colour_in level g p) }
    ensures answered { IfOk result (λ c. (rs : List Record) → IsTree (S.told store.old) tree.now rs → IsColourFound level layer rs p c.0) }
    ensures sound { IfErr result (λ e. (g : Grid) → HasRegion (S.told store.old) tree.now layer level g → IsNotDamage e) }
    ensures zero { IfErr result (λ e. (rs : List Record) → IsTree (S.told store.old) tree.now rs → NamesPage 1 e) }
    ensures bad { IfErr result (λ e. e ≢ Damaged 0 → NamesBad (S.told store.old) tree.now.height tree.now.root e) }
    ensures left { OnlyReads S.PageStore store.old store.new result }
    ensures reads { Goes (λ old new. new ≤ old + 6) (S.reads store.old) (S.reads store.new) }
    ensures held { OnOk result ((rs : List Record) → IsTree (S.told store.old) tree.now rs
        → HoldsFirst (λ pages. floor_pages pages (pixel_key layer p) tree.now.height tree.now.root) (S.told store.old) (S.held store.old) (S.held store.new)) }
    ensures again { (rs : List Record) → IsTree (S.told store.old) tree.now rs
        → ReadsNone (λ pages. floor_pages pages (pixel_key layer p) tree.now.height tree.now.root) (S.told store.old) (S.held store.old)
        (S.reads store.old) (S.reads store.new) }
{
    let leaf = leaf_with(store, tree, layer, level, p)?;
    Ok(leaf.colour)
}

/// The leaf of the region layer that holds a pixel. It reads at most 6 pages, those of one search for a key.
pub(crate) fn leaf_with<S: PageStore>(
    store: &mut S,
    tree: &Tree,
    layer: u8,
    level: u8,
    p: Pixel,
) -> Result<Leaf, Stop>
    requires rooted { IsRooted (S.size store.old) tree.now }
    requires layer { 1 ≤ layer }
    requires level { (1 ≤ level) × (level ≤ 12) }
    requires in_x { p.x < side level }
    requires in_y { p.y < side level }
    ensures leaf { IfOk result (λ l. (g : Grid) → HasRegion (S.told store.old) tree.now layer level g → IsLeafWith level g p (leaf_pair l)) }
    ensures block { IfOk result (λ l. IsBlock level l.block) }
    ensures holds { IfOk result (λ l. in_block l.block p ≡ true) }
    ensures row { IfOk result (λ l. (rs : List Record) → IsTree (S.told store.old) tree.now rs
        → floor_of (pixel_key layer p) rs ≡ Some (leaf_record level layer (leaf_pair l))) }
    ensures sound { IfErr result (λ e. (g : Grid) → HasRegion (S.told store.old) tree.now layer level g → IsNotDamage e) }
    ensures zero { IfErr result (λ e. (rs : List Record) → IsTree (S.told store.old) tree.now rs → NamesPage 1 e) }
    ensures bad { IfErr result (λ e. e ≢ Damaged 0 → NamesBad (S.told store.old) tree.now.height tree.now.root e) }
    ensures left { OnlyReads S.PageStore store.old store.new result }
    ensures reads { Goes (λ old new. new ≤ old + 6) (S.reads store.old) (S.reads store.new) }
    ensures held { OnOk result ((rs : List Record) → IsTree (S.told store.old) tree.now rs
        → HoldsFirst (λ pages. floor_pages pages (pixel_key layer p) tree.now.height tree.now.root) (S.told store.old) (S.held store.old) (S.held store.new)) }
    ensures again { (rs : List Record) → IsTree (S.told store.old) tree.now rs
        → ReadsNone (λ pages. floor_pages pages (pixel_key layer p) tree.now.height tree.now.root) (S.told store.old) (S.held store.old)
        (S.reads store.old) (S.reads store.new) }
{
    let k = key_with(layer, p);
    let found = tree.floor(store, &k)?;
    leaf_said(found, layer, level, p)
}

/// The leaf of the region layer that holds a pixel, where the last record up to the pixel is that leaf's.
fn leaf_said(found: Option<LeafRecord>, layer: u8, level: u8, p: Pixel) -> Result<Leaf, Stop>
    requires layer { 1 ≤ layer }
    requires level { (1 ≤ level) × (level ≤ 12) }
    requires in_x { p.x < side level }
    requires in_y { p.y < side level }
    ensures leaf { IfOk result (λ l. (told : Option (List (List ℕ))) (t : AnyTree) (g : Grid)
        → ((rs : List Record) → IsTree told t rs → found ≡ floor_of (pixel_key layer p) rs) → HasRegion told t layer level g
        → IsLeafWith level g p (leaf_pair l)) }
    ensures block { IfOk result (λ l. IsBlock level l.block) }
    ensures holds { IfOk result (λ l. in_block l.block p ≡ true) }
    ensures row { IfOk result (λ l. found ≡ Some (leaf_record level layer (leaf_pair l))) }
    ensures sound { IfErr result (λ e. (told : Option (List (List ℕ))) (t : AnyTree) (g : Grid)
        → ((rs : List Record) → IsTree told t rs → found ≡ floor_of (pixel_key layer p) rs) → HasRegion told t layer level g → IsNotDamage e) }
    ensures zero { IfErr result (NamesPage 1) }
    ensures no_fault { IsErrOf result Device → ⊥ }
{
    let Some(r) = found else {
        return Err(DAMAGED);
    };
    match leaf_of(&r, layer, level) {
        Some(leaf) if covers(leaf.block, p) => Ok(leaf),
        _ => Err(DAMAGED),
    }
}

/// The records of the leaves of the region layer that begin within a block. It reads at most 6 pages, and 3 more for each
/// of them.
pub(crate) fn records_in<S: PageStore>(
    alloc: Global,
    store: &mut S,
    tree: &Tree,
    layer: u8,
    level: u8,
    b: Block,
) -> Result<Vec<LeafRecord>, Stop>
    requires rooted { IsRooted (S.size store.old) tree.now }
    requires layer { 1 ≤ layer }
    requires level { (1 ≤ level) × (level ≤ 12) }
    requires block { IsBlock level b }
    ensures records { IfOk result (λ records. (g : Grid) → HasRegion (S.told store.old) tree.now layer level g
        → records.items ≡ records_within level layer g b) }
    ensures sound { IfErr result (λ e. (g : Grid) → HasRegion (S.told store.old) tree.now layer level g → IsNotDamage e) }
    ensures zero { IfErr result (λ e. (rs : List Record) → IsTree (S.told store.old) tree.now rs → NamesPage 1 e) }
    ensures bad { IfErr result (λ e. e ≢ Damaged 0 → NamesBad (S.told store.old) tree.now.height tree.now.root e) }
    ensures left { OnlyReads S.PageStore store.old store.new result }
    ensures reads { IfOk result (λ records. (g : Grid) → HasRegion (S.told store.old) tree.now layer level g
        → Goes (λ old new. new ≤ old + 6 + 3 * length (leaves_within level g b)) (S.reads store.old) (S.reads store.new)) }
{
    let low = Key {
        layer: u16::from(layer),
        part: 1,
        code: code_of(Pixel { x: b.x, y: b.y }),
        depth: 0,
        item: 0,
    };
    let high = Key {
        layer: u16::from(layer),
        part: 1,
        code: end_of(b) - 1,
        depth: u8::MAX,
        item: u32::MAX,
    };
    tree.range(alloc, store, &low, &high, u32::MAX)
}

/// The key at or before which the record of the leaf that holds the pixel is the last one. Coordinates are below 4096.
fn key_with(layer: u8, p: Pixel) -> Key
    requires in_x { p.x < 4096 }
    requires in_y { p.y < 4096 }
    ensures { result ≡ pixel_key layer p }
{
    Key {
        layer: u16::from(layer),
        part: 1,
        code: code_of(p),
        depth: u8::MAX,
        item: u32::MAX,
    }
}

ghost use Rattle.std.specs.Prelude.{◌≡◌, ◌≢◌, ℕ, ◌+◌, ◌*◌, ◌^◌, ◌<◌, ◌≤◌, true, false, List, length, Contains, IfOk, IfErr, IfSome};
ghost use Rattle.quilt_types.specs.declared.plane.Block.{Block as AnyBlock};
ghost use Rattle.quilt_types.specs.declared.stop.Stop.TheVariants.{Damaged};
ghost use Rattle.quilt_types.specs.Plane.{parent_of, side as side_of, is_window, IsBlock, Within};
ghost use Rattle.quilt_types.specs.Layers.{Grid, colour_at};
ghost use Rattle.quilt_types.specs.Quadtrees.{leaves};
ghost use Rattle.quilt_record.specs.declared.record.Record.{Record};
ghost use Rattle.quilt_store.specs.Calls.{OnlyReads};
ghost use Rattle.quilt_world.specs.Tale.{Goes};
ghost use Rattle.quilt_store.specs.Stops.{IsNotDamage};
ghost use Rattle.quilt_btree.specs.Damage.{NamesBad};
ghost use Rattle.quilt_btree.specs.Stops.{NamesPage};
ghost use Rattle.quilt_btree.specs.Trees.{IsRooted, IsTree};
ghost use Rattle.quilt_region.specs.Regions.{HasRegion};
ghost use Rattle.quilt_region.specs.Windows.{HoldsWindow, HasAround, IsCutOut, IsKnown, KnowsAround, leaves_within};

use crate::known::Known;
use crate::lookup::leaf_with;
use quilt_blocks::Leaf;
use quilt_btree::Tree;
use quilt_loc::{parent, quarters};
use quilt_store::PageStore;
use quilt_types::{Block, Colour, Pixel, Stop, Window};

/// Whether all pixels of a window are the block's.
fn holds_window(b: Block, w: Window) -> bool
    requires width { b.x + b.side ≤ 4096 }
    requires height { b.y + b.side ≤ 4096 }
    requires window_width { w.x + w.w ≤ 4096 }
    requires window_height { w.y + w.h ≤ 4096 }
    ensures yes { result ≡ true → HoldsWindow b w }
    ensures no { result ≡ false → HoldsWindow b w → ⊥ }
{
    b.x <= w.x && w.x + w.w <= b.x + b.side && b.y <= w.y && w.y + w.h <= b.y + b.side
}

/// The smallest block that has all pixels of a window.
pub fn block_around(w: Window, level: u8) -> Block
    requires level { (1 ≤ level) × (level ≤ 12) }
    requires window { is_window level w ≡ true }
    ensures valid { IsBlock level result }
    ensures holds { HoldsWindow result w }
    ensures least { (b : AnyBlock) → IsBlock level b → HoldsWindow b w → Within result b }
{
    let mut b = Block {
        x: w.x,
        y: w.y,
        side: 1,
    };
    while !holds_window(b, w) {
        let Some(larger) = parent(b, level) else {
            return b;
        };
        b = larger;
    }
    b
}

/// A block that has all pixels of a window, and lies in no larger one of one colour: the leaf that holds the window, or
/// else the smallest block that does; and the colour of the window's first pixel. It reads at most 6 pages.
pub fn block_with<S: PageStore>(
    store: &mut S,
    tree: &Tree,
    layer: u8,
    level: u8,
    w: Window,
) -> Result<(Block, Colour), Stop>
    requires rooted { IsRooted (S.size store.old) tree.now }
    requires layer { 1 ≤ layer }
    requires level { (1 ≤ level) × (level ≤ 12) }
    requires window { is_window level w ≡ true }
    ensures block { IfOk result (λ r. IsBlock level r.0) }
    ensures holds { IfOk result (λ r. HoldsWindow r.0 w) }
    ensures cut_out { IfOk result (λ r. (g : Grid) → HasRegion (S.told store.old) tree.now layer level g → IsCutOut level g r.0) }
    ensures first { IfOk result (λ r. (g : Grid) → HasRegion (S.told store.old) tree.now layer level g
        → r.1.0 ≡ colour_at level g (record { x = w.x; y = w.y })) }
    ensures few { IfOk result (λ r. (g : Grid) (a : AnyBlock) → HasRegion (S.told store.old) tree.now layer level g → IsBlock level a
        → HoldsWindow a w → length (leaves_within level g r.0) ≤ 1 + length (leaves_within level g a)) }
    ensures sound { IfErr result (λ e. (g : Grid) → HasRegion (S.told store.old) tree.now layer level g → IsNotDamage e) }
    ensures zero { IfErr result (λ e. (rs : List Record) → IsTree (S.told store.old) tree.now rs → NamesPage 1 e) }
    ensures bad { IfErr result (λ e. e ≢ Damaged 0 → NamesBad (S.told store.old) tree.now.height tree.now.root e) }
    ensures left { OnlyReads S.PageStore store.old store.new result }
    ensures reads { Goes (λ old new. new ≤ old + 6) (S.reads store.old) (S.reads store.new) }
{
    let leaf = leaf_with(store, tree, layer, level, Pixel { x: w.x, y: w.y })?;
    if holds_window(leaf.block, w) {
        return Ok((leaf.block, leaf.colour));
    }
    Ok((block_around(w, level), leaf.colour))
}

/// Whether the other quarters of a larger block than this one are leaves of this colour. It reads at most 24 pages.
fn has_around<S: PageStore>(
    store: &mut S,
    tree: &Tree,
    layer: u8,
    level: u8,
    b: Block,
    larger: Block,
    c: Colour,
) -> Result<bool, Stop>
    requires rooted { IsRooted (S.size store.old) tree.now }
    requires layer { 1 ≤ layer }
    requires level { (1 ≤ level) × (level ≤ 12) }
    requires block { IsBlock level b }
    requires small { b.side < side_of level }
    requires larger { larger ≡ parent_of b }
    ensures yes { IfOk result (λ t. t ≡ true → (g : Grid) → HasRegion (S.told store.old) tree.now layer level g → HasAround level g larger b c.0) }
    ensures cut_out { IfOk result (λ t. t ≡ true → (g : Grid) → HasRegion (S.told store.old) tree.now layer level g → IsCutOut level g larger) }
    ensures no { IfOk result (λ t. t ≡ false → (g : Grid) → HasRegion (S.told store.old) tree.now layer level g → IsCutOut level g b
        → HasAround level g larger b c.0 → ⊥) }
    ensures sound { IfErr result (λ e. (g : Grid) → HasRegion (S.told store.old) tree.now layer level g → IsNotDamage e) }
    ensures zero { IfErr result (λ e. (rs : List Record) → IsTree (S.told store.old) tree.now rs → NamesPage 1 e) }
    ensures bad { IfErr result (λ e. e ≢ Damaged 0 → NamesBad (S.told store.old) tree.now.height tree.now.root e) }
    ensures left { OnlyReads S.PageStore store.old store.new result }
    ensures reads { Goes (λ old new. new ≤ old + 24) (S.reads store.old) (S.reads store.new) }
{
    for q in quarters(larger) {
        if !has_quarter(store, tree, layer, level, b, q, c)? {
            return Ok(false);
        }
    }
    Ok(true)
}

/// Whether a block is the other one, or a leaf of this colour. It reads at most 6 pages.
fn has_quarter<S: PageStore>(
    store: &mut S,
    tree: &Tree,
    layer: u8,
    level: u8,
    b: Block,
    q: Block,
    c: Colour,
) -> Result<bool, Stop>
    requires rooted { IsRooted (S.size store.old) tree.now }
    requires layer { 1 ≤ layer }
    requires level { (1 ≤ level) × (level ≤ 12) }
    requires block { IsBlock level q }
    ensures yes { IfOk result (λ t. t ≡ true → (g : Grid) → HasRegion (S.told store.old) tree.now layer level g → (q ≡ b → ⊥)
        → Contains (leaves level g) (q, c.0)) }
    ensures no { IfOk result (λ t. t ≡ false → (g : Grid) → HasRegion (S.told store.old) tree.now layer level g
        → (q ≡ b → ⊥) × (Contains (leaves level g) (q, c.0) → ⊥)) }
    ensures sound { IfErr result (λ e. (g : Grid) → HasRegion (S.told store.old) tree.now layer level g → IsNotDamage e) }
    ensures zero { IfErr result (λ e. (rs : List Record) → IsTree (S.told store.old) tree.now rs → NamesPage 1 e) }
    ensures bad { IfErr result (λ e. e ≢ Damaged 0 → NamesBad (S.told store.old) tree.now.height tree.now.root e) }
    ensures left { OnlyReads S.PageStore store.old store.new result }
    ensures reads { Goes (λ old new. new ≤ old + 6) (S.reads store.old) (S.reads store.new) }
{
    if q == b {
        return Ok(true);
    }
    let leaf = leaf_with(store, tree, layer, level, Pixel { x: q.x, y: q.y })?;
    Ok(
        leaf == (Leaf {
            block: q,
            colour: c,
        }),
    )
}

/// The block around this one up to which the layer has one colour beside it, in steps of one level: the whole square, or
/// one that lies in a larger block with another colour beside it. It reads at most 24 pages for each level above the block's.
pub fn block_up_to<S: PageStore>(
    store: &mut S,
    tree: &Tree,
    layer: u8,
    level: u8,
    b: Block,
    c: Colour,
) -> Result<Block, Stop>
    requires rooted { IsRooted (S.size store.old) tree.now }
    requires layer { 1 ≤ layer }
    requires level { (1 ≤ level) × (level ≤ 12) }
    requires block { IsBlock level b }
    ensures block { IfOk result (IsBlock level) }
    ensures inside { IfOk result (Within b) }
    ensures same { IfOk result (λ top. (g : Grid) → HasRegion (S.told store.old) tree.now layer level g → HasAround level g top b c.0) }
    ensures cut_out { IfOk result (λ top. (g : Grid) → HasRegion (S.told store.old) tree.now layer level g → IsCutOut level g b → IsCutOut level g top) }
    ensures ends { IfOk result (λ top. (g : Grid) → HasRegion (S.told store.old) tree.now layer level g → IsCutOut level g b
        → top.side < side_of level → HasAround level g (parent_of top) top c.0 → ⊥) }
    ensures sound { IfErr result (λ e. (g : Grid) → HasRegion (S.told store.old) tree.now layer level g → IsNotDamage e) }
    ensures zero { IfErr result (λ e. (rs : List Record) → IsTree (S.told store.old) tree.now rs → NamesPage 1 e) }
    ensures bad { IfErr result (λ e. e ≢ Damaged 0 → NamesBad (S.told store.old) tree.now.height tree.now.root e) }
    ensures left { OnlyReads S.PageStore store.old store.new result }
    ensures reads { (j : ℕ) → b.side ≡ 2 ^ j → Goes (λ old new. new + 24 * j ≤ old + 24 * level) (S.reads store.old) (S.reads store.new) }
{
    let mut top = b;
    while let Some(larger) = parent(top, level) {
        if !has_around(store, tree, layer, level, top, larger, c)? {
            return Ok(top);
        }
        top = larger;
    }
    Ok(top)
}

/// What is known of a layer where a window is painted, if the leaf that holds it, or the smallest block that does, is
/// smaller than this and has another colour beside it. It reads at most 30 pages.
pub fn known_beside<S: PageStore>(
    store: &mut S,
    tree: &Tree,
    layer: u8,
    level: u8,
    w: Window,
    c: Colour,
    most: u16,
) -> Result<Option<Known>, Stop>
    requires rooted { IsRooted (S.size store.old) tree.now }
    requires layer { 1 ≤ layer }
    requires level { (1 ≤ level) × (level ≤ 12) }
    requires window { is_window level w ≡ true }
    ensures blocks { IfOk result (λ o. IfSome o (IsKnown level)) }
    ensures colour { IfOk result (λ o. IfSome o (λ k. k.around ≡ c)) }
    ensures small { IfOk result (λ o. IfSome o (λ k. k.top.side < most)) }
    ensures knows { IfOk result (λ o. IfSome o (λ k. (g : Grid) → HasRegion (S.told store.old) tree.now layer level g → KnowsAround level g w k)) }
    ensures sound { IfErr result (λ e. (g : Grid) → HasRegion (S.told store.old) tree.now layer level g → IsNotDamage e) }
    ensures zero { IfErr result (λ e. (rs : List Record) → IsTree (S.told store.old) tree.now rs → NamesPage 1 e) }
    ensures bad { IfErr result (λ e. e ≢ Damaged 0 → NamesBad (S.told store.old) tree.now.height tree.now.root e) }
    ensures left { OnlyReads S.PageStore store.old store.new result }
    ensures reads { Goes (λ old new. new ≤ old + 30) (S.reads store.old) (S.reads store.new) }
{
    let (b, first) = block_with(store, tree, layer, level, w)?;
    if most <= b.side {
        return Ok(None);
    }
    let Some(larger) = parent(b, level) else {
        return Ok(None);
    };
    if has_around(store, tree, layer, level, b, larger, c)? {
        return Ok(None);
    }
    Ok(Some(Known {
        read: b,
        top: b,
        around: c,
        elsewhere: other_colour(c, first),
    }))
}

/// A colour that is neither of two.
pub fn other_colour(a: Colour, b: Colour) -> Colour
    ensures first { result.0 ≢ a.0 }
    ensures second { result.0 ≢ b.0 }
{
    if a.0 != 0 && b.0 != 0 {
        return Colour(0);
    }
    if a.0 != 1 && b.0 != 1 {
        return Colour(1);
    }
    Colour(2)
}

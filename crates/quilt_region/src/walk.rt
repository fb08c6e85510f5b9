ghost use Rattle.std.specs.Prelude.{◌≡◌, ◌≢◌, ℕ, ◌+◌, ◌*◌, ◌≤◌, ◌==◌, List, [], ◌∷◌, slice_index, count_by, length, Some, IfOk, IfErr, IsErrOf};
ghost use Rattle.quilt_types.specs.declared.plane.Block.{Block as AnyBlock};
ghost use Rattle.quilt_types.specs.declared.stop.Stop.TheVariants.{Damaged, Device};
ghost use Rattle.quilt_types.specs.Plane.{side as side_of, IsBlock};
ghost use Rattle.quilt_types.specs.Layers.{Grid};
ghost use Rattle.quilt_types.specs.Quadtrees.{leaves};
ghost use Rattle.quilt_loc.specs.Codes.{code_from};
ghost use Rattle.quilt_record.specs.declared.record.Record.{Record};
ghost use Rattle.quilt_blocks.specs.Cutting.{leaves_by_code, leaf_pair};
ghost use Rattle.quilt_spell.specs.OfLayer.{leaf_record};
ghost use Rattle.quilt_store.specs.Calls.{OnlyReads};
ghost use Rattle.quilt_world.specs.Tale.{Goes};
ghost use Rattle.quilt_store.specs.Stops.{IsNotDamage};
ghost use Rattle.quilt_btree.specs.Damage.{NamesBad};
ghost use Rattle.quilt_btree.specs.Stops.{NamesPage};
ghost use Rattle.quilt_btree.specs.Trees.{IsRooted, IsTree};
ghost use Rattle.quilt_region.specs.Regions.{HasRegion};
ghost use Rattle.quilt_region.specs.Walks.{IsAhead, StandsInTree};

use crate::bounds::first_key;
use crate::leaf_records::{DAMAGED, leaf_of};
use quilt_blocks::Leaf;
use quilt_btree::{Cursor, Tree};
use quilt_loc::{end_of, whole_square};
use quilt_measure::exponent_of;
use quilt_record::Record as LeafRecord;
use quilt_store::PageStore;
use quilt_types::Stop;

/// How many leaves of each side the region layer with this number has, from 1 to 255, of a map of this level, from 1 to 12:
/// those of side 2 ^ k at place k. It goes over the records of the layer once, and makes no list of them.
pub fn leaf_counts<S: PageStore>(
    store: &mut S,
    tree: &Tree,
    layer: u8,
    level: u8,
) -> Result<[u32; 13], Stop>
    requires rooted { IsRooted (S.size store.old) tree.now }
    requires layer { 1 ≤ layer }
    requires level { (1 ≤ level) × (level ≤ 12) }
    ensures counts { IfOk result (λ counts. (g : Grid) → HasRegion (S.told store.old) tree.now layer level g → (k : ℕ) → k ≤ 12
        → slice_index counts k ≡ count_by (λ e. e.0.side == side_of k) (leaves level g)) }
    ensures sound { IfErr result (λ e. (g : Grid) → HasRegion (S.told store.old) tree.now layer level g → IsNotDamage e) }
    ensures zero { IfErr result (λ e. (rs : List Record) → IsTree (S.told store.old) tree.now rs → NamesPage 1 e) }
    ensures bad { IfErr result (λ e. e ≢ Damaged 0 → NamesBad (S.told store.old) tree.now.height tree.now.root e) }
    ensures left { OnlyReads S.PageStore store.old store.new result }
    ensures reads { IfOk result (λ counts. (g : Grid) → HasRegion (S.told store.old) tree.now layer level g
        → Goes (λ old new. new ≤ old + (6 + 3 * length (leaves_by_code level g))) (S.reads store.old) (S.reads store.new)) }
{
    if tree.height == 0 {
        return Err(DAMAGED);
    }
    let mut cursor = tree.seek(store, &first_key(layer))?;
    count_ahead(store, tree, &mut cursor, layer, level)
}

/// The same of a layer whose records a cursor goes over next.
fn count_ahead<S: PageStore>(
    store: &mut S,
    tree: &Tree,
    cursor: &mut Cursor,
    layer: u8,
    level: u8,
) -> Result<[u32; 13], Stop>
    requires rooted { IsRooted (S.size store.old) tree.now }
    requires some { 1 ≤ tree.now.height }
    requires layer { 1 ≤ layer }
    requires level { (1 ≤ level) × (level ≤ 12) }
    ensures counts { IfOk result (λ counts. (g : Grid) → IsAhead (S.told store.old) tree.now cursor.old layer level (leaves_by_code level g)
        → (k : ℕ) → k ≤ 12 → slice_index counts k ≡ count_by (λ e. e.0.side == side_of k) (leaves_by_code level g)) }
    ensures sound { IfErr result (λ e. (g : Grid) → IsAhead (S.told store.old) tree.now cursor.old layer level (leaves_by_code level g) → IsNotDamage e) }
    ensures zero { IfErr result (λ e. StandsInTree (S.told store.old) tree.now cursor.old → NamesPage 1 e) }
    ensures bad { IfErr result (λ e. e ≢ Damaged 0 → NamesBad (S.told store.old) tree.now.height tree.now.root e) }
    ensures left { OnlyReads S.PageStore store.old store.new result }
    ensures reads { IfOk result (λ counts. (g : Grid) → IsAhead (S.told store.old) tree.now cursor.old layer level (leaves_by_code level g)
        → Goes (λ old new. new ≤ old + (3 + 3 * length (leaves_by_code level g))) (S.reads store.old) (S.reads store.new)) }
{
    let end = end_of(whole_square(level));
    let mut counts = [0; 13];
    let mut code = 0;
    while code < end {
        let leaf = next_leaf(store, tree, cursor, layer, level, code)?;
        counts[exponent_of(leaf.block.side)] += 1;
        code = end_of(leaf.block);
    }
    end_layer(store, tree, cursor, layer)?;
    Ok(counts)
}

/// Goes over the next record, which is that of the layer's leaf that begins at a code. It reads at most 3 pages.
fn next_leaf<S: PageStore>(
    store: &mut S,
    tree: &Tree,
    cursor: &mut Cursor,
    layer: u8,
    level: u8,
    code: u32,
) -> Result<Leaf, Stop>
    requires rooted { IsRooted (S.size store.old) tree.now }
    requires some { 1 ≤ tree.now.height }
    requires layer { 1 ≤ layer }
    requires level { (1 ≤ level) × (level ≤ 12) }
    ensures block { IfOk result (λ l. IsBlock level l.block) }
    ensures begins { IfOk result (λ l. code_from l.block ≡ code) }
    ensures next { IfOk result (λ l. (e : AnyBlock × ℕ) (rest : List (AnyBlock × ℕ)) → IsBlock level e.0
        → IsAhead (S.told store.old) tree.now cursor.old layer level (e ∷ rest)
        → (l.block ≡ e.0) × IsAhead (S.told store.old) tree.now cursor.new layer level rest) }
    ensures stays { IfOk result (λ _. StandsInTree (S.told store.old) tree.now cursor.old → StandsInTree (S.told store.old) tree.now cursor.new) }
    ensures sound { IfErr result (λ stop. (e : AnyBlock × ℕ) (rest : List (AnyBlock × ℕ)) → IsBlock level e.0 → code_from e.0 ≡ code
        → IsAhead (S.told store.old) tree.now cursor.old layer level (e ∷ rest) → IsNotDamage stop) }
    ensures zero { IfErr result (λ e. StandsInTree (S.told store.old) tree.now cursor.old → NamesPage 1 e) }
    ensures bad { IfErr result (λ e. e ≢ Damaged 0 → NamesBad (S.told store.old) tree.now.height tree.now.root e) }
    ensures left { OnlyReads S.PageStore store.old store.new result }
    ensures reads { Goes (λ old new. new ≤ old + 3) (S.reads store.old) (S.reads store.new) }
{
    let found = tree.next(store, cursor)?;
    leaf_at(found, layer, level, code)
}

/// The leaf that the next record is, which begins at this code.
fn leaf_at(found: Option<LeafRecord>, layer: u8, level: u8, code: u32) -> Result<Leaf, Stop>
    requires layer { 1 ≤ layer }
    requires level { (1 ≤ level) × (level ≤ 12) }
    ensures block { IfOk result (λ l. IsBlock level l.block) }
    ensures begins { IfOk result (λ l. code_from l.block ≡ code) }
    ensures row { IfOk result (λ l. found ≡ Some (leaf_record level layer (leaf_pair l))) }
    ensures next { IfOk result (λ l. (e : AnyBlock × ℕ) → IsBlock level e.0 → found ≡ Some (leaf_record level layer e) → l.block ≡ e.0) }
    ensures sound { IfErr result (λ stop. (e : AnyBlock × ℕ) → IsBlock level e.0 → code_from e.0 ≡ code → found ≡ Some (leaf_record level layer e)
        → IsNotDamage stop) }
    ensures zero { IfErr result (NamesPage 1) }
    ensures no_fault { IsErrOf result Device → ⊥ }
{
    let Some(r) = found else {
        return Err(DAMAGED);
    };
    match leaf_of(&r, layer, level) {
        Some(leaf) if r.key.code == code => Ok(leaf),
        _ => Err(DAMAGED),
    }
}

/// Tests that the next record, where there is one, is not of the layer. It reads at most 3 pages.
fn end_layer<S: PageStore>(
    store: &mut S,
    tree: &Tree,
    cursor: &mut Cursor,
    layer: u8,
) -> Result<(), Stop>
    requires rooted { IsRooted (S.size store.old) tree.now }
    requires some { 1 ≤ tree.now.height }
    ensures sound { IfErr result (λ stop. (n : ℕ) → IsAhead (S.told store.old) tree.now cursor.old layer n [] → IsNotDamage stop) }
    ensures zero { IfErr result (λ e. StandsInTree (S.told store.old) tree.now cursor.old → NamesPage 1 e) }
    ensures bad { IfErr result (λ e. e ≢ Damaged 0 → NamesBad (S.told store.old) tree.now.height tree.now.root e) }
    ensures left { OnlyReads S.PageStore store.old store.new result }
    ensures reads { Goes (λ old new. new ≤ old + 3) (S.reads store.old) (S.reads store.new) }
{
    match tree.next(store, cursor)? {
        Some(r) if r.key.layer == u16::from(layer) => Err(DAMAGED),
        _ => Ok(()),
    }
}

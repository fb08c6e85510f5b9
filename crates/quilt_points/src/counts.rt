ghost use Rattle.std.specs.Prelude.{◌≡◌, ◌≢◌, ℕ, ◌+◌, ◌*◌, ◌≤◌, ◌==◌, slice_index, count_by, length, List, IfOk, IfErr};
ghost use Rattle.quilt_types.specs.declared.stop.Stop.TheVariants.{Damaged};
ghost use Rattle.quilt_types.specs.Plane.{side as side_of};
ghost use Rattle.quilt_types.specs.Layers.{PointMap};
ghost use Rattle.quilt_types.specs.Quadtrees.{point_blocks};
ghost use Rattle.quilt_store.specs.Calls.{OnlyReads};
ghost use Rattle.quilt_world.specs.Tale.{Goes};
ghost use Rattle.quilt_store.specs.Stops.{IsNotDamage};
ghost use Rattle.quilt_record.specs.declared.record.Record.{Record as AnyRecord};
ghost use Rattle.quilt_btree.specs.Stops.{NamesPage};
ghost use Rattle.quilt_btree.specs.Damage.{NamesBad};
ghost use Rattle.quilt_btree.specs.Trees.{IsRooted, IsTree};
ghost use Rattle.quilt_points.specs.Layers.{HasPoints};

use crate::layer::PointLayer;
use crate::lookup::block_around;
use quilt_btree::Tree;
use quilt_loc::{end_of, pixel_of, whole_square};
use quilt_measure::exponent_of;
use quilt_store::PageStore;
use quilt_types::Stop;

/// How many blocks of each side the point layer with this number has, from 1 to 255, of a map of this level, from 1 to 12,
/// whose blocks hold at most `bucket` points, from 1 to 16: those of side 2 ^ k at place k. It reads at most 6 pages for each
/// block.
pub fn block_counts<S: PageStore>(
    store: &mut S,
    tree: &Tree,
    layer: u8,
    level: u8,
    bucket: u8,
) -> Result<[u32; 13], Stop>
    requires rooted { IsRooted (S.size store.old) tree.now }
    requires layer { 1 ≤ layer }
    requires level { (1 ≤ level) × (level ≤ 12) }
    requires bucket { (1 ≤ bucket) × (bucket ≤ 16) }
    ensures counts { IfOk result (λ counts. (points : PointMap) → HasPoints (S.told store.old) tree.now layer level bucket points → (k : ℕ) → k ≤ 12
        → slice_index counts k ≡ count_by (λ b. b.side == side_of k) (point_blocks level bucket points)) }
    ensures sound { IfErr result (λ e. (points : PointMap) → HasPoints (S.told store.old) tree.now layer level bucket points → IsNotDamage e) }
    ensures zero { IfErr result (λ e. (rs : List AnyRecord) → IsTree (S.told store.old) tree.now rs → NamesPage 1 e) }
    ensures bad { IfErr result (λ e. e ≢ Damaged 0 → NamesBad (S.told store.old) tree.now.height tree.now.root e) }
    ensures left { OnlyReads S.PageStore store.old store.new result }
    ensures reads { IfOk result (λ _. (points : PointMap) → HasPoints (S.told store.old) tree.now layer level bucket points
        → Goes (λ old new. new ≤ old + 6 * length (point_blocks level bucket points)) (S.reads store.old) (S.reads store.new)) }
{
    let points = PointLayer {
        number: layer,
        level,
        bucket,
    };
    let end = end_of(whole_square(level));
    let mut counts = [0; 13];
    let mut code = 0;
    while code < end {
        let (b, _) = block_around(store, tree, points, pixel_of(code))?;
        counts[exponent_of(b.side)] += 1;
        code = end_of(b);
    }
    Ok(counts)
}

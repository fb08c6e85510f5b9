ghost use Rattle.std.specs.Prelude.{◌≡◌, ◌≤◌, true, All};
ghost use Rattle.std.specs.Bool.{OnTrue};
ghost use Rattle.quilt_types.specs.Plane.{is_pixel};
ghost use Rattle.quilt_btree.specs.Trees.{IsRooted};

use quilt_batch::merged;
use quilt_blocks::LeafList;
use quilt_btree::{Batch, Tree};
use quilt_lines as lines;
use quilt_lines::LineView;
use quilt_loc::whole_square;
use quilt_near::{SegList, nearest};
use quilt_plain::{is_in_square, is_window};
use quilt_points as points;
use quilt_record::{Edits, Key, Record, read_point, region_record};
use quilt_region as regions;
use quilt_store::{MemStore, PageStore};
use quilt_types::{Block, Colour, Pixel, Point, PointList, Seg, Stop, Window};
use std::alloc::Global;

/// How many pages the store has.
const PAGES: u32 = 256;

/// What a damaged layer answers.
pub const DAMAGED: Stop = Stop::Damaged { page: 0 };

/// What is answered to a call that may not be made, as of a pixel outside the square: no layer in memory answers it.
const REFUSED: Stop = Stop::Device;

/// A layer in a tree over a store in memory: its number, the level of its map, and how many points or segments a block may hold.
/// What each call asks of the tree and of these numbers is kept here, so that a test need not show it again.
#[derive(Drop)]
pub struct Layer {
    store: MemStore,
    tree: Tree,
    number: u8,
    level: u8,
    limit: u8,
    ghost number_fits: { 1 ≤ number },
    ghost level_fits: { (1 ≤ level) × (level ≤ 12) },
    ghost limit_fits: { (1 ≤ limit) × (limit ≤ 16) },
    ghost size: { ⟦<MemStore as PageStore>⟧.size store ≡ 256 },
    ghost rooted: { IsRooted 256 tree },
}

/// Whether the pixel is one of the square.
fn has_pixel(level: u8, p: Pixel) -> bool
    requires { level ≤ 12 }
    ensures { result ≡ is_pixel level p }
{
    let side = 1_u16 << level;
    p.x < side && p.y < side
}

/// Whether the points are at pixels of the square.
fn has_points(level: u8, points: &[Point]) -> bool
    requires { level ≤ 12 }
    ensures { OnTrue result (All (λ p. is_pixel level p.at ≡ true) points.now) }
{
    points.iter().all(|p| has_pixel(level, p.at))
}

impl Layer {
    /// A layer with this number, level and limit in a tree of these records.
    pub fn new(
        alloc: Global,
        number: u8,
        level: u8,
        limit: u8,
        records: &[Record],
    ) -> Result<Layer, Stop> {
        if number == 0 || level == 0 || level > 12 || limit == 0 || limit > 16 {
            return Err(REFUSED);
        }
        let tree = Tree {
            root: 0,
            height: 0,
            records: 0,
        };
        let mut layer = Layer {
            store: MemStore::new(alloc, PAGES).ok().ok_or(Stop::Memory)?,
            tree,
            number,
            level,
            limit,
        };
        layer.change(alloc, &[], records)?;
        Ok(layer)
    }

    /// A point layer of no points with the number 1.
    pub fn of_points(alloc: Global, level: u8, bucket: u8) -> Result<Layer, Stop> {
        if level == 0 || level > 12 {
            return Err(REFUSED);
        }
        let first = points::first_record(1, level, bucket);
        Layer::new(alloc, 1, level, bucket, &[first])
    }

    /// A region layer of one colour, 0, with the number 1.
    pub fn of_region(alloc: Global, level: u8) -> Result<Layer, Stop> {
        if level == 0 || level > 12 {
            return Err(REFUSED);
        }
        let first = region_record(1, whole_square(level), level, Colour(0));
        Layer::new(alloc, 1, level, 1, &[first])
    }

    /// Carries out a plan. Each record that goes has to be there.
    pub fn edit(&mut self, alloc: Global, plan: &Edits) -> Result<(), Stop> {
        let gone = plan.remove.records();
        for r in gone {
            if self.value(&r.key)? != Some(r.value) {
                return Err(REFUSED);
            }
        }
        self.change(alloc, gone, plan.add.records())
    }

    /// Takes records out of the tree and puts others in, both in the order of their keys.
    fn change(&mut self, alloc: Global, gone: &[Record], come: &[Record]) -> Result<(), Stop> {
        match merged(alloc, gone, come) {
            Ok(Some(batch)) => self.apply(&batch),
            Ok(None) => Err(REFUSED),
            Err(_) => Err(Stop::Memory),
        }
    }

    /// Makes the edits in the tree, which needs room for the records that they bring.
    fn apply(&mut self, batch: &Batch) -> Result<(), Stop> {
        let room = (64 * (PAGES - 8) - self.tree.records) as usize;
        if batch.records_added() > room {
            return Err(REFUSED);
        }
        let mut tree = self.tree;
        tree.apply(&mut self.store, batch)?;
        self.tree = tree;
        Ok(())
    }

    /// The value of the record with this key.
    fn value(&mut self, k: &Key) -> Result<Option<[u8; 16]>, Stop> {
        self.tree.get(&mut self.store, k)
    }

    /// All records of the tree.
    pub fn records(&mut self, alloc: Global) -> Result<Vec<Record>, Stop> {
        let low = Key {
            layer: 0,
            part: 0,
            code: 0,
            depth: 0,
            item: 0,
        };
        let high = Key {
            layer: u16::MAX,
            part: u8::MAX,
            code: u32::MAX,
            depth: u8::MAX,
            item: u32::MAX,
        };
        self.tree
            .range(alloc, &mut self.store, &low, &high, u32::MAX)
    }

    /// The label of the point at the pixel.
    pub fn find(&mut self, at: Pixel) -> Result<Option<u32>, Stop> {
        if !has_pixel(self.level, at) {
            return Err(REFUSED);
        }
        points::find(
            &mut self.store,
            &self.tree,
            self.number,
            self.level,
            self.limit,
            at,
        )
    }

    /// The points in the window.
    pub fn within(&mut self, alloc: Global, w: Window) -> Result<PointList, Stop> {
        if !is_window(self.level, w) {
            return Err(REFUSED);
        }
        points::within(
            alloc,
            &mut self.store,
            &self.tree,
            self.number,
            self.level,
            self.limit,
            w,
        )
    }

    /// What changes when a point comes.
    pub fn plan_put(&mut self, alloc: Global, p: Point) -> Result<Option<Edits>, Stop> {
        if !has_pixel(self.level, p.at) {
            return Err(REFUSED);
        }
        points::plan_put(
            alloc,
            &mut self.store,
            &self.tree,
            self.number,
            self.level,
            self.limit,
            p.at,
            p.label,
        )
    }

    /// What changes when the point at the pixel goes.
    pub fn plan_del(&mut self, alloc: Global, at: Pixel) -> Result<Option<Edits>, Stop> {
        if !has_pixel(self.level, at) {
            return Err(REFUSED);
        }
        points::plan_del(
            alloc,
            &mut self.store,
            &self.tree,
            self.number,
            self.level,
            self.limit,
            at,
        )
    }

    /// What changes when several points come at once.
    pub fn plan_scatter(&mut self, alloc: Global, list: &PointList) -> Result<Option<Edits>, Stop> {
        if !has_points(self.level, list.items()) {
            return Err(REFUSED);
        }
        points::plan_scatter(
            alloc,
            &mut self.store,
            &self.tree,
            self.number,
            self.level,
            self.limit,
            list,
        )
    }

    /// How many blocks of each side a point layer has.
    pub fn point_counts(&mut self) -> Result<[u32; 13], Stop> {
        points::block_counts(
            &mut self.store,
            &self.tree,
            self.number,
            self.level,
            self.limit,
        )
    }

    /// The block that a record of a point layer says, and the point that it says the block holds.
    pub fn read_point(&self, r: &Record) -> Option<(Block, Option<Point>)> {
        read_point(r, self.level, self.limit)
    }

    /// The leaves of a region layer.
    pub fn leaves(&mut self, alloc: Global) -> Result<LeafList, Stop> {
        regions::read_list(alloc, &mut self.store, &self.tree, self.number, self.level)
    }

    /// How many leaves of each side a region layer has.
    pub fn leaf_counts(&mut self) -> Result<[u32; 13], Stop> {
        regions::leaf_counts(&mut self.store, &self.tree, self.number, self.level)
    }

    /// Leaves with the colours of a region layer at the pixels of the window.
    pub fn leaves_in(&mut self, alloc: Global, w: Window) -> Result<LeafList, Stop> {
        if !is_window(self.level, w) {
            return Err(REFUSED);
        }
        regions::read_window(
            alloc,
            &mut self.store,
            &self.tree,
            self.number,
            self.level,
            w,
        )
    }

    /// The colour of a region layer at the pixel.
    pub fn colour_at(&mut self, at: Pixel) -> Result<Colour, Stop> {
        if !has_pixel(self.level, at) {
            return Err(REFUSED);
        }
        regions::colour_at(&mut self.store, &self.tree, self.number, self.level, at)
    }

    /// What changes when the pixels of the window get a colour.
    pub fn plan_rect(&mut self, alloc: Global, w: Window, c: Colour) -> Result<Edits, Stop> {
        if !is_window(self.level, w) {
            return Err(REFUSED);
        }
        regions::plan_rect(
            alloc,
            &mut self.store,
            &self.tree,
            self.number,
            self.level,
            w,
            c,
        )
    }

    /// The segment with this id.
    pub fn segment(&mut self, id: u32) -> Result<Option<Seg>, Stop> {
        lines::segment(&mut self.store, &self.tree, self.number, self.level, id)
    }

    /// All segments under their ids.
    pub fn scan(&mut self, alloc: Global) -> Result<SegList, Stop> {
        lines::scan(alloc, &mut self.store, &self.tree, self.number, self.level)
    }

    /// The segment that is nearest to the pixel, and the numerator of its squared distance.
    pub fn nearest(&mut self, alloc: Global, at: Pixel) -> Result<Option<(u32, u64)>, Stop> {
        self.nearest_under(alloc, self.tree.root, at)
    }

    /// The same with this page as the tree's root, which need not be one of the store.
    pub fn nearest_under(
        &mut self,
        alloc: Global,
        root: u32,
        at: Pixel,
    ) -> Result<Option<(u32, u64)>, Stop> {
        if !has_pixel(12, at) {
            return Err(REFUSED);
        }
        let tree = Tree { root, ..self.tree };
        let view = LineView::new(&tree, self.number, self.level);
        match nearest(alloc, &view, &mut self.store, at)? {
            None => Ok(None),
            Some((id, far)) => Ok(Some((id, far.num()))),
        }
    }

    /// What changes when a segment comes.
    pub fn plan_add(&mut self, alloc: Global, id: u32, s: Seg) -> Result<Option<Edits>, Stop> {
        if !is_in_square(self.level, s) {
            return Err(REFUSED);
        }
        lines::plan_add(
            alloc,
            &mut self.store,
            &self.tree,
            self.number,
            self.level,
            self.limit,
            id,
            s,
        )
    }

    /// What changes when the segment with this id goes.
    pub fn plan_remove(&mut self, alloc: Global, id: u32) -> Result<Option<Edits>, Stop> {
        lines::plan_remove(
            alloc,
            &mut self.store,
            &self.tree,
            self.number,
            self.level,
            self.limit,
            id,
        )
    }

    /// How many blocks of each side a line layer has.
    pub fn line_counts(&mut self) -> Result<[u32; 13], Stop> {
        lines::block_counts(&mut self.store, &self.tree, self.number, self.level)
    }
}

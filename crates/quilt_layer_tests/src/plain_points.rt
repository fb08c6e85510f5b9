use quilt_types::{Block, Pixel, Point, Window};
use std::alloc::{AllocError, Global};
use std::collections::{BTreeMap, BTreeSet};

/// A point layer as the labels under their pixels, in a map of this level with at most `bucket` points in a block.
#[derive(Drop)]
pub struct PlainPoints {
    pub labels: BTreeMap<Pixel, u32>,
    pub level: u8,
    pub bucket: u8,
}

/// Whether the pixel is one of the block.
pub fn holds(b: Block, at: Pixel) -> bool {
    at.x.wrapping_sub(b.x) < b.side && at.y.wrapping_sub(b.y) < b.side
}

/// Whether the pixel is one of the window.
pub fn is_inside(w: Window, at: Pixel) -> bool {
    at.x.wrapping_sub(w.x) < w.w && at.y.wrapping_sub(w.y) < w.h
}

/// The block of twice the side that holds the block.
fn parent(b: Block) -> Block {
    let side = b.side.wrapping_mul(2);
    let mask = !side.wrapping_sub(1);
    Block {
        x: b.x & mask,
        y: b.y & mask,
        side,
    }
}

impl PlainPoints {
    /// The side of the square.
    pub fn side(&self) -> u16 {
        1_u16.wrapping_shl(u32::from(self.level))
    }

    /// The label of the point at the pixel, if one is there.
    pub fn label(&self, at: Pixel) -> Option<u32> {
        self.labels.get(&at).copied()
    }

    /// The pixel of the point at this place in their order, if there are so many.
    pub fn nth(&self, place: usize) -> Option<Pixel> {
        self.labels.keys().nth(place).copied()
    }

    /// How many points there are.
    pub fn total(&self) -> usize {
        self.labels.len()
    }

    /// Puts a point down, unless one is at its pixel: whether none is.
    pub fn put(&mut self, p: Point) -> Result<bool, AllocError> {
        if self.labels.contains_key(&p.at) {
            return Ok(false);
        }
        self.labels.insert(p.at, p.label)?;
        Ok(true)
    }

    /// Takes the point at the pixel away, if one is there: whether one is.
    pub fn take(&mut self, at: Pixel) -> bool {
        self.labels.remove(&at).is_some()
    }

    /// Whether no two of the points share a pixel, and no point is at one of them.
    fn are_new(&self, alloc: Global, points: &[Point]) -> Result<bool, AllocError> {
        let mut pixels = BTreeSet::new(alloc);
        for p in points {
            if self.labels.contains_key(&p.at) {
                return Ok(false);
            }
            pixels.insert(p.at)?;
        }
        Ok(pixels.len() == points.len())
    }

    /// Puts points down, unless two share a pixel or a point is at one of them: whether they are put down.
    pub fn put_all(&mut self, alloc: Global, points: &[Point]) -> Result<bool, AllocError> {
        let are_new = self.are_new(alloc, points)?;
        if are_new {
            for p in points {
                self.put(*p)?;
            }
        }
        Ok(are_new)
    }

    /// How many points the block holds.
    pub fn count(&self, b: Block) -> usize {
        let mut count = 0_usize;
        for at in self.labels.keys() {
            if holds(b, *at) {
                count = count.wrapping_add(1);
            }
        }
        count
    }

    /// Whether the block is one of the layer: it holds few points, and is the whole square or its parent holds too many.
    pub fn is_block(&self, b: Block) -> bool {
        let most = usize::from(self.bucket);
        self.count(b) <= most && (b.side == self.side() || self.count(parent(b)) > most)
    }

    /// The points in the window, by y and then x.
    pub fn within(&self, alloc: Global, w: Window) -> Result<Vec<Point>, AllocError> {
        let mut points = Vec::new(alloc);
        for (at, label) in &self.labels {
            if is_inside(w, *at) {
                points.push(Point {
                    at: *at,
                    label: *label,
                })?;
            }
        }
        Ok(points)
    }
}

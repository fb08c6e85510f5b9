use quilt_types::{Block, Seg};
use std::alloc::{AllocError, Global};
use std::cmp::Ordering;
use std::collections::{BTreeMap, BTreeSet};

/// A line layer as sets: its segments under their ids, and its blocks.
#[derive(Drop)]
pub struct Plain {
    pub segs: BTreeMap<u32, Seg>,
    pub blocks: BTreeSet<Block>,
}

/// The four blocks of half the side.
fn quarters(b: Block) -> [Block; 4] {
    let Block { x, y, side } = b;
    let half = side / 2;
    let right = x.wrapping_add(half);
    let below = y.wrapping_add(half);
    [
        Block { x, y, side: half },
        Block {
            x: right,
            y,
            side: half,
        },
        Block {
            x,
            y: below,
            side: half,
        },
        Block {
            x: right,
            y: below,
            side: half,
        },
    ]
}

/// On which side of the segment's line a corner lies: the sign of a cross product.
fn turn(s: Seg, x: u16, y: u16) -> Ordering {
    let from = (i64::from(s.x1), i64::from(s.y1));
    let along = (
        i64::from(s.x2).wrapping_sub(from.0),
        i64::from(s.y2).wrapping_sub(from.1),
    );
    let across = along.0.wrapping_mul(i64::from(y).wrapping_sub(from.1));
    across.cmp(&along.1.wrapping_mul(i64::from(x).wrapping_sub(from.0)))
}

/// Whether a segment meets the closed square of a block: their boxes meet, and not all corners of the square lie strictly on one
/// side of the segment's line.
pub fn touches(s: Seg, b: Block) -> bool {
    let right = b.x.wrapping_add(b.side);
    let under = b.y.wrapping_add(b.side);
    if s.x1.max(s.x2) < b.x || right < s.x1.min(s.x2) {
        return false;
    }
    if s.y1.max(s.y2) < b.y || under < s.y1.min(s.y2) {
        return false;
    }
    let turns = [
        turn(s, b.x, b.y),
        turn(s, right, b.y),
        turn(s, b.x, under),
        turn(s, right, under),
    ];
    let left = turns.iter().all(|t| *t == Ordering::Less);
    !left && !turns.iter().all(|t| *t == Ordering::Greater)
}

impl Plain {
    /// A layer of no segments over a square of this side.
    pub fn new(alloc: Global, side: u16) -> Result<Plain, AllocError> {
        let mut blocks = BTreeSet::new(alloc);
        blocks.insert(Block { x: 0, y: 0, side })?;
        Ok(Plain {
            segs: BTreeMap::new(alloc),
            blocks,
        })
    }

    /// How many segments meet the block.
    pub fn count(&self, b: Block) -> usize {
        self.segs.values().filter(|s| touches(**s, b)).count()
    }

    /// Adds a segment: each block that it overfills is cut once.
    pub fn add(&mut self, alloc: Global, t: u8, id: u32, s: Seg) -> Result<(), AllocError> {
        self.segs.insert(id, s)?;
        let old: Vec<Block> = self.blocks.iter().copied().collect(alloc)?;
        for b in &old {
            if touches(s, *b) && b.side > 1 && self.count(*b) > usize::from(t) {
                self.cut(*b)?;
            }
        }
        Ok(())
    }

    /// The block's quarters take its place.
    fn cut(&mut self, b: Block) -> Result<(), AllocError> {
        let _ = self.blocks.remove(&b);
        for q in quarters(b) {
            self.blocks.insert(q)?;
        }
        Ok(())
    }

    /// Takes a segment away: from the smallest side up, four blocks that it met become one where few segments are left.
    pub fn remove(&mut self, t: u8, level: u8, id: u32) -> Result<(), AllocError> {
        if let Some(s) = self.segs.remove(&id) {
            for k in 1..=u32::from(level) {
                let side = 1_u16.wrapping_shl(k);
                let many = 1_u16.wrapping_shl(u32::from(level).wrapping_sub(k));
                self.merge_all(t, s, side, many)?;
            }
        }
        Ok(())
    }

    /// Merges into blocks of this side, of which the square has so many in a row.
    fn merge_all(&mut self, t: u8, s: Seg, side: u16, many: u16) -> Result<(), AllocError> {
        for row in 0..many {
            for column in 0..many {
                let x = column.wrapping_mul(side);
                let y = row.wrapping_mul(side);
                self.merge(t, s, Block { x, y, side })?;
            }
        }
        Ok(())
    }

    /// Merges into this block, if its quarters are there, the segment met it and few others do.
    fn merge(&mut self, t: u8, s: Seg, b: Block) -> Result<(), AllocError> {
        if !touches(s, b) || !self.has_all(&quarters(b)) || self.count(b) > usize::from(t) {
            return Ok(());
        }
        for q in quarters(b) {
            let _ = self.blocks.remove(&q);
        }
        self.blocks.insert(b)?;
        Ok(())
    }

    /// Whether all of these are among the blocks.
    fn has_all(&self, bs: &[Block]) -> bool {
        bs.iter().all(|b| self.blocks.contains(b))
    }

    /// How many records spell the layer, but that of its kind.
    pub fn records(&self) -> usize {
        let mut count = self.segs.len();
        for b in &self.blocks {
            count = count.wrapping_add(self.count(*b).max(1));
        }
        count
    }

    /// How many blocks of each side there are: those of side 2 ^ k at place k.
    pub fn counts(&self) -> [u32; 13] {
        let mut counts = [0_u32; 13];
        for b in &self.blocks {
            if let Some(count) = counts.get_mut(b.side.trailing_zeros() as usize) {
                *count = count.wrapping_add(1);
            }
        }
        counts
    }

    /// Whether this is so of a block: the segment of the id meets it, or none does.
    pub fn is_met(&self, b: Block, id: Option<u32>) -> bool {
        if !self.blocks.contains(&b) {
            return false;
        }
        match id {
            None => self.count(b) == 0,
            Some(id) => match self.segs.get(&id) {
                None => false,
                Some(s) => touches(*s, b),
            },
        }
    }
}

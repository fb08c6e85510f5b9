ghost use Rattle.std.specs.Prelude.{◌≡◌, ◌≢◌, ℕ, ◌+◌, Some, None, OnOk};
ghost use Rattle.quilt_near.specs.Knowing.{known_seg, many_known};

use quilt_record::Key;
use quilt_types::{Block, Pixel, Seg};
use std::alloc::{AllocError, Global};
use std::collections::BTreeMap;

/// Where a question has looked: a page, and the keys for which it is the page to look at, from `low` on and below `high`.
#[derive(Clone, Copy)]
pub struct Mark {
    pub page: u32,
    pub low: Key,
    pub high: Option<Key>,
}

/// What a question has learnt of a layer of lines: the segments that it has read, by their ids, a block of the layer, which is
/// looked for at a pixel, and where it looked last for the ids of a block and for a segment.
#[derive(Drop)]
pub struct Known {
    pub at: Pixel,
    pub block: Option<Block>,
    pub pairs: Option<Mark>,
    pub ids: Option<Mark>,
    pub segs: BTreeMap<u32, Seg>,
}

impl Known {
    /// Nothing yet, of a question that looks about a pixel. It takes no memory, and keeps the allocator.
    pub fn new(alloc: Global, at: Pixel) -> Known
        ensures block { result.block ≡ None }
        ensures pairs { result.pairs ≡ None }
        ensures ids { result.ids ≡ None }
        ensures segs { (id : ℕ) → known_seg result id ≡ None }
    {
        Known {
            at,
            block: None,
            pairs: None,
            ids: None,
            segs: BTreeMap::new(alloc),
        }
    }

    /// The segment of an id, where it was read.
    pub fn find(&self, id: u32) -> Option<Seg>
        ensures { result ≡ known_seg self.now id }
    {
        self.segs.get(&id).copied()
    }

    /// Keeps a segment that was read.
    pub fn keep(&mut self, id: u32, s: Seg) -> Result<(), AllocError>
        ensures here { OnOk result (known_seg self.new id ≡ Some s) }
        ensures others { OnOk result ((other : ℕ) → other ≢ id → known_seg self.new other ≡ known_seg self.old other) }
        ensures more { OnOk result (known_seg self.old id ≡ None → many_known self.new ≡ many_known self.old + 1) }
        ensures block { self.new.block ≡ self.old.block }
        ensures pairs { self.new.pairs ≡ self.old.pairs }
        ensures ids { self.new.ids ≡ self.old.ids }
    {
        self.segs.insert(id, s)?;
        Ok(())
    }
}

ghost use Rattle.std.specs.Prelude.{◌≡◌, [], ◌∷◌, ◌++◌, ◌<◌, length, slice_get, Some, OnOk, OnErr};
ghost use Rattle.quilt_types.specs.Rings.{with_corner};

use crate::Corner;
use std::alloc::{AllocError, Global};
use std::marker::Model;

/// A list of rings, each a list of corners whose last one is joined to its first.
#[derive(Drop)]
pub struct RingList {
    rings: Vec<Vec<Corner>>,
    alloc: Global,
}

impl Model for RingList {
    ghost use Rattle.std.specs.Prelude.{List, map};
    ghost use Rattle.quilt_types.specs.declared.plane.Corner.{Corner};

    ghost Value = { List (List Corner) };

    ghost view = { λ r. map (λ ring. ring.items) r.rings.items };
}

impl RingList {
    /// No rings. It takes no memory, and keeps the allocator.
    pub fn new(alloc: Global) -> RingList
        ensures { result ≡ [] }
    {
        RingList {
            rings: Vec::new(alloc),
            alloc,
        }
    }

    /// Adds a ring without corners at the end, or changes nothing where no memory is left.
    pub fn begin_ring(&mut self) -> Result<(), AllocError>
        ensures ok { OnOk result (self.new ≡ self.old ++ [] ∷ []) }
        ensures err { OnErr result (self.new ≡ self.old) }
    {
        self.rings.push(Vec::new(self.alloc))?;
        Ok(())
    }

    /// Adds a corner at the end of the last ring, or changes nothing where no memory is left.
    pub fn push(&mut self, c: Corner) -> Result<(), AllocError>
        requires begun { 0 < length self.now }
        ensures ok { OnOk result (self.new ≡ with_corner self.old c) }
        ensures err { OnErr result (self.new ≡ self.old) }
    {
        let last = self.rings.len() - 1;
        self.rings[last].push(c)?;
        Ok(())
    }

    /// The number of rings.
    pub fn len(&self) -> usize
        ensures { result ≡ length self.now }
    {
        self.rings.len()
    }

    /// The corners of ring i, from 0 on.
    pub fn corners(&self, i: usize) -> &[Corner]
        requires { i < length self.now }
        ensures { slice_get self.now i ≡ Some result.now }
    {
        &self.rings[i]
    }
}

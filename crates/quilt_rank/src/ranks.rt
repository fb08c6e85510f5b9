ghost use Rattle.std.specs.Prelude.{◌≡◌, [], ◌∷◌, ◌++◌, OnOk};

use quilt_clip::Frac;
use std::alloc::{AllocError, Global};
use std::marker::Model;

/// A list of ids of segments with their squared distances.
#[derive(Drop)]
pub struct RankList {
    ranks: Vec<(u32, Frac)>,
}

impl Model for RankList {
    ghost use Rattle.std.specs.Prelude.{List, ℕ};
    ghost use Rattle.quilt_types.specs.Fractions.{Fraction};

    ghost Value = { List (ℕ × Fraction) };

    ghost view = { λ r. r.ranks.items };
}

impl RankList {
    /// No segments. It takes no memory, and keeps the allocator.
    pub(crate) fn new(alloc: Global) -> RankList
        ensures { result ≡ [] }
    {
        RankList {
            ranks: Vec::new(alloc),
        }
    }

    /// Adds a segment at the end.
    pub(crate) fn push(&mut self, id: u32, far: Frac) -> Result<(), AllocError>
        ensures { OnOk result (self.new ≡ self.old ++ (id, far) ∷ []) }
    {
        self.ranks.push((id, far))?;
        Ok(())
    }

    /// The ids with their distances.
    pub fn items(&self) -> &[(u32, Frac)]
        ensures { result.now ≡ self.now }
    {
        &self.ranks
    }
}

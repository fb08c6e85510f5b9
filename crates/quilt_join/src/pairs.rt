ghost use Rattle.std.specs.Prelude.{◌≡◌, [], ◌∷◌, ◌++◌, OnOk, OnErr};

use std::alloc::{AllocError, Global};
use std::marker::Model;

/// A list of pairs of ids.
#[derive(Drop)]
pub struct PairList {
    pairs: Vec<(u32, u32)>,
}

impl Model for PairList {
    ghost use Rattle.std.specs.Prelude.{List, ℕ};

    ghost Value = { List (ℕ × ℕ) };

    ghost view = { λ p. p.pairs.items };
}

impl PairList {
    /// No pairs. It takes no memory, and keeps the allocator.
    pub(crate) fn new(alloc: Global) -> PairList
        ensures { result ≡ [] }
    {
        PairList {
            pairs: Vec::new(alloc),
        }
    }

    /// Adds a pair at the end, or changes nothing where no memory is left.
    pub(crate) fn push(&mut self, pair: (u32, u32)) -> Result<(), AllocError>
        ensures ok { OnOk result (self.new ≡ self.old ++ pair ∷ []) }
        ensures err { OnErr result (self.new ≡ self.old) }
    {
        self.pairs.push(pair)?;
        Ok(())
    }

    /// Adds pairs at the end, or changes nothing where no memory is left.
    pub(crate) fn append(&mut self, pairs: &[(u32, u32)]) -> Result<(), AllocError>
        ensures { OnOk result (self.new ≡ self.old ++ pairs.now) }
    {
        self.pairs.extend_from_slice(pairs)?;
        Ok(())
    }

    /// The pairs.
    pub fn items(&self) -> &[(u32, u32)]
        ensures { result.now ≡ self.now }
    {
        &self.pairs
    }
}

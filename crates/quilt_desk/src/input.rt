ghost use Rattle.std.specs.Prelude.{◌≡◌, ◌≤◌, length, drop, IfOk};

use std::alloc::{AllocError, Global};
use std::marker::Model;

/// Bytes that are taken from the front. It is seen as those that are left.
#[derive(Drop)]
pub(crate) struct Input {
    bytes: Vec<u8>,
    taken: usize,
}

impl Model for Input {
    ghost use Rattle.std.specs.Prelude.{List, ℕ, ◌≤◌, length, drop};

    ghost Value = { List ℕ };

    ghost view = { λ i. drop i.taken i.bytes.items };

    ghost invariant = { λ i. i.taken ≤ length i.bytes.items };
}

impl Input {
    /// All of these bytes.
    pub(crate) fn new(alloc: Global, bytes: &[u8]) -> Result<Input, AllocError>
        ensures { IfOk result (λ i. i ≡ bytes.now) }
    {
        Ok(Input {
            bytes: Vec::from_slice(alloc, bytes)?,
            taken: 0,
        })
    }

    /// The bytes that are left.
    pub(crate) fn left(&self) -> &[u8]
        ensures { result.now ≡ self.now }
    {
        &self.bytes[self.taken..]
    }

    /// Takes this many bytes.
    pub(crate) fn skip(&mut self, n: usize)
        requires { n ≤ length self.old }
        ensures { self.new ≡ drop n self.old }
    {
        self.taken += n;
    }
}

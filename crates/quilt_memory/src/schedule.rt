ghost use Rattle.std.specs.Prelude.{◌≡◌, ◌≤◌, ◌≢◌, IfErr};

use quilt_host::Failure;
use std::alloc::{AllocError, Global};

/// What goes wrong, and when: which calls fail, how often a signal interrupts one, how many bytes a call handles at most, how
/// long a file may become, and whether it may only be read.
#[derive(Drop)]
pub(crate) struct Schedule {
    failing: Vec<u64>,
    every: u64,
    calls: u64,
    pub(crate) most: usize,
    pub(crate) room: usize,
    pub(crate) is_read_only: bool,
    ghost some: { 1 ≤ most },
}

impl Schedule {
    /// Nothing goes wrong.
    pub(crate) fn calm(alloc: Global) -> Schedule {
        Schedule {
            failing: Vec::new(alloc),
            every: 0,
            calls: 0,
            most: usize::MAX,
            room: usize::MAX,
            is_read_only: false,
        }
    }

    /// Lets the call of this number fail too.
    pub(crate) fn fail_at(&mut self, call: u64) -> Result<(), AllocError> {
        self.failing.push(call)?;
        Ok(())
    }

    /// Lets a signal interrupt each so manieth call that can be interrupted; 0 stands for none.
    pub(crate) fn interrupt_every(&mut self, every: u64) {
        self.every = every;
    }

    /// Lets each call handle so many bytes at most. 0 stands for 1.
    pub(crate) fn piece(&mut self, most: usize) {
        self.most = most.max(1);
    }

    /// Counts a call, which fails where it was told to.
    pub(crate) fn begin(&mut self) -> Result<(), Failure>
        ensures { IfErr result (λ e. e ≡ Failure.Other) }
    {
        self.calls = self.calls.saturating_add(1);
        if self.failing.contains(&self.calls) {
            return Err(Failure::Other);
        }
        Ok(())
    }

    /// Counts a call that a signal may interrupt.
    pub(crate) fn begin_some(&mut self) -> Result<(), Failure>
        ensures { IfErr result (λ e. (e ≢ Failure.Missing) × (e ≢ Failure.Taken)) }
    {
        self.begin()?;
        if self.every != 0 && self.calls % self.every == 0 {
            return Err(Failure::Interrupted);
        }
        Ok(())
    }
}

ghost use Rattle.std.specs.Prelude.{◌≡◌, ◌≤◌, ◌↔◌, ◌∷◌, ◌++◌, [], OnOk, OnErr, IsErr, Contains};
ghost use Rattle.quilt_world.specs.Causes.{HasCause, Rose, next_count};

use quilt_world::Fault;
use std::alloc::{AllocError, Global};

/// The calls so far, the numbers of those that fail, and how often one has failed.
#[derive(Drop)]
pub(crate) struct Calls {
    failing: Vec<u64>,
    count: u64,
    faults: u64,
}

impl Calls {
    /// No call yet, and none that fails.
    pub(crate) fn new(alloc: Global) -> Calls
        ensures failing { result.failing.items ≡ [] }
        ensures count { result.count ≡ 0 }
        ensures faults { result.faults ≡ 0 }
    {
        Calls {
            failing: Vec::new(alloc),
            count: 0,
            faults: 0,
        }
    }

    /// Lets the call of this number fail too.
    pub(crate) fn fail_at(&mut self, call: u64) -> Result<(), AllocError>
        ensures ok { OnOk result (self.new.failing.items ≡ self.old.failing.items ++ call ∷ []) }
        ensures err { OnErr result (self.new.failing.items ≡ self.old.failing.items) }
        ensures count { self.new.count ≡ self.old.count }
        ensures faults { self.new.faults ≡ self.old.faults }
    {
        self.failing.push(call)?;
        Ok(())
    }

    /// Counts a call, and a fault where it is one that fails.
    pub(crate) fn begin(&mut self) -> Result<(), Fault>
        ensures failing { self.new.failing.items ≡ self.old.failing.items }
        ensures count { self.new.count ≡ next_count self.old.count }
        ensures fine { OnOk result (self.new.faults ≡ self.old.faults) }
        ensures cause { HasCause self.old.faults self.new.faults result }
        ensures named { IsErr result ↔ Contains self.old.failing.items (next_count self.old.count) }
    {
        self.count = self.count.saturating_add(1);
        if self.failing.contains(&self.count) {
            return Err(self.fault());
        }
        Ok(())
    }

    /// Counts a fault.
    pub(crate) fn fault(&mut self) -> Fault
        ensures failing { self.new.failing.items ≡ self.old.failing.items }
        ensures count { self.new.count ≡ self.old.count }
        ensures later { self.old.faults ≤ self.new.faults }
        ensures rose { Rose self.old.faults self.new.faults }
    {
        self.faults = self.faults.saturating_add(1);
        Fault
    }
}

ghost use Rattle.std.specs.Prelude.{◌≡◌, ◌≢◌, ◌⊎◌, ℕ, ◌<◌, ◌≤◌, ◌+◌, [], ◌∷◌, true, length, take, slice_index_or, Option, IsErr, IsTrue, OnOk, OnErr, IfOk, IfSome};
ghost use Rattle.std.specs.Option.{ForSome, option_map};
ghost use Rattle.quilt_world.specs.Causes.{HasCause, Rose, next_count};
ghost use Rattle.quilt_world.specs.Doors.{attached, made, OpensAt, MakesAt, TakesFrom};
ghost use Rattle.quilt_world.specs.Tale.{Adds, Goes};
ghost use Rattle.quilt_world.specs.declared.event.Event.TheVariants.{Wrote, Tore, Synced, Put};
ghost use Rattle.quilt_world.specs.declared.disk.Door.TheVariants as doors;
ghost use Rattle.quilt_host.specs.Paging.{KeepsBytes, FailsToMake};
ghost use Rattle.quilt_host.specs.Worlds.{tale_of, IsUnasked, IsFileKept, IsSoundStory};
ghost use Rattle.quilt_host.specs.Tales.{tale_is_consistent};

use crate::failure::Failure;
use crate::opened::{make_map, open_map};
use crate::pages::{read_page, sync_pages, write_page};
use crate::streams;
use crate::system::System;
use quilt_world::{Attached, Disk, Door, Fault, Made, World};

/// The world of a map file and the standard streams over a system. It tells what the system tells.
#[derive(Drop)]
pub struct HostWorld<S: System> {
    system: S,
    door: Door,
    pages: u32,
    may_write: bool,
    reads: u64,
    writes: u64,
    faults: u64,
    ghost no_pages: { door ≢ doors.Ready → door ≢ doors.Made → pages ≡ 0 },
    ghost sound: { ForSome (S.told system) (IsSoundStory door pages) },
}

impl<S: System> HostWorld<S> {
    ghost use Rattle.quilt_host.specs.Systems.{system_of, host_reads, writes_of};

    /// The world before any call, over a system that has not yet opened, made or removed a file or written a line.
    pub fn new(system: S) -> HostWorld<S>
        requires { IfSome (S.told system) IsUnasked }
        ensures system { system_of result ≡ system }
        ensures told { ⟦<HostWorld<S> as Disk>⟧.told result ≡ option_map (tale_of doors.Shut 0 0 0) (S.told system) }
        ensures door { ⟦<HostWorld<S> as Disk>⟧.door result ≡ doors.Shut }
        ensures faults { ⟦<HostWorld<S> as Disk>⟧.faults result ≡ 0 }
    {
        HostWorld {
            system,
            door: Door::Shut,
            pages: 0,
            may_write: false,
            reads: 0,
            writes: 0,
            faults: 0,
        }
    }

    /// The system, which is given back. The tale of the world is read off its story.
    pub fn into_system(self) -> S
        ensures system { result ≡ system_of self }
        ensures told { ⟦<HostWorld<S> as Disk>⟧.told self
            ≡ option_map (tale_of (⟦<HostWorld<S> as Disk>⟧.door self) (⟦<HostWorld<S> as Disk>⟧.size self) (host_reads self) (writes_of self)) (S.told result) }
        ensures kept { IfSome (S.told result) (IsFileKept (⟦<HostWorld<S> as Disk>⟧.door self)) }
    {
        let HostWorld {
            system,
            door: _,
            pages: _,
            may_write: _,
            reads: _,
            writes: _,
            faults: _,
        } = self;
        system
    }
}

/// Counts a fault. The count stays at its last value.
fn counted(faults: &mut u64) -> Fault
    ensures later { faults.old ≤ faults.new }
    ensures rose { Rose faults.old faults.new }
{
    *faults = faults.saturating_add(1);
    Fault
}

/// What a call gave, where each failure is a fault that is counted.
fn or_fault<T>(faults: &mut u64, outcome: Result<T, Failure>) -> Result<T, Fault>
    ensures cause { HasCause faults.old faults.new result }
    ensures ok { IfOk outcome (λ value. result ≡ Ok value) }
    ensures err { IsErr outcome → IsErr result }
{
    match outcome {
        Ok(value) => Ok(value),
        Err(_) => Err(counted(faults)),
    }
}

impl<S: System> Disk for HostWorld<S> {
    ghost told = { λ w. option_map (tale_of w.door w.pages w.reads w.writes) (S.told w.system) };

    ghost door = { λ w. w.door };

    ghost size = { λ w. w.pages };

    ghost faults = { λ w. w.faults };

    ghost is_consistent = { λ w. tale_is_consistent w.door w.pages w.reads w.writes w.no_pages (S.told w.system) w.sound };

    ghost no_file = { λ w. w.no_pages };

    fn pages(&self) -> u32 {
        self.pages
    }

    fn read_page(&mut self, i: u32, into: &mut [u8; 4096]) -> Result<(), Fault> {
        self.reads = self.reads.saturating_add(1);
        let outcome = read_page(&mut self.system, i, into);
        or_fault(&mut self.faults, outcome)
    }

    fn write_page(&mut self, i: u32, bytes: &[u8; 4096]) -> Result<(), Fault>
        requires { i < ⟦<HostWorld<S> as Disk>⟧.size self.old }
        ensures cause { HasCause (⟦<HostWorld<S> as Disk>⟧.faults self.old) (⟦<HostWorld<S> as Disk>⟧.faults self.new) result }
        ensures size { ⟦<HostWorld<S> as Disk>⟧.size self.new ≡ ⟦<HostWorld<S> as Disk>⟧.size self.old }
        ensures door { ⟦<HostWorld<S> as Disk>⟧.door self.new ≡ ⟦<HostWorld<S> as Disk>⟧.door self.old }
        ensures counts { Goes (λ old new. (new.writes ≡ next_count old.writes) × (new.reads ≡ old.reads)) (⟦<HostWorld<S> as Disk>⟧.told self.old)
            (⟦<HostWorld<S> as Disk>⟧.told self.new) }
        ensures wrote { OnOk result (Goes (Adds (Wrote i bytes.now ∷ [])) (⟦<HostWorld<S> as Disk>⟧.told self.old) (⟦<HostWorld<S> as Disk>⟧.told self.new)) }
        ensures tore { OnErr result
            (Goes (λ old new. Adds (Tore i ∷ []) old new ⊎ Adds [] old new) (⟦<HostWorld<S> as Disk>⟧.told self.old) (⟦<HostWorld<S> as Disk>⟧.told self.new)) }
        ensures allowed { OnOk result (IsTrue self.old.may_write) }
    {
        self.writes = self.writes.saturating_add(1);
        if !self.may_write {
            return Err(counted(&mut self.faults));
        }
        let outcome = write_page(&mut self.system, i, bytes);
        or_fault(&mut self.faults, outcome)
    }

    fn sync(&mut self) -> Result<(), Fault>
        requires { 0 < ⟦<HostWorld<S> as Disk>⟧.size self.old }
        ensures cause { HasCause (⟦<HostWorld<S> as Disk>⟧.faults self.old) (⟦<HostWorld<S> as Disk>⟧.faults self.new) result }
        ensures size { ⟦<HostWorld<S> as Disk>⟧.size self.new ≡ ⟦<HostWorld<S> as Disk>⟧.size self.old }
        ensures door { ⟦<HostWorld<S> as Disk>⟧.door self.new ≡ ⟦<HostWorld<S> as Disk>⟧.door self.old }
        ensures counts { Goes (λ old new. (new.writes ≡ old.writes) × (new.reads ≡ old.reads)) (⟦<HostWorld<S> as Disk>⟧.told self.old)
            (⟦<HostWorld<S> as Disk>⟧.told self.new) }
        ensures synced { OnOk result (Goes (Adds (Synced ∷ [])) (⟦<HostWorld<S> as Disk>⟧.told self.old) (⟦<HostWorld<S> as Disk>⟧.told self.new)) }
        ensures nothing { OnErr result (Goes (Adds []) (⟦<HostWorld<S> as Disk>⟧.told self.old) (⟦<HostWorld<S> as Disk>⟧.told self.new)) }
        ensures allowed { OnOk result (IsTrue self.old.may_write) }
    {
        if !self.may_write {
            return Err(counted(&mut self.faults));
        }
        let outcome = sync_pages(&mut self.system);
        or_fault(&mut self.faults, outcome)
    }
}

impl<S: System> World for HostWorld<S> {
    fn attach(&mut self, path: &str) -> Result<Attached, Fault>
        requires { ⟦<HostWorld<S> as Disk>⟧.door self.old ≡ doors.Shut }
        ensures cause { HasCause (⟦<HostWorld<S> as Disk>⟧.faults self.old) (⟦<HostWorld<S> as Disk>⟧.faults self.new) result }
        ensures door { ⟦<HostWorld<S> as Disk>⟧.door self.new ≡ attached result }
        ensures tale { Goes (OpensAt path.now (⟦<HostWorld<S> as Disk>⟧.door self.new)) (⟦<HostWorld<S> as Disk>⟧.told self.old) (⟦<HostWorld<S> as Disk>⟧.told self.new) }

        // No file is made, removed or changed.
        ensures kept { Goes KeepsBytes (S.told self.old.system) (S.told self.new.system) }
    {
        match open_map(&mut self.system, path) {
            Ok(opened) => {
                self.pages = opened.pages;
                self.may_write = opened.may_write;
                self.door = Door::Ready;
                Ok(Attached::Ready)
            }
            Err(Failure::Missing) => {
                self.door = Door::Missing;
                Ok(Attached::Missing)
            }
            Err(_) => {
                self.door = Door::Failed;
                Err(counted(&mut self.faults))
            }
        }
    }

    fn make(&mut self, path: &str, pages: u32) -> Result<Made, Fault>
        requires { ⟦<HostWorld<S> as Disk>⟧.door self.old ≡ doors.Shut }
        ensures cause { HasCause (⟦<HostWorld<S> as Disk>⟧.faults self.old) (⟦<HostWorld<S> as Disk>⟧.faults self.new) result }
        ensures door { ⟦<HostWorld<S> as Disk>⟧.door self.new ≡ made result }
        ensures size { ⟦<HostWorld<S> as Disk>⟧.door self.new ≡ doors.Made → ⟦<HostWorld<S> as Disk>⟧.size self.new ≡ pages }
        ensures tale { Goes (MakesAt path.now pages (⟦<HostWorld<S> as Disk>⟧.door self.new)) (⟦<HostWorld<S> as Disk>⟧.told self.old) (⟦<HostWorld<S> as Disk>⟧.told self.new) }

        // A file that was there is as it was, and the removal of one that was made in vain was asked for.
        ensures kept { self.new.door ≢ doors.Made → Goes FailsToMake (S.told self.old.system) (S.told self.new.system) }
    {
        match make_map(&mut self.system, path, pages) {
            Ok(()) => {
                self.pages = pages;
                self.may_write = true;
                self.door = Door::Made;
                Ok(Made::Ready)
            }
            Err(Failure::Taken) => {
                self.door = Door::Taken;
                Ok(Made::Taken)
            }
            Err(_) => {
                self.door = Door::Failed;
                Err(counted(&mut self.faults))
            }
        }
    }

    fn take(&mut self, into: &mut [u8]) -> Result<usize, Fault> {
        let outcome = streams::take(&mut self.system, into);
        or_fault(&mut self.faults, outcome)
    }

    fn put(&mut self, bytes: &[u8]) -> Result<usize, Fault> {
        let outcome = streams::put(&mut self.system, bytes);
        or_fault(&mut self.faults, outcome)
    }
}

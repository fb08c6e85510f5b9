ghost use Rattle.std.specs.Prelude.{◌≡◌, ◌⊎◌, ◌↔◌, ◌<◌, ◌≤◌, ◌+◌, ◌++◌, [], ◌∷◌, min, length, take, slice_set, slice_index_or, IsOk, IsSome, OnOk, OnErr, IfOk};
ghost use Rattle.std.specs.Prelude.{IfSome, None};
ghost use Rattle.quilt_world.specs.Causes.{HasCause, next_count, last};
ghost use Rattle.quilt_world.specs.Doors.{attached, made, OpensAt, MakesAt, TakesFrom};
ghost use Rattle.quilt_world.specs.Tale.{Adds, Goes};
ghost use Rattle.quilt_world.specs.declared.disk.Door.TheVariants as doors;
ghost use Rattle.quilt_world.specs.declared.event.Event.TheVariants.{Wrote, Tore, Synced, Put};
ghost use Rattle.quilt_desk.specs.Sources.{SourceGives};
ghost use Rattle.quilt_desk.specs.CalmViews.{path_of, shelf_of, disk_of, room_of, source_of, written_by, KeepsFile, KeepsStreams};

use super::Calm;
use crate::path::is_same;
use quilt_world::{Attached, Disk, Door, Fault, Made, World};

impl Disk for Calm {
    ghost told = { λ c. None };

    ghost door = { λ c. c.door };

    ghost size = { λ c. c.size };

    ghost faults = { λ c. 0 };

    ghost is_consistent = { λ c. tt };

    ghost no_file = { λ c. c.no_pages };

    fn pages(&self) -> u32 {
        self.size
    }

    fn read_page(&mut self, i: u32, into: &mut [u8; 4096]) -> Result<(), Fault>
        requires { i < ⟦<Calm as Disk>⟧.size self.old }
        ensures cause { HasCause (⟦<Calm as Disk>⟧.faults self.old) (⟦<Calm as Disk>⟧.faults self.new) result }
        ensures size { ⟦<Calm as Disk>⟧.size self.new ≡ ⟦<Calm as Disk>⟧.size self.old }
        ensures door { ⟦<Calm as Disk>⟧.door self.new ≡ ⟦<Calm as Disk>⟧.door self.old }
        ensures counts { Goes (λ old new. (new.reads ≡ next_count old.reads) × (new.writes ≡ old.writes)) (⟦<Calm as Disk>⟧.told self.old)
            (⟦<Calm as Disk>⟧.told self.new) }
        ensures nothing { Goes (Adds []) (⟦<Calm as Disk>⟧.told self.old) (⟦<Calm as Disk>⟧.told self.new) }
        ensures bytes { OnOk result (IfSome (⟦<Calm as Disk>⟧.told self.new) (λ new. into.new ≡ slice_index_or new.seen i [])) }
        ensures ok { IsOk result }
        ensures page { into.new ≡ slice_index_or (disk_of self.old) i [] }
        ensures file { KeepsFile self.old self.new }
        ensures streams { KeepsStreams self.old self.new }
    {
        *into = *self.disk.page(i);
        Ok(())
    }

    fn write_page(&mut self, i: u32, bytes: &[u8; 4096]) -> Result<(), Fault>
        requires { i < ⟦<Calm as Disk>⟧.size self.old }
        ensures cause { HasCause (⟦<Calm as Disk>⟧.faults self.old) (⟦<Calm as Disk>⟧.faults self.new) result }
        ensures size { ⟦<Calm as Disk>⟧.size self.new ≡ ⟦<Calm as Disk>⟧.size self.old }
        ensures door { ⟦<Calm as Disk>⟧.door self.new ≡ ⟦<Calm as Disk>⟧.door self.old }
        ensures counts { Goes (λ old new. (new.writes ≡ next_count old.writes) × (new.reads ≡ old.reads)) (⟦<Calm as Disk>⟧.told self.old)
            (⟦<Calm as Disk>⟧.told self.new) }
        ensures wrote { OnOk result (Goes (Adds (Wrote i bytes.now ∷ [])) (⟦<Calm as Disk>⟧.told self.old) (⟦<Calm as Disk>⟧.told self.new)) }
        ensures tore { OnErr result
            (Goes (λ old new. Adds (Tore i ∷ []) old new ⊎ Adds [] old new) (⟦<Calm as Disk>⟧.told self.old) (⟦<Calm as Disk>⟧.told self.new)) }
        ensures ok { IsOk result }
        ensures page { disk_of self.new ≡ slice_set (disk_of self.old) i bytes.now }
        ensures streams { KeepsStreams self.old self.new }
    {
        self.disk.set_page(i, bytes);
        Ok(())
    }

    fn sync(&mut self) -> Result<(), Fault>
        requires { 0 < ⟦<Calm as Disk>⟧.size self.old }
        ensures cause { HasCause (⟦<Calm as Disk>⟧.faults self.old) (⟦<Calm as Disk>⟧.faults self.new) result }
        ensures size { ⟦<Calm as Disk>⟧.size self.new ≡ ⟦<Calm as Disk>⟧.size self.old }
        ensures door { ⟦<Calm as Disk>⟧.door self.new ≡ ⟦<Calm as Disk>⟧.door self.old }
        ensures counts { Goes (λ old new. (new.writes ≡ old.writes) × (new.reads ≡ old.reads)) (⟦<Calm as Disk>⟧.told self.old)
            (⟦<Calm as Disk>⟧.told self.new) }
        ensures synced { OnOk result (Goes (Adds (Synced ∷ [])) (⟦<Calm as Disk>⟧.told self.old) (⟦<Calm as Disk>⟧.told self.new)) }
        ensures nothing { OnErr result (Goes (Adds []) (⟦<Calm as Disk>⟧.told self.old) (⟦<Calm as Disk>⟧.told self.new)) }
        ensures ok { IsOk result }
        ensures file { KeepsFile self.old self.new }
        ensures streams { KeepsStreams self.old self.new }
    {
        Ok(())
    }
}

impl World for Calm {
    fn attach(&mut self, path: &str) -> Result<Attached, Fault>
        requires { ⟦<Calm as Disk>⟧.door self.old ≡ doors.Shut }
        ensures cause { HasCause (⟦<Calm as Disk>⟧.faults self.old) (⟦<Calm as Disk>⟧.faults self.new) result }
        ensures door { ⟦<Calm as Disk>⟧.door self.new ≡ attached result }
        ensures tale { Goes (OpensAt path.now (⟦<Calm as Disk>⟧.door self.new)) (⟦<Calm as Disk>⟧.told self.old) (⟦<Calm as Disk>⟧.told self.new) }
        ensures ready { (⟦<Calm as Disk>⟧.door self.new ≡ doors.Ready) ↔ ((path.now ≡ path_of self.old) × IsSome (shelf_of self.old)) }
        ensures ok { IsOk result }
        ensures file { IfSome (shelf_of self.old) (λ file. ⟦<Calm as Disk>⟧.door self.new ≡ doors.Ready
            → (disk_of self.new ≡ file) × (⟦<Calm as Disk>⟧.size self.new ≡ length file)) }
        ensures streams { KeepsStreams self.old self.new }
    {
        self.door = Door::Missing;
        if !is_same(&self.path, path) {
            return Ok(Attached::Missing);
        }
        match self.shelf.take() {
            None => Ok(Attached::Missing),
            Some(file) => {
                self.size = file.pages();
                self.disk = file;
                self.door = Door::Ready;
                Ok(Attached::Ready)
            }
        }
    }

    fn make(&mut self, path: &str, pages: u32) -> Result<Made, Fault>
        requires { ⟦<Calm as Disk>⟧.door self.old ≡ doors.Shut }
        ensures cause { HasCause (⟦<Calm as Disk>⟧.faults self.old) (⟦<Calm as Disk>⟧.faults self.new) result }
        ensures door { ⟦<Calm as Disk>⟧.door self.new ≡ made result }
        ensures size { ⟦<Calm as Disk>⟧.door self.new ≡ doors.Made → ⟦<Calm as Disk>⟧.size self.new ≡ pages }
        ensures tale { Goes (MakesAt path.now pages (⟦<Calm as Disk>⟧.door self.new)) (⟦<Calm as Disk>⟧.told self.old) (⟦<Calm as Disk>⟧.told self.new) }
        ensures taken { (⟦<Calm as Disk>⟧.door self.new ≡ doors.Taken)
            ↔ (((path.now ≡ path_of self.old) × IsSome (shelf_of self.old)) ⊎ (room_of self.old < pages)) }
        ensures ok { IsOk result }
        ensures file { KeepsFile self.old self.new }
        ensures streams { KeepsStreams self.old self.new }
    {
        if (self.shelf.is_some() && is_same(&self.path, path)) || self.disk.pages() < pages {
            self.door = Door::Taken;
            return Ok(Made::Taken);
        }
        self.size = pages;
        self.door = Door::Made;
        Ok(Made::Ready)
    }

    fn take(&mut self, into: &mut [u8]) -> Result<usize, Fault>
        requires open { (⟦<Calm as Disk>⟧.door self.old ≡ doors.Ready) ⊎ (⟦<Calm as Disk>⟧.door self.old ≡ doors.Made) }
        requires room { 0 < length into.old }
        ensures cause { HasCause (⟦<Calm as Disk>⟧.faults self.old) (⟦<Calm as Disk>⟧.faults self.new) result }
        ensures door { ⟦<Calm as Disk>⟧.door self.new ≡ ⟦<Calm as Disk>⟧.door self.old }
        ensures size { ⟦<Calm as Disk>⟧.size self.new ≡ ⟦<Calm as Disk>⟧.size self.old }
        ensures count { IfOk result (λ n. n ≤ length into.old) }
        ensures took { IfOk result (λ n. Goes (TakesFrom (take n into.new)) (⟦<Calm as Disk>⟧.told self.old) (⟦<Calm as Disk>⟧.told self.new)) }
        ensures nothing { OnErr result (Goes (Adds []) (⟦<Calm as Disk>⟧.told self.old) (⟦<Calm as Disk>⟧.told self.new)) }
        ensures ok { IsOk result }
        ensures gives { IfOk result (λ n. SourceGives (source_of self.old) (take n into.new) (length into.old) (source_of self.new)) }
        ensures written { written_by self.new ≡ written_by self.old }
        ensures file { KeepsFile self.old self.new }
    {
        Ok(self.source.take(into))
    }

    fn put(&mut self, bytes: &[u8]) -> Result<usize, Fault>
        requires open { (⟦<Calm as Disk>⟧.door self.old ≡ doors.Ready) ⊎ (⟦<Calm as Disk>⟧.door self.old ≡ doors.Made) }
        requires some { 0 < length bytes.now }
        ensures cause { HasCause (⟦<Calm as Disk>⟧.faults self.old) (⟦<Calm as Disk>⟧.faults self.new) result }
        ensures door { ⟦<Calm as Disk>⟧.door self.new ≡ ⟦<Calm as Disk>⟧.door self.old }
        ensures size { ⟦<Calm as Disk>⟧.size self.new ≡ ⟦<Calm as Disk>⟧.size self.old }
        ensures count { IfOk result (λ n. (1 ≤ n) × (n ≤ length bytes.now)) }
        ensures put { IfOk result (λ n. Goes (Adds (Put (take n bytes.now) ∷ [])) (⟦<Calm as Disk>⟧.told self.old) (⟦<Calm as Disk>⟧.told self.new)) }
        ensures nothing { OnErr result (Goes (Adds []) (⟦<Calm as Disk>⟧.told self.old) (⟦<Calm as Disk>⟧.told self.new)) }
        ensures all { result ≡ Ok (length bytes.now) }
        ensures written { written_by self.new ≡ min (written_by self.old + length bytes.now) last }
        ensures input { source_of self.new ≡ source_of self.old }
        ensures file { KeepsFile self.old self.new }
    {
        self.written = self.written.saturating_add(bytes.len() as u64);
        Ok(bytes.len())
    }
}

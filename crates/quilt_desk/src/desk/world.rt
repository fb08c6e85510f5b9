ghost use Rattle.std.specs.Prelude.{◌≡◌, ◌⊎◌, ◌↔◌, ◌<◌, ◌≤◌, ◌++◌, [], ◌∷◌, min, length, take, slice_index_or, string_bytes, IsErr, OnOk, OnErr, IfOk, IfSome};
ghost use Rattle.std.specs.Prelude.{Some, refl};
ghost use Rattle.quilt_world.specs.Causes.{HasCause, next_count};
ghost use Rattle.quilt_world.specs.Doors.{attached, made, OpensAt, MakesAt, TakesFrom};
ghost use Rattle.quilt_world.specs.Tale.{Adds, Goes};
ghost use Rattle.quilt_world.specs.declared.disk.Door.TheVariants as doors;
ghost use Rattle.quilt_world.specs.declared.event.Event.TheVariants.{Wrote, Tore, Synced, Put};
ghost use Rattle.quilt_desk.specs.DeskViews.{file_of, most_of, FailsNext, LogHasRoom, CountsCall};

use super::Desk;
use crate::copies::Copies;
use crate::events::add_event;
use crate::path::is_same;
use quilt_types::Text;
use quilt_world::{Attached, Disk, Door, Event, Fault, Made, World};

impl Disk for Desk {
    ghost told = { λ d. Some
        (record {
          start = d.start;
          log = d.log.items;
          seen = d.current;
          reads = d.reads;
          writes = d.writes;
          input = d.input;
          path = string_bytes d.path;
          was_there = d.was_there;
        }) };

    ghost door = { λ d. d.door };

    ghost size = { λ d. length d.start };

    ghost faults = { λ d. d.calls.faults };

    ghost is_consistent = { λ d. (record { size = d.reading.size; last = d.reading.last }, refl) };

    ghost no_file = { λ d. d.no_pages };

    fn pages(&self) -> u32 {
        self.start.pages()
    }

    fn read_page(&mut self, i: u32, into: &mut [u8; 4096]) -> Result<(), Fault>
        requires { i < ⟦<Desk as Disk>⟧.size self.old }
        ensures cause { HasCause (⟦<Desk as Disk>⟧.faults self.old) (⟦<Desk as Disk>⟧.faults self.new) result }
        ensures size { ⟦<Desk as Disk>⟧.size self.new ≡ ⟦<Desk as Disk>⟧.size self.old }
        ensures door { ⟦<Desk as Disk>⟧.door self.new ≡ ⟦<Desk as Disk>⟧.door self.old }
        ensures counts { Goes (λ old new. (new.reads ≡ next_count old.reads) × (new.writes ≡ old.writes)) (⟦<Desk as Disk>⟧.told self.old)
            (⟦<Desk as Disk>⟧.told self.new) }
        ensures nothing { Goes (Adds []) (⟦<Desk as Disk>⟧.told self.old) (⟦<Desk as Disk>⟧.told self.new) }
        ensures bytes { OnOk result (IfSome (⟦<Desk as Disk>⟧.told self.new) (λ new. into.new ≡ slice_index_or new.seen i [])) }
        ensures call { CountsCall self.old self.new }
        ensures room { LogHasRoom self.old → LogHasRoom self.new }
        ensures named { IsErr result ↔ FailsNext self.old }
    {
        self.reads = self.reads.saturating_add(1);
        self.calls.begin()?;
        *into = *self.current.page(i);
        Ok(())
    }

    fn write_page(&mut self, i: u32, bytes: &[u8; 4096]) -> Result<(), Fault>
        requires { i < ⟦<Desk as Disk>⟧.size self.old }
        ensures cause { HasCause (⟦<Desk as Disk>⟧.faults self.old) (⟦<Desk as Disk>⟧.faults self.new) result }
        ensures size { ⟦<Desk as Disk>⟧.size self.new ≡ ⟦<Desk as Disk>⟧.size self.old }
        ensures door { ⟦<Desk as Disk>⟧.door self.new ≡ ⟦<Desk as Disk>⟧.door self.old }
        ensures counts { Goes (λ old new. (new.writes ≡ next_count old.writes) × (new.reads ≡ old.reads)) (⟦<Desk as Disk>⟧.told self.old)
            (⟦<Desk as Disk>⟧.told self.new) }
        ensures wrote { OnOk result (Goes (Adds (Wrote i bytes.now ∷ [])) (⟦<Desk as Disk>⟧.told self.old) (⟦<Desk as Disk>⟧.told self.new)) }
        ensures tore { OnErr result
            (Goes (λ old new. Adds (Tore i ∷ []) old new ⊎ Adds [] old new) (⟦<Desk as Disk>⟧.told self.old) (⟦<Desk as Disk>⟧.told self.new)) }
        ensures call { CountsCall self.old self.new }
        ensures torn { FailsNext self.old → LogHasRoom self.old
            → Goes (Adds (Tore i ∷ [])) (⟦<Desk as Disk>⟧.told self.old) (⟦<Desk as Disk>⟧.told self.new) }
        ensures room { OnOk result (LogHasRoom self.new) }
        ensures named { FailsNext self.old → IsErr result }
    {
        self.writes = self.writes.saturating_add(1);
        if let Err(fault) = self.calls.begin() {
            if self.log.push(Event::Tore { page: i }).is_ok() {
                let torn = torn_page(self.current.page(i), bytes);
                self.current.set_page(i, &torn);
            }
            return Err(fault);
        }
        let mut text = Text::new(self.alloc);
        if text.push(bytes).is_err()
            || add_event(
                &mut self.log,
                Event::Wrote {
                    page: i,
                    bytes: text,
                },
            )
            .is_err()
        {
            return Err(self.calls.fault());
        }
        self.current.set_page(i, bytes);
        Ok(())
    }

    fn sync(&mut self) -> Result<(), Fault>
        requires { 0 < ⟦<Desk as Disk>⟧.size self.old }
        ensures cause { HasCause (⟦<Desk as Disk>⟧.faults self.old) (⟦<Desk as Disk>⟧.faults self.new) result }
        ensures size { ⟦<Desk as Disk>⟧.size self.new ≡ ⟦<Desk as Disk>⟧.size self.old }
        ensures door { ⟦<Desk as Disk>⟧.door self.new ≡ ⟦<Desk as Disk>⟧.door self.old }
        ensures counts { Goes (λ old new. (new.writes ≡ old.writes) × (new.reads ≡ old.reads)) (⟦<Desk as Disk>⟧.told self.old)
            (⟦<Desk as Disk>⟧.told self.new) }
        ensures synced { OnOk result (Goes (Adds (Synced ∷ [])) (⟦<Desk as Disk>⟧.told self.old) (⟦<Desk as Disk>⟧.told self.new)) }
        ensures nothing { OnErr result (Goes (Adds []) (⟦<Desk as Disk>⟧.told self.old) (⟦<Desk as Disk>⟧.told self.new)) }
        ensures call { CountsCall self.old self.new }
        ensures room { LogHasRoom self.old → LogHasRoom self.new }
        ensures named { FailsNext self.old → IsErr result }
    {
        self.calls.begin()?;
        if add_event(&mut self.log, Event::Synced).is_err() {
            return Err(self.calls.fault());
        }
        Ok(())
    }
}

impl World for Desk {
    fn attach(&mut self, path: &str) -> Result<Attached, Fault>
        requires { ⟦<Desk as Disk>⟧.door self.old ≡ doors.Shut }
        ensures cause { HasCause (⟦<Desk as Disk>⟧.faults self.old) (⟦<Desk as Disk>⟧.faults self.new) result }
        ensures door { ⟦<Desk as Disk>⟧.door self.new ≡ attached result }
        ensures tale { Goes (OpensAt path.now (⟦<Desk as Disk>⟧.door self.new)) (⟦<Desk as Disk>⟧.told self.old) (⟦<Desk as Disk>⟧.told self.new) }
        ensures file { file_of self.new ≡ file_of self.old }
        ensures call { CountsCall self.old self.new }
        ensures room { LogHasRoom self.old → LogHasRoom self.new }
        ensures named { IsErr result ↔ FailsNext self.old }
    {
        self.door = Door::Failed;
        self.calls.begin()?;
        self.door = Door::Missing;
        if !is_same(&self.path, path) {
            return Ok(Attached::Missing);
        }
        match self.shelf.take() {
            None => Ok(Attached::Missing),
            Some(copies) => {
                self.start = copies.start;
                self.current = copies.current;
                self.door = Door::Ready;
                Ok(Attached::Ready)
            }
        }
    }

    fn make(&mut self, path: &str, pages: u32) -> Result<Made, Fault>
        requires { ⟦<Desk as Disk>⟧.door self.old ≡ doors.Shut }
        ensures cause { HasCause (⟦<Desk as Disk>⟧.faults self.old) (⟦<Desk as Disk>⟧.faults self.new) result }
        ensures door { ⟦<Desk as Disk>⟧.door self.new ≡ made result }
        ensures size { ⟦<Desk as Disk>⟧.door self.new ≡ doors.Made → ⟦<Desk as Disk>⟧.size self.new ≡ pages }
        ensures tale { Goes (MakesAt path.now pages (⟦<Desk as Disk>⟧.door self.new)) (⟦<Desk as Disk>⟧.told self.old) (⟦<Desk as Disk>⟧.told self.new) }
        ensures file { ⟦<Desk as Disk>⟧.door self.new ≡ doors.Taken → file_of self.new ≡ file_of self.old }
        ensures call { CountsCall self.old self.new }
        ensures room { LogHasRoom self.old → LogHasRoom self.new }
        ensures named { FailsNext self.old → IsErr result }
    {
        self.door = Door::Failed;
        self.calls.begin()?;
        if self.was_there || !is_same(&self.path, path) {
            self.door = Door::Taken;
            return Ok(Made::Taken);
        }
        match Copies::zero(self.alloc, pages) {
            Err(_) => Err(self.calls.fault()),
            Ok(copies) => {
                self.start = copies.start;
                self.current = copies.current;
                self.door = Door::Made;
                Ok(Made::Ready)
            }
        }
    }

    fn take(&mut self, into: &mut [u8]) -> Result<usize, Fault>
        requires open { (⟦<Desk as Disk>⟧.door self.old ≡ doors.Ready) ⊎ (⟦<Desk as Disk>⟧.door self.old ≡ doors.Made) }
        requires room { 0 < length into.old }
        ensures cause { HasCause (⟦<Desk as Disk>⟧.faults self.old) (⟦<Desk as Disk>⟧.faults self.new) result }
        ensures door { ⟦<Desk as Disk>⟧.door self.new ≡ ⟦<Desk as Disk>⟧.door self.old }
        ensures size { ⟦<Desk as Disk>⟧.size self.new ≡ ⟦<Desk as Disk>⟧.size self.old }
        ensures count { IfOk result (λ n. n ≤ length into.old) }
        ensures took { IfOk result (λ n. Goes (TakesFrom (take n into.new)) (⟦<Desk as Disk>⟧.told self.old) (⟦<Desk as Disk>⟧.told self.new)) }
        ensures nothing { OnErr result (Goes (Adds []) (⟦<Desk as Disk>⟧.told self.old) (⟦<Desk as Disk>⟧.told self.new)) }
        ensures call { CountsCall self.old self.new }
        ensures room { LogHasRoom self.old → LogHasRoom self.new }
        ensures named { FailsNext self.old → IsErr result }
        ensures most { IfOk result (λ n. n ≤ most_of self.old) }
    {
        self.calls.begin()?;
        let left = self.input.left();
        let n = left.len().min(into.len()).min(self.most);
        if n == 0 {
            return Ok(0);
        }
        let mut text = Text::new(self.alloc);
        if text.push(&left[..n]).is_err() || add_event(&mut self.log, Event::Took(text)).is_err() {
            return Err(self.calls.fault());
        }
        into[..n].copy_from_slice(&left[..n]);
        self.input.skip(n);
        Ok(n)
    }

    fn put(&mut self, bytes: &[u8]) -> Result<usize, Fault>
        requires open { (⟦<Desk as Disk>⟧.door self.old ≡ doors.Ready) ⊎ (⟦<Desk as Disk>⟧.door self.old ≡ doors.Made) }
        requires some { 0 < length bytes.now }
        ensures cause { HasCause (⟦<Desk as Disk>⟧.faults self.old) (⟦<Desk as Disk>⟧.faults self.new) result }
        ensures door { ⟦<Desk as Disk>⟧.door self.new ≡ ⟦<Desk as Disk>⟧.door self.old }
        ensures size { ⟦<Desk as Disk>⟧.size self.new ≡ ⟦<Desk as Disk>⟧.size self.old }
        ensures count { IfOk result (λ n. (1 ≤ n) × (n ≤ length bytes.now)) }
        ensures put { IfOk result (λ n. Goes (Adds (Put (take n bytes.now) ∷ [])) (⟦<Desk as Disk>⟧.told self.old) (⟦<Desk as Disk>⟧.told self.new)) }
        ensures nothing { OnErr result (Goes (Adds []) (⟦<Desk as Disk>⟧.told self.old) (⟦<Desk as Disk>⟧.told self.new)) }
        ensures call { CountsCall self.old self.new }
        ensures room { LogHasRoom self.old → LogHasRoom self.new }
        ensures named { FailsNext self.old → IsErr result }
        ensures most { IfOk result (λ n. n ≡ min (length bytes.now) (most_of self.old)) }
    {
        self.calls.begin()?;
        let n = bytes.len().min(self.most);
        let before = self.output.len();
        let mut text = Text::new(self.alloc);
        if text.push(&bytes[..n]).is_err() || self.output.extend_from_slice(&bytes[..n]).is_err() {
            return Err(self.calls.fault());
        }
        if add_event(&mut self.log, Event::Put(text)).is_err() {
            self.output.truncate(before);
            return Err(self.calls.fault());
        }
        Ok(n)
    }
}

/// A page whose write has stopped half way.
fn torn_page(old: &[u8; 4096], new: &[u8; 4096]) -> [u8; 4096] {
    let mut page = *old;
    for i in 0..2048_usize {
        page[i] = new[i];
    }
    page
}

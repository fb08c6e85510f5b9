ghost use Rattle.std.specs.Prelude.{◌≡◌, ◌≤◌, [], ◌∷◌, ◌++◌, Some, None, is_some, OnOk, OnErr, IfOk, IfSome};
ghost use Rattle.std.specs.Option.{option_copied};
ghost use Rattle.quilt_world.specs.Tale.{put_bytes};
ghost use Rattle.quilt_world.specs.declared.disk.Door.TheVariants as doors;
ghost use Rattle.quilt_desk.specs.DeskViews.{calls_of, failing_of, file_of, most_of, LogHasRoom};

use super::Desk;
use crate::calls::Calls;
use crate::copies::Copies;
use crate::input::Input;
use quilt_world::{Attached, Disk, Door, Event, Image, World};
use std::alloc::{AllocError, Global};

impl Desk {
    /// A world whose door is shut, with this input and at most one file, under this path.
    pub fn new(
        alloc: Global,
        path: &str,
        file: Option<Image>,
        input: &[u8],
    ) -> Result<Desk, AllocError>
        ensures told { IfOk result
            (λ d. ⟦<Desk as Disk>⟧.told d
            ≡ Some (record { start = []; log = []; seen = []; reads = 0; writes = 0; input = input.now; path = path.now; was_there = is_some file })) }
        ensures door { IfOk result (λ d. ⟦<Desk as Disk>⟧.door d ≡ doors.Shut) }
        ensures faults { IfOk result (λ d. ⟦<Desk as Disk>⟧.faults d ≡ 0) }
        ensures file { IfOk result (λ d. file_of d ≡ file) }
        ensures calls { IfOk result (λ d. calls_of d ≡ 0) }
        ensures failing { IfOk result (λ d. failing_of d ≡ []) }
        ensures most { IfOk result (λ d. most_of d ≡ usize.MAX) }
        ensures room { IfOk result LogHasRoom }
    {
        let was_there = file.is_some();
        let shelf = match file {
            Some(image) => Some(Copies::of(image)?),
            None => None,
        };
        Ok(Desk {
            alloc,
            path: String::from_str(alloc, path)?,
            was_there,
            shelf,
            door: Door::Shut,
            start: Image::new(alloc, 0)?,
            current: Image::new(alloc, 0)?,
            log: Vec::with_capacity(alloc, 1)?,
            input: Input::new(alloc, input)?,
            output: Vec::new(alloc),
            most: usize::MAX,
            reads: 0,
            writes: 0,
            calls: Calls::new(alloc),
        })
    }

    /// A world without input that has opened this file, and of which the call of this number fails. The call that opens the file is the
    /// first, and there is no such world where that one fails.
    pub fn opened(alloc: Global, file: Image, failing: u64) -> Result<Option<Desk>, AllocError>
        ensures none { IfOk result (λ o. o ≡ None → failing ≡ 1) }
        ensures door { IfOk result (λ o. IfSome o (λ d. ⟦<Desk as Disk>⟧.door d ≡ doors.Ready)) }
        ensures log { IfOk result (λ o. IfSome o (λ d. IfSome (⟦<Desk as Disk>⟧.told d) (λ t. t.log ≡ []))) }
        ensures file { IfOk result (λ o. IfSome o (λ d. file_of d ≡ Some file)) }
        ensures calls { IfOk result (λ o. IfSome o (λ d. calls_of d ≡ 1)) }
        ensures failing { IfOk result (λ o. IfSome o (λ d. failing_of d ≡ failing ∷ [])) }
    {
        let mut desk = Desk::new(alloc, "m", Some(file), b"")?;
        desk.fail_at(failing)?;
        match desk.attach("m") {
            Ok(Attached::Ready) => Ok(Some(desk)),
            _ => Ok(None),
        }
    }

    /// Lets the call of this number fail, counted from 1 over all calls of a disk and a world but `pages`. Several may fail. A
    /// write that fails so leaves its page torn, where the log has room for that event; there is room at the start, and behind
    /// each call that adds an event and does not fail.
    pub fn fail_at(&mut self, call: u64) -> Result<(), AllocError>
        ensures ok { OnOk result (failing_of self.new ≡ failing_of self.old ++ call ∷ []) }
        ensures err { OnErr result (failing_of self.new ≡ failing_of self.old) }
        ensures calls { calls_of self.new ≡ calls_of self.old }
        ensures most { most_of self.new ≡ most_of self.old }
        ensures room { LogHasRoom self.old → LogHasRoom self.new }
        ensures told { ⟦<Desk as Disk>⟧.told self.new ≡ ⟦<Desk as Disk>⟧.told self.old }
        ensures door { ⟦<Desk as Disk>⟧.door self.new ≡ ⟦<Desk as Disk>⟧.door self.old }
        ensures faults { ⟦<Desk as Disk>⟧.faults self.new ≡ ⟦<Desk as Disk>⟧.faults self.old }
        ensures file { file_of self.new ≡ file_of self.old }
    {
        self.calls.fail_at(call)
    }

    /// Lets `take` and `put` handle at most so many bytes a call.
    pub fn piece(&mut self, most: usize)
        requires { 1 ≤ most }
        ensures most { most_of self.new ≡ most }
        ensures room { LogHasRoom self.old → LogHasRoom self.new }
        ensures failing { failing_of self.new ≡ failing_of self.old }
        ensures calls { calls_of self.new ≡ calls_of self.old }
        ensures told { ⟦<Desk as Disk>⟧.told self.new ≡ ⟦<Desk as Disk>⟧.told self.old }
        ensures door { ⟦<Desk as Disk>⟧.door self.new ≡ ⟦<Desk as Disk>⟧.door self.old }
        ensures faults { ⟦<Desk as Disk>⟧.faults self.new ≡ ⟦<Desk as Disk>⟧.faults self.old }
        ensures file { file_of self.new ≡ file_of self.old }
    {
        self.most = most;
    }

    /// All bytes that were put.
    pub fn output(&self) -> &[u8]
        ensures { IfSome (⟦<Desk as Disk>⟧.told self.now) (λ t. result.now ≡ put_bytes t.log) }
    {
        &self.output
    }

    /// All that was done since the file was opened or made.
    pub fn log(&self) -> &[Event]
        ensures { IfSome (⟦<Desk as Disk>⟧.told self.now) (λ t. result.now ≡ t.log) }
    {
        &self.log
    }

    /// The file as it reads, if there is one.
    pub fn image(&self) -> Option<&Image>
        ensures { option_copied result ≡ file_of self.now }
    {
        match self.door {
            Door::Ready | Door::Made => Some(&self.current),
            Door::Shut | Door::Missing | Door::Taken | Door::Failed => self
                .shelf
                .as_ref()
                .map(|copies| &copies.current),
        }
    }
}

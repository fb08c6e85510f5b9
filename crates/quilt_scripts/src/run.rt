ghost use Rattle.std.specs.Prelude.{◌≡◌, [], IfOk, IfSome};
ghost use Rattle.quilt_world.specs.Tale.{taken_bytes};
ghost use Rattle.quilt_world.specs.declared.disk.Door.TheVariants as doors;

use crate::files::{file_after, put_by};
use quilt_desk::Desk;
use quilt_top::{End, run_quilt};
use quilt_world::{Disk, Image};
use std::alloc::{AllocError, Global};
use std::thread::Threads;

/// The words of a run of commands.
static RUN: [&str; 2] = ["run", "m"];

/// A run that is to be done over a desk, a world in memory that holds at most the file `m`.
#[derive(Clone, Copy)]
pub struct Run<'a> {
    words: &'a [&'a str],
    input: &'a [u8],
    most: usize,
    failing: Option<u64>,
}

/// The file behind a run that has ended so, where what it put and its status are these.
fn file_behind(end: End, desk: &Desk, output: &[u8], status: u8) -> Option<Image> {
    if put_by(desk) != output || end.status() != status {
        return None;
    }
    file_after(desk)
}

impl<'a> Run<'a> {
    /// What the words ask for, with this input.
    pub fn of(words: &'a [&'a str], input: &'a [u8]) -> Run<'a> {
        Run {
            words,
            input,
            most: usize::MAX,
            failing: None,
        }
    }

    /// The commands of the input.
    pub fn text(input: &'a [u8]) -> Run<'a> {
        Run::of(&RUN, input)
    }

    /// The same, with at most so many bytes, and at least one, taken or put in a call.
    pub fn in_pieces(self, most: usize) -> Run<'a> {
        Run { most, ..self }
    }

    /// The same, with the call of this number failing, counted from 1.
    pub fn failing_at(self, call: u64) -> Run<'a> {
        Run {
            failing: Some(call),
            ..self
        }
    }

    /// The desk that it is done over.
    fn desk(&self, alloc: Global, file: Option<Image>) -> Result<Desk, AllocError>
        ensures door { IfOk result (λ d. ⟦<Desk as Disk>⟧.door d ≡ doors.Shut) }
        ensures untaken { IfOk result (λ d. IfSome (⟦<Desk as Disk>⟧.told d) (λ t. taken_bytes t.log ≡ [])) }
    {
        let mut desk = Desk::new(alloc, "m", file, self.input)?;
        desk.piece(self.most.max(1));
        if let Some(call) = self.failing {
            desk.fail_at(call)?;
        }
        Ok(desk)
    }

    /// Does it over a desk with this file.
    pub fn over<R: Threads + Sync>(
        &self,
        rt: &R,
        alloc: Global,
        file: Option<Image>,
    ) -> Result<(End, Desk), AllocError> {
        let desk = self.desk(alloc, file)?;
        Ok(run_quilt(rt, alloc, self.words, desk))
    }

    /// Does it over a desk with this file: the file as it is then, where what is put and the status are these.
    pub fn answers<R: Threads + Sync>(
        &self,
        rt: &R,
        alloc: Global,
        file: Image,
        output: &[u8],
        status: u8,
    ) -> Option<Image> {
        let (end, desk) = self.over(rt, alloc, Some(file)).ok()?;
        file_behind(end, &desk, output, status)
    }
}

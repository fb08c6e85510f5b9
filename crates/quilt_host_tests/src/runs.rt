//! Runs over a system in memory, and the same over a desk.
ghost use Rattle.std.specs.Prelude.{IfOk, IfSome};
ghost use Rattle.quilt_host.specs.Worlds.{IsUnasked};

use quilt_host::{HostWorld, System};
use quilt_memory::Memory;
use quilt_scripts::{Run, file_of};
use quilt_top::{End, run_quilt};
use quilt_world::Image;
use std::alloc::{AllocError, Global};
use std::process::Abort;
use std::thread::Threads;

/// How a system in memory behaves: how many bytes a call handles at most, which so manieth call a signal interrupts and which call
/// fails (0 for none), and how long the file may become.
#[derive(Clone, Copy)]
pub struct Weather {
    pub piece: usize,
    pub every: u64,
    pub failing: u64,
    pub room: usize,
}

/// Nothing goes wrong.
pub const CALM: Weather = Weather {
    piece: usize::MAX,
    every: 0,
    failing: 0,
    room: usize::MAX,
};

/// The status of a run, what it put, and the file that it left, with no bytes where there is none.
#[derive(Drop)]
pub struct Left {
    pub status: u8,
    pub output: Vec<u8>,
    pub file: Vec<u8>,
}

/// A system with this file, where it has bytes, and this input.
fn system_of(
    alloc: Global,
    file: &[u8],
    input: &[u8],
    weather: Weather,
) -> Result<Memory, AllocError>
    ensures { IfOk result (λ m. IfSome (⟦<Memory as System>⟧.told m) IsUnasked) }
{
    let there = if file.is_empty() { None } else { Some(file) };
    let mut system = Memory::new(alloc, &[], "m", there, input)?;
    system.piece(weather.piece);
    system.interrupt_every(weather.every);
    system.room(weather.room);
    if weather.failing != 0 {
        system.fail_at(weather.failing)?;
    }
    Ok(system)
}

/// Does what the words ask for over the system.
fn done<R: Threads + Sync>(rt: &R, alloc: Global, words: &[&str], system: Memory) -> (End, Memory)
    requires { IfSome (⟦<Memory as System>⟧.told system) IsUnasked }
{
    let (end, world) = run_quilt(rt, alloc, words, HostWorld::new(system));
    (end, world.into_system())
}

/// What a run with this status left, which put these bytes, and left a file of these.
fn left_of(alloc: Global, status: u8, output: &[u8], file: &[u8]) -> Result<Left, AllocError> {
    let output = Vec::from_slice(alloc, output)?;
    Ok(Left {
        status,
        output,
        file: Vec::from_slice(alloc, file)?,
    })
}

/// The bytes of the file of a system, none where it has no file.
fn file_in(system: &Memory) -> &[u8] {
    match system.file() {
        Some(bytes) => bytes,
        None => &[],
    }
}

/// Does what the words ask for over a system in memory.
fn left_by<R: Threads + Sync>(
    rt: &R,
    alloc: Global,
    words: &[&str],
    file: &[u8],
    input: &[u8],
    weather: Weather,
) -> Result<Left, AllocError> {
    let (end, system) = done(rt, alloc, words, system_of(alloc, file, input, weather)?);
    left_of(alloc, end.status(), system.output(), file_in(&system))
}

/// Adds the bytes of the pages of a file.
fn add_pages(bytes: &mut Vec<u8>, file: &Image) -> Result<(), AllocError> {
    for i in 0..file.pages() {
        bytes.extend_from_slice(file.page(i))?;
    }
    Ok(())
}

/// The same of a run over a desk, which left this file.
fn left_with(
    alloc: Global,
    status: u8,
    output: &[u8],
    file: Option<&Image>,
) -> Result<Left, AllocError> {
    let mut left = left_of(alloc, status, output, &[])?;
    if let Some(image) = file {
        add_pages(&mut left.file, image)?;
    }
    Ok(left)
}

/// What the commands of the input leave of the file `m` over a desk, the other world in memory.
fn left_on_desk<R: Threads + Sync>(
    rt: &R,
    alloc: Global,
    file: Image,
    input: &[u8],
) -> Result<Left, AllocError> {
    let (end, desk) = Run::text(input).over(rt, alloc, Some(file))?;
    left_with(alloc, end.status(), desk.output(), desk.image())
}

/// What `new m PAGES 3` leaves in this weather.
pub fn made<R: Threads + Sync + Abort>(rt: &R, alloc: Global, weather: Weather) -> Left {
    left_by(rt, alloc, &["new", "m", "16", "3"], b"", b"", weather).expect(rt, "memory")
}

/// What the commands of the input leave of this file in this weather.
pub fn ran<R: Threads + Sync + Abort>(
    rt: &R,
    alloc: Global,
    file: &[u8],
    input: &[u8],
    weather: Weather,
) -> Left {
    left_by(rt, alloc, &["run", "m"], file, input, weather).expect(rt, "memory")
}

/// What the commands of the input leave of a new file over a desk.
pub fn desk_ran<R: Threads + Sync + Abort>(rt: &R, alloc: Global, input: &[u8]) -> Left {
    let file = file_of(rt, alloc, "16", "3").expect(rt, "a file");
    left_on_desk(rt, alloc, file, input).expect(rt, "memory")
}

/// What `new m 16 3` has to leave: the file that it makes over a desk.
pub fn desk_made<R: Threads + Sync + Abort>(rt: &R, alloc: Global) -> Left {
    let file = file_of(rt, alloc, "16", "3").expect(rt, "a file");
    left_with(alloc, 0, b"new 16 pages level 3\n", Some(&file)).expect(rt, "memory")
}

use crate::files::file_of;
use crate::turns::Turns;
use quilt_world::Image;
use std::alloc::{AllocError, Global};
use std::thread::Threads;

/// The turns of these lines. Each is a command and its reply, with ` |` between them and `; ` between the lines of either.
fn turns_of(alloc: Global, lines: &str) -> Result<Turns, AllocError> {
    let mut turns = Turns::new(alloc);
    for line in lines.lines() {
        let (command, reply) = line.split_once(" |").unwrap_or((line, ""));
        turns.says(command, reply.trim_start())?;
    }
    Ok(turns)
}

/// Plays a part of a script: a line with the size of the pool, and turns.
fn plays_part<R: Threads + Sync>(rt: &R, alloc: Global, file: Image, part: &str) -> Option<Image> {
    let (pool, lines) = part.split_once('\n')?;
    turns_of(alloc, lines).ok()?.played(rt, alloc, file, pool)
}

/// The file of a size `PAGES LEVEL`.
fn file_of_size<R: Threads + Sync>(rt: &R, alloc: Global, size: &str) -> Option<Image> {
    let (pages, level) = size.split_once(' ')?;
    file_of(rt, alloc, pages, level)
}

/// Plays a script: the file as it is then, where each run puts the replies that stand there and has their status. The first line is
/// `PAGES LEVEL`, those of the file. A line `run POOL` begins a run over the file as it is then, with a pool of so many pages. Each other
/// line is a command and its reply, with ` |` between them and `; ` between the lines of either.
pub fn plays<R: Threads + Sync>(rt: &R, alloc: Global, script: &str) -> Option<Image> {
    let (size, runs) = script.split_once("\nrun ")?;
    let mut file = file_of_size(rt, alloc, size)?;
    for part in runs.split("\nrun ") {
        file = plays_part(rt, alloc, file, part)?;
    }
    Some(file)
}

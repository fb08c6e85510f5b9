ghost use Rattle.std.specs.Prelude.{◌≤◌, length};

mod setup;
mod system;

use crate::schedule::Schedule;
use quilt_host::Act;
use std::alloc::Global;

/// A system in memory that tells everything: one path where a file may be, the streams, and a schedule of what goes wrong.
#[derive(Drop)]
pub struct Memory {
    alloc: Global,
    words: Vec<String>,
    path: String,
    was_there: bool,
    is_there: bool,
    is_owed: bool,
    bytes: Vec<u8>,
    settled: Vec<u8>,
    acts: Vec<Act>,
    input: Vec<u8>,
    taken: usize,
    output: Vec<u8>,
    errors: Vec<u8>,
    says: u64,
    schedule: Schedule,
    ghost within: { taken ≤ length input.items },
}

ghost use Rattle.std.specs.Prelude.{◌≡◌, ◌≢◌, ◌≤◌, length, is_some, IsTrue};
ghost use Rattle.std.specs.List.{list_all};
ghost use Rattle.quilt_world.specs.Tale.{put_bytes};
ghost use Rattle.quilt_world.specs.declared.disk.Door.TheVariants as doors;
ghost use Rattle.quilt_desk.specs.Reads.{Reads};
ghost use Rattle.quilt_desk.specs.Whole.{is_whole_page};

mod crash;
mod setup;
mod world;

use crate::calls::Calls;
use crate::copies::Copies;
use crate::input::Input;
use quilt_world::{Door, Event, Image};
use std::alloc::Global;

/// A world in memory that tells everything: at most one file under one path, an input, an output and a log.
#[derive(Drop)]
pub struct Desk {
    alloc: Global,
    path: String,
    was_there: bool,
    shelf: Option<Copies>,
    door: Door,
    start: Image,
    current: Image,
    log: Vec<Event>,
    input: Input,
    output: Vec<u8>,
    most: usize,
    reads: u64,
    writes: u64,
    calls: Calls,
    ghost reading: { Reads start log.items current },
    ghost unopened: { door ≡ doors.Shut → length log.items ≡ 0 },
    ghost shelved: { door ≡ doors.Shut → was_there ≡ is_some shelf },
    ghost no_pages: { door ≢ doors.Ready → door ≢ doors.Made → length start ≡ 0 },
    ghost put: { output.items ≡ put_bytes log.items },
    ghost some: { 1 ≤ most },
    ghost whole: { IsTrue (list_all is_whole_page log.items) },
}

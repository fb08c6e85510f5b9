ghost use Rattle.std.specs.Prelude.{◌≡◌, ◌≢◌, ◌≤◌, length, string_bytes};
ghost use Rattle.quilt_world.specs.declared.disk.Door.TheVariants as doors;

mod setup;
mod world;

use crate::source::Source;
use quilt_world::{Door, Image};

/// A world in memory that takes all its memory at once and never fails. It keeps no log and tells nothing.
#[derive(Drop)]
pub struct Calm {
    path: String,
    shelf: Option<Image>,
    disk: Image,
    size: u32,
    door: Door,
    source: Source,
    written: u64,
    ghost within: { size ≤ length disk },
    ghost no_pages: { door ≢ doors.Ready → door ≢ doors.Made → size ≡ 0 },
}

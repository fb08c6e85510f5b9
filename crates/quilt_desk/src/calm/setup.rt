ghost use Rattle.std.specs.Prelude.{◌≡◌, replicate, IfOk, Some, None};
ghost use Rattle.quilt_world.specs.declared.disk.Door.TheVariants as doors;
ghost use Rattle.quilt_desk.specs.declared.source.Source.TheVariants as sources;
ghost use Rattle.quilt_desk.specs.CalmViews.{path_of, shelf_of, disk_of, room_of, source_of, written_by};

use super::Calm;
use crate::input::Input;
use crate::source::Source;
use quilt_world::{Disk, Door, Image};
use std::alloc::{AllocError, Global};

impl Calm {
    /// A world whose door is shut, with this input, at most one file, under this path, and room to make a file of so many pages.
    pub fn new(
        alloc: Global,
        path: &str,
        file: Option<Image>,
        room: u32,
        input: &[u8],
    ) -> Result<Calm, AllocError>
        ensures told { IfOk result (λ c. ⟦<Calm as Disk>⟧.told c ≡ None) }
        ensures door { IfOk result (λ c. ⟦<Calm as Disk>⟧.door c ≡ doors.Shut) }
        ensures path { IfOk result (λ c. path_of c ≡ path.now) }
        ensures file { IfOk result (λ c. shelf_of c ≡ file) }
        ensures room { IfOk result (λ c. disk_of c ≡ replicate room (replicate 4096 0)) }
        ensures input { IfOk result (λ c. source_of c ≡ sources.Bytes input.now) }
        ensures written { IfOk result (λ c. written_by c ≡ 0) }
    {
        let source = Source::Bytes(Input::new(alloc, input)?);
        Calm::with_source(alloc, path, file, room, source)
    }

    /// A world whose input is this byte without end. It has no room to make a file.
    pub fn endless(
        alloc: Global,
        path: &str,
        file: Option<Image>,
        byte: u8,
    ) -> Result<Calm, AllocError>
        ensures told { IfOk result (λ c. ⟦<Calm as Disk>⟧.told c ≡ None) }
        ensures door { IfOk result (λ c. ⟦<Calm as Disk>⟧.door c ≡ doors.Shut) }
        ensures path { IfOk result (λ c. path_of c ≡ path.now) }
        ensures file { IfOk result (λ c. shelf_of c ≡ file) }
        ensures room { IfOk result (λ c. room_of c ≡ 0) }
        ensures input { IfOk result (λ c. source_of c ≡ sources.Endless byte) }
        ensures written { IfOk result (λ c. written_by c ≡ 0) }
    {
        Calm::with_source(alloc, path, file, 0, Source::Endless(byte))
    }

    fn with_source(
        alloc: Global,
        path: &str,
        file: Option<Image>,
        room: u32,
        source: Source,
    ) -> Result<Calm, AllocError>
        ensures door { IfOk result (λ c. ⟦<Calm as Disk>⟧.door c ≡ doors.Shut) }
        ensures path { IfOk result (λ c. path_of c ≡ path.now) }
        ensures file { IfOk result (λ c. shelf_of c ≡ file) }
        ensures room { IfOk result (λ c. disk_of c ≡ replicate room (replicate 4096 0)) }
        ensures input { IfOk result (λ c. source_of c ≡ source) }
        ensures written { IfOk result (λ c. written_by c ≡ 0) }
    {
        Ok(Calm {
            path: String::from_str(alloc, path)?,
            shelf: file,
            disk: Image::new(alloc, room)?,
            size: 0,
            door: Door::Shut,
            source,
            written: 0,
        })
    }

    /// The number of bytes that were put. It stays at its last value.
    pub fn written(&self) -> u64
        ensures { result ≡ written_by self.now }
    {
        self.written
    }
}

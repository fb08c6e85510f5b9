ghost use Rattle.std.specs.Prelude.{None};

use crate::failure::Failure;
use crate::system::{Access, Identity, Stream, System};
use std::alloc::Global;
use std::fs::{File, Metadata, OpenOptions};
use std::io::{ErrorKind, Read, Write};
use std::os::fd::{AsRawFd, RawFd};
use std::os::unix::fs::{FileExt, MetadataExt};
use std::{env, fs, io};

/// The least descriptor that is not of standard input, output or error.
const FIRST_OF_FILES: RawFd = 3;

/// The real system: the file and the folder that it has opened, and the standard streams. It tells nothing.
#[derive(Drop)]
pub struct Machine<'a> {
    rt: &'a HostRuntime,
    file: Option<File>,
    folder: Option<File>,
}

impl<'a> Machine<'a> {
    /// The system before any call.
    pub fn new(rt: &'a HostRuntime) -> Machine<'a> {
        Machine {
            rt,
            file: None,
            folder: None,
        }
    }
}

/// Why a call failed, by the kind of its error.
fn failure(error: io::Error) -> Failure {
    match error.kind() {
        ErrorKind::Interrupted => Failure::Interrupted,
        ErrorKind::NotFound => Failure::Missing,
        ErrorKind::AlreadyExists => Failure::Taken,
        ErrorKind::PermissionDenied | ErrorKind::ReadOnlyFilesystem => Failure::Forbidden,
        ErrorKind::InvalidData => Failure::NotText,
        ErrorKind::OutOfMemory => Failure::Memory,
        _ => Failure::Other,
    }
}

/// The descriptor of a file, and the file, but where it has the place of a standard stream that was closed: what is written
/// there would go into it, so it is closed at once.
fn held(file: File) -> (RawFd, Option<File>) {
    let descriptor = file.as_raw_fd();
    if descriptor < FIRST_OF_FILES {
        return (descriptor, None);
    }
    (descriptor, Some(file))
}

/// The file, where one is open.
fn opened(file: &Option<File>) -> Result<&File, Failure> {
    file.as_ref().ok_or(Failure::Other)
}

fn identity_of(found: &Metadata) -> Identity {
    Identity {
        device: found.dev(),
        inode: found.ino(),
        is_regular: found.is_file(),
    }
}

/// The path under which the system has a standard stream.
fn stream_path(stream: Stream) -> &'static str {
    match stream {
        Stream::Input => "/proc/self/fd/0",
        Stream::Output => "/proc/self/fd/1",
        Stream::Error => "/proc/self/fd/2",
    }
}

impl<'a> System for Machine<'a> {
    ghost told = { λ m. None };

    fn words(&mut self, alloc: Global) -> Result<Vec<String>, Failure> {
        match env::args(self.rt) {
            Ok(args) => args.collect(alloc).map_err(|_| Failure::Memory),
            Err(error) => Err(failure(error)),
        }
    }

    fn open(&mut self, path: &str, access: Access) -> Result<RawFd, Failure> {
        let may_write = access == Access::ReadWrite;
        let file = OpenOptions::new()
            .read(true)
            .write(may_write)
            .open(self.rt, path)
            .map_err(failure)?;
        let (descriptor, file) = held(file);
        self.file = file;
        Ok(descriptor)
    }

    fn is_regular(&mut self, path: &str) -> Result<bool, Failure> {
        match fs::metadata(self.rt, path) {
            Ok(found) => Ok(found.is_file()),
            Err(error) => Err(failure(error)),
        }
    }

    fn open_folder(&mut self, path: &str) -> Result<RawFd, Failure> {
        let folder = File::open(self.rt, path).map_err(failure)?;
        let (descriptor, folder) = held(folder);
        self.folder = folder;
        Ok(descriptor)
    }

    fn create(&mut self, path: &str) -> Result<RawFd, Failure> {
        let file = File::create_new(self.rt, path).map_err(failure)?;
        let (descriptor, file) = held(file);
        self.file = file;
        Ok(descriptor)
    }

    fn remove(&mut self, path: &str) -> Result<(), Failure> {
        fs::remove_file(self.rt, path).map_err(failure)
    }

    fn length(&mut self) -> Result<u64, Failure> {
        match opened(&self.file)?.metadata() {
            Ok(found) => Ok(found.len()),
            Err(error) => Err(failure(error)),
        }
    }

    fn identity(&mut self) -> Result<Identity, Failure> {
        match opened(&self.file)?.metadata() {
            Ok(found) => Ok(identity_of(&found)),
            Err(error) => Err(failure(error)),
        }
    }

    fn stream_identity(&mut self, stream: Stream) -> Result<Identity, Failure> {
        match fs::metadata(self.rt, stream_path(stream)) {
            Ok(found) => Ok(identity_of(&found)),
            Err(error) => Err(failure(error)),
        }
    }

    fn read_at(&mut self, at: u64, into: &mut [u8]) -> Result<usize, Failure> {
        opened(&self.file)?.read_at(into, at).map_err(failure)
    }

    fn write_at(&mut self, at: u64, bytes: &[u8]) -> Result<usize, Failure> {
        opened(&self.file)?.write_at(bytes, at).map_err(failure)
    }

    fn sync_all(&mut self) -> Result<(), Failure> {
        opened(&self.file)?.sync_all().map_err(failure)
    }

    fn sync_data(&mut self) -> Result<(), Failure> {
        opened(&self.file)?.sync_data().map_err(failure)
    }

    fn sync_folder(&mut self) -> Result<(), Failure> {
        opened(&self.folder)?.sync_all().map_err(failure)
    }

    fn take(&mut self, into: &mut [u8]) -> Result<usize, Failure> {
        self.rt.stdin().read(into).map_err(failure)
    }

    fn put(&mut self, bytes: &[u8]) -> Result<usize, Failure> {
        self.rt.stdout().write(bytes).map_err(failure)
    }

    fn say(&mut self, line: &str) -> Result<(), Failure> {
        eprintln!(self.rt; "{line}").map_err(failure)
    }
}

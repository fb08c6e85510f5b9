ghost use Rattle.std.specs.Prelude.{◌≡◌, ◌≢◌, ◌⊎◌, ℕ, ◌*◌, ◌<◌, ◌^◌, ◌≤◌, ◌≤ℤ◌, pos, true, false, Err, [], length, replicate, OnOk, OnErr, IfOk, IfSome};
ghost use Rattle.quilt_world.specs.Tale.{Goes};
ghost use Rattle.quilt_host.specs.Calls.{OpensFile};
ghost use Rattle.quilt_host.specs.Paging.{MakesMap, FailsToMake, Fills, WritesZeros, WritesSome, Settles, IsCleared};

use crate::failure::Failure;
use crate::pages::write_page;
use crate::system::{Access, Identity, Stream, System};
use quilt_world::Fault;
use std::os::fd::RawFd;
use std::path::Path;

const PAGE_BYTES: u64 = 4096;

/// The least descriptor that is not of standard input, output or error.
const FIRST_OF_FILES: RawFd = 3;

/// An opened map file: the number of its pages, and whether it may be written.
#[derive(Clone, Copy)]
pub(crate) struct Opened {
    pub(crate) pages: u32,
    pub(crate) may_write: bool,
}

/// The number of whole pages of a file of so many bytes, or 0 where it has a part of one or more than a `u32` counts.
fn pages_of_length(bytes: u64) -> u32
    ensures whole { (n : ℕ) → n < 2 ^ 32 → bytes ≡ n * 4096 → result ≡ n }
    ensures only { result ≢ 0 → bytes ≡ result * 4096 }
{
    if bytes % PAGE_BYTES != 0 {
        return 0;
    }
    u32::try_from(bytes / PAGE_BYTES).unwrap_or(0)
}

/// The folder that holds the file of this path.
fn folder_of(path: &str) -> &str {
    match Path::new(path).parent() {
        Some(parent) if !parent.as_str().is_empty() => parent.as_str(),
        _ => ".",
    }
}

/// Whether the descriptor is none of the standard streams'. The system gives the least descriptor that is free, so such a
/// one shows that the program was started with that stream closed.
fn is_beyond_streams(descriptor: RawFd) -> bool
    ensures { result ≡ true → pos 3 ≤ℤ descriptor }
{
    descriptor >= FIRST_OF_FILES
}

/// Whether the stream is that regular file.
fn is_stream<S: System>(system: &mut S, stream: Stream, file: Identity) -> bool
    ensures { S.told system.new ≡ S.told system.old }
{
    match system.stream_identity(stream) {
        Ok(found) => file.is_regular && found == file,
        Err(_) => false,
    }
}

/// Whether the open file is one of the standard streams too, as far as the system can tell.
fn is_any_stream<S: System>(system: &mut S) -> bool
    ensures { S.told system.new ≡ S.told system.old }
{
    match system.identity() {
        Ok(file) => {
            is_stream(system, Stream::Input, file)
                || is_stream(system, Stream::Output, file)
                || is_stream(system, Stream::Error, file)
        }
        Err(_) => false,
    }
}

/// The number of pages of the open file, which is none of the standard streams.
fn counted_pages<S: System>(system: &mut S, descriptor: RawFd) -> Result<u32, Fault>
    ensures nothing { S.told system.new ≡ S.told system.old }
    ensures whole { IfOk result (λ pages. IfSome (S.told system.old) (λ s. pages * 4096 ≤ length s.bytes)) }
    ensures beyond { OnOk result (pos 3 ≤ℤ descriptor) }
{
    if !is_beyond_streams(descriptor) || is_any_stream(system) {
        return Err(Fault);
    }
    match system.length() {
        Ok(bytes) => Ok(pages_of_length(bytes)),
        Err(_) => Err(Fault),
    }
}

/// Opens a file to read it alone. Only a regular one is tried: a pipe that is opened to read waits for its writer.
fn open_to_read<S: System>(system: &mut S, path: &str) -> Result<RawFd, Failure>
    ensures opened { OnOk result (Goes (OpensFile path.now) (S.told system.old) (S.told system.new)) }
    ensures nothing { OnErr result (S.told system.new ≡ S.told system.old) }
    ensures missing { result ≡ Err Failure.Missing → IfSome (S.told system.old) (λ s. path.now ≡ s.path → s.is_there ≡ false) }
{
    if !system.is_regular(path)? {
        return Err(Failure::Forbidden);
    }
    system.open(path, Access::ReadOnly)
}

/// Opens a file to read and write, or to read alone where writing is not permitted, and says whether it may be written.
fn open_any<S: System>(system: &mut S, path: &str) -> Result<(RawFd, bool), Failure>
    ensures opened { OnOk result (Goes (OpensFile path.now) (S.told system.old) (S.told system.new)) }
    ensures nothing { OnErr result (S.told system.new ≡ S.told system.old) }
    ensures missing { result ≡ Err Failure.Missing → IfSome (S.told system.old) (λ s. path.now ≡ s.path → s.is_there ≡ false) }
{
    match system.open(path, Access::ReadWrite) {
        Err(Failure::Forbidden) => Ok((open_to_read(system, path)?, false)),
        opened => Ok((opened?, true)),
    }
}

/// Opens the map file of this path. It changes no file and makes none.
pub(crate) fn open_map<S: System>(system: &mut S, path: &str) -> Result<Opened, Failure>
    ensures opened { OnOk result (Goes (OpensFile path.now) (S.told system.old) (S.told system.new)) }
    ensures pages { IfOk result (λ o. IfSome (S.told system.new) (λ s. o.pages * 4096 ≤ length s.bytes)) }
    ensures failed { OnErr result (Goes (λ old new. (new ≡ old) ⊎ OpensFile path.now old new) (S.told system.old) (S.told system.new)) }
    ensures missing { result ≡ Err Failure.Missing → IfSome (S.told system.old) (λ s. path.now ≡ s.path → s.is_there ≡ false) }
    ensures unopened { result ≡ Err Failure.Missing → S.told system.new ≡ S.told system.old }
{
    let (descriptor, may_write) = open_any(system, path)?;
    match counted_pages(system, descriptor) {
        Ok(pages) => Ok(Opened { pages, may_write }),
        Err(Fault) => Err(Failure::Other),
    }
}

/// Writes so many pages of zeros to a new file, so that the disk has room for all.
fn write_zeros<S: System>(system: &mut S, pages: u32, zeros: &[u8]) -> Result<(), Fault>
    requires empty { IfSome (S.told system.old) (λ s. s.bytes ≡ []) }
    requires zeros { zeros.now ≡ replicate 4096 0 }
    ensures wrote { OnOk result (Goes (WritesZeros pages) (S.told system.old) (S.told system.new)) }
    ensures some { OnErr result (Goes WritesSome (S.told system.old) (S.told system.new)) }
{
    for i in 0..pages {
        match write_page(system, i, zeros) {
            Ok(()) => {}
            Err(_) => return Err(Fault),
        }
    }
    Ok(())
}

/// Makes sure that a file and its entry in the folder are on the disk.
fn settle<S: System>(system: &mut S) -> Result<(), Fault>
    ensures settled { OnOk result (Goes Settles (S.told system.old) (S.told system.new)) }
    ensures some { OnErr result (Goes WritesSome (S.told system.old) (S.told system.new)) }
{
    match system.sync_all() {
        Ok(()) => match system.sync_folder() {
            Ok(()) => Ok(()),
            Err(_) => Err(Fault),
        },
        Err(_) => Err(Fault),
    }
}

/// Makes a new file so many pages of zeros, and makes sure that it and its entry in the folder are on the disk.
fn fill<S: System>(system: &mut S, descriptor: RawFd, pages: u32) -> Result<(), Fault>
    requires { IfSome (S.told system.old) (λ s. s.bytes ≡ []) }
    ensures filled { OnOk result (Goes (Fills pages) (S.told system.old) (S.told system.new)) }
    ensures some { OnErr result (Goes WritesSome (S.told system.old) (S.told system.new)) }
    ensures beyond { OnOk result (pos 3 ≤ℤ descriptor) }
{
    if !is_beyond_streams(descriptor) {
        return Err(Fault);
    }
    write_zeros(system, pages, &[0; 4096])?;
    settle(system)
}

/// Fills a new file, or removes it again.
fn fill_or_remove<S: System>(
    system: &mut S,
    path: &str,
    descriptor: RawFd,
    pages: u32,
) -> Result<(), Failure>
    requires { IfSome (S.told system.old) (λ s. s.bytes ≡ []) }
    ensures filled { OnOk result (Goes (Fills pages) (S.told system.old) (S.told system.new)) }
    ensures removed { OnErr result (Goes IsCleared (S.told system.old) (S.told system.new)) }
    ensures other { OnErr result (result ≡ Err Failure.Other) }
{
    match fill(system, descriptor, pages) {
        Ok(()) => Ok(()),
        Err(Fault) => {
            // The first failure tells; this one could only say that the rest is still there.
            let _ = system.remove(path);
            Err(Failure::Other)
        }
    }
}

/// Makes a map file of so many pages of zeros, which is not there yet, and makes sure that it is on the disk. What it could
/// not finish it removes. Its folder is opened first, so that no file is made where a stream is closed.
pub(crate) fn make_map<S: System>(system: &mut S, path: &str, pages: u32) -> Result<(), Failure>
    ensures made { OnOk result (Goes (MakesMap path.now pages) (S.told system.old) (S.told system.new)) }
    ensures failed { OnErr result (Goes FailsToMake (S.told system.old) (S.told system.new)) }
    ensures taken { result ≡ Err Failure.Taken → IfSome (S.told system.old) (λ s. path.now ≡ s.path → s.is_there ≡ true) }
    ensures untouched { result ≡ Err Failure.Taken → S.told system.new ≡ S.told system.old }
{
    match system.open_folder(folder_of(path)) {
        Ok(folder) if is_beyond_streams(folder) => {}
        _ => return Err(Failure::Other),
    }
    let descriptor = system.create(path)?;
    fill_or_remove(system, path, descriptor, pages)
}

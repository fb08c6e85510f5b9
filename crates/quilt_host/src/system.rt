ghost use Rattle.std.specs.Prelude.{◌≡◌, ◌⊎◌, ℕ, ◌<◌, ◌≤◌, Option, Ok, Err, true, false, List, map, length, take, drop, string_bytes, OnOk, OnErr, IfOk, IfSome, Some, None};
ghost use Rattle.quilt_world.specs.Tale.{Goes};
ghost use Rattle.quilt_host.specs.Story.{Story};
ghost use Rattle.quilt_host.specs.Calls.{OpensFile, CreatesFile, Removes, FailsToRemove, WritesBytes, Loses, Syncs, Links, TakesInput, Puts, SaysLine, SaysFront};

use crate::failure::Failure;
use std::alloc::Global;
use std::os::fd::RawFd;

/// What a file is opened for.
#[derive(Clone, Copy, Debug, PartialEq, Eq)]
pub enum Access {
    ReadWrite,
    ReadOnly,
}

/// A standard stream.
#[derive(Clone, Copy, Debug, PartialEq, Eq)]
pub enum Stream {
    Input,
    Output,
    Error,
}

/// Which file an open one is: its device and its number there, and whether it is a regular file.
#[derive(Clone, Copy, Debug, PartialEq, Eq)]
pub struct Identity {
    pub device: u64,
    pub inode: u64,
    pub is_regular: bool,
}

/// What the program asks of the system: each method is one call. A system holds at most one file, which it has opened or
/// made, and the folder of that file.
pub trait System {
    /// What it tells of the file, the streams and what was done, if it tells anything.
    ghost told: { Self → Option Story };

    /// The words of the call, the program's name first.
    fn words(&mut self, alloc: Global) -> Result<Vec<String>, Failure>
        ensures nothing { told self.new ≡ told self.old }
        ensures words { IfOk result (λ all. IfSome (told self.old) (λ s. s.words ≡ Some (map string_bytes all.items))) }
        ensures no_text { result ≡ Err Failure.NotText → IfSome (told self.old) (λ s. s.words ≡ None) };

    /// Opens the file of this path, and gives its descriptor. It makes no file and changes none.
    fn open(&mut self, path: &str, access: Access) -> Result<RawFd, Failure>
        ensures opened { OnOk result (Goes (OpensFile path.now) (told self.old) (told self.new)) }
        ensures nothing { OnErr result (told self.new ≡ told self.old) }
        ensures missing { result ≡ Err Failure.Missing → IfSome (told self.old) (λ s. path.now ≡ s.path → s.is_there ≡ false) };

    /// Whether the path is that of a regular file.
    fn is_regular(&mut self, path: &str) -> Result<bool, Failure>
        ensures nothing { told self.new ≡ told self.old }
        ensures missing { result ≡ Err Failure.Missing → IfSome (told self.old) (λ s. path.now ≡ s.path → s.is_there ≡ false) };

    /// Opens the folder of this path, and gives its descriptor.
    fn open_folder(&mut self, path: &str) -> Result<RawFd, Failure>
        ensures { told self.new ≡ told self.old };

    /// Makes a new file of this path, with no bytes, and gives its descriptor. It takes no path that has a file.
    fn create(&mut self, path: &str) -> Result<RawFd, Failure>
        ensures created { OnOk result (Goes (CreatesFile path.now) (told self.old) (told self.new)) }
        ensures nothing { OnErr result (told self.new ≡ told self.old) }
        ensures taken { result ≡ Err Failure.Taken → IfSome (told self.old) (λ s. path.now ≡ s.path → s.is_there ≡ true) };

    /// Removes the file of this path.
    fn remove(&mut self, path: &str) -> Result<(), Failure>
        ensures removed { OnOk result (Goes (Removes path.now) (told self.old) (told self.new)) }
        ensures kept { OnErr result (Goes FailsToRemove (told self.old) (told self.new)) };

    /// The number of bytes of the file.
    fn length(&mut self) -> Result<u64, Failure>
        ensures nothing { told self.new ≡ told self.old }
        ensures length { IfOk result (λ n. IfSome (told self.old) (λ s. n ≡ length s.bytes)) };

    /// Which file the open one is.
    fn identity(&mut self) -> Result<Identity, Failure>
        ensures { told self.new ≡ told self.old };

    /// Which file a standard stream is.
    fn stream_identity(&mut self, stream: Stream) -> Result<Identity, Failure>
        ensures { told self.new ≡ told self.old };

    /// Reads bytes of the file from an offset on, as many as it likes, and says how many.
    fn read_at(&mut self, at: u64, into: &mut [u8]) -> Result<usize, Failure>
        ensures nothing { told self.new ≡ told self.old }
        ensures count { IfOk result (λ n. n ≤ length into.old) }
        ensures bytes { IfOk result (λ n. IfSome (told self.old) (λ s. take n into.new ≡ take n (drop at s.bytes))) };

    /// Writes a front of the bytes at an offset of the file, and says how many. Where it fails, any bytes may stand there,
    /// but where a signal came first, nothing is done.
    fn write_at(&mut self, at: u64, bytes: &[u8]) -> Result<usize, Failure>
        ensures count { IfOk result (λ n. n ≤ length bytes.now) }
        ensures wrote { IfOk result (λ n. 0 < n → Goes (WritesBytes at (take n bytes.now)) (told self.old) (told self.new)) }
        ensures none { result ≡ Ok 0 → told self.new ≡ told self.old }
        ensures lost { OnErr result (Goes (λ old new. (new ≡ old) ⊎ Loses at (length bytes.now) old new) (told self.old) (told self.new)) }
        ensures interrupted { result ≡ Err Failure.Interrupted → told self.new ≡ told self.old };

    /// Makes sure that what was written to the file, and its length, are on the disk.
    fn sync_all(&mut self) -> Result<(), Failure>
        ensures synced { OnOk result (Goes Syncs (told self.old) (told self.new)) }
        ensures nothing { OnErr result (told self.new ≡ told self.old) };

    /// The same, where the length is on the disk already.
    fn sync_data(&mut self) -> Result<(), Failure>
        ensures synced { OnOk result (Goes Syncs (told self.old) (told self.new)) }
        ensures nothing { OnErr result (told self.new ≡ told self.old) };

    /// Makes sure that the file's entry in the open folder is on the disk.
    fn sync_folder(&mut self) -> Result<(), Failure>
        ensures linked { OnOk result (Goes Links (told self.old) (told self.new)) }
        ensures nothing { OnErr result (told self.new ≡ told self.old) };

    /// Takes the next bytes of standard input, as many as it likes. 0 says that it has ended.
    fn take(&mut self, into: &mut [u8]) -> Result<usize, Failure>
        requires { 0 < length into.old }
        ensures count { IfOk result (λ n. n ≤ length into.old) }
        ensures took { IfOk result (λ n. Goes (TakesInput (take n into.new)) (told self.old) (told self.new)) }
        ensures nothing { OnErr result (told self.new ≡ told self.old) };

    /// Puts a front of the bytes to standard output, and says how many.
    fn put(&mut self, bytes: &[u8]) -> Result<usize, Failure>
        ensures count { IfOk result (λ n. n ≤ length bytes.now) }
        ensures put { IfOk result (λ n. 0 < n → Goes (Puts (take n bytes.now)) (told self.old) (told self.new)) }
        ensures none { result ≡ Ok 0 → told self.new ≡ told self.old }
        ensures nothing { OnErr result (told self.new ≡ told self.old) };

    /// Writes a line to standard error. Where it fails, a front of the line may be written.
    fn say(&mut self, line: &str) -> Result<(), Failure>
        ensures said { OnOk result (Goes (SaysLine line.now) (told self.old) (told self.new)) }
        ensures front { OnErr result (Goes (SaysFront line.now) (told self.old) (told self.new)) };
}

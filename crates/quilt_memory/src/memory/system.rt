ghost use Rattle.std.specs.Prelude.{◌≡◌, ◌↔◌, ◌∷◌, Some, IsTrue, OnOk, OnErr, IfOk, IfErr, map, drop, reverse, string_bytes};

use super::Memory;
use super::setup::laid_over;
use quilt_host::{Access, Act, Failure, Identity, Stream, System};
use quilt_types::Text;
use std::alloc::{AllocError, Global};
use std::os::fd::RawFd;

/// The descriptor that the file and its folder get.
const DESCRIPTOR: RawFd = 3;

/// The greatest offset that is written.
const LIMIT: u64 = 1 << 48;

/// Whether two paths are the same.
fn is_same(a: &str, b: &str) -> bool
    ensures { IsTrue result ↔ (a.now ≡ b.now) }
{
    a == b
}

/// Notes what was done.
fn note(acts: &mut Vec<Act>, act: Act) -> Result<(), Failure>
    ensures noted { OnOk result (reverse acts.new.items ≡ act ∷ reverse acts.old.items) }
    ensures nothing { OnErr result (acts.new.items ≡ acts.old.items) }
    ensures memory { IfErr result (λ e. e ≡ Failure.Memory) }
{
    match acts.push(act) {
        Ok(()) => Ok(()),
        Err(_) => Err(Failure::Memory),
    }
}

/// The bytes as a text.
fn text_of(alloc: Global, bytes: &[u8]) -> Result<Text, Failure>
    ensures text { IfOk result (λ t. t ≡ bytes.now) }
    ensures memory { IfErr result (λ e. e ≡ Failure.Memory) }
{
    let mut text = Text::new(alloc);
    match text.push(bytes) {
        Ok(()) => Ok(text),
        Err(AllocError) => Err(Failure::Memory),
    }
}

/// A copy of the bytes.
fn copy_of(alloc: Global, bytes: &[u8]) -> Result<Vec<u8>, Failure>
    ensures copy { IfOk result (λ v. v.items ≡ bytes.now) }
    ensures memory { IfErr result (λ e. e ≡ Failure.Memory) }
{
    match Vec::from_slice(alloc, bytes) {
        Ok(copy) => Ok(copy),
        Err(_) => Err(Failure::Memory),
    }
}

/// Copies of the texts.
fn copies_of(alloc: Global, texts: &[String]) -> Result<Vec<String>, AllocError>
    ensures { IfOk result (λ v. map string_bytes v.items ≡ map string_bytes texts.now) }
{
    let mut all = Vec::new(alloc);
    for text in texts {
        all.push(String::from_str(alloc, text.as_str())?)?;
    }
    Ok(all)
}

impl System for Memory {
    ghost told = { λ m. Some (record {
      words = Some (map string_bytes m.words.items);
      path = string_bytes m.path;
      was_there = m.was_there;
      is_there = m.is_there;
      owes = m.is_owed;
      bytes = m.bytes.items;
      settled = m.settled.items;
      acts = reverse m.acts.items;
      input = drop m.taken m.input.items;
      said = m.errors.items;
      says = m.says;
    }) };

    fn words(&mut self, alloc: Global) -> Result<Vec<String>, Failure> {
        self.schedule.begin()?;
        match copies_of(alloc, &self.words) {
            Ok(all) => Ok(all),
            Err(AllocError) => Err(Failure::Memory),
        }
    }

    fn open(&mut self, path: &str, access: Access) -> Result<RawFd, Failure> {
        self.schedule.begin()?;
        if !self.is_there || !is_same(&self.path, path) {
            return Err(Failure::Missing);
        }
        if self.schedule.is_read_only && access == Access::ReadWrite {
            return Err(Failure::Forbidden);
        }
        let settled = copy_of(self.alloc, &self.bytes)?;
        note(&mut self.acts, Act::Opened)?;
        self.settled = settled;
        Ok(DESCRIPTOR)
    }

    fn is_regular(&mut self, path: &str) -> Result<bool, Failure> {
        self.schedule.begin()?;
        if !self.is_there || !is_same(&self.path, path) {
            return Err(Failure::Missing);
        }
        Ok(true)
    }

    fn open_folder(&mut self, _path: &str) -> Result<RawFd, Failure> {
        self.schedule.begin()?;
        Ok(DESCRIPTOR)
    }

    fn create(&mut self, path: &str) -> Result<RawFd, Failure> {
        self.schedule.begin()?;
        if !is_same(&self.path, path) {
            return Err(Failure::Forbidden);
        }
        if self.is_there {
            return Err(Failure::Taken);
        }
        note(&mut self.acts, Act::Created)?;
        self.is_there = true;
        self.is_owed = true;
        self.bytes = Vec::new(self.alloc);
        self.settled = Vec::new(self.alloc);
        Ok(DESCRIPTOR)
    }

    fn remove(&mut self, path: &str) -> Result<(), Failure> {
        self.is_owed = false;
        self.schedule.begin()?;
        if !self.is_there || !is_same(&self.path, path) {
            return Err(Failure::Missing);
        }
        self.is_there = false;
        self.bytes = Vec::new(self.alloc);
        Ok(())
    }

    fn length(&mut self) -> Result<u64, Failure> {
        self.schedule.begin()?;
        Ok(self.bytes.len() as u64)
    }

    fn identity(&mut self) -> Result<Identity, Failure> {
        self.schedule.begin()?;
        Ok(Identity {
            device: 1,
            inode: 1,
            is_regular: true,
        })
    }

    fn stream_identity(&mut self, _stream: Stream) -> Result<Identity, Failure> {
        self.schedule.begin()?;
        Err(Failure::Missing)
    }

    fn read_at(&mut self, at: u64, into: &mut [u8]) -> Result<usize, Failure> {
        self.schedule.begin_some()?;
        let from = (at as usize).min(self.bytes.len());
        let left = &self.bytes[from..];
        let n = left.len().min(into.len()).min(self.schedule.most);
        into[..n].copy_from_slice(&left[..n]);
        Ok(n)
    }

    fn write_at(&mut self, at: u64, bytes: &[u8]) -> Result<usize, Failure> {
        self.schedule.begin_some()?;
        if at > LIMIT {
            return Err(Failure::Other);
        }
        let most = bytes.len().min(self.schedule.most).min(1 << 48);
        let n = most.min(self.schedule.room.saturating_sub(at as usize));
        if n == 0 {
            return Err(Failure::Other);
        }
        let Ok(all) = laid_over(self.alloc, &self.bytes, at as usize, &bytes[..n]) else {
            return Err(Failure::Memory);
        };
        let text = text_of(self.alloc, &bytes[..n])?;
        note(&mut self.acts, Act::Wrote { at, bytes: text })?;
        self.bytes = all;
        Ok(n)
    }

    fn sync_all(&mut self) -> Result<(), Failure> {
        self.schedule.begin()?;
        note(&mut self.acts, Act::Synced)?;
        Ok(())
    }

    fn sync_data(&mut self) -> Result<(), Failure> {
        self.schedule.begin()?;
        note(&mut self.acts, Act::Synced)?;
        Ok(())
    }

    fn sync_folder(&mut self) -> Result<(), Failure> {
        self.schedule.begin()?;
        let settled = copy_of(self.alloc, &self.bytes)?;
        note(&mut self.acts, Act::Linked)?;
        self.settled = settled;
        Ok(())
    }

    fn take(&mut self, into: &mut [u8]) -> Result<usize, Failure> {
        self.schedule.begin_some()?;
        let left = &self.input[self.taken..];
        let n = left.len().min(into.len()).min(self.schedule.most);
        if n == 0 {
            note(&mut self.acts, Act::Ended)?;
            return Ok(0);
        }
        let text = text_of(self.alloc, &left[..n])?;
        note(&mut self.acts, Act::Took(text))?;
        into[..n].copy_from_slice(&left[..n]);
        self.taken += n;
        Ok(n)
    }

    fn put(&mut self, bytes: &[u8]) -> Result<usize, Failure> {
        self.schedule.begin_some()?;
        let n = bytes.len().min(self.schedule.most);
        if n == 0 {
            return Ok(0);
        }
        let text = text_of(self.alloc, &bytes[..n])?;
        let before = self.output.len();
        if self.output.extend_from_slice(&bytes[..n]).is_err() {
            return Err(Failure::Memory);
        }
        if let Err(failure) = note(&mut self.acts, Act::Put(text)) {
            self.output.truncate(before);
            return Err(failure);
        }
        Ok(n)
    }

    fn say(&mut self, line: &str) -> Result<(), Failure> {
        self.says = self.says.saturating_add(1);
        self.schedule.begin()?;
        match self.errors.extend_from_slice(line.as_bytes()) {
            Ok(()) => Ok(()),
            Err(_) => Err(Failure::Memory),
        }
    }
}

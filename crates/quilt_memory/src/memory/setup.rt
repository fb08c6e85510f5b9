ghost use Rattle.std.specs.Prelude.{◌≡◌, ◌+◌, ◌^◌, ◌<◌, IfOk, IfSome, drop, length};
ghost use Rattle.quilt_host.specs.Bytes.{padded, patched};
ghost use Rattle.quilt_host.specs.Worlds.{IsUnasked};

use super::Memory;
use crate::schedule::Schedule;
use quilt_host::System;
use std::alloc::{AllocError, Global};

impl Memory {
    /// A system with these words, at most one file, under one path, and this input. Nothing goes wrong.
    pub fn new(
        alloc: Global,
        words: &[&str],
        path: &str,
        file: Option<&[u8]>,
        input: &[u8],
    ) -> Result<Memory, AllocError>
        ensures fresh { IfOk result (λ m. IfSome (⟦<Memory as System>⟧.told m) IsUnasked) }
    {
        let mut owned = Vec::new(alloc);
        for word in words {
            owned.push(String::from_str(alloc, word)?)?;
        }
        let is_there = file.is_some();
        let bytes = match file {
            Some(bytes) => Vec::from_slice(alloc, bytes)?,
            None => Vec::new(alloc),
        };
        Ok(Memory {
            alloc,
            words: owned,
            path: String::from_str(alloc, path)?,
            was_there: is_there,
            is_there,
            is_owed: false,
            bytes,
            settled: Vec::new(alloc),
            acts: Vec::new(alloc),
            input: Vec::from_slice(alloc, input)?,
            taken: 0,
            output: Vec::new(alloc),
            errors: Vec::new(alloc),
            says: 0,
            schedule: Schedule::calm(alloc),
        })
    }

    /// Lets the call of this number fail, from 1 on.
    pub fn fail_at(&mut self, call: u64) -> Result<(), AllocError>
        ensures { ⟦<Memory as System>⟧.told self.new ≡ ⟦<Memory as System>⟧.told self.old }
    {
        self.schedule.fail_at(call)
    }

    /// Lets a signal interrupt each so manieth call that can be interrupted; 0 stands for none.
    pub fn interrupt_every(&mut self, every: u64)
        ensures { ⟦<Memory as System>⟧.told self.new ≡ ⟦<Memory as System>⟧.told self.old }
    {
        self.schedule.interrupt_every(every);
    }

    /// Lets each call read, write, take or put so many bytes at most. 0 stands for 1.
    pub fn piece(&mut self, most: usize)
        ensures { ⟦<Memory as System>⟧.told self.new ≡ ⟦<Memory as System>⟧.told self.old }
    {
        self.schedule.piece(most);
    }

    /// Lets no file become longer.
    pub fn room(&mut self, bytes: usize)
        ensures { ⟦<Memory as System>⟧.told self.new ≡ ⟦<Memory as System>⟧.told self.old }
    {
        self.schedule.room = bytes;
    }

    /// Lets the file be read alone.
    pub fn forbid_writing(&mut self)
        ensures { ⟦<Memory as System>⟧.told self.new ≡ ⟦<Memory as System>⟧.told self.old }
    {
        self.schedule.is_read_only = true;
    }

    /// The bytes of the file, if one is there.
    pub fn file(&self) -> Option<&[u8]> {
        if self.is_there {
            Some(&self.bytes)
        } else {
            None
        }
    }

    /// The bytes that were put to the output.
    pub fn output(&self) -> &[u8] {
        &self.output
    }

    /// The lines that were written to standard error.
    pub fn errors(&self) -> &[u8] {
        &self.errors
    }
}

/// The first bytes of the file, so many, with zeros behind its end.
fn padded_to(alloc: Global, file: &[u8], n: usize) -> Result<Vec<u8>, AllocError>
    ensures { IfOk result (λ v. v.items ≡ padded file.now n) }
{
    let mut all = Vec::from_slice(alloc, &file[..n.min(file.len())])?;
    all.resize(n, 0)?;
    Ok(all)
}

/// The bytes of the file from this place on.
fn behind(file: &[u8], n: usize) -> &[u8]
    ensures { result.now ≡ drop n file.now }
{
    &file[n.min(file.len())..]
}

/// The bytes of the file with others at an offset, zeros between its end and them.
pub(crate) fn laid_over(
    alloc: Global,
    file: &[u8],
    at: usize,
    bytes: &[u8],
) -> Result<Vec<u8>, AllocError>
    requires { at + length bytes.now < 2 ^ 64 }
    ensures { IfOk result (λ v. v.items ≡ patched file.now at bytes.now) }
{
    let mut all = padded_to(alloc, file, at)?;
    all.extend_from_slice(bytes)?;
    all.extend_from_slice(behind(file, at + bytes.len()))?;
    Ok(all)
}

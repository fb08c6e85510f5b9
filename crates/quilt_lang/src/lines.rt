ghost use Rattle.std.specs.Prelude.{◌≡◌, ◌≤◌, ◌+◌, ℕ, List, false, [], ◌∷◌, ◌++◌, drop, take, length, vec_len, OnOk, OnErr, IfOk, IfSome, MatchOption};
ghost use Rattle.quilt_types.specs.Plane.{side};
ghost use Rattle.quilt_words.specs.Items.{whole_items, whole_lines};
ghost use Rattle.quilt_words.specs.Forms.{Spelled};
ghost use Rattle.quilt_words.specs.Table.{IsFitting};
ghost use Rattle.quilt_lang.specs.Reading.{Gives, GivesCommand, GivesItem, HasNone, kept_limit};
ghost use Rattle.quilt_lang.specs.Cutting.{HasRaster};
ghost use Rattle.quilt_lang.specs.Progress.{IsFrontLine, told_len};
ghost use Rattle.quilt_lang.specs.Shortening.{IsTextPart, KeepsShort, bounds_of};
ghost use Rattle.quilt_lang.specs.declared.asked.Asked.TheVariants as kinds;

use crate::asked::Asked;
use crate::command_front::{front_command, line_command, rows_command};
use crate::first_line::silent_front;
use crate::front::{Front, find_front, front_item, raster_len};
use crate::kept::kept_progress;
use crate::progress::Progress;
use crate::rows::{row_room, rows_over};
use crate::short_lines::{is_short, shortened};
use quilt_types::Code;
use quilt_words::{Command, Item, line_words};
use std::alloc::{AllocError, Global};
use std::marker::Model;
use std::mem::replace;

/// Reads a text in pieces and gives its items. Of a line that is too long it keeps no more than shows that it is.
#[derive(Drop)]
pub struct Lines {
    level: u8,
    bytes: Vec<u8>,
    from: usize,
    progress: Progress,
}

impl Model for Lines {
    ghost use Rattle.std.specs.Prelude.{◌≡◌, ◌≤◌, false, drop, vec_len};
    ghost use Rattle.quilt_lang.specs.Reading.{Unread, begins_silent};
    ghost use Rattle.quilt_lang.specs.Progress.{IsProgress};

    ghost Value = { Unread };

    ghost view = { λ l. record { level = l.level; rest = drop l.from l.bytes.items } };

    ghost invariant = { λ l. (l.from ≤ vec_len l.bytes) × (begins_silent (drop l.from l.bytes.items) ≡ false)
        × IsProgress l.level l.progress (drop l.from l.bytes.items) };
}

impl Lines {
    /// Nothing is read yet. It takes no memory, and keeps the allocator.
    pub fn new(alloc: Global, level: u8) -> Lines
        ensures level { result.level ≡ level }
        ensures empty { result.rest ≡ [] }
    {
        Lines {
            level,
            bytes: Vec::new(alloc),
            from: 0,
            progress: Progress::Begun(0),
        }
    }

    /// Reads a piece more, where all whole items were given. An Err leaves it as it was.
    /// It takes time and memory in the piece's length and in what it may keep; while an item waits for further lines, time in the
    /// lengths of the pieces alone.
    pub fn feed(&mut self, piece: &[u8]) -> Result<(), AllocError>
        requires { whole_items self.old.level self.old.rest ≡ [] }
        ensures level { self.new.level ≡ self.old.level }
        ensures fed { OnOk result (Gives false self.old.level [] (self.old.rest ++ piece.now) self.new.rest) }
        ensures short { OnOk result (length self.new.rest ≤ kept_limit self.old.level self.old.rest + length piece.now) }
        ensures lines { OnOk result (KeepsShort self.old.level self.old.rest self.new.rest) }
        ensures err { OnErr result (self.new ≡ self.old) }
    {
        let alloc = *self.bytes.allocator();
        let rest = &self.bytes[self.from..];
        let progress = kept_progress(alloc, self.level, rest, self.progress)?;
        put_piece(&mut self.bytes, self.from, self.level, progress, piece)?;
        match progress {
            Progress::Waiting(_) => {
                self.from = 0;
                self.progress = progress;
            }
            Progress::Begun(scanned) => {
                let (from, known) = silent_front(&self.bytes, scanned);
                self.from = from;
                self.progress = Progress::Begun(known);
            }
        }
        Ok(())
    }

    /// The next item: one whose lines all stand there with their newlines, or, where the input has ended, any. Its further lines
    /// are read in the format. An Err leaves it as it was. Where it waits for further lines, those that are there are not counted again.
    pub fn next_item(&mut self, format: u8, ended: bool) -> Result<Option<Item>, AllocError>
        ensures level { self.new.level ≡ self.old.level }
        ensures given { IfOk result (λ found. MatchOption found
            ((self.new.rest ≡ self.old.rest) × HasNone ended self.old.level self.old.rest)
            (λ item. GivesItem ended self.old.level format item self.old.rest self.new.rest)) }
        ensures err { OnErr result (self.new ≡ self.old) }
    {
        let alloc = *self.bytes.allocator();
        let rest = &self.bytes[self.from..];
        match find_front(alloc, self.level, rest, self.progress, ended)? {
            Front::Waits(progress) => {
                self.progress = progress;
                Ok(None)
            }
            Front::There(line, what) => {
                let (item, len) = front_item(alloc, self.level, format, rest, line, what, ended)?;
                self.pass(len);
                Ok(Some(item))
            }
        }
    }

    /// What the next item spells in the format, as `parse` answers for what `next_item` gives: its command, or the first refusal of
    /// 13, 17, 1, 2, 3 and 4 that it has. Its lines are read where they lie, and the rows of a raster into that very memory. An Err
    /// leaves it as it was.
    pub fn take_command(
        &mut self,
        format: u8,
        ended: bool,
    ) -> Result<Option<Result<Command, Code>>, AllocError>
        ensures level { self.new.level ≡ self.old.level }
        ensures given { IfOk result (λ found. MatchOption found
            ((self.new.rest ≡ self.old.rest) × HasNone ended self.old.level self.old.rest)
            (λ spelled. GivesCommand ended self.old.level format spelled self.old.rest self.new.rest)) }
        ensures spelled { IfOk result (λ found. IfSome found (λ spelled. IfOk spelled (λ command. Spelled format self.old.level command))) }
        ensures fitting { IfOk result (λ found. IfSome found (λ spelled. IfOk spelled (λ command. 1 ≤ format → format ≤ 2 → IsFitting format self.old.level command))) }
        ensures err { OnErr result (self.new ≡ self.old) }
    {
        let alloc = *self.bytes.allocator();
        let rest = &self.bytes[self.from..];
        match find_front(alloc, self.level, rest, self.progress, ended)? {
            Front::Waits(progress) => {
                self.progress = progress;
                Ok(None)
            }
            Front::There(line, Asked::Nothing) => {
                let len = rest.len().min(line + 1);
                match line_command(alloc, format, &rest[..line]) {
                    Ok(command) => {
                        self.pass(len);
                        Ok(Some(command))
                    }
                    Err(e) => Err(e),
                }
            }
            Front::There(line, what) => {
                if let Some(len) = raster_len(self.level, rest, line, what, ended) {
                    let command = self.take_raster(format, line, len, ended)?;
                    return Ok(Some(command));
                }
                let (command, len) = front_command(
                    alloc, self.level, format, rest, line, what, ended,
                )?;
                self.pass(len);
                Ok(Some(command))
            }
        }
    }
}

/// From how many bytes on that were given they are let go.
const MUCH: usize = 65536;

impl Lines {
    /// What the item at the front spells, a raster whose line has so many bytes, and all of its lines so many: its rows are read over
    /// their own digits, so that they take no memory beside them. An Err leaves all as it was.
    fn take_raster(
        &mut self,
        format: u8,
        line: usize,
        len: usize,
        ended: bool,
    ) -> Result<Result<Command, Code>, AllocError>
        requires first { IsFrontLine ended self.old.level line kinds.Rows self.old.rest }
        requires raster { HasRaster ended self.old.level line kinds.Rows len self.old.rest }
        requires there { ended ≡ false → side self.old.level ≤ length (whole_lines (drop (line + 1) self.old.rest)) }
        ensures level { self.new.level ≡ self.old.level }
        ensures given { IfOk result (λ spelled. GivesCommand ended self.old.level format spelled self.old.rest self.new.rest) }
        ensures err { OnErr result (self.new ≡ self.old) }
    {
        let alloc = *self.bytes.allocator();
        let first = Vec::from_slice(alloc, &self.bytes[self.from..self.from + line])?;
        let words = line_words(alloc, &first)?;
        let level = self.level;
        let mut room = row_room(alloc, level, format)?;
        let (bytes, from) = self.hand_over(len)?;
        let rows_from = bytes.len().min(from + line + 1);
        let rows = rows_over(level, format, bytes, rows_from, &mut room);
        Ok(rows_command(format, &words, rows))
    }

    /// Gives the bytes out of its hands, with the index at which the rest begins, and goes on behind so many bytes of the rest, and
    /// behind the lines there that begin no item; what it goes on with is copied. An Err leaves all as it was.
    fn hand_over(&mut self, len: usize) -> Result<(Vec<u8>, usize), AllocError>
        requires { len ≤ length self.old.rest }
        ensures level { self.new.level ≡ self.old.level }
        ensures within { IfOk result (λ b. b.1 ≤ length b.0.items) }
        ensures rest { IfOk result (λ b. drop b.1 b.0.items ≡ self.old.rest) }
        ensures passed { OnOk result ((n : ℕ) → Gives false n [] (drop len self.old.rest) self.new.rest) }
        ensures err { OnErr result (self.new ≡ self.old) }
    {
        let from = self.from;
        let behind = &self.bytes[from + len..];
        let (silent, scanned) = silent_front(behind, 0);
        let kept = Vec::from_slice(*self.bytes.allocator(), &behind[silent..])?;
        let bytes = replace(&mut self.bytes, kept);
        self.from = 0;
        self.progress = Progress::Begun(scanned);
        Ok((bytes, from))
    }

    /// Goes on behind so many bytes of the rest, and behind the lines there that begin no item.
    fn pass(&mut self, len: usize)
        requires { len ≤ length self.old.rest }
        ensures level { self.new.level ≡ self.old.level }
        ensures passed { (n : ℕ) → Gives false n [] (drop len self.old.rest) self.new.rest }
    {
        let from = self.from + len;
        let (silent, scanned) = silent_front(&self.bytes[from..], 0);
        self.from = from + silent;
        self.progress = Progress::Begun(scanned);
        self.let_go();
    }

    /// Gives the memory back of what was given, where it is much and at least half of all, so that each byte is copied but once for
    /// two that are let go. Where there is no memory for what is left, all stays.
    fn let_go(&mut self)
        ensures { self.new ≡ self.old }
    {
        let left = self.bytes.len() - self.from;
        if self.from < MUCH || self.from < left {
            return;
        }
        if let Ok(bytes) = Vec::from_slice(*self.bytes.allocator(), &self.bytes[self.from..]) {
            self.bytes = bytes;
            self.from = 0;
        }
    }
}

/// Puts a piece behind the bytes from an index on of which this tells, and gives the others up; of further lines that have a greatest
/// length no more than shows that they are too long. An Err leaves all as it was.
fn put_piece(
    bytes: &mut Vec<u8>,
    from: usize,
    level: u8,
    progress: Progress,
    piece: &[u8],
) -> Result<(), AllocError>
    requires { from + told_len progress ≤ vec_len bytes.old }
    ensures put { OnOk result ((new : List ℕ) × (bytes.new.items ≡ take (told_len progress) (drop from bytes.old.items) ++ new)
        × IsTextPart (bounds_of level progress) piece.now new) }
    ensures err { OnErr result (bytes.new.items ≡ bytes.old.items) }
{
    match progress.bounds(level) {
        None => put_behind(bytes, from, progress.len(), piece),
        Some((most, missing)) => {
            if is_short(piece, most, missing) {
                return put_behind(bytes, from, progress.len(), piece);
            }
            let part = shortened(*bytes.allocator(), piece, most, missing)?;
            put_behind(bytes, from, progress.len(), &part)
        }
    }
}

/// Puts a piece behind so many bytes from an index on, and gives the others up. An Err leaves them as they were.
/// Where they begin with the first byte, only the piece is copied.
fn put_behind(bytes: &mut Vec<u8>, from: usize, kept: usize, piece: &[u8]) -> Result<(), AllocError>
    requires { from + kept ≤ vec_len bytes.old }
    ensures put { OnOk result (bytes.new.items ≡ take kept (drop from bytes.old.items) ++ piece.now) }
    ensures err { OnErr result (bytes.new.items ≡ bytes.old.items) }
{
    if from == 0 {
        return put_over(bytes, kept, piece);
    }
    let mut joined = Vec::from_slice(*bytes.allocator(), &bytes[from..from + kept])?;
    joined.extend_from_slice(piece)?;
    *bytes = joined;
    Ok(())
}

/// Puts a piece in the place of what stands behind so many bytes. An Err leaves them as they were.
fn put_over(bytes: &mut Vec<u8>, kept: usize, piece: &[u8]) -> Result<(), AllocError>
    requires { kept ≤ vec_len bytes.old }
    ensures put { OnOk result (bytes.new.items ≡ take kept bytes.old.items ++ piece.now) }
    ensures err { OnErr result (bytes.new.items ≡ bytes.old.items) }
{
    if kept == bytes.len() {
        bytes.extend_from_slice(piece)?;
        return Ok(());
    }
    bytes.reserve(piece.len())?;
    bytes.truncate(kept);
    bytes.extend_from_slice(piece)?;
    Ok(())
}

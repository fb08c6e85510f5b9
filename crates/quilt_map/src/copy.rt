ghost use Rattle.std.specs.Prelude.{◌≡◌, ℕ, ◌≤◌, List, IfOk, IfErr, map};
ghost use Rattle.quilt_words.specs.declared.command.Command.TheVariants as commands;
ghost use Rattle.quilt_record.specs.declared.record.Record.{Record as AnyRecord};
ghost use Rattle.quilt_spell.specs.Copying.{renumbered};
ghost use Rattle.quilt_store.specs.Stops.{HasStopCause, IsNotDamage};
ghost use Rattle.quilt_btree.specs.Trees.{IsTree};
ghost use Rattle.quilt_edition.specs.Books as books;
ghost use Rattle.quilt_replies.specs.Answers.{State};
ghost use Rattle.quilt_map.specs.Asking.{IsStill};
ghost use Rattle.quilt_map.specs.Commanding.{Answered, Refuses};
ghost use Rattle.quilt_map.specs.Copying.{BeginsWithEntry, records_numbered};
ghost use Rattle.quilt_map.specs.Sessions.{IsAtState, told_of, tree_in};

use crate::change::DAMAGED;
use crate::creation::{listed, new_entry};
use crate::entries::index_of;
use crate::refusals::why_not_new;
use crate::regions::layer_under;
use crate::session::Session;
use quilt_btree::Tree;
use quilt_edition::Book;
use quilt_record::{Entry, Key, Record, RecordList};
use quilt_region::{first_key, last_key};
use quilt_replies::{Reply, done_text};
use quilt_types::{Code, Name, Stop};
use quilt_world::{Disk, World};
use std::alloc::{AllocError, Global};

/// The records of the work's layer with this number, but that of the catalog, in the order of keys.
fn read_records<W: Disk>(alloc: Global, book: &mut Book<W>, number: u8) -> Result<Vec<Record>, Stop>
    ensures records { IfOk result (λ found. (rs : List AnyRecord) → IsTree (told_of book.old) (tree_in (books.work_of book.old)) rs
        → found.items ≡ records_numbered number rs) }
    ensures sound { IfErr result (λ e. (rs : List AnyRecord) → IsTree (told_of book.old) (tree_in (books.work_of book.old)) rs → IsNotDamage e) }
    ensures still { IsStill book.old book.new }
    ensures cause { HasStopCause (W.faults (books.world_of book.old)) (W.faults (books.world_of book.new)) result }
{
    let head = book.head();
    let tree = Tree {
        root: head.root,
        height: head.height,
        records: head.records,
    };
    tree.range(alloc, book, &first_key(number), &last_key(number), u32::MAX)
}

/// Every record of the work's layer with this entry, in the order of keys: first that of the catalog.
fn layer_records<W: Disk>(
    alloc: Global,
    book: &mut Book<W>,
    entry: &Entry,
) -> Result<RecordList, Stop>
    ensures list { IfOk result (λ all. (rs : List AnyRecord) → IsTree (told_of book.old) (tree_in (books.work_of book.old)) rs
        → BeginsWithEntry entry.now (records_numbered entry.now.number rs) all) }
    ensures sound { IfErr result (λ e. (rs : List AnyRecord) → 1 ≤ entry.now.number
        → IsTree (told_of book.old) (tree_in (books.work_of book.old)) rs → IsNotDamage e) }
    ensures still { IsStill book.old book.new }
    ensures cause { HasStopCause (W.faults (books.world_of book.old)) (W.faults (books.world_of book.new)) result }
{
    if entry.number == 0 {
        return Err(DAMAGED);
    }
    let records = read_records(alloc, book, entry.number)?;
    let Ok(all) = listed(alloc, entry, &records) else {
        return Err(Stop::Memory);
    };
    Ok(all)
}

/// The record under the number of another layer.
fn moved_record(number: u8, r: &Record) -> Record
    ensures { result ≡ renumbered number r.now }
{
    Record {
        key: Key {
            layer: u16::from(number),
            ..r.key
        },
        value: r.value,
    }
}

/// The records under the number of another layer.
fn moved_records(alloc: Global, number: u8, records: &[Record]) -> Result<Vec<Record>, AllocError>
    ensures { IfOk result (λ copies. copies.items ≡ map (renumbered number) records.now) }
{
    let mut copies = Vec::new(alloc);
    for r in records {
        copies.push(moved_record(number, r))?;
    }
    Ok(copies)
}

/// The records of the work's layer with this number, but that of the catalog, under another number.
fn copied_records<W: Disk>(
    alloc: Global,
    book: &mut Book<W>,
    number: u8,
    other: u8,
) -> Result<Vec<Record>, Stop>
    ensures list { IfOk result (λ copies. (rs : List AnyRecord) → IsTree (told_of book.old) (tree_in (books.work_of book.old)) rs
        → copies.items ≡ map (renumbered other) (records_numbered number rs)) }
    ensures sound { IfErr result (λ e. (rs : List AnyRecord) → IsTree (told_of book.old) (tree_in (books.work_of book.old)) rs → IsNotDamage e) }
    ensures still { IsStill book.old book.new }
    ensures cause { HasStopCause (W.faults (books.world_of book.old)) (W.faults (books.world_of book.new)) result }
{
    let records = read_records(alloc, book, number)?;
    match moved_records(alloc, other, &records) {
        Err(_) => Err(Stop::Memory),
        Ok(copies) => Ok(copies),
    }
}

impl<W: World> Session<W> {
    /// Drops a layer of any kind from the work.
    pub(crate) fn drop_layer(&mut self, name: &Name) -> Result<Reply, Stop>
        ensures answer { IfOk result (λ reply. (s : State) → IsAtState self.old s → Answered s (commands.Drop name.now) self.old self.new reply) }
        ensures sound { IfErr result (λ e. (s : State) → IsAtState self.old s → IsNotDamage e) }
        ensures refused { IfOk result (Refuses self.old self.new) }
        ensures goes_on { books.GoesOn self.old.book self.new.book }
        ensures cause { HasStopCause (W.faults (books.world_of self.old.book)) (W.faults (books.world_of self.new.book)) result }
    {
        let Some(i) = index_of(self.catalog.entries(), name) else {
            return Ok(Reply::No(Code::Unknown));
        };
        let Ok(text) = done_text(self.alloc) else {
            return Err(Stop::Memory);
        };
        let e = &self.catalog.entries()[i];
        let entry = Entry {
            number: e.number,
            name: name.copy(),
            kind: e.kind,
        };
        let all = layer_records(self.alloc, &mut self.book, &entry)?;
        // A map with fewer records is within its quota.
        if !self.change(all.records(), &[])? {
            return Err(DAMAGED);
        }
        self.catalog.remove(i);
        Ok(Reply::Ok(text))
    }

    /// Puts a copy of a layer of any kind into the work, under a name that no layer has.
    pub(crate) fn copy_layer(&mut self, name: &Name, other: &Name) -> Result<Reply, Stop>
        ensures answer { IfOk result (λ reply. (s : State) → IsAtState self.old s → Answered s (commands.Copy name.now other.now) self.old self.new reply) }
        ensures sound { IfErr result (λ e. (s : State) → IsAtState self.old s → IsNotDamage e) }
        ensures refused { IfOk result (Refuses self.old self.new) }
        ensures goes_on { books.GoesOn self.old.book self.new.book }
        ensures cause { HasStopCause (W.faults (books.world_of self.old.book)) (W.faults (books.world_of self.new.book)) result }
    {
        let Some((number, kind)) = layer_under(self.catalog.entries(), name) else {
            return Ok(Reply::No(Code::Unknown));
        };
        match why_not_new(self.catalog.entries(), other) {
            Some(code) => Ok(Reply::No(code)),
            None => {
                let entry = new_entry(self.catalog.entries(), other, kind);
                let copies = copied_records(self.alloc, &mut self.book, number, entry.number)?;
                self.place(entry, &copies)
            }
        }
    }
}

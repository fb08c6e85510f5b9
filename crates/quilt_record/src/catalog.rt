ghost use Rattle.std.specs.Prelude.{◌≡◌, ◌≢◌, ◌<◌, [], All, length, position};
ghost use Rattle.std.specs.List.{remove, position_or_len};
ghost use Rattle.std.specs.Ordering.{is_lt};
ghost use Rattle.quilt_record.specs.Catalogs.{IsCatalog, name_cmp, with_entry};

use crate::Entry;
use arrayvec::ArrayVec;
use quilt_types::Name;
use std::marker::Model;

/// The layers of a map: at most 255 entries with distinct names, in the order of the names.
#[derive(Drop)]
pub struct Catalog {
    entries: ArrayVec<Entry, 255>,
}

impl Model for Catalog {
    ghost use Rattle.std.specs.Prelude.{List};
    ghost use Rattle.quilt_record.specs.declared.entry.Entry.{Entry};
    ghost use Rattle.quilt_record.specs.Catalogs.{IsCatalog};

    ghost Value = { List Entry };

    ghost view = { λ c. c.entries.items };

    ghost invariant = { λ c. IsCatalog c.entries.items };
}

/// The place of the first entry with a greater name.
fn first_greater(entries: &[Entry], name: &Name) -> Option<usize>
    ensures { result ≡ position (λ e. is_lt (name_cmp name.now e.name)) entries.now }
{
    entries.iter().position(|e| *name < e.name)
}

/// The place at which an entry with this name belongs.
fn place_of(entries: &[Entry], name: &Name) -> usize
    ensures { result ≡ position_or_len (λ e. is_lt (name_cmp name.now e.name)) entries.now }
{
    match first_greater(entries, name) {
        Some(i) => i,
        None => entries.len(),
    }
}

impl Catalog {
    /// No entries.
    pub fn new() -> Catalog
        ensures { result ≡ [] }
    {
        Catalog {
            entries: ArrayVec::new(),
        }
    }

    /// The entries, in the order of their names.
    pub fn entries(&self) -> &[Entry]
        ensures entries { result.now ≡ self.now }
        ensures is { IsCatalog self.now }
    {
        &self.entries
    }

    /// Adds an entry whose name no other has, at its place.
    pub fn insert(&mut self, e: Entry)
        requires room { length self.old < 255 }
        requires new { All (λ f. f.name ≢ e.name) self.old }
        ensures { self.new ≡ with_entry e self.old }
    {
        let i = place_of(&self.entries, &e.name);
        self.entries.insert(i, e);
    }

    /// Takes out the entry at place `i`.
    pub fn remove(&mut self, i: usize)
        requires { i < length self.old }
        ensures { self.new ≡ remove self.old i }
    {
        self.entries.remove(i);
    }
}

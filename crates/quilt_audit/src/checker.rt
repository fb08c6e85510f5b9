ghost use Rattle.std.specs.Prelude.{◌≡◌, ◌≢◌, ◌⊎◌, ◌<◌, ◌≤◌, true, false, length, Contains, IfSome, IfNone};
ghost use Rattle.quilt_record.specs.declared.entry.Entry.{Entry as AnyEntry};
ghost use Rattle.quilt_audit.specs.Runs.{Starts};

use crate::regions::RegionRun;
use crate::run::Run;
use quilt_node::Head;
use quilt_record::{Catalog, Entry, Record, read_catalog};
use quilt_types::Name;
use std::alloc::{AllocError, Global};

/// Decides whether records that come in the order of their keys spell a map. Its memory is that of the catalog, of four blocks,
/// and of the pairs and segments of one line layer.
#[derive(Drop)]
pub struct Checker {
    alloc: Global,
    level: u8,
    format: u8,
    /// Whether the records so far may be the first of such a map.
    sound: bool,
    /// How many records have to come.
    due: u32,
    catalog: Catalog,
    /// The number of the last record of the catalog, or 0.
    last: u8,
    /// The number of the layer whose blocks come, or 0 where none has come.
    layer: u8,
    /// How far the records of that layer have come.
    run: Run,
    ghost level_least: { 1 ≤ level },
    ghost level_most: { level ≤ 12 },
    ghost few: { length catalog ≤ last },
    ghost last_most: { last ≤ 255 },
}

impl Checker {
    ghost use Rattle.std.specs.Prelude.{◌≡◌, ℕ, ◌++◌, ◌∷◌, [], true, false, List, IfOk, IfSome, IfNone, OnOk};
    ghost use Rattle.std.specs.Bool.{OnTrue, OnFalse};
    ghost use Rattle.quilt_types.specs.Layers.{Map};
    ghost use Rattle.quilt_loc.specs.Codes.{Rises};
    ghost use Rattle.quilt_record.specs.Catalogs.{IsCatalog};
    ghost use Rattle.quilt_record.specs.Records.{Numbering};
    ghost use Rattle.quilt_spell.specs.Written.{by_key};
    ghost use Rattle.quilt_spell.specs.Spelled.{SpellsUnder};
    ghost use Rattle.quilt_record.specs.declared.record.Record.{Record as AnyRecord};
    ghost use Rattle.quilt_audit.specs.Surveys.{AreNumbered};
    ghost use Rattle.quilt_audit.specs.Runs.{IsRunFinished};
    ghost use Rattle.quilt_audit.specs.Checking.{IsSoFar, HasBegun, Stops, AreRefused, IsFed, TakesRecords, SpellsSomeMap, MayList, IsComplete};

    /// No records yet, of a map as a file's head says.
    pub fn new(alloc: Global, head: &Head) -> Checker
        requires { (1 ≤ head.now.level) × (head.now.level ≤ 12) }
        ensures level { result.level ≡ head.now.level }
        ensures format { result.format ≡ head.now.format }
        ensures fed { IsFed head.now.records result [] }
    {
        Checker {
            alloc,
            level: head.level,
            format: head.format,
            sound: true,
            due: head.records,
            catalog: Catalog::new(),
            last: 0,
            layer: 0,
            run: Run::Region(RegionRun::new()),
        }
    }

    /// Takes the next record. Where no memory is left the checker is only given up.
    pub fn push(&mut self, r: &Record) -> Result<(), AllocError>
        ensures { OnOk result (TakesRecords self.old (r.now ∷ []) self.new) }
    {
        if !self.sound {
            return Ok(());
        }
        if self.due == 0 {
            self.sound = false;
            return Ok(());
        }
        self.due -= 1;
        self.sound = self.take(r)?;
        Ok(())
    }

    /// Takes a record, where it may be the next one.
    fn take(&mut self, r: &Record) -> Result<bool, AllocError>
        ensures yes { IfOk result (λ ok. (rs : List AnyRecord)
            → IsSoFar self.old.format self.old.level self.old.catalog self.old.last self.old.layer self.old.run rs
            → OnTrue ok (IsSoFar self.old.format self.old.level self.new.catalog self.new.last self.new.layer self.new.run (rs ++ r.now ∷ [])
            × HasBegun self.new.layer (rs ++ r.now ∷ []))) }
        ensures no { IfOk result (λ ok. (rs : List AnyRecord)
            → IsSoFar self.old.format self.old.level self.old.catalog self.old.last self.old.layer self.old.run rs → HasBegun self.old.layer rs
            → OnFalse ok (Stops self.old.format self.old.level rs r.now)) }
        ensures level { self.new.level ≡ self.old.level }
        ensures format { self.new.format ≡ self.old.format }
        ensures due { self.new.due ≡ self.old.due }
    {
        if r.key.layer == 0 {
            let entry = *r;
            Ok(self.take_entry(&entry))
        } else {
            self.take_block(r)
        }
    }

    /// Takes a record of the catalog, where it may be the next one.
    fn take_entry(&mut self, r: &Record) -> bool
        requires { r.now.key.layer ≡ 0 }
        ensures yes { (rs : List AnyRecord) → IsSoFar self.old.format self.old.level self.old.catalog self.old.last self.old.layer self.old.run rs
            → OnTrue result (IsSoFar self.old.format self.old.level self.new.catalog self.new.last self.new.layer self.new.run (rs ++ r.now ∷ [])
            × HasBegun self.new.layer (rs ++ r.now ∷ [])) }
        ensures no { (rs : List AnyRecord) → IsSoFar self.old.format self.old.level self.old.catalog self.old.last self.old.layer self.old.run rs
            → HasBegun self.old.layer rs → OnFalse result (Stops self.old.format self.old.level rs r.now) }
        ensures level { self.new.level ≡ self.old.level }
        ensures format { self.new.format ≡ self.old.format }
        ensures due { self.new.due ≡ self.old.due }
    {
        let Some(e) = read_catalog(r, self.format) else {
            return false;
        };
        if !self.may_list(&e) {
            return false;
        }
        self.last = e.number;
        self.catalog.insert(e);
        true
    }

    /// Whether the entry may be the next one of the catalog.
    fn may_list(&self, e: &Entry) -> bool
        ensures yes { result ≡ true → MayList self.now e.now }
        ensures no { result ≡ false → MayList self.now e.now → ⊥ }
    {
        if self.layer != 0 || e.number <= self.last {
            return false;
        }
        !has_name(self.catalog.entries(), &e.name)
    }

    /// Takes a record of a layer, where it may be the next one.
    fn take_block(&mut self, r: &Record) -> Result<bool, AllocError>
        requires { 1 ≤ r.now.key.layer }
        ensures yes { IfOk result (λ ok. (rs : List AnyRecord)
            → IsSoFar self.old.format self.old.level self.old.catalog self.old.last self.old.layer self.old.run rs
            → OnTrue ok (IsSoFar self.old.format self.old.level self.new.catalog self.new.last self.new.layer self.new.run (rs ++ r.now ∷ [])
            × HasBegun self.new.layer (rs ++ r.now ∷ []))) }
        ensures no { IfOk result (λ ok. (rs : List AnyRecord)
            → IsSoFar self.old.format self.old.level self.old.catalog self.old.last self.old.layer self.old.run rs → HasBegun self.old.layer rs
            → OnFalse ok (Stops self.old.format self.old.level rs r.now)) }
        ensures level { self.new.level ≡ self.old.level }
        ensures format { self.new.format ≡ self.old.format }
        ensures due { self.new.due ≡ self.old.due }
    {
        if 255 < r.key.layer {
            return Ok(false);
        }
        if !self.turn_to(r.key.layer)? {
            return Ok(false);
        }
        self.run.take(r, self.level, self.format)
    }

    /// Turns to the layer with this number, which is the one whose records come or the next one of the catalog.
    fn turn_to(&mut self, layer: u16) -> Result<bool, AllocError>
        requires { (1 ≤ layer) × (layer ≤ 255) }
        ensures yes { IfOk result (λ ok. (rs : List AnyRecord)
            → IsSoFar self.old.format self.old.level self.old.catalog self.old.last self.old.layer self.old.run rs
            → OnTrue ok (IsSoFar self.old.format self.old.level self.new.catalog self.new.last self.new.layer self.new.run rs
            × (self.new.layer ≡ layer))) }
        ensures no { IfOk result (λ ok. (rs : List AnyRecord) (r : AnyRecord)
            → IsSoFar self.old.format self.old.level self.old.catalog self.old.last self.old.layer self.old.run rs → HasBegun self.old.layer rs
            → r.key.layer ≡ layer → OnFalse ok (Stops self.old.format self.old.level rs r)) }
        ensures level { self.new.level ≡ self.old.level }
        ensures format { self.new.format ≡ self.old.format }
        ensures due { self.new.due ≡ self.old.due }
    {
        if layer == u16::from(self.layer) {
            return Ok(true);
        }
        if layer < u16::from(self.layer) {
            return Ok(false);
        }
        if !self.is_covered()? {
            return Ok(false);
        }
        if next_number(self.catalog.entries(), self.layer) != layer {
            return Ok(false);
        }
        let Some(run) = run_of(self.alloc, self.catalog.entries(), layer) else {
            return Ok(false);
        };
        self.layer = layer as u8;
        self.run = run;
        Ok(true)
    }

    /// Whether the records of the layer may be all, or none has come.
    fn is_covered(&self) -> Result<bool, AllocError>
        ensures yes { IfOk result (λ ok. OnTrue ok (1 ≤ self.now.layer → IsRunFinished self.now.level self.now.run)) }
        ensures no { IfOk result (λ ok. OnFalse ok ((1 ≤ self.now.layer) × (IsRunFinished self.now.level self.now.run → ⊥))) }
    {
        if self.layer == 0 {
            return Ok(true);
        }
        self.run.is_finished(self.level)
    }

    /// The catalog, where the records were those of a map.
    pub fn finish(self) -> Result<Option<Catalog>, AllocError>
        ensures some { IfOk result (λ o. IfSome o (λ entries. (total : ℕ) (rs : List AnyRecord) → IsFed total self rs → Rises by_key rs
            → SpellsSomeMap self.format self.level entries rs × (length rs ≡ total))) }
        ensures none { IfOk result (λ o. IfNone o ((total : ℕ) (rs : List AnyRecord) → IsFed total self rs → (numbers : Numbering) (layers : Map)
            → SpellsUnder self.format self.level numbers rs layers → length rs ≡ total → ⊥)) }
        ensures numbered { IfOk result (λ o. IfSome o (λ entries. (total : ℕ) (rs : List AnyRecord) → IsFed total self rs → AreNumbered self.format entries)) }
    {
        if !self.is_whole()? {
            return Ok(None);
        }
        let Checker { catalog, .. } = self;
        Ok(Some(catalog))
    }

    /// Whether the records may be all.
    fn is_whole(&self) -> Result<bool, AllocError>
        ensures yes { IfOk result (λ ok. OnTrue ok (IsComplete self.now)) }
        ensures no { IfOk result (λ ok. OnFalse ok (IsComplete self.now → ⊥)) }
        ensures catalog { IsCatalog self.now.catalog }
    {
        let entries = self.catalog.entries();
        let due = self.due;
        if !self.sound || due != 0 {
            return Ok(false);
        }
        if next_number(entries, self.layer) != 256 {
            return Ok(false);
        }
        self.is_covered()
    }
}

/// No record yet of the layer with this number, where an entry has it.
fn run_of(alloc: Global, entries: &[Entry], number: u16) -> Option<Run>
    ensures some { IfSome result (λ run. (e : AnyEntry) × Contains entries.now e × (e.number ≡ number) × Starts e.kind run) }
    ensures none { IfNone result ((e : AnyEntry) → Contains entries.now e → e.number ≡ number → ⊥) }
{
    match entries.iter().find(|e| u16::from(e.number) == number) {
        None => None,
        Some(e) => Some(Run::new(alloc, e.kind)),
    }
}

/// Whether an entry has the name.
fn has_name(entries: &[Entry], name: &Name) -> bool
    ensures yes { result ≡ true → (e : AnyEntry) × Contains entries.now e × (e.name ≡ name.now) }
    ensures no { result ≡ false → (e : AnyEntry) → Contains entries.now e → e.name ≢ name.now }
{
    entries.iter().any(|e| e.name == *name)
}

/// The number, where it is over one and below the other, or else that other one.
fn nearer(number: u8, above: u8, next: u16) -> u16
    requires { above < next }
    ensures over { (above < result) × (result ≤ next) }
    ensures one { (result ≡ next) ⊎ (result ≡ number) }
    ensures least { (number ≤ above) ⊎ ((result ≤ number) × (number ≤ 255)) }
{
    if above < number && u16::from(number) < next {
        u16::from(number)
    } else {
        next
    }
}

/// The least number of an entry that is over this one, or 256.
fn next_number(entries: &[Entry], above: u8) -> u16
    ensures over { (above < result) × (result ≤ 256) }
    ensures reached { (result ≡ 256) ⊎ ((e : AnyEntry) × Contains entries.now e × (e.number ≡ result)) }
    ensures least { (e : AnyEntry) → Contains entries.now e → (e.number ≤ above) ⊎ ((result ≤ e.number) × (e.number ≤ 255)) }
{
    let mut next = 256;
    for e in entries {
        next = nearer(e.number, above, next);
    }
    next
}

ghost use Rattle.std.specs.Prelude.{◌≡◌, ◌≢◌, ℕ, ◌+◌, ◌*◌, ◌<◌, ◌≤◌, ◌∷◌, [], List, true, Some, IfOk, IfErr, OnOk, All, length};
ghost use Rattle.std.specs.FinMap as finmap;
ghost use Rattle.quilt_types.specs.Layers.{Layer, Map, IsGrid, Region, is_name};
ghost use Rattle.quilt_record.specs.declared.record.Record.{Record as AnyRecord};
ghost use Rattle.quilt_record.specs.Records.{Numbering, record_of};
ghost use Rattle.quilt_record.specs.Listing.{fact_of_kind};
ghost use Rattle.quilt_world.specs.Tale.{Goes};
ghost use Rattle.quilt_blocks.specs.Cutting.{leaves_by_code};
ghost use Rattle.quilt_store.specs.Stops.{HasStopCause, IsNotDamage};
ghost use Rattle.quilt_spell.specs.Catalogued.{IsCatalogOf, kind_of};
ghost use Rattle.quilt_spell.specs.Written.{IsNumbering};
ghost use Rattle.quilt_region.specs.Regions.{region_records};
ghost use Rattle.quilt_edition.specs.Books as books;
ghost use Rattle.quilt_replies.specs.Answers.{State};
ghost use Rattle.quilt_map.specs.Asking.{reads_in};
ghost use Rattle.quilt_map.specs.Commanding.{Refuses};
ghost use Rattle.quilt_map.specs.Copying.{BeginsWithEntry};
ghost use Rattle.quilt_map.specs.Making.{AnsweredBy, layer_placed};
ghost use Rattle.quilt_map.specs.Planning.{IsLayerPlan};
ghost use Rattle.quilt_map.specs.Sessions.{IsAtState};

use crate::change::{is_past_quota, quota_of};
use crate::entries::free_number;
use crate::session::Session;
use quilt_blocks::LeafList;
use quilt_record::{Entry, Record, RecordList, catalog_record};
use quilt_region::plan_new;
use quilt_replies::{Reply, done_text};
use quilt_types::{Code, Kind, Name, Stop};
use quilt_world::World;
use std::alloc::{AllocError, Global};

/// The record of the catalog for an entry, and these records behind it.
pub(crate) fn listed(
    alloc: Global,
    entry: &Entry,
    records: &[Record],
) -> Result<RecordList, AllocError>
    requires { 1 ≤ entry.now.number }
    ensures { IfOk result (λ all. (first : AnyRecord) × (all ≡ first ∷ records.now)
        × ((n capacity : ℕ) → first ≡ record_of n capacity entry.now.name entry.now.number (fact_of_kind entry.now.kind))) }
{
    let mut all = RecordList::new(alloc);
    all.push(&catalog_record(entry))?;
    for r in records {
        all.push(r)?;
    }
    Ok(all)
}

/// The entry of a new layer with this name, under the least number that no other has.
pub(crate) fn new_entry(entries: &[Entry], name: &Name, kind: Kind) -> Entry
    requires { length entries.now < 255 }
    ensures name { result.name ≡ name.now }
    ensures named { is_name name.now ≡ true }
    ensures kind { result.kind ≡ kind }
    ensures number { (1 ≤ result.number) × (result.number ≤ 255) }
    ensures unused { (layers : Map) (numbers : Numbering) → IsCatalogOf layers numbers entries.now → IsNumbering layers numbers → (other : List ℕ)
        → finmap.get numbers other ≢ Some result.number }
{
    // The bytes of a name are one, which is said where they are read.
    let _ = name.text();
    Entry {
        number: free_number(entries),
        name: name.copy(),
        kind,
    }
}

impl<W: World> Session<W> {
    /// Puts a new layer with this entry and these records, behind that of the catalog, into the work. Their list and the reply are
    /// made first, so want of memory for these finds nothing done.
    pub(crate) fn place(&mut self, entry: Entry, records: &[Record]) -> Result<Reply, Stop>
        requires number { 1 ≤ entry.number }
        requires few { length self.old.catalog < 255 }
        requires new { All (λ e. e.name ≢ entry.name) self.old.catalog }
        ensures placed { IfOk result (λ reply. (s : State) (at : IsAtState self.old s) (layer : Layer) → entry.kind ≡ kind_of layer →
            ((all : List AnyRecord) → BeginsWithEntry entry records.now all → IsLayerPlan s at.work.numbers entry.name entry.number (Some layer) [] all) →
            AnsweredBy s (layer_placed s entry.name layer) self.old self.new reply) }
        ensures sound { IfErr result (λ e. (s : State) (at : IsAtState self.old s) (layer : Layer) →
            ((all : List AnyRecord) → BeginsWithEntry entry records.now all → IsLayerPlan s at.work.numbers entry.name entry.number (Some layer) [] all) →
            IsNotDamage e) }
        ensures refused { IfOk result (Refuses self.old self.new) }
        ensures goes_on { books.GoesOn self.old.book self.new.book }
        ensures cause { HasStopCause (W.faults (books.world_of self.old.book)) (W.faults (books.world_of self.new.book)) result }
        ensures reads { OnOk result (Goes (λ old new. new ≤ old + (6 + 6 * length records.now)) (reads_in self.old.book) (reads_in self.new.book)) }
    {
        let Ok(text) = done_text(self.alloc) else {
            return Err(Stop::Memory);
        };
        let Ok(all) = listed(self.alloc, &entry, records) else {
            return Err(Stop::Memory);
        };
        if !self.change(&[], all.records())? {
            return Ok(Reply::No(Code::Full));
        }
        self.catalog.insert(entry);
        Ok(Reply::Ok(text))
    }

    /// Makes a region layer with these leaves under a name that no layer has.
    pub(crate) fn make_region(&mut self, name: &Name, list: &LeafList) -> Result<Reply, Stop>
        requires few { length self.old.catalog < 255 }
        requires new { All (λ e. e.name ≢ name.now) self.old.catalog }
        ensures made { IfOk result (λ reply. (s : State) → IsAtState self.old s → list.now.level ≡ s.last.level
            → IsGrid s.last.format s.last.level list.now.grid →
            AnsweredBy s (layer_placed s name.now (Region list.now.grid)) self.old self.new reply) }
        ensures sound { IfErr result (λ e. (s : State) → IsAtState self.old s → list.now.level ≡ s.last.level
            → IsGrid s.last.format s.last.level list.now.grid → IsNotDamage e) }
        ensures refused { IfOk result (Refuses self.old self.new) }
        ensures goes_on { books.GoesOn self.old.book self.new.book }
        ensures cause { HasStopCause (W.faults (books.world_of self.old.book)) (W.faults (books.world_of self.new.book)) result }
        ensures reads { OnOk result (Goes (λ old new. new ≤ old + (6 + 6 * length (leaves_by_code list.now.level list.now.grid)))
            (reads_in self.old.book) (reads_in self.new.book)) }
    {
        // Each leaf is a record, so no plan is made of too many.
        if is_past_quota(list, quota_of(&self.book)) {
            return Ok(Reply::No(Code::Full));
        }
        let entry = new_entry(self.catalog.entries(), name, Kind::Region);
        let Ok(plan) = plan_new(self.alloc, entry.number, list) else {
            return Err(Stop::Memory);
        };
        self.place(entry, plan.add.records())
    }
}

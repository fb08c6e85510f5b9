ghost use Rattle.std.specs.Prelude.{◌≡◌, ◌↔◌, ℕ, ◌+◌, ◌*◌, ◌<◌, ◌≤◌, nat_lt, true, false, IsTrue, List, Option, IfOk, IfErr, OnOk, length, map};
ghost use Rattle.quilt_types.specs.Facts.{quota};
ghost use Rattle.quilt_types.specs.Layers.{Layer};
ghost use Rattle.quilt_record.specs.declared.entry.Entry.{Entry};
ghost use Rattle.quilt_blocks.specs.Cutting.{leaves_by_code};
ghost use Rattle.quilt_world.specs.Tale.{Goes};
ghost use Rattle.quilt_store.specs.Stops.{HasStopCause, IsNotDamage};
ghost use Rattle.quilt_spell.specs.Catalogued.{IsCatalogOf};
ghost use Rattle.quilt_spell.specs.Changing.{with_layer, with_number};
ghost use Rattle.quilt_edition.specs.Books as books;
ghost use Rattle.quilt_replies.specs.Answers.{State};
ghost use Rattle.quilt_map.specs.Asking.{reads_in};
ghost use Rattle.quilt_map.specs.Sessions.{IsAtState, session_world, changed_of, last_count};
ghost use Rattle.quilt_map.specs.Planning.{IsLayerPlan, HasChanged};

use crate::edit::edit_records;
use crate::session::Session;
use quilt_blocks::LeafList;
use quilt_edition::Book;
use quilt_record::{Edits, Record};
use quilt_store::PageStore;
use quilt_types::Stop;
use quilt_world::{Disk, World};

/// What is answered where pages read disagree with one another or with numbers kept.
pub(crate) const DAMAGED: Stop = Stop::Damaged { page: 0 };

/// How many records the work of a book may have, by the pages of its file.
pub(crate) fn quota_of<W: Disk>(book: &Book<W>) -> u32
    ensures { result ≡ quota (books.pages_of book.now) }
{
    64 * (book.pages() - 8)
}

/// Whether a list has more leaves than there may be records.
pub(crate) fn is_past_quota(list: &LeafList, quota: u32) -> bool
    ensures { IsTrue result ↔ (quota < length (leaves_by_code list.now.level list.now.grid)) }
{
    (quota as usize) < list.len()
}

/// Whether a map with so many records has too many, once some went and others came.
fn is_over(records: u32, removed: usize, added: usize, quota: u32) -> bool
    ensures { result ≡ nat_lt (quota + removed) (records + added) }
{
    let kept = u128::from(quota) + (removed as u128);
    kept < u128::from(records) + (added as u128)
}

impl<W: World> Session<W> {
    /// Takes the records out of the work's tree and puts the others in, each in the order of keys. False where the work would then have more
    /// records than the quota of its file, and nothing changes. The catalog is left as it was.
    pub(crate) fn change(&mut self, removed: &[Record], added: &[Record]) -> Result<bool, Stop>
        ensures changed { IfOk result
            (λ done. (s : State) (at : IsAtState self.old s) (name : List ℕ) (number : ℕ) (layer : Option Layer) (entries : List Entry) →
            IsLayerPlan s at.work.numbers name number layer removed.now added.now →
            IsCatalogOf (with_layer s.work name layer) (with_number at.work.numbers name number layer) entries →
            HasChanged done self.old self.new s name layer entries) }
        ensures sound { IfErr result (λ e. (s : State) (at : IsAtState self.old s) (name : List ℕ) (number : ℕ) (layer : Option Layer) →
            IsLayerPlan s at.work.numbers name number layer removed.now added.now → IsNotDamage e) }
        ensures full { IfOk result (λ done. done ≡ false → self.new ≡ self.old) }
        ensures goes_on { books.GoesOn self.old.book self.new.book }
        ensures used { books.published_free self.new.book ≡ books.published_free self.old.book }
        ensures catalogs { (self.new.catalog ≡ self.old.catalog) × (self.new.last ≡ self.old.last) }
        ensures reads { OnOk result (Goes (λ old new. new ≤ old + (10 * length removed.now + 6 * length added.now)) (reads_in self.old.book)
            (reads_in self.new.book)) }
        ensures cause { HasStopCause (W.faults (books.world_of self.old.book)) (W.faults (books.world_of self.new.book)) result }
    {
        let records = self.book.head().records;
        let quota = quota_of(&self.book);
        if is_over(records, removed.len(), added.len(), quota) {
            return Ok(false);
        }
        edit_records(self.alloc, &mut self.book, removed, added)?;
        let count = self.changes.saturating_add(removed.len() as u64);
        self.changes = count.saturating_add(added.len() as u64);
        Ok(true)
    }
}

ghost use Rattle.std.specs.Prelude.{◌≡◌, ℕ, ◌+◌, ◌*◌, ◌<◌, ◌≤◌, nat_eq, true, false, [], ◌∷◌, IfSome, OnOk, OnErr, IfOk, IsOk, IsErrOf, IsSome, IsTrue, Some, None};
ghost use Rattle.std.specs.Prelude.{length, slice_index_or, slice_set, if◌then◌else◌, ◌==◌, ◌-◌, ◌≢◌, filter};
ghost use Rattle.std.specs.List.{IsDistinct, range_with_len};
ghost use Rattle.std.specs.Map.{keys_of, remove_entry, set_value};
ghost use Rattle.lru.specs.LruCache.{lru_cache, put_entries, promoted, last_entry};
ghost use Rattle.quilt_world.specs.Causes.{HasCause, next_count};
ghost use Rattle.quilt_world.specs.Doors.{KeepsDevice};
ghost use Rattle.quilt_world.specs.Tale.{Goes};
ghost use Rattle.quilt_store.specs.Store.{HasStoreCause, Touches};
ghost use Rattle.quilt_store.specs.declared.store.StoreErr.TheVariants.{Memory};
ghost use Rattle.quilt_journal.specs.declared.journal.State.TheVariants.{Idle};
ghost use Rattle.quilt_journal.specs.Changed.{is_changed, has_bit};
ghost use Rattle.quilt_journal.specs.Kept.{work};
ghost use Rattle.quilt_journal.specs.Writing.{Writing};
ghost use Rattle.quilt_pool.specs.Entries.{frame_at, bytes_or, page_over, is_dirty, is_marked, AreBelow};
ghost use Rattle.quilt_pool.specs.Views.{seen, entries_of, pool_capacity, dirty_bits, fetched_of};
ghost use Rattle.quilt_pool.specs.Keeping.{IsWork, KeepsWork, Changes, IsSaved};
ghost use Rattle.quilt_pool.specs.Passing.{IsPassedOn};

use crate::pool::Pool;
use crate::table::{
    Lending, Table, clean_frame, drop_all, drop_frame, find_frame, lent_frame, mark_frame,
    put_frame, touch_frame,
};
use quilt_journal::{Journal, list_page, next_listed, unlist_page};
use quilt_store::StoreErr;
use quilt_world::{Disk, Fault};
use std::alloc::{AllocError, Global};
use std::num::NonZeroUsize;

impl Pool {
    ghost use Rattle.std.specs.Borrow.{sem};
    ghost use Rattle.quilt_pool.specs.Lending.{LendsPage};

    /// An empty pool of 8 to 4096 pages.
    pub fn new(alloc: Global, pages: u32) -> Result<Pool, AllocError>
        requires { (8 ≤ pages) × (pages ≤ 4096) }
        ensures { IfOk result (λ pool. seen pool ≡ lru_cache [] pages) }
    {
        let table = Table::new(alloc, NonZeroUsize::new(pages as usize).unwrap())?;
        Ok(Pool {
            table,
            dirty: [0; 3750],
            fetched: [0; 4096],
        })
    }

    /// Writes the last entry to its slot, where the pool is full and that entry is dirty.
    fn save_last<D: Disk>(&self, journal: &mut Journal, disk: &mut D) -> Result<(), Fault>
        requires idle { journal.old.state ≡ Idle }
        requires bits { length journal.old.changed ≡ journal.old.pages }
        requires below { AreBelow journal.old.pages (entries_of self.now) }
        requires size { D.size disk.old ≡ 3 + 2 * journal.old.pages }
        requires kept { IfSome (D.told disk.old) (IsWork journal.old.pages (entries_of self.now) journal.old.changed) }
        ensures cause { HasCause (D.faults disk.old) (D.faults disk.new) result }
        ensures device { KeepsDevice D.size D.door disk.old disk.new }
        ensures journal { (journal.new.pages ≡ journal.old.pages) × (journal.new.state ≡ journal.old.state)
            × (length journal.new.changed ≡ length journal.old.changed) }
        ensures reads { Goes (λ old new. new.reads ≡ old.reads) (D.told disk.old) (D.told disk.new) }
        ensures marked { (i : ℕ) → is_marked (entries_of self.now) journal.new.changed i ≡ is_marked (entries_of self.now) journal.old.changed i }
        ensures kept { Goes (KeepsWork journal.old.pages (entries_of self.now) (entries_of self.now) journal.old.changed journal.new.changed)
            (D.told disk.old) (D.told disk.new) }
        ensures listed { OnOk result (length (entries_of self.now) ≡ pool_capacity self.now → (page : ℕ) (f : _)
            → last_entry (entries_of self.now) ≡ Some (page, f) → f.is_dirty ≡ true → is_changed journal.new.changed page ≡ true) }
        ensures saved { OnOk result (IfSome (D.told disk.new) (λ new. IsSaved (seen self.now) (work new journal.old.pages journal.new.changed))) }
    {
        if self.table.len() < self.table.cap().get() {
            return Ok(());
        }
        let Some((page, (bytes, is_dirty))) = self.table.peek_lru() else {
            return Ok(());
        };
        if is_dirty {
            journal.write_slot(disk, page, bytes)?;
        }
        Ok(())
    }

    /// Makes room for a page that is not there.
    fn make_room<D: Disk>(
        &self,
        journal: &mut Journal,
        disk: &mut D,
        page: u32,
    ) -> Result<(), Fault>
        requires idle { journal.old.state ≡ Idle }
        requires bits { length journal.old.changed ≡ journal.old.pages }
        requires below { AreBelow journal.old.pages (entries_of self.now) }
        requires size { D.size disk.old ≡ 3 + 2 * journal.old.pages }
        requires kept { IfSome (D.told disk.old) (IsWork journal.old.pages (entries_of self.now) journal.old.changed) }
        ensures cause { HasCause (D.faults disk.old) (D.faults disk.new) result }
        ensures device { KeepsDevice D.size D.door disk.old disk.new }
        ensures journal { (journal.new.pages ≡ journal.old.pages) × (journal.new.state ≡ journal.old.state)
            × (length journal.new.changed ≡ length journal.old.changed) }
        ensures reads { Goes (λ old new. new.reads ≡ old.reads) (D.told disk.old) (D.told disk.new) }
        ensures marked { (i : ℕ) → is_marked (entries_of self.now) journal.new.changed i ≡ is_marked (entries_of self.now) journal.old.changed i }
        ensures kept { Goes (KeepsWork journal.old.pages (entries_of self.now) (entries_of self.now) journal.old.changed journal.new.changed)
            (D.told disk.old) (D.told disk.new) }
        ensures there { IsSome (frame_at (entries_of self.now) page) → IsOk result × (journal.new ≡ journal.old) × (disk.new ≡ disk.old) }
        ensures listed { OnOk result (frame_at (entries_of self.now) page ≡ None → length (entries_of self.now) ≡ pool_capacity self.now
            → (page : ℕ) (f : _) → last_entry (entries_of self.now) ≡ Some (page, f) → f.is_dirty ≡ true → is_changed journal.new.changed page ≡ true) }
        ensures saved { OnOk result
            (IfSome (D.told disk.new) (λ new. frame_at (entries_of self.now) page ≡ None
            → IsSaved (seen self.now) (work new journal.old.pages journal.new.changed))) }
    {
        if self.table.contains(page) {
            return Ok(());
        }
        self.save_last(journal, disk)?;
        Ok(())
    }

    /// Reads a page of the work. It comes to the front. Where memory runs out for its entry, it was read all the same.
    pub fn read<D: Disk>(
        &mut self,
        journal: &mut Journal,
        disk: &mut D,
        page: u32,
        into: &mut [u8; 4096],
    ) -> Result<(), StoreErr>
        requires idle { journal.old.state ≡ Idle }
        requires bits { length journal.old.changed ≡ journal.old.pages }
        requires page { (1 ≤ page) × (page < journal.old.pages) }
        requires below { AreBelow journal.old.pages (entries_of self.old) }
        requires size { D.size disk.old ≡ 3 + 2 * journal.old.pages }
        requires kept { IfSome (D.told disk.old) (IsWork journal.old.pages (entries_of self.old) journal.old.changed) }
        ensures cause { HasStoreCause (D.faults disk.old) (D.faults disk.new) result }
        ensures device { KeepsDevice D.size D.door disk.old disk.new }
        ensures journal { (journal.new.pages ≡ journal.old.pages) × (journal.new.state ≡ journal.old.state)
            × (length journal.new.changed ≡ length journal.old.changed) }
        ensures below { AreBelow journal.old.pages (entries_of self.new) }
        ensures cap { pool_capacity self.new ≡ pool_capacity self.old }
        ensures fault { IsErrOf result Memory → frame_at (entries_of self.old) page ≡ None → IsPassedOn (seen self.old) journal.new.changed }
        ensures read { IsErrOf result Memory
            → IfSome (D.told disk.old) (λ old. into.new ≡ page_over (entries_of self.old) (work old journal.old.pages journal.old.changed) page) }
        ensures found { IsSome (frame_at (entries_of self.old) page)
            → IsOk result × (seen self.new ≡ lru_cache (promoted (nat_eq page) (entries_of self.old)) (pool_capacity self.old))
            × (journal.new ≡ journal.old) × (disk.new ≡ disk.old) }
        ensures entered { OnOk result (frame_at (entries_of self.old) page ≡ None
            → seen self.new ≡ lru_cache (put_entries nat_eq (seen self.old) page (record { bytes = into.new; is_dirty = false })) (pool_capacity self.old)) }
        ensures same { OnErr result (seen self.new ≡ seen self.old) }
        ensures touched { OnOk result (Touches page (keys_of (entries_of self.old)) (keys_of (entries_of self.new))) }
        ensures reads { Goes (λ old new. new.reads ≤ old.reads + 1) (D.told disk.old) (D.told disk.new) }
        ensures held { IsSome (frame_at (entries_of self.old) page) → Goes (λ old new. new.reads ≤ old.reads) (D.told disk.old) (D.told disk.new) }
        ensures marked { (i : ℕ) → is_marked (entries_of self.new) journal.new.changed i ≡ is_marked (entries_of self.old) journal.old.changed i }
        ensures kept { Goes (KeepsWork journal.old.pages (entries_of self.old) (entries_of self.new) journal.old.changed journal.new.changed)
            (D.told disk.old) (D.told disk.new) }
        ensures bytes { OnOk result
            (IfSome (D.told disk.old) (λ old. into.new ≡ page_over (entries_of self.old) (work old journal.old.pages journal.old.changed) page)) }
    {
        if find_frame(&mut self.table, page, into) {
            return Ok(());
        }
        let Ok(()) = self.make_room(journal, disk, page) else {
            return Err(StoreErr::Device);
        };
        let Ok(()) = journal.read_page(disk, page, into) else {
            return Err(StoreErr::Device);
        };
        put_frame(&mut self.table, page, into, false)?;
        Ok(())
    }

    /// Brings a page of the work to the front. Where memory runs out for its entry, it was read all the same.
    pub fn bring<D: Disk>(
        &mut self,
        journal: &mut Journal,
        disk: &mut D,
        page: u32,
    ) -> Result<(), StoreErr>
        requires idle { journal.old.state ≡ Idle }
        requires bits { length journal.old.changed ≡ journal.old.pages }
        requires page { (1 ≤ page) × (page < journal.old.pages) }
        requires below { AreBelow journal.old.pages (entries_of self.old) }
        requires size { D.size disk.old ≡ 3 + 2 * journal.old.pages }
        requires kept { IfSome (D.told disk.old) (IsWork journal.old.pages (entries_of self.old) journal.old.changed) }
        ensures cause { HasStoreCause (D.faults disk.old) (D.faults disk.new) result }
        ensures device { KeepsDevice D.size D.door disk.old disk.new }
        ensures journal { (journal.new.pages ≡ journal.old.pages) × (journal.new.state ≡ journal.old.state)
            × (length journal.new.changed ≡ length journal.old.changed) }
        ensures below { AreBelow journal.old.pages (entries_of self.new) }
        ensures cap { pool_capacity self.new ≡ pool_capacity self.old }
        ensures fault { IsErrOf result Memory → frame_at (entries_of self.old) page ≡ None → IsPassedOn (seen self.old) journal.new.changed }
        ensures read { IsErrOf result Memory
            → IfSome (D.told disk.old) (λ old. fetched_of self.new ≡ page_over (entries_of self.old) (work old journal.old.pages journal.old.changed) page) }
        ensures found { IsSome (frame_at (entries_of self.old) page)
            → IsOk result × (seen self.new ≡ lru_cache (promoted (nat_eq page) (entries_of self.old)) (pool_capacity self.old))
            × (journal.new ≡ journal.old) × (disk.new ≡ disk.old) }
        ensures same { OnErr result (seen self.new ≡ seen self.old) }
        ensures touched { OnOk result (Touches page (keys_of (entries_of self.old)) (keys_of (entries_of self.new))) }
        ensures reads { Goes (λ old new. new.reads ≤ old.reads + 1) (D.told disk.old) (D.told disk.new) }
        ensures held { IsSome (frame_at (entries_of self.old) page) → Goes (λ old new. new.reads ≤ old.reads) (D.told disk.old) (D.told disk.new) }
        ensures marked { (i : ℕ) → is_marked (entries_of self.new) journal.new.changed i ≡ is_marked (entries_of self.old) journal.old.changed i }
        ensures kept { Goes (KeepsWork journal.old.pages (entries_of self.old) (entries_of self.new) journal.old.changed journal.new.changed)
            (D.told disk.old) (D.told disk.new) }
        ensures there { OnOk result (IsSome (frame_at (entries_of self.new) page)) }
        ensures bytes { OnOk result
            (IfSome (D.told disk.old) (λ old. bytes_or [] (frame_at (entries_of self.new) page) ≡ page_over (entries_of self.old) (work old journal.old.pages journal.old.changed) page)) }
    {
        if touch_frame(&mut self.table, page) {
            return Ok(());
        }
        let Ok(()) = self.make_room(journal, disk, page) else {
            return Err(StoreErr::Device);
        };
        let Ok(()) = journal.read_page(disk, page, &mut self.fetched) else {
            return Err(StoreErr::Device);
        };
        put_frame(&mut self.table, page, &self.fetched, false)?;
        Ok(())
    }

    /// The page, where it lies.
    pub fn lent(&self, page: u32) -> &[u8; 4096]
        requires there { IsSome (frame_at (entries_of self.now) page) }
        ensures bytes { result.now ≡ bytes_or [] (frame_at (entries_of self.now) page) }
    {
        lent_frame(&self.table, page)
    }

    /// Makes the page dirty, before it is lent to be changed.
    pub fn mark(&mut self, page: u32)
        requires there { IsSome (frame_at (entries_of self.old) page) }
        requires page { page < 30000 }
        ensures marked { (f : _) → frame_at (entries_of self.old) page ≡ Some f
            → seen self.new ≡ lru_cache (set_value (nat_eq page) (entries_of self.old) (record { bytes = f.bytes; is_dirty = true })) (pool_capacity self.old) }
    {
        let bits = &mut self.dirty;
        list_page(bits, page);
        mark_frame(&mut self.table, page);
    }

    /// The page, to be changed where it lies. One that is not dirty is marked first.
    pub fn lend(&mut self, page: u32) -> &mut [u8; 4096]
        requires there { IsSome (frame_at (entries_of self.old) page) }
        ensures* writes_back { sem 𝓛 (LendsPage self.entry page result) }
        ensures bytes { result.now ≡ bytes_or [] (frame_at (entries_of self.old) page) }
    {
        self.table.edit_frame(page)
    }

    /// Writes a page of the work. It comes to the front, dirty.
    pub fn write<D: Disk>(
        &mut self,
        journal: &mut Journal,
        disk: &mut D,
        page: u32,
        bytes: &[u8; 4096],
    ) -> Result<(), StoreErr>
        requires idle { journal.old.state ≡ Idle }
        requires bits { length journal.old.changed ≡ journal.old.pages }
        requires page { (1 ≤ page) × (page < journal.old.pages) }
        requires below { AreBelow journal.old.pages (entries_of self.old) }
        requires size { D.size disk.old ≡ 3 + 2 * journal.old.pages }
        requires kept { IfSome (D.told disk.old) (IsWork journal.old.pages (entries_of self.old) journal.old.changed) }
        ensures cause { HasStoreCause (D.faults disk.old) (D.faults disk.new) result }
        ensures device { KeepsDevice D.size D.door disk.old disk.new }
        ensures journal { (journal.new.pages ≡ journal.old.pages) × (journal.new.state ≡ journal.old.state)
            × (length journal.new.changed ≡ length journal.old.changed) }
        ensures below { AreBelow journal.old.pages (entries_of self.new) }
        ensures cap { pool_capacity self.new ≡ pool_capacity self.old }
        ensures fault { IsErrOf result Memory → frame_at (entries_of self.old) page ≡ None → IsPassedOn (seen self.old) journal.new.changed }
        ensures found { IsSome (frame_at (entries_of self.old) page) → IsOk result × (journal.new ≡ journal.old) × (disk.new ≡ disk.old) }
        ensures entered { OnOk result
            (seen self.new ≡ lru_cache (put_entries nat_eq (seen self.old) page (record { bytes = bytes.now; is_dirty = true })) (pool_capacity self.old)) }
        ensures same { OnErr result (seen self.new ≡ seen self.old) }
        ensures touched { OnOk result (Touches page (keys_of (entries_of self.old)) (keys_of (entries_of self.new))) }
        ensures reads { Goes (λ old new. new.reads ≤ old.reads) (D.told disk.old) (D.told disk.new) }
        ensures marked { OnOk result ((i : ℕ)
            → is_marked (entries_of self.new) journal.new.changed i ≡ (if i == page then true else is_marked (entries_of self.old) journal.old.changed i)) }
        ensures unmarked { OnErr result
            ((i : ℕ) → is_marked (entries_of self.new) journal.new.changed i ≡ is_marked (entries_of self.old) journal.old.changed i) }
        ensures changes { OnOk result
            (Goes (Changes journal.old.pages page bytes.now (entries_of self.old) (entries_of self.new) journal.old.changed journal.new.changed)
            (D.told disk.old) (D.told disk.new)) }
        ensures kept { OnErr result
            (Goes (KeepsWork journal.old.pages (entries_of self.old) (entries_of self.new) journal.old.changed journal.new.changed) (D.told disk.old)
            (D.told disk.new)) }
    {
        match self.make_room(journal, disk, page) {
            Err(Fault) => return Err(StoreErr::Device),
            Ok(()) => {}
        }
        let _ = journal.pages();
        list_page(&mut self.dirty, page);
        put_frame(&mut self.table, page, bytes, true)?;
        Ok(())
    }

    /// Drops the page's entry, where there is one.
    pub fn discard(&mut self, page: u32)
        ensures table { seen self.new ≡ lru_cache (remove_entry (nat_eq page) (entries_of self.old)) (pool_capacity self.old) }
    {
        drop_frame(&mut self.table, page);
    }

    /// Drops all entries.
    pub fn forget(&mut self)
        ensures table { seen self.new ≡ lru_cache [] (pool_capacity self.old) }
    {
        let Pool {
            table,
            dirty,
            fetched: _,
        } = self;
        drop_all(table);
        *dirty = [0; 3750];
    }

    /// Writes the page to its slot, where it is dirty. It is not dirty then.
    fn drain_page<D: Disk>(
        &mut self,
        journal: &mut Journal,
        disk: &mut D,
        page: u32,
    ) -> Result<(), Fault>
        requires idle { journal.old.state ≡ Idle }
        requires bits { length journal.old.changed ≡ journal.old.pages }
        requires page { (1 ≤ page) × (page < journal.old.pages) }
        requires below { AreBelow journal.old.pages (entries_of self.old) }
        requires size { D.size disk.old ≡ 3 + 2 * journal.old.pages }
        requires kept { IfSome (D.told disk.old) (IsWork journal.old.pages (entries_of self.old) journal.old.changed) }
        ensures cause { HasCause (D.faults disk.old) (D.faults disk.new) result }
        ensures device { KeepsDevice D.size D.door disk.old disk.new }
        ensures journal { (journal.new.pages ≡ journal.old.pages) × (journal.new.state ≡ journal.old.state)
            × (length journal.new.changed ≡ length journal.old.changed) }
        ensures below { AreBelow journal.old.pages (entries_of self.new) }
        ensures marked { (i : ℕ) → is_marked (entries_of self.new) journal.new.changed i ≡ is_marked (entries_of self.old) journal.old.changed i }
        ensures kept { Goes (KeepsWork journal.old.pages (entries_of self.old) (entries_of self.new) journal.old.changed journal.new.changed)
            (D.told disk.old) (D.told disk.new) }
        ensures writes { Goes (Writing (if is_dirty (entries_of self.old) page then 1 else 0)) (D.told disk.old) (D.told disk.new) }
        ensures drained { OnOk result (is_dirty (entries_of self.new) page ≡ false) }
        ensures order { keys_of (entries_of self.new) ≡ keys_of (entries_of self.old) }
        ensures bytes { (i : ℕ) → bytes_or [] (frame_at (entries_of self.new) i) ≡ bytes_or [] (frame_at (entries_of self.old) i) }
        ensures cap { pool_capacity self.new ≡ pool_capacity self.old }
        ensures others { (i : ℕ) → i ≢ page → is_dirty (entries_of self.new) i ≡ is_dirty (entries_of self.old) i }
    {
        let Some((bytes, is_dirty)) = self.table.peek(page) else {
            return Ok(());
        };
        if !is_dirty {
            return Ok(());
        }
        journal.write_slot(disk, page, bytes)?;
        clean_frame(&mut self.table, page);
        Ok(())
    }

    /// Writes each dirty page to its slot. It looks at the pages that have their bit alone. No page is dirty then.
    pub fn drain_dirty<D: Disk>(&mut self, journal: &mut Journal, disk: &mut D) -> Result<(), Fault>
        requires idle { journal.old.state ≡ Idle }
        requires bits { length journal.old.changed ≡ journal.old.pages }
        requires range { (1 ≤ journal.old.pages) × (journal.old.pages ≤ 30000) }
        requires below { AreBelow journal.old.pages (entries_of self.old) }
        requires size { D.size disk.old ≡ 3 + 2 * journal.old.pages }
        requires kept { IfSome (D.told disk.old) (IsWork journal.old.pages (entries_of self.old) journal.old.changed) }
        ensures cause { HasCause (D.faults disk.old) (D.faults disk.new) result }
        ensures device { KeepsDevice D.size D.door disk.old disk.new }
        ensures journal { (journal.new.pages ≡ journal.old.pages) × (journal.new.state ≡ journal.old.state)
            × (length journal.new.changed ≡ length journal.old.changed) }
        ensures below { AreBelow journal.old.pages (entries_of self.new) }
        ensures marked { (i : ℕ) → is_marked (entries_of self.new) journal.new.changed i ≡ is_marked (entries_of self.old) journal.old.changed i }
        ensures kept { Goes (KeepsWork journal.old.pages (entries_of self.old) (entries_of self.new) journal.old.changed journal.new.changed)
            (D.told disk.old) (D.told disk.new) }
        ensures writes { Goes (Writing (length (filter (is_dirty (entries_of self.old)) (range_with_len 1 (journal.old.pages - 1)))))
            (D.told disk.old) (D.told disk.new) }
        ensures order { keys_of (entries_of self.new) ≡ keys_of (entries_of self.old) }
        ensures bytes { (i : ℕ) → bytes_or [] (frame_at (entries_of self.new) i) ≡ bytes_or [] (frame_at (entries_of self.old) i) }
        ensures cap { pool_capacity self.new ≡ pool_capacity self.old }
        ensures drained { OnOk result ((i : ℕ) → is_dirty (entries_of self.new) i ≡ false) }
    {
        let pages = journal.pages();
        let mut from = 1;
        'bits: while let Some(page) = next_listed(&self.dirty, from, pages) {
            self.drain_page(journal, disk, page)?;
            unlist_page(&mut self.dirty, page);
            from = page + 1;
        }
        Ok(())
    }
}

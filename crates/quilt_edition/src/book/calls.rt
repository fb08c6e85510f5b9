ghost use Rattle.quilt_pool.specs.Views.{entries_of};
ghost use Rattle.std.specs.Prelude.{◌≡◌, ◌↔◌, IsTrue, ℕ, ◌+◌, ◌*◌, ◌≤◌, length, Some, None, [], ◌∷◌, ◌++◌, ◌<◌, true, false, take, refl, IfOk, IfSome};
ghost use Rattle.std.specs.Prelude.{OnOk, OnErr, slice_set};
ghost use Rattle.std.specs.Map.{keys_of};
ghost use Rattle.quilt_world.specs.Tale.{Adds, Goes};
ghost use Rattle.quilt_world.specs.Doors.{IsOpen, TakesFrom};
ghost use Rattle.quilt_world.specs.declared.event.Event.TheVariants.{Put};
ghost use Rattle.quilt_world.specs.declared.disk.Door.TheVariants as doors;
ghost use Rattle.quilt_world.specs.Causes.{HasCause};
ghost use Rattle.quilt_journal.specs.Writing.{Writing};
ghost use Rattle.quilt_journal.specs.Kept.{published};
ghost use Rattle.quilt_node.specs.Pages.{IsHead, header_bytes};
ghost use Rattle.quilt_journal.specs.declared.journal.State.TheVariants.{Idle};
ghost use Rattle.quilt_edition.specs.Books.{world_of, pages_of, last_of, work_of, next_of, published_free, IsReady, GoesOn, Publishes, HasPublished, SameBut};
ghost use Rattle.quilt_journal.specs.Changed.{has_bit};
ghost use Rattle.quilt_pool.specs.Entries.{AreBelow};
ghost use Rattle.quilt_edition.specs.Keeping.{IsKeptBy, told_pages, tale_reads, is_free, is_left_out, marked_count, IsLater};

use crate::book::Book;
use crate::free::{Tally, complement_of, count_free_pages};
use crate::publish::publish_pages;
use crate::revert::give_up_pages;
use quilt_journal::{Journal, State};
use quilt_node::{Head, header_bytes};
use quilt_pool::Pool;
use quilt_store::PageStore;
use quilt_world::{Disk, Fault, World};

impl<W: Disk> Book<W> {
    /// A book over a journal that was just opened, with nothing in the pool. No page is free yet.
    pub(crate) fn over(world: W, journal: Journal, pool: Pool, last: Head) -> Book<W>
        requires range { (16 ≤ journal.pages) × (journal.pages ≤ 30000) }
        requires bits { length journal.changed ≡ journal.pages }
        requires size { W.size world ≡ 3 + 2 * journal.pages }
        requires below { AreBelow journal.pages (entries_of pool) }
        requires kept { IsKeptBy journal (entries_of pool) last (W.told world) }
        requires numbers { IsHead journal.pages last }
        ensures world { result.world ≡ world }
        ensures journal { result.journal ≡ journal }
        ensures heads { (result.last ≡ last) × (result.work ≡ last) }
        ensures pool { result.pool ≡ pool }
        ensures used { (page : ℕ) → published_free result page ≡ false }
    {
        let free = [0; 3750];
        let used = complement_of(&free);
        let tally = Tally { count: 0, first: 1 };
        Book {
            world,
            journal,
            pool,
            last,
            work: last,
            used,
            free,
            tally,
            last_tally: tally,
        }
    }

    /// Makes the work the last edition.
    pub fn revert(&mut self)
        requires ready { IsReady self.old }
        ensures head { work_of self.new ≡ last_of self.old }
        ensures free { (page : ℕ) → ⟦<Book<W> as PageStore>⟧.free self.new page ≡ published_free self.old page }
        ensures world { world_of self.new ≡ world_of self.old }
        ensures goes_on { GoesOn self.old self.new }
        ensures ready { IsReady self.new }
        ensures used { published_free self.new ≡ published_free self.old }
        ensures changed { ⟦<Book<W> as PageStore>⟧.changed self.new ≡ 0 }
        ensures told { IfSome (W.told (world_of self.new)) (λ t. ⟦<Book<W> as PageStore>⟧.told self.new ≡ Some (published t (pages_of self.new))) }
    {
        give_up_pages(&mut self.pool, &mut self.journal);
        self.work = self.last;
        self.free = complement_of(&self.used);
        self.tally = self.last_tally;
    }

    /// States the pages of the published tree. The other pages from 1 on are free then, in the last edition and in the work.
    pub fn set_used(&mut self, used: &[u8; 3750])
        requires unchanged { ⟦<Book<W> as PageStore>⟧.changed self.old ≡ 0 }
        requires within { (page : ℕ) → has_bit used.now page ≡ true → (1 ≤ page) × (page < (pages_of self.old)) }
        ensures free { (page : ℕ) → ⟦<Book<W> as PageStore>⟧.free self.new page ≡ is_left_out (pages_of self.old) used.now page }
        ensures used { (page : ℕ) → published_free self.new page ≡ is_left_out (pages_of self.old) used.now page }
        ensures told { ⟦<Book<W> as PageStore>⟧.told self.new ≡ ⟦<Book<W> as PageStore>⟧.told self.old }
        ensures world { world_of self.new ≡ world_of self.old }
        ensures goes_on { GoesOn self.old self.new }
        ensures heads { (last_of self.new ≡ last_of self.old) × (work_of self.new ≡ work_of self.old) }
        ensures changed { ⟦<Book<W> as PageStore>⟧.changed self.new ≡ 0 }
    {
        let free = complement_of(used);
        let tally = Tally {
            count: count_free_pages(&free, self.journal.pages()),
            first: 1,
        };
        self.free = free;
        self.used = *used;
        self.tally = tally;
        self.last_tally = tally;
    }

    /// What the last edition's header says, with the tree of the work.
    pub fn head(&self) -> Head
        ensures work { result ≡ work_of self.now }
        ensures edition { (result.edition ≡ (last_of self.now).edition) × (result.level ≡ (last_of self.now).level) }
        ensures numbers { IsHead (pages_of self.now) result }
    {
        let Book { work, .. } = self;
        *work
    }

    /// Whether no publish has failed behind its first write.
    pub fn is_ready(&self) -> bool
        ensures { IsTrue result ↔ IsReady self.now }
    {
        self.journal.state() == State::Idle
    }

    /// States the tree of the work.
    pub fn set_tree(&mut self, root: u32, height: u8, records: u32)
        requires { IsHead (pages_of self.old) (record (work_of self.old) { root = root; height = height; records = records }) }
        ensures work { work_of self.new ≡ record (work_of self.old) { root = root; height = height; records = records } }
        ensures used { published_free self.new ≡ published_free self.old }
        ensures free { ⟦<Book<W> as PageStore>⟧.free self.new ≡ ⟦<Book<W> as PageStore>⟧.free self.old }
        ensures changed { ⟦<Book<W> as PageStore>⟧.changed self.new ≡ ⟦<Book<W> as PageStore>⟧.changed self.old }
        ensures world { world_of self.new ≡ world_of self.old }
        ensures goes_on { GoesOn self.old self.new }
        ensures told { ⟦<Book<W> as PageStore>⟧.told self.new ≡ ⟦<Book<W> as PageStore>⟧.told self.old }
    {
        self.work = Head {
            root,
            height,
            records,
            ..self.work
        };
    }

    /// Sets the format of the work to 2.
    pub fn raise(&mut self)
        ensures work { work_of self.new ≡ record (work_of self.old) { format = 2 } }
        ensures last { last_of self.new ≡ last_of self.old }
        ensures used { published_free self.new ≡ published_free self.old }
        ensures free { ⟦<Book<W> as PageStore>⟧.free self.new ≡ ⟦<Book<W> as PageStore>⟧.free self.old }
        ensures changed { ⟦<Book<W> as PageStore>⟧.changed self.new ≡ ⟦<Book<W> as PageStore>⟧.changed self.old }
        ensures world { world_of self.new ≡ world_of self.old }
        ensures goes_on { GoesOn self.old self.new }
        ensures told { ⟦<Book<W> as PageStore>⟧.told self.new ≡ ⟦<Book<W> as PageStore>⟧.told self.old }
    {
        self.work.format = 2;
    }

    /// Makes the work the next edition.
    pub fn publish(&mut self) -> Result<u32, Fault>
        requires ready { IsReady self.old }
        requires number { (last_of self.old).edition < 4294967295 }
        ensures cause { HasCause (W.faults (world_of self.old)) (W.faults (world_of self.new)) result }
        ensures door { W.door (world_of self.new) ≡ W.door (world_of self.old) }
        ensures size { pages_of self.new ≡ pages_of self.old }
        ensures ready { OnOk result (IsReady self.new) }
        ensures number { IfOk result (λ n. n ≡ (last_of self.old).edition + 1) }
        ensures head { OnOk result ((last_of self.new ≡ next_of self.old) × (work_of self.new ≡ next_of self.old)) }
        ensures changed { OnOk result (⟦<Book<W> as PageStore>⟧.changed self.new ≡ 0) }
        ensures told { OnOk result
            (Goes (λ old new. new ≡ slice_set old 0 (header_bytes (next_of self.old))) (⟦<Book<W> as PageStore>⟧.told self.old)
            (⟦<Book<W> as PageStore>⟧.told self.new)) }
        ensures writes { Goes (Writing (2 * ⟦<Book<W> as PageStore>⟧.changed self.old + 5)) (W.told (world_of self.old)) (W.told (world_of self.new)) }
        ensures free { ⟦<Book<W> as PageStore>⟧.free self.new ≡ ⟦<Book<W> as PageStore>⟧.free self.old }
        ensures used { OnOk result ((page : ℕ) → published_free self.new page ≡ ⟦<Book<W> as PageStore>⟧.free self.old page) }

        // At each event a stop leaves the published pages, or the work's under the new header.
        ensures crash { Goes (Publishes self.old) (W.told (world_of self.old)) (W.told (world_of self.new)) }

        // And after Ok the latter, which are what the book tells then.
        ensures published { OnOk result (Goes (HasPublished self.old self.new) (W.told (world_of self.old)) (W.told (world_of self.new))) }
    {
        let head = Head {
            edition: self.last.edition + 1,
            ..self.work
        };
        let header = header_bytes(&head);
        publish_pages(&mut self.world, &mut self.journal, &mut self.pool, &header)?;
        self.last = head;
        self.work = head;
        self.used = complement_of(&self.free);
        self.last_tally = self.tally;
        Ok(head.edition)
    }

    /// The disk as it is.
    pub fn into_world(self) -> W
        ensures { result ≡ world_of self }
    {
        let Book {
            world,
            journal: _,
            pool: _,
            last: _,
            work: _,
            used: _,
            free: _,
            tally: _,
            last_tally: _,
        } = self;
        world
    }
}

impl<W: World> Book<W> {
    /// Takes the next bytes of the input. 0 says that it has ended.
    pub fn take(&mut self, into: &mut [u8]) -> Result<usize, Fault>
        requires open { IsOpen (W.door (world_of self.old)) }
        requires room { 0 < length into.old }
        ensures cause { HasCause (W.faults (world_of self.old)) (W.faults (world_of self.new)) result }
        ensures door { W.door (world_of self.new) ≡ W.door (world_of self.old) }
        ensures count { IfOk result (λ n. n ≤ length into.old) }
        ensures took { IfOk result (λ n. Goes (TakesFrom (take n into.new)) (W.told (world_of self.old)) (W.told (world_of self.new))) }
        ensures nothing { OnErr result (Goes (Adds []) (W.told (world_of self.old)) (W.told (world_of self.new))) }
        ensures same { SameBut self.old self.new }
        ensures told { ⟦<Book<W> as PageStore>⟧.told self.new ≡ ⟦<Book<W> as PageStore>⟧.told self.old }
    {
        self.world.take(into)
    }

    /// Puts a prefix of the bytes to the output.
    pub fn put(&mut self, bytes: &[u8]) -> Result<usize, Fault>
        requires open { IsOpen (W.door (world_of self.old)) }
        requires some { 0 < length bytes.now }
        ensures cause { HasCause (W.faults (world_of self.old)) (W.faults (world_of self.new)) result }
        ensures door { W.door (world_of self.new) ≡ W.door (world_of self.old) }
        ensures count { IfOk result (λ n. (1 ≤ n) × (n ≤ length bytes.now)) }
        ensures put { IfOk result (λ n. Goes (Adds (Put (take n bytes.now) ∷ [])) (W.told (world_of self.old)) (W.told (world_of self.new))) }
        ensures nothing { OnErr result (Goes (Adds []) (W.told (world_of self.old)) (W.told (world_of self.new))) }
        ensures same { SameBut self.old self.new }
        ensures told { ⟦<Book<W> as PageStore>⟧.told self.new ≡ ⟦<Book<W> as PageStore>⟧.told self.old }
    {
        self.world.put(bytes)
    }
}

ghost use Rattle.std.specs.Prelude.{◌≡◌, ◌↔◌, IsTrue, ℕ, ◌<◌, ◌≤◌, true, ◌||◌, [], ◌∷◌, List, Some, None, take, length, IfOk, IfErr, OnErr, OnOk};
ghost use Rattle.quilt_types.specs.Facts.{records};
ghost use Rattle.quilt_types.specs.declared.plane.Pixel.{Pixel as AnyPixel};
ghost use Rattle.quilt_types.specs.Layers.{Edition};
ghost use Rattle.quilt_words.specs.declared.command.Command.TheVariants as commands;
ghost use Rattle.quilt_types.specs.declared.stop.Stop.TheVariants as stops;
ghost use Rattle.quilt_world.specs.Added.{AddsOnly, is_of_pages};
ghost use Rattle.quilt_world.specs.Tale.{Tale, Adds, Goes};
ghost use Rattle.quilt_world.specs.Causes.{HasCause, Rose};
ghost use Rattle.quilt_world.specs.Doors.{IsOpen, TakesFrom};
ghost use Rattle.quilt_world.specs.declared.event.Event.TheVariants.{Put};
ghost use Rattle.quilt_world.specs.declared.disk.Door.TheVariants as doors;
ghost use Rattle.quilt_words.specs.Forms.{Spelled};
ghost use Rattle.quilt_edition.specs.Books as books;
ghost use Rattle.quilt_replies.specs.Answers.{State, answer};
ghost use Rattle.quilt_map.specs.Sessions.{IsNumbered, IsOpened, changed_of, free_of, first_state};
ghost use Rattle.quilt_replies.specs.States.{Tells, IsRefusal, after};
ghost use Rattle.quilt_map.specs.Commanding.{IsWholeStep};
ghost use Rattle.quilt_map.specs.Reading.{IsPromised, ReadsFew, warm_left};
ghost use Rattle.quilt_map.specs.Steps.{LeavesEdition, CommandWritesFew, asks, changes_after, gives_edition, goes_back};

use crate::entries::copy_of;
use quilt_edition::Book;
use quilt_node::Head;
use quilt_par::Gate;
use quilt_record::Catalog;
use quilt_replies::Reply;
use quilt_types::{Name, Pixel, Stop};
use quilt_words::Command;
use quilt_world::{Disk, Fault, World};
use std::alloc::Global;
use std::thread::Threads;

/// A map being worked on: the book of its file, and the catalogs of the work and of the last edition.
#[derive(Drop)]
pub struct Session<W: Disk> {
    pub(crate) book: Book<W>,
    pub(crate) catalog: Catalog,
    pub(crate) last: Catalog,
    pub(crate) changes: u64,
    pub(crate) warm: Option<(Name, Pixel)>,
    pub(crate) alloc: Global,
}

impl<W: World> Session<W> {
    ghost use Rattle.quilt_map.specs.Sessions.{session_world, format_of, level_of, head_of, changes_of, reads_of, warm_of, IsAt, IsSessionReady};

    /// The session over a book that was just opened, with the catalog that was found in it. Nothing is changed yet. It takes no memory.
    #[tactic(auto, unfolding(crate::specs::Sessions::session_world, crate::specs::Sessions::format_of, crate::specs::Sessions::level_of, crate::specs::Sessions::changes_of, crate::specs::Sessions::reads_of, crate::specs::Sessions::warm_of, crate::specs::Sessions::head_of, crate::specs::Sessions::IsSessionReady, crate::specs::Sessions::IsAt))]
    pub fn new(alloc: Global, book: Book<W>, catalog: Catalog) -> Session<W>
        requires ready { books.IsReady book }
        requires numbered { IsNumbered catalog }
        requires unchanged { changed_of book ≡ 0 }
        requires heads { books.work_of book ≡ books.last_of book }
        requires free { (page : ℕ) → free_of book page ≡ books.published_free book page }
        ensures world { session_world result ≡ books.world_of book }
        ensures ready { IsSessionReady result }
        ensures level { level_of result ≡ (books.last_of book).level }
        ensures changes { changes_of result ≡ 0 }
        ensures warm { warm_of result ≡ None }
        ensures at { (e : Edition) → IsOpened book catalog e → IsAt result (first_state (books.pages_of book) e) }
    {
        let last = copy_of(&catalog);
        Session {
            book,
            catalog,
            last,
            changes: 0,
            warm: None,
            alloc,
        }
    }

    /// The reply to a command, and the work that it leaves. A refused command changes nothing. After an Err no further command is asked, and the
    /// session is only given up.
    #[tactic(auto, unfolding(crate::specs::Sessions::session_world, crate::specs::Sessions::format_of, crate::specs::Sessions::level_of, crate::specs::Sessions::changes_of, crate::specs::Sessions::reads_of, crate::specs::Sessions::warm_of, crate::specs::Sessions::head_of, crate::specs::Sessions::IsSessionReady, crate::specs::Sessions::IsAt))]
    pub fn apply<R: Threads + Sync, G: Gate + Sync>(
        &mut self,
        rt: &R,
        gate: &G,
        command: &Command,
    ) -> Result<Reply, Stop>
        requires ready { IsSessionReady self.old }
        requires spelled { Spelled (format_of self.old) (level_of self.old) command.now }
        ensures ready { OnOk result (IsSessionReady self.new) }
        ensures answer { IfOk result (λ reply. (s : State) → IsAt self.old s → Tells reply (answer s command.now).reply × IsAt self.new (after s command.now)) }
        ensures refused { IfOk result (λ reply. IsRefusal reply → (s : State) → IsAt self.old s → IsAt self.new s) }
        ensures kept { IfOk result (λ reply. IsRefusal reply → (head_of self.new ≡ head_of self.old) × (format_of self.new ≡ format_of self.old)
            × (changes_of self.new ≡ changes_of self.old)) }
        ensures changes { IfOk result (λ reply. (s : State) → IsAt self.old s → changes_of self.new ≡ changes_after s command.now (changes_of self.old)) }
        ensures level { OnOk result (level_of self.new ≡ level_of self.old) }
        ensures later { W.faults (session_world self.old) ≤ W.faults (session_world self.new) }
        ensures device { IfErr result (λ stop. stop ≡ stops.Device → Rose (W.faults (session_world self.old)) (W.faults (session_world self.new))) }
        ensures damaged { IfErr result (λ stop. (page : ℕ) → stop ≡ stops.Damaged page → (s : State) → IsAt self.old s → ⊥) }
        ensures door { W.door (session_world self.new) ≡ W.door (session_world self.old) }

        // Pages are written and synced alone, and at each event a stop leaves the last edition, or the one that the command gives.
        ensures events { Goes (AddsOnly is_of_pages) (W.told (session_world self.old)) (W.told (session_world self.new)) }
        ensures input { Goes (λ old new. new.input ≡ old.input) (W.told (session_world self.old)) (W.told (session_world self.new)) }
        ensures crash { (s : State) → IsAt self.old s → Goes (LeavesEdition s command.now) (W.told (session_world self.old)) (W.told (session_world self.new)) }
        ensures writes { (s : State) → IsAt self.old s
            → Goes (CommandWritesFew s command.now (changes_of self.old)) (W.told (session_world self.old)) (W.told (session_world self.new)) }
        ensures reads { (s : State) → IsAt self.old s → IsPromised s command.now result → ReadsFew s command.now (reads_of self.old) (reads_of self.new) }
        ensures warm { warm_of self.new ≡ warm_left command.now result }

        // A question leaves the session where it stood, however it ends; a publish, an upgrade and a revert that want memory leave it whole
        // but for the last pixel.
        ensures stays { asks command.now ≡ true → (s : State) → IsAt self.old s → IsAt self.new s }
        ensures whole { IfErr result (λ stop. stop ≡ stops.Memory → (gives_edition command.now || goes_back command.now) ≡ true → IsWholeStep self.old self.new) }

        // A publish or an upgrade that wants memory has called no device; a revert calls none.
        ensures quiet { IfErr result (λ stop. stop ≡ stops.Memory → gives_edition command.now ≡ true → session_world self.new ≡ session_world self.old) }
        ensures back { command.now ≡ commands.Revert → session_world self.new ≡ session_world self.old }

        // An `at` of the layer and the pixel that `warm` tells reads no page.
        ensures again { (s : State) → IsAt self.old s → (name : List ℕ) (p : AnyPixel) → command.now ≡ commands.At name p → warm_of self.old ≡ Some (name, p) →
            Goes (λ before now. now ≤ before) (reads_of self.old) (reads_of self.new) }
    {
        self.answer(rt, gate, command)
    }

    /// The next bytes of the input, as the world takes them. 0 says that it has ended.
    #[tactic(auto, unfolding(crate::specs::Sessions::session_world, crate::specs::Sessions::format_of, crate::specs::Sessions::level_of, crate::specs::Sessions::changes_of, crate::specs::Sessions::reads_of, crate::specs::Sessions::warm_of, crate::specs::Sessions::head_of, crate::specs::Sessions::IsSessionReady, crate::specs::Sessions::IsAt))]
    pub fn take(&mut self, into: &mut [u8]) -> Result<usize, Fault>
        requires open { IsOpen (W.door (session_world self.old)) }
        requires room { 0 < length into.old }
        ensures cause { HasCause (W.faults (session_world self.old)) (W.faults (session_world self.new)) result }
        ensures door { W.door (session_world self.new) ≡ W.door (session_world self.old) }
        ensures count { IfOk result (λ n. n ≤ length into.old) }
        ensures took { IfOk result (λ n. Goes (TakesFrom (take n into.new)) (W.told (session_world self.old)) (W.told (session_world self.new))) }
        ensures nothing { OnErr result (Goes (Adds []) (W.told (session_world self.old)) (W.told (session_world self.new))) }
        ensures format { format_of self.new ≡ format_of self.old }
        ensures level { level_of self.new ≡ level_of self.old }
        ensures changes { changes_of self.new ≡ changes_of self.old }
        ensures warm { warm_of self.new ≡ warm_of self.old }
        ensures ready { IsSessionReady self.old → IsSessionReady self.new }
        ensures at { (s : State) → IsAt self.old s → IsAt self.new s }
    {
        self.book.take(into)
    }

    /// Puts a prefix of the bytes to the output, as the world puts them.
    #[tactic(auto, unfolding(crate::specs::Sessions::session_world, crate::specs::Sessions::format_of, crate::specs::Sessions::level_of, crate::specs::Sessions::changes_of, crate::specs::Sessions::reads_of, crate::specs::Sessions::warm_of, crate::specs::Sessions::head_of, crate::specs::Sessions::IsSessionReady, crate::specs::Sessions::IsAt))]
    pub fn put(&mut self, bytes: &[u8]) -> Result<usize, Fault>
        requires open { IsOpen (W.door (session_world self.old)) }
        requires some { 0 < length bytes.now }
        ensures cause { HasCause (W.faults (session_world self.old)) (W.faults (session_world self.new)) result }
        ensures door { W.door (session_world self.new) ≡ W.door (session_world self.old) }
        ensures count { IfOk result (λ n. (1 ≤ n) × (n ≤ length bytes.now)) }
        ensures put { IfOk result (λ n. Goes (Adds (Put (take n bytes.now) ∷ [])) (W.told (session_world self.old)) (W.told (session_world self.new))) }
        ensures nothing { OnErr result (Goes (Adds []) (W.told (session_world self.old)) (W.told (session_world self.new))) }
        ensures format { format_of self.new ≡ format_of self.old }
        ensures level { level_of self.new ≡ level_of self.old }
        ensures changes { changes_of self.new ≡ changes_of self.old }
        ensures warm { warm_of self.new ≡ warm_of self.old }
        ensures ready { IsSessionReady self.old → IsSessionReady self.new }
        ensures at { (s : State) → IsAt self.old s → IsAt self.new s }
    {
        self.book.put(bytes)
    }

    /// The last edition's format, number and level, and the work's tree with its number of records. It takes no memory.
    #[tactic(auto, unfolding(crate::specs::Sessions::session_world, crate::specs::Sessions::format_of, crate::specs::Sessions::level_of, crate::specs::Sessions::changes_of, crate::specs::Sessions::reads_of, crate::specs::Sessions::warm_of, crate::specs::Sessions::head_of, crate::specs::Sessions::IsSessionReady, crate::specs::Sessions::IsAt))]
    pub fn head(&self) -> Head
        ensures whole { result ≡ head_of self.now }
        ensures format { (s : State) → IsAt self.now s → s.last.format ≡ result.format }
        ensures is_format { result.format ≡ format_of self.now }
        ensures number { (s : State) → IsAt self.now s → s.last.number ≡ result.edition }
        ensures level { (s : State) → IsAt self.now s → s.last.level ≡ result.level }
        ensures is_level { result.level ≡ level_of self.now }
        ensures records { (s : State) → IsAt self.now s → records s.last.level s.work ≡ result.records }
        ensures range { (1 ≤ result.level) × (result.level ≤ 12) }
    {
        self.book.head()
    }

    /// Whether no publish has failed behind its first write. Behind one that has, no further command is answered.
    #[tactic(auto, unfolding(crate::specs::Sessions::IsSessionReady))]
    pub fn is_ready(&self) -> bool
        ensures { IsTrue result ↔ IsSessionReady self.now }
    {
        self.book.is_ready()
    }

    /// How many records were removed and added since the file was opened, or since the last edition or revert: 2^64 - 1 where there are more.
    #[tactic(auto, unfolding(crate::specs::Sessions::session_world, crate::specs::Sessions::format_of, crate::specs::Sessions::level_of, crate::specs::Sessions::changes_of, crate::specs::Sessions::reads_of, crate::specs::Sessions::warm_of, crate::specs::Sessions::head_of, crate::specs::Sessions::IsSessionReady, crate::specs::Sessions::IsAt))]
    pub fn changes(&self) -> u64
        ensures { result ≡ changes_of self.now }
    {
        self.changes
    }

    /// The layer and the pixel of the last command, where it was an `at` that was answered. It takes no memory.
    #[tactic(auto, unfolding(crate::specs::Sessions::warm_of))]
    pub fn warm(&self) -> Option<(Name, Pixel)>
        ensures { result ≡ warm_of self.now }
    {
        match &self.warm {
            None => None,
            Some((name, at)) => Some((name.copy(), *at)),
        }
    }

    /// The world as it is. The work that was not published is given up.
    #[tactic(auto, unfolding(crate::specs::Sessions::session_world, crate::specs::Sessions::format_of, crate::specs::Sessions::level_of, crate::specs::Sessions::changes_of, crate::specs::Sessions::reads_of, crate::specs::Sessions::warm_of, crate::specs::Sessions::head_of, crate::specs::Sessions::IsSessionReady, crate::specs::Sessions::IsAt))]
    pub fn into_world(self) -> W
        ensures { result ≡ session_world self }
    {
        let Session {
            book,
            catalog: _,
            last: _,
            changes: _,
            warm: _,
            alloc: _,
        } = self;
        book.into_world()
    }
}

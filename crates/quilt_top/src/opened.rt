ghost use Rattle.std.specs.Prelude.{◌≡◌, ◌≤◌, ℕ, IfSome, Some, IfOk, IfErr};
ghost use Rattle.quilt_world.specs.Disk.{Pages};
ghost use Rattle.quilt_world.specs.Tale.{Tale, Goes};
ghost use Rattle.quilt_journal.specs.Beginning.{NoneFree, Redoes};
ghost use Rattle.quilt_journal.specs.Kept.{published};
ghost use Rattle.quilt_edition.specs.Books as books;
ghost use Rattle.quilt_edition.specs.Keeping.{IsLater};
ghost use Rattle.quilt_edition.specs.Starting as starting;
ghost use Rattle.quilt_map.specs.Sessions.{told_of, changed_of};
ghost use Rattle.quilt_top.specs.Openings.{HasNoEvents, Keeps, opened_world, started_of, IsUnchanged, HasCauseOf, HoldsAs, FindsAt};

use quilt_audit::audit;
use quilt_edition::{Book, Started};
use quilt_record::Catalog;
use quilt_store::PageStore;
use quilt_types::Stop;
use quilt_world::{Disk, World};
use std::alloc::Global;

/// What opening a file gives. Each answer holds the world.
#[derive(Drop)]
pub(crate) enum Opened<W: Disk> {
    /// The book of a file that stands for an edition, and the catalog of that.
    Map(Box<Book<W>>, Catalog),
    /// The file is no map file.
    NotMap(W),
    /// The device failed, there was no memory, or the file stands for nothing.
    Stopped(W, Stop),
}

/// What opening the book of a file gives, which lies on the heap. Each answer holds the world.
#[derive(Drop)]
enum Begun<W: Disk> {
    Ready(Box<Book<W>>),
    NotMap(W),
    Stopped(W, Stop),
}

/// Opens the book of a file, over a pool of 8 to 4096 pages.
#[inline(never)]
fn begin_book<W: World>(alloc: Global, world: W, pool: u32) -> Started<W>
    requires pool { (8 ≤ pool) × (pool ≤ 4096) }
    requires whole { IfSome (W.told world) NoneFree }
    ensures faults { W.faults world ≤ W.faults (starting.started_world result) }
    ensures door { W.door (starting.started_world result) ≡ W.door world }
    ensures fresh { starting.Fresh pool result }
    ensures cause { starting.AnswersBy (W.faults world) (W.faults (starting.started_world result)) (W.told world) (W.told (starting.started_world result)) result }
    ensures crash { Goes Redoes (W.told world) (W.told (starting.started_world result)) }
{
    Book::begin(alloc, world, pool)
}

/// The book on the heap, or its world where there is no memory for it.
#[inline(never)]
fn on_heap<W: World>(alloc: Global, book: Book<W>) -> Result<Box<Book<W>>, W>
    ensures ok { IfOk result (λ it. it.value ≡ book) }
    ensures err { IfErr result (λ world. world ≡ books.world_of book) }
{
    match Box::new(alloc, book) {
        Ok(book) => Ok(book),
        Err(failed) => Err(failed.value.into_world()),
    }
}

/// The world of a book on the heap.
#[inline(never)]
fn world_of<W: World>(book: Box<Book<W>>) -> W
    ensures { result ≡ books.world_of book.value }
{
    Box::into_inner(book).into_world()
}

/// Opens the book of a file on the heap, over a pool of 8 to 4096 pages.
#[inline(never)]
fn begin_on_heap<W: World>(alloc: Global, world: W, pool: u32) -> Begun<W>
    requires pool { (8 ≤ pool) × (pool ≤ 4096) }
    requires whole { IfSome (W.told world) NoneFree }
    ensures faults { W.faults world ≤ W.faults (starting.started_world (started_of result)) }
    ensures door { W.door (starting.started_world (started_of result)) ≡ W.door world }
    ensures fresh { starting.Fresh pool (started_of result) }
    ensures cause { starting.AnswersBy (W.faults world) (W.faults (starting.started_world (started_of result))) (W.told world)
        (W.told (starting.started_world (started_of result))) (started_of result) }
    ensures crash { Goes Redoes (W.told world) (W.told (starting.started_world (started_of result))) }
{
    match begin_book(alloc, world, pool) {
        Started::Ready(book) => match on_heap(alloc, book) {
            Ok(book) => Begun::Ready(book),
            Err(world) => Begun::Stopped(world, Stop::Memory),
        },
        Started::NotMap(world) => Begun::NotMap(world),
        Started::Stopped(world, stop) => Begun::Stopped(world, stop),
    }
}

/// Surveys the tree of a book that was just opened.
#[inline(never)]
fn survey_book<W: World>(alloc: Global, mut book: Box<Book<W>>) -> Opened<W>
    requires ready { books.IsReady book.value }
    requires heads { books.work_of book.value ≡ books.last_of book.value }
    requires unchanged { changed_of book.value ≡ 0 }
    requires pages { (t : Tale) → W.told (books.world_of book.value) ≡ Some t → told_of book.value ≡ Some (published t (books.pages_of book.value)) }
    ensures later { W.faults (books.world_of book.value) ≤ W.faults (opened_world result) }
    ensures door { W.door (opened_world result) ≡ W.door (books.world_of book.value) }
    ensures unchanged { IsUnchanged result }
    ensures cause { HasCauseOf (W.faults (books.world_of book.value)) (W.faults (opened_world result)) result }
    ensures tale { Goes (IsLater (books.pages_of book.value)) (W.told (books.world_of book.value)) (W.told (opened_world result)) }
    ensures holds { IfSome (W.told (books.world_of book.value))
        (λ t. HoldsAs (books.pages_of book.value) (books.last_of book.value) (published t (books.pages_of book.value)) result) }
{
    let opened = &mut *book;
    let pages = opened.pages();
    let head = opened.head();
    match audit(alloc, opened, &head, pages) {
        Ok(survey) => {
            opened.set_used(&survey.used);
            // They are in the order of their names, so no entry stands there twice.
            let _ = survey.catalog.entries();
            Opened::Map(book, survey.catalog)
        }
        Err(stop) => Opened::Stopped(world_of(book), stop),
    }
}

/// Opens the file that the world has attached, over a pool of 8 to 4096 pages. A map file keeps its home pages, and another file is left alone.
#[inline(never)]
pub(crate) fn open<W: World>(alloc: Global, world: W, pool: u32) -> Opened<W>
    requires new { IfSome (W.told world) HasNoEvents }
    requires pool { (8 ≤ pool) × (pool ≤ 4096) }
    ensures later { W.faults world ≤ W.faults (opened_world result) }
    ensures door { W.door (opened_world result) ≡ W.door world }
    ensures unchanged { IsUnchanged result }
    ensures cause { HasCauseOf (W.faults world) (W.faults (opened_world result)) result }
    ensures keeps { Goes Keeps (W.told world) (W.told (opened_world result)) }
    ensures finds { IfSome (W.told world) (λ t. FindsAt t.start result) }
{
    match begin_on_heap(alloc, world, pool) {
        Begun::Ready(book) => survey_book(alloc, book),
        Begun::NotMap(world) => Opened::NotMap(world),
        Begun::Stopped(world, stop) => Opened::Stopped(world, stop),
    }
}

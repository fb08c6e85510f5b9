ghost use Rattle.std.specs.Prelude.{◌≡◌, ◌≢◌, ◌≤◌, Some, true};
ghost use Rattle.std.specs.Option.{IfSome};
ghost use Rattle.quilt_world.specs.Tale.{Goes};
ghost use Rattle.quilt_world.specs.Causes.{Rose};
ghost use Rattle.quilt_world.specs.declared.disk.Door.TheVariants as doors;
ghost use Rattle.quilt_edition.specs.Books as books;
ghost use Rattle.quilt_replies.specs.Answers.{State};
ghost use Rattle.quilt_map.specs.Sessions.{IsAt, IsSessionReady, session_world, level_of, changes_of};
ghost use Rattle.quilt_top.specs.TextRun.{IsUntold};
ghost use Rattle.quilt_top.specs.declared.orders.Source.TheVariants as sources;
ghost use Rattle.quilt_top.specs.declared.run.End.TheVariants as ends;
ghost use Rattle.quilt_top.specs.Openings as endings;
ghost use Rattle.quilt_top.specs.Openings.{IsBegun, IsFirstState, RunsTo, run_ends, is_run_end};
ghost use Rattle.quilt_top.specs.Words.{Run};
ghost use Rattle.quilt_top.specs.Meanings.{run_from};
ghost use Rattle.quilt_top.specs.Trying.{trial_run, TriesTo};
ghost use Rattle.quilt_top.specs.Headline.{KeepsPromises, WhereTold, HasEndCause, IsOneOf};
ghost use Rattle.quilt_top.specs.Stronger.{KeepsMore};

use crate::halt::Halt;
use crate::opened::{Opened, open};
use crate::orders::{RunFile, Source};
use crate::run::End;
use crate::text_run::run_text;
use crate::trial_run::run_trial;
use quilt_edition::Book;
use quilt_map::Session;
use quilt_record::Catalog;
use quilt_world::{Attached, World};
use std::alloc::Global;
use std::thread::Threads;

/// How a run ends that answered whether none of its replies was a refusal, or that stopped.
fn end_of(outcome: Result<bool, Halt>) -> End
    ensures { result ≡ endings.end_of outcome }
{
    match outcome {
        Ok(true) => End::Done,
        Ok(false) => End::Refused,
        Err(Halt::Stopped(stop)) => End::of_stop(stop),
        Err(Halt::TooMuch) => End::TooMuch,
    }
}

/// A session over a book that was just opened, with the catalog that was found in it.
#[inline(never)]
fn begin_session<W: World>(alloc: Global, book: Box<Book<W>>, catalog: Catalog) -> Session<W>
    requires { IsBegun book.value catalog }
    ensures world { session_world result ≡ books.world_of book.value }
    ensures ready { IsSessionReady result }
    ensures level { level_of result ≡ (books.last_of book.value).level }
    ensures changes { changes_of result ≡ 0 }
    ensures at { (s : State) → IsFirstState book.value catalog s → IsAt result s }
{
    Session::new(alloc, Box::into_inner(book), catalog)
}

/// Runs the input over a session that begins with the book.
#[inline(never)]
fn run_session<R: Threads + Sync, W: World>(
    rt: &R,
    alloc: Global,
    book: Box<Book<W>>,
    catalog: Catalog,
) -> (End, W)
    requires door { W.door (books.world_of book.value) ≡ doors.Ready }
    requires begun { IsBegun book.value catalog }
    requires untold { IfSome (W.told (books.world_of book.value)) IsUntold }
    ensures later { W.faults (books.world_of book.value) ≤ W.faults result.1 }
    ensures device { result.0 ≡ ends.Device → Rose (W.faults (books.world_of book.value)) (W.faults result.1) }
    ensures door { W.door result.1 ≡ W.door (books.world_of book.value) }
    ensures ends { is_run_end result.0 ≡ true }
    ensures sound { (s : State) → IsFirstState book.value catalog s → IsOneOf result.0 run_ends }
    ensures runs { (s : State) → IsFirstState book.value catalog s
        → Goes (RunsTo (books.last_of book.value).level s result.0) (W.told (books.world_of book.value)) (W.told result.1) }
{
    let mut session = begin_session(alloc, book, catalog);
    let end = end_of(run_text(rt, alloc, &mut session));
    (end, session.into_world())
}

/// Runs the text of a trial over a session that begins with the book.
#[inline(never)]
fn try_session<R: Threads + Sync, W: World>(
    rt: &R,
    alloc: Global,
    book: Box<Book<W>>,
    catalog: Catalog,
    seed: u64,
    count: u32,
) -> (End, W)
    requires door { W.door (books.world_of book.value) ≡ doors.Ready }
    requires begun { IsBegun book.value catalog }
    ensures later { W.faults (books.world_of book.value) ≤ W.faults result.1 }
    ensures device { result.0 ≡ ends.Device → Rose (W.faults (books.world_of book.value)) (W.faults result.1) }
    ensures door { W.door result.1 ≡ W.door (books.world_of book.value) }
    ensures ends { is_run_end result.0 ≡ true }
    ensures short { result.0 ≢ ends.TooMuch }
    ensures sound { (s : State) → IsFirstState book.value catalog s → IsOneOf result.0 run_ends }
    ensures tries { (s : State) → IsFirstState book.value catalog s
        → Goes (TriesTo (books.last_of book.value).level (trial_run (books.last_of book.value).level s seed count) result.0)
        (W.told (books.world_of book.value)) (W.told result.1) }
{
    let mut session = begin_session(alloc, book, catalog);
    let end = end_of(run_trial(rt, alloc, &mut session, seed, count));
    (end, session.into_world())
}

/// Runs the commands that the words ask for over their file. It ends as a run of the input does, and only that can take too much.
#[inline(never)]
pub(crate) fn run_file<R: Threads + Sync, W: World>(
    rt: &R,
    alloc: Global,
    world: W,
    file: RunFile,
) -> (End, W)
    requires { W.door world ≡ doors.Shut }
    ensures cause { HasEndCause (Some (Run file.entry.path.now file.entry.pool)) (W.faults world) (W.faults result.1) (W.door result.1) result.0 }
    ensures short { result.0 ≡ ends.TooMuch → file.entry.source ≡ sources.Input }
    ensures usage { result.0 ≢ ends.Usage }
    ensures promises { WhereTold (KeepsPromises (Some (run_from file.entry.source file.entry.path.now file.entry.pool))
        (Rose (W.faults world) (W.faults result.1)) (W.door result.1) result.0)
        (W.told world) (W.told result.1) }
    ensures open { W.door result.1 ≢ doors.Shut }
    ensures more { WhereTold (KeepsMore (Some (run_from file.entry.source file.entry.path.now file.entry.pool)) (W.door result.1) result.0)
        (W.told world) (W.told result.1) }
{
    let mut world = world;
    let Ok(attached) = world.attach(file.path) else {
        return (End::Device, world);
    };
    match attached {
        Attached::Ready => {}
        Attached::Missing => return (End::Missing, world),
    }
    match open(alloc, world, file.pool) {
        Opened::Map(book, catalog) => match file.source {
            Source::Input => run_session(rt, alloc, book, catalog),
            Source::Trial { seed, count } => try_session(rt, alloc, book, catalog, seed, count),
        },
        Opened::NotMap(world) => (End::NotMap, world),
        Opened::Stopped(world, stop) => (End::of_stop(stop), world),
    }
}

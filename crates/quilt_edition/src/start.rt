ghost use Rattle.std.specs.Prelude.{◌≡◌, ◌≤◌, IfSome, false};
ghost use Rattle.quilt_world.specs.Tale.{Goes};
ghost use Rattle.quilt_journal.specs.Beginning.{NoneFree, Redoes};

use crate::book::Book;
use quilt_journal::{Begun, Journal};
use quilt_node::header_of;
use quilt_pool::Pool;
use quilt_types::Stop;
use quilt_world::Disk;
use std::alloc::Global;

/// What opening a file as a book gives. Each answer holds the world.
#[derive(Drop)]
pub enum Started<W: Disk> {
    /// The book of a map file.
    Ready(Book<W>),
    /// The file has not 3+2N pages with N from 16 to 30000, or its first page is not the label.
    NotMap(W),
    /// The device failed, there was no memory, or the header is not well formed.
    Stopped(W, Stop),
}

impl<W: Disk> Book<W> {
    ghost use Rattle.quilt_edition.specs.Starting.{started_world, AnswersBy, Fresh, WantsFirst};

    /// Opens the book of a file, over a pool of 8 to 4096 pages, whose memory is taken before the device is called. An open gate is carried
    /// home before the header is read.
    pub fn begin(alloc: Global, mut world: W, pool: u32) -> Started<W>
        requires pool { (8 ≤ pool) × (pool ≤ 4096) }
        requires whole { IfSome (W.told world) NoneFree }
        ensures faults { W.faults world ≤ W.faults (started_world result) }
        ensures door { W.door (started_world result) ≡ W.door world }
        ensures size { W.size (started_world result) ≡ W.size world }
        ensures fresh { Fresh pool result }
        ensures cause { AnswersBy (W.faults world) (W.faults (started_world result)) (W.told world) (W.told (started_world result)) result }

        // So no fault of the device is told as want of memory.
        ensures memory { WantsFirst world result }

        // At each event a stop leaves the home pages that the disk had.
        ensures crash { Goes Redoes (W.told world) (W.told (started_world result)) }
    {
        let Ok(empty) = Pool::new(alloc, pool) else {
            return Started::Stopped(world, Stop::Memory);
        };
        let begun = match Journal::begin(&mut world) {
            Ok(begun) => begun,
            Err(_) => return Started::Stopped(world, Stop::Device),
        };
        let Begun::Journal(journal) = begun else {
            return Started::NotMap(world);
        };
        let mut page = [0; 4096];
        let Ok(()) = journal.read_page(&mut world, 0, &mut page) else {
            return Started::Stopped(world, Stop::Device);
        };
        let Some(head) = header_of(&page, journal.pages()) else {
            return Started::Stopped(world, Stop::Damaged { page: 0 });
        };
        Started::Ready(Book::over(world, journal, empty, head))
    }
}

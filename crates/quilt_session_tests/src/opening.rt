ghost use Rattle.std.specs.Prelude.{◌≡◌, IfOk};
ghost use Rattle.quilt_words.specs.Forms.{Spelled};
ghost use Rattle.quilt_edition.specs.Books as books;
ghost use Rattle.quilt_map.specs.Sessions.{changed_of};

use quilt_audit::audit;
use quilt_desk::Calm;
use quilt_edition::{Book, Started, create};
use quilt_lang::{Command, Lines, ParseErr, parse};
use quilt_map::{Reply, Session};
use quilt_par::Gate;
use quilt_store::PageStore;
use quilt_world::{Made, World};
use std::alloc::Global;
use std::thread::Threads;

/// A session over a book that was just opened.
fn surveyed(alloc: Global, mut book: Book<Calm>) -> Option<Session<Calm>>
    requires ready { books.IsReady book }
    requires heads { books.work_of book ≡ books.last_of book }
    requires unchanged { changed_of book ≡ 0 }
{
    let pages = book.pages();
    let head = book.head();
    match audit(alloc, &mut book, &head, pages) {
        Ok(survey) => {
            let used = survey.used;
            book.set_used(&used);
            let _ = survey.catalog.entries();
            Some(Session::new(alloc, book, survey.catalog))
        }
        Err(_) => None,
    }
}

/// A session over a new map of 16 home pages and level 3, in memory.
pub fn begun(alloc: Global) -> Option<Session<Calm>> {
    let mut calm = Calm::new(alloc, "m", None, 35, b"").ok()?;
    let Ok(Made::Ready) = calm.make("m", 35) else {
        return None;
    };
    let Ok(()) = create(&mut calm, 3) else {
        return None;
    };
    match Book::begin(alloc, calm, 8) {
        Started::Ready(book) => surveyed(alloc, book),
        _ => None,
    }
}

/// The first command of the text, in a file of this format and level.
fn command_of(alloc: Global, format: u8, level: u8, text: &[u8]) -> Result<Command, ParseErr>
    ensures { IfOk result (λ command. Spelled format level command) }
{
    let mut lines = Lines::new(alloc, level);
    lines.feed(text)?;
    match lines.next_item(format, true)? {
        Some(item) => parse(alloc, format, &item),
        None => Err(ParseErr::Memory),
    }
}

/// What the session replies to the first command of the text, and the gate of its rasters.
pub fn replied<R: Threads + Sync, G: Gate + Sync>(
    rt: &R,
    alloc: Global,
    gate: &G,
    session: &mut Session<Calm>,
    text: &[u8],
) -> Option<Reply> {
    if !session.is_ready() {
        return None;
    }
    let head = session.head();
    match command_of(alloc, head.format, head.level, text) {
        Ok(command) => session.apply(rt, gate, &command).ok(),
        Err(_) => None,
    }
}

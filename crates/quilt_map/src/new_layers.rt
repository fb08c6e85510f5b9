ghost use Rattle.std.specs.Prelude.{◌≡◌, ◌==◌, ◌&&◌, nat_lt, IfOk, IfErr};
ghost use Rattle.quilt_words.specs.Fitting.{IsWithin};
ghost use Rattle.quilt_words.specs.declared.command.Command.TheVariants as commands;
ghost use Rattle.quilt_store.specs.Stops.{HasStopCause, IsNotDamage};
ghost use Rattle.quilt_edition.specs.Books as books;
ghost use Rattle.quilt_replies.specs.Answers.{State};
ghost use Rattle.quilt_map.specs.Commanding.{Answered, Refuses};
ghost use Rattle.quilt_map.specs.Sessions.{IsAtState};

use crate::creation::new_entry;
use crate::refusals::why_not_new;
use crate::session::Session;
use quilt_replies::Reply;
use quilt_types::{Code, Kind, Name, Stop};
use quilt_world::World;

/// Whether a file of this format has no such point layers: in format 1 a block holds one point at most.
fn is_unwritten(format: u8, bucket: u8) -> bool
    ensures { result ≡ ((format == 1) && nat_lt 1 bucket) }
{
    format == 1 && 1 < bucket
}

impl<W: World> Session<W> {
    /// Makes a point layer of no points, with this many in a block at most, under a name that no layer has.
    pub(crate) fn make_points(&mut self, name: &Name, bucket: u8) -> Result<Reply, Stop>
        ensures answer { IfOk result (λ reply. (s : State) → IsAtState self.old s → IsWithin 1 16 bucket
            → Answered s (commands.Points name.now bucket) self.old self.new reply) }
        ensures sound { IfErr result (λ e. (s : State) → IsAtState self.old s → IsWithin 1 16 bucket → IsNotDamage e) }
        ensures refused { IfOk result (Refuses self.old self.new) }
        ensures goes_on { books.GoesOn self.old.book self.new.book }
        ensures cause { HasStopCause (W.faults (books.world_of self.old.book)) (W.faults (books.world_of self.new.book)) result }
    {
        if let Some(code) = why_not_new(self.catalog.entries(), name) {
            return Ok(Reply::No(code));
        }
        let head = self.book.head();
        if is_unwritten(head.format, bucket) {
            return Ok(Reply::No(Code::Format));
        }
        let entry = new_entry(self.catalog.entries(), name, Kind::Points { bucket });
        let first = quilt_points::first_record(entry.number, head.level, bucket);
        self.place(entry, &[first])
    }

    /// Makes a line layer of no segments, with this splitting threshold, from 1 to 32, under a name that no layer has.
    pub(crate) fn make_lines(&mut self, name: &Name, t: u8) -> Result<Reply, Stop>
        requires threshold { IsWithin 1 32 t }
        ensures answer { IfOk result (λ reply. (s : State) → IsAtState self.old s → Answered s (commands.Lines name.now t) self.old self.new reply) }
        ensures sound { IfErr result (λ e. (s : State) → IsAtState self.old s → IsNotDamage e) }
        ensures refused { IfOk result (Refuses self.old self.new) }
        ensures goes_on { books.GoesOn self.old.book self.new.book }
        ensures cause { HasStopCause (W.faults (books.world_of self.old.book)) (W.faults (books.world_of self.new.book)) result }
    {
        if let Some(code) = why_not_new(self.catalog.entries(), name) {
            return Ok(Reply::No(code));
        }
        let entry = new_entry(self.catalog.entries(), name, Kind::Lines { threshold: t });
        let first = quilt_lines::first_record(entry.number, self.book.head().level, t);
        self.place(entry, &[first])
    }
}

ghost use Rattle.std.specs.Prelude.{◌≡◌, ℕ, ◌+◌, ◌*◌, IfOk, IfErr, OnOk, OnErr};
ghost use Rattle.quilt_types.specs.declared.stop.Stop.TheVariants as stops;
ghost use Rattle.quilt_world.specs.Tale.{Goes};
ghost use Rattle.quilt_words.specs.declared.command.Command.TheVariants as commands;
ghost use Rattle.quilt_store.specs.Stops.{HasStopCause, IsNotDamage};
ghost use Rattle.quilt_journal.specs.Writing.{Writing};
ghost use Rattle.quilt_edition.specs.Books as books;
ghost use Rattle.quilt_replies.specs.Answers.{State};
ghost use Rattle.quilt_map.specs.Commanding.{Answered, Refuses};
ghost use Rattle.quilt_map.specs.Sessions.{IsAtState};
ghost use Rattle.quilt_map.specs.Steps.{LeavesEdition};

use crate::entries::copy_of;
use crate::session::Session;
use quilt_replies::{Reply, done_text, edition_text};
use quilt_types::{Code, Stop};
use quilt_world::World;

impl<W: World> Session<W> {
    /// Makes the work the next edition. The reply's memory is taken first, so want of memory finds nothing done.
    pub(crate) fn publish(&mut self) -> Result<Reply, Stop>
        requires { books.IsReady self.old.book }
        ensures answer { IfOk result (λ reply. (s : State) → IsAtState self.old s → Answered s commands.Publish self.old self.new reply) }
        ensures refused { IfOk result (Refuses self.old self.new) }
        ensures ready { OnOk result (books.IsReady self.new.book) }
        ensures sound { IfErr result IsNotDamage }
        ensures level { OnOk result ((books.last_of self.new.book).level ≡ (books.last_of self.old.book).level) }
        ensures crash { (s : State) → IsAtState self.old s
            → Goes (LeavesEdition s commands.Publish) (W.told (books.world_of self.old.book)) (W.told (books.world_of self.new.book)) }
        ensures writes { (s : State) → IsAtState self.old s
            → Goes (Writing (18 * self.old.changes + 8)) (W.told (books.world_of self.old.book)) (W.told (books.world_of self.new.book)) }
        ensures events { Goes (λ old new. (most : ℕ) × Writing most old new) (W.told (books.world_of self.old.book)) (W.told (books.world_of self.new.book)) }
        ensures door { W.door (books.world_of self.new.book) ≡ W.door (books.world_of self.old.book) }
        ensures cause { HasStopCause (W.faults (books.world_of self.old.book)) (W.faults (books.world_of self.new.book)) result }
        ensures whole { IfErr result (λ stop. stop ≡ stops.Memory → self.new ≡ self.old) }
    {
        let number = self.book.head().edition;
        if number == u32::MAX {
            return Ok(Reply::No(Code::Editions));
        }
        let Ok(text) = edition_text(self.alloc, number + 1) else {
            return Err(Stop::Memory);
        };
        self.commit()?;
        Ok(Reply::Ok(text))
    }

    /// Makes the work the next edition, in format 2.
    pub(crate) fn upgrade(&mut self) -> Result<Reply, Stop>
        requires { books.IsReady self.old.book }
        ensures answer { IfOk result (λ reply. (s : State) → IsAtState self.old s → Answered s commands.Upgrade self.old self.new reply) }
        ensures refused { IfOk result (Refuses self.old self.new) }
        ensures ready { OnOk result (books.IsReady self.new.book) }
        ensures sound { IfErr result IsNotDamage }
        ensures level { OnOk result ((books.last_of self.new.book).level ≡ (books.last_of self.old.book).level) }
        ensures crash { (s : State) → IsAtState self.old s
            → Goes (LeavesEdition s commands.Upgrade) (W.told (books.world_of self.old.book)) (W.told (books.world_of self.new.book)) }
        ensures writes { (s : State) → IsAtState self.old s
            → Goes (Writing (18 * self.old.changes + 8)) (W.told (books.world_of self.old.book)) (W.told (books.world_of self.new.book)) }
        ensures events { Goes (λ old new. (most : ℕ) × Writing most old new) (W.told (books.world_of self.old.book)) (W.told (books.world_of self.new.book)) }
        ensures door { W.door (books.world_of self.new.book) ≡ W.door (books.world_of self.old.book) }
        ensures cause { HasStopCause (W.faults (books.world_of self.old.book)) (W.faults (books.world_of self.new.book)) result }
        ensures whole { IfErr result (λ stop. stop ≡ stops.Memory → self.new ≡ self.old) }
    {
        let head = self.book.head();
        if head.format == 2 {
            return Ok(Reply::No(Code::Format));
        }
        if head.edition == u32::MAX {
            return Ok(Reply::No(Code::Editions));
        }
        let Ok(text) = edition_text(self.alloc, head.edition + 1) else {
            return Err(Stop::Memory);
        };
        self.book.raise();
        self.commit()?;
        Ok(Reply::Ok(text))
    }

    /// Makes the work the last edition again. It calls no device.
    pub(crate) fn revert(&mut self) -> Result<Reply, Stop>
        requires { books.IsReady self.old.book }
        ensures answer { IfOk result (λ reply. (s : State) → IsAtState self.old s → Answered s commands.Revert self.old self.new reply) }
        ensures memory { IfErr result IsNotDamage }
        ensures refused { IfOk result (Refuses self.old self.new) }
        ensures whole { OnErr result (self.new ≡ self.old) }
        ensures world { books.world_of self.new.book ≡ books.world_of self.old.book }
        ensures cause { HasStopCause (W.faults (books.world_of self.old.book)) (W.faults (books.world_of self.new.book)) result }
        ensures goes_on { books.GoesOn self.old.book self.new.book }
    {
        let Ok(text) = done_text(self.alloc) else {
            return Err(Stop::Memory);
        };
        self.book.revert();
        self.catalog = copy_of(&self.last);
        self.changes = 0;
        Ok(Reply::Ok(text))
    }
}

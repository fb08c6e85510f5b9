ghost use Rattle.std.specs.Prelude.{◌≡◌, ℕ, ◌+◌, ◌*◌, ◌<◌, ◌≤◌, OnOk, IfErr};
ghost use Rattle.quilt_types.specs.declared.stop.Stop.TheVariants as stops;
ghost use Rattle.quilt_types.specs.Layers.{Edition};
ghost use Rattle.quilt_world.specs.Tale.{Goes};
ghost use Rattle.quilt_store.specs.Stops.{HasStopCause};
ghost use Rattle.quilt_journal.specs.Writing.{Writing};
ghost use Rattle.quilt_edition.specs.Books as books;
ghost use Rattle.quilt_replies.specs.Answers.{State};
ghost use Rattle.quilt_map.specs.Sessions.{IsAtState};
ghost use Rattle.quilt_map.specs.Renewing.{CanPublish, IsRenewed, LeavesEither};

use crate::entries::copy_of;
use crate::session::Session;
use quilt_types::Stop;
use quilt_world::{Disk, Fault, World};

impl<W: World> Session<W> {
    /// Makes the work the next edition, in the format of the work's header. After an Err the session is only given up.
    pub(crate) fn commit(&mut self) -> Result<(), Stop>
        requires ready { books.IsReady self.old.book }
        requires number { (books.last_of self.old.book).edition < 4294967295 }
        ensures renewed { OnOk result ((s : State) (e : Edition) → CanPublish self.old s e → IsRenewed self.new s e) }
        ensures ready { OnOk result (books.IsReady self.new.book) }
        ensures failed { IfErr result (λ stop. stop ≡ stops.Device) }
        ensures level { OnOk result ((books.last_of self.new.book).level ≡ (books.work_of self.old.book).level) }
        ensures crash { (s : State) (e : Edition) → CanPublish self.old s e
            → Goes (LeavesEither s.last e) (W.told (books.world_of self.old.book)) (W.told (books.world_of self.new.book)) }
        ensures writes { (s : State) (e : Edition) → CanPublish self.old s e
            → Goes (Writing (18 * self.old.changes + 8)) (W.told (books.world_of self.old.book)) (W.told (books.world_of self.new.book)) }
        ensures events { Goes (λ old new. (most : ℕ) × Writing most old new) (W.told (books.world_of self.old.book)) (W.told (books.world_of self.new.book)) }
        ensures door { W.door (books.world_of self.new.book) ≡ W.door (books.world_of self.old.book) }
        ensures cause { HasStopCause (W.faults (books.world_of self.old.book)) (W.faults (books.world_of self.new.book)) result }
    {
        let Ok(_) = self.book.publish() else {
            return Err(Stop::Device);
        };
        self.last = copy_of(&self.catalog);
        self.changes = 0;
        Ok(())
    }
}

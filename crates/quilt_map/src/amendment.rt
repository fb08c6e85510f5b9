ghost use Rattle.std.specs.Prelude.{ℕ, List, IfOk, IfErr};
ghost use Rattle.quilt_types.specs.Layers.{Layer};
ghost use Rattle.quilt_store.specs.Stops.{HasStopCause, IsNotDamage};
ghost use Rattle.quilt_edition.specs.Books as books;
ghost use Rattle.quilt_replies.specs.Answers.{State};
ghost use Rattle.quilt_map.specs.Commanding.{Refuses};
ghost use Rattle.quilt_map.specs.Making.{AnsweredBy, layer_placed};
ghost use Rattle.quilt_map.specs.Planning.{IsAmendment};
ghost use Rattle.quilt_map.specs.Sessions.{IsAtState};

use crate::session::Session;
use quilt_record::Edits;
use quilt_replies::{Reply, done_text};
use quilt_types::{Code, Stop};
use quilt_world::World;

impl<W: World> Session<W> {
    /// Makes a layer of the work another of its kind by these edits of its records. The reply's memory is taken first, so want
    /// of it finds nothing done.
    pub(crate) fn amend(&mut self, edits: &Edits) -> Result<Reply, Stop>
        ensures amended { IfOk result (λ reply. (s : State) (at : IsAtState self.old s) (name : List ℕ) (number : ℕ) (layer : Layer) →
            IsAmendment s at.work.numbers self.old.catalog name number layer edits.now.remove edits.now.add
            → AnsweredBy s (layer_placed s name layer) self.old self.new reply) }
        ensures sound { IfErr result (λ e. (s : State) (at : IsAtState self.old s) (name : List ℕ) (number : ℕ) (layer : Layer) →
            IsAmendment s at.work.numbers self.old.catalog name number layer edits.now.remove edits.now.add → IsNotDamage e) }
        ensures refused { IfOk result (Refuses self.old self.new) }
        ensures goes_on { books.GoesOn self.old.book self.new.book }
        ensures cause { HasStopCause (W.faults (books.world_of self.old.book)) (W.faults (books.world_of self.new.book)) result }
    {
        let Ok(text) = done_text(self.alloc) else {
            return Err(Stop::Memory);
        };
        if !self.change(edits.remove.records(), edits.add.records())? {
            return Ok(Reply::No(Code::Full));
        }
        Ok(Reply::Ok(text))
    }
}

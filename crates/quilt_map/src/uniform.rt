ghost use Rattle.std.specs.Prelude.{◌≡◌, ℕ, ◌<◌, ◌≤◌, IfOk, IfErr};
ghost use Rattle.quilt_types.specs.Algebra.{uniform};
ghost use Rattle.quilt_types.specs.Layers.{colours};
ghost use Rattle.quilt_words.specs.declared.command.Command.TheVariants as commands;
ghost use Rattle.quilt_store.specs.Stops.{HasStopCause, IsNotDamage};
ghost use Rattle.quilt_edition.specs.Books as books;
ghost use Rattle.quilt_replies.specs.Answers.{State};
ghost use Rattle.quilt_map.specs.Commanding.{Answered, Refuses};
ghost use Rattle.quilt_map.specs.Sessions.{IsAtState};

use crate::refusals::why_not_new;
use crate::session::Session;
use quilt_blocks::{LeafList, Maker};
use quilt_loc::whole_square;
use quilt_replies::Reply;
use quilt_types::{Colour, Name, Stop};
use quilt_world::World;
use std::alloc::{AllocError, Global};

/// The one leaf of the square of this level in one colour.
fn uniform_list(alloc: Global, level: u8, c: Colour) -> Result<LeafList, AllocError>
    requires least { 1 ≤ level }
    requires most { level ≤ 12 }
    ensures { IfOk result (λ list. list ≡ record { level = level; grid = uniform level c.0 }) }
{
    let mut maker = Maker::new(alloc, level);
    maker.push(whole_square(level), c)?;
    Ok(maker.finish())
}

impl<W: World> Session<W> {
    /// Makes a region layer of one colour under a name that no layer has.
    pub(crate) fn region(&mut self, name: &Name, c: Colour) -> Result<Reply, Stop>
        ensures answer { IfOk result (λ reply. (s : State) → IsAtState self.old s → c.0 < colours s.last.format
            → Answered s (commands.Region name.now c) self.old self.new reply) }
        ensures sound { IfErr result (λ e. (s : State) → IsAtState self.old s → c.0 < colours s.last.format → IsNotDamage e) }
        ensures refused { IfOk result (Refuses self.old self.new) }
        ensures goes_on { books.GoesOn self.old.book self.new.book }
        ensures cause { HasStopCause (W.faults (books.world_of self.old.book)) (W.faults (books.world_of self.new.book)) result }
    {
        if let Some(code) = why_not_new(self.catalog.entries(), name) {
            return Ok(Reply::No(code));
        }
        let level = self.book.head().level;
        match uniform_list(self.alloc, level, c) {
            Err(_) => Err(Stop::Memory),
            Ok(list) => self.make_region(name, &list),
        }
    }
}

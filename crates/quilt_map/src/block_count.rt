ghost use Rattle.std.specs.Prelude.{◌≡◌, ◌≤◌, ◌+◌, ℕ, IfOk, IfErr};
ghost use Rattle.quilt_types.specs.Layers.{Layer};
ghost use Rattle.quilt_words.specs.declared.command.Command.TheVariants as commands;
ghost use Rattle.quilt_world.specs.Tale.{Goes};
ghost use Rattle.quilt_store.specs.Stops.{HasStopCause, IsNotDamage};
ghost use Rattle.quilt_spell.specs.Catalogued.{kind_of};
ghost use Rattle.quilt_edition.specs.Books as books;
ghost use Rattle.quilt_replies.specs.Answers.{State, layer as layer_of, sides_of};
ghost use Rattle.quilt_replies.specs.Bodies.{HasCounts};
ghost use Rattle.quilt_map.specs.Asking.{IsStill, KeepsAll, reads_in};
ghost use Rattle.quilt_map.specs.Commanding.{Answered};
ghost use Rattle.quilt_map.specs.Costs.{layer_block_pages, block_pages_in};
ghost use Rattle.quilt_map.specs.HeldLayers.{HoldsLayer};
ghost use Rattle.quilt_map.specs.Selecting.{IsAnswered};
ghost use Rattle.quilt_map.specs.Sessions.{IsAtState};

use crate::lines::{LineLayer, line_counts};
use crate::points::{PointLayer, point_counts};
use crate::queries::told;
use crate::regions::{layer_under, region_counts};
use crate::session::Session;
use quilt_edition::Book;
use quilt_replies::{Reply, blocks_text};
use quilt_types::{Code, Kind, Name, Stop};
use quilt_world::{Disk, World};

/// How many blocks of each side the work's layer with this number has, which is of this kind: those of side 2 ^ k at place k.
fn count_blocks<W: Disk>(book: &mut Book<W>, number: u8, kind: Kind) -> Result<[u32; 13], Stop>
    ensures counts { IfOk result (λ counts. (layer : Layer) → kind ≡ kind_of layer → HoldsLayer book.old number layer →
        HasCounts counts (sides_of (books.work_of book.old).level layer)) }
    ensures sound { IfErr result (λ e. (layer : Layer) → kind ≡ kind_of layer → 1 ≤ number → HoldsLayer book.old number layer → IsNotDamage e) }
    ensures still { IsStill book.old book.new }
    ensures cause { HasStopCause (W.faults (books.world_of book.old)) (W.faults (books.world_of book.new)) result }
    ensures reads { IfOk result (λ counts. (layer : Layer) → kind ≡ kind_of layer → HoldsLayer book.old number layer →
        Goes (λ old new. new ≤ old + layer_block_pages (books.work_of book.old).level layer) (reads_in book.old) (reads_in book.new)) }
{
    match kind {
        Kind::Region => region_counts(book, number),
        Kind::Points { bucket } => point_counts(book, PointLayer { number, bucket }),
        Kind::Lines { threshold } => line_counts(book, LineLayer { number, threshold }),
    }
}

impl<W: World> Session<W> {
    /// How many blocks the layer has of each side, whatever its kind. It goes over the leaves of a region once, and looks for each other block.
    pub(crate) fn blocks(&mut self, name: &Name) -> Result<Reply, Stop>
        ensures answer { IfOk result (λ reply. (s : State) → IsAtState self.old s → Answered s (commands.Blocks name.now) self.old self.new reply) }
        ensures sound { IfErr result (λ stop. (s : State) → IsAtState self.old s → IsNotDamage stop) }
        ensures cause { HasStopCause (W.faults (books.world_of self.old.book)) (W.faults (books.world_of self.new.book)) result }
        ensures keeps { KeepsAll self.old self.new }
        ensures reads { IfOk result (λ reply. (s : State) → IsAtState self.old s → IsAnswered reply →
            Goes (λ old new. new ≤ old + block_pages_in s.last.level (layer_of s name.now)) (reads_in self.old.book) (reads_in self.new.book)) }
    {
        match layer_under(self.catalog.entries(), name) {
            None => Ok(Reply::No(Code::Unknown)),
            Some((number, kind)) => {
                let level = self.book.head().level;
                let counts = count_blocks(&mut self.book, number, kind)?;
                told(blocks_text(self.alloc, level, &counts))
            }
        }
    }
}

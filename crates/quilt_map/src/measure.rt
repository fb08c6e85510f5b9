ghost use Rattle.std.specs.Prelude.{◌≡◌, ℕ, ◌≤◌, Some, IfOk, IfErr};
ghost use Rattle.quilt_store.specs.Stops.{HasStopCause, IsNotDamage};
ghost use Rattle.quilt_edition.specs.Books as books;
ghost use Rattle.quilt_replies.specs.Answers.{State};
ghost use Rattle.quilt_map.specs.Asking.{KeepsAll};
ghost use Rattle.quilt_map.specs.Commanding.{Answered};
ghost use Rattle.quilt_map.specs.Measuring.{layer_measured, measured};
ghost use Rattle.quilt_map.specs.Sessions.{IsAtState};

use crate::queries::told;
use crate::regions::{read_region, region_number};
use crate::session::Session;
use quilt_blocks::LeafList;
use quilt_measure::{area, perimeter};
use quilt_replies::{Reply, number_text};
use quilt_types::{Name, Stop};
use quilt_words::Command;
use quilt_world::World;

/// What a command measures of a layer with these leaves: 0 where it measures nothing.
fn measure_of(command: &Command, list: &LeafList) -> u64
    ensures { result ≡ measured command.now list.now.level list.now.grid }
{
    match command {
        Command::Area { c, .. } => area(list, *c),
        Command::Perimeter { c, .. } => perimeter(list, *c),
        _ => 0,
    }
}

impl<W: World> Session<W> {
    /// The area of a colour of the region layer, or its perimeter, as the command says.
    pub(crate) fn measure(&mut self, command: &Command, name: &Name) -> Result<Reply, Stop>
        requires { layer_measured command.now ≡ Some name.now }
        ensures answer { IfOk result (λ reply. (s : State) → IsAtState self.old s → Answered s command.now self.old self.new reply) }
        ensures sound { IfErr result (λ stop. (s : State) → IsAtState self.old s → IsNotDamage stop) }
        ensures cause { HasStopCause (W.faults (books.world_of self.old.book)) (W.faults (books.world_of self.new.book)) result }
        ensures keeps { KeepsAll self.old self.new }
    {
        match region_number(self.catalog.entries(), name) {
            Err(code) => Ok(Reply::No(code)),
            Ok(number) => {
                let list = read_region(self.alloc, &mut self.book, number)?;
                told(number_text(self.alloc, measure_of(command, &list)))
            }
        }
    }
}

ghost use Rattle.std.specs.Prelude.{◌≡◌, ◌<◌, true, List, ℕ, IfOk, IfErr};
ghost use Rattle.quilt_types.specs.Algebra.{painted};
ghost use Rattle.quilt_types.specs.Layers.{Grid, Region, colours};
ghost use Rattle.quilt_types.specs.Plane.{is_window};
ghost use Rattle.quilt_words.specs.declared.command.Command.TheVariants as commands;
ghost use Rattle.quilt_store.specs.Stops.{HasStopCause, IsNotDamage};
ghost use Rattle.quilt_edition.specs.Books as books;
ghost use Rattle.quilt_replies.specs.Answers.{State};
ghost use Rattle.quilt_map.specs.Commanding.{Answered, Refuses};
ghost use Rattle.quilt_map.specs.Making.{AnsweredBy, layer_placed};
ghost use Rattle.quilt_map.specs.Painting.{IsRegionIn};
ghost use Rattle.quilt_map.specs.Sessions.{IsAtState};

use crate::queries::has_window;
use crate::regions::{plan_paint, region_number};
use crate::session::Session;
use quilt_replies::Reply;
use quilt_types::{Code, Colour, Name, Pixel, Stop, Window};
use quilt_world::World;

impl<W: World> Session<W> {
    /// Paints a window of the work's region layer with this number.
    fn repaint(&mut self, number: u8, w: Window, c: Colour) -> Result<Reply, Stop>
        requires window { is_window (books.work_of self.old.book).level w ≡ true }
        ensures painted { IfOk result (λ reply. (s : State) → IsAtState self.old s → (name : List ℕ) (g : Grid)
            → IsRegionIn s.work self.old.catalog name number g → c.0 < colours s.last.format →
            AnsweredBy s (layer_placed s name (Region (painted s.last.level g w c.0))) self.old self.new reply) }
        ensures sound { IfErr result (λ e. (s : State) → IsAtState self.old s → (name : List ℕ) (g : Grid)
            → IsRegionIn s.work self.old.catalog name number g → c.0 < colours s.last.format → IsNotDamage e) }
        ensures refused { IfOk result (Refuses self.old self.new) }
        ensures goes_on { books.GoesOn self.old.book self.new.book }
        ensures cause { HasStopCause (W.faults (books.world_of self.old.book)) (W.faults (books.world_of self.new.book)) result }
    {
        let edits = plan_paint(self.alloc, &mut self.book, number, w, c)?;
        self.amend(&edits)
    }

    /// Paints a window of the region layer.
    pub(crate) fn rect(&mut self, name: &Name, w: Window, c: Colour) -> Result<Reply, Stop>
        ensures answer { IfOk result (λ reply. (s : State) → IsAtState self.old s → c.0 < colours s.last.format
            → Answered s (commands.Rect name.now w c) self.old self.new reply) }
        ensures sound { IfErr result (λ e. (s : State) → IsAtState self.old s → c.0 < colours s.last.format → IsNotDamage e) }
        ensures refused { IfOk result (Refuses self.old self.new) }
        ensures goes_on { books.GoesOn self.old.book self.new.book }
        ensures cause { HasStopCause (W.faults (books.world_of self.old.book)) (W.faults (books.world_of self.new.book)) result }
    {
        match region_number(self.catalog.entries(), name) {
            Err(code) => Ok(Reply::No(code)),
            Ok(number) => {
                if !has_window(self.book.head().level, w) {
                    return Ok(Reply::No(Code::Outside));
                }
                self.repaint(number, w, c)
            }
        }
    }

    /// Paints a pixel of the region layer.
    pub(crate) fn set(&mut self, name: &Name, at: Pixel, c: Colour) -> Result<Reply, Stop>
        ensures answer { IfOk result (λ reply. (s : State) → IsAtState self.old s → c.0 < colours s.last.format
            → Answered s (commands.Set name.now at c) self.old self.new reply) }
        ensures sound { IfErr result (λ e. (s : State) → IsAtState self.old s → c.0 < colours s.last.format → IsNotDamage e) }
        ensures refused { IfOk result (Refuses self.old self.new) }
        ensures goes_on { books.GoesOn self.old.book self.new.book }
        ensures cause { HasStopCause (W.faults (books.world_of self.old.book)) (W.faults (books.world_of self.new.book)) result }
    {
        let pixel = Window {
            x: at.x,
            y: at.y,
            w: 1,
            h: 1,
        };
        self.rect(name, pixel, c)
    }
}

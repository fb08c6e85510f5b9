ghost use Rattle.std.specs.Prelude.{◌≡◌, ◌==◌, ◌<◌, ◌≤◌, ◌+◌, true, List, ℕ, IfOk, IfErr, if◌then◌else◌};
ghost use Rattle.quilt_types.specs.Layers.{PointMap};
ghost use Rattle.quilt_types.specs.Plane.{side};
ghost use Rattle.quilt_words.specs.declared.command.Command.TheVariants as commands;
ghost use Rattle.quilt_world.specs.Tale.{Goes};
ghost use Rattle.quilt_store.specs.Stops.{HasStopCause, IsNotDamage};
ghost use Rattle.quilt_edition.specs.Books as books;
ghost use Rattle.quilt_replies.specs.Answers.{State, layer as layer_of, capacity_in, points_in};
ghost use Rattle.quilt_map.specs.Asking.{KeepsAll, reads_in};
ghost use Rattle.quilt_map.specs.Commanding.{Answered, Refuses};
ghost use Rattle.quilt_map.specs.Costs.{within_pages};
ghost use Rattle.quilt_map.specs.Making.{AnsweredBy};
ghost use Rattle.quilt_map.specs.Selecting.{IsAnswered};
ghost use Rattle.quilt_map.specs.PointLayers.{IsPointsIn, points_put, points_del};
ghost use Rattle.quilt_map.specs.Sessions.{IsAtState};

use crate::points::{PointLayer, plan_point, plan_removal, points_number, read_label, read_points};
use crate::queries::{has_pixel, has_window, told};
use crate::session::Session;
use quilt_replies::{Reply, number_text, points_text};
use quilt_store::PageStore;
use quilt_types::{Code, Name, Pixel, Stop, Window};
use quilt_world::World;

impl<W: World> Session<W> {
    /// Puts a point into the work's point layer.
    fn put_into(&mut self, layer: PointLayer, at: Pixel, label: u32) -> Result<Reply, Stop>
        requires in_x { at.x < side (books.last_of self.old.book).level }
        requires in_y { at.y < side (books.last_of self.old.book).level }
        ensures put { IfOk result (λ reply. (s : State) → IsAtState self.old s → (name : List ℕ) (points : PointMap)
            → IsPointsIn s.work self.old.catalog name layer points →
            AnsweredBy s (points_put s name layer.bucket points at label) self.old self.new reply) }
        ensures sound { IfErr result (λ e. (s : State) → IsAtState self.old s → (name : List ℕ) (points : PointMap)
            → IsPointsIn s.work self.old.catalog name layer points → IsNotDamage e) }
        ensures refused { IfOk result (Refuses self.old self.new) }
        ensures goes_on { books.GoesOn self.old.book self.new.book }
        ensures cause { HasStopCause (W.faults (books.world_of self.old.book)) (W.faults (books.world_of self.new.book)) result }
    {
        match plan_point(self.alloc, &mut self.book, layer, at, label)? {
            None => Ok(Reply::No(Code::Present)),
            Some(edits) => self.amend(&edits),
        }
    }

    /// Puts a point into the point layer.
    pub(crate) fn put_point(&mut self, name: &Name, at: Pixel, label: u32) -> Result<Reply, Stop>
        ensures answer { IfOk result (λ reply. (s : State) → IsAtState self.old s → Answered s (commands.Put name.now at label) self.old self.new reply) }
        ensures sound { IfErr result (λ e. (s : State) → IsAtState self.old s → IsNotDamage e) }
        ensures refused { IfOk result (Refuses self.old self.new) }
        ensures goes_on { books.GoesOn self.old.book self.new.book }
        ensures cause { HasStopCause (W.faults (books.world_of self.old.book)) (W.faults (books.world_of self.new.book)) result }
    {
        match points_number(self.catalog.entries(), name) {
            Err(code) => Ok(Reply::No(code)),
            Ok(layer) => {
                if !has_pixel(self.book.head().level, at) {
                    return Ok(Reply::No(Code::Outside));
                }
                self.put_into(layer, at, label)
            }
        }
    }

    /// Takes the point at a pixel from the work's point layer.
    fn del_from(&mut self, layer: PointLayer, at: Pixel) -> Result<Reply, Stop>
        requires in_x { at.x < side (books.last_of self.old.book).level }
        requires in_y { at.y < side (books.last_of self.old.book).level }
        ensures del { IfOk result (λ reply. (s : State) → IsAtState self.old s → (name : List ℕ) (points : PointMap)
            → IsPointsIn s.work self.old.catalog name layer points →
            AnsweredBy s (points_del s name layer.bucket points at) self.old self.new reply) }
        ensures sound { IfErr result (λ e. (s : State) → IsAtState self.old s → (name : List ℕ) (points : PointMap)
            → IsPointsIn s.work self.old.catalog name layer points → IsNotDamage e) }
        ensures refused { IfOk result (Refuses self.old self.new) }
        ensures goes_on { books.GoesOn self.old.book self.new.book }
        ensures cause { HasStopCause (W.faults (books.world_of self.old.book)) (W.faults (books.world_of self.new.book)) result }
    {
        match plan_removal(self.alloc, &mut self.book, layer, at)? {
            None => Ok(Reply::No(Code::Absent)),
            // A layer has no more records without the point, so the quota never refuses this.
            Some(edits) => self.amend(&edits),
        }
    }

    /// Takes the point at a pixel from the point layer.
    pub(crate) fn del_point(&mut self, name: &Name, at: Pixel) -> Result<Reply, Stop>
        ensures answer { IfOk result (λ reply. (s : State) → IsAtState self.old s → Answered s (commands.Del name.now at) self.old self.new reply) }
        ensures sound { IfErr result (λ e. (s : State) → IsAtState self.old s → IsNotDamage e) }
        ensures refused { IfOk result (Refuses self.old self.new) }
        ensures goes_on { books.GoesOn self.old.book self.new.book }
        ensures cause { HasStopCause (W.faults (books.world_of self.old.book)) (W.faults (books.world_of self.new.book)) result }
    {
        match points_number(self.catalog.entries(), name) {
            Err(code) => Ok(Reply::No(code)),
            Ok(layer) => {
                if !has_pixel(self.book.head().level, at) {
                    return Ok(Reply::No(Code::Outside));
                }
                self.del_from(layer, at)
            }
        }
    }

    /// The label of the point at a pixel of the point layer. It reads at most 6 pages where a block holds one point at most, and
    /// at most 9 else.
    pub(crate) fn find_point(&mut self, name: &Name, at: Pixel) -> Result<Reply, Stop>
        ensures answer { IfOk result (λ reply. (s : State) → IsAtState self.old s → Answered s (commands.Find name.now at) self.old self.new reply) }
        ensures sound { IfErr result (λ e. (s : State) → IsAtState self.old s → IsNotDamage e) }
        ensures cause { HasStopCause (W.faults (books.world_of self.old.book)) (W.faults (books.world_of self.new.book)) result }
        ensures keeps { KeepsAll self.old self.new }
        ensures reads { (s : State) → IsAtState self.old s →
            Goes (λ old new. new ≤ old + (if capacity_in (layer_of s name.now) == 1 then 6 else 9)) (reads_in self.old.book) (reads_in self.new.book) }
    {
        match points_number(self.catalog.entries(), name) {
            Err(code) => Ok(Reply::No(code)),
            Ok(layer) => {
                if !has_pixel(self.book.head().level, at) {
                    return Ok(Reply::No(Code::Outside));
                }
                match read_label(&mut self.book, layer, at)? {
                    None => Ok(Reply::No(Code::Absent)),
                    Some(label) => told(number_text(self.alloc, u64::from(label))),
                }
            }
        }
    }

    /// The points in a window of the point layer, by y and then x. It reads the blocks of the layer that meet the window.
    pub(crate) fn points_within(&mut self, name: &Name, w: Window) -> Result<Reply, Stop>
        ensures answer { IfOk result (λ reply. (s : State) → IsAtState self.old s → Answered s (commands.Within name.now w) self.old self.new reply) }
        ensures sound { IfErr result (λ e. (s : State) → IsAtState self.old s → IsNotDamage e) }
        ensures cause { HasStopCause (W.faults (books.world_of self.old.book)) (W.faults (books.world_of self.new.book)) result }
        ensures keeps { KeepsAll self.old self.new }
        ensures reads { IfOk result (λ reply. (s : State) → IsAtState self.old s → IsAnswered reply →
            Goes (λ old new. new ≤ old + within_pages s.last.level (capacity_in (layer_of s name.now)) (points_in (layer_of s name.now)) w)
            (reads_in self.old.book) (reads_in self.new.book)) }
    {
        match points_number(self.catalog.entries(), name) {
            Err(code) => Ok(Reply::No(code)),
            Ok(layer) => {
                if !has_window(self.book.head().level, w) {
                    return Ok(Reply::No(Code::Outside));
                }
                let list = read_points(self.alloc, &mut self.book, layer, w)?;
                told(points_text(self.alloc, &list))
            }
        }
    }
}

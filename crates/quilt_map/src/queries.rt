ghost use Rattle.std.specs.Prelude.{◌≡◌, ℕ, ◌+◌, ◌≤◌, Some, IfOk, IfErr, OnOk};
ghost use Rattle.quilt_types.specs.declared.stop.Stop.TheVariants as stops;
ghost use Rattle.quilt_types.specs.Plane.{is_pixel, is_window};
ghost use Rattle.quilt_words.specs.declared.command.Command.TheVariants as commands;
ghost use Rattle.quilt_world.specs.Tale.{Goes};
ghost use Rattle.quilt_store.specs.Stops.{HasStopCause, IsNotDamage};
ghost use Rattle.quilt_edition.specs.Books as books;
ghost use Rattle.quilt_region.specs.Covers.{IsSideOver};
ghost use Rattle.quilt_replies.specs.Answers.{State, layer as layer_of, grid_in};
ghost use Rattle.quilt_map.specs.Asking.{HasText, KeepsAll, warm_after, reads_in};
ghost use Rattle.quilt_map.specs.Commanding.{Answered};
ghost use Rattle.quilt_map.specs.Costs.{show_pages};
ghost use Rattle.quilt_map.specs.Selecting.{IsAnswered};
ghost use Rattle.quilt_map.specs.Serving.{IsLastPixelIn, ReadsNoneAgain};
ghost use Rattle.quilt_map.specs.Sessions.{IsAtState};

use crate::regions::{read_colour, read_part, read_region, region_number};
use crate::session::Session;
use quilt_replies::{
    Reply, edition_text, layers_text, leaves_text, number_text, records_text, show_text,
};
use quilt_store::PageStore;
use quilt_types::{Code, Name, Pixel, Stop, Text, Window};
use quilt_world::World;
use std::alloc::AllocError;

/// The reply of this text.
pub(crate) fn told(text: Result<Text, AllocError>) -> Result<Reply, Stop>
    ensures text { IfOk result (HasText text) }
    ensures memory { IfErr result (λ stop. stop ≡ stops.Memory) }
{
    match text {
        Ok(text) => Ok(Reply::Ok(text)),
        Err(_) => Err(Stop::Memory),
    }
}

/// Whether the pixel is one of the square.
pub(crate) fn has_pixel(level: u8, p: Pixel) -> bool
    requires { level ≤ 12 }
    ensures { result ≡ is_pixel level p }
{
    let side = 1_u16 << level;
    p.x < side && p.y < side
}

/// Whether the window lies in the square and has a pixel.
pub(crate) fn has_window(level: u8, w: Window) -> bool
    requires { level ≤ 12 }
    ensures { result ≡ is_window level w }
{
    let side = 1_u32 << level;
    1 <= w.w
        && 1 <= w.h
        && u32::from(w.x) + u32::from(w.w) <= side
        && u32::from(w.y) + u32::from(w.h) <= side
}

impl<W: World> Session<W> {
    /// The layers, in the order of their names.
    pub(crate) fn layers(&self) -> Result<Reply, Stop>
        ensures answer { IfOk result (λ reply. (s : State) → IsAtState self.now s → Answered s commands.Layers self.now self.now reply) }
        ensures memory { IfErr result (λ stop. stop ≡ stops.Memory) }
    {
        told(layers_text(self.alloc, self.catalog.entries()))
    }

    /// How many records the work has, of how many it may have.
    pub(crate) fn records(&self) -> Result<Reply, Stop>
        ensures answer { IfOk result (λ reply. (s : State) → IsAtState self.now s → Answered s commands.Records self.now self.now reply) }
        ensures memory { IfErr result (λ stop. stop ≡ stops.Memory) }
    {
        let records = self.book.head().records;
        let quota = 64 * (self.book.pages() - 8);
        told(records_text(self.alloc, records, quota))
    }

    /// The number of the last edition.
    pub(crate) fn edition(&self) -> Result<Reply, Stop>
        ensures answer { IfOk result (λ reply. (s : State) → IsAtState self.now s → Answered s commands.Edition self.now self.now reply) }
        ensures memory { IfErr result (λ stop. stop ≡ stops.Memory) }
    {
        told(edition_text(self.alloc, self.book.head().edition))
    }

    /// The colour of a pixel of the region layer. It reads at most 6 pages.
    pub(crate) fn at(&mut self, name: &Name, at: Pixel) -> Result<Reply, Stop>
        ensures answer { IfOk result (λ reply. (s : State) → IsAtState self.old s → Answered s (commands.At name.now at) self.old self.new reply) }
        ensures sound { IfErr result (λ stop. (s : State) → IsAtState self.old s → IsNotDamage stop) }
        ensures cause { HasStopCause (W.faults (books.world_of self.old.book)) (W.faults (books.world_of self.new.book)) result }
        ensures keeps { KeepsAll self.old self.new }
        ensures held { IsLastPixelIn (warm_after result name.now at) self.new }
        ensures reads { Goes (λ old new. new ≤ old + 6) (reads_in self.old.book) (reads_in self.new.book) }
        ensures again { ReadsNoneAgain (commands.At name.now at) self.old self.new }
    {
        match region_number(self.catalog.entries(), name) {
            Err(code) => Ok(Reply::No(code)),
            Ok(number) => {
                if !has_pixel(self.book.head().level, at) {
                    return Ok(Reply::No(Code::Outside));
                }
                let colour = read_colour(&mut self.book, number, at)?;
                match number_text(self.alloc, u64::from(colour.0)) {
                    Err(_) => Err(Stop::Memory),
                    Ok(text) => Ok(Reply::Ok(text)),
                }
            }
        }
    }

    /// A window of the region layer, a line for each row. It reads at most four blocks, of the least side that is no less than the window's.
    pub(crate) fn show(&mut self, name: &Name, w: Window) -> Result<Reply, Stop>
        ensures answer { IfOk result (λ reply. (s : State) → IsAtState self.old s → Answered s (commands.Show name.now w) self.old self.new reply) }
        ensures sound { IfErr result (λ stop. (s : State) → IsAtState self.old s → IsNotDamage stop) }
        ensures cause { HasStopCause (W.faults (books.world_of self.old.book)) (W.faults (books.world_of self.new.book)) result }
        ensures keeps { KeepsAll self.old self.new }
        ensures reads { IfOk result (λ reply. (s : State) → IsAtState self.old s → IsAnswered reply → (side : ℕ) → IsSideOver w side →
            Goes (λ old new. new ≤ old + show_pages s.last.level (grid_in (layer_of s name.now)) side w) (reads_in self.old.book) (reads_in self.new.book)) }
    {
        match region_number(self.catalog.entries(), name) {
            Err(code) => Ok(Reply::No(code)),
            Ok(number) => {
                let head = self.book.head();
                if !has_window(head.level, w) {
                    return Ok(Reply::No(Code::Outside));
                }
                let list = read_part(self.alloc, &mut self.book, number, w)?;
                told(show_text(self.alloc, &list, w, head.format))
            }
        }
    }

    /// The leaves of the region layer, by y and then x.
    pub(crate) fn leaves(&mut self, name: &Name) -> Result<Reply, Stop>
        ensures answer { IfOk result (λ reply. (s : State) → IsAtState self.old s → Answered s (commands.Leaves name.now) self.old self.new reply) }
        ensures sound { IfErr result (λ stop. (s : State) → IsAtState self.old s → IsNotDamage stop) }
        ensures cause { HasStopCause (W.faults (books.world_of self.old.book)) (W.faults (books.world_of self.new.book)) result }
        ensures keeps { KeepsAll self.old self.new }
    {
        match region_number(self.catalog.entries(), name) {
            Err(code) => Ok(Reply::No(code)),
            Ok(number) => {
                let list = read_region(self.alloc, &mut self.book, number)?;
                told(leaves_text(self.alloc, &list))
            }
        }
    }
}

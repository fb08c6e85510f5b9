ghost use Rattle.std.specs.Prelude.{◌≡◌, ◌≢◌, ℕ, ◌+◌, ◌<◌, ◌≤◌, true, List, Some, is_some, IfOk, IfErr, OnOk, All, length};
ghost use Rattle.quilt_types.specs.Layers.{Grid, Region};
ghost use Rattle.quilt_types.specs.declared.plane.Window.{Window as AnyWindow};
ghost use Rattle.quilt_words.specs.declared.command.Command.TheVariants as commands;
ghost use Rattle.quilt_words.specs.Table.{IsFitting};
ghost use Rattle.quilt_world.specs.Tale.{Goes};
ghost use Rattle.quilt_store.specs.Stops.{HasStopCause, IsNotDamage};
ghost use Rattle.quilt_region.specs.Covers.{IsSideOver};
ghost use Rattle.quilt_region.specs.Regions.{HasRegion};
ghost use Rattle.quilt_edition.specs.Books as books;
ghost use Rattle.quilt_replies.specs.Answers.{State, layer as layer_of, grid_in};
ghost use Rattle.quilt_map.specs.Asking.{IsStill, reads_in};
ghost use Rattle.quilt_map.specs.Commanding.{Answered, Refuses};
ghost use Rattle.quilt_map.specs.Costs.{show_pages, cut_pages};
ghost use Rattle.quilt_map.specs.Derivation.{layers_derived, derived, window_is_inside};
ghost use Rattle.quilt_map.specs.Making.{AnsweredBy, layer_placed};
ghost use Rattle.quilt_map.specs.Painting.{IsRegionIn};
ghost use Rattle.quilt_map.specs.Sessions.{IsAtState, told_of, tree_in};

use crate::queries::has_window;
use crate::refusals::why_not_new;
use crate::regions::{read_part, read_region, region_number};
use crate::session::Session;
use quilt_blocks::LeafList;
use quilt_buffer::buffer;
use quilt_edition::Book;
use quilt_overlay::recolour;
use quilt_replies::Reply;
use quilt_types::{Code, Name, Stop};
use quilt_window::{shift, window};
use quilt_words::Command;
use quilt_world::{Disk, World};
use std::alloc::{AllocError, Global};

/// Whether the window of the command, where it has one, lies in the square.
fn has_its_window(level: u8, command: &Command) -> bool
    requires { level ≤ 12 }
    ensures { result ≡ window_is_inside level command.now }
{
    match command {
        Command::Window { w, .. } => has_window(level, *w),
        _ => true,
    }
}

/// The leaves that a command makes of those of a layer.
fn derived_list(alloc: Global, list: &LeafList, command: &Command) -> Result<LeafList, AllocError>
    requires derives { is_some (layers_derived command.now) ≡ true }
    requires inside { window_is_inside list.now.level command.now ≡ true }
    ensures { IfOk result (λ made. made ≡ record { level = list.now.level; grid = derived command.now list.now.level list.now.grid }) }
{
    match command {
        Command::Recolour { pairs, .. } => recolour(alloc, list, pairs.items()),
        Command::Window { w, .. } => window(alloc, list, *w),
        Command::Shift { dx, dy, .. } => shift(alloc, list, *dx, *dy),
        Command::Buffer { r, .. } => buffer(alloc, list, *r),
        _ => unreachable!(),
    }
}

/// The leaves of the work's region layer with this number, or, for a command that cuts it to a window, others of the same
/// colours at the window's pixels.
fn read_derived<W: Disk>(
    alloc: Global,
    book: &mut Book<W>,
    number: u8,
    command: &Command,
) -> Result<LeafList, Stop>
    requires inside { window_is_inside (books.work_of book.old).level command.now ≡ true }
    ensures list { IfOk result (λ list. (g : Grid) → HasRegion (told_of book.old) (tree_in (books.work_of book.old)) number (books.work_of book.old).level g
        → derived command.now (books.work_of book.old).level list.grid ≡ derived command.now (books.work_of book.old).level g) }
    ensures level { IfOk result (λ list. list.level ≡ (books.work_of book.old).level) }
    ensures number { OnOk result (1 ≤ number) }
    ensures sound { IfErr result (λ e. (g : Grid) → 1 ≤ number
        → HasRegion (told_of book.old) (tree_in (books.work_of book.old)) number (books.work_of book.old).level g → IsNotDamage e) }
    ensures still { IsStill book.old book.new }
    ensures cause { HasStopCause (W.faults (books.world_of book.old)) (W.faults (books.world_of book.new)) result }
    ensures reads { IfOk result (λ list. (g : Grid) (side : ℕ) (a c : List ℕ) (w : AnyWindow) → command.now ≡ commands.Window a w c → IsSideOver w side
        → HasRegion (told_of book.old) (tree_in (books.work_of book.old)) number (books.work_of book.old).level g
        → Goes (λ old new. new ≤ old + show_pages (books.work_of book.old).level g side w) (reads_in book.old) (reads_in book.new)) }
{
    match command {
        Command::Window { w, .. } => read_part(alloc, book, number, *w),
        _ => read_region(alloc, book, number),
    }
}

impl<W: World> Session<W> {
    /// Makes a layer of the work's region layer with this number, as the command says.
    fn make_derived(&mut self, number: u8, command: &Command, into: &Name) -> Result<Reply, Stop>
        requires few { length self.old.catalog < 255 }
        requires new { All (λ e. e.name ≢ into.now) self.old.catalog }
        requires derives { is_some (layers_derived command.now) ≡ true }
        requires inside { window_is_inside (books.work_of self.old.book).level command.now ≡ true }
        ensures made { IfOk result (λ reply. (s : State) → IsAtState self.old s → (name : List ℕ) (g : Grid)
            → IsRegionIn s.work self.old.catalog name number g →
            IsFitting s.last.format s.last.level command.now
            → AnsweredBy s (layer_placed s into.now (Region (derived command.now s.last.level g))) self.old self.new reply) }
        ensures sound { IfErr result (λ e. (s : State) → IsAtState self.old s → (name : List ℕ) (g : Grid) → IsRegionIn s.work self.old.catalog name number g →
            IsFitting s.last.format s.last.level command.now → IsNotDamage e) }
        ensures refused { IfOk result (Refuses self.old self.new) }
        ensures goes_on { books.GoesOn self.old.book self.new.book }
        ensures cause { HasStopCause (W.faults (books.world_of self.old.book)) (W.faults (books.world_of self.new.book)) result }
        ensures reads { IfOk result (λ reply. (s : State) → IsAtState self.old s → (name : List ℕ) (g : Grid)
            → IsRegionIn s.work self.old.catalog name number g → (side : ℕ) (a c : List ℕ) (w : AnyWindow)
            → command.now ≡ commands.Window a w c → IsSideOver w side
            → Goes (λ old new. new ≤ old + cut_pages s.last.level g side w) (reads_in self.old.book) (reads_in self.new.book)) }
    {
        let list = read_derived(self.alloc, &mut self.book, number, command)?;
        let Ok(made) = derived_list(self.alloc, &list, command) else {
            return Err(Stop::Memory);
        };
        self.make_region(into, &made)
    }

    /// Makes a layer of a region layer with this name, under a name that no layer has: with other colours, cut to a window, shifted, or as a
    /// buffer, as the command says. For a window it reads the blocks that hold a corner of it, and what the edits of the new layer's records read.
    pub(crate) fn derive(
        &mut self,
        command: &Command,
        name: &Name,
        into: &Name,
    ) -> Result<Reply, Stop>
        requires { layers_derived command.now ≡ Some (name.now, into.now) }
        ensures answer { IfOk result (λ reply. (s : State) → IsAtState self.old s → IsFitting s.last.format s.last.level command.now
            → Answered s command.now self.old self.new reply) }
        ensures sound { IfErr result (λ e. (s : State) → IsAtState self.old s → IsFitting s.last.format s.last.level command.now → IsNotDamage e) }
        ensures refused { IfOk result (Refuses self.old self.new) }
        ensures goes_on { books.GoesOn self.old.book self.new.book }
        ensures cause { HasStopCause (W.faults (books.world_of self.old.book)) (W.faults (books.world_of self.new.book)) result }
        ensures reads { IfOk result (λ reply. (s : State) → IsAtState self.old s → (side : ℕ) (a c : List ℕ) (w : AnyWindow)
            → command.now ≡ commands.Window a w c → IsSideOver w side
            → Goes (λ old new. new ≤ old + cut_pages s.last.level (grid_in (layer_of s a)) side w) (reads_in self.old.book) (reads_in self.new.book)) }
    {
        match region_number(self.catalog.entries(), name) {
            Err(code) => Ok(Reply::No(code)),
            Ok(number) => {
                if let Some(code) = why_not_new(self.catalog.entries(), into) {
                    return Ok(Reply::No(code));
                }
                if !has_its_window(self.book.head().level, command) {
                    return Ok(Reply::No(Code::Outside));
                }
                self.make_derived(number, command, into)
            }
        }
    }
}

ghost use Rattle.std.specs.Prelude.{◌≡◌, ℕ, ◌+◌, ◌≤◌, Some, IfOk, IfErr};
ghost use Rattle.quilt_types.specs.Layers.{Map};
ghost use Rattle.quilt_record.specs.Records.{Numbering};
ghost use Rattle.quilt_words.specs.declared.command.Command.TheVariants as commands;
ghost use Rattle.quilt_world.specs.Tale.{Goes};
ghost use Rattle.quilt_store.specs.Stops.{HasStopCause, IsNotDamage};
ghost use Rattle.quilt_spell.specs.Catalogued.{IsCatalogOf};
ghost use Rattle.quilt_edition.specs.Books as books;
ghost use Rattle.quilt_replies.specs.Answers.{State, layer as layer_of, segs_in, cover_in};
ghost use Rattle.quilt_map.specs.Asking.{KeepsAll, IsRegionAt, reads_in};
ghost use Rattle.quilt_map.specs.Commanding.{Answered};
ghost use Rattle.quilt_map.specs.LineLayers.{IsLinesAt};
ghost use Rattle.quilt_map.specs.Selecting.{layer_asked, is_place, AsksSome, HasFound, IsAnswered, AreNotLinesAndRegion, AreNotLines, pages_for_answer};
ghost use Rattle.quilt_map.specs.Sessions.{IsAtState};

use crate::lines::{LineLayer, line_number};
use crate::queries::{has_pixel, has_window};
use crate::regions::{layer_under, read_region};
use crate::session::Session;
use crate::views::{crossed, crossed_with, read_segments, select_in, select_over};
use quilt_record::Entry;
use quilt_replies::Reply;
use quilt_types::{Code, Kind, Name, Stop};
use quilt_words::Command;
use quilt_world::World;
use std::thread::Threads;

/// Whether the window or the pixel of the command lies in the square.
fn has_place(level: u8, command: &Command) -> bool
    requires { level ≤ 12 }
    ensures { result ≡ is_place level command.now }
{
    match command {
        Command::Cross { w, .. } => has_window(level, *w),
        Command::Clip { w, .. } => has_window(level, *w),
        Command::Nearest { at, .. } => has_pixel(level, *at),
        Command::Rank { at, .. } => has_pixel(level, *at),
        _ => true,
    }
}

/// The line layer and the number of the region layer with these names, or why they are not both there.
fn lines_and_region(entries: &[Entry], l: &Name, a: &Name) -> Result<(LineLayer, u8), Code>
    ensures lines { IfOk result (λ found. (layers : Map) (numbers : Numbering) → IsCatalogOf layers numbers entries.now →
        IsLinesAt layers numbers l.now found.0) }
    ensures region { IfOk result (λ found. (layers : Map) (numbers : Numbering) → IsCatalogOf layers numbers entries.now →
        IsRegionAt layers numbers a.now found.1) }
    ensures refused { IfErr result (λ code. (s : State) (numbers : Numbering) → IsCatalogOf s.work numbers entries.now →
        AreNotLinesAndRegion s l.now a.now code) }
{
    let Some((first, one)) = layer_under(entries, l) else {
        return Err(Code::Unknown);
    };
    let Some((second, other)) = layer_under(entries, a) else {
        return Err(Code::Unknown);
    };
    match one {
        Kind::Lines { threshold } => match other {
            Kind::Region => Ok((
                LineLayer {
                    number: first,
                    threshold,
                },
                second,
            )),
            _ => Err(Code::Kind),
        },
        _ => Err(Code::Kind),
    }
}

/// The line layers with these names, or why they are not both there.
fn both_lines(entries: &[Entry], l: &Name, m: &Name) -> Result<(LineLayer, LineLayer), Code>
    ensures first { IfOk result (λ found. (layers : Map) (numbers : Numbering) → IsCatalogOf layers numbers entries.now →
        IsLinesAt layers numbers l.now found.0) }
    ensures second { IfOk result (λ found. (layers : Map) (numbers : Numbering) → IsCatalogOf layers numbers entries.now →
        IsLinesAt layers numbers m.now found.1) }
    ensures refused { IfErr result (λ code. (s : State) (numbers : Numbering) → IsCatalogOf s.work numbers entries.now → AreNotLines s l.now m.now code) }
{
    let Some((first, one)) = layer_under(entries, l) else {
        return Err(Code::Unknown);
    };
    let Some((second, other)) = layer_under(entries, m) else {
        return Err(Code::Unknown);
    };
    match one {
        Kind::Lines { threshold } => match other {
            Kind::Lines { threshold: most } => Ok((
                LineLayer {
                    number: first,
                    threshold,
                },
                LineLayer {
                    number: second,
                    threshold: most,
                },
            )),
            _ => Err(Code::Kind),
        },
        _ => Err(Code::Kind),
    }
}

impl<W: World> Session<W> {
    /// The segments of the line layer that the command asks for by a window or a pixel.
    pub(crate) fn ask_lines(&mut self, command: &Command, name: &Name) -> Result<Reply, Stop>
        requires asks { layer_asked command.now ≡ Some name.now }
        requires some { AsksSome command.now }
        ensures answer { IfOk result (λ reply. (s : State) → IsAtState self.old s → Answered s command.now self.old self.new reply) }
        ensures sound { IfErr result (λ e. (s : State) → IsAtState self.old s → IsNotDamage e) }
        ensures cause { HasStopCause (W.faults (books.world_of self.old.book)) (W.faults (books.world_of self.new.book)) result }
        ensures keeps { KeepsAll self.old self.new }
        ensures reads { IfOk result (λ reply. (s : State) → IsAtState self.old s → HasFound command.now (segs_in (layer_of s name.now)) → IsAnswered reply →
            Goes (λ old new. new ≤ old + pages_for_answer s.last.level command.now (segs_in (layer_of s name.now)) (cover_in (layer_of s name.now)))
            (reads_in self.old.book) (reads_in self.new.book)) }
    {
        match line_number(self.catalog.entries(), name) {
            Err(code) => Ok(Reply::No(code)),
            Ok(layer) => {
                if !has_place(self.book.head().level, command) {
                    return Ok(Reply::No(Code::Outside));
                }
                select_in(self.alloc, &mut self.book, layer, command)
            }
        }
    }

    /// The ids of the segments of the line layer that meet the square of a coloured pixel of the region layer.
    pub(crate) fn over(&mut self, l: &Name, a: &Name) -> Result<Reply, Stop>
        ensures answer { IfOk result (λ reply. (s : State) → IsAtState self.old s → Answered s (commands.Over l.now a.now) self.old self.new reply) }
        ensures sound { IfErr result (λ e. (s : State) → IsAtState self.old s → IsNotDamage e) }
        ensures cause { HasStopCause (W.faults (books.world_of self.old.book)) (W.faults (books.world_of self.new.book)) result }
        ensures keeps { KeepsAll self.old self.new }
    {
        match lines_and_region(self.catalog.entries(), l, a) {
            Err(code) => Ok(Reply::No(code)),
            Ok((layer, number)) => {
                let list = read_region(self.alloc, &mut self.book, number)?;
                select_over(self.alloc, &mut self.book, layer, &list)
            }
        }
    }

    /// The pairs of a segment of the first line layer and one of the second that share a point, by their ids. Where they are one layer
    /// it is read once.
    pub(crate) fn crossings<R: Threads + Sync>(
        &mut self,
        rt: &R,
        l: &Name,
        m: &Name,
    ) -> Result<Reply, Stop>
        ensures answer { IfOk result (λ reply. (s : State) → IsAtState self.old s → Answered s (commands.Crossings l.now m.now) self.old self.new reply) }
        ensures sound { IfErr result (λ e. (s : State) → IsAtState self.old s → IsNotDamage e) }
        ensures cause { HasStopCause (W.faults (books.world_of self.old.book)) (W.faults (books.world_of self.new.book)) result }
        ensures keeps { KeepsAll self.old self.new }
    {
        match both_lines(self.catalog.entries(), l, m) {
            Err(code) => Ok(Reply::No(code)),
            Ok((first, second)) => {
                let a = read_segments(self.alloc, &mut self.book, first)?;
                if *l == *m {
                    let level = self.book.head().level;
                    return crossed(rt, self.alloc, level, a.items(), a.items());
                }
                crossed_with(rt, self.alloc, &mut self.book, &a, second)
            }
        }
    }
}

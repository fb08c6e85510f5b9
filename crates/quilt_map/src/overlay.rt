ghost use Rattle.std.specs.Prelude.{◌≡◌, ◌≢◌, ℕ, ◌<◌, ◌≤◌, List, IfOk, IfErr, All, length};
ghost use Rattle.quilt_types.specs.Layers.{Grid, Map, Region};
ghost use Rattle.quilt_record.specs.Records.{Numbering};
ghost use Rattle.quilt_store.specs.Stops.{HasStopCause, IsNotDamage};
ghost use Rattle.quilt_spell.specs.Catalogued.{IsCatalogOf};
ghost use Rattle.quilt_overlay.specs.Combining.{overlaid};
ghost use Rattle.quilt_edition.specs.Books as books;
ghost use Rattle.quilt_replies.specs.Answers.{State};
ghost use Rattle.quilt_map.specs.Asking.{IsRegionAt};
ghost use Rattle.quilt_map.specs.Commanding.{Answered, Refuses};
ghost use Rattle.quilt_map.specs.Making.{AnsweredBy, layer_placed};
ghost use Rattle.quilt_map.specs.Overlaying.{overlay_command, AreRefusedFirst};
ghost use Rattle.quilt_map.specs.Painting.{IsRegionIn};
ghost use Rattle.quilt_map.specs.Sessions.{IsAtState};

use crate::refusals::why_not_new;
use crate::regions::{layer_under, read_region};
use crate::session::Session;
use quilt_overlay::{Op, overlay};
use quilt_record::Entry;
use quilt_replies::Reply;
use quilt_types::{Code, Kind, Name, Stop};
use quilt_world::World;

/// The numbers of the region layers with these names, or why they are not both there.
fn region_numbers(entries: &[Entry], a: &Name, b: &Name) -> Result<(u8, u8), Code>
    ensures first { IfOk result (λ found. (layers : Map) (numbers : Numbering) → IsCatalogOf layers numbers entries.now
        → IsRegionAt layers numbers a.now found.0) }
    ensures second { IfOk result (λ found. (layers : Map) (numbers : Numbering) → IsCatalogOf layers numbers entries.now
        → IsRegionAt layers numbers b.now found.1) }
    ensures refused { IfErr result (λ code. (s : State) (numbers : Numbering) → IsCatalogOf s.work numbers entries.now → AreRefusedFirst s a.now b.now code) }
{
    let Some((first, one)) = layer_under(entries, a) else {
        return Err(Code::Unknown);
    };
    let Some((second, other)) = layer_under(entries, b) else {
        return Err(Code::Unknown);
    };
    match one {
        Kind::Region => match other {
            Kind::Region => Ok((first, second)),
            _ => Err(Code::Kind),
        },
        _ => Err(Code::Kind),
    }
}

impl<W: World> Session<W> {
    /// Makes a layer of the work's region layers with these numbers.
    fn make_overlay(&mut self, op: Op, first: u8, second: u8, into: &Name) -> Result<Reply, Stop>
        requires few { length self.old.catalog < 255 }
        requires new { All (λ e. e.name ≢ into.now) self.old.catalog }
        ensures made { IfOk result (λ reply. (s : State) → IsAtState self.old s → (a b : List ℕ) (g h : Grid) →
            IsRegionIn s.work self.old.catalog a first g → IsRegionIn s.work self.old.catalog b second h →
            AnsweredBy s (layer_placed s into.now (Region (overlaid op s.last.level g h))) self.old self.new reply) }
        ensures sound { IfErr result (λ e. (s : State) → IsAtState self.old s → (a b : List ℕ) (g h : Grid) →
            IsRegionIn s.work self.old.catalog a first g → IsRegionIn s.work self.old.catalog b second h → IsNotDamage e) }
        ensures refused { IfOk result (Refuses self.old self.new) }
        ensures goes_on { books.GoesOn self.old.book self.new.book }
        ensures cause { HasStopCause (W.faults (books.world_of self.old.book)) (W.faults (books.world_of self.new.book)) result }
    {
        let below = read_region(self.alloc, &mut self.book, first)?;
        let above = read_region(self.alloc, &mut self.book, second)?;
        let Ok(made) = overlay(self.alloc, op, &below, &above) else {
            return Err(Stop::Memory);
        };
        self.make_region(into, &made)
    }

    /// Makes a layer of two region layers with these names, under a name that no layer has.
    pub(crate) fn overlay(&mut self, op: Op, a: &Name, b: &Name, into: &Name) -> Result<Reply, Stop>
        ensures answer { IfOk result (λ reply. (s : State) → IsAtState self.old s
            → Answered s (overlay_command op a.now b.now into.now) self.old self.new reply) }
        ensures sound { IfErr result (λ e. (s : State) → IsAtState self.old s → IsNotDamage e) }
        ensures refused { IfOk result (Refuses self.old self.new) }
        ensures goes_on { books.GoesOn self.old.book self.new.book }
        ensures cause { HasStopCause (W.faults (books.world_of self.old.book)) (W.faults (books.world_of self.new.book)) result }
    {
        match region_numbers(self.catalog.entries(), a, b) {
            Err(code) => Ok(Reply::No(code)),
            Ok((first, second)) => match why_not_new(self.catalog.entries(), into) {
                Some(code) => Ok(Reply::No(code)),
                None => self.make_overlay(op, first, second, into),
            },
        }
    }
}

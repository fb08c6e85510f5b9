ghost use Rattle.std.specs.Prelude.{◌≡◌, ℕ, List, IfSome, IfOk, IfErr};
ghost use Rattle.quilt_types.specs.Layers.{Grid, IsGrid, Region};
ghost use Rattle.quilt_words.specs.Fitting.{IsRows};
ghost use Rattle.quilt_words.specs.declared.command.Command.TheVariants as commands;
ghost use Rattle.quilt_store.specs.Stops.{HasStopCause, IsNotDamage};
ghost use Rattle.quilt_region.specs.Plans.{ReplacesGrid};
ghost use Rattle.quilt_edition.specs.Books as books;
ghost use Rattle.quilt_replies.specs.Answers.{State};
ghost use Rattle.quilt_map.specs.Commanding.{Answered, Refuses};
ghost use Rattle.quilt_map.specs.Making.{AnsweredBy, layer_placed};
ghost use Rattle.quilt_map.specs.Painting.{IsRegionIn};
ghost use Rattle.quilt_map.specs.Sessions.{IsAtState};

use crate::change::{is_past_quota, quota_of};
use crate::regions::{plan_redraw, region_number};
use crate::session::Session;
use quilt_blocks::LeafList;
use quilt_par::{Gate, few_leaves_of_par};
use quilt_record::Edits;
use quilt_replies::Reply;
use quilt_types::{Code, Name, Stop, Text};
use quilt_world::World;
use std::thread::Threads;

impl<W: World> Session<W> {
    /// Gives the work's region layer with this number the leaves of a list.
    fn redraw(&mut self, number: u8, list: &LeafList) -> Result<Reply, Stop>
        requires level { list.now.level ≡ (books.work_of self.old.book).level }
        ensures redrawn { IfOk result (λ reply. (s : State) → IsAtState self.old s → (name : List ℕ) (g : Grid)
            → IsRegionIn s.work self.old.catalog name number g →
            IsGrid s.last.format s.last.level list.now.grid → AnsweredBy s (layer_placed s name (Region list.now.grid)) self.old self.new reply) }
        ensures sound { IfErr result (λ e. (s : State) → IsAtState self.old s → (name : List ℕ) (g : Grid) → IsRegionIn s.work self.old.catalog name number g →
            IsGrid s.last.format s.last.level list.now.grid → IsNotDamage e) }
        ensures refused { IfOk result (Refuses self.old self.new) }
        ensures goes_on { books.GoesOn self.old.book self.new.book }
        ensures cause { HasStopCause (W.faults (books.world_of self.old.book)) (W.faults (books.world_of self.new.book)) result }
    {
        // Each leaf is a record, so no plan is made of too many.
        if is_past_quota(list, quota_of(&self.book)) {
            return Ok(Reply::No(Code::Full));
        }
        let edits = plan_redraw(self.alloc, &mut self.book, number, list)?;
        self.amend(&edits)
    }

    /// Gives the region layer the colours of a raster, whose quadrants pass the gate. The rows are none where one is missing or not
    /// well formed.
    pub(crate) fn raster<R: Threads + Sync, G: Gate + Sync>(
        &mut self,
        rt: &R,
        gate: &G,
        name: &Name,
        rows: &Option<Text>,
    ) -> Result<Reply, Stop>
        requires rows { IfSome rows.now (IsRows (books.work_of self.old.book).format (books.last_of self.old.book).level) }
        ensures answer { IfOk result (λ reply. (s : State) → IsAtState self.old s → Answered s (commands.Raster name.now rows.now) self.old self.new reply) }
        ensures sound { IfErr result (λ e. (s : State) → IsAtState self.old s → IsNotDamage e) }
        ensures refused { IfOk result (Refuses self.old self.new) }
        ensures goes_on { books.GoesOn self.old.book self.new.book }
        ensures cause { HasStopCause (W.faults (books.world_of self.old.book)) (W.faults (books.world_of self.new.book)) result }
    {
        match region_number(self.catalog.entries(), name) {
            Err(code) => Ok(Reply::No(code)),
            Ok(number) => {
                let Some(rows) = rows else {
                    return Ok(Reply::No(Code::Rows));
                };
                let level = self.book.head().level;
                let colours = rows.bytes();
                let most = quota_of(&self.book);
                match few_leaves_of_par(rt, gate, self.alloc, colours, level, most) {
                    Err(_) => Err(Stop::Memory),
                    Ok(None) => Ok(Reply::No(Code::Full)),
                    Ok(Some(list)) => self.redraw(number, &list),
                }
            }
        }
    }
}

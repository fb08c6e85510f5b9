ghost use Rattle.std.specs.Prelude.{◌≡◌, ◌≤◌, true, List, ℕ, IfOk, IfErr};
ghost use Rattle.quilt_types.specs.Layers.{SegMap, BlockSet, is_in_square as is_seg_in_square};
ghost use Rattle.quilt_words.specs.declared.command.Command.TheVariants as commands;
ghost use Rattle.quilt_store.specs.Stops.{HasStopCause, IsNotDamage};
ghost use Rattle.quilt_edition.specs.Books as books;
ghost use Rattle.quilt_replies.specs.Answers.{State};
ghost use Rattle.quilt_map.specs.Commanding.{Answered, Refuses};
ghost use Rattle.quilt_map.specs.LineLayers.{IsLinesIn, segment_put, segment_taken};
ghost use Rattle.quilt_map.specs.Making.{AnsweredBy};
ghost use Rattle.quilt_map.specs.Sessions.{IsAtState};

use crate::lines::{LineLayer, line_number, plan_addition, plan_removal};
use crate::queries::has_pixel;
use crate::session::Session;
use quilt_replies::Reply;
use quilt_types::{Code, Name, Pixel, Seg, Stop};
use quilt_world::World;

/// Whether both ends of the segment are pixels of the square.
fn has_segment(level: u8, s: Seg) -> bool
    requires { level ≤ 12 }
    ensures { result ≡ is_seg_in_square level s }
{
    let first = Pixel { x: s.x1, y: s.y1 };
    let last = Pixel { x: s.x2, y: s.y2 };
    has_pixel(level, first) && has_pixel(level, last)
}

impl<W: World> Session<W> {
    /// Puts a segment under an id into the work's line layer.
    fn put_segment(&mut self, layer: LineLayer, id: u32, s: Seg) -> Result<Reply, Stop>
        requires inside { is_seg_in_square (books.work_of self.old.book).level s ≡ true }
        ensures put { IfOk result (λ reply. (now : State) → IsAtState self.old now → (name : List ℕ) (segs : SegMap) (cover : BlockSet) →
            IsLinesIn now.work self.old.catalog name layer segs cover →
            AnsweredBy now (segment_put now name layer.threshold segs cover id s) self.old self.new reply) }
        ensures sound { IfErr result (λ e. (now : State) → IsAtState self.old now → (name : List ℕ) (segs : SegMap) (cover : BlockSet) →
            IsLinesIn now.work self.old.catalog name layer segs cover → IsNotDamage e) }
        ensures refused { IfOk result (Refuses self.old self.new) }
        ensures goes_on { books.GoesOn self.old.book self.new.book }
        ensures cause { HasStopCause (W.faults (books.world_of self.old.book)) (W.faults (books.world_of self.new.book)) result }
    {
        match plan_addition(self.alloc, &mut self.book, layer, id, s)? {
            None => Ok(Reply::No(Code::Present)),
            Some(edits) => self.amend(&edits),
        }
    }

    /// Puts a segment under an id into the line layer.
    pub(crate) fn line(&mut self, name: &Name, id: u32, s: Seg) -> Result<Reply, Stop>
        ensures answer { IfOk result (λ reply. (now : State) → IsAtState self.old now → Answered now (commands.Line name.now id s) self.old self.new reply) }
        ensures sound { IfErr result (λ e. (now : State) → IsAtState self.old now → IsNotDamage e) }
        ensures refused { IfOk result (Refuses self.old self.new) }
        ensures goes_on { books.GoesOn self.old.book self.new.book }
        ensures cause { HasStopCause (W.faults (books.world_of self.old.book)) (W.faults (books.world_of self.new.book)) result }
    {
        match line_number(self.catalog.entries(), name) {
            Err(code) => Ok(Reply::No(code)),
            Ok(layer) => {
                if !has_segment(self.book.head().level, s) {
                    return Ok(Reply::No(Code::Outside));
                }
                self.put_segment(layer, id, s)
            }
        }
    }

    /// Takes the segment of an id from the work's line layer.
    fn take_segment(&mut self, layer: LineLayer, id: u32) -> Result<Reply, Stop>
        ensures taken { IfOk result (λ reply. (s : State) → IsAtState self.old s → (name : List ℕ) (segs : SegMap) (cover : BlockSet) →
            IsLinesIn s.work self.old.catalog name layer segs cover →
            AnsweredBy s (segment_taken s name layer.threshold segs cover id) self.old self.new reply) }
        ensures sound { IfErr result (λ e. (s : State) → IsAtState self.old s → (name : List ℕ) (segs : SegMap) (cover : BlockSet) →
            IsLinesIn s.work self.old.catalog name layer segs cover → IsNotDamage e) }
        ensures refused { IfOk result (Refuses self.old self.new) }
        ensures goes_on { books.GoesOn self.old.book self.new.book }
        ensures cause { HasStopCause (W.faults (books.world_of self.old.book)) (W.faults (books.world_of self.new.book)) result }
    {
        match plan_removal(self.alloc, &mut self.book, layer, id)? {
            None => Ok(Reply::No(Code::Absent)),
            // Fewer records come than go, so the quota never refuses this.
            Some(edits) => self.amend(&edits),
        }
    }

    /// Takes the segment of an id from the line layer.
    pub(crate) fn unline(&mut self, name: &Name, id: u32) -> Result<Reply, Stop>
        ensures answer { IfOk result (λ reply. (s : State) → IsAtState self.old s → Answered s (commands.Unline name.now id) self.old self.new reply) }
        ensures sound { IfErr result (λ e. (s : State) → IsAtState self.old s → IsNotDamage e) }
        ensures refused { IfOk result (Refuses self.old self.new) }
        ensures goes_on { books.GoesOn self.old.book self.new.book }
        ensures cause { HasStopCause (W.faults (books.world_of self.old.book)) (W.faults (books.world_of self.new.book)) result }
    {
        match line_number(self.catalog.entries(), name) {
            Err(code) => Ok(Reply::No(code)),
            Ok(layer) => self.take_segment(layer, id),
        }
    }
}

ghost use Rattle.std.specs.Prelude.{◌≡◌, ◌<◌, not, IfOk, IfErr};
ghost use Rattle.std.specs.List.{list_any};
ghost use Rattle.quilt_types.specs.Layers.{colours};
ghost use Rattle.quilt_types.specs.Polygons.{is_corner};
ghost use Rattle.quilt_words.specs.declared.command.Command.TheVariants as commands;
ghost use Rattle.quilt_store.specs.Stops.{HasStopCause, IsNotDamage};
ghost use Rattle.quilt_edition.specs.Books as books;
ghost use Rattle.quilt_replies.specs.Answers.{State};
ghost use Rattle.quilt_map.specs.Commanding.{Answered, Refuses};
ghost use Rattle.quilt_map.specs.Sessions.{IsAtState};

use crate::change::quota_of;
use crate::refusals::why_not_new;
use crate::session::Session;
use quilt_poly::region_within;
use quilt_replies::Reply;
use quilt_types::{Code, Colour, Corner, Name, RingList, Stop};
use quilt_world::World;

/// Whether a corner of the ring is none of a square of this side.
fn leaves_square(side: u16, ring: &[Corner]) -> bool
    ensures { result ≡ list_any (λ k. not (is_corner side k)) ring.now }
{
    ring.iter().any(|k| !(k.x <= side && k.y <= side))
}

/// Whether a corner of some ring is none of a square of this side.
fn leave_square(side: u16, rings: &RingList) -> bool
    ensures { result ≡ list_any (list_any (λ k. not (is_corner side k))) rings.now }
{
    for i in 0..rings.len() {
        if leaves_square(side, rings.corners(i)) {
            return true;
        }
    }
    false
}

impl<W: World> Session<W> {
    /// Makes a region layer of the pixels inside of rings under a name that no layer has. The rings are none where one is missing or
    /// not well formed.
    pub(crate) fn polygon(
        &mut self,
        name: &Name,
        c: Colour,
        rings: &Option<RingList>,
    ) -> Result<Reply, Stop>
        ensures answer { IfOk result (λ reply. (s : State) → IsAtState self.old s → c.0 < colours s.last.format
            → Answered s (commands.Polygon name.now c rings.now) self.old self.new reply) }
        ensures sound { IfErr result (λ e. (s : State) → IsAtState self.old s → c.0 < colours s.last.format → IsNotDamage e) }
        ensures refused { IfOk result (Refuses self.old self.new) }
        ensures goes_on { books.GoesOn self.old.book self.new.book }
        ensures cause { HasStopCause (W.faults (books.world_of self.old.book)) (W.faults (books.world_of self.new.book)) result }
    {
        if let Some(code) = why_not_new(self.catalog.entries(), name) {
            return Ok(Reply::No(code));
        }
        let Some(rings) = rings else {
            return Ok(Reply::No(Code::Rows));
        };
        let level = self.book.head().level;
        if leave_square(1 << level, rings) {
            return Ok(Reply::No(Code::Outside));
        }
        // Each leaf is a record, so no list is made of too many.
        let most = quota_of(&self.book);
        match region_within(self.alloc, rings, c, level, most) {
            Err(_) => Err(Stop::Memory),
            Ok(None) => Ok(Reply::No(Code::Full)),
            Ok(Some(list)) => self.make_region(name, &list),
        }
    }
}

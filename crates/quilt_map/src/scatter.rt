ghost use Rattle.std.specs.Prelude.{◌≡◌, ◌≤◌, true, List, ℕ, All, not, IfOk, IfErr};
ghost use Rattle.std.specs.List.{list_any};
ghost use Rattle.quilt_types.specs.Layers.{PointMap};
ghost use Rattle.quilt_types.specs.Plane.{is_pixel};
ghost use Rattle.quilt_words.specs.declared.command.Command.TheVariants as commands;
ghost use Rattle.quilt_store.specs.Stops.{HasStopCause, IsNotDamage};
ghost use Rattle.quilt_edition.specs.Books as books;
ghost use Rattle.quilt_replies.specs.Answers.{State};
ghost use Rattle.quilt_map.specs.Commanding.{Answered, Refuses};
ghost use Rattle.quilt_map.specs.Making.{AnsweredBy};
ghost use Rattle.quilt_map.specs.PointLayers.{IsPointsIn, points_scattered};
ghost use Rattle.quilt_map.specs.Sessions.{IsAtState};

use crate::points::{PointLayer, plan_points, points_number};
use crate::queries::has_pixel;
use crate::session::Session;
use quilt_replies::Reply;
use quilt_types::{Code, Name, Point, PointList, Stop};
use quilt_world::World;

/// Whether one of the points is at no pixel of the square.
fn has_outside(level: u8, points: &[Point]) -> bool
    requires { level ≤ 12 }
    ensures { result ≡ list_any (λ q. not (is_pixel level q.at)) points.now }
{
    points.iter().any(|p| !has_pixel(level, p.at))
}

impl<W: World> Session<W> {
    /// Puts these points into the work's point layer, all or none.
    fn scatter_into(&mut self, layer: PointLayer, points: &PointList) -> Result<Reply, Stop>
        requires pixels { All (λ p. is_pixel (books.work_of self.old.book).level p.at ≡ true) points.now }
        ensures scattered { IfOk result (λ reply. (s : State) → IsAtState self.old s → (name : List ℕ) (held : PointMap)
            → IsPointsIn s.work self.old.catalog name layer held →
            AnsweredBy s (points_scattered s name layer.bucket held points.now) self.old self.new reply) }
        ensures sound { IfErr result (λ e. (s : State) → IsAtState self.old s → (name : List ℕ) (held : PointMap)
            → IsPointsIn s.work self.old.catalog name layer held → IsNotDamage e) }
        ensures refused { IfOk result (Refuses self.old self.new) }
        ensures goes_on { books.GoesOn self.old.book self.new.book }
        ensures cause { HasStopCause (W.faults (books.world_of self.old.book)) (W.faults (books.world_of self.new.book)) result }
    {
        match plan_points(self.alloc, &mut self.book, layer, points)? {
            None => Ok(Reply::No(Code::Present)),
            Some(edits) => self.amend(&edits),
        }
    }

    /// Puts the points of a list into the point layer, all or none.
    pub(crate) fn scatter(&mut self, name: &Name, points: &Option<PointList>) -> Result<Reply, Stop>
        ensures answer { IfOk result (λ reply. (s : State) → IsAtState self.old s → Answered s (commands.Scatter name.now points.now) self.old self.new reply) }
        ensures sound { IfErr result (λ e. (s : State) → IsAtState self.old s → IsNotDamage e) }
        ensures refused { IfOk result (Refuses self.old self.new) }
        ensures goes_on { books.GoesOn self.old.book self.new.book }
        ensures cause { HasStopCause (W.faults (books.world_of self.old.book)) (W.faults (books.world_of self.new.book)) result }
    {
        match points_number(self.catalog.entries(), name) {
            Err(code) => Ok(Reply::No(code)),
            Ok(layer) => match points {
                None => Ok(Reply::No(Code::Rows)),
                Some(list) => {
                    if has_outside(self.book.head().level, list.items()) {
                        return Ok(Reply::No(Code::Outside));
                    }
                    self.scatter_into(layer, list)
                }
            },
        }
    }
}

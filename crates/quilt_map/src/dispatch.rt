ghost use Rattle.std.specs.Prelude.{◌≡◌, ℕ, List, Some};
ghost use Rattle.quilt_types.specs.declared.plane.Pixel.{Pixel as AnyPixel};
ghost use Rattle.quilt_words.specs.Forms.{Spelled};
ghost use Rattle.quilt_words.specs.declared.command.Command.TheVariants as commands;
ghost use Rattle.quilt_edition.specs.Books as books;
ghost use Rattle.quilt_replies.specs.Answers.{State};
ghost use Rattle.quilt_map.specs.Asking.{ReadsNothing};
ghost use Rattle.quilt_map.specs.Commanding.{IsApplied};
ghost use Rattle.quilt_map.specs.Reading.{warm_left};
ghost use Rattle.quilt_map.specs.Serving.{IsServed};
ghost use Rattle.quilt_map.specs.Sessions.{IsAt, warm_of};

use crate::session::Session;
use quilt_overlay::Op;
use quilt_par::Gate;
use quilt_replies::Reply;
use quilt_types::{Name, Pixel, Stop};
use quilt_words::Command;
use quilt_world::World;
use std::thread::Threads;

/// The layer and the pixel of an `at` that was answered.
fn pixel_asked(command: &Command, reply: &Result<Reply, Stop>) -> Option<(Name, Pixel)>
    ensures { result ≡ warm_left command.now reply.now }
{
    match command {
        Command::At { a, at } => match reply {
            Ok(Reply::Ok(_)) => Some((a.copy(), *at)),
            _ => None,
        },
        _ => None,
    }
}

impl<W: World> Session<W> {
    /// The reply to a command. The layer and the pixel of an `at` are kept where it was answered, and forgotten behind all else.
    pub(crate) fn answer<R: Threads + Sync, G: Gate + Sync>(
        &mut self,
        rt: &R,
        gate: &G,
        command: &Command,
    ) -> Result<Reply, Stop>
        requires ready { books.IsReady self.old.book }
        requires spelled { Spelled (books.work_of self.old.book).format (books.last_of self.old.book).level command.now }
        ensures applied { IsApplied command.now self.old self.new result }
        ensures warm { self.new.warm ≡ warm_left command.now result }
        ensures again { (s : State) → IsAt self.old s → (name : List ℕ) (p : AnyPixel) → command.now ≡ commands.At name p
            → warm_of self.old ≡ Some (name, p) → ReadsNothing self.old.book self.new.book }
    {
        let reply = self.dispatch(rt, gate, command);
        self.warm = pixel_asked(command, &reply);
        reply
    }

    /// The reply to a command, from the call that it is for.
    fn dispatch<R: Threads + Sync, G: Gate + Sync>(
        &mut self,
        rt: &R,
        gate: &G,
        command: &Command,
    ) -> Result<Reply, Stop>
        requires ready { books.IsReady self.old.book }
        requires spelled { Spelled (books.work_of self.old.book).format (books.last_of self.old.book).level command.now }
        ensures { IsServed command.now self.old self.new result }
    {
        match command {
            Command::Region { a, c } => self.region(a, *c),
            Command::Points { p, bucket } => self.make_points(p, *bucket),
            Command::Lines { l, t } => self.make_lines(l, *t),
            Command::Drop { a } => self.drop_layer(a),
            Command::Copy { a, b } => self.copy_layer(a, b),
            Command::Layers => self.layers(),
            Command::Blocks { a } => self.blocks(a),
            Command::Records => self.records(),
            Command::Set { a, at, c } => self.set(a, *at, *c),
            Command::Rect { a, w, c } => self.rect(a, *w, *c),
            Command::Raster { a, rows } => self.raster(rt, gate, a, rows),
            Command::At { a, at } => self.at(a, *at),
            Command::Show { a, w } => self.show(a, *w),
            Command::Leaves { a } => self.leaves(a),
            Command::Union { a, b, c } => self.overlay(Op::Union, a, b, c),
            Command::Inter { a, b, c } => self.overlay(Op::Inter, a, b, c),
            Command::Diff { a, b, c } => self.overlay(Op::Diff, a, b, c),
            Command::Recolour { a, c, .. }
            | Command::Window { a, c, .. }
            | Command::Shift { a, c, .. }
            | Command::Buffer { a, c, .. } => self.derive(command, a, c),
            Command::Area { a, .. } | Command::Perimeter { a, .. } => self.measure(command, a),
            Command::Put { p, at, label } => self.put_point(p, *at, *label),
            Command::Del { p, at } => self.del_point(p, *at),
            Command::Scatter { p, points } => self.scatter(p, points),
            Command::Find { p, at } => self.find_point(p, *at),
            Command::Within { p, w } => self.points_within(p, *w),
            Command::Line { l, id, seg } => self.line(l, *id, *seg),
            Command::Unline { l, id } => self.unline(l, *id),
            Command::Cross { l, .. }
            | Command::Clip { l, .. }
            | Command::Nearest { l, .. }
            | Command::Rank { l, .. } => self.ask_lines(command, l),
            Command::Over { l, a } => self.over(l, a),
            Command::Edition => self.edition(),
            Command::Publish => self.publish(),
            Command::Upgrade => self.upgrade(),
            Command::Revert => self.revert(),
            Command::Polygon { a, c, rings } => self.polygon(a, *c, rings),
            Command::Crossings { l, m } => self.crossings(rt, l, m),
        }
    }
}

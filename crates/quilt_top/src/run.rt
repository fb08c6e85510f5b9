ghost use Rattle.std.specs.Prelude.{◌≡◌, map, Option, Some, None, [], IfSome};
ghost use Rattle.quilt_world.specs.declared.disk.Door.TheVariants as doors;
ghost use Rattle.quilt_world.specs.Causes.{Rose};
ghost use Rattle.quilt_world.specs.Tale.{taken_bytes};
ghost use Rattle.quilt_top.specs.Ends.{status_of};
ghost use Rattle.quilt_top.specs.Openings.{end_of_stop};
ghost use Rattle.quilt_top.specs.Words.{Order as Asked, asked_for};
ghost use Rattle.quilt_top.specs.Headline.{KeepsPromises, WhereTold, IsUsage, HasEndCause};
ghost use Rattle.quilt_top.specs.Stronger.{KeepsMore};

use crate::file_run::run_file;
use crate::make::new_file;
use crate::orders::Order;
use crate::words::read_order;
use quilt_types::Stop;
use quilt_world::World;
use std::alloc::Global;
use std::thread::Threads;

/// How a run ends.
#[derive(Clone, Copy, Debug, PartialEq, Eq)]
pub enum End {
    /// All was done.
    Done,
    /// The input was read to its end, and some command was refused.
    Refused,
    /// The words are not in the table.
    Usage,
    /// A call of the world failed.
    Device,
    /// Memory was refused.
    Memory,
    /// The file is no map file.
    NotMap,
    /// There is no such file.
    Missing,
    /// The file that is to be made is there.
    Taken,
    /// More input than a run may take.
    TooMuch,
    /// The file stands for no edition. The page is a home page.
    Damaged { page: u32 },
}

impl End {
    /// The end of a run in which a call gave up.
    pub(crate) fn of_stop(stop: Stop) -> End
        ensures { result ≡ end_of_stop stop }
    {
        match stop {
            Stop::Device => End::Device,
            Stop::Memory => End::Memory,
            Stop::Damaged { page } => End::Damaged { page },
        }
    }

    /// The exit status, from 0 to 9.
    pub fn status(&self) -> u8
        ensures { result ≡ status_of self.now }
    {
        match self {
            End::Done => 0,
            End::Refused => 1,
            End::Usage => 2,
            End::Device => 3,
            End::Memory => 4,
            End::NotMap => 5,
            End::Missing => 6,
            End::Taken => 7,
            End::TooMuch => 8,
            End::Damaged { .. } => 9,
        }
    }
}

/// How a run ends that calls nothing of the world.
fn left_alone<W: World>(end: End, world: W) -> (End, W)
    requires door { W.door world ≡ doors.Shut }
    requires untaken { IfSome (W.told world) (λ t. taken_bytes t.log ≡ []) }
    ensures same { result ≡ (end, world) }
    ensures more { (order : Option Asked) → WhereTold (KeepsMore order (W.door result.1) result.0) (W.told world) (W.told result.1) }
{
    (end, world)
}

/// Does all that the program does, by the words after its name, and hands the world back, of whose input nothing was taken yet.
pub fn run_quilt<'a, R: Threads + Sync, W: World>(
    rt: &R,
    alloc: Global,
    words: &'a [&'a str],
    world: W,
) -> (End, W)
    requires door { W.door world ≡ doors.Shut }
    requires untaken { IfSome (W.told world) (λ t. taken_bytes t.log ≡ []) }
    ensures usage { IsUsage (asked_for (map (λ w. w.now) words.entry.now)) result.0 }
    ensures untouched { asked_for (map (λ w. w.now) words.entry.now) ≡ None → result.1 ≡ world }
    ensures cause { HasEndCause (asked_for (map (λ w. w.now) words.entry.now)) (W.faults world) (W.faults result.1) (W.door result.1) result.0 }
    ensures promises { WhereTold (KeepsPromises (asked_for (map (λ w. w.now) words.entry.now)) (Rose (W.faults world) (W.faults result.1))
        (W.door result.1) result.0) (W.told world) (W.told result.1) }
    ensures shut { W.door result.1 ≡ doors.Shut → result.1 ≡ world }
    ensures more { WhereTold (KeepsMore (asked_for (map (λ w. w.now) words.entry.now)) (W.door result.1) result.0) (W.told world) (W.told result.1) }
{
    let Ok(order) = read_order(alloc, words) else {
        return left_alone(End::Memory, world);
    };
    match order {
        None => left_alone(End::Usage, world),
        Some(Order::New(file)) => new_file(alloc, world, file),
        Some(Order::Run(file)) => run_file(rt, alloc, world, file),
    }
}

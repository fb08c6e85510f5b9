ghost use Rattle.std.specs.Prelude.{◌≡◌};
ghost use Rattle.quilt_types.specs.declared.stop.Stop.TheVariants as stops;

use quilt_types::Stop;
use quilt_world::Fault;
use std::alloc::AllocError;

/// Why a run stops before its input has ended.
#[derive(Clone, Copy, Debug, PartialEq, Eq)]
pub(crate) enum Halt {
    /// A call gave up.
    Stopped(Stop),
    /// More input was taken than a run may take.
    TooMuch,
}

impl From<AllocError> for Halt {
    ghost use Rattle.quilt_top.specs.declared.halt.Halt.TheVariants as halts;

    ghost from_gives = { λ e r. r ≡ halts.Stopped stops.Memory };

    fn from(_e: AllocError) -> Halt {
        Halt::Stopped(Stop::Memory)
    }
}

impl From<Fault> for Halt {
    ghost use Rattle.quilt_top.specs.declared.halt.Halt.TheVariants as halts;

    ghost from_gives = { λ e r. r ≡ halts.Stopped stops.Device };

    fn from(_e: Fault) -> Halt {
        Halt::Stopped(Stop::Device)
    }
}

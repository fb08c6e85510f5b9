ghost use Rattle.std.specs.Prelude.{◌≡◌, ◌<◌, ◌∷◌, ◌++◌, [], length, OnOk, OnErr};
ghost use Rattle.std.specs.Vec.{vec_capacity};

use quilt_world::Event;
use std::alloc::AllocError;

/// Adds an event at the end, and keeps room for one more: that of a page whose write stops half way.
pub(crate) fn add_event(log: &mut Vec<Event>, event: Event) -> Result<(), AllocError>
    ensures ok { OnOk result (log.new.items ≡ log.old.items ++ event ∷ []) }
    ensures err { OnErr result (log.new.items ≡ log.old.items) }
    ensures room { OnOk result (length log.new.items < vec_capacity log.new) }
    ensures kept { OnErr result (vec_capacity log.new ≡ vec_capacity log.old) }
{
    log.reserve(2)?;
    let _ = log.push(event);
    Ok(())
}

ghost use Rattle.std.specs.Prelude.{◌≡◌, ℕ, OnOk, OnErr};
ghost use Rattle.quilt_world.specs.Tale.{Goes};
ghost use Rattle.quilt_world.specs.Causes.{HasCause};
ghost use Rattle.quilt_world.specs.Doors.{IsOpen};
ghost use Rattle.quilt_world.specs.Added.{AddsOnly, is_of_text};
ghost use Rattle.quilt_replies.specs.Answers.{State};
ghost use Rattle.quilt_map.specs.Sessions.{session_world, level_of, changes_of, IsAt, IsSessionReady};
ghost use Rattle.quilt_top.specs.Saying.{Says, SaysPrefix};

use quilt_map::Session;
use quilt_world::{Fault, World};

/// Puts all of the bytes, in as many calls as the world needs. After an Err a prefix of them was put.
pub(crate) fn put_all<W: World>(world: &mut W, bytes: &[u8]) -> Result<(), Fault>
    requires { IsOpen (W.door world.old) }
    ensures cause { HasCause (W.faults world.old) (W.faults world.new) result }
    ensures door { W.door world.new ≡ W.door world.old }
    ensures said { OnOk result (Goes (Says bytes.now) (W.told world.old) (W.told world.new)) }
    ensures part { OnErr result (Goes (SaysPrefix bytes.now) (W.told world.old) (W.told world.new)) }
    ensures text { Goes (AddsOnly is_of_text) (W.told world.old) (W.told world.new) }
{
    let mut done = 0;
    while done < bytes.len() {
        done += world.put(&bytes[done..])?;
    }
    Ok(())
}

/// The same by the world that a session has.
pub(crate) fn put_reply<W: World>(session: &mut Session<W>, bytes: &[u8]) -> Result<(), Fault>
    requires { IsOpen (W.door (session_world session.old)) }
    ensures cause { HasCause (W.faults (session_world session.old)) (W.faults (session_world session.new)) result }
    ensures door { W.door (session_world session.new) ≡ W.door (session_world session.old) }
    ensures said { OnOk result (Goes (Says bytes.now) (W.told (session_world session.old)) (W.told (session_world session.new))) }
    ensures part { OnErr result (Goes (SaysPrefix bytes.now) (W.told (session_world session.old)) (W.told (session_world session.new))) }
    ensures text { Goes (AddsOnly is_of_text) (W.told (session_world session.old)) (W.told (session_world session.new)) }
    ensures level { level_of session.new ≡ level_of session.old }
    ensures changes { changes_of session.new ≡ changes_of session.old }
    ensures ready { IsSessionReady session.old → IsSessionReady session.new }
    ensures at { (s : State) → IsAt session.old s → IsAt session.new s }
{
    let mut done = 0;
    while done < bytes.len() {
        done += session.put(&bytes[done..])?;
    }
    Ok(())
}

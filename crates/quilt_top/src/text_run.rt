ghost use Rattle.std.specs.Prelude.{◌≡◌, ℕ, ◌<◌, ◌≤◌, ◌+◌, ◌^◌, length, [], IfOk, IfErr, OnOk, OnErr, IfSome};
ghost use Rattle.quilt_types.specs.declared.stop.Stop.TheVariants as stops;
ghost use Rattle.quilt_world.specs.Tale.{Tale, Goes};
ghost use Rattle.quilt_world.specs.Causes.{Rose};
ghost use Rattle.quilt_world.specs.Doors.{IsOpen};
ghost use Rattle.quilt_lang.specs.Reading.{HasNone};
ghost use Rattle.quilt_replies.specs.Answers.{State};
ghost use Rattle.quilt_map.specs.Sessions.{session_world, level_of, changes_of, IsAt, IsSessionReady};
ghost use Rattle.quilt_top.specs.declared.halt.Halt.TheVariants as halts;
ghost use Rattle.quilt_words.specs.Items.{items_of};
ghost use Rattle.quilt_top.specs.Answered.{ItemsAnswered, PrefixOfAll, StopsBetween};
ghost use Rattle.quilt_top.specs.Openings.{IsNoFault};
ghost use Rattle.quilt_top.specs.TextRun.{run_in, IsUntold, RunsFrom, RunsWhole, Overruns, EndsBetween};

use crate::answer::put_answer;
use crate::halt::Halt;
use quilt_lang::Lines;
use quilt_map::Session;
use quilt_world::World;
use std::alloc::Global;
use std::thread::Threads;

/// The most bytes that a run may take.
const LIMIT: u32 = 1 << 30;

/// Answers each item that can be given and puts its reply. Says whether no reply so far was a refusal, these with them.
fn answer_items<R: Threads + Sync, W: World>(
    rt: &R,
    alloc: Global,
    lines: &mut Lines,
    session: &mut Session<W>,
    ended: bool,
    so_far: bool,
) -> Result<bool, Halt>
    requires open { IsOpen (W.door (session_world session.old)) }
    requires ready { IsSessionReady session.old }
    requires level { level_of session.old ≡ lines.old.level }
    ensures ready { OnOk result (IsSessionReady session.new) }
    ensures later { W.faults (session_world session.old) ≤ W.faults (session_world session.new) }
    ensures device { IfErr result (λ e. e ≡ halts.Stopped stops.Device → Rose (W.faults (session_world session.old)) (W.faults (session_world session.new))) }
    ensures damaged { IfErr result (λ e. (page : ℕ) → e ≡ halts.Stopped (stops.Damaged page) → (s : State) → IsAt session.old s → ⊥) }
    ensures short { IfErr result (λ e. e ≡ halts.TooMuch → ⊥) }
    ensures door { W.door (session_world session.new) ≡ W.door (session_world session.old) }
    ensures level { lines.new.level ≡ lines.old.level }
    ensures same { IfOk result (λ done. level_of session.new ≡ level_of session.old) }
    ensures answered { IfOk result (λ done. (s : State) → IsAt session.old s → (now : State) × IsAt session.new now
        × ItemsAnswered ended lines.old.level so_far done s now (changes_of session.old) (changes_of session.new)
        lines.old.rest lines.new.rest (W.told (session_world session.old)) (W.told (session_world session.new))) }
    ensures none { IfOk result (λ done. HasNone ended lines.old.level lines.new.rest) }
    ensures stopped { OnErr result ((s : State) → IsAt session.old s
        → Goes (PrefixOfAll ended lines.old.level s (changes_of session.old) lines.old.rest) (W.told (session_world session.old)) (W.told (session_world session.new))) }
    ensures between { IfErr result (λ e. e ≡ halts.Stopped stops.Memory → (s : State) → IsAt session.old s
        → Goes (StopsBetween ended lines.old.level s lines.old.rest) (W.told (session_world session.old)) (W.told (session_world session.new))) }
{
    let mut all_done = so_far;
    'items: while let Some(spelled) = lines.take_command(session.head().format, ended)? {
        all_done = put_answer(rt, alloc, session, spelled, all_done)?;
    }
    Ok(all_done)
}

/// The count of bytes with a piece more.
fn counted(total: u32, piece: usize) -> Result<u32, Halt>
    requires total { total ≤ 2 ^ 30 }
    requires piece { piece ≤ 4096 }
    ensures few { IfOk result (λ count. (count ≡ total + piece) × (count ≤ 2 ^ 30)) }
    ensures much { OnErr result (2 ^ 30 < total + piece) }
    ensures err { IfErr result (λ e. e ≡ halts.TooMuch) }
{
    let count = total + piece as u32;
    if count > LIMIT {
        return Err(Halt::TooMuch);
    }
    Ok(count)
}

/// Takes the input to its end, at most 4096 bytes a call, and puts each reply before more is taken. Says whether none was a refusal.
/// More than 2^30 bytes of input are too much, which is told once they are taken, and before their items are answered.
/// After an Err a prefix of the replies was put, whole replies alone unless a device failed, and the session is only given up.
pub(crate) fn run_text<R: Threads + Sync, W: World>(
    rt: &R,
    alloc: Global,
    session: &mut Session<W>,
) -> Result<bool, Halt>
    requires open { IsOpen (W.door (session_world session.old)) }
    requires ready { IsSessionReady session.old }
    requires untold { IfSome (W.told (session_world session.old)) IsUntold }
    requires unchanged { changes_of session.old ≡ 0 }
    ensures later { W.faults (session_world session.old) ≤ W.faults (session_world session.new) }
    ensures device { IfErr result (λ e. e ≡ halts.Stopped stops.Device → Rose (W.faults (session_world session.old)) (W.faults (session_world session.new))) }
    ensures damaged { IfErr result (λ e. (page : ℕ) → e ≡ halts.Stopped (stops.Damaged page) → (s : State) → IsAt session.old s → ⊥) }
    ensures door { W.door (session_world session.new) ≡ W.door (session_world session.old) }
    ensures runs { (s : State) → IsAt session.old s → Goes (RunsFrom (level_of session.old) s) (W.told (session_world session.old)) (W.told (session_world session.new)) }
    ensures whole { IfOk result (λ done. (s : State) → IsAt session.old s
        → Goes (RunsWhole (level_of session.old) done s) (W.told (session_world session.old)) (W.told (session_world session.new))) }
    ensures too_much { IfErr result (λ e. e ≡ halts.TooMuch → (s : State) → IsAt session.old s
        → Goes (λ old new. Overruns new) (W.told (session_world session.old)) (W.told (session_world session.new))) }
    ensures between { IfErr result (λ e. IsNoFault e → (s : State) → IsAt session.old s
        → Goes (λ old new. EndsBetween (run_in s (items_of (level_of session.old) old.input)) new) (W.told (session_world session.old))
        (W.told (session_world session.new))) }
{
    let mut lines = Lines::new(alloc, session.head().level);
    let mut buffer = [0; 4096];
    let mut total = 0;
    let mut all_done = true;
    'pieces: loop {
        let n = session.take(&mut buffer)?;
        if n == 0 {
            break;
        }
        total = counted(total, n)?;
        lines.feed(&buffer[..n])?;
        all_done = answer_items(rt, alloc, &mut lines, session, false, all_done)?;
    }
    answer_items(rt, alloc, &mut lines, session, true, all_done)
}

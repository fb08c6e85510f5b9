ghost use Rattle.std.specs.Prelude.{◌≡◌, ℕ, ◌≤◌, ◌&&◌, false, OnOk, OnErr, IfOk, IfErr, IfSome};
ghost use Rattle.quilt_types.specs.declared.stop.Stop.TheVariants as stops;
ghost use Rattle.quilt_world.specs.Stops.{LeavesNow};
ghost use Rattle.quilt_world.specs.Tale.{Goes};
ghost use Rattle.quilt_world.specs.Causes.{Rose};
ghost use Rattle.quilt_world.specs.Doors.{IsOpen};
ghost use Rattle.quilt_edition.specs.Stands.{Stands};
ghost use Rattle.quilt_top.specs.Answering.{Applies, Answers, AnswersPrefix, PutsNone, changes_then};
ghost use Rattle.quilt_top.specs.declared.halt.Halt.TheVariants as halts;
ghost use Rattle.quilt_replies.specs.Answers.{State, Refused};
ghost use Rattle.quilt_replies.specs.Runs.{text_of, is_done};
ghost use Rattle.quilt_map.specs.Sessions.{session_world, format_of, level_of, changes_of, IsAt, IsSessionReady};
ghost use Rattle.quilt_words.specs.declared.item.Item.{Item};
ghost use Rattle.quilt_words.specs.Forms.{form, Spelled};
ghost use Rattle.quilt_top.specs.Replies.{reply_to, state_then};

use crate::halt::Halt;
use crate::output::put_reply;
use quilt_lang::Command;
use quilt_map::{Reply, Session};
use quilt_par::NoGate;
use quilt_types::{Code, Text};
use quilt_world::World;
use std::alloc::{AllocError, Global};
use std::thread::Threads;

/// The text of a reply, and whether it is no refusal.
#[derive(Drop)]
pub(crate) struct Answer {
    text: Text,
    pub(crate) is_done: bool,
}

fn refusal(alloc: Global, code: Code) -> Result<Answer, AllocError>
    ensures { IfOk result (λ a. (a.text ≡ text_of (Refused code)) × (a.is_done ≡ false)) }
{
    let text = Reply::No(code).into_text(alloc)?;
    Ok(Answer {
        text,
        is_done: false,
    })
}

/// The answer to what an item of the session's level spells, and the work that it leaves.
pub(crate) fn answer_item<R: Threads + Sync, W: World>(
    rt: &R,
    alloc: Global,
    session: &mut Session<W>,
    spelled: Result<Command, Code>,
) -> Result<Answer, Halt>
    requires ready { IsSessionReady session.old }
    requires spelled { IfOk spelled (λ command. Spelled (format_of session.old) (level_of session.old) command) }
    ensures ready { OnOk result (IsSessionReady session.new) }
    ensures text { IfOk result (λ a. (item : Item) → form (format_of session.old) item ≡ spelled →
        (s : State) → IsAt session.old s → a.text ≡ text_of (reply_to s item)) }
    ensures done { IfOk result (λ a. (item : Item) → form (format_of session.old) item ≡ spelled →
        (s : State) → IsAt session.old s → a.is_done ≡ is_done (reply_to s item)) }
    ensures at { OnOk result ((item : Item) → form (format_of session.old) item ≡ spelled →
        (s : State) → IsAt session.old s → IsAt session.new (state_then s item)) }
    ensures changes { OnOk result ((item : Item) → form (format_of session.old) item ≡ spelled →
        (s : State) → IsAt session.old s → changes_of session.new ≡ changes_then s item (changes_of session.old)) }
    ensures level { OnOk result (level_of session.new ≡ level_of session.old) }
    ensures later { W.faults (session_world session.old) ≤ W.faults (session_world session.new) }
    ensures device { IfErr result (λ e. e ≡ halts.Stopped stops.Device → Rose (W.faults (session_world session.old)) (W.faults (session_world session.new))) }
    ensures damaged { IfErr result (λ e. (page : ℕ) → e ≡ halts.Stopped (stops.Damaged page) → (s : State) → IsAt session.old s → ⊥) }
    ensures short { IfErr result (λ e. e ≡ halts.TooMuch → ⊥) }
    ensures door { W.door (session_world session.new) ≡ W.door (session_world session.old) }
    ensures applies { (item : Item) → form (format_of session.old) item ≡ spelled →
        (s : State) → IsAt session.old s
        → Goes (Applies s item (changes_of session.old)) (W.told (session_world session.old)) (W.told (session_world session.new)) }
    ensures left { IfErr result (λ e. e ≡ halts.Stopped stops.Memory → (item : Item) → form (format_of session.old) item ≡ spelled →
        (s : State) → IsAt session.old s → IfSome (W.told (session_world session.new)) (λ t. LeavesNow t (λ image. Stands image s.last))) }
{
    let command = match spelled {
        Ok(command) => command,
        Err(code) => return Ok(refusal(alloc, code)?),
    };
    let reply = match session.apply(rt, &NoGate, &command) {
        Ok(reply) => reply,
        Err(stop) => return Err(Halt::Stopped(stop)),
    };
    match reply {
        Reply::Ok(text) => Ok(Answer {
            text,
            is_done: true,
        }),
        Reply::No(code) => Ok(refusal(alloc, code)?),
    }
}

/// Answers what an item spells and puts its reply whole. Says whether no reply so far was a refusal, this one with them.
pub(crate) fn put_answer<R: Threads + Sync, W: World>(
    rt: &R,
    alloc: Global,
    session: &mut Session<W>,
    spelled: Result<Command, Code>,
    so_far: bool,
) -> Result<bool, Halt>
    requires open { IsOpen (W.door (session_world session.old)) }
    requires ready { IsSessionReady session.old }
    requires spelled { IfOk spelled (λ command. Spelled (format_of session.old) (level_of session.old) command) }
    ensures ready { OnOk result (IsSessionReady session.new) }
    ensures later { W.faults (session_world session.old) ≤ W.faults (session_world session.new) }
    ensures device { IfErr result (λ e. e ≡ halts.Stopped stops.Device → Rose (W.faults (session_world session.old)) (W.faults (session_world session.new))) }
    ensures damaged { IfErr result (λ e. (page : ℕ) → e ≡ halts.Stopped (stops.Damaged page) → (s : State) → IsAt session.old s → ⊥) }
    ensures short { IfErr result (λ e. e ≡ halts.TooMuch → ⊥) }
    ensures door { W.door (session_world session.new) ≡ W.door (session_world session.old) }
    ensures level { OnOk result (level_of session.new ≡ level_of session.old) }
    ensures done { IfOk result (λ done. (item : Item) → form (format_of session.old) item ≡ spelled →
        (s : State) → IsAt session.old s → done ≡ (so_far && is_done (reply_to s item))) }
    ensures at { OnOk result ((item : Item) → form (format_of session.old) item ≡ spelled →
        (s : State) → IsAt session.old s → IsAt session.new (state_then s item)) }
    ensures changes { OnOk result ((item : Item) → form (format_of session.old) item ≡ spelled →
        (s : State) → IsAt session.old s → changes_of session.new ≡ changes_then s item (changes_of session.old)) }
    ensures said { OnOk result ((item : Item) → form (format_of session.old) item ≡ spelled →
        (s : State) → IsAt session.old s
        → Goes (Answers s item (changes_of session.old) (text_of (reply_to s item))) (W.told (session_world session.old)) (W.told (session_world session.new))) }
    ensures part { OnErr result ((item : Item) → form (format_of session.old) item ≡ spelled →
        (s : State) → IsAt session.old s
        → Goes (AnswersPrefix s item (changes_of session.old)) (W.told (session_world session.old)) (W.told (session_world session.new))) }
    ensures none { IfErr result (λ e. e ≡ halts.Stopped stops.Memory → (item : Item) → form (format_of session.old) item ≡ spelled →
        (s : State) → IsAt session.old s → Goes (PutsNone s) (W.told (session_world session.old)) (W.told (session_world session.new))) }
{
    let answer = answer_item(rt, alloc, session, spelled)?;
    put_reply(session, answer.text.bytes())?;
    Ok(so_far && answer.is_done)
}

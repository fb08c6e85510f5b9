ghost use Rattle.std.specs.Prelude.{◌≡◌, ℕ, Bool, ◌<◌, ◌≤◌, ◌+◌, ◌*◌, ◌^◌, [], length, string_bytes, if◌then◌else◌, IfOk, IfErr, OnOk};
ghost use Rattle.quilt_types.specs.declared.stop.Stop.TheVariants as stops;
ghost use Rattle.quilt_world.specs.Tale.{Goes};
ghost use Rattle.quilt_world.specs.Causes.{Rose};
ghost use Rattle.quilt_world.specs.Added.{AddsOnly, is_of_pages};
ghost use Rattle.quilt_world.specs.Doors.{IsOpen};
ghost use Rattle.quilt_words.specs.declared.item.Item.{Item};
ghost use Rattle.quilt_words.specs.Forms.{form, Spelled};
ghost use Rattle.quilt_words.specs.Items.{items_of};
ghost use Rattle.quilt_replies.specs.Answers.{State};
ghost use Rattle.quilt_replies.specs.Runs.{is_done};
ghost use Rattle.quilt_map.specs.Sessions.{session_world, format_of, level_of, changes_of, IsAt, IsSessionReady};
ghost use Rattle.quilt_trial.specs.Rest.{newlines};
ghost use Rattle.quilt_top.specs.declared.halt.Halt.TheVariants as halts;
ghost use Rattle.quilt_top.specs.Answering.{Applies};
ghost use Rattle.quilt_top.specs.Replies.{reply_to, state_then};
ghost use Rattle.quilt_top.specs.TextRun.{run_in};
ghost use Rattle.quilt_top.specs.Trying.{text_left, TriesCommands, Tried, trial_run, summary_of, TriesPrefix, TriesWhole};

use crate::answer::answer_item;
use crate::halt::Halt;
use crate::output::put_reply;
use crate::trial_items::TrialItems;
use quilt_lang::Command;
use quilt_map::Session;
use quilt_types::Code;
use quilt_world::World;
use std::alloc::{AllocError, Global};
use std::thread::Threads;

/// How many replies ended in ok, and how many were refusals.
#[derive(Clone, Copy)]
struct Tally {
    done: u64,
    refused: u64,
}

impl Tally {
    /// The tally with a reply more.
    fn with(self, is_done: bool) -> Tally
        requires { self.done + self.refused + 1 < 2 ^ 64 }
        ensures done { result.done ≡ self.done + (if is_done then 1 else 0) }
        ensures count { result.done + result.refused ≡ self.done + self.refused + 1 }
    {
        if is_done {
            Tally {
                done: self.done + 1,
                refused: self.refused,
            }
        } else {
            Tally {
                done: self.done,
                refused: self.refused + 1,
            }
        }
    }
}

/// Answers what an item spells and puts no reply. Says whether its reply is no refusal.
fn try_item<R: Threads + Sync, W: World>(
    rt: &R,
    alloc: Global,
    session: &mut Session<W>,
    spelled: Result<Command, Code>,
) -> Result<bool, Halt>
    requires ready { IsSessionReady session.old }
    requires spelled { IfOk spelled (λ command. Spelled (format_of session.old) (level_of session.old) command) }
    ensures ready { OnOk result (IsSessionReady session.new) }
    ensures done { IfOk result (λ done. (item : Item) → form (format_of session.old) item ≡ spelled →
        (s : State) → IsAt session.old s → done ≡ is_done (reply_to s item)) }
    ensures at { OnOk result ((item : Item) → form (format_of session.old) item ≡ spelled →
        (s : State) → IsAt session.old s → IsAt session.new (state_then s item)) }
    ensures level { OnOk result (level_of session.new ≡ level_of session.old) }
    ensures later { W.faults (session_world session.old) ≤ W.faults (session_world session.new) }
    ensures device { IfErr result (λ e. e ≡ halts.Stopped stops.Device → Rose (W.faults (session_world session.old)) (W.faults (session_world session.new))) }
    ensures damaged { IfErr result (λ e. (page : ℕ) → e ≡ halts.Stopped (stops.Damaged page) → (s : State) → IsAt session.old s → ⊥) }
    ensures short { IfErr result (λ e. e ≡ halts.TooMuch → ⊥) }
    ensures door { W.door (session_world session.new) ≡ W.door (session_world session.old) }
    ensures applies { (item : Item) → form (format_of session.old) item ≡ spelled →
        (s : State) → IsAt session.old s
        → Goes (Applies s item (changes_of session.old)) (W.told (session_world session.old)) (W.told (session_world session.new)) }
{
    let answer = answer_item(rt, alloc, session, spelled)?;
    Ok(answer.is_done)
}

/// Answers all items of the text of a trial and puts no reply. Tells how many replies of either sort there were.
fn try_items<R: Threads + Sync, W: World>(
    rt: &R,
    alloc: Global,
    items: &mut TrialItems,
    session: &mut Session<W>,
) -> Result<Tally, Halt>
    requires ready { IsSessionReady session.old }
    requires level { level_of session.old ≡ items.old.lines.level }
    requires few { newlines (text_left items.old) + 2 < 2 ^ 64 }
    ensures later { W.faults (session_world session.old) ≤ W.faults (session_world session.new) }
    ensures device { IfErr result (λ e. e ≡ halts.Stopped stops.Device → Rose (W.faults (session_world session.old)) (W.faults (session_world session.new))) }
    ensures damaged { IfErr result (λ e. (page : ℕ) → e ≡ halts.Stopped (stops.Damaged page) → (s : State) → IsAt session.old s → ⊥) }
    ensures short { IfErr result (λ e. e ≡ halts.TooMuch → ⊥) }
    ensures door { W.door (session_world session.new) ≡ W.door (session_world session.old) }
    ensures tries { (s : State) → IsAt session.old s
        → Goes (TriesCommands (run_in s (items_of items.old.lines.level (text_left items.old)))) (W.told (session_world session.old)) (W.told (session_world session.new)) }
    ensures counted { IfOk result (λ tally. tally.done + tally.refused ≡ length (items_of items.old.lines.level (text_left items.old))) }
    ensures tried { IfOk result (λ tally. (s : State) → IsAt session.old s → (now : State) × IsAt session.new now
        × Tried items.old.lines.level (text_left items.old) [] s now tally) }
{
    let mut tally = Tally {
        done: 0,
        refused: 0,
    };
    'items: while let Some(spelled) = items.take_command(session.head().format)? {
        let is_done = try_item(rt, alloc, session, spelled)?;
        tally = tally.with(is_done);
    }
    Ok(tally)
}

/// The four lines that a trial ends with.
fn summary(alloc: Global, tally: Tally, records: u32, edition: u32) -> Result<String, AllocError>
    ensures { IfOk result (λ text. string_bytes text ≡ summary_of tally.done tally.refused records edition) }
{
    let Tally { done, refused } = tally;
    format!(in alloc; "ok {done}\nno {refused}\nrecords {records}\nedition {edition}\n")
}

/// Runs the text of a trial in place of the input and puts a summary in place of the replies. Says whether no reply was a refusal.
/// After an Err a prefix of the summary was put, and nothing where memory was wanted; the session is only given up.
pub(crate) fn run_trial<R: Threads + Sync, W: World>(
    rt: &R,
    alloc: Global,
    session: &mut Session<W>,
    seed: u64,
    count: u32,
) -> Result<bool, Halt>
    requires open { IsOpen (W.door (session_world session.old)) }
    requires ready { IsSessionReady session.old }
    ensures later { W.faults (session_world session.old) ≤ W.faults (session_world session.new) }
    ensures device { IfErr result (λ e. e ≡ halts.Stopped stops.Device → Rose (W.faults (session_world session.old)) (W.faults (session_world session.new))) }
    ensures damaged { IfErr result (λ e. (page : ℕ) → e ≡ halts.Stopped (stops.Damaged page) → (s : State) → IsAt session.old s → ⊥) }
    ensures short { IfErr result (λ e. e ≡ halts.TooMuch → ⊥) }
    ensures door { W.door (session_world session.new) ≡ W.door (session_world session.old) }
    ensures front { (s : State) → IsAt session.old s → Goes (TriesPrefix (level_of session.old) (trial_run (level_of session.old) s seed count))
        (W.told (session_world session.old)) (W.told (session_world session.new)) }
    ensures whole { IfOk result (λ done. (s : State) → IsAt session.old s
        → Goes (TriesWhole (level_of session.old) (trial_run (level_of session.old) s seed count) done) (W.told (session_world session.old))
        (W.told (session_world session.new))) }
    ensures unsaid { IfErr result (λ e. e ≡ halts.Stopped stops.Memory → (s : State) → IsAt session.old s
        → Goes (AddsOnly is_of_pages) (W.told (session_world session.old)) (W.told (session_world session.new))) }
{
    let mut items = TrialItems::new(alloc, seed, count, session.head().level);
    let tally = try_items(rt, alloc, &mut items, session)?;
    let head = session.head();
    let text = summary(alloc, tally, head.records, head.edition)?;
    put_reply(session, text.as_bytes())?;
    Ok(tally.refused == 0)
}

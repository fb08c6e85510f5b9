ghost use Rattle.std.specs.Prelude.{◌≡◌, Some, drop, map, string_bytes, IfOk, IfSome};
ghost use Rattle.std.specs.Process.{exit_status};
ghost use Rattle.quilt_host.specs.Worlds.{IsUnasked};
ghost use Rattle.quilt_top.specs.Ends.{status_of};
ghost use Rattle.quilt_top.specs.Words.{asked_for};
ghost use Rattle.quilt.specs.Program.{Does, Runs, IfTold, order_of_call};

use crate::report::report;
use crate::room::has_room;
use quilt_host::{Failure, HostWorld, System};
use quilt_top::{End, run_quilt};
use std::alloc::{AllocError, Global};
use std::process::ExitCode;
use std::thread::Threads;

/// What a run of the program came to.
#[derive(Drop)]
pub(crate) struct Ran<S> {
    pub(crate) end: End,
    /// The exit status.
    pub(crate) code: ExitCode,
    /// Whether the line of the end, where it has one, was written to standard error.
    pub(crate) said: Result<(), Failure>,
    /// The system, as it is left.
    pub(crate) system: S,
}

/// The words behind the first, which is the program's name.
fn behind_first(words: &[String]) -> &[String]
    ensures { result.now ≡ drop 1 words.now }
{
    &words[words.len().min(1)..]
}

/// The words as texts.
fn texts_of<'a>(alloc: Global, words: &'a [String]) -> Result<Vec<&'a str>, AllocError>
    ensures { IfOk result (λ texts. map (λ t. t.now) texts.items ≡ map string_bytes words.entry.now) }
{
    let mut texts = Vec::new(alloc);
    for word in words {
        texts.push(word.as_str())?;
    }
    Ok(texts)
}

/// Does once what these texts ask for.
fn run_texts<'a, R: Threads + Sync, S: System>(
    rt: &R,
    alloc: Global,
    texts: &'a [&'a str],
    system: S,
) -> (End, S)
    requires { IfSome (S.told system) IsUnasked }
    ensures { IfTold (Does (asked_for (map (λ t. t.now) texts.entry.now)) result.0) (S.told system) (S.told result.1) }
{
    let (end, world) = run_quilt(rt, alloc, texts, HostWorld::new(system));
    (end, world.into_system())
}

/// Does what the words behind the first ask for.
fn run_words<R: Threads + Sync, S: System>(
    rt: &R,
    alloc: Global,
    words: &[String],
    system: S,
) -> (End, S)
    requires { IfSome (S.told system) IsUnasked }
    ensures { IfTold (Does (asked_for (drop 1 (map string_bytes words.now))) result.0) (S.told system) (S.told result.1) }
{
    let Ok(texts) = texts_of(alloc, behind_first(words)) else {
        return (End::Memory, system);
    };
    if !has_room(words.len(), texts.len()) {
        return (End::Memory, system);
    }
    run_texts(rt, alloc, &texts, system)
}

/// The exit status of an end.
fn code_of(end: End) -> ExitCode
    ensures { exit_status result ≡ status_of end }
{
    ExitCode::from(end.status())
}

/// Does what the words of the call ask for.
fn run_call<R: Threads + Sync, S: System>(rt: &R, alloc: Global, system: S) -> (End, S)
    requires { IfSome (S.told system) IsUnasked }
    ensures { IfTold (λ before. Does (order_of_call before.words) result.0 before) (S.told system) (S.told result.1) }
{
    let mut system = system;
    match system.words(alloc) {
        Ok(words) => run_words(rt, alloc, &words, system),
        // A word that is no text is in no table.
        Err(Failure::NotText) => (End::Usage, system),
        Err(_) => (End::Memory, system),
    }
}

/// Does what the words of the call ask for, and writes the line of its end to standard error. The status tells the end even where
/// its line cannot be written.
pub(crate) fn run<R: Threads + Sync, S: System>(rt: &R, alloc: Global, system: S) -> Ran<S>
    requires { IfSome (S.told system) IsUnasked }
    ensures code { exit_status result.code ≡ status_of result.end }
    ensures runs { IfTold (Runs result.end result.said) (S.told system) (S.told result.system) }
{
    let (end, mut system) = run_call(rt, alloc, system);
    let said = report(&mut system, end);
    Ran {
        end,
        code: code_of(end),
        said,
        system,
    }
}

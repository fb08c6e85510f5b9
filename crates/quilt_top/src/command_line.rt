ghost use Rattle.std.specs.Prelude.{◌≡◌, IfOk, map, All};
ghost use Rattle.std.specs.Str.{IsUtf8};
ghost use Rattle.clap.specs.Words.{app_of};
ghost use Rattle.quilt_top.specs.CommandLine.{reader, order_of_matches};
ghost use Rattle.quilt_top.specs.Words.{asked_for};

use clap::error::ErrorKind;
use clap::{Arg, ArgMatches, Command};
use std::alloc::{AllocError, Global};

/// The command that reads the words behind the program's name: four arguments, of which the last two may be missing, and the
/// option of the pool's size. It has no help and no version.
fn reader<'a>(alloc: Global) -> Result<Command<'a>, AllocError>
    ensures { IfOk result (λ c. app_of c ≡ reader) }
{
    Command::new(alloc, "quilt")
        .no_binary_name(true)
        .disable_help_flag(true)
        .arg(Arg::new(alloc, "mode").required(true))?
        .arg(Arg::new(alloc, "file").required(true))?
        .arg(Arg::new(alloc, "first"))?
        .arg(Arg::new(alloc, "second"))?
        .arg(Arg::new(alloc, "pool").long("pool"))
}

/// Says that a word is text. It does nothing when it runs.
fn is_text(word: &str)
    ensures { IsUtf8 word.now }
{
    let _ = word;
}

/// Says that each word is text. It does nothing when it runs.
fn are_texts(words: &[&str])
    ensures { All (λ w. IsUtf8 w.now) words.now }
{
    for word in words {
        is_text(word);
    }
}

/// What the command finds in the words, or `None` where it refuses them.
pub(crate) fn parsed<'a>(
    alloc: Global,
    words: &'a [&'a str],
) -> Result<Option<ArgMatches<'a>>, AllocError>
    ensures { IfOk result (λ m. order_of_matches m ≡ asked_for (map (λ w. w.now) words.entry.now)) }
{
    are_texts(words);
    match reader(alloc)?.try_get_matches_from(words) {
        Ok(matches) => Ok(Some(matches)),
        Err(error) => match error.kind() {
            ErrorKind::OutOfMemory => Err(AllocError),
            _ => Ok(None),
        },
    }
}

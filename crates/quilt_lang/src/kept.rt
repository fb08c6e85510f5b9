//! What is kept of a rest that waits for more: of its last line no more than shows that it is too long.
ghost use Rattle.std.specs.Prelude.{◌≡◌, false, [], IfOk};
ghost use Rattle.quilt_words.specs.Items.{whole_items};
ghost use Rattle.quilt_lang.specs.Reading.{begins_silent};
ghost use Rattle.quilt_lang.specs.Progress.{KeepsUnfinished, IsProgress, IsUncut, IsWaiting};

use crate::asked::further_asked;
use crate::first_line::newline_behind;
use crate::line_count::count_lines;
use crate::progress::{CutLines, Progress, Waiting};
use quilt_words::LINE_LIMIT;
use std::alloc::{AllocError, Global};

/// How far the bytes are cut that are kept of a rest whose whole items are all given, and how many they are.
pub fn kept_progress(
    alloc: Global,
    level: u8,
    rest: &[u8],
    progress: Progress,
) -> Result<Progress, AllocError>
    requires loud { begins_silent rest.now ≡ false }
    requires cut { IsProgress level progress rest.now }
    requires given { whole_items level rest.now ≡ [] }
    ensures { IfOk result (KeepsUnfinished level rest.now) }
{
    match progress {
        Progress::Waiting(waiting) => Ok(kept_waiting(level, rest, waiting)),
        Progress::Begun(scanned) => kept_begun(alloc, level, rest, scanned),
    }
}

/// The same where the line that begins the item is not cut yet, and so many bytes have no newline.
fn kept_begun(alloc: Global, level: u8, rest: &[u8], scanned: usize) -> Result<Progress, AllocError>
    requires loud { begins_silent rest.now ≡ false }
    requires cut { IsUncut scanned rest.now }
    requires given { whole_items level rest.now ≡ [] }
    ensures { IfOk result (KeepsUnfinished level rest.now) }
{
    let Some(line) = newline_behind(rest, scanned) else {
        return Ok(Progress::Begun(rest.len().min(LINE_LIMIT + 1)));
    };
    let what = further_asked(alloc, &rest[..line])?;
    let cut = CutLines::NONE;
    Ok(kept_waiting(level, rest, Waiting { line, what, cut }))
}

/// The same where it is cut.
fn kept_waiting(level: u8, rest: &[u8], waiting: Waiting) -> Progress
    requires cut { IsWaiting false level waiting rest.now }
    requires given { whole_items level rest.now ≡ [] }
    ensures { KeepsUnfinished level rest.now result }
{
    let Waiting { line, what, cut } = waiting;
    let CutLines {
        count,
        len,
        scanned,
    } = count_lines(level, what, &rest[line + 1..], cut);
    let scanned = what.enough_of(level, scanned);
    let cut = CutLines {
        count,
        len,
        scanned,
    };
    Progress::Waiting(Waiting { line, what, cut })
}

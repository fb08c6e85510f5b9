ghost use Rattle.std.specs.Prelude.{◌≡◌, ◌+◌, ◌*◌, ◌≤◌, [], IfOk, IfSome, MatchOption};
ghost use Rattle.quilt_words.specs.Items.{items_of};
ghost use Rattle.quilt_words.specs.Forms.{Spelled};
ghost use Rattle.quilt_lang.specs.Trials.{trial_text};
ghost use Rattle.quilt_trial.specs.Rest.{newlines};
ghost use Rattle.quilt_top.specs.Trying.{text_left, IsNextCommand};

use quilt_lang::{Command, Lines};
use quilt_trial::Trial;
use quilt_types::Code;
use std::alloc::{AllocError, Global};

/// The items of the text of a trial, one after another.
#[derive(Drop)]
pub(crate) struct TrialItems {
    trial: Trial,
    lines: Lines,
}

impl TrialItems {
    /// The items of the text of so many drawn lines over the square of this level. It takes no memory, and keeps the allocator.
    pub(crate) fn new(alloc: Global, seed: u64, count: u32, level: u8) -> TrialItems
        requires { level ≤ 63 }
        ensures level { result.lines.level ≡ level }
        ensures text { text_left result ≡ trial_text seed count level }
        ensures few { newlines (text_left result) ≤ 2 * count + 5 }
    {
        TrialItems {
            trial: Trial::new(alloc, seed, count, level),
            lines: Lines::new(alloc, level),
        }
    }

    /// What the next item spells in the format, or none where the text has no more.
    pub(crate) fn take_command(
        &mut self,
        format: u8,
    ) -> Result<Option<Result<Command, Code>>, AllocError>
        ensures level { self.new.lines.level ≡ self.old.lines.level }
        ensures given { IfOk result (λ found. MatchOption found (items_of self.old.lines.level (text_left self.old) ≡ [])
            (λ spelled. IsNextCommand self.old.lines.level format spelled (text_left self.old) (text_left self.new))) }
        ensures spelled { IfOk result (λ found. IfSome found (λ spelled. IfOk spelled (λ command. Spelled format self.old.lines.level command))) }
    {
        'lines: loop {
            if let Some(spelled) = self.lines.take_command(format, false)? {
                return Ok(Some(spelled));
            }
            let Some(line) = self.trial.next_line()? else {
                break;
            };
            self.lines.feed(line.bytes())?;
        }
        self.lines.take_command(format, true)
    }
}

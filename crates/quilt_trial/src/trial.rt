ghost use Rattle.std.specs.Prelude.{◌≡◌, ◌<◌, ◌≤◌, ◌==◌, ◌+◌, ◌*◌, ◌%◌, ◌^◌, ℕ, if◌then◌else◌, [], ◌++◌, IfOk, OnErr, MatchOption};
ghost use Rattle.quilt_types.specs.Plane.{side};
ghost use Rattle.quilt_lang.specs.Trials as trials;
ghost use Rattle.quilt_trial.specs.Rest.{IsNext, newlines, publish_line, rest_at};
ghost use Rattle.quilt_trial.specs.Drawing.{IsTextLine};

use crate::draws::draw_line;
use crate::generator::Generator;
use quilt_types::Text;
use std::alloc::{AllocError, Global};
use std::marker::Model;

/// What comes next in the text of a trial.
#[derive(Clone, Copy)]
pub enum Stage {
    /// The layers are made.
    First,
    Second,
    Third,
    Fourth,
    /// A line is drawn, or the last one comes.
    Drawing,
    /// The map is published.
    Publishing,
    Ended,
}

/// The line that comes next.
enum Next {
    /// One that is not drawn, and the stage behind it.
    Fixed(&'static [u8], Stage),
    Drawn,
    Ended,
}

/// A text of commands that are drawn. Contracts see what is left of it.
#[derive(Drop)]
pub struct Trial {
    alloc: Global,
    stage: Stage,
    /// How many lines are still to be drawn.
    left: u32,
    /// The number of the next one, from 1 on.
    next: u64,
    side: u64,
    generator: Generator,
}

impl Model for Trial {
    ghost use Rattle.std.specs.Prelude.{List, ℕ, ◌<◌, ◌≤◌, ◌+◌, ◌^◌};
    ghost use Rattle.quilt_trial.specs.Rest.{rest_at};

    ghost Value = { List ℕ };

    ghost view = { λ t. rest_at t.stage t.left t.next t.side t.generator.state };

    ghost invariant = { λ t. (0 < t.side) × (t.side ≤ 2 ^ 63) × (t.next + t.left < 2 ^ 33) };
}

impl Trial {
    /// The text of so many drawn lines over the square of this level. It has at most two lines for each of them, and five more.
    /// It takes no memory, and keeps the allocator.
    pub fn new(alloc: Global, seed: u64, count: u32, level: u8) -> Trial
        requires { level ≤ 63 }
        ensures text { result ≡ trials.trial_text seed count level }
        ensures few { newlines result ≤ 2 * count + 5 }
    {
        Trial {
            alloc,
            stage: Stage::First,
            left: count,
            next: 1,
            side: side_of(level),
            generator: Generator { state: seed },
        }
    }

    /// The next line with its newline, or none where the text has ended. An Err leaves it as it was.
    pub fn next_line(&mut self) -> Result<Option<Text>, AllocError>
        ensures given { IfOk result (λ found. MatchOption found ((self.old ≡ []) × (self.new ≡ []))
            (λ text. (self.old ≡ text ++ self.new) × IsTextLine text)) }
        ensures err { OnErr result (self.new ≡ self.old) }
    {
        match next_of(self.stage, self.left) {
            Next::Ended => Ok(None),
            Next::Fixed(line, stage) => {
                let mut text = Text::new(self.alloc);
                text.push(line)?;
                self.stage = stage;
                Ok(Some(text))
            }
            Next::Drawn => {
                let mut generator = self.generator;
                let text = draw_line(self.alloc, self.side, &mut generator)?;
                self.generator = generator;
                self.stage = stage_behind(self.next);
                self.left -= 1;
                self.next += 1;
                Ok(Some(text))
            }
        }
    }
}

/// The side of the square of a level.
#[tactic(auto, using(quilt_lang::proofs::Asking::near_side))]
fn side_of(level: u8) -> u64
    requires { level ≤ 63 }
    ensures is { result ≡ side level }
    ensures some { 0 < result }
    ensures few { result ≤ 2 ^ 63 }
{
    1 << level
}

/// What comes behind a drawn line of this number.
fn stage_behind(number: u64) -> Stage
    ensures { (left i s x : ℕ) → rest_at result left i s x ≡ (if number % 64 == 0 then publish_line else []) ++ trials.lines_from left i s x }
{
    if number % 64 == 0 {
        Stage::Publishing
    } else {
        Stage::Drawing
    }
}

/// The line that comes next, where so many lines are still to be drawn.
fn next_of(stage: Stage, left: u32) -> Next
    ensures { IsNext stage left result }
{
    match stage {
        Stage::First => Next::Fixed(b"region ta 0\n", Stage::Second),
        Stage::Second => Next::Fixed(b"region tb 0\n", Stage::Third),
        Stage::Third => Next::Fixed(b"points tp\n", Stage::Fourth),
        Stage::Fourth => Next::Fixed(b"lines tl 4\n", Stage::Drawing),
        Stage::Publishing => Next::Fixed(b"publish\n", Stage::Drawing),
        Stage::Drawing if left > 0 => Next::Drawn,
        Stage::Drawing => Next::Fixed(b"publish\n", Stage::Ended),
        Stage::Ended => Next::Ended,
    }
}

/// The whole text, which its lines are one after another.
pub fn trial_text(alloc: Global, seed: u64, count: u32, level: u8) -> Result<Text, AllocError>
    requires { level ≤ 63 }
    ensures { IfOk result (λ text. text ≡ trials.trial_text seed count level) }
{
    let mut trial = Trial::new(alloc, seed, count, level);
    let mut text = Text::new(alloc);
    while let Some(line) = trial.next_line()? {
        text.push(line.bytes())?;
    }
    Ok(text)
}

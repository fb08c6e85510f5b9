//! The command of the item at the front of a text, taken from where its lines lie.
ghost use Rattle.std.specs.Prelude.{◌≡◌, ◌+◌, ◌<◌, ◌≤◌, ℕ, false, [], List, None, Result, drop, length, map, IfOk, OnErr};
ghost use Rattle.quilt_types.specs.declared.code.Code.{Code};
ghost use Rattle.quilt_words.specs.declared.command.Command.{Command};
ghost use Rattle.quilt_words.specs.Items.{asked, held, whole_lines, words_of};
ghost use Rattle.quilt_words.specs.Forms.{form, form_of_words};
ghost use Rattle.quilt_words.specs.Made.{further_of, nothing_further, spelled_by};
ghost use Rattle.quilt_words.specs.Parsing.{IsParsedAs};
ghost use Rattle.quilt_lang.specs.Reading.{GivesCommand};
ghost use Rattle.quilt_lang.specs.Cutting.{IsAsked, further_count, grouped, holding};
ghost use Rattle.quilt_lang.specs.Progress.{IsFrontLine};

use crate::asked::Asked;
use crate::front::held_lines;
use crate::held::{points_in, rings_in, rows_in};
use quilt_types::{Code, Text};
use quilt_words::{
    Command, FurtherLines, LINE_LIMIT, ParseErr, few_words, is_plain_line, line_words, parse_line,
    parse_words,
};
use std::alloc::{AllocError, Global};

/// What a line spells that asks for no further lines. It takes no memory where the line has at most 8 words.
pub fn line_command(
    alloc: Global,
    format: u8,
    line: &[u8],
) -> Result<Result<Command, Code>, AllocError>
    ensures form { IfOk result (λ command. (n : ℕ) → asked n line.now ≡ 0 → form format (held format n (grouped line.now [])) ≡ command) }
    ensures memory { OnErr result (8 < length (words_of line.now)) }
{
    if line.len() > LINE_LIMIT {
        return Ok(Err(Code::Long));
    }
    if !is_plain_line(line) {
        return Ok(Err(Code::Bytes));
    }
    let few = few_words(line);
    match &few {
        Some(words) => Ok(words_command(format, words)),
        None => {
            let words = line_words(alloc, line)?;
            Ok(words_command(format, &words))
        }
    }
}

/// What the words of a line spell. It takes no memory.
#[inline(always)]
fn words_command(format: u8, words: &[&[u8]]) -> Result<Command, Code>
    ensures { form_of_words format nothing_further (map (λ w. w.now) words.now) ≡ result }
{
    let mut further = FurtherLines::none();
    parse_words(format, words, &mut further)
}

/// What the words of a line spell with these rows behind it. It takes no memory.
pub fn rows_command(format: u8, words: &[&[u8]], rows: Option<Text>) -> Result<Command, Code>
    ensures { form_of_words format (record { rows = rows; points = None; rings = None }) (map (λ w. w.now) words.now) ≡ result }
{
    let mut further = FurtherLines {
        rows,
        points: None,
        rings: None,
    };
    parse_words(format, words, &mut further)
}

/// What the item at the front spells, whose line has so many bytes and asks for this, and how many bytes all of its lines have.
pub fn front_command(
    alloc: Global,
    level: u8,
    format: u8,
    text: &[u8],
    line: usize,
    what: Asked,
    ended: bool,
) -> Result<(Result<Command, Code>, usize), AllocError>
    requires first { IsFrontLine ended level line what text.now }
    requires there { ended ≡ false → further_count level what ≤ length (whole_lines (drop (line + 1) text.now)) }
    ensures within { IfOk result (λ f. f.1 ≤ length text.now) }
    ensures gives { IfOk result (λ f. GivesCommand ended level format f.0 text.now (drop f.1 text.now)) }
{
    let (more, len) = held_lines(alloc, level, text, line, what, ended)?;
    let command = held_command(alloc, level, format, &text[..line], what, &more)?;
    Ok((command, len))
}

/// The command or the refusal, where memory did not run out.
fn answered(parsed: Result<Command, ParseErr>) -> Result<Result<Command, Code>, AllocError>
    ensures { IfOk result (λ command. (form : Result Command Code) → IsParsedAs parsed form → form ≡ command) }
{
    match parsed {
        Ok(command) => Ok(Ok(command)),
        Err(ParseErr::No(code)) => Ok(Err(code)),
        Err(ParseErr::Memory) => Err(AllocError),
    }
}

/// What a line spells with these further lines, where it asks for such.
fn held_command(
    alloc: Global,
    level: u8,
    format: u8,
    line: &[u8],
    what: Asked,
    more: &[&[u8]],
) -> Result<Result<Command, Code>, AllocError>
    requires { IsAsked level (asked level line.now) (words_of line.now) what }
    ensures { IfOk result (λ command. form format (held format level (grouped line.now (map (λ w. w.now) more.now))) ≡ command) }
{
    if line.len() > LINE_LIMIT {
        return Ok(Err(Code::Long));
    }
    let mut further = further_held(alloc, level, format, what, more)?;
    answered(parse_line(alloc, format, line, &mut further))
}

/// What these further lines spell for what is asked for, read in the format.
fn further_held(
    alloc: Global,
    level: u8,
    format: u8,
    what: Asked,
    more: &[&[u8]],
) -> Result<FurtherLines, AllocError>
    ensures { IfOk result (λ further. (line : List ℕ) → spelled_by further ≡ further_of (holding format level line (map (λ w. w.now) more.now) what)) }
{
    match what {
        Asked::Nothing => Ok(FurtherLines::none()),
        Asked::Rows => {
            let rows = rows_in(alloc, level, format, more)?;
            Ok(FurtherLines {
                rows,
                points: None,
                rings: None,
            })
        }
        Asked::Points(k) => {
            let points = points_in(alloc, k, more)?;
            Ok(FurtherLines {
                rows: None,
                points,
                rings: None,
            })
        }
        Asked::Rings(k) => {
            let rings = rings_in(alloc, k, more)?;
            Ok(FurtherLines {
                rows: None,
                points: None,
                rings,
            })
        }
    }
}

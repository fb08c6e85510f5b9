ghost use Rattle.std.specs.Prelude.{◌≡◌, ◌≢◌, ◌≤◌, ◌<◌, ℕ, length, map, Err, IfOk, IsErrOf};
ghost use Rattle.quilt_words.specs.Items.{Group, held, words_of};
ghost use Rattle.quilt_words.specs.Forms.{form_of_words, form_of_line, form, Spelled};
ghost use Rattle.quilt_words.specs.Made.{spelled_by};
ghost use Rattle.quilt_words.specs.Parsing.{IsParsedAs, WantsMemory};
ghost use Rattle.quilt_words.specs.declared.parse_err.ParseErr.TheVariants as errs;
ghost use Rattle.quilt_words.specs.Table.{IsFitting};

use crate::command::Word;
use crate::commands::command;
use crate::words::{few_words, is_plain_line, line_words};
use crate::{Command, FurtherLines, Item, ParseErr};
use quilt_types::Code;
use std::alloc::Global;

/// The command that an item spells in the format, or the first refusal of 13, 17, 1, 2, 3 and 4 that it has. It takes memory
/// only for what further lines spell, and where the line has more than 8 words.
#[tactic(auto, unfolding(crate::specs::Forms::form))]
pub fn parse(alloc: Global, format: u8, item: &Item) -> Result<Command, ParseErr>
    ensures form { IsParsedAs result (form format item.now) }
    ensures spelled { IfOk result (λ command. (n : ℕ) (group : Group) → held format n group ≡ item.now → Spelled format n command) }
    ensures fitting { IfOk result (λ command. (n : ℕ) (group : Group) → 1 ≤ format → format ≤ 2 → held format n group ≡ item.now →
        IsFitting format n command) }
    ensures memory { IsErrOf result errs.Memory → WantsMemory item.now }
{
    match item {
        Item::Long => Err(ParseErr::No(Code::Long)),
        Item::Line(line)
        | Item::Rows(line, _)
        | Item::PointLines(line, _)
        | Item::RingLines(line, _) => {
            let mut further = FurtherLines::of_item(alloc, item)?;
            parse_line(alloc, format, line.bytes(), &mut further)
        }
    }
}

/// The command that a line spells in the format with what its further lines spell, which goes into the command; or the first
/// refusal of 17, 1, 2, 3 and 4 that it has. It takes memory only where the line has more than 8 words.
pub fn parse_line(
    alloc: Global,
    format: u8,
    line: &[u8],
    further: &mut FurtherLines,
) -> Result<Command, ParseErr>
    ensures form { IsParsedAs result (form_of_line format line.now (spelled_by further.old)) }
    ensures memory { IsErrOf result errs.Memory → 8 < length (words_of line.now) }
{
    if !is_plain_line(line) {
        return Err(ParseErr::No(Code::Bytes));
    }
    match few_words(line) {
        Some(words) => answered(parse_words(format, &words, further)),
        None => {
            let words = line_words(alloc, line)?;
            answered(parse_words(format, &words, further))
        }
    }
}

/// The command or the refusal, where memory could have run out.
fn answered(parsed: Result<Command, Code>) -> Result<Command, ParseErr>
    ensures form { IsParsedAs result parsed }
    ensures memory { result ≢ Err errs.Memory }
{
    match parsed {
        Ok(command) => Ok(command),
        Err(code) => Err(ParseErr::No(code)),
    }
}

/// The same of the words of a line, of which the first is the command's. It takes no memory.
#[tactic(auto, unfolding(crate::specs::Forms::form_of_words))]
pub fn parse_words(format: u8, words: &[&[u8]], further: &mut FurtherLines) -> Result<Command, Code>
    ensures { form_of_words format (spelled_by further.old) (map (λ w. w.now) words.now) ≡ result }
{
    let [word, arguments @ ..] = words else {
        return Err(Code::Word);
    };
    let Some(known) = Word::of(word) else {
        return Err(Code::Word);
    };
    command(format, known, arguments, further)
}

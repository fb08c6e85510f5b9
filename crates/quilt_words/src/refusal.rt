ghost use Rattle.std.specs.Prelude.{◌≡◌, IfOk};
ghost use Rattle.quilt_words.specs.Parsing.{refusal};

use quilt_types::{Code, Text};
use std::alloc::{AllocError, Global};

/// The line `no NUMBER WORD` that refuses with this code.
pub fn refusal_text(alloc: Global, code: Code) -> Result<Text, AllocError>
    ensures { IfOk result (λ text. text ≡ refusal code) }
{
    let number = code.number();
    let word = code.word();
    let line = format!(in alloc; "no {number} {word}\n")?;
    let mut text = Text::new(alloc);
    text.push(line.as_bytes())?;
    Ok(text)
}

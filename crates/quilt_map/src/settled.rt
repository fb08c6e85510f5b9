ghost use Rattle.std.specs.Prelude.{◌≡◌, ℕ, List, ◌++◌, length, IfOk};
ghost use Rattle.quilt_types.specs.Layers.{Edition};
ghost use Rattle.quilt_words.specs.Items.{whole_items};
ghost use Rattle.quilt_replies.specs.Runs.{run};
ghost use Rattle.quilt_map.specs.Settled.{IsSettled, SettledLaw};

use quilt_lang::Lines;
use std::alloc::{AllocError, Global};

/// The replies to the whole items of a text stand, whatever text follows it.
pub fn settled_law()
    ensures law { SettledLaw }
{}

/// How many replies of a text that may go on are settled: those to its whole items, which are the same lines in either format.
/// Whatever follows, and from whatever edition it runs, the replies to the longer text begin with these.
/// It takes time and memory in the text's length.
pub fn settled_replies(alloc: Global, level: u8, text: &[u8]) -> Result<usize, AllocError>
    ensures whole { IfOk result (λ k. k ≡ length (whole_items level text.now)) }
    ensures front { IfOk result (λ k. (q : ℕ) (first : Edition) → first.level ≡ level → (more : List ℕ) →
        IsSettled k (run q first text.now) (run q first (text.now ++ more))) }
{
    let mut lines = Lines::new(alloc, level);
    let mut items = Vec::new(alloc);
    lines.feed(text)?;
    'items: while let Some(item) = lines.next_item(1, false)? {
        items.push(item)?;
    }
    Ok(items.len())
}

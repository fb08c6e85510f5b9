//! The further lines of an item, counted as they come.
ghost use Rattle.std.specs.Prelude.{◌≡◌, ◌<◌, ◌≤◌, ◌+◌, false, [], drop, length, take};
ghost use Rattle.quilt_words.specs.Items.{lines_of, whole_lines};
ghost use Rattle.quilt_lang.specs.Cutting.{CutsUpTo, further_count};
ghost use Rattle.quilt_lang.specs.Progress.{IsCount};

use crate::asked::Asked;
use crate::first_line::newline_behind;
use crate::progress::CutLines;

/// The whole lines at the front, as many as are asked for or as there are, counted on from those that are cut already.
pub fn count_lines(level: u8, what: Asked, text: &[u8], so_far: CutLines) -> CutLines
    requires { IsCount (further_count level what) so_far text.now }
    ensures is { IsCount (further_count level what) result text.now }
    ensures all { result.count < further_count level what → result.len + result.scanned ≡ length text.now }
    ensures stops { result.count < further_count level what → whole_lines (drop result.len text.now) ≡ [] }
{
    let mut cut = so_far;
    while !what.is_met(level, cut.count, false) {
        let rest = &text[cut.len..];
        let Some(k) = newline_behind(rest, cut.scanned) else {
            return CutLines {
                count: cut.count,
                len: cut.len,
                scanned: rest.len(),
            };
        };
        cut = CutLines {
            count: cut.count + 1,
            len: cut.len + k + 1,
            scanned: 0,
        };
    }
    cut
}

/// How many bytes the further lines have that stand at the front, which are all there, or as many as there are where the input has ended.
pub fn further_len(level: u8, what: Asked, text: &[u8], ended: bool) -> usize
    requires { ended ≡ false → further_count level what ≤ length (whole_lines text.now) }
    ensures within { result ≤ length text.now }
    ensures are { CutsUpTo ended (further_count level what) (take (further_count level what) (lines_of text.now)) text.now (drop result text.now) }
{
    let cut = count_lines(level, what, text, CutLines::NONE);
    if what.is_met(level, cut.count, !ended) {
        cut.len
    } else {
        text.len()
    }
}

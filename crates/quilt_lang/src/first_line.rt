ghost use Rattle.std.specs.Prelude.{◌≡◌, ◌<◌, ◌≤◌, ◌+◌, ℕ, false, [], ◌∷◌, length, take, drop, IfSome, MatchOption};
ghost use Rattle.quilt_words.specs.Items.{is_silent};
ghost use Rattle.quilt_lang.specs.Reading.{IsLine, IsNewlineFound, Gives, HasNone, begins_silent};
ghost use Rattle.quilt_lang.specs.Cutting.{Cuts, HasNoLine};
ghost use Rattle.quilt_lang.specs.Progress.{IsUncut, IsFirstLine};

use memchr::memchr;
use quilt_words::is_comment_line;

/// The index of the first newline. That it stands first, as it does where a line was looked at before, is tested without a search.
pub fn newline(bytes: &[u8]) -> Option<usize>
    ensures { IsNewlineFound bytes.now result }
{
    match bytes {
        [b'\n', ..] => Some(0),
        _ => memchr(b'\n', bytes),
    }
}

/// The index of the first newline, where so many bytes are known to have none.
pub fn newline_behind(bytes: &[u8], scanned: usize) -> Option<usize>
    requires { IsUncut scanned bytes.now }
    ensures { IsNewlineFound bytes.now result }
{
    match newline(&bytes[scanned..]) {
        Some(k) => Some(scanned + k),
        None => None,
    }
}

/// The first line of a text.
#[derive(Clone, Copy)]
pub enum FirstLine {
    /// It begins no item, and has so many bytes with its newline.
    Silent(usize),
    /// It begins an item or is not whole, and so many bytes have no newline.
    Begun(usize),
}

/// What the first line is, where so many bytes are known to have no newline.
fn first_of(text: &[u8], scanned: usize) -> FirstLine
    requires { IsUncut scanned text.now }
    ensures { IsFirstLine text.now result }
{
    let Some(k) = newline_behind(text, scanned) else {
        return FirstLine::Begun(text.len());
    };
    if is_comment_line(&text[..k]) {
        FirstLine::Silent(k + 1)
    } else {
        FirstLine::Begun(k)
    }
}

/// The number of bytes of the whole lines at the front that begin no item, and how many bytes behind them have no newline.
pub fn silent_front(text: &[u8], scanned: usize) -> (usize, usize)
    requires { IsUncut scanned text.now }
    ensures within { result.0 ≤ length text.now }
    ensures gives { (n : ℕ) → Gives false n [] text.now (drop result.0 text.now) }
    ensures loud { begins_silent (drop result.0 text.now) ≡ false }
    ensures uncut { IsUncut result.1 (drop result.0 text.now) }
{
    let mut from = 0;
    let mut known = scanned;
    loop {
        match first_of(&text[from..], known) {
            FirstLine::Silent(k) => {
                from += k;
                known = 0;
            }
            FirstLine::Begun(k) => return (from, k),
        }
    }
}

/// The number of bytes of the first line, which has its newline, or ends with the input.
pub fn first_line(text: &[u8], ended: bool) -> Option<usize>
    ensures found { MatchOption result (HasNoLine ended text.now)
        (λ k. Cuts ended (take k text.now ∷ []) text.now (drop (k + 1) text.now)) }
    ensures within { IfSome result (λ k. k ≤ length text.now) }
    ensures some { IfSome result (λ k. 0 < length text.now) }
{
    match newline(text) {
        Some(k) => Some(k),
        None => end_line(text, ended),
    }
}

/// The number of bytes of a line with no newline, where the input has ended.
fn end_line(text: &[u8], ended: bool) -> Option<usize>
    requires { IsLine text.now }
    ensures found { MatchOption result (HasNoLine ended text.now)
        (λ k. Cuts ended (take k text.now ∷ []) text.now (drop (k + 1) text.now)) }
    ensures within { IfSome result (λ k. k ≤ length text.now) }
    ensures some { IfSome result (λ k. 0 < length text.now) }
{
    if text.is_empty() {
        return None;
    }
    if !ended {
        return None;
    }
    Some(text.len())
}

/// The number of bytes of the next line that begins an item, where so many bytes are known to have no newline; the last line has
/// its newline, or ends with the input.
pub fn line_len(text: &[u8], scanned: usize, ended: bool) -> Option<usize>
    requires loud { begins_silent text.now ≡ false }
    requires cut { IsUncut scanned text.now }
    ensures found { MatchOption result (IsLine text.now × ((n : ℕ) → HasNone ended n text.now))
        (λ k. Cuts ended (take k text.now ∷ []) text.now (drop (k + 1) text.now)) }
    ensures loud { IfSome result (λ k. is_silent (take k text.now) ≡ false) }
    ensures within { IfSome result (λ k. k ≤ length text.now) }
    ensures whole { IfSome result (λ k. ended ≡ false → k < length text.now) }
    ensures front { IfSome result (λ k. ended ≡ false → Cuts false (take k text.now ∷ []) (take (k + 1) text.now) []) }
{
    match newline_behind(text, scanned) {
        Some(k) => Some(k),
        None => last_len(text, ended),
    }
}

/// The number of bytes of a last line that begins an item, where the input has ended.
fn last_len(text: &[u8], ended: bool) -> Option<usize>
    requires { IsLine text.now }
    ensures found { MatchOption result (IsLine text.now × ((n : ℕ) → HasNone ended n text.now))
        (λ k. Cuts ended (take k text.now ∷ []) text.now (drop (k + 1) text.now)) }
    ensures loud { IfSome result (λ k. is_silent (take k text.now) ≡ false) }
    ensures within { IfSome result (λ k. k ≤ length text.now) }
    ensures whole { IfSome result (λ k. ended ≡ false → k < length text.now) }
    ensures front { IfSome result (λ k. ended ≡ false → Cuts false (take k text.now ∷ []) (take (k + 1) text.now) []) }
{
    if !ended || is_comment_line(text) {
        return None;
    }
    Some(text.len())
}

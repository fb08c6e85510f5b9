ghost use Rattle.std.specs.Prelude.{◌≡◌, ◌==◌, ◌<◌, [], ◌∷◌, IfOk, IfSome, MatchOption, map, find, length, take, drop, nat_le, not, position};
ghost use Rattle.std.specs.List.{list_all, position_or_len};
ghost use Rattle.quilt_words.specs.Items.{words_of, is_plain, is_remark, is_silent};

use arrayvec::ArrayVec;
use std::alloc::{AllocError, Global};

/// The most bytes that a line may have.
pub const LINE_LIMIT: usize = 8320;

/// The index of the first byte of a line other than a space.
fn first_other(line: &[u8]) -> Option<usize>
    ensures { result ≡ position (λ c. not (c == 32)) line.now }
{
    line.iter().position(|c| *c != b' ')
}

/// The index of the first space of a line.
fn first_space(line: &[u8]) -> Option<usize>
    ensures { result ≡ position (λ c. c == 32) line.now }
{
    line.iter().position(|c| *c == b' ')
}

/// The line without the spaces that it begins with.
fn trimmed(line: &[u8]) -> &[u8]
    ensures { result.now ≡ drop (position_or_len (λ c. not (c == 32)) line.now) line.now }
{
    match first_other(line) {
        Some(k) => &line[k..],
        None => &line[line.len()..],
    }
}

/// The bytes of a line before its first space, and the others.
fn split_at_space(line: &[u8]) -> (&[u8], &[u8])
    ensures front { result.0.now ≡ take (position_or_len (λ c. c == 32) line.now) line.now }
    ensures back { result.1.now ≡ drop (position_or_len (λ c. c == 32) line.now) line.now }
{
    match first_space(line) {
        Some(k) => line.split_at(k),
        None => line.split_at(line.len()),
    }
}

/// The first word of a line, and what stands behind it.
pub fn first_word(line: &[u8]) -> Option<(&[u8], &[u8])>
    ensures is { MatchOption result (words_of line.now ≡ []) (λ w. words_of line.now ≡ w.0.now ∷ words_of w.1.now) }
    ensures shorter { IfSome result (λ w. length w.1.now < length line.now) }
{
    let rest = trimmed(line);
    if rest.is_empty() {
        return None;
    }
    Some(split_at_space(rest))
}

/// The words of a line, where they are at most 8. It takes no memory.
pub fn few_words(line: &[u8]) -> Option<ArrayVec<&[u8], 8>>
    ensures { MatchOption result (8 < length (words_of line.now)) (λ v. map (λ w. w.now) v.items ≡ words_of line.now) }
{
    let mut words = ArrayVec::new();
    let mut rest = line;
    while let Some((word, behind)) = first_word(rest) {
        if words.is_full() {
            return None;
        }
        words.push(word);
        rest = behind;
    }
    Some(words)
}

/// The words of a line.
pub fn line_words(alloc: Global, line: &[u8]) -> Result<Vec<&[u8]>, AllocError>
    ensures { IfOk result (λ v. map (λ w. w.now) v.items ≡ words_of line.now) }
{
    let mut words = Vec::new(alloc);
    let mut rest = line;
    while let Some((word, behind)) = first_word(rest) {
        words.push(word)?;
        rest = behind;
    }
    Ok(words)
}

/// Whether each byte is one that a line may have. Those of a short line are tested eight at a time: the last eight together,
/// whether some of them were tested before or not.
pub fn is_plain_line(line: &[u8]) -> bool
    ensures { result ≡ list_all is_plain line.now }
{
    if line.len() < 8 || line.len() > 32 {
        return are_plain(line);
    }
    let mut from = 0;
    while from + 8 < line.len() {
        if !are_plain(&line[from..from + 8]) {
            return false;
        }
        from += 8;
    }
    are_plain(&line[line.len() - 8..])
}

/// The same of some bytes. No byte is branched on, so that many are looked at at once.
fn are_plain(bytes: &[u8]) -> bool
    ensures { result ≡ list_all is_plain bytes.now }
{
    let mut most = 0_u8;
    for c in bytes {
        most = most.max(behind_space(*c));
    }
    most <= 94
}

/// How far a byte stands behind the space, round and round: at most 94 where a line may have it.
fn behind_space(c: u8) -> u8
    ensures { nat_le result 94 ≡ is_plain c }
{
    c.wrapping_sub(b' ')
}

/// The first byte of a line other than a space.
fn first_byte(line: &[u8]) -> Option<u8>
    ensures { result ≡ find (λ c. not (c == 32)) line.now }
{
    line.iter().copied().find(|c| *c != b' ')
}

/// Whether a line has no word, or a first word that begins with `#`.
fn is_comment(line: &[u8]) -> bool
    ensures { result ≡ is_remark (words_of line.now) }
{
    match first_byte(line) {
        None => true,
        Some(c) => c == b'#',
    }
}

/// Whether a line begins no item and has no reply.
pub fn is_comment_line(line: &[u8]) -> bool
    ensures { result ≡ is_silent line.now }
{
    is_comment(line) && line.len() <= LINE_LIMIT && is_plain_line(line)
}

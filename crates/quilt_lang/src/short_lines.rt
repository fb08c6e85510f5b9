//! Further lines that come whole in a piece: of each no more is kept than shows that it is too long.
ghost use Rattle.std.specs.Prelude.{◌≡◌, ◌<◌, ◌^◌, true, IfOk};
ghost use Rattle.quilt_lang.specs.Shortening.{IsShortened};

use crate::first_line::newline;
use std::alloc::{AllocError, Global};

/// Whether no line of a piece is too long behind an item that misses so many lines of at most so many bytes: then the piece may stay
/// as it is.
pub fn is_short(piece: &[u8], most: usize, missing: usize) -> bool
    requires { most < 2 ^ 63 }
    ensures { result ≡ true → IsShortened most missing piece.now piece.now }
{
    let mut from = 0;
    let mut left = missing;
    while left > 0 {
        let rest = &piece[from..];
        let Some(k) = newline(rest) else {
            return rest.len() <= most + 1;
        };
        if k > most + 1 {
            return false;
        }
        from += k + 1;
        left -= 1;
    }
    true
}

/// A piece behind an item that misses so many lines, of each of which no more than so many bytes and one are left.
pub fn shortened(
    alloc: Global,
    piece: &[u8],
    most: usize,
    missing: usize,
) -> Result<Vec<u8>, AllocError>
    requires { most < 2 ^ 63 }
    ensures { IfOk result (λ v. IsShortened most missing piece.now v.items) }
{
    let mut new = Vec::new(alloc);
    let mut from = 0;
    let mut left = missing;
    while left > 0 {
        let rest = &piece[from..];
        let Some(k) = newline(rest) else {
            new.extend_from_slice(&rest[..rest.len().min(most + 1)])?;
            return Ok(new);
        };
        new.extend_from_slice(&rest[..k.min(most + 1)])?;
        new.push(b'\n')?;
        from += k + 1;
        left -= 1;
    }
    new.extend_from_slice(&piece[from..])?;
    Ok(new)
}

ghost use Rattle.std.specs.Prelude.{◌≡◌, ◌+◌, ◌-◌, ◌*◌, ◌≤◌, ◌<◌, ◌++◌, take, drop, slice_range, length, replicate, map};
ghost use Rattle.std.specs.Int.{to_be_bytes, from_be_bytes, w16, w64};
ghost use Rattle.std.specs.Str.{bytes_eq};
ghost use Rattle.quilt_record.specs.Fits.{RecordFits, KeyFits};
ghost use Rattle.quilt_record.specs.Records.{record_bytes};
ghost use Rattle.quilt_node.specs.Pages.{short_at, word_at, key_at, record_at};
ghost use Rattle.quilt_node.specs.KeysIn.{key_number, FieldsFit};

use quilt_record::{Key, Record, key_bytes, key_of};

/// Zeros, to compare bytes with.
static ZEROS: [u8; 4096] = [0; 4096];

/// Puts the piece in at a place, and moves the bytes from there to `end` behind it.
pub fn put_in(bytes: &mut [u8; 4096], at: usize, end: usize, piece: &[u8])
    requires order { at ≤ end }
    requires room { end + length piece.now ≤ 4096 }
    ensures { bytes.new ≡ take at bytes.old ++ (piece.now ++ (slice_range bytes.old at end ++ drop (end + length piece.now) bytes.old)) }
{
    bytes.copy_within(at..end, at + piece.len());
    bytes[at..at + piece.len()].copy_from_slice(piece);
}

/// Takes `width` bytes out at a place, moves those behind them up to `end` there, and leaves zeros before `end`.
pub fn take_out(bytes: &mut [u8; 4096], at: usize, width: usize, end: usize)
    requires order { at + width ≤ end }
    requires room { end ≤ 4096 }
    ensures { bytes.new ≡ take at bytes.old ++ (slice_range bytes.old (at + width) end ++ (replicate width 0 ++ drop end bytes.old)) }
{
    bytes.copy_within(at + width..end, at);
    bytes[end - width..end].fill(0);
}

/// Writes the piece over the bytes at a place.
pub fn put_over(bytes: &mut [u8; 4096], at: usize, piece: &[u8])
    requires { at + length piece.now ≤ 4096 }
    ensures { bytes.new ≡ take at bytes.old ++ (piece.now ++ drop (at + length piece.now) bytes.old) }
{
    bytes[at..at + piece.len()].copy_from_slice(piece);
}

/// Writes zeros from a place to `end`.
pub fn clear(bytes: &mut [u8; 4096], at: usize, end: usize)
    requires order { at ≤ end }
    requires room { end ≤ 4096 }
    ensures { bytes.new ≡ take at bytes.old ++ (replicate (end - at) 0 ++ drop end bytes.old) }
{
    bytes[at..end].fill(0);
}

/// Whether the bytes from a place to `end` are all zero.
pub fn is_clear(bytes: &[u8; 4096], at: usize, end: usize) -> bool
    requires order { at ≤ end }
    requires room { end ≤ 4096 }
    ensures { result ≡ bytes_eq (slice_range bytes.now at end) (replicate (end - at) 0) }
{
    bytes[at..end] == ZEROS[..end - at]
}

/// The count that stands in the bytes 2 and 3 of a page.
pub fn count_in(bytes: &[u8; 4096]) -> u16
    ensures { result ≡ short_at bytes.now 2 }
{
    u16::from_be_bytes([bytes[2], bytes[3]])
}

/// Writes the count.
pub fn set_count(bytes: &mut [u8; 4096], n: u16)
    ensures { bytes.new ≡ take 2 bytes.old ++ (to_be_bytes w16 n ++ drop 4 bytes.old) }
{
    bytes[2..4].copy_from_slice(&n.to_be_bytes());
}

/// The key that stands at a place of a page.
pub fn key_in(bytes: &[u8; 4096], at: usize) -> Key
    requires { at + 12 ≤ 4096 }
    ensures key { result ≡ key_at bytes.now at }
    ensures fits { KeyFits result }
{
    let mut piece = [0; 12];
    piece.copy_from_slice(&bytes[at..at + 12]);
    key_of(&piece)
}

/// The record that stands at a place of a page.
pub fn record_in(bytes: &[u8; 4096], at: usize) -> Record
    requires { at + 28 ≤ 4096 }
    ensures { result ≡ record_at bytes.now at }
{
    let mut value = [0; 16];
    value.copy_from_slice(&bytes[at + 12..at + 28]);
    Record {
        key: key_in(bytes, at),
        value,
    }
}

/// The number that stands in the four bytes at a place of a page.
pub fn word_in(bytes: &[u8; 4096], at: usize) -> u32
    requires { at + 4 ≤ 4096 }
    ensures { result ≡ word_at bytes.now at }
{
    u32::from_be_bytes([bytes[at], bytes[at + 1], bytes[at + 2], bytes[at + 3]])
}

/// The number that stands in the eight bytes at a place of a page.
fn long_in(bytes: &[u8; 4096], at: usize) -> u64
    requires { at + 8 ≤ 4096 }
    ensures { result ≡ from_be_bytes w64 (slice_range bytes.now at (at + 8)) }
{
    u64::from_be_bytes([
        bytes[at],
        bytes[at + 1],
        bytes[at + 2],
        bytes[at + 3],
        bytes[at + 4],
        bytes[at + 5],
        bytes[at + 6],
        bytes[at + 7],
    ])
}

/// The key that stands at a place of a page, as one number: its first eight bytes above its last four.
pub fn number_in(bytes: &[u8; 4096], at: usize) -> u128
    requires { at + 12 ≤ 4096 }
    ensures number { result ≡ key_number (key_at bytes.now at) }
    ensures fits { FieldsFit (key_at bytes.now at) }
{
    u128::from(long_in(bytes, at)) * (1 << 64) + u128::from(word_in(bytes, at + 8))
}

/// A key as the same number.
pub fn number_of(k: &Key) -> u128
    ensures number { result ≡ key_number k.now }
    ensures fits { FieldsFit k.now }
{
    let front = u64::from(k.layer) * (1 << 48)
        + u64::from(k.part) * (1 << 40)
        + u64::from(k.code) * (1 << 8)
        + u64::from(k.depth);
    u128::from(front) * (1 << 64) + u128::from(k.item)
}

/// A record as its 28 bytes.
pub fn record_piece(r: &Record) -> [u8; 28]
    ensures bytes { result ≡ record_bytes r.now }
    ensures fits { RecordFits r.now }
{
    let mut piece = [0; 28];
    piece[..12].copy_from_slice(&key_bytes(&r.key));
    piece[12..].copy_from_slice(&r.value);
    piece
}

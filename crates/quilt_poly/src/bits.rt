ghost use Rattle.std.specs.Prelude.{◌≡◌, ℕ, ◌+◌, ◌-◌, ◌*◌, ◌/◌, ◌%◌, ◌^◌, ◌<◌, ◌≤◌, ◌==◌, ◌&&◌, nat_lt, min, length, slice_index, if◌then◌else◌, IsNone, IfSome};
ghost use Rattle.std.specs.Int.{bit_at};
ghost use Rattle.quilt_types.specs.declared.plane.Pixel.{Pixel as PixelValue};
ghost use Rattle.quilt_types.specs.Plane.{Holds, IsBlock};
ghost use Rattle.quilt_poly.specs.Bits.{strips, bit_in, sum_from, ones_right, next_bit, IsMarked, HasParities};

use quilt_types::Block;

/// Changes the bit of the pixel in column x and row y.
fn flip(words: &mut [u64], side: usize, y: usize, x: usize)
    requires side { side ≤ 4096 }
    requires room { length words.old ≡ strips side * side }
    requires in_x { x < side }
    requires in_y { y < side }
    ensures there { bit_in words.new side y x ≡ (bit_in words.old side y x + 1) % 2 }
    ensures elsewhere { (j i : ℕ) → j < side → i < 64 * strips side → (j ≡ y → i ≡ x → ⊥) → bit_in words.new side j i ≡ bit_in words.old side j i }
{
    words[x / 64 * side + y] ^= 1 << (x % 64);
}

/// The last of so many first columns that lies in the square.
fn last_column(count: usize, side: usize) -> usize
    requires some { 0 < count }
    requires wide { 0 < side }
    ensures { result + 1 ≡ min count side }
{
    count.min(side) - 1
}

/// Changes how many ones stand right of a pixel, from even to odd or back, at the first pixels of a row, so many of them.
pub(crate) fn mark_row(words: &mut [u64], side: usize, y: usize, column: usize)
    requires side { side ≤ 4096 }
    requires room { length words.old ≡ strips side * side }
    requires in_y { y < side }
    ensures { IsMarked side (λ p. p.y == y && nat_lt p.x column) words.old words.new }
{
    if column > 0 {
        flip(words, side, y, last_column(column, side));
    }
}

/// The word in which each bit is 1 where an odd number of ones stands at its place and above it.
fn odd_above(word: u64) -> u64
    ensures { (i : ℕ) → i < 64 → bit_at result i ≡ sum_from (bit_at word) i (64 - i) % 2 }
{
    let by_two = word ^ (word >> 1);
    let by_four = by_two ^ (by_two >> 2);
    let by_eight = by_four ^ (by_four >> 4);
    let by_sixteen = by_eight ^ (by_eight >> 8);
    let by_half = by_sixteen ^ (by_sixteen >> 16);
    by_half ^ (by_half >> 32)
}

/// The first bit of a row in the strip right of this one, and 0 where this is the last.
fn bit_right_of(words: &[u64], side: usize, strip: usize, y: usize) -> u64
    requires side { side ≤ 4096 }
    requires room { length words.now ≡ strips side * side }
    requires strip { strip < strips side }
    requires in_y { y < side }
    ensures { result ≡ next_bit words.now side y strip }
{
    let place = (strip + 1) * side + y;
    if place < words.len() {
        words[place] & 1
    } else {
        0
    }
}

/// Gives each bit of a row's word in a strip the parity of the ones at its place and right of it, where the next strip has
/// its own already.
fn settle_word(words: &mut [u64], side: usize, strip: usize, y: usize)
    requires side { side ≤ 4096 }
    requires room { length words.old ≡ strips side * side }
    requires strip { strip < strips side }
    requires in_y { y < side }
    ensures done { (i : ℕ) → i < 64 → bit_in words.new side y (64 * strip + i)
        ≡ (sum_from (bit_in words.old side y) (64 * strip + i) (64 - i) + next_bit words.old side y strip) % 2 }
    ensures kept { (k : ℕ) → (k ≡ strip * side + y → ⊥) → slice_index words.new k ≡ slice_index words.old k }
{
    let next = bit_right_of(words, side, strip, y);
    let place = strip * side + y;
    words[place] = odd_above(words[place] ^ (next << 63));
}

/// The same for each row of a strip.
fn settle_strip(words: &mut [u64], side: usize, strip: usize)
    requires side { side ≤ 4096 }
    requires room { length words.old ≡ strips side * side }
    requires strip { strip < strips side }
    ensures done { (y i : ℕ) → y < side → i < 64 → bit_in words.new side y (64 * strip + i)
        ≡ (sum_from (bit_in words.old side y) (64 * strip + i) (64 - i) + next_bit words.old side y strip) % 2 }
    ensures before { (k : ℕ) → k < strip * side → slice_index words.new k ≡ slice_index words.old k }
    ensures behind { (k : ℕ) → (strip + 1) * side ≤ k → slice_index words.new k ≡ slice_index words.old k }
{
    for y in 0..side {
        settle_word(words, side, strip, y);
    }
}

/// Gives each bit the parity of the ones of its row at its place and right of it, strip by strip from the right.
pub(crate) fn settle(words: &mut [u64], side: usize)
    requires side { side ≤ 4096 }
    requires room { length words.old ≡ strips side * side }
    ensures { HasParities side (λ p. ones_right words.old side p.y p.x) words.new }
{
    for strip in (0..(side + 63) / 64).rev() {
        settle_strip(words, side, strip);
    }
}

/// The bits of so many pixels of a row, from a column on, that stand in one word.
fn bits_from(words: &[u64], side: usize, y: usize, x: usize, count: u16) -> u64
    requires side { side ≤ 4096 }
    requires room { length words.now ≡ strips side * side }
    requires in_x { x < side }
    requires in_y { y < side }
    requires few { count ≤ 32 }
    requires one_word { x % 64 + count ≤ 64 }
    ensures bits { (j : ℕ) → j < count → bit_at result j ≡ bit_in words.now side y (x + j) }
    ensures small { result < 2 ^ count }
{
    (words[x / 64 * side + y] >> (x % 64)) & ((1 << count) - 1)
}

/// Whether so many bits are all 1, or None where they differ.
fn same_bits(bits: u64, count: u16) -> Option<bool>
    requires some { 0 < count }
    requires few { count ≤ 32 }
    requires small { bits < 2 ^ count }
    ensures some { IfSome result (λ one. (j : ℕ) → j < count → bit_at bits j ≡ (if one then 1 else 0)) }
    ensures none { IsNone result → 1 < count }
{
    if bits == 0 {
        Some(false)
    } else if bits == (1 << count) - 1 {
        Some(true)
    } else {
        None
    }
}

/// Whether the bits of all pixels of a block are 1, or None where they differ, and where there are more than 32 in a row.
pub(crate) fn one_bit(words: &[u64], side: usize, b: Block) -> Option<bool>
    requires side { side ≤ 4096 }
    requires room { length words.now ≡ strips side * side }
    requires valid { IsBlock 12 b }
    requires in_x { b.x + b.side ≤ side }
    requires in_y { b.y + b.side ≤ side }
    ensures some { IfSome result (λ inside. (p : PixelValue) → Holds b p → bit_in words.now side p.y p.x ≡ (if inside then 1 else 0)) }
    ensures none { IsNone result → 1 < b.side }
{
    if b.side > 32 {
        return None;
    }
    let (x, y) = (usize::from(b.x), usize::from(b.y));
    let first = bits_from(words, side, y, x, b.side);
    let inside = same_bits(first, b.side)?;
    for dy in 1..usize::from(b.side) {
        if bits_from(words, side, y + dy, x, b.side) != first {
            return None;
        }
    }
    Some(inside)
}

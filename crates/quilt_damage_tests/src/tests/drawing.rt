ghost use Rattle.std.specs.Prelude.{◌<◌, ◌≤◌};

use std::alloc::{AllocError, Global};

/// Numbers that are drawn one after another.
#[derive(Drop)]
pub struct Draw(pub u32);

impl Draw {
    /// A number below the bound, or 0 where the bound is 0.
    pub fn below(&mut self, bound: u32) -> u32
        ensures below { 0 < bound → result < bound }
        ensures most { result ≤ bound }
    {
        self.0 = self.0.wrapping_mul(1664525).wrapping_add(1013904223);
        if bound == 0 {
            return 0;
        }
        (self.0 >> 8) % bound
    }

    /// A number from the first up to the last, where that is not less.
    pub fn between(&mut self, first: u8, last: u8) -> u8 {
        let count = u32::from(last.saturating_sub(first)).wrapping_add(1);
        first.wrapping_add(u8::try_from(self.below(count)).unwrap_or(0))
    }

    /// A place in a list of this length: 0 where it is empty.
    pub fn place(&mut self, len: usize) -> usize {
        (self.below(1 << 24) as usize).checked_rem(len).unwrap_or(0)
    }

    /// One bit of eight.
    pub fn bit(&mut self) -> u8 {
        1_u8.wrapping_shl(self.below(8))
    }
}

/// The numbers from 1 up to this one, without it, in a drawn order.
pub fn shuffled(alloc: Global, draw: &mut Draw, end: u32) -> Result<Vec<u32>, AllocError> {
    let mut numbers = Vec::new(alloc);
    for number in 1..end {
        numbers.push(number)?;
    }
    let count = numbers.len();
    for i in 0..count {
        swap(&mut numbers, i, draw.place(count));
    }
    Ok(numbers)
}

/// Swaps two numbers of a list, where both places are there.
fn swap(numbers: &mut [u32], i: usize, j: usize) {
    if i < numbers.len() && j < numbers.len() {
        numbers.swap(i, j);
    }
}

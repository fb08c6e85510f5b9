ghost use Rattle.std.specs.Prelude.{◌≡◌, ◌≤◌, length, take, min};
ghost use Rattle.quilt_desk.specs.Sources.{SourceGives};

use crate::input::Input;

/// Where an input comes from: bytes that end, or one byte without end.
#[derive(Drop)]
pub(crate) enum Source {
    Bytes(Input),
    Endless(u8),
}

impl Source {
    /// Gives its next bytes, as many as there are and as fit, and says how many.
    pub(crate) fn take(&mut self, into: &mut [u8]) -> usize
        ensures within { result ≤ length into.old }
        ensures gives { SourceGives self.old (take result into.new) (length into.old) self.new }
    {
        match self {
            Source::Bytes(input) => {
                let left = input.left();
                let n = left.len().min(into.len());
                into[..n].copy_from_slice(&left[..n]);
                input.skip(n);
                n
            }
            Source::Endless(byte) => {
                into.fill(*byte);
                into.len()
            }
        }
    }
}

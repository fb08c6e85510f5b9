ghost use Rattle.std.specs.Prelude.{◌≡◌};

use quilt_types::Code;
use std::alloc::AllocError;

/// Why an item has no command: it is refused, or memory ran out.
#[derive(Clone, Copy, Debug, PartialEq, Eq)]
pub enum ParseErr {
    No(Code),
    Memory,
}

impl From<AllocError> for ParseErr {
    ghost use Rattle.quilt_words.specs.declared.parse_err.ParseErr.TheVariants as errs;

    ghost from_gives = { λ e r. r ≡ errs.Memory };

    fn from(_e: AllocError) -> ParseErr {
        ParseErr::Memory
    }
}

ghost use Rattle.std.specs.Prelude.{◌≡◌};
ghost use Rattle.quilt_types.specs.Plane.{IsBlock};
ghost use Rattle.quilt_loc.specs.Codes.{code_from, code_to};

use quilt_types::Block;

/// The code after the last one of the block, which begins at this code.
pub fn end_from(code: u32, b: Block) -> u32
    requires block { IsBlock 12 b }
    requires code { code ≡ code_from b }
    ensures { result ≡ code_to b }
{
    let side = u32::from(b.side);
    code + side * side
}

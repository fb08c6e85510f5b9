ghost use Rattle.std.specs.Prelude.{◌≡◌, ℕ, ◌/◌, ◌<◌, true, false, length, if◌then◌else◌, ◌==◌};
ghost use Rattle.quilt_types.specs.Bits.{has_bit};

/// Whether the bits list the page.
pub fn is_listed(bits: &[u8], page: u32) -> bool
    requires { page / 8 < length bits.now }
    ensures { result ≡ has_bit bits.now page }
{
    bits[page as usize / 8] >> (page % 8) & 1 == 1
}

/// Sets the page's bit.
pub fn list_page(bits: &mut [u8; 3750], page: u32)
    requires { page < 30000 }
    ensures { (j : ℕ) → has_bit bits.new j ≡ (if j == page then true else has_bit bits.old j) }
{
    bits[page as usize / 8] |= 1 << (page % 8);
}

/// Clears the page's bit.
pub fn unlist_page(bits: &mut [u8; 3750], page: u32)
    requires { page < 30000 }
    ensures { (j : ℕ) → has_bit bits.new j ≡ (if j == page then false else has_bit bits.old j) }
{
    bits[page as usize / 8] &= !(1 << (page % 8));
}

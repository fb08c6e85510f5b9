ghost use Rattle.std.specs.Prelude.{◌≡◌, ◌<◌, replicate};

/// Bytes of choice for a crash that leaves `N` pages: all of them 0, 1 or 7 for the numbers 0 to 2, and for each greater number
/// bytes from 0 to 2 that a rule mixes.
pub fn choices<const N: usize>(number: u8) -> [u8; N]
    ensures { number < 2 → result ≡ replicate N number }
{
    let mut choices = [if number == 2 { 7 } else { number % 2 }; N];
    if number > 2 {
        let mut next = number;
        for choice in &mut choices {
            next = next.wrapping_mul(5).wrapping_add(number);
            *choice = next / 16 % 3;
        }
    }
    choices
}

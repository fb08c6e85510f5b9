ghost use Rattle.std.specs.Prelude.{◌≡◌, ◌<◌, true};

/// How many bytes of stack the deepest way through the program takes, and some more.
const ROOM: usize = 240 * 1024;

/// Touches so many bytes of the stack. The places that are written and read are not known beforehand, so that no compiler leaves the bytes out.
#[inline(never)]
fn is_touched<const BYTES: usize>(written: usize, read: usize) -> bool
    requires { 0 < BYTES }
    ensures { result ≡ true }
{
    let mut room = [0_u8; BYTES];
    room[written % BYTES] = 1;
    room[read % BYTES] <= 1
}

/// Whether the stack has room for a run. What the deepest way takes is touched, so that a system which refuses it ends the program here, and not
/// while it works on a file. Any two numbers do.
pub(crate) fn has_room(written: usize, read: usize) -> bool
    ensures { result ≡ true }
{
    is_touched::<ROOM>(written, read)
}

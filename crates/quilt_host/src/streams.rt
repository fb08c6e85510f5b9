ghost use Rattle.std.specs.Prelude.{◌≡◌, ◌<◌, ◌≤◌, length, take, OnErr, IfOk};
ghost use Rattle.quilt_world.specs.Tale.{Goes};
ghost use Rattle.quilt_host.specs.Calls.{TakesInput, Puts};

use crate::failure::Failure;
use crate::system::System;

/// Takes the next bytes of the input. A read that a signal interrupts is taken up again.
pub(crate) fn take<S: System>(system: &mut S, into: &mut [u8]) -> Result<usize, Failure>
    requires { 0 < length into.old }
    ensures count { IfOk result (λ n. n ≤ length into.old) }
    ensures took { IfOk result (λ n. Goes (TakesInput (take n into.new)) (S.told system.old) (S.told system.new)) }
    ensures nothing { OnErr result (S.told system.new ≡ S.told system.old) }
{
    'tries: for _ in 0..u64::MAX {
        match system.take(into) {
            Err(Failure::Interrupted) => {}
            taken => return taken,
        }
    }
    Err(Failure::Other)
}

/// Puts a front of the bytes to the output, and says how many. A write that a signal interrupts is taken up again.
pub(crate) fn put<S: System>(system: &mut S, bytes: &[u8]) -> Result<usize, Failure>
    requires { 0 < length bytes.now }
    ensures count { IfOk result (λ n. (1 ≤ n) × (n ≤ length bytes.now)) }
    ensures put { IfOk result (λ n. Goes (Puts (take n bytes.now)) (S.told system.old) (S.told system.new)) }
    ensures nothing { OnErr result (S.told system.new ≡ S.told system.old) }
{
    'tries: for _ in 0..u64::MAX {
        match system.put(bytes) {
            Ok(0) => return Err(Failure::Other),
            Err(Failure::Interrupted) => {}
            written => return written,
        }
    }
    Err(Failure::Other)
}

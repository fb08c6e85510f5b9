ghost use Rattle.std.specs.Prelude.{◌≡◌, ◌⊎◌, ℕ, ◌^◌, ◌*◌, ◌<◌, ◌≤◌, length, take, drop, OnOk, OnErr, IfOk, IfSome};
ghost use Rattle.quilt_world.specs.Tale.{Goes};
ghost use Rattle.quilt_host.specs.Bytes.{page_at};
ghost use Rattle.quilt_host.specs.Calls.{Syncs};
ghost use Rattle.quilt_host.specs.Paging.{WritesPage, TearsPage};

use crate::failure::Failure;
use crate::system::System;

const PAGE_BYTES: u64 = 4096;

/// Writes a whole page of the file, piece behind piece, where the system takes less at once. A write that a signal
/// interrupts is taken up again.
pub(crate) fn write_page<S: System>(system: &mut S, i: u32, page: &[u8]) -> Result<(), Failure>
    requires { length page.now ≡ 4096 }
    ensures wrote { OnOk result (Goes (WritesPage i page.now) (S.told system.old) (S.told system.new)) }
    ensures tore { OnErr result (Goes (λ old new. TearsPage i old new ⊎ (new ≡ old)) (S.told system.old) (S.told system.new)) }
{
    let start = u64::from(i) * PAGE_BYTES;
    let mut done = 0;
    'pieces: for _ in 0..u64::MAX {
        match system.write_at(start + done as u64, &page[done..]) {
            Ok(0) => return Err(Failure::Other),
            Ok(n) => {
                done += n;
                if done == page.len() {
                    return Ok(());
                }
            }
            Err(Failure::Interrupted) => {}
            Err(failure) => return Err(failure),
        }
    }
    Err(Failure::Other)
}

/// Reads a whole page of the file, piece behind piece, where the system gives less at once. A read that a signal
/// interrupts is taken up again.
pub(crate) fn read_page<S: System>(system: &mut S, i: u32, into: &mut [u8]) -> Result<(), Failure>
    requires { length into.old ≡ 4096 }
    ensures nothing { S.told system.new ≡ S.told system.old }
    ensures bytes { OnOk result (IfSome (S.told system.old) (λ s. into.new ≡ page_at s.bytes i)) }
{
    let start = u64::from(i) * PAGE_BYTES;
    let mut done = 0;
    'pieces: for _ in 0..u64::MAX {
        if done == into.len() {
            return Ok(());
        }
        match system.read_at(start + done as u64, &mut into[done..]) {
            Ok(0) => return Err(Failure::Other),
            Ok(n) => done += n,
            Err(Failure::Interrupted) => {}
            Err(failure) => return Err(failure),
        }
    }
    Err(Failure::Other)
}

/// Makes sure that all that was written so far is on the disk. The length of the file has been there since it was made.
pub(crate) fn sync_pages<S: System>(system: &mut S) -> Result<(), Failure>
    ensures synced { OnOk result (Goes Syncs (S.told system.old) (S.told system.new)) }
    ensures nothing { OnErr result (S.told system.new ≡ S.told system.old) }
{
    system.sync_data()
}

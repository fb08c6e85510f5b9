ghost use Rattle.std.specs.Prelude.{◌≡◌, ◌⊎◌, ◌<◌, ◌≤◌, [], ◌∷◌, OnOk, OnErr, IfSome};
ghost use Rattle.quilt_world.specs.Tale.{Adds, Goes};
ghost use Rattle.quilt_world.specs.Causes.{HasCause};
ghost use Rattle.quilt_world.specs.Doors.{KeepsDevice};
ghost use Rattle.quilt_world.specs.declared.event.Event.TheVariants.{Wrote, Tore, Synced};
ghost use Rattle.quilt_edition.specs.Creating.{HasMapSize, IsBlank, Creates, IsCreated};

use crate::pages::{header_page, label_page};
use quilt_world::{Disk, Fault, HOME_AT, LABEL_AT};

/// Writes a page, and makes sure that it is on the disk.
fn write_synced<D: Disk>(disk: &mut D, i: u32, bytes: &[u8; 4096]) -> Result<(), Fault>
    requires { i < D.size disk.old }
    ensures cause { HasCause (D.faults disk.old) (D.faults disk.new) result }
    ensures device { KeepsDevice D.size D.door disk.old disk.new }
    ensures wrote { OnOk result (Goes (Adds (Wrote i bytes.now ∷ Synced ∷ [])) (D.told disk.old) (D.told disk.new)) }
    ensures failed { OnErr result (Goes (λ old new. Adds [] old new ⊎ Adds (Tore i ∷ []) old new ⊎ Adds (Wrote i bytes.now ∷ []) old new)
        (D.told disk.old) (D.told disk.new)) }
{
    disk.write_page(i, bytes)?;
    disk.sync()
}

/// Makes a file of zero pages a map file of edition 0 in format 1, with no layer, at a level from 1 to 12.
/// The label comes last, so a file that was not finished is no map file. It takes no memory.
pub fn create<D: Disk>(disk: &mut D, level: u8) -> Result<(), Fault>
    requires size { HasMapSize (D.size disk.old) }
    requires level { (1 ≤ level) × (level ≤ 12) }
    requires blank { IfSome (D.told disk.old) IsBlank }
    ensures cause { HasCause (D.faults disk.old) (D.faults disk.new) result }
    ensures device { KeepsDevice D.size D.door disk.old disk.new }
    ensures crash { Goes (Creates level) (D.told disk.old) (D.told disk.new) }
    ensures created { OnOk result (IfSome (D.told disk.new) (IsCreated level)) }
{
    write_synced(disk, HOME_AT, &header_page(level))?;
    write_synced(disk, LABEL_AT, &label_page())
}

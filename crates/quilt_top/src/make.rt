ghost use Rattle.std.specs.Prelude.{◌≡◌, ◌≢◌, ◌≤◌, Some, [], IfOk, IfSome, string_bytes};
ghost use Rattle.quilt_world.specs.Causes.{Rose};
ghost use Rattle.quilt_world.specs.Tale.{taken_bytes};
ghost use Rattle.quilt_world.specs.declared.disk.Door.TheVariants as doors;
ghost use Rattle.quilt_top.specs.declared.run.End.TheVariants as ends;
ghost use Rattle.quilt_top.specs.Words.{New};
ghost use Rattle.quilt_top.specs.Headline.{KeepsPromises, WhereTold, HasEndCause, new_line};
ghost use Rattle.quilt_top.specs.Stronger.{KeepsMore};

use crate::orders::NewFile;
use crate::output::put_all;
use crate::run::End;
use quilt_edition::create;
use quilt_world::{Made, World, file_pages};
use std::alloc::{AllocError, Global};

/// The line that tells of a new file.
fn new_line(alloc: Global, pages: u32, level: u8) -> Result<String, AllocError>
    ensures { IfOk result (λ line. string_bytes line ≡ new_line pages level) }
{
    format!(in alloc; "new {pages} pages level {level}\n")
}

/// Makes a map file of so many home pages, from 16 to 30000, and of a level from 1 to 12, and puts its line.
fn make_map<W: World>(world: &mut W, path: &str, pages: u32, level: u8, line: &[u8]) -> End
    requires door { W.door world.old ≡ doors.Shut }
    requires pages { (16 ≤ pages) × (pages ≤ 30000) }
    requires level { (1 ≤ level) × (level ≤ 12) }
    requires line { line.now ≡ new_line pages level }
    ensures cause { HasEndCause (Some (New path.now pages level)) (W.faults world.old) (W.faults world.new) (W.door world.new) result }
    ensures usage { result ≢ ends.Usage }
    ensures promises { WhereTold (KeepsPromises (Some (New path.now pages level)) (Rose (W.faults world.old) (W.faults world.new)) (W.door world.new) result)
        (W.told world.old) (W.told world.new) }
    ensures open { W.door world.new ≢ doors.Shut }
    ensures memory { result ≢ ends.Memory }
    ensures more { WhereTold (KeepsMore (Some (New path.now pages level)) (W.door world.new) result) (W.told world.old) (W.told world.new) }
{
    let Ok(made) = world.make(path, file_pages(pages)) else {
        return End::Device;
    };
    match made {
        Made::Ready => {}
        Made::Taken => return End::Taken,
    }
    let Ok(()) = create(world, level) else {
        return End::Device;
    };
    let Ok(()) = put_all(world, line) else {
        return End::Device;
    };
    End::Done
}

/// Makes the file that the words ask for.
pub(crate) fn new_file<W: World>(alloc: Global, world: W, file: NewFile) -> (End, W)
    requires door { W.door world ≡ doors.Shut }
    requires untaken { IfSome (W.told world) (λ t. taken_bytes t.log ≡ []) }
    ensures cause { HasEndCause (Some (New file.entry.path.now file.entry.pages file.entry.level)) (W.faults world) (W.faults result.1)
        (W.door result.1) result.0 }
    ensures usage { result.0 ≢ ends.Usage }
    ensures promises { WhereTold
        (KeepsPromises (Some (New file.entry.path.now file.entry.pages file.entry.level)) (Rose (W.faults world) (W.faults result.1))
        (W.door result.1) result.0)
        (W.told world) (W.told result.1) }
    ensures shut { W.door result.1 ≡ doors.Shut → result.1 ≡ world }
    ensures more { WhereTold (KeepsMore (Some (New file.entry.path.now file.entry.pages file.entry.level)) (W.door result.1) result.0)
        (W.told world) (W.told result.1) }
{
    // The line is there before the file, so that no refused memory leaves a file half made.
    let Ok(line) = new_line(alloc, file.pages, file.level) else {
        return (End::Memory, world);
    };
    let mut world = world;
    let end = make_map(
        &mut world,
        file.path,
        file.pages,
        file.level,
        line.as_bytes(),
    );
    (end, world)
}

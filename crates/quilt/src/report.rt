ghost use Rattle.std.specs.Prelude.{◌≡◌, ◌≢◌, [], ◌++◌, OnOk, OnErr, IsOk, codes, decimal};
ghost use Rattle.quilt_world.specs.Tale.{Goes};
ghost use Rattle.quilt_host.specs.Calls.{SaysLine, SaysFront};
ghost use Rattle.quilt.specs.Program.{line_of};

use arrayvec::ArrayString;
use itoa::Buffer;
use quilt_host::{Failure, System};
use quilt_top::End;

/// The line of the end over a damaged file.
fn damage_line(page: u32) -> ArrayString<32>
    ensures { result.bytes ≡ codes "quilt: damaged page " ++ decimal page }
{
    let mut number = Buffer::new();
    let mut line = ArrayString::new();
    line.push_str("quilt: damaged page ");
    line.push_str(number.format(page));
    line
}

/// Writes the line of an end, where it has one, to standard error.
pub(crate) fn report<S: System>(system: &mut S, end: End) -> Result<(), Failure>
    ensures none { line_of end ≡ [] → S.told system.new ≡ S.told system.old }
    ensures well { line_of end ≡ [] → IsOk result }
    ensures said { line_of end ≢ [] → OnOk result (Goes (SaysLine (line_of end)) (S.told system.old) (S.told system.new)) }
    ensures front { OnErr result (Goes (SaysFront (line_of end)) (S.told system.old) (S.told system.new)) }
{
    match end {
        End::Done | End::Refused => Ok(()),
        End::Usage => system.say("quilt: usage"),
        End::Device => system.say("quilt: device fault"),
        End::Memory => system.say("quilt: out of memory"),
        End::NotMap => system.say("quilt: not a map file"),
        End::Missing => system.say("quilt: no such file"),
        End::Taken => system.say("quilt: file exists"),
        End::TooMuch => system.say("quilt: input too long"),
        End::Damaged { page } => system.say(damage_line(page).as_str()),
    }
}

ghost use Rattle.std.specs.Prelude.{◌≡◌, ◌+◌, ◌*◌, ◌≤◌, IfSome};
ghost use Rattle.quilt_journal.specs.Beginning.{NoneFree};
ghost use Rattle.quilt_journal.specs.Kept.{IsIdle, IsKept};
ghost use Rattle.quilt_journal.specs.declared.journal.State.TheVariants.{Idle};

use crate::calls::crashed;
use quilt_desk::{Desk, choices};
use quilt_journal::{Begun, Journal};
use quilt_world::{Disk, Fault, Image};
use std::alloc::Global;
use std::test::Fail;

/// The work on the journal of a file.
#[derive(Clone, Copy)]
pub enum Work {
    /// The first byte of each of the first 16 pages is read.
    Read,
    /// The pages 0, 5 and 15 are filled with 9, and published.
    Publish,
}

/// What opening a file, and the work on its journal, comes to.
#[derive(Clone, Copy, PartialEq)]
pub enum Outcome {
    /// The first byte of each of the first 16 pages.
    Read([u8; 16]),
    Published,
    NotMap,
    Stopped,
}

/// The first byte of each of the first 16 pages of the work.
fn marks<D: Disk>(journal: &Journal, disk: &mut D) -> Result<[u8; 16], Fault>
    requires least { 16 ≤ journal.now.pages }
    requires size { D.size disk.old ≡ 3 + 2 * journal.now.pages }
    requires kept { IfSome (D.told disk.old) (IsKept journal.now.state journal.now.pages journal.now.changed) }
{
    let mut marks = [0; 16];
    for i in 0..16 {
        let mut page = [0; 4096];
        journal.read_page(disk, i, &mut page)?;
        marks[i as usize] = page[0];
    }
    Ok(marks)
}

/// Publishes the pages 0, 5 and 15, filled with this byte.
fn publish_three<D: Disk>(journal: &mut Journal, disk: &mut D, byte: u8) -> Result<(), Fault>
    requires least { 16 ≤ journal.old.pages }
    requires idle { journal.old.state ≡ Idle }
    requires size { D.size disk.old ≡ 3 + 2 * journal.old.pages }
    requires kept { IfSome (D.told disk.old) (IsIdle journal.old.pages journal.old.changed) }
{
    let bytes = [byte; 4096];
    journal.write_slot(disk, 0, &bytes)?;
    journal.write_slot(disk, 5, &bytes)?;
    journal.write_slot(disk, 15, &bytes)?;
    journal.seal(disk)?;
    journal.carry_home(disk)?;
    journal.unseal(disk)
}

/// Opens the journal of a file, and does the work on it.
fn does<D: Disk>(disk: &mut D, work: Work) -> Result<Outcome, Fault>
    requires { IfSome (D.told disk.old) NoneFree }
{
    match (Journal::begin(disk)?, work) {
        (Begun::Journal(journal), Work::Read) => Ok(Outcome::Read(marks(&journal, disk)?)),
        (Begun::Journal(mut journal), Work::Publish) => {
            publish_three(&mut journal, disk, 9)?;
            Ok(Outcome::Published)
        }
        (Begun::NotMap, _) => Ok(Outcome::NotMap),
    }
}

/// Opens a file of which the call of this number fails, and does work on its journal. It gives what that comes to, and the desk as it
/// leaves it.
#[tactic(auto, using(quilt_journal::proofs::Begins::none_free_fresh))]
pub fn opened(
    alloc: Global,
    file: Image,
    failing: u64,
    work: Work,
) -> Result<(Outcome, Desk), Fail> {
    match Desk::opened(alloc, file, failing)? {
        Some(mut desk) => {
            let outcome = does(&mut desk, work).unwrap_or(Outcome::Stopped);
            Ok((outcome, desk))
        }
        None => Err(Fail::from("no desk")),
    }
}

/// What opening a file comes to.
pub fn reopened(alloc: Global, file: Image) -> Result<Outcome, Fail> {
    let (outcome, _) = opened(alloc, file, 0, Work::Read)?;
    Ok(outcome)
}

/// The file of 35 pages that a stop after so many events leaves, by the choice of this number.
pub fn left(desk: &Desk, events: usize, choice: u8) -> Result<Image, Fail> {
    let choice: [u8; 35] = choices(choice);
    match crashed(desk, events, &choice)? {
        Some(file) => Ok(file),
        None => Err(Fail::from("no stop")),
    }
}

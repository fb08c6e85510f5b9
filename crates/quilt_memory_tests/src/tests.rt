ghost use Rattle.std.specs.Prelude.{IfOk, IfSome};
ghost use Rattle.quilt_host.specs.Worlds.{IsUnasked};

use quilt_host::{HostWorld, System};
use quilt_memory::Memory;
use quilt_world::{Attached, Disk, Fault, Made, World};
use std::alloc::{AllocError, Global};
use std::test::Fail;

/// A world over a system in memory with no file, a signal at every third call that one can interrupt, and short pieces.
fn rough(alloc: Global) -> Result<Memory, AllocError>
    ensures { IfOk result (λ m. IfSome (⟦<Memory as System>⟧.told m) IsUnasked) }
{
    let mut system = Memory::new(alloc, &["quilt"], "m", None, b"ab")?;
    system.interrupt_every(3);
    system.piece(1500);
    Ok(system)
}

#[test]
fn moves_whole_pages_in_pieces(rt: HostRuntime) -> Result<(), Fail> {
    let mut world = HostWorld::new(rough(rt.alloc())?);
    assert!(rt; world.make("m", 3) == Ok(Made::Ready));
    assert!(rt; world.pages() == 3);
    assert!(rt; world.write_page(1, &[7; 4096]).is_ok());
    let mut page = [1; 4096];
    assert!(rt; world.read_page(1, &mut page).is_ok());
    assert_eq!(rt; page, [7; 4096]);
    assert!(rt; world.read_page(2, &mut page).is_ok());
    assert_eq!(rt; page, [0; 4096]);
    Ok(())
}

#[test]
fn takes_and_puts_through_signals(rt: HostRuntime) -> Result<(), Fail> {
    let mut world = HostWorld::new(rough(rt.alloc())?);
    let Ok(Made::Ready) = world.make("m", 1) else {
        panic!(rt; "no file was made");
    };
    let mut bytes = [0; 8];
    assert!(rt; world.take(&mut bytes) == Ok(2));
    assert!(rt; world.take(&mut bytes) == Ok(0));
    assert!(rt; world.put(b"ok") == Ok(2));
    assert_eq!(rt; world.into_system().output(), b"ok".as_slice());
    Ok(())
}

#[test]
fn leaves_no_part_of_a_file(rt: HostRuntime) -> Result<(), Fail> {
    for call in 1..40_u64 {
        let mut system = rough(rt.alloc())?;
        system.fail_at(call)?;
        let mut world = HostWorld::new(system);
        let made = world.make("m", 3);
        let system = world.into_system();
        assert_eq!(rt;
            system.file().is_some(),
            made == Ok(Made::Ready),
            "where call {call} fails"
        );
    }
    Ok(())
}

#[test]
fn tells_of_a_full_disk_at_once(rt: HostRuntime) -> Result<(), Fail> {
    for room in 0..4_usize {
        let mut system = rough(rt.alloc())?;
        system.room(room * 4096);
        let mut world = HostWorld::new(system);
        let made = world.make("m", 3);
        assert!(rt; (made == Ok(Made::Ready)) == (room == 3));
        assert!(rt; world.into_system().file().is_some() == (room == 3));
    }
    Ok(())
}

#[test]
fn reads_alone_what_may_not_be_written(rt: HostRuntime) -> Result<(), Fail> {
    let mut system = Memory::new(rt.alloc(), &[], "m", Some(&[7; 4096]), b"")?;
    system.forbid_writing();
    let mut world = HostWorld::new(system);
    assert!(rt; world.attach("m") == Ok(Attached::Ready));
    let mut page = [0; 4096];
    assert!(rt; world.pages() == 1);
    assert!(rt; world.read_page(0, &mut page).is_ok());
    assert_eq!(rt; page, [7; 4096]);
    assert!(rt; world.write_page(0, &[8; 4096]) == Err(Fault));
    assert!(rt; world.sync() == Err(Fault));
    Ok(())
}

use crate::calls::{gives, keeps, pages_of, put};
use quilt_desk::Calm;
use quilt_world::{Attached, Fault, Image, Made, World};
use std::alloc::{AllocError, Global};
use std::process::Abort;
use std::test::Fail;

/// A calm world with room for three pages and this input, and what it answers to making a file of so many.
fn made(
    alloc: Global,
    input: &[u8],
    pages: u32,
) -> Result<(Result<Made, Fault>, Calm), AllocError> {
    let mut calm = Calm::new(alloc, "m", None, 3, input)?;
    let answer = calm.make("m", pages);
    Ok((answer, calm))
}

/// How many bytes have been put.
fn written_by(calm: &Calm) -> u64 {
    calm.written()
}

/// Each call on a file of two pages and the input `ab`.
fn serves(rt: &impl Abort, calm: &mut Calm) {
    assert!(rt; pages_of(calm) == 2);
    assert!(rt; keeps(calm, 1, 5));
    assert!(rt; gives(calm, 2, b"ab\0"));
    assert!(rt; put(calm, b"xyz") == Ok(3));
    assert!(rt; written_by(calm) == 3);
}

#[test]
fn serves_each_call(rt: HostRuntime) -> Result<(), Fail> {
    let (answer, mut calm) = made(rt.alloc(), b"ab", 2)?;
    assert!(rt; answer == Ok(Made::Ready));
    serves(&rt, &mut calm);
    Ok(())
}

#[test]
fn makes_no_more_than_its_room(rt: HostRuntime) -> Result<(), Fail> {
    let (answer, _) = made(rt.alloc(), b"", 4)?;
    assert!(rt; answer == Ok(Made::Taken));
    Ok(())
}

/// A calm world whose input is `#` without end, and what it answers to opening its file of two pages.
fn endless(alloc: Global) -> Result<(Result<Attached, Fault>, Calm), AllocError> {
    let file = Image::new(alloc, 2)?;
    let mut calm = Calm::endless(alloc, "m", Some(file), b'#')?;
    let answer = calm.attach("m");
    Ok((answer, calm))
}

/// Its input does not end.
fn gives_twice(rt: &impl Abort, calm: &mut Calm) {
    assert!(rt; gives(calm, 3, b"###"));
    assert!(rt; gives(calm, 3, b"###"));
}

#[test]
fn gives_a_byte_without_end(rt: HostRuntime) -> Result<(), Fail> {
    let (answer, mut calm) = endless(rt.alloc())?;
    assert!(rt; answer == Ok(Attached::Ready));
    gives_twice(&rt, &mut calm);
    Ok(())
}

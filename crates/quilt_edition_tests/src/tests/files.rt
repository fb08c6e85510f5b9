use crate::edition::{Edition, wanted_edition};
use crate::files::{Change, Content, change, foreign_file, map_file, put_page};
use crate::steps::{Outcome, reopened};
use quilt_types::Stop;
use quilt_world::Image;
use std::alloc::Global;
use std::test::Fail;

/// Whether opening a file comes to this.
fn opens(alloc: Global, file: Image, wanted: &Outcome) -> Result<bool, Fail> {
    Ok(reopened(alloc, file)? == *wanted)
}

/// The bytes of gates, and whether the home pages under them are torn.
static GATES: [(u8, bool); 6] = [
    (0, false),
    (2, false),
    (7, false),
    (255, false),
    (1, false),
    (1, true),
];

/// Whether a file with this gate is carried home if it is open, and only then.
fn reads_gate(alloc: Global, gate: u8, torn: bool) -> Result<bool, Fail> {
    let file = foreign_file(alloc, gate, torn)?;
    let wanted = if gate == 1 {
        wanted_edition(7, 2, 2)
    } else {
        wanted_edition(6, 0, 1)
    };
    opens(alloc, file, &Outcome::Read(wanted))
}

// A gate is open only where its first byte is 1. The pages that an open one lists are carried home, torn or not; those
// that a closed one lists are not.
#[test]
fn reads_foreign_gates(rt: HostRuntime) -> Result<(), Fail> {
    for (gate, torn) in &GATES {
        assert!(rt; reads_gate(rt.alloc(), *gate, *torn)?, "gate {gate}");
    }
    Ok(())
}

/// A directory that lists the home pages 1 and 8, and all pages behind the file.
static DIRECTORY: [Change; 7] = [
    (2, Content::Filled(255)),
    (2, Content::Changed(0, 0b10)),
    (2, Content::Changed(1, 1)),
    (2, Content::Changed(2, 0)),
    (2, Content::Changed(3, 0)),
    (2, Content::Changed(4, 0)),
    (2, Content::Changed(5, 0)),
];

/// Whether a file with this gate has what it should where its directory is changed.
fn reads_directory(
    alloc: Global,
    gate: u8,
    directory: &[Change],
    version: u8,
) -> Result<bool, Fail> {
    let mut file = foreign_file(alloc, gate, false)?;
    change(&mut file, directory);
    opens(alloc, file, &Outcome::Read(wanted_edition(6, 2, version)))
}

// Bits of a directory beyond the home pages mean nothing, and none do under a closed gate.
#[test]
fn reads_foreign_directories(rt: HostRuntime) -> Result<(), Fail> {
    assert!(rt; reads_directory(rt.alloc(), 0, &DIRECTORY[..1], 1)?);
    assert!(rt; reads_directory(rt.alloc(), 9, &DIRECTORY[..1], 1)?);
    assert!(rt; reads_directory(rt.alloc(), 1, &DIRECTORY, 2)?);
    Ok(())
}

/// Bytes of a header that damage it: of the magic, the format, the level, the height, its zeros, the root, the records, and the
/// zeros behind all.
static DAMAGED: [(usize, u8); 15] = [
    (0, 0),
    (3, b'r'),
    (4, 1),
    (7, 0),
    (7, 3),
    (12, 0),
    (12, 13),
    (13, 1),
    (13, 4),
    (14, 1),
    (15, 1),
    (19, 1),
    (23, 1),
    (24, 1),
    (4095, 1),
];

/// Whether page 0 is named where the header has this byte at a place, at home and where an open gate brings it home.
fn names_page_0(alloc: Global, at: usize, byte: u8) -> Result<bool, Fail> {
    let damaged = Outcome::Stopped(Stop::Damaged { page: 0 });
    let mut file = map_file(alloc)?;
    put_page(&mut file, 3, Content::Changed(at, byte));
    let mut other = foreign_file(alloc, 1, true)?;
    put_page(&mut other, 51, Content::Changed(at, byte));
    Ok(opens(alloc, file, &damaged)? && opens(alloc, other, &damaged)?)
}

// A header is refused for each of its parts, at home and where an open gate brings it home.
#[test]
fn names_page_0_where_the_header_is_damaged(rt: HostRuntime) -> Result<(), Fail> {
    for (at, byte) in &DAMAGED {
        assert!(rt;
            names_page_0(rt.alloc(), *at, *byte)?,
            "byte {at} is {byte}"
        );
    }
    Ok(())
}

/// A header with its edition and its level at their least, and one with all its numbers at their greatest.
static LEAST: [Change; 2] = [(3, Content::Changed(11, 0)), (3, Content::Changed(12, 1))];

static GREATEST: [Change; 6] = [
    (3, Content::Changed(7, 2)),
    (3, Content::Changed(8, 255)),
    (3, Content::Changed(9, 255)),
    (3, Content::Changed(10, 255)),
    (3, Content::Changed(11, 255)),
    (3, Content::Changed(12, 12)),
];

/// Whether a map file with these changes is opened as its first edition with other numbers.
fn reads_header(alloc: Global, changes: &[Change], format: u8, number: u32) -> Result<bool, Fail> {
    let mut file = map_file(alloc)?;
    change(&mut file, changes);
    let wanted = Edition {
        format,
        ..wanted_edition(number, 0, 1)
    };
    opens(alloc, file, &Outcome::Read(wanted))
}

// The numbers of a header may go to their bounds.
#[test]
fn reads_headers_at_their_bounds(rt: HostRuntime) -> Result<(), Fail> {
    assert!(rt; reads_header(rt.alloc(), &LEAST, 1, 0)?);
    assert!(rt; reads_header(rt.alloc(), &GREATEST, 2, u32::MAX)?);
    Ok(())
}

/// How many pages a file has, and a byte of its label.
static OTHERS: [(u32, usize, u8); 9] = [
    (99, 0, b'Q' ^ 1),
    (99, 14, b'\n' ^ 1),
    (99, 15, 1),
    (99, 4095, 1),
    (1, 0, b'Q'),
    (33, 0, b'Q'),
    (34, 0, b'Q'),
    (36, 0, b'Q'),
    (98, 0, b'Q'),
];

/// Whether a file of so many pages with this byte in its label is no map file.
fn is_other(alloc: Global, pages: u32, at: usize, byte: u8) -> Result<bool, Fail> {
    let mut file = if pages == 99 {
        map_file(alloc)?
    } else {
        Image::new(alloc, pages)?
    };
    put_page(&mut file, 0, Content::Label);
    put_page(&mut file, 0, Content::Changed(at, byte));
    opens(alloc, file, &Outcome::NotMap)
}

// A file is a map file only by its label and the number of its pages.
#[test]
fn tells_what_is_no_map_file(rt: HostRuntime) -> Result<(), Fail> {
    for (pages, at, byte) in &OTHERS {
        assert!(rt;
            is_other(rt.alloc(), *pages, *at, *byte)?,
            "byte {at} of {pages} pages"
        );
    }
    Ok(())
}

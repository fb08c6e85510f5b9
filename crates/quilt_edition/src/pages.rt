ghost use Rattle.std.specs.Prelude.{◌≡◌, ◌≤◌, length};
ghost use Rattle.quilt_types.specs.Bytes.{filled};
ghost use Rattle.quilt_world.specs.Home.{file_label};
ghost use Rattle.quilt_node.specs.Pages as spec;
ghost use Rattle.quilt_edition.specs.Creating.{empty_head};

use quilt_node::{Head, header_bytes};
use quilt_world::LABEL;

/// A page that begins with these bytes, and is zeros behind them.
fn page_of(front: &[u8]) -> [u8; 4096]
    requires { length front.now ≤ 4096 }
    ensures { result ≡ filled 4096 front.now }
{
    let mut page = [0; 4096];
    page[..front.len()].copy_from_slice(front);
    page
}

/// The first page of each map file.
pub(crate) fn label_page() -> [u8; 4096]
    ensures { result ≡ file_label }
{
    page_of(&LABEL)
}

/// The header of edition 0 of a level in format 1, with no records.
pub(crate) fn header_page(level: u8) -> [u8; 4096]
    requires { (1 ≤ level) × (level ≤ 12) }
    ensures { result ≡ spec.header_bytes (empty_head level) }
{
    header_bytes(&Head {
        format: 1,
        edition: 0,
        level,
        root: 0,
        height: 0,
        records: 0,
    })
}

ghost use Rattle.std.specs.Prelude.{true, refl};

use quilt_types::{Kind, Name};

/// A layer in the catalog: the number that its records have, from 1 to 255, its name and what it is.
#[derive(Debug, PartialEq, Eq, Drop)]
pub struct Entry {
    pub number: u8,
    pub name: Name,
    pub kind: Kind,
}

/// Some entry, for the places of a catalog that are not in use.
impl Default for Entry {
    fn default() -> Entry {
        Entry {
            number: 1,
            name: Name::of("a").unwrap(),
            kind: Kind::Region,
        }
    }
}

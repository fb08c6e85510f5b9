ghost use Rattle.std.specs.Prelude.{◌≡◌, ◌≢◌, ℕ, ◌<◌, ◌≤◌, ◌==◌, true, List, None, Some, IsNone, IfSome, All, length, position, nat_eq};
ghost use Rattle.std.specs.List.{list_any};
ghost use Rattle.std.specs.Cmp.Lexicographic.{pointwise};
ghost use Rattle.std.specs.FinMap as finmap;
ghost use Rattle.quilt_types.specs.Layers.{Map};
ghost use Rattle.quilt_record.specs.Records.{Numbering};
ghost use Rattle.quilt_spell.specs.Catalogued.{IsCatalogOf};
ghost use Rattle.quilt_spell.specs.Written.{IsNumbering};
ghost use Rattle.quilt_map.specs.Lookups.{IsLayerAt};

use quilt_record::{Catalog, Entry};
use quilt_types::Name;

/// The place of the first entry with the name.
fn place_of(entries: &[Entry], name: &Name) -> Option<usize>
    ensures { result ≡ position (λ e. pointwise nat_eq name.now e.name) entries.now }
{
    entries.iter().position(|e| *name == e.name)
}

/// The place of the entry of the layer with this name, or None where no layer has it.
pub(crate) fn index_of(entries: &[Entry], name: &Name) -> Option<usize>
    ensures inside { IfSome result (λ i. i < length entries.now) }
    ensures others { IsNone result → All (λ e. e.name ≢ name.now) entries.now }

    // What this says of a map that has this catalog.
    ensures none { IsNone result → (layers : Map) (numbers : Numbering) → IsCatalogOf layers numbers entries.now → finmap.get layers name.now ≡ None }
    ensures some { IfSome result (λ i. (layers : Map) (numbers : Numbering) → IsCatalogOf layers numbers entries.now
        → IsLayerAt layers numbers entries.now name.now i) }
{
    place_of(entries, name)
}

/// Whether an entry has the number.
fn has_number(entries: &[Entry], number: u8) -> bool
    ensures { result ≡ list_any (λ e. e.number == number) entries.now }
{
    entries.iter().any(|e| e.number == number)
}

/// The least number from 1 on that no entry has.
pub(crate) fn free_number(entries: &[Entry]) -> u8
    requires { length entries.now < 255 }
    ensures least { 1 ≤ result }
    ensures free { All (λ e. e.number ≢ result) entries.now }
    ensures first { (k : ℕ) → 1 ≤ k → k < result → list_any (λ e. e.number == k) entries.now ≡ true }

    // What this says of a map that has this catalog.
    ensures unused { (layers : Map) (numbers : Numbering) → IsCatalogOf layers numbers entries.now → IsNumbering layers numbers → (name : List ℕ)
        → finmap.get numbers name ≢ Some result }
{
    for number in 1..255_u8 {
        if !has_number(entries, number) {
            return number;
        }
    }
    255
}

/// The same entry again.
fn entry_copy(e: &Entry) -> Entry
    ensures { result ≡ e.now }
{
    Entry {
        number: e.number,
        name: e.name.copy(),
        kind: e.kind,
    }
}

/// The same catalog again. It takes no memory.
pub(crate) fn copy_of(catalog: &Catalog) -> Catalog
    ensures { result ≡ catalog.now }
{
    let mut copy = Catalog::new();
    for e in catalog.entries() {
        copy.insert(entry_copy(e));
    }
    copy
}

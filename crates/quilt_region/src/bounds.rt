ghost use Rattle.std.specs.Prelude.{◌≡◌};
ghost use Rattle.quilt_region.specs.Laws.{first_key, last_key};

use quilt_record::Key;

/// A key before each of the records that stand under the number of a layer.
pub fn first_key(layer: u8) -> Key
    ensures { result ≡ first_key layer }
{
    Key {
        layer: u16::from(layer),
        part: 0,
        code: 0,
        depth: 0,
        item: 0,
    }
}

/// A key behind each of the records that stand under the number of a layer.
pub fn last_key(layer: u8) -> Key
    ensures { result ≡ last_key layer }
{
    Key {
        layer: u16::from(layer),
        part: u8::MAX,
        code: u32::MAX,
        depth: u8::MAX,
        item: u32::MAX,
    }
}

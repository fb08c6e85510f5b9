ghost use Rattle.std.specs.Prelude.{◌≡◌};
ghost use Rattle.std.specs.Ordering.{nat_cmp};
ghost use Rattle.std.specs.Cmp.Lexicographic.{slice_cmp};
ghost use Rattle.quilt_record.specs.declared.key.Key.{Key as AnyKey};
ghost use Rattle.quilt_record.specs.Records as records;
ghost use Rattle.quilt_record.specs.Fits.{KeyFits};

/// The key of a record. Keys are ordered by their fields, as they stand here.
#[derive(Clone, Copy, Debug, PartialEq, Eq, PartialOrd, Ord)]
pub struct Key {
    /// 0 for the catalog, else the layer's number.
    pub layer: u16,
    /// What sort of record it is.
    pub part: u8,
    /// The locational code of a block's corner, or 0.
    pub code: u32,
    /// The level less k, where the block's side is 2 ^ k, or 0.
    pub depth: u8,
    /// The number of a layer, the id of a segment, or 0.
    pub item: u32,
}

/// The key's 12 bytes: its fields as they stand, each with its high byte first. Their order is that of the keys.
pub fn key_bytes(k: &Key) -> [u8; 12]
    ensures bytes { result ≡ records.key_bytes k.now }
    ensures fits { KeyFits k.now }
    ensures order { (other : AnyKey) → KeyFits other → slice_cmp nat_cmp result (records.key_bytes other) ≡ records.key_cmp k.now other }
{
    let Key {
        layer,
        part,
        code,
        depth,
        item,
    } = *k;
    let [l0, l1] = layer.to_be_bytes();
    let [c0, c1, c2, c3] = code.to_be_bytes();
    let [i0, i1, i2, i3] = item.to_be_bytes();
    [l0, l1, part, c0, c1, c2, c3, depth, i0, i1, i2, i3]
}

/// The key that the 12 bytes spell.
pub fn key_of(bytes: &[u8; 12]) -> Key
    ensures bytes { records.key_bytes result ≡ bytes.now }
    ensures fits { KeyFits result }
{
    let [l0, l1, part, c0, c1, c2, c3, depth, i0, i1, i2, i3] = *bytes;
    Key {
        layer: u16::from_be_bytes([l0, l1]),
        part,
        code: u32::from_be_bytes([c0, c1, c2, c3]),
        depth,
        item: u32::from_be_bytes([i0, i1, i2, i3]),
    }
}

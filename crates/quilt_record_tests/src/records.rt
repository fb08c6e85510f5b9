use quilt_record::{
    Catalog, Entry, Key, Record, RecordList, catalog_record, key_bytes, key_of, pair_record,
    point_record, read_catalog, read_pair, read_point, read_region, read_segment, region_record,
    segment_record,
};
use quilt_types::{Block, Colour, Kind, Name, Pixel, Point, Seg};
use std::alloc::{AllocError, Global};
use std::test::Fail;

/// A pixel of a square of side 8.
const AT: Pixel = Pixel { y: 2, x: 5 };

/// The block of that pixel.
const PIXEL: Block = Block {
    y: 2,
    x: 5,
    side: 1,
};

/// The block of the whole square.
const SQUARE: Block = Block {
    y: 0,
    x: 0,
    side: 8,
};

/// A key with a number in each place.
const KEY: Key = Key {
    layer: 1,
    part: 1,
    code: 25,
    depth: 3,
    item: 258,
};

/// The bytes of that key.
static KEY_BYTES: [u8; 12] = *b"\0\x01\x01\0\0\0\x19\x03\0\0\x01\x02";

#[test]
fn keys_byte_by_byte(rt: HostRuntime) {
    assert!(rt; key_bytes(&KEY) == KEY_BYTES);
    assert!(rt; key_of(&KEY_BYTES) == KEY);
}

/// Whether a record has these bytes, those of its key first.
fn is_spelled(r: &Record, key: &[u8; 12], value: &[u8; 16]) -> bool {
    key_bytes(&r.key) == *key && r.value == *value
}

/// A record with another byte at a place of its value.
fn changed(r: &Record, at: usize, byte: u8) -> Record {
    let mut other = *r;
    if let Some(there) = other.value.get_mut(at) {
        *there = byte;
    }
    other
}

/// A segment with a number over 255.
const SEG: Seg = Seg {
    x1: 1,
    y1: 2,
    x2: 258,
    y2: 4,
};

/// The record of that segment, under the id 7 in layer 9.
fn segment_of() -> Record {
    segment_record(9, 7, SEG)
}

/// The segment that a record spells.
fn segment_in(r: &Record) -> Option<(u32, Seg)> {
    read_segment(r)
}

/// How many records a list has once one was put into it.
fn listed(alloc: Global, r: &Record) -> Result<usize, AllocError> {
    let mut list = RecordList::new(alloc);
    list.push(r)?;
    Ok(list.records().len())
}

#[test]
fn records_byte_by_byte(rt: HostRuntime) -> Result<(), Fail> {
    let segment = segment_of();
    let key = b"\0\x09\x04\0\0\0\0\0\0\0\0\x07";
    let value = b"\0\x01\0\x02\x01\x02\0\x04\0\0\0\0\0\0\0\0";
    assert!(rt; is_spelled(&segment, key, value));
    assert!(rt; segment_in(&segment) == Some((7, SEG)));
    assert!(rt; segment_in(&changed(&segment, 15, 1)).is_none());
    assert!(rt; listed(rt.alloc(), &segment)? == 1);
    Ok(())
}

/// The record of the block of a pixel in layer 1.
fn region_of(colour: u16) -> Record {
    region_record(1, PIXEL, 3, Colour(colour))
}

/// The block and the colour that a record spells in a square of side 8.
fn region_in(r: &Record, format: u8) -> Option<(Block, Colour)> {
    read_region(r, 3, format)
}

/// Whether a record spells the block of a pixel in a square of side 4.
fn is_region_of_four(r: &Record) -> bool {
    read_region(r, 2, 1).is_some()
}

/// The pair of the block of a pixel with no segment, written and read.
fn pair_again() -> Option<(Block, Option<u32>)> {
    read_pair(&pair_record(1, PIXEL, 3, None), 3)
}

/// The bytes of the key of the block of a pixel.
static REGION_KEY: [u8; 12] = *b"\0\x01\x01\0\0\0\x19\x03\0\0\0\0";

/// Colours, the bytes of the values of their records, and the colours that these spell in format 1.
static COLOURS: [(u16, [u8; 16], Option<u16>); 2] = [
    (7, *b"\x07\0\0\0\0\0\0\0\0\0\0\0\0\0\0\0", Some(7)),
    (258, *b"\x02\x01\0\0\0\0\0\0\0\0\0\0\0\0\0\0", None),
];

/// Whether the record of a colour has these bytes, and spells it in format 2, and this one in format 1.
fn is_region(colour: u16, value: &[u8; 16], first: Option<u16>) -> bool {
    let r = region_of(colour);
    is_spelled(&r, &REGION_KEY, value)
        && region_in(&r, 2) == Some((PIXEL, Colour(colour)))
        && region_in(&r, 1) == first.map(|c| (PIXEL, Colour(c)))
}

#[test]
fn region_blocks_byte_by_byte(rt: HostRuntime) {
    for (colour, value, first) in &COLOURS {
        assert!(rt; is_region(*colour, value, *first), "colour {colour}");
    }
    assert!(rt; !is_region_of_four(&region_of(7)));
    assert!(rt; region_in(&changed(&region_of(258), 2, 1), 2).is_none());
    assert!(rt; pair_again() == Some((PIXEL, None)));
}

/// The record of a point alone in the block of its pixel, of a layer with one point in a block.
fn point_alone(label: u32) -> Record {
    point_record(1, PIXEL, 3, 1, Some(Point { at: AT, label }))
}

/// The record of a point in the whole square, of a layer with two points in a block.
fn point_of_two(label: u32) -> Record {
    point_record(1, SQUARE, 3, 2, Some(Point { at: AT, label }))
}

/// The record of the whole square without points.
fn empty_square() -> Record {
    point_record(1, SQUARE, 3, 2, None)
}

/// The block that a record spells in a square of side 8 with so many points in a block, and the label of its point, which is at
/// that pixel.
fn label_in(r: &Record, bucket: u8) -> Option<(Block, Option<u32>)> {
    match read_point(r, 3, bucket) {
        Some((b, None)) => Some((b, None)),
        Some((b, Some(p))) if p.at == AT => Some((b, Some(p.label))),
        _ => None,
    }
}

/// A point alone in its block is none where two points are in a block.
#[test]
fn a_point_alone_byte_by_byte(rt: HostRuntime) {
    let one = point_alone(258);
    let key = b"\0\x01\x02\0\0\0\x19\x03\0\0\0\0";
    let value = b"\x01\0\x05\0\x02\0\0\x01\x02\0\0\0\0\0\0\0";
    assert!(rt; is_spelled(&one, key, value));
    assert!(rt; label_in(&one, 1) == Some((PIXEL, Some(258))));
    assert!(rt; label_in(&one, 2).is_none());
    assert!(rt; label_in(&changed(&one, 2, 8), 1).is_none());
}

/// A point that shares the square with others is read where at least two points are in a block.
#[test]
fn a_point_of_two_byte_by_byte(rt: HostRuntime) {
    let two = point_of_two(7);
    let key = b"\0\x01\x02\0\0\0\0\0\0\0\0\x1a";
    let value = b"\x01\0\x05\0\x02\0\0\0\x07\0\0\0\0\0\0\0";
    let held = Some((SQUARE, Some(7)));
    assert!(rt; is_spelled(&two, key, value));
    assert!(rt; label_in(&two, 2) == held);
    assert!(rt; label_in(&two, 16) == held);
    assert!(rt; label_in(&two, 1).is_none());
}

#[test]
fn a_square_without_points_byte_by_byte(rt: HostRuntime) {
    let empty = empty_square();
    assert!(rt; key_bytes(&empty.key) == *b"\0\x01\x02\0\0\0\0\0\0\0\0\0");
    assert!(rt; label_in(&empty, 2) == Some((SQUARE, None)));
}

/// The entry of a layer, where the name is one.
fn entry_of(number: u8, name: &str, kind: Kind) -> Option<Entry> {
    let name = Name::of(name)?;
    Some(Entry { number, name, kind })
}

/// The record of an entry, where its number is one.
fn record_of(e: &Entry) -> Option<Record> {
    if e.number < 1 {
        return None;
    }
    Some(catalog_record(e))
}

/// The record of the entry of a layer.
fn catalogued(number: u8, name: &str, kind: Kind) -> Option<Record> {
    record_of(&entry_of(number, name, kind)?)
}

/// Whether a record spells some entry.
fn is_entry(r: &Record, format: u8) -> bool {
    read_catalog(r, format).is_some()
}

/// How many entries a catalog has once one was put into it, and once it was taken out.
fn counts(e: Entry) -> (usize, usize) {
    let mut catalog = Catalog::new();
    catalog.insert(e);
    let with = catalog.entries().len();
    catalog.remove(0);
    (with, catalog.entries().len())
}

#[test]
fn catalog_byte_by_byte(rt: HostRuntime) -> Result<(), Fail> {
    let record = catalogued(1, "a", Kind::Region).ok_or("a record")?;
    let key = b"\0\0\0\0\0\0\0\0\0\0\0\x01";
    let value = b"a\0\0\0\0\0\0\0\0\0\0\0\x01\0\0\0";
    assert!(rt; is_spelled(&record, key, value));
    assert!(rt; is_entry(&record, 1));
    assert!(rt; entry_of(1, "a", Kind::Region).map(counts) == Some((1, 0)));
    Ok(())
}

/// Whether the record of a layer of so many points in a block has this byte, and spells its entry in format 2, and one in format 1
/// just where there is one point in a block.
fn is_capacity(bucket: u8, byte: u8) -> Option<bool> {
    let entry = entry_of(3, "p", Kind::Points { bucket })?;
    let r = record_of(&entry)?;
    let has_bytes = r.value[12] == 2 && r.value[13] == byte;
    Some(has_bytes && is_entry(&r, 1) == (bucket == 1) && read_catalog(&r, 2) == Some(entry))
}

#[test]
fn capacities_in_the_catalog(rt: HostRuntime) -> Result<(), Fail> {
    for (bucket, byte) in [(1, 0), (2, 2), (16, 16)] {
        assert!(rt;
            is_capacity(bucket, byte) == Some(true),
            "capacity {bucket}"
        );
    }
    let record = catalogued(3, "p", Kind::Points { bucket: 2 }).ok_or("a record")?;
    for byte in [1, 17] {
        assert!(rt; !is_entry(&changed(&record, 13, byte), 2), "byte {byte}");
    }
    Ok(())
}

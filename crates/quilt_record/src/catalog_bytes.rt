ghost use Rattle.std.specs.Prelude.{◌≡◌, ℕ, ◌≤◌, true, List, Some, IfSome, position, take, ◌==◌, if◌then◌else◌};
ghost use Rattle.std.specs.List.{position_or_len};
ghost use Rattle.quilt_types.specs.declared.plane.Kind.{Kind as AnyKind};
ghost use Rattle.quilt_types.specs.Layers.{is_name};
ghost use Rattle.quilt_record.specs.declared.entry.Entry.{Entry as AnyEntry};
ghost use Rattle.quilt_types.specs.Bytes.{filled};
ghost use Rattle.quilt_record.specs.Records.{kind_number, record_of};
ghost use Rattle.quilt_record.specs.Listing.{number_of_kind, number_beside, fact_of_kind, KindFits, IsEntryOf};

use crate::block::is_same;
use crate::{Entry, Key, Record};
use quilt_types::{Kind, Name};

/// The name, and zeros up to 12 bytes.
fn name_bytes(name: &Name) -> [u8; 12]
    ensures { result ≡ filled 12 name.now }
{
    let word = name.text().as_bytes();
    let mut bytes = [0; 12];
    bytes[..word.len()].copy_from_slice(word);
    bytes
}

/// The number of the kind: 1 for a region, 2 for points, 3 for lines.
fn number_of(kind: Kind) -> u8
    ensures { result ≡ number_of_kind kind }
{
    match kind {
        Kind::Region => 1,
        Kind::Points { .. } => 2,
        Kind::Lines { .. } => 3,
    }
}

/// The byte that stands beside the number: the threshold of lines, the capacity of points where it is not 1, and else 0.
fn byte_beside(kind: Kind) -> u8
    ensures { result ≡ kind_number (number_of_kind kind) (number_beside kind) }
{
    match kind {
        Kind::Region => 0,
        Kind::Points { bucket: 1 } => 0,
        Kind::Points { bucket } => bucket,
        Kind::Lines { threshold } => threshold,
    }
}

/// The record of an entry of the catalog, whose number is over 0.
pub fn catalog_record(e: &Entry) -> Record
    requires { 1 ≤ e.now.number }
    ensures { (n capacity : ℕ) → result ≡ record_of n capacity e.now.name e.now.number (fact_of_kind e.now.kind) }
{
    let mut value = [0; 16];
    value[..12].copy_from_slice(&name_bytes(&e.name));
    value[12..].copy_from_slice(&[number_of(e.kind), byte_beside(e.kind), 0, 0]);
    Record {
        key: Key {
            layer: 0,
            part: 0,
            code: 0,
            depth: 0,
            item: u32::from(e.number),
        },
        value,
    }
}

/// The number of a layer, from 1 to 255.
fn number_in(item: u32) -> Option<u8>
    ensures some { IfSome result (λ n. (1 ≤ n) × (n ≤ 255)) }
    ensures one { 1 ≤ item → item ≤ 255 → result ≡ Some item }
{
    match item {
        1..=255 => Some(item as u8),
        _ => None,
    }
}

/// The capacity that the byte of a point layer says in the format.
fn bucket_in(byte: u8, format: u8) -> Option<u8>
    ensures some { IfSome result (λ b. (1 ≤ b) × (b ≤ (if format == 1 then 1 else 16))) }
    ensures one { (b : ℕ) → 1 ≤ b → b ≤ (if format == 1 then 1 else 16) → kind_number 2 b ≡ byte → result ≡ Some b }
{
    match byte {
        0 => Some(1),
        2..=16 if format != 1 => Some(byte),
        _ => None,
    }
}

/// The kind with this number, and this byte beside it, in the format.
fn kind_in(number: u8, byte: u8, format: u8) -> Option<Kind>
    ensures some { IfSome result (λ k. KindFits format k) }
    ensures one { (k : AnyKind) → KindFits format k → number_of_kind k ≡ number → kind_number (number_of_kind k) (number_beside k) ≡ byte → result ≡ Some k }
{
    match number {
        1 if byte == 0 => Some(Kind::Region),
        2 => {
            let bucket = bucket_in(byte, format)?;
            Some(Kind::Points { bucket })
        }
        3 if 1 <= byte && byte <= 32 => Some(Kind::Lines { threshold: byte }),
        _ => None,
    }
}

/// The place of the first zero.
fn first_zero(bytes: &[u8]) -> Option<usize>
    ensures { result ≡ position (λ c. c == 0) bytes.now }
{
    bytes.iter().position(|c| *c == 0)
}

/// The bytes before the first zero.
fn before_zero(bytes: &[u8]) -> &[u8]
    ensures { result.now ≡ take (position_or_len (λ c. c == 0) bytes.now) bytes.now }
{
    match first_zero(bytes) {
        Some(i) => &bytes[..i],
        None => bytes,
    }
}

/// The name that stands before the zeros.
fn name_in(bytes: &[u8]) -> Option<Name>
    ensures some { IfSome result (λ n. is_name n ≡ true) }
    ensures one { (n : List ℕ) → is_name n ≡ true → bytes.now ≡ filled 12 n → result ≡ Some n }
{
    match str::from_utf8(before_zero(bytes)) {
        Ok(word) => Name::of(word),
        Err(_) => None,
    }
}

/// The entry whose record it is; none where it is none of the catalog in the format.
pub fn read_catalog(r: &Record, format: u8) -> Option<Entry>
    ensures some { IfSome result (λ e. IsEntryOf format r.now e) }
    ensures one { (e : AnyEntry) → IsEntryOf format r.now e → result ≡ Some e }
{
    let Some(number) = number_in(r.key.item) else {
        return None;
    };
    let Some(kind) = kind_in(r.value[12], r.value[13], format) else {
        return None;
    };
    let Some(name) = name_in(&r.value[..12]) else {
        return None;
    };
    let entry = Entry { number, name, kind };
    if !is_same(&catalog_record(&entry), r) {
        return None;
    }
    Some(entry)
}

use quilt_record::{Edits, Record, key_bytes};

/// The records that a plan puts in.
pub fn added(plan: &Edits) -> &[Record] {
    plan.add.records()
}

/// Whether a plan takes these records out and puts those in.
pub fn is_plan(plan: &Edits, removed: &[Record], added: &[Record]) -> bool {
    plan.remove.records() == removed && plan.add.records() == added
}

/// Whether a plan takes these records out and puts so many in.
pub fn replaces(plan: &Edits, removed: &[Record], count: usize) -> bool {
    plan.remove.records() == removed && plan.add.records().len() == count
}

/// Whether the record at this place of those that a plan puts in has these bytes as its key and as its value.
pub fn adds_bytes(plan: &Edits, place: usize, key: &[u8; 12], value: &[u8; 16]) -> bool {
    match plan.add.records().get(place) {
        None => false,
        Some(r) => key_bytes(&r.key) == *key && r.value == *value,
    }
}

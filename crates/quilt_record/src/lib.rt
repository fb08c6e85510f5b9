//! Each fact of a map as a record: a key of 12 bytes and a value of 16.
#![tactic(auto)]

mod block;
mod catalog;
mod catalog_bytes;
mod edits;
mod entry;
mod key;
mod lines;
mod list;
mod points;
mod record;
mod region;

pub use catalog::Catalog;
pub use catalog_bytes::{catalog_record, read_catalog};
pub use edits::Edits;
pub use entry::Entry;
pub use key::{Key, key_bytes, key_of};
pub use lines::{pair_record, read_pair, read_segment, segment_record};
pub use list::RecordList;
pub use points::{point_record, read_point};
pub use record::Record;
pub use region::{read_region, region_record};

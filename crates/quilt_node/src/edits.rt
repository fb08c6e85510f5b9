ghost use Rattle.std.specs.Prelude.{◌≡◌, ◌<◌, ◌≤◌, List, Some, true, length, slice_set};
ghost use Rattle.std.specs.List.{insert, remove};
ghost use Rattle.quilt_record.specs.declared.record.Record.{Record};
ghost use Rattle.quilt_node.specs.Pages.{is_ascending, leaf_of};
ghost use Rattle.quilt_node.specs.Nodes.{IsLeafPage, IsFound, keys_of, page_records};

use crate::bytes::{put_in, put_over, record_piece, set_count, take_out};
use crate::lookups::records_in;
use quilt_record::Record;

/// Puts a record in at place `i` of a page that is a leaf; of any bytes it makes some others.
pub fn insert_in(bytes: &mut [u8; 4096], i: usize, r: &Record)
    requires room { length (page_records bytes.old) < 144 }
    requires place { i ≤ length (page_records bytes.old) }
    ensures page { (rs : List Record) → IsLeafPage bytes.old rs → is_ascending (keys_of (insert rs i r.now)) ≡ true → IsLeafPage bytes.new (insert rs i r.now) }
    ensures leaf { (rs : List Record) → leaf_of bytes.old ≡ Some rs → is_ascending (keys_of (insert rs i r.now)) ≡ true → leaf_of bytes.new ≡ Some (insert rs i r.now) }
{
    let n = records_in(bytes);
    put_in(bytes, 64 + 28 * i, 64 + 28 * n, &record_piece(r));
    set_count(bytes, (n + 1) as u16);
}

/// Takes out the record at place `i` of a page that is a leaf of more than one; of any bytes it makes some others.
pub fn remove_in(bytes: &mut [u8; 4096], i: usize)
    requires { i < length (page_records bytes.old) }
    ensures page { (rs : List Record) → IsLeafPage bytes.old rs → 1 < length rs → IsLeafPage bytes.new (remove rs i) }
    ensures leaf { (rs : List Record) → leaf_of bytes.old ≡ Some rs → 1 < length rs → leaf_of bytes.new ≡ Some (remove rs i) }
{
    let n = records_in(bytes);
    take_out(bytes, 64 + 28 * i, 28, 64 + 28 * n);
    set_count(bytes, (n - 1) as u16);
}

/// Puts a record in the place `i` of one with its key in a page that is a leaf, where no other record moves; of any bytes
/// it makes some others.
pub fn replace_in(bytes: &mut [u8; 4096], i: usize, r: &Record)
    requires { i < 144 }
    ensures { (rs : List Record) → leaf_of bytes.old ≡ Some rs → IsFound r.now.key rs i → leaf_of bytes.new ≡ Some (slice_set rs i r.now) }
{
    put_over(bytes, 64 + 28 * i, &record_piece(r));
}

ghost use Rattle.std.specs.Prelude.{Contains};
ghost use Rattle.quilt_record.specs.declared.record.Record.{Record as AnyRecord};

use crate::RecordList;

/// The records that a command takes out and those that it puts in. No record is in both.
#[derive(Drop)]
pub struct Edits {
    pub remove: RecordList,
    pub add: RecordList,
    ghost apart: { (r : AnyRecord) → Contains remove r → Contains add r → ⊥ },
}

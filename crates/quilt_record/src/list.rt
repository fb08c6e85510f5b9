ghost use Rattle.std.specs.Prelude.{◌≡◌, [], ◌∷◌, ◌++◌, OnOk, OnErr};

use crate::Record;
use std::alloc::{AllocError, Global};
use std::marker::Model;

/// A list of records.
#[derive(Drop)]
pub struct RecordList {
    records: Vec<Record>,
}

impl Model for RecordList {
    ghost use Rattle.std.specs.Prelude.{List};
    ghost use Rattle.quilt_record.specs.declared.record.Record.{Record};

    ghost Value = { List Record };

    ghost view = { λ l. l.records.items };
}

impl RecordList {
    /// No records. It takes no memory, and keeps the allocator.
    pub fn new(alloc: Global) -> RecordList
        ensures { result ≡ [] }
    {
        RecordList {
            records: Vec::new(alloc),
        }
    }

    /// These records. It takes no memory.
    pub fn of(records: Vec<Record>) -> RecordList
        ensures { result ≡ records.items }
    {
        RecordList { records }
    }

    /// Adds a record at the end, or changes nothing where no memory is left.
    pub fn push(&mut self, r: &Record) -> Result<(), AllocError>
        ensures ok { OnOk result (self.new ≡ self.old ++ r.now ∷ []) }
        ensures err { OnErr result (self.new ≡ self.old) }
    {
        self.records.push(*r)?;
        Ok(())
    }

    /// The records.
    pub fn records(&self) -> &[Record]
        ensures { result.now ≡ self.now }
    {
        &self.records
    }
}

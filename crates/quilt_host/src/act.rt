use quilt_types::Text;

/// What a call of the system did, as far as it can be told.
#[derive(Drop)]
pub enum Act {
    /// The file was opened.
    Opened,
    /// A new file was made, with no bytes.
    Created,
    /// These bytes were written at an offset.
    Wrote { at: u64, bytes: Text },
    /// A write of so many bytes at an offset failed, and left any bytes there.
    Lost { at: u64, length: usize },
    /// All that was written to the file so far is on the disk.
    Synced,
    /// The entry of the file in its folder is on the disk.
    Linked,
    /// Bytes of the input were taken.
    Took(Text),
    /// The input told that it has ended.
    Ended,
    /// Bytes were put to the output.
    Put(Text),
}

use crate::Rings;
use quilt_types::{PointList, Text};

/// A line that asks for a reply, with what its further lines spell.
#[derive(Drop)]
pub enum Item {
    /// A line of more than 8320 bytes.
    Long,
    /// A line that asks for no further lines.
    Line(Text),
    /// A line that asks for the rows of a raster, and their colours, two bytes each with the high one first; none where a row
    /// is missing or not well formed.
    Rows(Text, Option<Text>),
    /// A line that asks for list lines, and their points; none where a line is missing or not well formed.
    PointLines(Text, Option<PointList>),
    /// A line that asks for ring lines, and their rings; none where a line is missing or not well formed.
    RingLines(Text, Rings),
}

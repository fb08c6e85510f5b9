//! Chessboard buffers: the pixels that a number of a king's moves brings to a coloured one.
#![tactic(auto)]

mod reach;
mod zone;

pub use zone::buffer;

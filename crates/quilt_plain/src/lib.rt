//! Maps as rows of colours, points and segments in lists, drawn and computed one by one: what tests compare the other crates with.
#![tactic(auto)]

mod algebra;
mod drawing;
mod drawn_segments;
mod measures;
mod pixel_maps;
mod points;
mod segments;
mod squares;

pub use algebra::{plain_buffer, plain_overlay, plain_recolour, plain_shift, plain_window};
pub use drawing::{Dice, colour_of, drawn, drawn_distance, drawn_pairs, paint};
pub use drawn_segments::{drawn_coordinate, drawn_seg, next_state};
pub use measures::{plain_area, plain_histogram, plain_perimeter};
pub use pixel_maps::map_of;
pub use points::PlainPoints;
pub use segments::{Fraction, PlainSegments, plain_distance, plain_meets, plain_shares};
pub use squares::{are_in_square, is_in_square, is_window};

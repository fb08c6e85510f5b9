//! Rasters: lists of leaves made of the colours of all pixels, and windows of them as text.
#![tactic(auto)]

mod grid;
mod leaves;
mod paint;
mod picture;

pub use grid::add_cells;
pub use leaves::{add_square, colour_in, leaves_of, one_colour};
pub use paint::paint_window;
pub use picture::render;

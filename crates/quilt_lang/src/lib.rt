//! The lines of a text: it is cut into items, each a line with the further lines that it asks for, as its pieces come.
#![tactic(auto)]

mod asked;
mod command_front;
mod first_line;
mod front;
mod held;
mod items;
mod kept;
mod line_count;
mod lines;
mod progress;
mod rows;
mod short_lines;
mod spelled;

pub use items::{items_in, whole_items_in};
pub use lines::Lines;
pub use quilt_words::{Command, Item, Pairs, ParseErr, parse, refusal_text};

//! The words of the command language: the commands that a line spells, and the items that hold what its further lines spell.
#![tactic(auto)]

mod arguments;
mod command;
mod commands;
mod further;
mod item;
mod pairs;
mod parse_err;
mod parser;
mod recolour;
mod refusal;
mod shapes;
mod words;

pub use arguments::number_of;
pub use command::{Command, Rings, Word};
pub use further::{FurtherLines, push_ring};
pub use item::Item;
pub use pairs::Pairs;
pub use parse_err::ParseErr;
pub use parser::{parse, parse_line, parse_words};
pub use refusal::refusal_text;
pub use words::{LINE_LIMIT, few_words, first_word, is_comment_line, is_plain_line, line_words};

//! What each command is answered, and the texts of replies.
#![tactic(auto)]

mod bodies;
mod reply;
mod segments;

pub use bodies::{
    blocks_text, done_text, edition_text, layers_text, leaves_text, number_text, points_text,
    records_text, show_text,
};
pub use reply::Reply;
pub use segments::{clips_text, ids_text, nearest_text, pairs_text, ranks_text, segs_text};

//! The records of one line layer as they come in the order of their keys, and whether they are those of a layer.
#![tactic(auto)]

mod contact;
mod descent;
mod law;
mod pair;
mod run;

pub use law::line_run_law;
pub use pair::Pair;
pub use run::LineRun;

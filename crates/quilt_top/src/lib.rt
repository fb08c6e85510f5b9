//! The whole run: what the words of the command line ask for is done over a world, which is handed back.
#![tactic(auto)]

mod answer;
mod command_line;
mod file_run;
mod halt;
mod make;
mod opened;
mod orders;
mod output;
mod run;
mod text_run;
mod trial_items;
mod trial_run;
mod words;

pub use run::{End, run_quilt};

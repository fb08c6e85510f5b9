//! The outside as the program sees it: a disk of pages, an input and an output, what a stop may leave, images of files, and how a map file is laid out.
#![tactic(auto)]

mod disk;
mod event;
mod image;
mod layout;
mod world;

pub use disk::{Disk, Door, Fault};
pub use event::Event;
pub use image::Image;
pub use layout::{
    DIRECTORY_AT, DIRECTORY_BYTES, GATE_AT, HOME_AT, LABEL, LABEL_AT, LEAST_HOME_PAGES,
    MOST_HOME_PAGES, PAGE_SIZE, file_pages, home_at, home_pages, is_label, slot_at,
};
pub use world::{Attached, Made, World};

use crate::checker::Checker;

/// The pages that a walk has visited, as bits, and what is known of the records that it has found.
#[derive(Drop)]
pub struct Surveying {
    pub used: [u8; 3750],
    pub checker: Checker,
}

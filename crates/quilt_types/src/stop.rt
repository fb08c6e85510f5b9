use thiserror::Error;

/// Why a call of a layer over a store of pages gave up: a device failed, memory ran out, or what was read is no map.
#[derive(Clone, Copy, Debug, PartialEq, Eq, Error)]
pub enum Stop {
    #[error("device fault")]
    Device,
    #[error("out of memory")]
    Memory,
    #[error("damaged page {page}")]
    Damaged { page: u32 },
}

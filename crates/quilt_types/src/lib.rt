//! The common types of the map, and the definitions of what its layers mean.
#![tactic(auto)]

mod code;
mod location_code;
mod name;
mod page_bits;
mod plane;
mod points;
mod rings;
mod stop;
mod text;

pub use code::Code;
pub use location_code::{code_of, pixel_of};
pub use name::Name;
pub use page_bits::{is_listed, list_page, unlist_page};
pub use plane::{Block, Colour, Corner, Kind, Pixel, Point, Seg, Window};
pub use points::PointList;
pub use rings::RingList;
pub use stop::Stop;
pub use text::Text;

// The memory interface and its two implementations, flat and mapped, and what is done over any memory.
#![tactic(auto)]

mod flat;
mod interface;
mod lending;
mod mapped;
mod page_tables;
mod storing;

pub use flat::FlatMemory;
pub use interface::Memory;
pub use lending::{store_image_in, store_mapped_image_in};
pub use mapped::MappedMemory;
pub use page_tables::PageTable;
pub use storing::{agree, load_word, store_image, store_word};

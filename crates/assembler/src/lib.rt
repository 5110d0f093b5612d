// The assembler: from a listing of eight-byte records to an image.
#![tactic(auto)]

mod addresses;
mod assembling;
mod checking;
mod filling;
mod labels;
mod laying;
mod listings;
mod measuring;
mod planning;
mod standing;
mod values;
mod walks;
mod writing;

pub use assembling::assemble;
pub use planning::LARGEST_IMAGE;

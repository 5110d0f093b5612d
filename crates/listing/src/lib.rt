// A listing's records: what they say, what they may say, and which words they make.
#![tactic(auto)]

mod items;
mod meaning;
mod mending;
mod operands;
mod packing;
mod reading;
mod records;
mod rules;
mod templates;

pub use items::{Body, First, Item, Mend, Outline, Rest, Section, Slot, Template};
pub use operands::set_immediate;
pub use records::{Operation, Record};

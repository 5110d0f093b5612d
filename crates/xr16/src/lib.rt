// The assembler and the core for other programs to link: bytes and numbers go in, plain structs come out.
#![tactic(auto)]

mod acting;
mod actions;
mod answers;
mod assembling;
mod playing;
mod reporting;

pub use answers::{Assembly, Fault, Playing};
pub use assembling::xr16_assemble;
pub use playing::xr16_play;

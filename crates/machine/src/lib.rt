// The core: loaded with an image, it runs words in place over any memory, and takes requests between them.
#![tactic(auto)]

mod answers;
mod body;
mod checks;
mod layouts;
mod loading;
mod questions;
mod runs;
mod settling;
mod states;
mod steps;

pub use answers::{Run, Step, StepRefusal, Tally};
pub use body::Core;
pub use states::{Layout, ServiceRange, Side};

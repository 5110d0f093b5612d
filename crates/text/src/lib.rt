// The finished text: where each record goes, what bytes it has and where they come from, and the laws
// that every accepted listing keeps.
#![tactic(auto)]

mod examples;
mod outcomes;
mod places;
mod runs;

pub use examples::worked_examples;
pub use outcomes::{Answers, Refused};
pub use places::{LabelTable, Layout, Mark, Place};
pub use runs::longest_run;

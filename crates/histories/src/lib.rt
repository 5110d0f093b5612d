// Lists of actions on a core, their histories, and what holds of every one.
#![tactic(auto)]

mod acting;
mod actions;
mod laws;

pub use acting::tally_of_step;
pub use actions::Action;
pub use laws::{hazard_may_follow, leaves_no_mark, wait_limit};

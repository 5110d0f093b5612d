// A listing assembled, loaded twice and rehearsed: a list of actions on one core, and its own steps alone on a twin.
#![tactic(auto)]

mod boards;
mod comparing;
mod pairs;
mod playing;
mod rehearsing;
mod reports;

pub use comparing::same_answer;
pub use rehearsing::rehearse;
pub use reports::{Obstacle, Program, Report, Totals};

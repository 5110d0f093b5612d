// What each of the 42 operations does, as a function of the values that it takes: a result, a new counter, an access to
// memory or a prefix, and what it leaves for the next word. Nothing here changes a core or a memory.
#![tactic(auto)]

mod conditions;
mod forerunners;
mod gathering;
mod results;
mod traces;
mod values;

pub use gathering::gather;
pub use values::{Effect, Forerunner, Operands, Width};

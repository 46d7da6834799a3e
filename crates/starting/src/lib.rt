// Which instructions could move in a cycle, if their next stage will be free.
#![tactic(auto)]

mod hazards;
pub mod ready;

pub use ready::starts;

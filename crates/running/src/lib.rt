// Run: the state at a limit of cycles, from one pass over the body.
#![tactic(auto)]

pub mod answer;
pub mod running;

pub use answer::Ran;
pub use running::{Progress, run, run_settled};

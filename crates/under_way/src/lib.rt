// Which instructions are under way at a limit of cycles, from one pass over an accepted body. An inner
// function for Run.
#![tactic(auto)]

pub mod seating;

pub use seating::{Fetched, pass};

// Whether the instructions in the pipeline are in turn, from the slots alone: part of the test of
// orderly states.
#![tactic(auto)]

pub mod order;

pub use order::{in_flight, in_order};

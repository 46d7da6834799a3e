// What stands in the pipeline: the fields of the instruction in each slot.
#![tactic(auto)]

pub mod reading;

pub use reading::{Standing, read_stages};

// One cycle of a pipeline whose instructions' fields are read.
#![tactic(auto)]

pub mod cycling;

pub use cycling::cycle;

// Write: makes a job file of counts and records.
#![tactic(auto)]

pub mod writing;

pub use writing::{Written, write};

// The job file: its checks, and where a trace's body stands in it.
#![tactic(auto)]

pub mod table;

pub use table::{Bounds, check_file, locate};

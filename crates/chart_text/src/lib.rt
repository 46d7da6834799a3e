// The chart of a job file's first trace, as text in a lent output.
#![tactic(auto)]

pub mod chart;

pub use chart::{CHART_BYTES, draw};

// The report of a job file against deadlines, as text in a lent output.
#![tactic(auto)]

mod figures;
pub mod whole;

pub use whole::{Outcome, REPORT_BYTES, Reported, report, try_report};

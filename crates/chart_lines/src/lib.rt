// The lines of a chart, each as text that a pen writes. Inner functions for the crates that draw:
// each requires room for its line.
#![tactic(auto)]

pub mod lines;

pub use lines::{
    HEADER_BYTES, ROW_BYTES, TIMES_BYTES, put_header, put_refusal, put_row, put_times,
};

// The rows of a chart, each the state that a run for as many cycles gives. An inner function for the
// crate that draws: it requires an accepted body and room for the rows.
#![tactic(auto)]

pub mod rows;

pub use rows::put_rows;

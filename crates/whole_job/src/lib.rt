// A whole job in one call: document 02, F-2. The file is checked once; then each trace's body is passed
// over once for its worst time (`passing`).
#![tactic(auto)]

pub mod call;
mod filling;

pub use call::{WholeJob, worst_times};

// One pass over the records of an accepted body: for Run as far as its limit, for a finishing time to the
// end. Inner functions, which require an accepted body.
#![tactic(auto)]

pub mod pass;

pub use pass::{Reached, finish_settled, skip_left};

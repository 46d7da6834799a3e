// An instruction read from a body with its unknown flags settled as hits or misses. An inner function
// for the passes, which settle as they read.
#![tactic(auto)]

pub mod flags;

pub use flags::settled_at;

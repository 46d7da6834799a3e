// The instructions under way at a limit, each put into the slot where it stands. An inner function for
// Run's pass.
#![tactic(auto)]

pub mod seats;

pub use seats::seat;

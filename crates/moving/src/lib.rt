// Who moves in a cycle, from who could and what is filled, and where to: document 01's "moves" and
// "will be free".
#![tactic(auto)]

pub mod moving;

pub use moving::{Traffic, none};

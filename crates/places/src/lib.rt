// Where an instruction stands at a cycle, from its times. An inner function for Run.
#![tactic(auto)]

pub mod places;

pub use places::{Place, place_at};

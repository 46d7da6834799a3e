// The time on a shared bus: document 02, F-1. The body is passed over to count the accesses, and once
// more for the worst time (`passing`), to which each counted access adds the longest wait.
#![tactic(auto)]

pub mod answer;
pub mod call;
mod counting;

pub use answer::TimeOnBus;
pub use call::{BusTime, bus_time};

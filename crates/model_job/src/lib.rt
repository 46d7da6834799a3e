// The second model's whole job in one call (document 02, F-2), over the second model's own Open and settlings. It
// shares no code with the engine.
#![tactic(auto)]

mod refusals;
mod times;

pub use times::worst_times;

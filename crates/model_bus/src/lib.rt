// The second model's time on a shared bus (document 02, F-1), over the second model's own rules. It shares no
// code with the engine.
#![tactic(auto)]

mod rows;
mod time;
mod versions;

pub use rows::{Watched, is_under_way, watch};
pub use time::{BusTime, accesses, bus_time, check_bus};
pub use versions::version;

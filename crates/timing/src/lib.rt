// Finishing times: Finish, Best and worst, Margin, Alike. Each call checks its input and then passes
// over the body's records once for each time that it needs (`passing`).
#![tactic(auto)]

pub mod answers;
pub mod calls;

pub use answers::{BestAndWorst, DeadlineMargin, Finished, Likeness};
pub use calls::{Extremes, alike, best_worst, finish, margin};

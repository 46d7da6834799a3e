// The public call Step.
#![tactic(auto)]

pub mod answer;
pub mod stepping;

pub use answer::Stepped;
pub use stepping::step;

// The chart as the second model draws it, on standard output.
#![tactic(auto)]

mod chart;

pub use chart::print_chart;

// Which job files can be timed with data hits that take so many cycles: 1 to 8 as Open gives them, then
// 17 as for the body of each trace. An inner function for the calls that time a whole file.
#![tactic(auto)]

pub mod refusals;

pub use refusals::check_timed_file;

// A line of the cases: the numbers that it gives, the bytes that it lays out, whether an answer is the
// one that it tells, and what is said of it. For the program `cases`, which says how a line is laid out.
#![tactic(auto)]

mod answer;
mod line;
mod print;
mod words;

pub use line::Line;
pub use print::{differs, end_group};
pub use words::find;

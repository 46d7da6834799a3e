// Random traces for programs that hold the engine against the second model: the generator, bodies drawn from it,
// what the programs count with, and how they hold an answer against another.
#![tactic(auto)]

mod count;
mod dice;
mod refusal;
mod traces;

pub use count::{Answers, Count};
pub use dice::Dice;
pub use refusal::{Refusal, agree, number_of};
pub use traces::{Draft, Style, has_data_access, trace};

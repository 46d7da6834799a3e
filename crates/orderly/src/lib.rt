// Whether a state is orderly: the instructions in turn, stores apart from the others, and no count
// above the entry count.
#![tactic(auto)]

pub mod order;

pub use order::orderly;

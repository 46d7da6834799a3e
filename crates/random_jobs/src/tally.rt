// What is counted.
use random_traces::{Answers, Count};

// Files, those without a trace and those with 16; those that 17 declined while whole, and those that were timed with h
// above 0. Answers, by their refusals too, those on which engine and model differ, and lists that are not as they have
// to be. Of filled lists the places that were altered, and those behind the first T that kept their former values; of
// the lists of declined calls the places that kept theirs.
#[derive(Clone, Copy, Debug, Default)]
pub struct Tally {
    pub files: Count,
    pub empty: Count,
    pub full: Count,
    pub declined: Count,
    pub with_hits: Count,
    pub answers: Count,
    pub differ: Count,
    pub wrong: Count,
    pub seen: Answers,
    pub times: Count,
    pub kept: Count,
    pub unaltered: Count,
}

// The second model of the in-order core: the cycle rules and the checks of the documents, read
// literally, for programs that compare the engine with it. It shares no code with the engine.
#![tactic(auto)]

mod body;
mod job;
mod next_stage;
mod older;
mod places;
mod refusal;
mod rules;
mod runs;
mod sets;
mod settlings;
mod trace;

pub use body::{MOST_HIT_CYCLES, check_body, check_hits, check_settled, check_timed};
pub use job::{check_write, open};
pub use places::{Core, Place, Slot, Stage, Standing};
pub use refusal::{Refusal, number_of};
pub use runs::Ran;
pub use settlings::{
    Times, all_hits_all_misses, bounds, bounds_in, finish_with_all, finish_with_all_in, margin,
    unknowns,
};
pub use trace::{
    DATA_LATENCY, FETCH_LATENCY, FLAGS, Flag, Instruction, Kind, MOST, RECORD, instruction_at,
    records,
};
